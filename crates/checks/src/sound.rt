ghost use Rattle.std.specs.Prelude.{◌≡◌, ℕ, ◌+◌, ◌*◌, ◌<◌, ◌≤◌, true, is_some};
ghost use Rattle.image.specs.Bytes.{all_below};
ghost use Rattle.image.specs.Layouts.{layout_of};
ghost use Rattle.image.specs.Rows.{expr_at};
ghost use Rattle.checks.specs.Rules.{refers, lies, fits, sound, all_sound};

use image::{Name, Parts, Tables};

fn refers(rows: usize, reference: Option<u16>) -> bool
    ensures { result ≡ refers rows reference }
{
    reference.is_none_or(|i| (i as usize) < rows)
}

fn lies(text: usize, name: Option<Name>) -> bool
    ensures { result ≡ lies text name }
{
    name.is_none_or(|n| n.offset as usize + n.length as usize <= text)
}

fn fits(tables: &Tables, parts: Parts) -> bool
    ensures { result ≡ fits tables.now.image.now parts }
{
    let layout = tables.layout();
    refers(layout.expressions, parts.expr)
        && refers(layout.blocks, parts.body)
        && refers(layout.blocks, parts.branch)
        && lies(layout.text, parts.name)
        && lies(layout.text, parts.counter)
}

fn sound(tables: &Tables, i: usize) -> bool
    ensures { result ≡ sound tables.now.image.now i }
{
    let Some(row) = tables.statement(i) else {
        return false;
    };
    fits(tables, row.stmt.parts())
}

fn statements_sound(tables: &Tables) -> bool
    ensures { result ≡ all_below (sound tables.now.image.now) (layout_of tables.now.image.now).statements }
{
    (0..tables.layout().statements).all(|i| sound(tables, i))
}

fn expressions_known(tables: &Tables) -> bool
    ensures { result ≡ all_below (λ i. is_some (expr_at tables.now.image.now i)) (layout_of tables.now.image.now).expressions }
{
    (0..tables.layout().expressions).all(|i| tables.expression(i).is_some())
}

/// Whether every row is of a known kind, with its required parts, and refers to what is there.
pub fn all_sound(tables: &Tables) -> bool
    ensures { result ≡ all_sound tables.now.image.now }
{
    statements_sound(tables) && expressions_known(tables)
}
