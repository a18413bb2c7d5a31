//! A list of named rows, on rows that the caller lends with the number of those in use.
#![tactic(auto)]

ghost use Rattle.std.specs.Prelude.{◌≡◌};
ghost use Rattle.rows.specs.Rows.{in_use};
ghost use Rattle.names.specs.Lists.{appended, lengthened, last_named, LastNamed, name_in, rewound, shortened};

use rows::{Blank, Named, Texts};

/// Writes a row behind those in use. Where there is no room it writes none, and answers none.
pub fn append<R: Copy>(rows: &mut [R], used: usize, row: R) -> Option<usize>
    ensures used { result ≡ lengthened rows.old used }
    ensures rows { rows.new ≡ appended rows.old used row }
{
    if used >= rows.len() {
        return None;
    }
    rows[used] = row;
    Some(used + 1)
}

/// The rows in use; a number past the rows counts as all of them.
fn rows_in_use<R>(rows: &[R], used: usize) -> &[R]
    ensures { result.now ≡ in_use rows.now used }
{
    &rows[..used.min(rows.len())]
}

/// The last row in use whose name has these bytes; none exactly if no row in use has them.
pub fn search<R: Named>(rows: &[R], used: usize, name: &[u8], texts: Texts<'_>) -> Option<usize>
    ensures value { result ≡ last_named (name_in R.Named.place texts.entry.rule.now texts.entry.site.now) name.now (in_use rows.now used) }
    ensures last { LastNamed (name_in R.Named.place texts.entry.rule.now texts.entry.site.now) name.now (in_use rows.now used) result }
{
    rows_in_use(rows, used)
        .iter()
        .rposition(|row| row.place().text(texts) == name)
}

/// Gives up the rows in use from `n` on. Where no more than `n` are in use, or more than there are, it does nothing.
pub fn rewind<R: Blank + Copy>(rows: &mut [R], used: usize, n: usize) -> usize
    ensures used { result ≡ shortened rows.old used n }
    ensures rows { rows.new ≡ rewound R.Blank.blank rows.old used n }
{
    if used > rows.len() || used <= n {
        return used;
    }
    for row in &mut rows[n..used] {
        *row = R::blank();
    }
    n
}
