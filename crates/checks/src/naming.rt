ghost use Rattle.std.specs.Prelude.{◌≡◌, ℕ, ◌+◌, ◌<◌, ◌≤◌, slice_index};
ghost use Rattle.image.specs.Bytes.{all_below};
ghost use Rattle.image.specs.Layouts.{layout_of};
ghost use Rattle.image.specs.Rows.{stmt, parts};
ghost use Rattle.checks.specs.Rules.{above, names_above, block_above, names, hits, namings, once_each, named_once};

use image::{MOST_BLOCKS, Parts, Tables};

fn above(b: usize, named: Option<u16>) -> bool
    ensures { result ≡ above b named }
{
    named.is_none_or(|n| b < n as usize)
}

fn names_above(b: usize, parts: Parts) -> bool
    ensures { result ≡ names_above b parts }
{
    above(b, parts.body) && above(b, parts.branch)
}

fn stmt_above(tables: &Tables, b: usize, j: usize) -> bool
    ensures { result ≡ names_above b (parts (stmt tables.now.image.now j)) }
{
    names_above(b, tables.stmt(j).parts())
}

/// Whether the statements of block `b` name only higher blocks.
fn block_above(tables: &Tables, b: usize) -> bool
    ensures { result ≡ block_above tables.now.image.now b }
{
    tables
        .block(b)
        .statements()
        .all(|j| stmt_above(tables, b, j))
}

fn all_above(tables: &Tables) -> bool
    ensures { result ≡ all_below (block_above tables.now.image.now) (layout_of tables.now.image.now).blocks }
{
    (0..tables.layout().blocks).all(|b| block_above(tables, b))
}

/// Counts one more naming, if there is one.
fn note(counts: &mut [u16; MOST_BLOCKS], named: Option<u16>)
    requires { (n : ℕ) → n < 256 → slice_index counts.old n < 65535 }
    ensures { (n : ℕ) → n < 256 → slice_index counts.new n ≡ slice_index counts.old n + names named n }
{
    if let Some(n) = named {
        let n = n as usize;
        // A table of rows that are not yet known to be sound may name any number.
        if n < MOST_BLOCKS {
            counts[n] += 1;
        }
    }
}

/// How often each block is named.
fn count_namings(tables: &Tables) -> [u16; MOST_BLOCKS]
    ensures { (n : ℕ) → n < 256 → slice_index result n ≡ namings tables.now.image.now n }
{
    let mut counts = [0; MOST_BLOCKS];
    for j in 0..tables.layout().statements {
        let parts = tables.stmt(j).parts();
        note(&mut counts, parts.body);
        note(&mut counts, parts.branch);
    }
    counts
}

fn once_each(tables: &Tables) -> bool
    ensures { result ≡ once_each tables.now.image.now }
{
    let counts = count_namings(tables);
    (1..tables.layout().blocks).all(|n| counts[n] == 1)
}

/// Whether each block but block 0 is named exactly once, and by a lower one.
pub fn named_once(tables: &Tables) -> bool
    ensures { result ≡ named_once tables.now.image.now }
{
    all_above(tables) && once_each(tables)
}
