ghost use Rattle.std.specs.Prelude.{◌≡◌, length};
ghost use Rattle.script.specs.Meaning.{entry_at, turned};

use crate::effect::Effect;

/// One call of a script: two effects in order, each of which may be none, then an answer.
#[derive(Clone, Copy, Debug, PartialEq, Eq)]
pub struct Entry<A> {
    pub first: Option<Effect>,
    pub second: Option<Effect>,
    pub answer: A,
}

/// The entry that is due after so many; another where there are none.
fn entry_at<A: Copy>(entries: &[Entry<A>], count: usize, other: Entry<A>) -> Entry<A>
    ensures { result ≡ entry_at entries.now count other }
{
    if entries.is_empty() {
        other
    } else {
        entries[count % entries.len()]
    }
}

/// The count after one more entry of `n`. A lent count may be anything, and 1 more than the largest would not fit, so the
/// remainder is taken before the sum too.
fn turn(count: usize, n: usize) -> usize
    ensures { result ≡ turned count n }
{
    if n == 0 { count } else { (count % n + 1) % n }
}

/// The entry that is due, which is counted as done.
pub(crate) fn next_entry<A: Copy>(
    entries: &[Entry<A>],
    count: &mut usize,
    other: Entry<A>,
) -> Entry<A>
    ensures due { result ≡ entry_at entries.now count.old other }
    ensures counted { count.new ≡ turned count.old (length entries.now) }
{
    let entry = entry_at(entries, *count, other);
    *count = turn(*count, entries.len());
    entry
}
