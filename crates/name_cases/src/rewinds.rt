//! The rows that are given up.

use crate::kinds::{Sample, samples};
use crate::places::{FEED_IN_RULE, FEED_IN_SITE, LOAD_IN_RULE, LOAD_IN_SITE, texts};
use crate::tally::{Section, Tally};
use names::{rewind, search};
use rows::Place;
use std::alloc::{AllocError, Global};

/// How many of four rows are in use, from where they are given up, and what comes of it.
struct RewindCase {
    name: &'static str,
    used: usize,
    from: usize,
    answer: usize,
    /// Which of the rows are blank afterwards.
    blank: [bool; 4],
}

static CASES: [RewindCase; 10] = [
    RewindCase {
        name: "the last two of four",
        used: 4,
        from: 2,
        answer: 2,
        blank: [false, false, true, true],
    },
    RewindCase {
        name: "the last one",
        used: 4,
        from: 3,
        answer: 3,
        blank: [false, false, false, true],
    },
    RewindCase {
        name: "a row not in use stays",
        used: 3,
        from: 1,
        answer: 1,
        blank: [false, true, true, false],
    },
    RewindCase {
        name: "all",
        used: 4,
        from: 0,
        answer: 0,
        blank: [true, true, true, true],
    },
    RewindCase {
        name: "as many as are in use",
        used: 3,
        from: 3,
        answer: 3,
        blank: [false, false, false, false],
    },
    RewindCase {
        name: "past those in use",
        used: 2,
        from: 3,
        answer: 2,
        blank: [false, false, false, false],
    },
    RewindCase {
        name: "far past those in use",
        used: 4,
        from: usize::MAX,
        answer: 4,
        blank: [false, false, false, false],
    },
    RewindCase {
        name: "none in use",
        used: 0,
        from: 0,
        answer: 0,
        blank: [false, false, false, false],
    },
    RewindCase {
        name: "one more in use than there are",
        used: 5,
        from: 1,
        answer: 5,
        blank: [false, false, false, false],
    },
    RewindCase {
        name: "the largest number in use",
        used: usize::MAX,
        from: 0,
        answer: usize::MAX,
        blank: [false, false, false, false],
    },
];

static NAMES: [Place; 4] = [LOAD_IN_RULE, FEED_IN_SITE, LOAD_IN_SITE, FEED_IN_RULE];

/// The rows as a case is to leave them.
fn rows_after<R: Sample>(heap: Global, blank: &[bool]) -> Result<Vec<R>, AllocError> {
    let before = samples::<R>(heap, &NAMES)?;
    before
        .iter()
        .zip(blank)
        .map(|(row, blank)| if *blank { R::blank_row() } else { *row })
        .collect(heap)
}

fn passes<R: Sample>(heap: Global, case: &RewindCase) -> Result<bool, AllocError> {
    let mut rows = samples::<R>(heap, &NAMES)?;
    let after = rows_after::<R>(heap, &case.blank)?;
    let answer = rewind(rows.as_mut_slice(), case.used, case.from);
    Ok(answer == case.answer && rows == after)
}

/// Of a list without rows there is nothing to give up.
fn leaves_no_rows<R: Sample>(heap: Global) -> bool {
    let mut rows = Vec::<R>::new(heap);
    rewind(rows.as_mut_slice(), 0, 0) == 0 && rewind(rows.as_mut_slice(), 2, 1) == 2
}

/// Rows that hid others are given up, so that the others are found again.
fn uncovers<R: Sample>(heap: Global) -> Result<bool, AllocError> {
    let mut rows = samples::<R>(heap, &NAMES)?;
    let used = rewind(rows.as_mut_slice(), 4, 2);
    let load = search(rows.as_slice(), used, b"load", texts());
    let feed = search(rows.as_slice(), used, b"feed", texts());
    Ok(load == Some(0) && feed == Some(1))
}

/// A blank row has no name: it is found by empty bytes, where it counts as in use, and its old name is gone.
fn blank_has_no_name<R: Sample>(heap: Global) -> Result<bool, AllocError> {
    let mut rows = samples::<R>(heap, &NAMES)?;
    let used = rewind(rows.as_mut_slice(), 4, 0);
    let load = search(rows.as_slice(), 4, b"load", texts());
    let empty = search(rows.as_slice(), 4, b"", texts());
    Ok(used == 0 && load.is_none() && empty == Some(3))
}

pub fn judge<R: Sample>(rt: &HostRuntime, tally: &mut Tally) -> anyhow::Result<()> {
    let heap = rt.alloc();
    let mut section = Section::new(rt, tally, "rewind of", R::KIND);
    for case in &CASES {
        section.note(case.name, passes::<R>(heap, case)?)?;
    }
    section.note("no rows", leaves_no_rows::<R>(heap))?;
    section.note("then a search", uncovers::<R>(heap)?)?;
    section.note("blank rows", blank_has_no_name::<R>(heap)?)
}
