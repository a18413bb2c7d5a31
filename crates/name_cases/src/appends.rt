//! The row that is written behind those in use.

use crate::kinds::{Sample, samples};
use crate::places::{FEED_IN_SITE, LO_IN_SITE, LOAD_IN_RULE, LOAD_IN_SITE, texts};
use crate::tally::{Section, Tally};
use names::{append, search};
use rows::Place;
use std::alloc::{AllocError, Global};

/// How many of three rows are in use, and what comes of a further one.
struct AppendCase {
    name: &'static str,
    used: usize,
    answer: Option<usize>,
    /// The number of the row that is written, if one is.
    written: Option<usize>,
}

static CASES: [AppendCase; 6] = [
    AppendCase {
        name: "none in use",
        used: 0,
        answer: Some(1),
        written: Some(0),
    },
    AppendCase {
        name: "room for two",
        used: 1,
        answer: Some(2),
        written: Some(1),
    },
    AppendCase {
        name: "room for one",
        used: 2,
        answer: Some(3),
        written: Some(2),
    },
    AppendCase {
        name: "no room",
        used: 3,
        answer: None,
        written: None,
    },
    AppendCase {
        name: "one more in use than there are",
        used: 4,
        answer: None,
        written: None,
    },
    AppendCase {
        name: "the largest number in use",
        used: usize::MAX,
        answer: None,
        written: None,
    },
];

static NAMES: [Place; 3] = [LOAD_IN_RULE, FEED_IN_SITE, LO_IN_SITE];

/// The row that the cases append, which has a name of the rows.
fn appended<R: Sample>() -> R {
    R::sample(LOAD_IN_SITE, 99)
}

/// The rows as a case is to leave them.
fn rows_after<R: Sample>(heap: Global, written: Option<usize>) -> Result<Vec<R>, AllocError> {
    let mut rows = samples::<R>(heap, &NAMES)?;
    if let Some(i) = written
        && let Some(row) = rows.get_mut(i)
    {
        *row = appended();
    }
    Ok(rows)
}

fn passes<R: Sample>(heap: Global, case: &AppendCase) -> Result<bool, AllocError> {
    let mut rows = samples::<R>(heap, &NAMES)?;
    let after = rows_after::<R>(heap, case.written)?;
    let answer = append(rows.as_mut_slice(), case.used, appended());
    Ok(answer == case.answer && rows == after)
}

/// A list without rows has no room.
fn refuses_without_rows<R: Sample>(heap: Global) -> bool {
    let mut rows = Vec::<R>::new(heap);
    append(rows.as_mut_slice(), 0, appended()).is_none()
}

/// A row that was appended is found, and hides an earlier one of its name.
fn is_found<R: Sample>(heap: Global) -> Result<bool, AllocError> {
    let mut rows = samples::<R>(heap, &NAMES)?;
    let answer = append(rows.as_mut_slice(), 1, appended());
    Ok(answer.is_some_and(|used| search(rows.as_slice(), used, b"load", texts()) == Some(1)))
}

/// A row that had no room is not found.
fn is_not_found<R: Sample>(heap: Global) -> Result<bool, AllocError> {
    let mut rows = samples::<R>(heap, &NAMES)?;
    let answer = append(rows.as_mut_slice(), 3, appended());
    Ok(answer.is_none() && search(rows.as_slice(), 3, b"load", texts()) == Some(0))
}

pub fn judge<R: Sample>(rt: &HostRuntime, tally: &mut Tally) -> anyhow::Result<()> {
    let heap = rt.alloc();
    let mut section = Section::new(rt, tally, "append to", R::KIND);
    for case in &CASES {
        section.note(case.name, passes::<R>(heap, case)?)?;
    }
    section.note("no rows", refuses_without_rows::<R>(heap))?;
    section.note("then a search", is_found::<R>(heap)?)?;
    section.note("no room, then a search", is_not_found::<R>(heap)?)
}
