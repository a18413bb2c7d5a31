//! The search by name, from the last row in use.

use crate::kinds::{Sample, samples};
use crate::places::{
    FEED_IN_RULE, FEED_IN_SITE, LOAD_IN_RULE, LOAD_IN_SITE, NO_NAME, PAST_RULE, texts,
};
use crate::tally::{Section, Tally};
use names::search;
use rows::{Named, Place};

/// What is sought among the first rows, and the number of the row that is found.
struct SearchCase {
    name: &'static str,
    used: usize,
    sought: &'static str,
    found: Option<usize>,
}

static NAMES: [Place; 6] = [
    LOAD_IN_RULE,
    FEED_IN_SITE,
    LOAD_IN_SITE,
    NO_NAME,
    PAST_RULE,
    FEED_IN_RULE,
];

static CASES: [SearchCase; 17] = [
    SearchCase {
        name: "a name of the rule",
        used: 2,
        sought: "load",
        found: Some(0),
    },
    SearchCase {
        name: "a name of the site",
        used: 2,
        sought: "feed",
        found: Some(1),
    },
    SearchCase {
        name: "the site's name hides the rule's",
        used: 3,
        sought: "load",
        found: Some(2),
    },
    SearchCase {
        name: "the rule's name hides the site's",
        used: 6,
        sought: "feed",
        found: Some(5),
    },
    SearchCase {
        name: "rows of other names behind it",
        used: 6,
        sought: "load",
        found: Some(2),
    },
    SearchCase {
        name: "a row not in use hides nothing",
        used: 5,
        sought: "feed",
        found: Some(1),
    },
    SearchCase {
        name: "a row not in use is not found",
        used: 1,
        sought: "feed",
        found: None,
    },
    SearchCase {
        name: "none in use",
        used: 0,
        sought: "load",
        found: None,
    },
    SearchCase {
        name: "one more in use than there are",
        used: 7,
        sought: "feed",
        found: Some(5),
    },
    SearchCase {
        name: "the largest number in use",
        used: usize::MAX,
        sought: "load",
        found: Some(2),
    },
    SearchCase {
        name: "empty bytes find no name",
        used: 4,
        sought: "",
        found: Some(3),
    },
    SearchCase {
        name: "empty bytes find a name that does not fit",
        used: 6,
        sought: "",
        found: Some(4),
    },
    SearchCase {
        name: "empty bytes without an empty name",
        used: 3,
        sought: "",
        found: None,
    },
    SearchCase {
        name: "the part of a name before its end",
        used: 6,
        sought: "loa",
        found: None,
    },
    SearchCase {
        name: "a name with one byte more",
        used: 6,
        sought: "loadf",
        found: None,
    },
    SearchCase {
        name: "a name in other letters",
        used: 6,
        sought: "Load",
        found: None,
    },
    SearchCase {
        name: "what the misfit would be if it were cut",
        used: 6,
        sought: "eed",
        found: None,
    },
];

static IN_NO_ROWS: [SearchCase; 3] = [
    SearchCase {
        name: "no rows",
        used: 0,
        sought: "load",
        found: None,
    },
    SearchCase {
        name: "no rows, empty bytes",
        used: 0,
        sought: "",
        found: None,
    },
    SearchCase {
        name: "no rows, though some are said to be in use",
        used: 3,
        sought: "",
        found: None,
    },
];

fn judge_all<R: Named>(
    section: &mut Section<'_>,
    rows: &[R],
    cases: &[SearchCase],
) -> anyhow::Result<()> {
    for case in cases {
        let found = search(rows, case.used, case.sought.as_bytes(), texts());
        section.note(case.name, found == case.found)?;
    }
    Ok(())
}

pub fn judge<R: Sample>(rt: &HostRuntime, tally: &mut Tally) -> anyhow::Result<()> {
    let rows = samples::<R>(rt.alloc(), &NAMES)?;
    let mut section = Section::new(rt, tally, "search of", R::KIND);
    judge_all(&mut section, rows.as_slice(), &CASES)?;
    judge_all::<R>(&mut section, &[], &IN_NO_ROWS)
}
