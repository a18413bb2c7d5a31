//! The two texts, the places that the cases use, and what each place reads as.

use crate::tally::{Section, Tally};
use rows::{Place, Source, Texts};

/// A place in one of the two texts, by its offset and its length.
macro_rules! place {
    ($source:ident, $offset:expr, $length:expr) => {
        Place {
            source: Source::$source,
            offset: $offset,
            length: $length,
        }
    };
}

const RULE: &str = "loadfeed";

const SITE: &str = "feedloadlo";

pub fn texts() -> Texts<'static> {
    Texts {
        rule: RULE.as_bytes(),
        site: SITE.as_bytes(),
    }
}

pub const LOAD_IN_RULE: Place = place!(Rule, 0, 4);

pub const FEED_IN_RULE: Place = place!(Rule, 4, 4);

pub const FEED_IN_SITE: Place = place!(Site, 0, 4);

pub const LOAD_IN_SITE: Place = place!(Site, 4, 4);

/// The name `lo`, at the very end of its text.
pub const LO_IN_SITE: Place = place!(Site, 8, 2);

/// What stands for no name, written out as the rules have it.
pub const NO_NAME: Place = place!(Rule, 0, 0);

/// A place whose last byte is one past the rule's text.
pub const PAST_RULE: Place = place!(Rule, 5, 4);

/// The place of `lo`, but in the rule's text, which ends before it.
const LO_IN_RULE: Place = place!(Rule, 8, 2);

const ALL_OF_RULE: Place = place!(Rule, 0, 8);

const ONE_MORE_THAN_RULE: Place = place!(Rule, 0, 9);

const BEHIND_RULE: Place = place!(Rule, 9, 1);

const EMPTY_INSIDE: Place = place!(Rule, 3, 0);

const EMPTY_AT_END: Place = place!(Site, 10, 0);

const EMPTY_BEHIND: Place = place!(Site, 11, 0);

const FARTHEST: Place = place!(Site, u32::MAX, u32::MAX);

/// A place whose end is 1 in a sum of 32 bits.
const WRAPS: Place = place!(Rule, u32::MAX - 2, 4);

/// A place, and what it reads as.
struct PlaceCase {
    name: &'static str,
    place: Place,
    text: &'static str,
}

static CASES: [PlaceCase; 16] = [
    PlaceCase {
        name: "a name of the rule",
        place: LOAD_IN_RULE,
        text: "load",
    },
    PlaceCase {
        name: "a name of the site",
        place: FEED_IN_SITE,
        text: "feed",
    },
    PlaceCase {
        name: "offset 4 of the rule",
        place: FEED_IN_RULE,
        text: "feed",
    },
    PlaceCase {
        name: "offset 4 of the site",
        place: LOAD_IN_SITE,
        text: "load",
    },
    PlaceCase {
        name: "a name up to the text's end",
        place: LO_IN_SITE,
        text: "lo",
    },
    PlaceCase {
        name: "a whole text",
        place: ALL_OF_RULE,
        text: "loadfeed",
    },
    PlaceCase {
        name: "no name",
        place: NO_NAME,
        text: "",
    },
    PlaceCase {
        name: "an empty name inside the text",
        place: EMPTY_INSIDE,
        text: "",
    },
    PlaceCase {
        name: "an empty name at the text's end",
        place: EMPTY_AT_END,
        text: "",
    },
    PlaceCase {
        name: "an empty name behind the text",
        place: EMPTY_BEHIND,
        text: "",
    },
    PlaceCase {
        name: "one byte past the end is not cut",
        place: PAST_RULE,
        text: "",
    },
    PlaceCase {
        name: "one byte longer than the text",
        place: ONE_MORE_THAN_RULE,
        text: "",
    },
    PlaceCase {
        name: "an offset behind the text",
        place: BEHIND_RULE,
        text: "",
    },
    PlaceCase {
        name: "a place that fits the other text alone",
        place: LO_IN_RULE,
        text: "",
    },
    PlaceCase {
        name: "the largest offset and length",
        place: FARTHEST,
        text: "",
    },
    PlaceCase {
        name: "an end that 32 bits do not hold",
        place: WRAPS,
        text: "",
    },
];

static IN_NO_TEXTS: [PlaceCase; 3] = [
    PlaceCase {
        name: "a name of the rule, no texts",
        place: LOAD_IN_RULE,
        text: "",
    },
    PlaceCase {
        name: "a name of the site, no texts",
        place: LOAD_IN_SITE,
        text: "",
    },
    PlaceCase {
        name: "no name, no texts",
        place: NO_NAME,
        text: "",
    },
];

fn judge_all(
    section: &mut Section<'_>,
    texts: Texts<'_>,
    cases: &[PlaceCase],
) -> anyhow::Result<()> {
    for case in cases {
        let passes = case.place.text(texts) == case.text.as_bytes();
        section.note(case.name, passes)?;
    }
    Ok(())
}

pub fn judge(rt: &HostRuntime, tally: &mut Tally) -> anyhow::Result<()> {
    let mut section = Section::new(rt, tally, "text of", "a place");
    judge_all(&mut section, texts(), &CASES)?;
    let empty = Texts {
        rule: b"",
        site: b"",
    };
    judge_all(&mut section, empty, &IN_NO_TEXTS)
}
