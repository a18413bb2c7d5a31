//! The resolvers.

use crate::told;
use host::Fault;
use image::Position;
use resolve::{Pair, PathRow, Resolved, Resolver, TableResolver};

const BROKEN: Resolved = Err(Fault {
    code: 5,
    at: Position { line: 3, column: 4 },
    catchable: true,
});

const FIRST: [PathRow; 5] = [
    PathRow {
        path: 1,
        answer: Ok(Some(10)),
    },
    PathRow {
        path: 2,
        answer: Ok(None),
    },
    PathRow {
        path: 2,
        answer: Ok(Some(20)),
    },
    PathRow {
        path: 3,
        answer: BROKEN,
    },
    PathRow {
        path: 1,
        answer: Ok(Some(11)),
    },
];

const SECOND: [PathRow; 4] = [
    PathRow {
        path: 1,
        answer: Ok(Some(12)),
    },
    PathRow {
        path: 2,
        answer: Ok(Some(22)),
    },
    PathRow {
        path: 3,
        answer: Ok(Some(32)),
    },
    PathRow {
        path: 4,
        answer: Ok(Some(42)),
    },
];

fn print_answers<R: Resolver>(rt: &HostRuntime, name: &str, resolver: &R) -> anyhow::Result<()> {
    for path in [1, 2, 3, 4, 5] {
        let answer = told::Resolution(resolver.resolve(path));
        println!(rt; "{name} {path}: {answer}")?;
    }
    Ok(())
}

pub fn print_resolvers(rt: &HostRuntime) -> anyhow::Result<()> {
    let first = TableResolver { rows: &FIRST };
    let second = TableResolver { rows: &SECOND };
    let pair = Pair { first, second };
    let turned = Pair {
        first: second,
        second: first,
    };
    let empty = TableResolver { rows: &[] };
    print_answers(rt, "table", &first)?;
    print_answers(rt, "empty table", &empty)?;
    print_answers(rt, "pair", &pair)?;
    print_answers(rt, "turned pair", &turned)?;
    print_answers(
        rt,
        "pair of pairs",
        &Pair {
            first: empty,
            second: pair,
        },
    )
}
