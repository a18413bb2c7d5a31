//! The list host.

use crate::calls::{print_made, print_read, view};
use crate::told;
use host::{Caught, Declaration, Host};
use list::{ListEntry, ListHost, ListValue};
use rows::{Access, Place, Source, Texts, VarRow};

const PLACE: Place = Place {
    source: Source::Rule,
    offset: 0,
    length: 1,
};

const TEXTS: Texts<'static> = Texts {
    rule: b"x",
    site: b"",
};

const VALUES: [ListValue; 10] = [
    ListValue(0),
    ListValue(1),
    ListValue(2),
    ListValue(3),
    ListValue(4),
    ListValue(5),
    ListValue(1_000_000_002),
    ListValue(1_000_000_003),
    ListValue(1_000_000_004),
    ListValue(u32::MAX),
];

const WHOLES: [u32; 6] = [0, 1, 1_000_000_000, u32::MAX - 3, u32::MAX - 2, u32::MAX];

const CAUGHT: [Caught; 9] = [
    Caught::NotAllowed(PLACE),
    Caught::WrongKind,
    Caught::NotIterable,
    Caught::NoSuchName(PLACE),
    Caught::ConstantTarget(PLACE),
    Caught::NoOperator(7),
    Caught::NoModule(8),
    Caught::Resolver(9),
    Caught::Host(10),
];

fn print_wholes(rt: &HostRuntime, host: &ListHost<'_>) -> anyhow::Result<()> {
    for n in WHOLES {
        println!(rt; "list whole {n}: {}", host.make_whole(n))?;
    }
    Ok(())
}

fn print_caught(rt: &HostRuntime, host: &ListHost<'_>) -> anyhow::Result<()> {
    for fault in CAUGHT {
        let number = fault.number();
        println!(rt; "list caught {number}: {}", host.caught(fault))?;
    }
    Ok(())
}

fn print_fixed(rt: &HostRuntime, host: &ListHost<'_>) -> anyhow::Result<()> {
    let five = ListValue(5);
    println!(rt;
        "list apply: {}",
        told::Application(host.apply(1, five, five))
    )?;
    println!(rt;
        "list binary: {}",
        told::Application(host.binary(2, five, five))
    )?;
    println!(rt; "list item: {}", told::ItemAt(host.item(five, 0)))?;
    Ok(())
}

/// Five evaluations of a list of three; one row of two is in use at first, and then more than there are.
fn print_evaluated(rt: &HostRuntime, vars: &mut [VarRow<ListValue>]) -> anyhow::Result<()> {
    let entries = [ListEntry::Value(5), ListEntry::Exit(3), ListEntry::Value(0)];
    let mut host = ListHost {
        entries: &entries,
        next: 0,
    };
    for used in [1, 1, 2, 3, 0] {
        let (names, answer) = host.evaluate(9, vars, used, view(TEXTS, false, 2));
        let answer = told::Evaluation(answer);
        let next = host.next;
        println!(rt; "list evaluate: {answer}, names {names}, next {next}")?;
    }
    Ok(())
}

fn print_allowed(rt: &HostRuntime, vars: &mut [VarRow<ListValue>]) -> anyhow::Result<()> {
    let mut host = ListHost {
        entries: &[],
        next: 4,
    };
    for present in [true, false] {
        let declaration = Declaration {
            name: PLACE,
            access: Access::ReadWrite,
            level: 0,
            present,
        };
        let (names, answer) = host.allow(declaration, vars, 1, view(TEXTS, true, 2));
        let answer = told::Permission(answer);
        let next = host.next;
        println!(rt; "list allow, present {present}: {answer}, names {names}, next {next}")?;
    }
    Ok(())
}

pub fn print_list(rt: &HostRuntime) -> anyhow::Result<()> {
    let host = ListHost {
        entries: &[],
        next: 0,
    };
    let made = [
        ("unit", host.make_unit()),
        ("false", host.make_truth(false)),
        ("true", host.make_truth(true)),
    ];
    print_read(rt, "list", &host, &VALUES)?;
    print_made(rt, "list", &made)?;
    print_wholes(rt, &host)?;
    print_caught(rt, &host)?;
    print_fixed(rt, &host)?;
    let mut vars = [VarRow::new(PLACE, Access::Constant, ListValue(7)); 2];
    print_evaluated(rt, &mut vars)?;
    print_allowed(rt, &mut vars)
}
