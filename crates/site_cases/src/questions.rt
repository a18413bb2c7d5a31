//! The calls that depend on their arguments alone, and the one that allows a name.

use crate::operands::*;
use crate::show::Answer;
use host::{Caught, Declaration, Host, View};
use rows::{Access, Texts, VarRow};
use site::{SiteExpr, SiteHost, SiteValue};

const ITEMS: [(SiteValue, u32); 22] = [
    (SiteValue::Range(0, 3), 0),
    (SiteValue::Range(0, 3), 2),
    (SiteValue::Range(0, 3), 3),
    (SiteValue::Range(-2, 1), 1),
    (SiteValue::Range(-2, 1), 2),
    (SiteValue::Range(-2, 1), 3),
    (SiteValue::Range(i64::MIN, i64::MAX), 0),
    (SiteValue::Range(i64::MIN, i64::MAX), u32::MAX),
    (SiteValue::Range(i64::MAX - 1, i64::MAX), 0),
    (SiteValue::Range(i64::MAX - 1, i64::MAX), 1),
    (SiteValue::Range(i64::MAX - 1, i64::MAX), 2),
    (SiteValue::Range(i64::MAX - 1, i64::MAX), u32::MAX),
    (SiteValue::Range(i64::MAX, i64::MAX), 0),
    (SiteValue::Range(i64::MAX, i64::MIN), 0),
    (SiteValue::Range(i64::MIN, i64::MIN), 0),
    (
        SiteValue::Range(i64::MAX - u32::MAX as i64, i64::MAX),
        u32::MAX - 1,
    ),
    (
        SiteValue::Range(i64::MAX - u32::MAX as i64, i64::MAX),
        u32::MAX,
    ),
    (SiteValue::Range(5, 5), 0),
    (SiteValue::Range(5, 3), 0),
    (SiteValue::Unit, 0),
    (SiteValue::Truth(true), 1),
    (SiteValue::Number(3), u32::MAX),
];

const VALUES: [SiteValue; 13] = [
    SiteValue::Unit,
    SiteValue::Truth(true),
    SiteValue::Truth(false),
    SiteValue::Number(0),
    SiteValue::Number(-1),
    SiteValue::Number(1_000_000_000),
    SiteValue::Number(1_000_000_001),
    SiteValue::Number(u32::MAX as i64),
    SiteValue::Number(u32::MAX as i64 + 1),
    SiteValue::Number(u32::MAX as i64 + 2),
    SiteValue::Number(i64::MIN),
    SiteValue::Number(i64::MAX),
    SiteValue::Range(0, 1),
];

const APPLICATIONS: [(u16, SiteValue, SiteValue); 14] = [
    (0, SiteValue::Number(1), SiteValue::Number(2)),
    (1, SiteValue::Number(1), SiteValue::Number(2)),
    (2, SiteValue::Number(1), SiteValue::Number(2)),
    (3, SiteValue::Number(1), SiteValue::Number(2)),
    (u16::MAX, SiteValue::Number(1), SiteValue::Number(2)),
    (1, SiteValue::Number(i64::MAX), SiteValue::Number(1)),
    (1, SiteValue::Number(i64::MIN), SiteValue::Number(-1)),
    (2, SiteValue::Number(i64::MIN), SiteValue::Number(1)),
    (1, SiteValue::Unit, SiteValue::Number(1)),
    (1, SiteValue::Number(1), SiteValue::Truth(true)),
    (1, SiteValue::Range(0, 3), SiteValue::Range(0, 3)),
    (2, SiteValue::Number(1), SiteValue::Unit),
    (2, SiteValue::Truth(true), SiteValue::Number(1)),
    (3, SiteValue::Unit, SiteValue::Unit),
];

const FAULTS: [(&str, Caught); 9] = [
    ("caught not allowed", Caught::NotAllowed(A_IN_RULE)),
    ("caught wrong kind", Caught::WrongKind),
    ("caught not iterable", Caught::NotIterable),
    ("caught no such name", Caught::NoSuchName(A_IN_RULE)),
    ("caught constant target", Caught::ConstantTarget(A_IN_RULE)),
    ("caught no operator", Caught::NoOperator(3)),
    ("caught no module", Caught::NoModule(4)),
    ("caught resolver", Caught::Resolver(5)),
    ("caught host", Caught::Host(6)),
];

static NO_EXPRS: [SiteExpr; 0] = [];

fn print_answer(rt: &HostRuntime, question: &str, answer: SiteValue) -> anyhow::Result<()> {
    println!(rt; "{question}: {answer}")?;
    Ok(())
}

fn print_item(rt: &HostRuntime, value: SiteValue, i: u32) -> anyhow::Result<()> {
    let answer = Answer::from(SiteHost::new(&NO_EXPRS).item(value, i));
    println!(rt; "item {i} of {value}: {answer}")?;
    Ok(())
}

pub fn print_items(rt: &HostRuntime) -> anyhow::Result<()> {
    for (value, i) in ITEMS {
        print_item(rt, value, i)?;
    }
    Ok(())
}

/// What a value is asked for.
fn print_value(rt: &HostRuntime, value: SiteValue) -> anyhow::Result<()> {
    let host = SiteHost::new(&NO_EXPRS);
    let unit = host.is_unit(value);
    let truth = Answer::from(host.truth(value));
    let whole = Answer::from(host.whole(value));
    let path = Answer::from(host.path(value));
    println!(rt; "{value}: unit {unit}, truth {truth}, whole {whole}, path {path}")?;
    Ok(())
}

pub fn print_values(rt: &HostRuntime) -> anyhow::Result<()> {
    for value in VALUES {
        print_value(rt, value)?;
    }
    Ok(())
}

/// An operator by both calls that take one.
fn print_application(rt: &HostRuntime, op: u16, l: SiteValue, r: SiteValue) -> anyhow::Result<()> {
    let host = SiteHost::new(&NO_EXPRS);
    let apply = Answer::from(host.apply(op, l, r));
    let binary = Answer::from(host.binary(op, l, r));
    println!(rt; "operator {op} on {l} and {r}: apply {apply}, binary {binary}")?;
    Ok(())
}

pub fn print_applications(rt: &HostRuntime) -> anyhow::Result<()> {
    for (op, l, r) in APPLICATIONS {
        print_application(rt, op, l, r)?;
    }
    Ok(())
}

pub fn print_faults(rt: &HostRuntime) -> anyhow::Result<()> {
    let host = SiteHost::new(&NO_EXPRS);
    for (question, fault) in FAULTS {
        print_answer(rt, question, host.caught(fault))?;
    }
    Ok(())
}

/// Made values.
pub fn print_made(rt: &HostRuntime) -> anyhow::Result<()> {
    let host = SiteHost::new(&NO_EXPRS);
    print_answer(rt, "made unit", host.make_unit())?;
    print_answer(rt, "made true", host.make_truth(true))?;
    print_answer(rt, "made false", host.make_truth(false))?;
    print_answer(rt, "made 0", host.make_whole(0))?;
    print_answer(rt, "made 1000000000", host.make_whole(1_000_000_000))?;
    print_answer(rt, "made 4294967295", host.make_whole(u32::MAX))
}

/// A name that is about to be declared, with more variables in use than there are.
pub fn print_allowed(rt: &HostRuntime) -> anyhow::Result<()> {
    let mut vars = [VarRow::new(A_IN_RULE, Access::Constant, SiteValue::Unit)];
    let texts = Texts {
        rule: &RULE,
        site: &SITE,
    };
    let view = View {
        texts,
        mark: true,
        limit: 0,
    };
    let declaration = Declaration {
        name: A_IN_RULE,
        access: Access::ReadWrite,
        level: 0,
        present: true,
    };
    let (used, answer) = SiteHost::new(&NO_EXPRS).allow(declaration, &mut vars, 99, view);
    println!(rt; "allowed, 99 used: {}, {used} used", Answer::from(answer))?;
    Ok(())
}
