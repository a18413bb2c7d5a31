//! Expressions, with the number of variables in use.

use crate::operands::*;
use crate::show::{Answer, Expr};
use host::{Evaluated, Host, View};
use rows::{Access, Texts, VarRow};
use site::Operator::{Add, Equal, Less, Range, Subtract};
use site::SiteExpr::Binary;
use site::{Operand, Operator, SiteExpr, SiteHost, SiteValue};

/// One operand of each kind.
const KINDS: [Operand; 4] = [UNIT, YES, TWO, THREE_FROM_0];

const OPERATORS: [Operator; 5] = [Add, Subtract, Less, Equal, Range];

const CASES: [(SiteExpr, usize); 57] = [
    (SiteExpr::Operand(UNIT), 0),
    (SiteExpr::Operand(YES), 0),
    (SiteExpr::Operand(LOW), 0),
    (SiteExpr::Operand(ALL), 0),
    (Binary(Add, HIGH, ONE), 0),
    (Binary(Add, LOW, MINUS_ONE), 0),
    (Binary(Add, HIGH, LOW), 0),
    (Binary(Add, HIGH, MINUS_ONE), 0),
    (Binary(Subtract, LOW, ONE), 0),
    (Binary(Subtract, HIGH, MINUS_ONE), 0),
    (Binary(Subtract, ZERO, LOW), 0),
    (Binary(Subtract, MINUS_ONE, LOW), 0),
    (Binary(Subtract, LOW, LOW), 0),
    (Binary(Subtract, HIGH, HIGH), 0),
    (Binary(Less, LOW, HIGH), 0),
    (Binary(Less, HIGH, LOW), 0),
    (Binary(Less, ONE, ONE), 0),
    (Binary(Less, MINUS_ONE, ZERO), 0),
    (Binary(Less, ZERO, MINUS_ONE), 0),
    (Binary(Equal, LOW, LOW), 0),
    (Binary(Equal, LOW, HIGH), 0),
    (Binary(Equal, ONE, MINUS_ONE), 0),
    (Binary(Equal, YES, NO), 0),
    (Binary(Equal, NO, NO), 0),
    (Binary(Equal, THREE_FROM_0, FOUR_FROM_0), 0),
    (Binary(Equal, THREE_FROM_0, TWO_FROM_1), 0),
    (Binary(Range, LOW, HIGH), 0),
    (Binary(Range, TWO, ONE), 0),
    (SiteExpr::Operand(A), 4),
    (SiteExpr::Operand(SITE_A), 4),
    (SiteExpr::Operand(A), 3),
    (SiteExpr::Operand(A), 0),
    (SiteExpr::Operand(B), 5),
    (SiteExpr::Operand(B), 6),
    (SiteExpr::Operand(SITE_B), 5),
    (SiteExpr::Operand(B), 99),
    (SiteExpr::Operand(X), 6),
    (SiteExpr::Operand(AB), 6),
    (Binary(Add, C, ONE), 6),
    (Binary(Add, ONE, C), 6),
    (Binary(Subtract, C, ONE), 6),
    (Binary(Add, A, SITE_A), 6),
    (Binary(Add, UNIT, X), 6),
    (Binary(Add, X, UNIT), 6),
    (Binary(Add, X, X), 6),
    (Binary(Less, UNIT, X), 6),
    (Binary(Equal, YES, X), 6),
    (Binary(Range, X, ONE), 6),
    (Binary(Add, HIGH, YES), 0),
    (Binary(Add, B, A), 5),
    (SiteExpr::Operand(PAST_RULE), 4),
    (SiteExpr::Operand(PAST_RULE), 5),
    (SiteExpr::Operand(NO_NAME), 4),
    (SiteExpr::Operand(NO_NAME), 5),
    (SiteExpr::Operand(SITE_END), 6),
    (SiteExpr::Operand(FAR), 5),
    (Binary(Equal, PAST_RULE, THREE_FROM_1), 6),
];

/// What a run asks of any host.
fn ask<H: Host>(
    host: &mut H,
    code: u16,
    vars: &mut [VarRow<H::Value>],
    used: usize,
    view: View<'_>,
) -> (usize, Evaluated<H::Value>) {
    host.evaluate(code, vars, used, view)
}

/// Two variables `a`, two variables `b`, one `c` and one whose name reads as empty.
fn variables() -> [VarRow<SiteValue>; 6] {
    [
        VarRow::new(A_IN_RULE, Access::ReadWrite, SiteValue::Number(1)),
        VarRow::new(B_IN_RULE, Access::ReadWrite, SiteValue::Truth(true)),
        VarRow::new(C_IN_SITE, Access::ReadWrite, SiteValue::Number(i64::MAX)),
        VarRow::new(A_IN_SITE, Access::ReadWrite, SiteValue::Number(7)),
        VarRow::new(PAST_SITE, Access::ReadWrite, SiteValue::Range(1, 4)),
        VarRow::new(B_IN_SITE, Access::Constant, SiteValue::Number(-3)),
    ]
}

/// The answer to a code of a table.
fn evaluate(table: &[SiteExpr], code: u16, used: usize) -> (usize, Evaluated<SiteValue>) {
    let mut vars = variables();
    let view = View {
        texts: Texts {
            rule: &RULE,
            site: &SITE,
        },
        mark: false,
        limit: 6,
    };
    ask(&mut SiteHost::new(table), code, &mut vars, used, view)
}

fn print_case(rt: &HostRuntime, expr: SiteExpr, used: usize) -> anyhow::Result<()> {
    let (left, answer) = evaluate(&[expr], 0, used);
    println!(rt;
        "{}, {used} used: {}, {left} used",
        Expr(expr),
        Answer::from(answer)
    )?;
    Ok(())
}

/// Every operator on two operands.
fn print_operators(rt: &HostRuntime, l: Operand, r: Operand) -> anyhow::Result<()> {
    for op in OPERATORS {
        print_case(rt, Binary(op, l, r), 0)?;
    }
    Ok(())
}

fn print_rights(rt: &HostRuntime, l: Operand) -> anyhow::Result<()> {
    for r in KINDS {
        print_operators(rt, l, r)?;
    }
    Ok(())
}

/// Every operator on every mix of kinds.
pub fn print_mixes(rt: &HostRuntime) -> anyhow::Result<()> {
    for l in KINDS {
        print_rights(rt, l)?;
    }
    Ok(())
}

pub fn print_cases(rt: &HostRuntime) -> anyhow::Result<()> {
    for (expr, used) in CASES {
        print_case(rt, expr, used)?;
    }
    Ok(())
}

/// A code of a table of two.
fn print_code(rt: &HostRuntime, code: u16) -> anyhow::Result<()> {
    let table = [SiteExpr::Operand(ONE), SiteExpr::Operand(TWO)];
    let (_, answer) = evaluate(&table, code, 6);
    println!(rt; "code {code} of 2: {}", Answer::from(answer))?;
    Ok(())
}

/// Codes at the table's end and past it, and one of a table that is empty.
pub fn print_codes(rt: &HostRuntime) -> anyhow::Result<()> {
    print_code(rt, 1)?;
    print_code(rt, 2)?;
    print_code(rt, u16::MAX)?;
    let (_, answer) = evaluate(&[], 0, 6);
    println!(rt; "code 0 of 0: {}", Answer::from(answer))?;
    Ok(())
}
