//! What a line of the description says.

use host::Fault;
use image::Position;
use resolve::{PathRow, Resolved};
use rows::Access;
use site::{Operator, SiteValue};

/// An expression as it is written. The operands of an operator are the codes of earlier expressions.
#[derive(Clone, Copy)]
pub enum Expression<'a> {
    Value(SiteValue),
    Variable(&'a str),
    Binary(usize, Operator, usize),
}

/// A line that reads well.
#[derive(Clone, Copy)]
pub enum Line<'a> {
    Name(&'a str, Access, SiteValue),
    Expression(Expression<'a>),
    Module(PathRow),
    Evaluate(u16),
    Resolve(u32),
}

fn read_value(word: &str) -> Option<SiteValue> {
    match word {
        "unit" => Some(SiteValue::Unit),
        "true" => Some(SiteValue::Truth(true)),
        "false" => Some(SiteValue::Truth(false)),
        _ => word.parse::<i64>().ok().map(SiteValue::Number),
    }
}

/// A name begins with a letter and is no value, since an expression could not tell it from one.
fn read_name(word: &str) -> Option<&str> {
    let first = word.bytes().next()?;
    (first.is_ascii_alphabetic() && read_value(word).is_none()).then_some(word)
}

fn read_operator(word: &str) -> Option<Operator> {
    match word {
        "+" => Some(Operator::Add),
        "-" => Some(Operator::Subtract),
        "<" => Some(Operator::Less),
        "=" => Some(Operator::Equal),
        ".." => Some(Operator::Range),
        _ => None,
    }
}

/// The fault of a broken path: the description has no position for it, and a rule may catch it.
fn broken(code: u16) -> Resolved {
    Err(Fault {
        code,
        at: Position::NONE,
        catchable: true,
    })
}

fn read_operand<'a>(word: &'a str) -> Option<Expression<'a>> {
    match read_value(word) {
        Some(value) => Some(Expression::Value(value)),
        None => read_name(word).map(Expression::Variable),
    }
}

fn read_binary<'a>(left: &str, operator: &str, right: &str) -> Option<Expression<'a>> {
    Some(Expression::Binary(
        left.parse::<usize>().ok()?,
        read_operator(operator)?,
        right.parse::<usize>().ok()?,
    ))
}

fn read_module<'a>(path: &str, answer: Resolved) -> Option<Line<'a>> {
    let path = path.parse::<u32>().ok()?;
    Some(Line::Module(PathRow { path, answer }))
}

/// The line of these words; none where they make none.
pub fn read_line<'a>(words: &[&'a str]) -> Option<Line<'a>> {
    match words {
        ["name", name, "=", value] => Some(Line::Name(
            read_name(name)?,
            Access::ReadWrite,
            read_value(value)?,
        )),
        ["name", "const", name, "=", value] => Some(Line::Name(
            read_name(name)?,
            Access::Constant,
            read_value(value)?,
        )),
        ["expression", word] => Some(Line::Expression(read_operand(word)?)),
        ["expression", left, operator, right] => {
            Some(Line::Expression(read_binary(left, operator, right)?))
        }
        ["module", path, "=", "none"] => read_module(path, Ok(None)),
        ["module", path, "=", module] => {
            read_module(path, Ok(Some(module.parse::<u32>().ok()?)))
        }
        ["module", path, "=", "fault", code] => {
            read_module(path, broken(code.parse::<u16>().ok()?))
        }
        ["evaluate", code] => Some(Line::Evaluate(code.parse::<u16>().ok()?)),
        ["resolve", path] => Some(Line::Resolve(path.parse::<u32>().ok()?)),
        _ => None,
    }
}
