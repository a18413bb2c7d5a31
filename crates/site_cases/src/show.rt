//! Questions and answers as text.

use host::{Allowed, Applied, Evaluated, Fault, Halt, Item, NoItem};
use rows::{Place, Source};
use site::{Operand, Operator, SiteExpr, SiteValue};
use std::fmt;

/// An answer of the host: a value, a fault, or a word.
#[derive(Clone, Copy)]
pub enum Answer {
    Value(SiteValue),
    Fault(Fault),
    Word(&'static str),
}

impl From<Evaluated<SiteValue>> for Answer {
    fn from(answer: Evaluated<SiteValue>) -> Answer {
        match answer {
            Ok(value) => Answer::Value(value),
            Err(Halt::Fault(fault)) => Answer::Fault(fault),
            Err(Halt::Exit(_)) => Answer::Word("exit"),
        }
    }
}

impl From<Applied<SiteValue>> for Answer {
    fn from(answer: Applied<SiteValue>) -> Answer {
        match answer {
            Ok(Some(value)) => Answer::Value(value),
            Ok(None) => Answer::Word("not found"),
            Err(fault) => Answer::Fault(fault),
        }
    }
}

impl From<Item<SiteValue>> for Answer {
    fn from(answer: Item<SiteValue>) -> Answer {
        match answer {
            Ok(Some(value)) => Answer::Value(value),
            Ok(None) => Answer::Word("end"),
            Err(NoItem::NotIterable) => Answer::Word("not iterable"),
            Err(NoItem::Fault(fault)) => Answer::Fault(fault),
        }
    }
}

impl From<Allowed> for Answer {
    fn from(answer: Allowed) -> Answer {
        match answer {
            Ok(true) => Answer::Word("yes"),
            Ok(false) => Answer::Word("no"),
            Err(fault) => Answer::Fault(fault),
        }
    }
}

impl From<Option<SiteValue>> for Answer {
    fn from(answer: Option<SiteValue>) -> Answer {
        answer.map_or(Answer::Word("none"), Answer::Value)
    }
}

impl From<Option<u32>> for Answer {
    fn from(answer: Option<u32>) -> Answer {
        Answer::from(answer.map(|number| SiteValue::Number(i64::from(number))))
    }
}

impl From<Option<bool>> for Answer {
    fn from(answer: Option<bool>) -> Answer {
        Answer::from(answer.map(SiteValue::Truth))
    }
}

impl fmt::Display for Answer {
    fn fmt<W: fmt::Write>(&self, f: &mut fmt::Formatter<W>) -> fmt::Result {
        match self {
            Answer::Value(value) => value.fmt(f),
            Answer::Fault(fault) => {
                let kind = if fault.catchable { "fault" } else { "fatal" };
                let code = fault.code;
                let line = fault.at.line;
                let column = fault.at.column;
                write!(f, "{kind} {code} at {line}:{column}")
            }
            Answer::Word(word) => word.fmt(f),
        }
    }
}

#[derive(Clone, Copy)]
struct Name(Place);

impl fmt::Display for Name {
    fn fmt<W: fmt::Write>(&self, f: &mut fmt::Formatter<W>) -> fmt::Result {
        let source = match self.0.source {
            Source::Rule => "rule",
            Source::Site => "site",
        };
        let offset = self.0.offset;
        let length = self.0.length;
        write!(f, "{source}[{offset},{length}]")
    }
}

#[derive(Clone, Copy)]
struct Part(Operand);

impl fmt::Display for Part {
    fn fmt<W: fmt::Write>(&self, f: &mut fmt::Formatter<W>) -> fmt::Result {
        match self.0 {
            Operand::Constant(value) => value.fmt(f),
            Operand::Variable(name) => Name(name).fmt(f),
        }
    }
}

#[derive(Clone, Copy)]
pub struct Expr(pub SiteExpr);

impl fmt::Display for Expr {
    fn fmt<W: fmt::Write>(&self, f: &mut fmt::Formatter<W>) -> fmt::Result {
        match self.0 {
            SiteExpr::Operand(operand) => Part(operand).fmt(f),
            // Two dots between numbers read as a range that is a value.
            SiteExpr::Binary(Operator::Range, l, r) => write!(f, "{} to {}", Part(l), Part(r)),
            SiteExpr::Binary(op, l, r) => write!(f, "{} {op} {}", Part(l), Part(r)),
        }
    }
}
