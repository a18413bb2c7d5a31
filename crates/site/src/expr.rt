ghost use Rattle.std.specs.Prelude.{Some};
ghost use Rattle.site.specs.Words.{sign};

use crate::value::SiteValue;
use rows::Place;
use std::fmt;

/// What an operator works on.
#[derive(Clone, Copy, Debug, PartialEq, Eq)]
pub enum Operand {
    Constant(SiteValue),
    /// The variable of this name.
    Variable(Place),
}

/// What stands between two operands.
#[derive(Clone, Copy, Debug, PartialEq, Eq)]
pub enum Operator {
    Add,
    Subtract,
    Less,
    Equal,
    Range,
}

impl fmt::Display for Operator {
    ghost output = { λ op. Some (sign op) };

    fn fmt<W: fmt::Write>(&self, f: &mut fmt::Formatter<W>) -> fmt::Result {
        let sign = match self {
            Operator::Add => "+",
            Operator::Subtract => "-",
            Operator::Less => "<",
            Operator::Equal => "=",
            Operator::Range => "..",
        };
        sign.fmt(f)
    }
}

/// An expression: an operand alone, or an operator over two.
#[derive(Clone, Copy, Debug, PartialEq, Eq)]
pub enum SiteExpr {
    Operand(Operand),
    Binary(Operator, Operand, Operand),
}
