//! What was done, in words.

use crate::line::Expression;
use host::{Evaluated, Halt};
use resolve::{PathRow, Resolved};
use rows::Access;
use site::SiteValue;
use std::fmt;

/// What a line did.
#[derive(Clone, Copy)]
pub enum Told<'a> {
    Name(&'a str, Access, SiteValue),
    Expression(usize, Expression<'a>),
    Module(PathRow),
    Evaluated(u16, Evaluated<SiteValue>),
    Resolved(u32, Resolved),
}

impl<'a> fmt::Display for Expression<'a> {
    fn fmt<W: fmt::Write>(&self, f: &mut fmt::Formatter<W>) -> fmt::Result {
        match self {
            Expression::Value(value) => write!(f, "the value {value}"),
            Expression::Variable(name) => write!(f, "the variable {name}"),
            Expression::Binary(left, operator, right) => {
                write!(f, "code {left} {operator} code {right}")
            }
        }
    }
}

/// What stands under a path.
#[derive(Clone, Copy)]
struct Found(Resolved);

impl fmt::Display for Found {
    fn fmt<W: fmt::Write>(&self, f: &mut fmt::Formatter<W>) -> fmt::Result {
        match self.0 {
            Ok(Some(module)) => write!(f, "module {module}"),
            Ok(None) => write!(f, "not found"),
            Err(fault) => write!(f, "fault {}", fault.code),
        }
    }
}

fn word(access: Access) -> &'static str {
    match access {
        Access::ReadWrite => "variable",
        Access::Constant => "constant",
    }
}

impl<'a> fmt::Display for Told<'a> {
    fn fmt<W: fmt::Write>(&self, f: &mut fmt::Formatter<W>) -> fmt::Result {
        match *self {
            Told::Name(name, access, value) => write!(f, "{} {name} = {value}", word(access)),
            Told::Expression(code, expression) => write!(f, "code {code}: {expression}"),
            Told::Module(PathRow { path, answer }) => write!(f, "path {path}: {}", Found(answer)),
            Told::Evaluated(code, answer) => {
                write!(f, "evaluate {code}: ")?;
                match answer {
                    Ok(value) => value.fmt(f),
                    Err(Halt::Fault(fault)) => write!(f, "fault {}", fault.code),
                    Err(Halt::Exit(value)) => write!(f, "exit with {value}"),
                }
            }
            Told::Resolved(path, answer) => write!(f, "resolve {path}: {}", Found(answer)),
        }
    }
}
