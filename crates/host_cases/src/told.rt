//! Answers in words.

use host::{Allowed, Applied, Evaluated, Fault, Halt, Item, NoItem};
use image::Position;
use resolve::Resolved;
use std::fmt;

/// A position in words; line 0 and column 0 are none.
#[derive(Clone, Copy)]
struct At(Position);

impl fmt::Display for At {
    fn fmt<W: fmt::Write>(&self, f: &mut fmt::Formatter<W>) -> fmt::Result {
        let Position { line, column } = self.0;
        if self.0 == Position::NONE {
            Ok(())
        } else {
            write!(f, " at {line}:{column}")
        }
    }
}

#[derive(Clone, Copy)]
struct Failed(Fault);

impl fmt::Display for Failed {
    fn fmt<W: fmt::Write>(&self, f: &mut fmt::Formatter<W>) -> fmt::Result {
        let Fault {
            code,
            at,
            catchable,
        } = self.0;
        let kind = if catchable { "catchable" } else { "final" };
        write!(f, "fault {code} {kind}{}", At(at))
    }
}

#[derive(Clone, Copy)]
pub struct Evaluation<V>(pub Evaluated<V>);

impl<V: fmt::Display> fmt::Display for Evaluation<V> {
    fn fmt<W: fmt::Write>(&self, f: &mut fmt::Formatter<W>) -> fmt::Result {
        match &self.0 {
            Ok(value) => write!(f, "value {value}"),
            Err(Halt::Fault(fault)) => Failed(*fault).fmt(f),
            Err(Halt::Exit(value)) => write!(f, "exit {value}"),
        }
    }
}

#[derive(Clone, Copy)]
pub struct Permission(pub Allowed);

impl fmt::Display for Permission {
    fn fmt<W: fmt::Write>(&self, f: &mut fmt::Formatter<W>) -> fmt::Result {
        match self.0 {
            Ok(allowed) => yes_or_no(allowed).fmt(f),
            Err(fault) => Failed(fault).fmt(f),
        }
    }
}

#[derive(Clone, Copy)]
pub struct Application<V>(pub Applied<V>);

impl<V: fmt::Display> fmt::Display for Application<V> {
    fn fmt<W: fmt::Write>(&self, f: &mut fmt::Formatter<W>) -> fmt::Result {
        match &self.0 {
            Ok(Some(value)) => write!(f, "value {value}"),
            Ok(None) => write!(f, "not found"),
            Err(fault) => Failed(*fault).fmt(f),
        }
    }
}

#[derive(Clone, Copy)]
pub struct ItemAt<V>(pub Item<V>);

impl<V: fmt::Display> fmt::Display for ItemAt<V> {
    fn fmt<W: fmt::Write>(&self, f: &mut fmt::Formatter<W>) -> fmt::Result {
        match &self.0 {
            Ok(Some(value)) => write!(f, "item {value}"),
            Ok(None) => write!(f, "end"),
            Err(NoItem::NotIterable) => write!(f, "not iterable"),
            Err(NoItem::Fault(fault)) => Failed(*fault).fmt(f),
        }
    }
}

#[derive(Clone, Copy)]
pub struct Resolution(pub Resolved);

impl fmt::Display for Resolution {
    fn fmt<W: fmt::Write>(&self, f: &mut fmt::Formatter<W>) -> fmt::Result {
        match self.0 {
            Ok(Some(module)) => write!(f, "module {module}"),
            Ok(None) => write!(f, "not found"),
            Err(fault) => Failed(fault).fmt(f),
        }
    }
}

/// What a value reads as, and a word where it does not.
#[derive(Clone, Copy)]
pub struct Reading<T>(pub Option<T>);

impl<T: fmt::Display> fmt::Display for Reading<T> {
    fn fmt<W: fmt::Write>(&self, f: &mut fmt::Formatter<W>) -> fmt::Result {
        match &self.0 {
            Some(value) => value.fmt(f),
            None => write!(f, "none"),
        }
    }
}

pub fn yes_or_no(answer: bool) -> &'static str {
    if answer { "yes" } else { "no" }
}
