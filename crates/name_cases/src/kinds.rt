//! The two kinds of rows that each case is tried on.

ghost use Rattle.name_cases.specs.declared.kinds.Level.TheVariants.{Off};

use crate::places::NO_NAME;
use rows::{Access, Blank, ImportRow, Named, Place, Unital, VarRow};
use std::alloc::{AllocError, Global};

/// The values of the variables.
#[derive(Clone, Copy, PartialEq, Eq)]
pub enum Level {
    Off,
    Watts(u32),
}

impl Unital for Level {
    ghost unit = { Off };

    fn unit() -> Level {
        Level::Off
    }
}

/// A kind of rows, with what a case has to know of it.
pub trait Sample: Blank + Named + Copy + PartialEq {
    /// What the rows are called in the lines of the cases.
    const KIND: &'static str;

    /// A row of this name that differs from those of other numbers, and from a blank one.
    fn sample(place: Place, number: u32) -> Self;

    /// The blank row, written out as the rules have it.
    fn blank_row() -> Self;
}

impl Sample for VarRow<Level> {
    const KIND: &'static str = "variables";

    fn sample(place: Place, number: u32) -> VarRow<Level> {
        VarRow::new(place, Access::Constant, Level::Watts(number))
    }

    fn blank_row() -> VarRow<Level> {
        VarRow::new(NO_NAME, Access::ReadWrite, Level::Off)
    }
}

impl Sample for ImportRow {
    const KIND: &'static str = "imports";

    fn sample(place: Place, number: u32) -> ImportRow {
        ImportRow::new(place, number)
    }

    fn blank_row() -> ImportRow {
        ImportRow::new(NO_NAME, 0)
    }
}

/// Rows of these names, in their order, each with a number of its own.
pub fn samples<R: Sample>(heap: Global, places: &[Place]) -> Result<Vec<R>, AllocError> {
    places
        .iter()
        .zip(10..)
        .map(|(place, number)| R::sample(*place, number))
        .collect(heap)
}
