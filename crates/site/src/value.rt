ghost use Rattle.std.specs.Prelude.{◌≡◌, Some};
ghost use Rattle.host.specs.declared.answers.Halt.TheVariants.{Fault as FaultHalt};
ghost use Rattle.site.specs.declared.value.SiteValue.TheVariants.{Unit};
ghost use Rattle.site.specs.Meaning.{fault_of};
ghost use Rattle.site.specs.Words.{shown};

use host::{Fault, Halt};
use image::Position;
use rows::Unital;
use std::fmt;

/// The values of the site host. A range goes from its first number up to its second, which it leaves out.
#[derive(Clone, Copy, Debug, PartialEq, Eq)]
pub enum SiteValue {
    Unit,
    Truth(bool),
    Number(i64),
    Range(i64, i64),
}

impl Unital for SiteValue {
    ghost unit = { Unit };

    fn unit() -> SiteValue {
        SiteValue::Unit
    }
}

impl fmt::Display for SiteValue {
    ghost output = { λ v. Some (shown v) };

    fn fmt<W: fmt::Write>(&self, f: &mut fmt::Formatter<W>) -> fmt::Result {
        match self {
            SiteValue::Unit => write!(f, "unit"),
            SiteValue::Truth(truth) => write!(f, "{truth}"),
            SiteValue::Number(number) => write!(f, "{number}"),
            SiteValue::Range(first, end) => write!(f, "{first}..{end}"),
        }
    }
}

/// Why an operation has no value. The number of a failure is the code of its fault.
#[derive(Clone, Copy, Debug, PartialEq, Eq)]
pub(crate) enum Failure {
    /// A sum or a difference that 64 bits do not hold.
    Overflow = 1,
    UnknownVariable = 2,
    WrongKind = 3,
    /// A code past the table of expressions.
    UnknownCode = 4,
}

/// Every failure is a fault that can be caught and has no position.
impl From<Failure> for Fault {
    ghost from_gives = { λ failure fault. fault ≡ fault_of failure };

    fn from(failure: Failure) -> Fault {
        Fault {
            code: failure as u16,
            at: Position::NONE,
            catchable: true,
        }
    }
}

impl From<Failure> for Halt<SiteValue> {
    ghost from_gives = { λ failure halt. halt ≡ FaultHalt (fault_of failure) };

    fn from(failure: Failure) -> Halt<SiteValue> {
        Halt::Fault(Fault::from(failure))
    }
}
