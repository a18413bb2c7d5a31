ghost use Rattle.std.specs.Prelude.{◌≡◌, Some};
ghost use Rattle.script.specs.declared.value.ScriptValue.TheVariants.{Unit as TheUnit};
ghost use Rattle.script.specs.Values.{truth_in, number_up_to, count_of, shown};

use host::number_up_to;
use rows::Unital;
use std::fmt;

/// A value of the scripted host.
#[derive(Clone, Copy, Debug, PartialEq, Eq)]
pub enum ScriptValue {
    Unit,
    Truth(bool),
    Number(i64),
    /// The numbers from the first up to the second, which is not among them.
    Range(i64, i64),
    /// A short sequence, one item of which may be a fault; its digits say which.
    Seq(u16),
}

impl Unital for ScriptValue {
    ghost unit = { TheUnit };

    fn unit() -> ScriptValue {
        ScriptValue::Unit
    }
}

impl fmt::Display for ScriptValue {
    ghost output = { λ v. Some (shown v) };

    fn fmt<W: fmt::Write>(&self, f: &mut fmt::Formatter<W>) -> fmt::Result {
        match self {
            ScriptValue::Unit => write!(f, "unit"),
            ScriptValue::Truth(truth) => write!(f, "{truth}"),
            ScriptValue::Number(number) => write!(f, "{number}"),
            ScriptValue::Range(from, to) => write!(f, "{from}..{to}"),
            ScriptValue::Seq(digits) => write!(f, "seq {digits}"),
        }
    }
}

/// A count as a value; one past the largest number stands as the largest.
pub(crate) fn count_of(n: usize) -> ScriptValue
    ensures { result ≡ count_of n }
{
    ScriptValue::Number(n.min(i64::MAX as usize) as i64)
}

impl ScriptValue {
    pub(crate) fn truth_in(self) -> Option<bool>
        ensures { result ≡ truth_in self }
    {
        match self {
            ScriptValue::Truth(truth) => Some(truth),
            _ => None,
        }
    }

    /// The number in a value, if it is one from 0 up to `most`.
    pub(crate) fn number_up_to(self, most: u32) -> Option<u32>
        ensures { result ≡ number_up_to most self }
    {
        match self {
            ScriptValue::Number(n) => number_up_to(n, most),
            _ => None,
        }
    }
}
