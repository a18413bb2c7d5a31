//! How a run ends.
#![tactic(auto)]

ghost use Rattle.std.specs.Prelude.{◌≡◌, Some};
ghost use Rattle.outcome.specs.Faults.{number, catchable, outcome_number, refusal_number, refusal_words};

use image::Position;
use rows::Place;
use std::error::Error;
use std::fmt;

/// A fault of a statement.
#[derive(Clone, Copy, PartialEq, Eq, Debug)]
pub enum RunFault<V> {
    /// The host said no to this name.
    NotAllowed(Place),
    /// There are as many names as the limit allows.
    TooManyNames,
    /// A condition has no truth, or an import no path.
    WrongKind,
    NotIterable,
    NoSuchName(Place),
    /// An index counts back beyond the first name.
    NoSuchIndex,
    ConstantTarget(Place),
    /// There is no function for this operator.
    NoOperator(u16),
    /// There are as many modules as the limit allows.
    TooManyModules,
    /// There is no module under this path.
    NoModule(u32),
    Resolver { code: u16, catchable: bool },
    Thrown(V),
    Host { code: u16, catchable: bool },
}

/// A fault with its position. Line 0 and column 0 are no position.
#[derive(Clone, Copy, PartialEq, Eq, Debug)]
pub struct Failure<V> {
    pub fault: RunFault<V>,
    pub at: Position,
}

/// How a run ends that has no value.
#[derive(Clone, Copy, Debug, PartialEq, Eq)]
pub enum Ending<V> {
    /// A charge passed the limit of operations, at this position.
    Stopped(Position),
    Failed(Failure<V>),
    /// The host asked for an exit, which was not to count as a value.
    Exited { value: V, at: Position },
}

/// How a run ends.
pub type Outcome<V> = Result<V, Ending<V>>;

/// Why a call of a session is refused, with the number that it is told by. The reasons are tested in this order, and a
/// refused call changes nothing.
#[derive(Clone, Copy, PartialEq, Eq, Debug)]
pub enum SessionRefusal {
    /// A limit is out of its range.
    Limits = 8,
    /// Too few rows are lent.
    Rows = 9,
    /// A name is empty, or outside the site's text.
    Name = 10,
    /// There are as many names as the limit allows.
    Full = 11,
}

impl SessionRefusal {
    /// The number that a refusal is told by.
    pub fn number(self) -> u8
        ensures { result ≡ refusal_number self }
    {
        self as u8
    }
}

impl fmt::Display for SessionRefusal {
    ghost output = { λ r. Some (refusal_words r) };

    fn fmt<W: fmt::Write>(&self, f: &mut fmt::Formatter<W>) -> fmt::Result {
        f.write_str(match self {
            SessionRefusal::Limits => "a limit is out of its range",
            SessionRefusal::Rows => "too few rows are lent",
            SessionRefusal::Name => "a name is empty, or outside the site's text",
            SessionRefusal::Full => "there are as many names as the limit allows",
        })
    }
}

impl Error for SessionRefusal {}

/// The number of what ended the run, and 0 for a value.
pub fn outcome_number<V: Copy>(outcome: Outcome<V>) -> u8
    ensures { result ≡ outcome_number outcome }
{
    match outcome {
        Ok(_) => 0,
        Err(Ending::Stopped(_)) => 12,
        Err(Ending::Failed(failure)) => failure.fault.number(),
        Err(Ending::Exited { .. }) => 26,
    }
}

impl<V: Copy> RunFault<V> {
    /// The number that a fault is told by.
    pub fn number(self) -> u8
        ensures { result ≡ number self }
    {
        match self {
            RunFault::NotAllowed(_) => 13,
            RunFault::TooManyNames => 14,
            RunFault::WrongKind => 15,
            RunFault::NotIterable => 16,
            RunFault::NoSuchName(_) => 17,
            RunFault::NoSuchIndex => 18,
            RunFault::ConstantTarget(_) => 19,
            RunFault::NoOperator(_) => 20,
            RunFault::TooManyModules => 21,
            RunFault::NoModule(_) => 22,
            RunFault::Resolver { .. } => 23,
            RunFault::Thrown(_) => 24,
            RunFault::Host { .. } => 25,
        }
    }

    /// Whether a catch takes the fault.
    pub fn catchable(self) -> bool
        ensures { result ≡ catchable self }
    {
        match self {
            RunFault::TooManyNames | RunFault::NoSuchIndex | RunFault::TooManyModules => false,
            RunFault::Resolver { catchable, .. } | RunFault::Host { catchable, .. } => catchable,
            _ => true,
        }
    }
}
