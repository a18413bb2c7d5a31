ghost use Rattle.std.specs.Prelude.{◌≡◌};
ghost use Rattle.host.specs.Answers.{number};

use image::Position;
use rows::Place;

/// A fault of a host or a resolver. Line 0 and column 0 are no position.
#[derive(Clone, Copy, Debug, PartialEq, Eq)]
pub struct Fault {
    pub code: u16,
    pub at: Position,
    pub catchable: bool,
}

/// Why an evaluation has no value.
#[derive(Clone, Copy, Debug, PartialEq, Eq)]
pub enum Halt<V> {
    Fault(Fault),
    /// The run is to end with this value.
    Exit(V),
}

/// The answer to an evaluation.
pub type Evaluated<V> = Result<V, Halt<V>>;

/// The answer to a declaration: whether the name may be declared.
pub type Allowed = Result<bool, Fault>;

/// The answer of an operator: none where there is no function for it.
pub type Applied<V> = Result<Option<V>, Fault>;

/// Why a value has no item at an index.
#[derive(Clone, Copy, Debug, PartialEq, Eq)]
pub enum NoItem {
    NotIterable,
    Fault(Fault),
}

/// The answer to the question for an item: none at the end.
pub type Item<V> = Result<Option<V>, NoItem>;

/// A fault of a run that a catch took, but for a thrown value, which is its own.
#[derive(Clone, Copy, Debug, PartialEq, Eq)]
pub enum Caught {
    /// The host said no to this name.
    NotAllowed(Place),
    /// A condition has no truth, or an import no path.
    WrongKind,
    NotIterable,
    NoSuchName(Place),
    ConstantTarget(Place),
    /// There is no function for this operator.
    NoOperator(u16),
    /// There is no module under this path.
    NoModule(u32),
    /// A resolver's fault, by its code.
    Resolver(u16),
    /// A host's fault, by its code.
    Host(u16),
}

impl Caught {
    /// The number that the fault has among all faults of a run.
    pub fn number(self) -> u8
        ensures { result ≡ number self }
    {
        match self {
            Caught::NotAllowed(_) => 13,
            Caught::WrongKind => 15,
            Caught::NotIterable => 16,
            Caught::NoSuchName(_) => 17,
            Caught::ConstantTarget(_) => 19,
            Caught::NoOperator(_) => 20,
            Caught::NoModule(_) => 22,
            Caught::Resolver(_) => 23,
            Caught::Host(_) => 25,
        }
    }
}
