ghost use Rattle.std.specs.Prelude.{◌≡◌, ℕ, ◌≤◌};
ghost use Rattle.host.specs.Meaning.{HostMeaning, HostLaws, Leaves, seen};

use crate::answers::{Allowed, Applied, Caught, Evaluated, Item};
use crate::view::{Declaration, View};
use rows::{Unital, VarRow};

/// The largest whole number that a host is asked to make.
pub const MOST_WHOLE: u32 = 1_000_000_000;

/// A host has a type of values and a state. Evaluate and allow may change the state and the variables; all other calls
/// depend on their arguments alone and change nothing.
pub trait Host {
    type Value: Copy + Unital;

    ghost meaning: { HostMeaning Self Self.Value };

    ghost laws: { HostLaws meaning };

    /// The value of the expression under a code, and how many variables there are then.
    fn evaluate(
        &mut self,
        code: u16,
        vars: &mut [VarRow<Self::Value>],
        used: usize,
        view: View<'_>,
    ) -> (usize, Evaluated<Self::Value>)
        ensures { Leaves (meaning.evaluate self.old code (seen vars.old used view.entry)) vars.old self.new vars.new result.0 result.1 };

    /// Whether a name may be declared, and how many variables there are then.
    fn allow(
        &mut self,
        declaration: Declaration,
        vars: &mut [VarRow<Self::Value>],
        used: usize,
        view: View<'_>,
    ) -> (usize, Allowed)
        ensures { Leaves (meaning.allow self.old declaration (seen vars.old used view.entry)) vars.old self.new vars.new result.0 result.1 };

    /// An operator that changes its left side, as `+=`.
    fn apply(&self, op: u16, left: Self::Value, right: Self::Value) -> Applied<Self::Value>
        ensures { result ≡ meaning.apply op left right };

    /// An operator of two values, as `+`.
    fn binary(&self, op: u16, left: Self::Value, right: Self::Value) -> Applied<Self::Value>
        ensures { result ≡ meaning.binary op left right };

    /// The unit, which is the value of a variable until it is given another.
    fn make_unit(&self) -> Self::Value
        ensures unit { result ≡ meaning.unit }
        ensures blank { result ≡ Self.Value.Unital.unit };

    /// A truth as a value, which reads back as made.
    fn make_truth(&self, truth: bool) -> Self::Value
        ensures { result ≡ meaning.make_truth truth };

    /// A whole number as a value. Up to 1,000,000,000 it reads back as made; above, it is some value that the number fixes.
    fn make_whole(&self, number: u32) -> Self::Value
        ensures { result ≡ meaning.make_whole number };

    /// Whether a value is the unit.
    fn is_unit(&self, value: Self::Value) -> bool
        ensures { result ≡ meaning.is_unit value };

    /// The truth that a value stands for, if it stands for one.
    fn truth(&self, value: Self::Value) -> Option<bool>
        ensures { result ≡ meaning.truth value };

    /// The whole number that a value stands for, if it stands for one.
    fn whole(&self, value: Self::Value) -> Option<u32>
        ensures { result ≡ meaning.whole value };

    /// The path of a module that a value stands for, if it stands for one.
    fn path(&self, value: Self::Value) -> Option<u32>
        ensures { result ≡ meaning.path value };

    /// Item `i` of a value. Of the items behind the first end nothing is said.
    fn item(&self, value: Self::Value, i: u32) -> Item<Self::Value>
        ensures { result ≡ meaning.item value i };

    /// The value that a catch binds for a fault.
    fn caught(&self, fault: Caught) -> Self::Value
        ensures { result ≡ meaning.caught fault };
}
