ghost use Rattle.std.specs.Prelude.{◌≡◌};
ghost use Rattle.rows.specs.Rows.{variable, revalued, redeclared, blank_variable};

use crate::place::Place;
use crate::row::{Blank, Named, Unital};

/// Whether a variable may be assigned to.
#[derive(Clone, Copy, PartialEq, Eq, Debug)]
pub enum Access {
    ReadWrite,
    Constant,
}

/// A variable: its name, whether it may be assigned to, and its value.
#[derive(Clone, Copy, PartialEq, Eq, Debug)]
pub struct VarRow<V> {
    place: Place,
    access: Access,
    value: V,
}

impl<V: Copy> VarRow<V> {
    pub fn new(place: Place, mode: Access, value: V) -> VarRow<V>
        ensures { result ≡ variable place mode value }
    {
        VarRow {
            place,
            access: mode,
            value,
        }
    }

    /// The same variable with another value.
    pub fn with_value(self, value: V) -> VarRow<V>
        ensures { result ≡ revalued self value }
    {
        VarRow { value, ..self }
    }

    /// The same name, declared anew.
    pub fn redeclared(self, access: Access, value: V) -> VarRow<V>
        ensures { result ≡ redeclared self access value }
    {
        VarRow {
            access,
            value,
            ..self
        }
    }

    pub fn access(&self) -> Access
        ensures { result ≡ self.now.access }
    {
        self.access
    }

    pub fn value(&self) -> V
        ensures { result ≡ self.now.value }
    {
        self.value
    }
}

impl<V> Named for VarRow<V> {
    ghost place = { λ r. r.place };

    fn place(&self) -> Place {
        self.place
    }
}

impl<V: Unital> Blank for VarRow<V> {
    ghost blank = { blank_variable V.Unital.unit };

    fn blank() -> VarRow<V> {
        VarRow {
            place: Place::NONE,
            access: Access::ReadWrite,
            value: V::unit(),
        }
    }
}
