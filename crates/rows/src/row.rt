ghost use Rattle.std.specs.Prelude.{◌≡◌};
ghost use Rattle.rows.specs.declared.place.Place.{Place};

use crate::place::Place;

/// A row that has a name.
pub trait Named {
    ghost place: { Self → Place };

    fn place(&self) -> Place
        ensures { result ≡ place self.now };
}

/// A row kind that has a blank, which is written where a row is given up.
pub trait Blank: Sized {
    ghost blank: { Self };

    fn blank() -> Self
        ensures { result ≡ blank };
}

/// A type of values with a unit, which needs no host to be had.
pub trait Unital: Sized {
    ghost unit: { Self };

    fn unit() -> Self
        ensures { result ≡ unit };
}
