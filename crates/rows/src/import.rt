ghost use Rattle.std.specs.Prelude.{◌≡◌};
ghost use Rattle.rows.specs.Rows.{import, blank_import};

use crate::place::Place;
use crate::row::{Blank, Named};

/// An import: its name, and the module that it stands for.
#[derive(Clone, Copy, PartialEq, Eq, Debug)]
pub struct ImportRow {
    place: Place,
    module: u32,
}

impl ImportRow {
    pub fn new(place: Place, module: u32) -> ImportRow
        ensures { result ≡ import place «module» }
    {
        ImportRow { place, module }
    }

    pub fn module(&self) -> u32
        ensures { result ≡ self.now.«module» }
    {
        self.module
    }
}

impl Named for ImportRow {
    ghost place = { λ r. r.place };

    fn place(&self) -> Place {
        self.place
    }
}

impl Blank for ImportRow {
    ghost blank = { blank_import };

    fn blank() -> ImportRow {
        ImportRow {
            place: Place::NONE,
            module: 0,
        }
    }
}
