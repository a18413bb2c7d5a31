ghost use Rattle.std.specs.Prelude.{◌≡◌, min, length};

use rows::{Access, Place, Texts};

/// What evaluate and allow see besides the variables.
#[derive(Clone, Copy)]
pub struct View<'a> {
    pub texts: Texts<'a>,
    /// The search mark: whether names were added by a host, so that variables are found by name and not by index.
    pub mark: bool,
    /// How many variables there may be.
    pub limit: usize,
}

/// A name that is about to be declared.
#[derive(Clone, Copy, Debug, PartialEq, Eq)]
pub struct Declaration {
    pub name: Place,
    pub access: Access,
    /// How many inner blocks are open.
    pub level: u8,
    /// Whether a variable of that name is there already.
    pub present: bool,
}

/// How many rows are in use; a number past the rows counts as all of them.
pub fn in_use<R>(rows: &[R], used: usize) -> usize
    ensures { result ≡ min used (length rows.now) }
{
    used.min(rows.len())
}
