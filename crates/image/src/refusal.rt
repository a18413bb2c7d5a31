ghost use Rattle.std.specs.Prelude.{◌≡◌, Some};
ghost use Rattle.image.specs.Refusals.{number, words};

use std::error::Error;
use std::fmt;

/// Why an image is refused. Each is tested over the whole image before the next.
#[derive(Clone, Copy, PartialEq, Eq, Debug)]
pub enum Refusal {
    /// The image is shorter than a header, or its mark, version or zero byte is another.
    Header = 1,
    /// A count is out of range, or the length is not what the counts make.
    Counts = 2,
    /// The blocks do not use up the statements in order.
    Blocks = 3,
    /// A row has an unknown kind, too large flags, a missing part or a reference outside its table.
    Rows = 4,
    /// A block is named by one that is not lower, or is not named exactly once.
    Naming = 5,
    /// Blocks nest too deep.
    Nesting = 6,
    /// A break or continue stands outside every loop body.
    StrayBreak = 7,
}

impl Refusal {
    /// The number that a refusal is told by.
    pub fn number(self) -> u8
        ensures { result ≡ number self }
    {
        self as u8
    }
}

impl fmt::Display for Refusal {
    ghost output = { λ r. Some (words r) };

    fn fmt<W: fmt::Write>(&self, f: &mut fmt::Formatter<W>) -> fmt::Result {
        f.write_str(match self {
            Refusal::Header => "no header of an image",
            Refusal::Counts => "a count out of range, or a length that the counts do not make",
            Refusal::Blocks => "blocks that do not use up the statements in order",
            Refusal::Rows =>
                "a row of an unknown kind, or one that lacks a part or refers to what is not there",
            Refusal::Naming => "a block that is not named exactly once and by a lower one",
            Refusal::Nesting => "blocks that nest too deep",
            Refusal::StrayBreak => "a break or continue outside every loop body",
        })
    }
}

impl Error for Refusal {}
