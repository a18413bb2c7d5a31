ghost use Rattle.std.specs.Prelude.{◌≡◌, true, ◌^◌, ◌<◌, ◌++◌, IfOk, OnOk, MatchResult, Some};
ghost use Rattle.std.specs.List.{flat_map};
ghost use Rattle.rule.specs.Checked.{checked, examined};
ghost use Rattle.sheet.specs.Images.{tables, written, ReadsAs, Fails};
ghost use Rattle.sheet.specs.Ranges.{in_range};
ghost use Rattle.sheet.specs.Words.{words};
ghost use Rattle.sheet.specs.declared.writer.Unwritten.TheVariants.{Memory};

use crate::bytes::{Written, header};
use crate::range::in_range;
use crate::sheet::Sheet;
use std::alloc::{AllocError, Global};
use std::error::Error;
use std::fmt;

/// Why there is no image.
#[derive(Clone, Copy, PartialEq, Eq, Debug)]
pub enum Unwritten {
    /// There are too many rows, no block or too much text, or a statement has a number that stands for none.
    Range,
    /// There is not enough memory.
    Memory,
}

impl fmt::Display for Unwritten {
    ghost output = { λ e. Some (words e) };

    fn fmt<W: fmt::Write>(&self, f: &mut fmt::Formatter<W>) -> fmt::Result {
        f.write_str(match self {
            Unwritten::Range => "rows that no image can hold",
            Unwritten::Memory => "out of memory",
        })
    }
}

impl Error for Unwritten {}

impl From<AllocError> for Unwritten {
    ghost from_gives = { λ _ e. e ≡ Memory };

    fn from(_e: AllocError) -> Unwritten {
        Self::Memory
    }
}

fn put_all<R: Written<N>, const N: usize>(image: &mut Vec<u8>, rows: &[R]) -> Result<(), AllocError>
    requires { N < 2 ^ 63 }
    ensures { OnOk result (image.new.items ≡ image.old.items ++ flat_map R.Written.bytes rows.now) }
{
    for row in rows {
        image.extend_from_slice(&row.bytes())?;
    }
    Ok(())
}

/// The tables behind the header, one behind the other.
fn put_tables(image: &mut Vec<u8>, sheet: Sheet<'_>) -> Result<(), AllocError>
    ensures { OnOk result (image.new.items ≡ image.old.items ++ tables sheet.entry) }
{
    put_all(image, sheet.blocks)?;
    put_all(image, sheet.statements)?;
    put_all(image, sheet.expressions)?;
    image.extend_from_slice(sheet.text)
}

fn image_of(heap: Global, sheet: Sheet<'_>) -> Result<Vec<u8>, AllocError>
    requires { in_range sheet ≡ true }
    ensures { IfOk result (λ v. v.items ≡ written sheet.entry) }
{
    let mut image = Vec::new(heap);
    image.extend_from_slice(&header(sheet))?;
    put_tables(&mut image, sheet)?;
    Ok(image)
}

/// The image of the rows.
#[tactic(auto, using(crate::proofs::Reading::reads_of, crate::proofs::Reading::header_of))]
pub fn write(heap: Global, sheet: Sheet<'_>) -> Result<Vec<u8>, Unwritten>
    ensures bytes { IfOk result (λ v. v.items ≡ written sheet.entry) }
    ensures reads { IfOk result (λ v. ReadsAs v.items sheet.entry) }
    // Its header and counts are right, so only the rules of its rows can refuse it.
    ensures header { IfOk result (λ v. checked v.items ≡ examined v.items) }
    ensures range { MatchResult result (λ _. in_range sheet.entry ≡ true) (λ e. Fails sheet.entry e) }
{
    if !in_range(sheet) {
        return Err(Unwritten::Range);
    }
    Ok(image_of(heap, sheet)?)
}
