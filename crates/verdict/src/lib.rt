//! The verdict on an image, told in one line.
#![tactic(auto)]

ghost use Rattle.std.specs.Prelude.{◌≡◌, Some};
ghost use Rattle.rule.specs.Checked.{checked};
ghost use Rattle.verdict.specs.Verdicts.{line};

use image::Refusal;
use rule::CheckedRule;
use std::fmt;

/// What is to be said of an image: its rule's quote, which a rule with a loop has not, or why it is refused.
#[derive(Clone, Copy, PartialEq, Eq, Debug)]
pub struct Verdict(pub Result<Option<u32>, Refusal>);

impl fmt::Display for Verdict {
    ghost output = { λ v. Some (line v) };

    fn fmt<W: fmt::Write>(&self, f: &mut fmt::Formatter<W>) -> fmt::Result {
        match self.0 {
            Ok(Some(quote)) => write!(f, "quote {quote}"),
            Ok(None) => write!(f, "no quote"),
            Err(refusal) => write!(f, "refused {}", refusal.number()),
        }
    }
}

/// The verdict on any bytes.
pub fn judge(image: &[u8]) -> Verdict
    ensures { result.0 ≡ checked image.now }
{
    let mut place = CheckedRule::empty();
    Verdict(CheckedRule::check(image, &mut place))
}
