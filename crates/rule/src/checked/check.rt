ghost use Rattle.std.specs.Prelude.{◌≡◌, MatchResult};
ghost use Rattle.image.specs.Layouts.{empty_image};
ghost use Rattle.rule.specs.Checked.{checked, quote};
ghost use Rattle.rule.specs.Laws.{EachNamedOnce, NestsNoDeeper, QuotedIfNoLoop, AtMostThrice};

use crate::checked::CheckedRule;
use crate::examine::examine;
use crate::tree::Tree;
use image::{Refusal, Tables};

impl<'a> CheckedRule<'a> {
    /// The empty rule.
    pub fn empty() -> CheckedRule<'a>
        ensures { result.tables.image.now ≡ empty_image }
    {
        CheckedRule {
            tables: Tables::empty(),
        }
    }

    /// Checks an image, and fills `place` with its rule if it passes. The answer is the rule's quote, which a rule with a
    /// loop has not.
    pub fn check(image: &'a [u8], place: &mut CheckedRule<'a>) -> Result<Option<u32>, Refusal>
        ensures answer { result ≡ checked image.now }
        ensures filled { MatchResult result (λ _. place.new.tables.image.now ≡ image.now) (λ _. place.new ≡ place.old) }
    {
        let tables = Tables::read(image)?;
        let quote = examine(&tables)?;
        *place = CheckedRule { tables };
        Ok(quote)
    }

    /// The sum of what the rule's statements count, over the tree of its blocks; none if the rule has a loop. The sum is
    /// taken once over each block, since each is named once and by a lower one.
    pub fn quote(&self) -> Option<u32>
        ensures value { result ≡ quote self.now.tables.image.now }
        ensures named_once { EachNamedOnce self.now.tables.image.now }
        ensures nested { NestsNoDeeper self.now.tables.image.now }
        ensures present { QuotedIfNoLoop self.now.tables.image.now }
        ensures bound { AtMostThrice self.now.tables.image.now }
    {
        let tree = Tree {
            tables: self.tables,
        };
        tree.outermost().quote
    }
}
