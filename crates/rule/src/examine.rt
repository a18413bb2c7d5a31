ghost use Rattle.std.specs.Prelude.{◌≡◌};
ghost use Rattle.rule.specs.Checked.{examined};
ghost use Rattle.rule.specs.Summaries.{settled};

use crate::summary::Summary;
use crate::tree::Tree;
use checks::{all_sound, in_order, named_once};
use image::{Refusal, Tables};

/// The most levels that blocks may nest.
const DEEPEST: u16 = 32;

/// The quote, or the refusal that applies to the tree of blocks.
fn settle(rule: Summary) -> Result<Option<u32>, Refusal>
    ensures { result ≡ settled rule }
{
    if rule.height > DEEPEST {
        return Err(Refusal::Nesting);
    }
    if !rule.contained {
        return Err(Refusal::StrayBreak);
    }
    Ok(rule.quote)
}

/// The quote, or the first refusal that applies to the tables.
pub(crate) fn examine(tables: &Tables) -> Result<Option<u32>, Refusal>
    ensures { result ≡ examined tables.now.image.now }
{
    if !in_order(tables) {
        return Err(Refusal::Blocks);
    }
    if !all_sound(tables) {
        return Err(Refusal::Rows);
    }
    if !named_once(tables) {
        return Err(Refusal::Naming);
    }
    let tree = Tree { tables: *tables };
    settle(tree.outermost())
}
