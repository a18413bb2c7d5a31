ghost use Rattle.std.specs.Prelude.{◌≡◌};
ghost use Rattle.rule.specs.Tree.{named};
ghost use Rattle.rule.specs.Summaries.{absent, entry};

use crate::summary::Summary;
use image::MOST_BLOCKS;

/// The summaries of blocks by the numbers of the blocks.
#[derive(Drop)]
pub(crate) struct Summaries(pub [Summary; MOST_BLOCKS]);

impl Summaries {
    pub(crate) fn entry(&self, n: u16) -> Summary
        ensures { result ≡ entry self.now.0 n }
    {
        self.0.get(n as usize).copied().unwrap_or(Summary::EMPTY)
    }

    pub(crate) fn named(&self, reference: Option<u16>) -> Summary
        ensures { result ≡ named absent (entry self.now.0) reference }
    {
        reference.map_or(Summary::ABSENT, |n| self.entry(n))
    }
}
