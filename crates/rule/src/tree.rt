ghost use Rattle.std.specs.Prelude.{◌≡◌, ℕ, ◌+◌, ◌^◌, ◌<◌, ◌≤◌, true};
ghost use Rattle.checks.specs.Rules.{in_order, all_sound, named_once};
ghost use Rattle.image.specs.Rows.{stmt};
ghost use Rattle.rule.specs.Tree.{named};
ghost use Rattle.rule.specs.Summaries.{absent, entry, summary_of, of_block, cost_of, Room, summary};

use crate::summary::Summary;
use crate::table::Summaries;
use image::{MOST_BLOCKS, Tables};

/// Tables of sound rows whose blocks are a tree: each but block 0 is named once, and by a lower one.
#[derive(Clone, Copy)]
pub(crate) struct Tree<'a> {
    pub tables: Tables<'a>,
    ghost order: { in_order tables.image.now ≡ true },
    ghost rows: { all_sound tables.image.now ≡ true },
    ghost naming: { named_once tables.image.now ≡ true },
}

impl Tree<'_> {
    /// Statement `i`, by the table.
    fn statement_summary(&self, table: &Summaries, i: usize) -> Summary
        requires heights { (n : ℕ) → (entry table.now.0 n).height ≤ 257 }
        requires costs { cost_of (stmt self.now.tables.image.now i) (named absent (entry table.now.0)) < 2 ^ 32 }
        ensures { result ≡ summary_of (stmt self.now.tables.image.now i) (named absent (entry table.now.0)) }
    {
        let stmt = self.tables.stmt(i);
        let parts = stmt.parts();
        Summary::of_stmt(stmt, table.named(parts.body), table.named(parts.branch))
    }

    /// Block `b`, by the table.
    fn block_summary(&self, table: &Summaries, b: usize) -> Summary
        requires { Room self.now.tables.image.now (entry table.now.0) b }
        ensures { result ≡ of_block self.now.tables.image.now (entry table.now.0) b }
    {
        let mut sum = Summary::EMPTY;
        for i in self.tables.block(b).statements() {
            sum = sum.joined(self.statement_summary(table, i));
        }
        sum
    }

    /// The summaries of all blocks, from the last block down: a block names only higher ones.
    fn summaries(&self) -> Summaries
        ensures { (n : ℕ) → entry result.0 n ≡ summary self.now.tables.image.now n }
    {
        let mut table = Summaries([Summary::EMPTY; MOST_BLOCKS]);
        for b in (0..self.tables.layout().blocks).rev() {
            table.0[b] = self.block_summary(&table, b);
        }
        table
    }

    /// The summary of block 0, and so of the whole rule.
    pub(crate) fn outermost(&self) -> Summary
        ensures { result ≡ summary self.now.tables.image.now 0 }
    {
        self.summaries().entry(0)
    }
}
