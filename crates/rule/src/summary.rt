ghost use Rattle.std.specs.Prelude.{◌≡◌, ℕ, ◌+◌, ◌^◌, ◌<◌};
ghost use Rattle.rule.specs.Summaries.{of_stmt, joined, value};

use crate::tally::{holds_breaks, plus, stmt_quote};
use image::Stmt;

/// What is known of a block with all the blocks below it.
#[derive(Clone, Copy)]
pub(crate) struct Summary {
    /// How many levels of blocks there are.
    pub height: u16,
    /// Whether each break is inside a loop body.
    pub contained: bool,
    /// What its statements count at most, if that is known.
    pub quote: Option<u32>,
}

impl Summary {
    /// Of an empty reference, which is no level.
    pub const ABSENT: Summary = Summary {
        height: 0,
        contained: true,
        quote: Some(0),
    };

    /// Of a block of no statements.
    pub const EMPTY: Summary = Summary {
        height: 1,
        contained: true,
        quote: Some(0),
    };

    /// The summary of a statement from those of its body and its branch.
    pub(crate) fn of_stmt(stmt: Stmt, body: Summary, branch: Summary) -> Summary
        requires { (3 + value body.quote + value branch.quote < 2 ^ 32) × ((body.height < 65535) × (branch.height < 65535)) }
        ensures { result ≡ of_stmt stmt body branch }
    {
        Summary {
            height: 1 + body.height.max(branch.height),
            contained: holds_breaks(stmt, body.contained, branch.contained),
            quote: stmt_quote(stmt, body.quote, branch.quote),
        }
    }

    /// The summary of statements that stand together.
    pub(crate) fn joined(self, next: Summary) -> Summary
        requires { value self.quote + value next.quote < 2 ^ 32 }
        ensures { result ≡ joined self next }
    {
        Summary {
            height: self.height.max(next.height),
            contained: next.contained && self.contained,
            quote: plus(self.quote, next.quote),
        }
    }
}
