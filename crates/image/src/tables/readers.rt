ghost use Rattle.std.specs.Prelude.{◌≡◌, ℕ, ◌+◌, ◌*◌, ◌<◌, ◌≤◌, Ok, Err, length, take, drop, MatchResult, MatchOption, IfOk};
ghost use Rattle.image.specs.Layouts.{layout_of, laid_out, empty_image};
ghost use Rattle.image.specs.Rows.{block, stmt_at, stmt, expr_at, text_of};

use crate::layout::{BLOCK_BYTES, HEADER_BYTES, Layout};
use crate::read::{block_from, expr_from, fields_from, read_layout};
use crate::refusal::Refusal;
use crate::rows::{Block, Expr, Stmt, StmtRow};
use crate::tables::Tables;

/// The image of the empty rule: one block of no statements.
static EMPTY: [u8; HEADER_BYTES + BLOCK_BYTES] = [
    b'R', b'H', b'S', 1, 0, 0, 1, 0, 0, 0, 0, 0, 0, 0, 0, 0, 0, 0,
];

impl<'a> Tables<'a> {
    /// The tables of the empty rule.
    pub fn empty() -> Tables<'a>
        ensures { result.image.now ≡ empty_image }
    {
        Tables {
            image: &EMPTY,
            layout: Layout {
                blocks: 1,
                statements: 0,
                expressions: 0,
                text: 0,
                blocks_at: HEADER_BYTES,
                statements_at: EMPTY.len(),
                expressions_at: EMPTY.len(),
                text_at: EMPTY.len(),
            },
        }
    }

    /// The tables of an image, if its header is right.
    pub fn read(image: &'a [u8]) -> Result<Tables<'a>, Refusal>
        ensures answer { MatchResult result (λ _. laid_out image.now ≡ Ok (layout_of image.now)) (λ e. laid_out image.now ≡ Err e) }
        ensures same { IfOk result (λ t. t.image.now ≡ image.now) }
    {
        let layout = read_layout(image)?;
        Ok(Tables { image, layout })
    }

    /// Row `i` of the table of `rows` rows that begins at `at`; none past the table.
    fn row<const N: usize>(&self, at: usize, rows: usize, i: usize) -> Option<&'a [u8; N]>
        requires { at + N * rows ≤ length self.now.image.now }
        ensures { MatchOption result (rows ≤ i) (λ row. (i < rows) × (row.now ≡ take N (drop (at + N * i) self.now.image.now))) }
    {
        if i >= rows {
            return None;
        }
        self.image[at + N * i..].first_chunk()
    }

    /// Block row `i`; an empty block past the table.
    #[tactic(auto, using(crate::proofs::Reading::block_cut), unfolding(crate::specs::Rows::block))]
    pub fn block(&self, i: usize) -> Block
        ensures { result ≡ block self.now.image.now i }
    {
        self.row(self.layout.blocks_at, self.layout.blocks, i)
            .map_or(Block { first: 0, count: 0 }, block_from)
    }

    /// Statement row `i`; none past the table, or where a checked rule could not have the row.
    #[tactic(auto, unfolding(crate::specs::Rows::stmt_at))]
    pub fn statement(&self, i: usize) -> Option<StmtRow>
        ensures { result ≡ stmt_at self.now.image.now i }
    {
        fields_from(self.row(self.layout.statements_at, self.layout.statements, i)?).row()
    }

    /// What statement row `i` does: nothing, where `statement` has no row.
    pub fn stmt(&self, i: usize) -> Stmt
        ensures { result ≡ stmt self.now.image.now i }
    {
        self.statement(i).map_or(Stmt::Noop, |row| row.stmt)
    }

    /// Expression row `i`; none past the table, or where its kind is unknown.
    #[tactic(auto, using(crate::proofs::Reading::expr_cut), unfolding(crate::specs::Rows::expr_at))]
    pub fn expression(&self, i: usize) -> Option<Expr>
        ensures { result ≡ expr_at self.now.image.now i }
    {
        expr_from(self.row(self.layout.expressions_at, self.layout.expressions, i)?)
    }

    /// The name text.
    pub fn text(&self) -> &'a [u8]
        ensures { result.now ≡ text_of self.now.image.now }
    {
        &self.image[self.layout.text_at..]
    }
}
