//! The header, and rows from their bytes.

ghost use Rattle.std.specs.Prelude.{◌≡◌, ℕ, ◌+◌, ◌*◌, ◌<◌, ◌≤◌, length};
ghost use Rattle.image.specs.Bytes.{word};
ghost use Rattle.image.specs.Layouts.{laid_out};
ghost use Rattle.image.specs.Rows.{block_from, expr_from, fields_from};

use crate::decode::expr_kind;
use crate::fields::Fields;
use crate::layout::{
    BLOCK_BYTES, EXPRESSION_BYTES, Layout, MOST_BLOCKS, MOST_EXPRESSIONS, MOST_STATEMENTS,
    MOST_TEXT, STATEMENT_BYTES,
};
use crate::refusal::Refusal;
use crate::rows::{Block, Expr, Position};

/// The layout that the header gives, if the header is right.
pub(crate) fn read_layout(image: &[u8]) -> Result<Layout, Refusal>
    ensures { result ≡ laid_out image.now }
{
    let &[
        b'R',
        b'H',
        b'S',
        1,
        0,
        0,
        b0,
        b1,
        s0,
        s1,
        e0,
        e1,
        n0,
        n1,
        ref tables @ ..,
    ] = image
    else {
        return Err(Refusal::Header);
    };
    let blocks = u16::from_le_bytes([b0, b1]) as usize;
    let statements = u16::from_le_bytes([s0, s1]) as usize;
    let expressions = u16::from_le_bytes([e0, e1]) as usize;
    let text = u16::from_le_bytes([n0, n1]) as usize;
    if blocks < 1
        || blocks > MOST_BLOCKS
        || statements > MOST_STATEMENTS
        || expressions > MOST_EXPRESSIONS
        || text > MOST_TEXT
    {
        return Err(Refusal::Counts);
    }
    let blocks_at = image.len() - tables.len();
    let statements_at = blocks_at + BLOCK_BYTES * blocks;
    let expressions_at = statements_at + STATEMENT_BYTES * statements;
    let text_at = expressions_at + EXPRESSION_BYTES * expressions;
    if image.len() != text_at + text {
        return Err(Refusal::Counts);
    }
    Ok(Layout {
        blocks,
        statements,
        expressions,
        text,
        blocks_at,
        statements_at,
        expressions_at,
        text_at,
    })
}

pub(crate) fn block_from(row: &[u8; BLOCK_BYTES]) -> Block
    ensures { result ≡ block_from row.now 0 }
{
    let [f0, f1, c0, c1] = *row;
    Block {
        first: u16::from_le_bytes([f0, f1]),
        count: u16::from_le_bytes([c0, c1]),
    }
}

pub(crate) fn expr_from(row: &[u8; EXPRESSION_BYTES]) -> Option<Expr>
    ensures { result ≡ expr_from row.now 0 }
{
    let [kind, _, l0, l1, c0, c1, h0, h1] = *row;
    let kind = expr_kind(kind, u16::from_le_bytes([h0, h1]))?;
    let at = Position {
        line: u16::from_le_bytes([l0, l1]),
        column: u16::from_le_bytes([c0, c1]),
    };
    Some(Expr { at, kind })
}

pub(crate) fn fields_from(row: &[u8; STATEMENT_BYTES]) -> Fields
    ensures { result ≡ fields_from row.now 0 }
{
    let [
        kind,
        flags,
        l0,
        l1,
        c0,
        c1,
        e0,
        e1,
        p0,
        p1,
        q0,
        q1,
        o0,
        o1,
        n0,
        n1,
        r0,
        r1,
        t0,
        t1,
    ] = *row;
    Fields {
        kind,
        flags,
        line: u16::from_le_bytes([l0, l1]),
        column: u16::from_le_bytes([c0, c1]),
        e: u16::from_le_bytes([e0, e1]),
        p: u16::from_le_bytes([p0, p1]),
        q: u16::from_le_bytes([q0, q1]),
        name_offset: u16::from_le_bytes([o0, o1]),
        name_length: u16::from_le_bytes([n0, n1]),
        r: u16::from_le_bytes([r0, r1]),
        t: u16::from_le_bytes([t0, t1]),
    }
}
