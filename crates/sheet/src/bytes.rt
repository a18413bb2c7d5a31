//! Rows as bytes.

ghost use Rattle.std.specs.Prelude.{◌≡◌, ℕ, true, List, length};
ghost use Rattle.sheet.specs.Encoding.{kind_number, code_or, block_bytes, field_bytes, stmt_bytes, expr_bytes, header_bytes};
ghost use Rattle.sheet.specs.Ranges.{in_range};

use crate::sheet::{ExprEntry, Sheet, StmtEntry};
use image::{Block, ExprKind, Fields};

/// A row that is written as `N` bytes.
pub(crate) trait Written<const N: usize> {
    ghost bytes: { Self → List ℕ };

    fn bytes(&self) -> [u8; N]
        ensures { result ≡ bytes self.now };
}

impl Written<4> for Block {
    ghost bytes = { block_bytes };

    fn bytes(&self) -> [u8; 4] {
        block_bytes(*self)
    }
}

impl Written<20> for StmtEntry {
    ghost bytes = { stmt_bytes };

    fn bytes(&self) -> [u8; 20] {
        field_bytes(self.fields())
    }
}

impl Written<8> for ExprEntry {
    ghost bytes = { expr_bytes };

    fn bytes(&self) -> [u8; 8] {
        expr_bytes(*self)
    }
}

fn block_bytes(row: Block) -> [u8; 4]
    ensures { result ≡ block_bytes row }
{
    let [f0, f1] = row.first.to_le_bytes();
    let [c0, c1] = row.count.to_le_bytes();
    [f0, f1, c0, c1]
}

fn field_bytes(x: Fields) -> [u8; 20]
    ensures { result ≡ field_bytes x }
{
    let [l0, l1] = x.line.to_le_bytes();
    let [c0, c1] = x.column.to_le_bytes();
    let [e0, e1] = x.e.to_le_bytes();
    let [p0, p1] = x.p.to_le_bytes();
    let [q0, q1] = x.q.to_le_bytes();
    let [o0, o1] = x.name_offset.to_le_bytes();
    let [n0, n1] = x.name_length.to_le_bytes();
    let [r0, r1] = x.r.to_le_bytes();
    let [t0, t1] = x.t.to_le_bytes();
    [
        x.kind, x.flags, l0, l1, c0, c1, e0, e1, p0, p1, q0, q1, o0, o1, n0, n1, r0, r1, t0, t1,
    ]
}

/// The kind's number and the host code.
fn coded(kind: ExprKind, free: u16) -> (u8, u16)
    ensures number { result.0 ≡ kind_number kind }
    ensures code { result.1 ≡ code_or kind free }
{
    match kind {
        ExprKind::Host(code) => (0, code),
        ExprKind::Unit => (1, free),
        ExprKind::False => (2, free),
        ExprKind::True => (3, free),
    }
}

fn expr_bytes(x: ExprEntry) -> [u8; 8]
    ensures { result ≡ expr_bytes x }
{
    let (kind, code) = coded(x.row.kind, x.code);
    let [l0, l1] = x.row.at.line.to_le_bytes();
    let [c0, c1] = x.row.at.column.to_le_bytes();
    let [h0, h1] = code.to_le_bytes();
    [kind, x.unread, l0, l1, c0, c1, h0, h1]
}

/// The mark, the version, the zero byte, and how many rows each table has.
pub(crate) fn header(sheet: Sheet<'_>) -> [u8; 14]
    requires { in_range sheet ≡ true }
    ensures { result ≡ header_bytes (length sheet.entry.blocks.now) (length sheet.entry.statements.now) (length sheet.entry.expressions.now) (length sheet.entry.text.now) }
{
    let [b0, b1] = (sheet.blocks.len() as u16).to_le_bytes();
    let [s0, s1] = (sheet.statements.len() as u16).to_le_bytes();
    let [e0, e1] = (sheet.expressions.len() as u16).to_le_bytes();
    let [n0, n1] = (sheet.text.len() as u16).to_le_bytes();
    [b'R', b'H', b'S', 1, 0, 0, b0, b1, s0, s1, e0, e1, n0, n1]
}
