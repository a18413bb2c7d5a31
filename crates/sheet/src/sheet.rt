use image::{Block, Expr, StmtRow};

/// What stands in the fields of a statement row that its kind does not read. A name or a counter that is absent leaves its
/// offset unread.
#[derive(Clone, Copy, PartialEq, Eq, Debug, Default)]
pub struct Unread {
    /// The flags without the one that the kind reads, if it reads one.
    pub flags: u8,
    pub e: u16,
    pub p: u16,
    pub q: u16,
    pub name_offset: u16,
    pub name_length: u16,
    pub r: u16,
    pub t: u16,
}

/// A statement row with all that stands in it.
#[derive(Clone, Copy, PartialEq, Eq, Debug)]
pub struct StmtEntry {
    pub row: StmtRow,
    pub unread: Unread,
}

/// An expression row with all that stands in it.
#[derive(Clone, Copy, PartialEq, Eq, Debug)]
pub struct ExprEntry {
    pub row: Expr,
    /// The byte behind the kind, which is never read.
    pub unread: u8,
    /// What stands in the place of the host code where the expression is a constant.
    pub code: u16,
}

/// The rows of an image, and its name text.
#[derive(Clone, Copy, PartialEq, Eq, Debug)]
pub struct Sheet<'a> {
    pub blocks: &'a [Block],
    pub statements: &'a [StmtEntry],
    pub expressions: &'a [ExprEntry],
    pub text: &'a [u8],
}
