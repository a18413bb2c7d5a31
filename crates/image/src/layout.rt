/// The most blocks that an image has.
pub const MOST_BLOCKS: usize = 256;

/// The most statements that an image has.
pub const MOST_STATEMENTS: usize = 1024;

/// The most expressions that an image has.
pub const MOST_EXPRESSIONS: usize = 1024;

/// The most bytes that an image's name text has.
pub const MOST_TEXT: usize = 2048;

/// How many bytes the header has.
pub(crate) const HEADER_BYTES: usize = 14;

/// How many bytes a block row has.
pub(crate) const BLOCK_BYTES: usize = 4;

/// How many bytes a statement row has.
pub(crate) const STATEMENT_BYTES: usize = 20;

/// How many bytes an expression row has.
pub(crate) const EXPRESSION_BYTES: usize = 8;

/// The most bytes that an image has, with its header.
pub const MOST_BYTES: usize = HEADER_BYTES
    + BLOCK_BYTES * MOST_BLOCKS
    + STATEMENT_BYTES * MOST_STATEMENTS
    + EXPRESSION_BYTES * MOST_EXPRESSIONS
    + MOST_TEXT;

/// Where the tables of an image begin, in bytes, and how many rows each has.
#[derive(Clone, Copy, PartialEq, Eq, Debug)]
pub struct Layout {
    /// Number of block rows.
    pub blocks: usize,
    /// Number of statement rows.
    pub statements: usize,
    /// Number of expression rows.
    pub expressions: usize,
    /// Number of bytes of name text.
    pub text: usize,
    pub blocks_at: usize,
    pub statements_at: usize,
    pub expressions_at: usize,
    pub text_at: usize,
}
