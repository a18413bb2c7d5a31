ghost use Rattle.std.specs.Prelude.{◌≡◌, ◌+◌};

use std::ops::Range;

/// A place in the rule's source. Line 0 and column 0 together are no place.
#[derive(Clone, Copy, PartialEq, Eq, Debug)]
pub struct Position {
    pub line: u16,
    pub column: u16,
}

impl Position {
    /// No place: line 0 and column 0 together.
    pub const NONE: Position = Position { line: 0, column: 0 };
}

/// A part of the rule's name text.
#[derive(Clone, Copy, PartialEq, Eq, Debug)]
pub struct Name {
    pub offset: u16,
    pub length: u16,
}

/// A block row: its statements stand together in the statement table.
#[derive(Clone, Copy, PartialEq, Eq, Debug)]
pub struct Block {
    pub first: u16,
    pub count: u16,
}

impl Block {
    /// The numbers of its statements.
    pub fn statements(self) -> Range<usize>
        ensures start { result.start ≡ self.first }
        ensures end { result.end ≡ self.first + self.count }
    {
        let first = self.first as usize;
        first..first + self.count as usize
    }
}

/// What an expression is: a constant, or the host's under a code.
#[derive(Clone, Copy, PartialEq, Eq, Debug)]
pub enum ExprKind {
    Host(u16),
    Unit,
    False,
    True,
}

/// An expression row.
#[derive(Clone, Copy, PartialEq, Eq, Debug)]
pub struct Expr {
    pub at: Position,
    pub kind: ExprKind,
}

/// A statement with the fields that its kind reads, and no others. Expressions and blocks go by the
/// number of their row, and `None` in the place of a block is an empty block.
#[derive(Clone, Copy, PartialEq, Eq, Debug)]
pub enum Stmt {
    Noop,
    Expr {
        expr: u16,
    },
    Block {
        body: Option<u16>,
    },
    /// `op` is absent in a plain assignment. `index` counts names back from the last, which is 1.
    Assignment {
        name: Name,
        expr: u16,
        op: Option<u16>,
        index: Option<u16>,
    },
    Var {
        name: Name,
        expr: u16,
        index: Option<u16>,
        constant: bool,
    },
    If {
        expr: u16,
        body: Option<u16>,
        branch: Option<u16>,
    },
    While {
        expr: u16,
        body: Option<u16>,
    },
    Do {
        expr: u16,
        body: Option<u16>,
        negated: bool,
    },
    For {
        name: Name,
        counter: Option<Name>,
        expr: u16,
        body: Option<u16>,
    },
    BreakLoop {
        expr: Option<u16>,
        breaks: bool,
    },
    TryCatch {
        body: Option<u16>,
        branch: Option<u16>,
        name: Option<Name>,
    },
    Return {
        expr: Option<u16>,
        throws: bool,
    },
    Import {
        expr: u16,
        name: Option<Name>,
    },
}

/// A statement row.
#[derive(Clone, Copy, PartialEq, Eq, Debug)]
pub struct StmtRow {
    pub at: Position,
    pub stmt: Stmt,
}

/// The references of a statement, whatever its kind.
#[derive(Clone, Copy, PartialEq, Eq, Debug, Default)]
pub struct Parts {
    pub expr: Option<u16>,
    pub body: Option<u16>,
    pub branch: Option<u16>,
    pub name: Option<Name>,
    pub counter: Option<Name>,
}
