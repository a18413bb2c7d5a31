//! What each kind of row reads, said once.

ghost use Rattle.std.specs.Prelude.{◌≡◌, ◌==◌, ℕ, ◌+◌, ◌*◌, ◌<◌, ◌≤◌, if◌then◌else◌, Some, None};
ghost use Rattle.image.specs.Rows.{name_of, flag, expr_kind, stmt_of, stmt_from, parts};

use crate::fields::Fields;
use crate::rows::{ExprKind, Name, Parts, Position, Stmt, StmtRow};

/// The number, unless it is the one that stands for none.
fn some_unless(none: u16, n: u16) -> Option<u16>
    ensures { result ≡ (if n == none then None else Some n) }
{
    (n != none).then_some(n)
}

fn name_of(offset: u16, length: u16) -> Option<Name>
    ensures { result ≡ name_of offset length }
{
    (length != 0).then_some(Name { offset, length })
}

pub(crate) fn expr_kind(kind: u8, code: u16) -> Option<ExprKind>
    ensures { result ≡ expr_kind kind code }
{
    match kind {
        0 => Some(ExprKind::Host(code)),
        1 => Some(ExprKind::Unit),
        2 => Some(ExprKind::False),
        3 => Some(ExprKind::True),
        _ => None,
    }
}

impl Fields {
    fn has(self, weight: u8) -> bool
        requires { 0 < weight }
        ensures { result ≡ flag self.flags weight }
    {
        self.flags / weight % 2 == 1
    }

    fn stmt(self) -> Option<Stmt>
        ensures { result ≡ stmt_of self }
    {
        let expr = some_unless(Fields::NONE, self.e);
        let body = some_unless(Fields::NONE, self.p);
        let branch = some_unless(Fields::NONE, self.q);
        let name = name_of(self.name_offset, self.name_length);
        let index = some_unless(0, self.r);
        match self.kind {
            0 => Some(Stmt::Noop),
            1 => Some(Stmt::Expr { expr: expr? }),
            2 => Some(Stmt::Block { body }),
            3 => Some(Stmt::Assignment {
                name: name?,
                expr: expr?,
                op: some_unless(0, self.q),
                index,
            }),
            4 => Some(Stmt::Var {
                name: name?,
                expr: expr?,
                index,
                constant: self.has(Fields::CONSTANT),
            }),
            5 => Some(Stmt::If {
                expr: expr?,
                body,
                branch,
            }),
            7 => Some(Stmt::While { expr: expr?, body }),
            8 => Some(Stmt::Do {
                expr: expr?,
                body,
                negated: self.has(Fields::NEGATED),
            }),
            9 => Some(Stmt::For {
                name: name?,
                counter: name_of(self.r, self.t),
                expr: expr?,
                body,
            }),
            10 => Some(Stmt::BreakLoop {
                expr,
                breaks: self.has(Fields::BREAK),
            }),
            11 => Some(Stmt::TryCatch { body, branch, name }),
            12 => Some(Stmt::Return {
                expr,
                throws: self.has(Fields::BREAK),
            }),
            13 => Some(Stmt::Import { expr: expr?, name }),
            _ => None,
        }
    }

    pub(crate) fn row(self) -> Option<StmtRow>
        ensures { result ≡ stmt_from self }
    {
        if self.flags > Fields::LARGEST_FLAGS {
            return None;
        }
        let at = Position {
            line: self.line,
            column: self.column,
        };
        let stmt = self.stmt()?;
        Some(StmtRow { at, stmt })
    }
}

impl Stmt {
    /// What the statement refers to.
    pub fn parts(self) -> Parts
        ensures { result ≡ parts self }
    {
        match self {
            Stmt::Noop => Parts::default(),
            Stmt::Expr { expr } => Parts {
                expr: Some(expr),
                ..Parts::default()
            },
            Stmt::Block { body } => Parts {
                body,
                ..Parts::default()
            },
            Stmt::Assignment { name, expr, .. } | Stmt::Var { name, expr, .. } => Parts {
                expr: Some(expr),
                name: Some(name),
                ..Parts::default()
            },
            Stmt::If { expr, body, branch } => Parts {
                expr: Some(expr),
                body,
                branch,
                ..Parts::default()
            },
            Stmt::While { expr, body } | Stmt::Do { expr, body, .. } => Parts {
                expr: Some(expr),
                body,
                ..Parts::default()
            },
            Stmt::For {
                name,
                counter,
                expr,
                body,
            } => Parts {
                expr: Some(expr),
                body,
                name: Some(name),
                counter,
                ..Parts::default()
            },
            Stmt::BreakLoop { expr, .. } | Stmt::Return { expr, .. } => Parts {
                expr,
                ..Parts::default()
            },
            Stmt::TryCatch { body, branch, name } => Parts {
                body,
                branch,
                name,
                ..Parts::default()
            },
            Stmt::Import { expr, name } => Parts {
                expr: Some(expr),
                name,
                ..Parts::default()
            },
        }
    }
}
