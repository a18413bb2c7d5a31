//! The fields of a row from what the row says.

ghost use Rattle.std.specs.Prelude.{◌≡◌};
ghost use Rattle.sheet.specs.Encoding.{numbered, or_zero, name_fields, marked, filled, free_name, fields_of};

use crate::sheet::{StmtEntry, Unread};
use image::{Fields, Name, Position, Stmt};

fn reference(row: Option<u16>) -> u16
    ensures { result ≡ numbered row }
{
    row.unwrap_or(Fields::NONE)
}

fn or_zero(number: Option<u16>) -> u16
    ensures { result ≡ or_zero number }
{
    number.unwrap_or(0)
}

/// A name in two fields; where there is none, its offset is free.
fn name_fields(name: Option<Name>, free: u16) -> Name
    ensures { result ≡ name_fields name free }
{
    name.unwrap_or(Name {
        offset: free,
        length: 0,
    })
}

fn marked(flags: u8, weight: u8, set: bool) -> u8
    ensures { result ≡ marked flags weight set }
{
    if set {
        // Any flags may stand in an entry: `write` refuses the large ones before it needs the sum.
        flags.saturating_add(weight)
    } else {
        flags
    }
}

impl Unread {
    /// A row of which nothing is read but its position.
    fn row(self, kind: u8, at: Position) -> Fields
        ensures { result ≡ filled kind self.flags at self.e self.p self.q (free_name self) self.r self.t }
    {
        Fields {
            kind,
            flags: self.flags,
            line: at.line,
            column: at.column,
            e: self.e,
            p: self.p,
            q: self.q,
            name_offset: self.name_offset,
            name_length: self.name_length,
            r: self.r,
            t: self.t,
        }
    }
}

/// The same row with a name.
fn with_name(row: Fields, name: Name) -> Fields
    ensures { result ≡ filled row.kind row.flags (record { line = row.line; column = row.column }) row.e row.p row.q name row.r row.t }
{
    Fields {
        name_offset: name.offset,
        name_length: name.length,
        ..row
    }
}

impl StmtEntry {
    /// The fields of the row: what the kind reads from the statement, and the rest as it is unread.
    pub(crate) fn fields(self) -> Fields
        ensures { result ≡ fields_of self }
    {
        let unread = self.unread;
        let at = self.row.at;
        match self.row.stmt {
            Stmt::Noop => unread.row(0, at),
            Stmt::Expr { expr } => Fields {
                e: expr,
                ..unread.row(1, at)
            },
            Stmt::Block { body } => Fields {
                p: reference(body),
                ..unread.row(2, at)
            },
            Stmt::Assignment {
                name,
                expr,
                op,
                index,
            } => Fields {
                e: expr,
                q: or_zero(op),
                r: or_zero(index),
                ..with_name(unread.row(3, at), name)
            },
            Stmt::Var {
                name,
                expr,
                index,
                constant,
            } => Fields {
                flags: marked(unread.flags, Fields::CONSTANT, constant),
                e: expr,
                r: or_zero(index),
                ..with_name(unread.row(4, at), name)
            },
            Stmt::If { expr, body, branch } => Fields {
                e: expr,
                p: reference(body),
                q: reference(branch),
                ..unread.row(5, at)
            },
            Stmt::While { expr, body } => Fields {
                e: expr,
                p: reference(body),
                ..unread.row(7, at)
            },
            Stmt::Do {
                expr,
                body,
                negated,
            } => Fields {
                flags: marked(unread.flags, Fields::NEGATED, negated),
                e: expr,
                p: reference(body),
                ..unread.row(8, at)
            },
            Stmt::For {
                name,
                counter,
                expr,
                body,
            } => {
                let counter = name_fields(counter, unread.r);
                Fields {
                    e: expr,
                    p: reference(body),
                    r: counter.offset,
                    t: counter.length,
                    ..with_name(unread.row(9, at), name)
                }
            }
            Stmt::BreakLoop { expr, breaks } => Fields {
                flags: marked(unread.flags, Fields::BREAK, breaks),
                e: reference(expr),
                ..unread.row(10, at)
            },
            Stmt::TryCatch { body, branch, name } => Fields {
                p: reference(body),
                q: reference(branch),
                ..with_name(unread.row(11, at), name_fields(name, unread.name_offset))
            },
            Stmt::Return { expr, throws } => Fields {
                flags: marked(unread.flags, Fields::BREAK, throws),
                e: reference(expr),
                ..unread.row(12, at)
            },
            Stmt::Import { expr, name } => Fields {
                e: expr,
                ..with_name(unread.row(13, at), name_fields(name, unread.name_offset))
            },
        }
    }
}
