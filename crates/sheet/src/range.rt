//! Which rows can be written so that they are read as they are.

ghost use Rattle.std.specs.Prelude.{◌≡◌, ℕ, ◌<◌};
ghost use Rattle.sheet.specs.Ranges.{is_row, may_be_row, may_be_positive, is_name, may_be_name, is_free, stmt_fits, entry_fits, all_fit, in_range};

use crate::sheet::{Sheet, StmtEntry};
use image::{Fields, MOST_BLOCKS, MOST_EXPRESSIONS, MOST_STATEMENTS, MOST_TEXT, Name, Stmt};

/// In the place of an expression or a block `NONE` stands for none, so it is no row's number.
fn is_row(n: u16) -> bool
    ensures { result ≡ is_row n }
{
    n < Fields::NONE
}

fn may_be_row(n: Option<u16>) -> bool
    ensures { result ≡ may_be_row n }
{
    n.is_none_or(is_row)
}

fn may_be_positive(n: Option<u16>) -> bool
    ensures { result ≡ may_be_positive n }
{
    n.is_none_or(|n| n > 0)
}

fn is_name(name: Name) -> bool
    ensures { result ≡ is_name name }
{
    name.length > 0
}

fn may_be_name(name: Option<Name>) -> bool
    ensures { result ≡ may_be_name name }
{
    name.is_none_or(is_name)
}

/// Whether a flag's bit is free for the statement's own.
fn is_free(flags: u8, weight: u8) -> bool
    requires { 0 < weight }
    ensures { result ≡ is_free flags weight }
{
    flags / weight % 2 == 0
}

fn stmt_fits(stmt: Stmt, flags: u8) -> bool
    ensures { result ≡ stmt_fits stmt flags }
{
    match stmt {
        Stmt::Noop => true,
        Stmt::Expr { expr } => is_row(expr),
        Stmt::Block { body } => may_be_row(body),
        Stmt::Assignment {
            name,
            expr,
            op,
            index,
        } => is_name(name) && is_row(expr) && may_be_positive(op) && may_be_positive(index),
        Stmt::Var {
            name,
            expr,
            index,
            ..
        } => is_name(name)
            && is_row(expr)
            && may_be_positive(index)
            && is_free(flags, Fields::CONSTANT),
        Stmt::If { expr, body, branch } => is_row(expr) && may_be_row(body) && may_be_row(branch),
        Stmt::While { expr, body } => is_row(expr) && may_be_row(body),
        Stmt::Do { expr, body, .. } => is_row(expr)
            && may_be_row(body)
            && is_free(flags, Fields::NEGATED),
        Stmt::For {
            name,
            counter,
            expr,
            body,
        } => is_name(name) && may_be_name(counter) && is_row(expr) && may_be_row(body),
        Stmt::BreakLoop { expr, .. } | Stmt::Return { expr, .. } => {
            may_be_row(expr) && is_free(flags, Fields::BREAK)
        }
        Stmt::TryCatch { body, branch, name } => {
            may_be_row(body) && may_be_row(branch) && may_be_name(name)
        }
        Stmt::Import { expr, name } => is_row(expr) && may_be_name(name),
    }
}

fn entry_fits(entry: StmtEntry) -> bool
    ensures { result ≡ entry_fits entry }
{
    entry.unread.flags <= Fields::LARGEST_FLAGS && stmt_fits(entry.row.stmt, entry.unread.flags)
}

fn all_fit(entries: &[StmtEntry]) -> bool
    ensures { result ≡ all_fit entries.now }
{
    entries.iter().all(|entry| entry_fits(*entry))
}

/// Whether the counts and the rows can be written.
pub(crate) fn in_range(sheet: Sheet<'_>) -> bool
    ensures { result ≡ in_range sheet.entry }
{
    !sheet.blocks.is_empty()
        && sheet.blocks.len() <= MOST_BLOCKS
        && sheet.statements.len() <= MOST_STATEMENTS
        && sheet.expressions.len() <= MOST_EXPRESSIONS
        && sheet.text.len() <= MOST_TEXT
        && all_fit(sheet.statements)
}
