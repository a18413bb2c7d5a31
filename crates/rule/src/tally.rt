//! What a statement counts, and where it holds breaks.

ghost use Rattle.std.specs.Prelude.{◌≡◌, ℕ, ◌+◌, ◌^◌, ◌<◌};
ghost use Rattle.rule.specs.Tree.{plus, larger, holds_breaks, stmt_quote, expr_charge, expr_charges};
ghost use Rattle.rule.specs.Summaries.{value};

use image::Stmt;

pub(crate) fn plus(a: Option<u32>, b: Option<u32>) -> Option<u32>
    requires { value a + value b < 2 ^ 32 }
    ensures { result ≡ plus a b }
{
    a.zip(b).map(|(x, y)| x + y)
}

fn larger(a: Option<u32>, b: Option<u32>) -> Option<u32>
    ensures { result ≡ larger a b }
{
    a.zip(b).map(|(x, y)| x.max(y))
}

/// What one evaluation of an expression counts.
fn expr_charge(_expr: u16) -> u32
    ensures { result ≡ expr_charge _expr }
{
    1
}

fn expr_charges(expr: Option<u16>) -> u32
    ensures { result ≡ expr_charges expr }
{
    expr.map_or(0, expr_charge)
}

/// The quote of a statement from those of its body and its branch.
pub(crate) fn stmt_quote(stmt: Stmt, body: Option<u32>, branch: Option<u32>) -> Option<u32>
    requires { 3 + value body + value branch < 2 ^ 32 }
    ensures { result ≡ stmt_quote stmt body branch }
{
    match stmt {
        Stmt::Noop => Some(1),
        Stmt::Expr { expr } | Stmt::Var { expr, .. } | Stmt::Import { expr, .. } => {
            Some(1 + expr_charge(expr))
        }
        Stmt::Block { .. } => plus(Some(1), body),
        Stmt::Assignment { expr, .. } => Some(2 + expr_charge(expr)),
        Stmt::If { expr, .. } => plus(Some(1 + expr_charge(expr)), larger(body, branch)),
        Stmt::While { .. } | Stmt::Do { .. } | Stmt::For { .. } => None,
        Stmt::BreakLoop { expr, .. } | Stmt::Return { expr, .. } => Some(1 + expr_charges(expr)),
        Stmt::TryCatch { .. } => plus(Some(1), plus(body, branch)),
    }
}

/// Whether each break of a statement is inside a loop body, if that is known of its body and its branch.
pub(crate) fn holds_breaks(stmt: Stmt, body: bool, branch: bool) -> bool
    ensures { result ≡ holds_breaks stmt body branch }
{
    match stmt {
        Stmt::BreakLoop { .. } => false,
        Stmt::Block { .. } => body,
        Stmt::If { .. } | Stmt::TryCatch { .. } => body && branch,
        _ => true,
    }
}
