ghost use Rattle.std.specs.Prelude.{◌≡◌, List};
ghost use Rattle.site.specs.declared.expr.SiteExpr.{SiteExpr};
ghost use Rattle.site.specs.Tables.{expr_at};

use crate::expr::SiteExpr;

/// Where the expressions of a host stand.
pub trait Table {
    ghost exprs: { Self → List SiteExpr };

    /// The expression under a code, if there is one.
    fn at(&self, code: u16) -> Option<SiteExpr>
        ensures { result ≡ expr_at (exprs self.now) code };
}

impl<'a> Table for &'a [SiteExpr] {
    ghost exprs = { λ s. s.now };

    fn at(&self, code: u16) -> Option<SiteExpr> {
        self.get(code as usize).copied()
    }
}
