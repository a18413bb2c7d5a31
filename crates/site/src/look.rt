ghost use Rattle.std.specs.Prelude.{◌≡◌};
ghost use Rattle.site.specs.Expressions.{looked, operand_of, value_of, answer_of};
ghost use Rattle.site.specs.Scopes.{scope_seen};

use crate::expr::{Operand, SiteExpr};
use crate::ops::operate;
use crate::value::{Failure, SiteValue};
use host::View;
use names::search;
use rows::{Place, VarRow};

/// What an expression may read: the variables in use, and both texts.
#[derive(Clone, Copy)]
pub(crate) struct Scope<'a> {
    pub vars: &'a [VarRow<SiteValue>],
    pub used: usize,
    pub view: View<'a>,
}

impl<'a> Scope<'a> {
    /// The value of the last variable in use whose name has the bytes of this one.
    fn look(self, name: Place) -> Result<SiteValue, Failure>
        ensures { result ≡ looked (scope_seen self.entry) name }
    {
        let texts = self.view.texts;
        // Here and in `answer` `ok_or(..)?` would make a result more, and an evaluation would take a third more time.
        match search(self.vars, self.used, name.text(texts), texts) {
            Some(i) => Ok(self.vars[i].value()),
            None => Err(Failure::UnknownVariable),
        }
    }

    fn operand(self, operand: Operand) -> Result<SiteValue, Failure>
        ensures { result ≡ operand_of (scope_seen self.entry) operand }
    {
        match operand {
            Operand::Constant(value) => Ok(value),
            Operand::Variable(name) => self.look(name),
        }
    }

    /// The value of an expression: both operands are looked up, and then the operator is asked.
    fn value_of(self, expr: SiteExpr) -> Result<SiteValue, Failure>
        ensures { result ≡ value_of (scope_seen self.entry) expr }
    {
        match expr {
            SiteExpr::Operand(operand) => self.operand(operand),
            SiteExpr::Binary(op, left, right) => {
                operate(op, self.operand(left)?, self.operand(right)?)
            }
        }
    }

    /// The value of the expression that was found under a code, if one was.
    pub(crate) fn answer(self, expr: Option<SiteExpr>) -> Result<SiteValue, Failure>
        ensures { result ≡ answer_of expr (scope_seen self.entry) }
    {
        match expr {
            Some(expr) => self.value_of(expr),
            None => Err(Failure::UnknownCode),
        }
    }
}
