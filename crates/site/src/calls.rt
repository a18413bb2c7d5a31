ghost use Rattle.std.specs.Prelude.{◌≡◌};
ghost use Rattle.site.specs.Laws.{site_laws};
ghost use Rattle.site.specs.Meaning.{applies, combines, caught_as, site_meaning};

use crate::expr::SiteExpr;
use crate::look::Scope;
use crate::ops::{add, subtract};
use crate::table::Table;
use crate::value::SiteValue;
use host::{
    Allowed, Applied, Caught, Declaration, Evaluated, Halt, Host, Item, MOST_WHOLE, View, in_use,
};
use rows::VarRow;

/// A host that evaluates the expressions of a table, by code. It is generic in the table, so that it knows nothing of how
/// the expressions are held.
#[derive(Clone, Copy)]
pub struct TableHost<T> {
    table: T,
}

/// The host of a lent table.
pub type SiteHost<'a> = TableHost<&'a [SiteExpr]>;

impl<'a> TableHost<&'a [SiteExpr]> {
    pub fn new(table: &'a [SiteExpr]) -> SiteHost<'a>
        ensures { result.table.now ≡ table.now }
    {
        TableHost { table }
    }
}

/// The operators that change their left side: 1 is `+=`.
fn changed(op: u16, left: SiteValue, right: SiteValue) -> Applied<SiteValue>
    ensures { result ≡ applies op left right }
{
    match op {
        1 => Ok(Some(add(left, right)?)),
        _ => Ok(None),
    }
}

/// The operators of two values: 1 is `+`, 2 is `-`.
fn combined(op: u16, left: SiteValue, right: SiteValue) -> Applied<SiteValue>
    ensures { result ≡ combines op left right }
{
    match op {
        1 => Ok(Some(add(left, right)?)),
        2 => Ok(Some(subtract(left, right)?)),
        _ => Ok(None),
    }
}

/// A caught fault is its number.
fn caught_as(fault: Caught) -> SiteValue
    ensures { result ≡ caught_as fault }
{
    SiteValue::Number(i64::from(fault.number()))
}

impl<T: Table> Host for TableHost<T> {
    type Value = SiteValue;

    ghost meaning = { site_meaning T.Table.exprs };

    ghost laws = { site_laws T.Table.exprs };

    fn evaluate(
        &mut self,
        code: u16,
        vars: &mut [VarRow<SiteValue>],
        used: usize,
        view: View<'_>,
    ) -> (usize, Evaluated<SiteValue>) {
        let scope = Scope { vars, used, view };
        let answer = scope.answer(self.table.at(code)).map_err(Halt::from);
        (in_use(vars, used), answer)
    }

    fn allow(
        &mut self,
        _declaration: Declaration,
        vars: &mut [VarRow<SiteValue>],
        used: usize,
        _view: View<'_>,
    ) -> (usize, Allowed) {
        (in_use(vars, used), Ok(true))
    }

    fn apply(&self, op: u16, left: SiteValue, right: SiteValue) -> Applied<SiteValue> {
        changed(op, left, right)
    }

    fn binary(&self, op: u16, left: SiteValue, right: SiteValue) -> Applied<SiteValue> {
        combined(op, left, right)
    }

    fn make_unit(&self) -> SiteValue {
        SiteValue::Unit
    }

    fn make_truth(&self, truth: bool) -> SiteValue {
        SiteValue::Truth(truth)
    }

    fn make_whole(&self, number: u32) -> SiteValue {
        SiteValue::Number(i64::from(number))
    }

    fn is_unit(&self, value: SiteValue) -> bool {
        value == SiteValue::Unit
    }

    fn truth(&self, value: SiteValue) -> Option<bool> {
        value.truth()
    }

    fn whole(&self, value: SiteValue) -> Option<u32> {
        value.number_up_to(MOST_WHOLE)
    }

    fn path(&self, value: SiteValue) -> Option<u32> {
        value.number_up_to(u32::MAX)
    }

    fn item(&self, value: SiteValue, i: u32) -> Item<SiteValue> {
        value.item(i)
    }

    fn caught(&self, fault: Caught) -> SiteValue {
        caught_as(fault)
    }
}
