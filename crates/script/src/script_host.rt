ghost use Rattle.script.specs.Meaning.{script_meaning};
ghost use Rattle.script.specs.Laws.{script_laws};

use crate::answer::{AllowAnswer, EvalAnswer, allow_answer, eval_answer};
use crate::effect::do_both;
use crate::entry::{Entry, next_entry};
use crate::item::item_of;
use crate::operator::{changing, joining};
use crate::value::ScriptValue;
use host::{Allowed, Applied, Caught, Declaration, Evaluated, Host, Item, MOST_WHOLE, View};
use rows::VarRow;

/// One evaluation of a script.
pub type EvalEntry = Entry<EvalAnswer>;

/// One declaration of a script.
pub type AllowEntry = Entry<AllowAnswer>;

/// A lent script. Evaluations go through its one list and declarations through its other, each over and over.
#[derive(Clone, Copy, Debug, PartialEq, Eq)]
pub struct ScriptHost<'a> {
    pub evals: &'a [EvalEntry],
    pub allows: &'a [AllowEntry],
    /// How many evaluations there were; it starts again at 0 with each turn through the list.
    pub evaluations: usize,
    /// How many declarations there were, in the same way.
    pub declarations: usize,
}

/// What stands in for an entry where a script has none.
const NO_EVAL: EvalEntry = Entry {
    first: None,
    second: None,
    answer: EvalAnswer::Value(ScriptValue::Unit),
};

const NO_ALLOW: AllowEntry = Entry {
    first: None,
    second: None,
    answer: AllowAnswer::Yes,
};

impl<'a> Host for ScriptHost<'a> {
    type Value = ScriptValue;

    ghost meaning = { script_meaning };

    ghost laws = { script_laws };

    fn evaluate(
        &mut self,
        code: u16,
        vars: &mut [VarRow<ScriptValue>],
        used: usize,
        view: View<'_>,
    ) -> (usize, Evaluated<ScriptValue>) {
        let entry = next_entry(self.evals, &mut self.evaluations, NO_EVAL);
        let used = do_both(vars, used, view.limit, entry.first, entry.second);
        (used, eval_answer(entry.answer, code, view.mark, vars, used))
    }

    fn allow(
        &mut self,
        declaration: Declaration,
        vars: &mut [VarRow<ScriptValue>],
        used: usize,
        view: View<'_>,
    ) -> (usize, Allowed) {
        let entry = next_entry(self.allows, &mut self.declarations, NO_ALLOW);
        let used = do_both(vars, used, view.limit, entry.first, entry.second);
        (used, allow_answer(entry.answer, declaration))
    }

    fn apply(&self, op: u16, left: ScriptValue, right: ScriptValue) -> Applied<ScriptValue> {
        changing(op, left, right)
    }

    fn binary(&self, op: u16, left: ScriptValue, right: ScriptValue) -> Applied<ScriptValue> {
        joining(op, left, right)
    }

    fn make_unit(&self) -> ScriptValue {
        ScriptValue::Unit
    }

    fn make_truth(&self, truth: bool) -> ScriptValue {
        ScriptValue::Truth(truth)
    }

    fn make_whole(&self, number: u32) -> ScriptValue {
        ScriptValue::Number(i64::from(number))
    }

    fn is_unit(&self, value: ScriptValue) -> bool {
        value == ScriptValue::Unit
    }

    fn truth(&self, value: ScriptValue) -> Option<bool> {
        value.truth_in()
    }

    fn whole(&self, value: ScriptValue) -> Option<u32> {
        value.number_up_to(MOST_WHOLE)
    }

    fn path(&self, value: ScriptValue) -> Option<u32> {
        value.number_up_to(u32::MAX)
    }

    fn item(&self, value: ScriptValue, i: u32) -> Item<ScriptValue> {
        item_of(value, i)
    }

    fn caught(&self, fault: Caught) -> ScriptValue {
        ScriptValue::Number(i64::from(fault.number()))
    }
}
