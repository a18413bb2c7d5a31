ghost use Rattle.std.specs.Prelude.{◌≡◌};
ghost use Rattle.list.specs.Meaning.{onward, unless_present, list_meaning};
ghost use Rattle.list.specs.Laws.{list_laws};

use crate::value::ListValue;
use host::{
    Allowed, Applied, Caught, Declaration, Evaluated, Fault, Halt, Host, Item, NoItem, View, in_use,
};
use image::Position;
use rows::{Unital, VarRow};

/// What one evaluation answers: a value, or the end of the run with a value.
#[derive(Clone, Copy, Debug, PartialEq, Eq)]
pub enum ListEntry {
    Value(u32),
    Exit(u32),
}

/// A lent list of entries, and the place of the next one.
#[derive(Clone, Copy, Debug, PartialEq, Eq)]
pub struct ListHost<'a> {
    pub entries: &'a [ListEntry],
    pub next: usize,
}

/// The fault of an evaluation behind the last entry.
const USED_UP: Fault = Fault {
    code: 1,
    at: Position::NONE,
    catchable: false,
};

impl<'a> ListHost<'a> {
    /// Goes on by one entry; past the last it stays.
    fn advance(&mut self)
        ensures place { self.new.next ≡ onward self.old.entries.now self.old.next }
        ensures list { self.new.entries ≡ self.old.entries }
    {
        if self.next < self.entries.len() {
            self.next += 1;
        }
    }
}

/// A name that is there already is refused.
fn unless_present(present: bool) -> Allowed
    ensures { result ≡ unless_present present }
{
    Ok(!present)
}

impl<'a> Host for ListHost<'a> {
    type Value = ListValue;

    ghost meaning = { list_meaning };

    ghost laws = { list_laws };

    fn evaluate(
        &mut self,
        _code: u16,
        vars: &mut [VarRow<ListValue>],
        used: usize,
        _view: View<'_>,
    ) -> (usize, Evaluated<ListValue>) {
        let used = in_use(vars, used);
        let entry = self.entries.get(self.next).copied();
        self.advance();
        // Each answer is made where it is handed out: a result inside a result costs several times as much when it is
        // passed on.
        match entry {
            Some(ListEntry::Value(number)) => (used, Ok(ListValue(number))),
            Some(ListEntry::Exit(number)) => (used, Err(Halt::Exit(ListValue(number)))),
            None => (used, Err(Halt::Fault(USED_UP))),
        }
    }

    fn allow(
        &mut self,
        declaration: Declaration,
        vars: &mut [VarRow<ListValue>],
        used: usize,
        _view: View<'_>,
    ) -> (usize, Allowed) {
        (in_use(vars, used), unless_present(declaration.present))
    }

    fn apply(&self, _op: u16, _left: ListValue, _right: ListValue) -> Applied<ListValue> {
        Ok(None)
    }

    fn binary(&self, _op: u16, _left: ListValue, _right: ListValue) -> Applied<ListValue> {
        Ok(None)
    }

    fn make_unit(&self) -> ListValue {
        ListValue::unit()
    }

    fn make_truth(&self, truth: bool) -> ListValue {
        ListValue::from(truth)
    }

    fn make_whole(&self, number: u32) -> ListValue {
        ListValue::of_whole(number)
    }

    fn is_unit(&self, value: ListValue) -> bool {
        value == ListValue::unit()
    }

    fn truth(&self, value: ListValue) -> Option<bool> {
        value.truth()
    }

    fn whole(&self, value: ListValue) -> Option<u32> {
        value.whole()
    }

    fn path(&self, value: ListValue) -> Option<u32> {
        value.path()
    }

    fn item(&self, _value: ListValue, _i: u32) -> Item<ListValue> {
        Err(NoItem::NotIterable)
    }

    fn caught(&self, fault: Caught) -> ListValue {
        ListValue::of_whole(u32::from(fault.number()))
    }
}
