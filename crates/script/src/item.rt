ghost use Rattle.std.specs.Prelude.{◌≡◌};
ghost use Rattle.script.specs.Items.{fault_of_kind, seq_item, item_of};

use crate::operator::fault_at;
use crate::value::ScriptValue;
use host::{Fault, Item, NoItem, number_in};
use image::Position;

fn fault_of_kind(kind: u16) -> Fault
    ensures { result ≡ fault_of_kind kind }
{
    match kind {
        1 => fault_at(61, Position::NONE, true),
        2 => fault_at(
            62,
            Position {
                line: 90,
                column: 91,
            },
            true,
        ),
        _ => fault_at(63, Position::NONE, false),
    }
}

/// Item `i` of a short sequence. The last digit of `k` is its length, the digit before it the index of a faulty item,
/// and the digit before that the kind of the fault, 0 for none.
fn seq_item(k: u16, i: u32) -> Item<ScriptValue>
    ensures { result ≡ seq_item k i }
{
    let kind = k / 100;
    if kind >= 10 {
        Err(NoItem::NotIterable)
    } else if i >= (k % 10) as u32 {
        Ok(None)
    } else if kind > 0 && i == (k / 10 % 10) as u32 {
        Err(NoItem::Fault(fault_of_kind(kind)))
    } else {
        Ok(Some(ScriptValue::Number(i64::from(i) * 10)))
    }
}

/// Item `i` of a value.
pub(crate) fn item_of(value: ScriptValue, i: u32) -> Item<ScriptValue>
    ensures { result ≡ item_of value i }
{
    match value {
        // `Ok(.. .map(..))` would pass an option inside a result on, which takes several times as long.
        ScriptValue::Range(from, to) => match number_in(from, to, i) {
            Some(n) => Ok(Some(ScriptValue::Number(n))),
            None => Ok(None),
        },
        ScriptValue::Seq(k) => seq_item(k, i),
        _ => Err(NoItem::NotIterable),
    }
}
