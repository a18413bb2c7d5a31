ghost use Rattle.std.specs.Prelude.{◌≡◌};
ghost use Rattle.script.specs.Operators.{fault_at, changing, joining};

use crate::value::ScriptValue;
use host::{Applied, Fault};
use image::Position;

pub(crate) fn fault_at(code: u16, at: Position, catchable: bool) -> Fault
    ensures { result ≡ fault_at code at.line at.column catchable }
{
    Fault {
        code,
        at,
        catchable,
    }
}

/// The operators that change their left side.
pub(crate) fn changing(op: u16, left: ScriptValue, right: ScriptValue) -> Applied<ScriptValue>
    ensures { result ≡ changing op left right }
{
    match op {
        1 => Ok(Some(left)),
        2 => Ok(Some(right)),
        3 => Err(fault_at(41, Position::NONE, true)),
        4 => Err(fault_at(
            42,
            Position {
                line: 80,
                column: 81,
            },
            true,
        )),
        5 => Err(fault_at(43, Position::NONE, false)),
        _ => Ok(None),
    }
}

/// The operators of two values.
pub(crate) fn joining(op: u16, left: ScriptValue, right: ScriptValue) -> Applied<ScriptValue>
    ensures { result ≡ joining op left right }
{
    match op {
        2 | 6 => Ok(Some(left)),
        7 => Ok(Some(right)),
        8 => Err(fault_at(51, Position::NONE, true)),
        9 => Err(fault_at(
            52,
            Position {
                line: 82,
                column: 83,
            },
            false,
        )),
        _ => Ok(None),
    }
}
