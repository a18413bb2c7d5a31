ghost use Rattle.std.specs.Prelude.{◌≡◌, min, length};
ghost use Rattle.host.specs.Meaning.{over};
ghost use Rattle.rows.specs.Rows.{in_use};
ghost use Rattle.script.specs.Effects.{back_of, value_in, table_after, used_after, both_done};

use crate::value::ScriptValue;
use host::in_use;
use names::append;
use rows::{Access, Place, VarRow};

/// What an entry of a script does to the variables.
#[derive(Clone, Copy, Debug, PartialEq, Eq)]
pub enum Effect {
    /// A read-write variable more, while there are fewer than the limit.
    Append(Place, ScriptValue),
    /// Another value for the variable that counts this many back from the last in use; 1 is the last.
    Set(u16, ScriptValue),
}

/// The row that counts `k` back from the last in use.
pub(crate) fn back_of(used: usize, k: u16) -> Option<usize>
    ensures { result ≡ back_of used k }
{
    let back = k as usize;
    if back > 0 && back <= used {
        Some(used - back)
    } else {
        None
    }
}

/// The value of the row at an index, and unit where there is none.
pub(crate) fn value_in(vars: &[VarRow<ScriptValue>], at: Option<usize>) -> ScriptValue
    ensures { result ≡ value_in vars.now at }
{
    at.and_then(|i| vars.get(i))
        .map_or(ScriptValue::Unit, |row| row.value())
}

/// Does an effect, and answers how many variables are in use then.
fn do_effect(
    vars: &mut [VarRow<ScriptValue>],
    used: usize,
    limit: usize,
    effect: Option<Effect>,
) -> usize
    ensures used { result ≡ used_after limit vars.old used effect }
    ensures rows { vars.new ≡ table_after limit vars.old used effect }
{
    match effect {
        Some(Effect::Append(place, value)) if used < limit => {
            let row = VarRow::new(place, Access::ReadWrite, value);
            append(vars, used, row).unwrap_or(used)
        }
        Some(Effect::Set(k, value)) => {
            if let Some(i) = back_of(used, k)
                && i < vars.len()
            {
                vars[i] = vars[i].with_value(value);
            }
            used
        }
        _ => used,
    }
}

/// Does two effects in order, and answers how many variables are in use then.
pub(crate) fn do_both(
    vars: &mut [VarRow<ScriptValue>],
    used: usize,
    limit: usize,
    first: Option<Effect>,
    second: Option<Effect>,
) -> usize
    ensures used { result ≡ length (both_done (min limit (length vars.old)) (in_use vars.old used) first second) }
    ensures rows { vars.new ≡ over (both_done (min limit (length vars.old)) (in_use vars.old used) first second) vars.old }
{
    let between = do_effect(vars, in_use(vars, used), limit, first);
    do_effect(vars, between, limit, second)
}
