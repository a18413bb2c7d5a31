ghost use Rattle.std.specs.Prelude.{◌≡◌};
ghost use Rattle.script.specs.Answers.{answer_in, allow_answer};

use crate::effect::{back_of, value_in};
use crate::value::{ScriptValue, count_of};
use host::{Allowed, Declaration, Evaluated, Fault, Halt};
use rows::{Access, VarRow};

/// What an entry of a script answers to an evaluation.
#[derive(Clone, Copy, Debug, PartialEq, Eq)]
pub enum EvalAnswer {
    Value(ScriptValue),
    Fault(Fault),
    Exit(ScriptValue),
    /// The code asked for, as a number.
    Code,
    /// Whether the search mark was on.
    Mark,
    /// How many names are in use after the effects, as a number.
    Names,
    /// The value, after the effects, of the row that counts this many back from the last in use; unit if there is none.
    Row(u16),
}

/// What an entry of a script answers to a declaration.
#[derive(Clone, Copy, Debug, PartialEq, Eq)]
pub enum AllowAnswer {
    Yes,
    No,
    Fault(Fault),
    /// Yes if the name was there already.
    Present,
    /// Yes if the declaration is constant.
    Constant,
    /// Yes if the level is this one.
    Level(u8),
}

pub(crate) fn eval_answer(
    answer: EvalAnswer,
    code: u16,
    mark: bool,
    vars: &[VarRow<ScriptValue>],
    used: usize,
) -> Evaluated<ScriptValue>
    ensures { result ≡ answer_in code mark vars.now used answer }
{
    match answer {
        EvalAnswer::Value(value) => Ok(value),
        EvalAnswer::Fault(fault) => Err(Halt::Fault(fault)),
        EvalAnswer::Exit(value) => Err(Halt::Exit(value)),
        EvalAnswer::Code => Ok(ScriptValue::Number(i64::from(code))),
        EvalAnswer::Mark => Ok(ScriptValue::Truth(mark)),
        EvalAnswer::Names => Ok(count_of(used)),
        EvalAnswer::Row(k) => Ok(value_in(vars, back_of(used, k))),
    }
}

pub(crate) fn allow_answer(answer: AllowAnswer, declaration: Declaration) -> Allowed
    ensures { result ≡ allow_answer declaration answer }
{
    match answer {
        AllowAnswer::Yes => Ok(true),
        AllowAnswer::No => Ok(false),
        AllowAnswer::Fault(fault) => Err(fault),
        AllowAnswer::Present => Ok(declaration.present),
        AllowAnswer::Constant => Ok(declaration.access == Access::Constant),
        AllowAnswer::Level(level) => Ok(declaration.level == level),
    }
}
