//! Evaluations and declarations of the scripted host.

use crate::calls::view;
use crate::told;
use host::{Declaration, Fault, Host};
use image::Position;
use rows::{Access, Place, Source, Texts, VarRow};
use script::{
    AllowAnswer, AllowEntry, Effect, Entry, EvalAnswer, EvalEntry, ScriptHost, ScriptValue,
};

/// An entry that does two effects and answers.
macro_rules! entry {
    ($first:expr, $second:expr, $answer:expr) => {
        Entry {
            first: $first,
            second: $second,
            answer: $answer,
        }
    };
}

const PLACE: Place = Place {
    source: Source::Site,
    offset: 0,
    length: 1,
};

const TEXTS: Texts<'static> = Texts {
    rule: b"",
    site: b"x",
};

const FAULT: Fault = Fault {
    code: 70,
    at: Position { line: 5, column: 6 },
    catchable: true,
};

const APPEND_8: Option<Effect> = Some(Effect::Append(PLACE, ScriptValue::Number(8)));

const APPEND_9: Option<Effect> = Some(Effect::Append(PLACE, ScriptValue::Number(9)));

const SET_0: Option<Effect> = Some(Effect::Set(0, ScriptValue::Number(5)));

const SET_1: Option<Effect> = Some(Effect::Set(1, ScriptValue::Number(5)));

const SET_2: Option<Effect> = Some(Effect::Set(2, ScriptValue::Number(5)));

const SET_3: Option<Effect> = Some(Effect::Set(3, ScriptValue::Number(5)));

const SET_AGAIN: Option<Effect> = Some(Effect::Set(1, ScriptValue::Number(6)));

const SIX: ScriptValue = ScriptValue::Number(6);

const LAST: EvalAnswer = EvalAnswer::Row(1);

/// An evaluation, with so many of four rows in use.
struct EvalCase {
    name: &'static str,
    used: usize,
    limit: usize,
    entry: EvalEntry,
}

static EVALS: [EvalCase; 29] = [
    EvalCase {
        name: "value",
        used: 1,
        limit: 3,
        entry: entry!(None, None, EvalAnswer::Value(SIX)),
    },
    EvalCase {
        name: "fault",
        used: 1,
        limit: 3,
        entry: entry!(None, None, EvalAnswer::Fault(FAULT)),
    },
    EvalCase {
        name: "exit",
        used: 1,
        limit: 3,
        entry: entry!(None, None, EvalAnswer::Exit(SIX)),
    },
    EvalCase {
        name: "code",
        used: 1,
        limit: 3,
        entry: entry!(None, None, EvalAnswer::Code),
    },
    EvalCase {
        name: "mark",
        used: 1,
        limit: 3,
        entry: entry!(None, None, EvalAnswer::Mark),
    },
    EvalCase {
        name: "names",
        used: 1,
        limit: 3,
        entry: entry!(None, None, EvalAnswer::Names),
    },
    EvalCase {
        name: "names past the rows",
        used: 9,
        limit: 3,
        entry: entry!(None, None, EvalAnswer::Names),
    },
    EvalCase {
        name: "last row",
        used: 1,
        limit: 3,
        entry: entry!(None, None, LAST),
    },
    EvalCase {
        name: "row 0",
        used: 1,
        limit: 3,
        entry: entry!(None, None, EvalAnswer::Row(0)),
    },
    EvalCase {
        name: "row 2 of 1",
        used: 1,
        limit: 3,
        entry: entry!(None, None, EvalAnswer::Row(2)),
    },
    EvalCase {
        name: "append",
        used: 1,
        limit: 3,
        entry: entry!(APPEND_8, None, EvalAnswer::Names),
    },
    EvalCase {
        name: "append second",
        used: 1,
        limit: 3,
        entry: entry!(None, APPEND_8, EvalAnswer::Names),
    },
    EvalCase {
        name: "append twice",
        used: 1,
        limit: 3,
        entry: entry!(APPEND_8, APPEND_9, EvalAnswer::Names),
    },
    EvalCase {
        name: "append to the limit",
        used: 2,
        limit: 3,
        entry: entry!(APPEND_8, APPEND_9, EvalAnswer::Names),
    },
    EvalCase {
        name: "append at the limit",
        used: 3,
        limit: 3,
        entry: entry!(APPEND_8, APPEND_9, EvalAnswer::Names),
    },
    EvalCase {
        name: "append past the limit",
        used: 3,
        limit: 1,
        entry: entry!(APPEND_8, APPEND_9, EvalAnswer::Names),
    },
    EvalCase {
        name: "append to all rows",
        used: 3,
        limit: 100,
        entry: entry!(APPEND_8, APPEND_9, EvalAnswer::Names),
    },
    EvalCase {
        name: "append past the rows",
        used: 9,
        limit: 100,
        entry: entry!(APPEND_8, None, EvalAnswer::Names),
    },
    EvalCase {
        name: "append and read",
        used: 1,
        limit: 3,
        entry: entry!(APPEND_8, APPEND_9, EvalAnswer::Row(2)),
    },
    EvalCase {
        name: "set a constant",
        used: 1,
        limit: 3,
        entry: entry!(SET_1, None, LAST),
    },
    EvalCase {
        name: "set 0",
        used: 1,
        limit: 3,
        entry: entry!(SET_0, None, LAST),
    },
    EvalCase {
        name: "set 2 of 1",
        used: 1,
        limit: 3,
        entry: entry!(SET_2, None, LAST),
    },
    EvalCase {
        name: "set 2 of 3",
        used: 3,
        limit: 3,
        entry: entry!(SET_2, None, LAST),
    },
    EvalCase {
        name: "set 3 of 3",
        used: 3,
        limit: 3,
        entry: entry!(SET_3, None, EvalAnswer::Row(3)),
    },
    EvalCase {
        name: "set what was appended",
        used: 1,
        limit: 3,
        entry: entry!(APPEND_8, SET_1, LAST),
    },
    EvalCase {
        name: "set below what was appended",
        used: 1,
        limit: 3,
        entry: entry!(APPEND_8, SET_2, LAST),
    },
    EvalCase {
        name: "set and append",
        used: 1,
        limit: 3,
        entry: entry!(SET_1, APPEND_8, LAST),
    },
    EvalCase {
        name: "set twice",
        used: 1,
        limit: 3,
        entry: entry!(SET_1, SET_AGAIN, LAST),
    },
    EvalCase {
        name: "set past the rows",
        used: 9,
        limit: 3,
        entry: entry!(SET_1, None, LAST),
    },
];

/// A declaration of this access at level 2, the name present.
struct AllowCase {
    name: &'static str,
    access: Access,
    entry: AllowEntry,
}

static ALLOWS: [AllowCase; 11] = [
    AllowCase {
        name: "yes",
        access: Access::ReadWrite,
        entry: entry!(None, None, AllowAnswer::Yes),
    },
    AllowCase {
        name: "no",
        access: Access::ReadWrite,
        entry: entry!(None, None, AllowAnswer::No),
    },
    AllowCase {
        name: "fault",
        access: Access::ReadWrite,
        entry: entry!(None, None, AllowAnswer::Fault(FAULT)),
    },
    AllowCase {
        name: "present",
        access: Access::ReadWrite,
        entry: entry!(None, None, AllowAnswer::Present),
    },
    AllowCase {
        name: "constant",
        access: Access::Constant,
        entry: entry!(None, None, AllowAnswer::Constant),
    },
    AllowCase {
        name: "constant of another",
        access: Access::ReadWrite,
        entry: entry!(None, None, AllowAnswer::Constant),
    },
    AllowCase {
        name: "level 2",
        access: Access::ReadWrite,
        entry: entry!(None, None, AllowAnswer::Level(2)),
    },
    AllowCase {
        name: "level 1",
        access: Access::ReadWrite,
        entry: entry!(None, None, AllowAnswer::Level(1)),
    },
    AllowCase {
        name: "level 3",
        access: Access::ReadWrite,
        entry: entry!(None, None, AllowAnswer::Level(3)),
    },
    AllowCase {
        name: "and append",
        access: Access::ReadWrite,
        entry: entry!(APPEND_8, None, AllowAnswer::Yes),
    },
    AllowCase {
        name: "and set",
        access: Access::ReadWrite,
        entry: entry!(SET_1, None, AllowAnswer::No),
    },
];

/// A list of two entries for evaluations, and one for declarations.
const TWO_EVALS: [EvalEntry; 2] = [
    entry!(None, None, EvalAnswer::Value(ScriptValue::Number(9))),
    entry!(None, None, EvalAnswer::Code),
];

const TWO_ALLOWS: [AllowEntry; 2] = [
    entry!(None, None, AllowAnswer::Yes),
    entry!(None, None, AllowAnswer::Present),
];

/// Four rows: a constant of value 7, and three of value unit.
fn four_rows() -> [VarRow<ScriptValue>; 4] {
    let unit = VarRow::new(PLACE, Access::ReadWrite, ScriptValue::Unit);
    let seven = VarRow::new(PLACE, Access::Constant, ScriptValue::Number(7));
    [seven, unit, unit, unit]
}

/// The values of rows, those of constants with a mark.
fn print_rows(rt: &HostRuntime, rows: &[VarRow<ScriptValue>]) -> anyhow::Result<()> {
    for row in rows {
        let mark = if row.access() == Access::Constant {
            "!"
        } else {
            ""
        };
        print!(rt; " {}{mark}", row.value())?;
    }
    println!(rt; "")?;
    Ok(())
}

/// One evaluation of code 77 under the mark.
fn evaluate(rt: &HostRuntime, case: &EvalCase) -> anyhow::Result<()> {
    let evals = [case.entry];
    let mut host = ScriptHost {
        evals: &evals,
        allows: &[],
        evaluations: 0,
        declarations: 0,
    };
    let mut vars = four_rows();
    let (names, answer) = host.evaluate(77, &mut vars, case.used, view(TEXTS, true, case.limit));
    let answer = told::Evaluation(answer);
    print!(rt; "script {}: {answer}, names {names}, rows", case.name)?;
    print_rows(rt, &vars)
}

fn print_evals(rt: &HostRuntime) -> anyhow::Result<()> {
    for case in &EVALS {
        evaluate(rt, case)?;
    }
    Ok(())
}

/// Three evaluations of so many entries, and the count after each.
fn print_turns(
    rt: &HostRuntime,
    evals: &[EvalEntry],
    evaluations: usize,
    vars: &mut [VarRow<ScriptValue>],
) -> anyhow::Result<()> {
    let mut host = ScriptHost {
        evals,
        allows: &[],
        evaluations,
        declarations: 0,
    };
    for code in 0..3 {
        let (_, answer) = host.evaluate(code, vars, 1, view(TEXTS, false, 4));
        let answer = told::Evaluation(answer);
        let count = host.evaluations;
        let other = host.declarations;
        println!(rt; "script turn: {answer}, counts {count} {other}")?;
    }
    Ok(())
}

/// One declaration, with one of four rows in use.
fn declare(rt: &HostRuntime, case: &AllowCase) -> anyhow::Result<()> {
    let allows = [case.entry];
    let mut host = ScriptHost {
        evals: &[],
        allows: &allows,
        evaluations: 0,
        declarations: 0,
    };
    let declaration = Declaration {
        name: PLACE,
        access: case.access,
        level: 2,
        present: true,
    };
    let mut vars = four_rows();
    let (names, answer) = host.allow(declaration, &mut vars, 1, view(TEXTS, true, 3));
    let answer = told::Permission(answer);
    print!(rt; "script allow {}: {answer}, names {names}, rows", case.name)?;
    print_rows(rt, &vars)
}

fn print_allowed(rt: &HostRuntime) -> anyhow::Result<()> {
    for case in &ALLOWS {
        declare(rt, case)?;
    }
    Ok(())
}

/// Three declarations, the name absent, of so many entries, and the counts after each.
fn print_declared(
    rt: &HostRuntime,
    allows: &[AllowEntry],
    vars: &mut [VarRow<ScriptValue>],
) -> anyhow::Result<()> {
    let mut host = ScriptHost {
        evals: &[],
        allows,
        evaluations: 0,
        declarations: 0,
    };
    let declaration = Declaration {
        name: PLACE,
        access: Access::ReadWrite,
        level: 0,
        present: false,
    };
    for _ in 0..3 {
        let (_, answer) = host.allow(declaration, vars, 1, view(TEXTS, false, 4));
        let answer = told::Permission(answer);
        let count = host.evaluations;
        let other = host.declarations;
        println!(rt; "script allow turn: {answer}, counts {count} {other}")?;
    }
    Ok(())
}

pub fn print_script(rt: &HostRuntime) -> anyhow::Result<()> {
    let mut vars = four_rows();
    print_evals(rt)?;
    print_turns(rt, &TWO_EVALS, 0, &mut vars)?;
    print_turns(rt, &TWO_EVALS, usize::MAX, &mut vars)?;
    print_turns(rt, &[], 0, &mut vars)?;
    print_allowed(rt)?;
    print_declared(rt, &TWO_ALLOWS, &mut vars)?;
    print_declared(rt, &[], &mut vars)
}
