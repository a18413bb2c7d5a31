//! The calls of the scripted host that change nothing.

use crate::calls::{print_made, print_read};
use crate::told;
use host::{Caught, Host};
use script::ScriptValue::{Number, Range, Seq, Truth, Unit};
use script::{ScriptHost, ScriptValue};

const VALUES: [ScriptValue; 11] = [
    Unit,
    Truth(true),
    Truth(false),
    Number(-1),
    Number(0),
    Number(1_000_000_000),
    Number(1_000_000_001),
    Number(4_294_967_295),
    Number(4_294_967_296),
    Range(0, 1),
    Seq(1),
];

const ITEMS: [(ScriptValue, u32); 29] = [
    (Unit, 0),
    (Truth(true), 0),
    (Number(3), 0),
    (Range(1, 3), 0),
    (Range(1, 3), 1),
    (Range(1, 3), 2),
    (Range(3, 1), 0),
    (Range(i64::MAX - 1, i64::MAX), 0),
    (Range(i64::MAX - 1, i64::MAX), 1),
    (Range(i64::MAX, i64::MAX), u32::MAX),
    (Range(i64::MIN, i64::MAX), 0),
    (Range(i64::MIN, i64::MAX), u32::MAX),
    (Seq(0), 0),
    (Seq(3), 0),
    (Seq(3), 2),
    (Seq(3), 3),
    (Seq(13), 1),
    (Seq(113), 0),
    (Seq(113), 1),
    (Seq(113), 2),
    (Seq(203), 0),
    (Seq(323), 2),
    (Seq(923), 2),
    (Seq(151), 5),
    (Seq(999), 8),
    (Seq(999), 9),
    (Seq(1000), 0),
    (Seq(1003), 0),
    (Seq(65535), 9),
];

fn print_operators(rt: &HostRuntime, host: &ScriptHost<'_>) -> anyhow::Result<()> {
    for op in 0..11 {
        let applied = told::Application(host.apply(op, Number(1), Number(2)));
        let binary = told::Application(host.binary(op, Number(1), Number(2)));
        println!(rt; "script operator {op}: apply {applied}, binary {binary}")?;
    }
    Ok(())
}

fn print_items(rt: &HostRuntime, host: &ScriptHost<'_>) -> anyhow::Result<()> {
    for (value, i) in ITEMS {
        let item = told::ItemAt(host.item(value, i));
        println!(rt; "script {value}, item {i}: {item}")?;
    }
    Ok(())
}

pub fn print_values(rt: &HostRuntime) -> anyhow::Result<()> {
    let host = ScriptHost {
        evals: &[],
        allows: &[],
        evaluations: 0,
        declarations: 0,
    };
    let made = [
        ("unit", host.make_unit()),
        ("true", host.make_truth(true)),
        ("whole", host.make_whole(u32::MAX)),
        ("caught", host.caught(Caught::Host(9))),
    ];
    print_read(rt, "script", &host, &VALUES)?;
    print_made(rt, "script", &made)?;
    print_operators(rt, &host)?;
    print_items(rt, &host)
}
