//! Reads the description of a site from standard input, line by line, and prints what the site host and a resolver make
//! of it.
//!
//! | Line | What it does |
//! |---|---|
//! | `name load = 40` | adds a variable; its value is a whole number, `true`, `false` or `unit` |
//! | `name const limit = 70` | adds a variable that is constant |
//! | `expression 7` | adds an expression that is a value; its code is the number of those before it |
//! | `expression load` | adds an expression that is a variable, by its name |
//! | `expression 0 + 1` | adds an expression of two earlier ones, which are values or variables; also `-`, `<`, `=` and `..` |
//! | `module 3 = 12` | puts a module under a path; also `none`, and `fault 9` |
//! | `evaluate 2` | asks the host for the value of a code, with the variables so far |
//! | `resolve 3` | asks the resolver for a path |
//!
//! Words stand apart. Empty lines, and lines that begin with `#`, do nothing.
#![tactic(auto)]

mod described;
mod line;
mod told;

use described::Described;
use line::{Line, read_line};
use std::io::{BufRead, BufReader};
use std::str::from_utf8;
use told::Told;

/// Does what a line says. None where the line says nothing that can be done.
fn follow<'a>(site: &mut Described, line: Line<'a>) -> anyhow::Result<Option<Told<'a>>> {
    match line {
        Line::Name(name, access, value) => {
            site.add_name(name, access, value)?;
            Ok(Some(Told::Name(name, access, value)))
        }
        Line::Expression(expression) => Ok(
            site.add_expression(expression)?
                .map(|code| Told::Expression(code, expression)),
        ),
        Line::Module(row) => {
            site.add_module(row)?;
            Ok(Some(Told::Module(row)))
        }
        Line::Evaluate(code) => Ok(Some(Told::Evaluated(code, site.evaluate(code)))),
        Line::Resolve(path) => Ok(Some(Told::Resolved(path, site.resolve(path)))),
    }
}

/// Whether a line is empty or a remark.
fn says_nothing(words: &[&str]) -> bool {
    words.first().is_none_or(|word| word.starts_with('#'))
}

fn print_not_understood(rt: &HostRuntime, number: u64) -> anyhow::Result<()> {
    println!(rt; "line {number}: not understood")?;
    Ok(())
}

/// Does what the words of a line say, and prints it.
fn print_line(
    rt: &HostRuntime,
    site: &mut Described,
    number: u64,
    text: &str,
) -> anyhow::Result<()> {
    let words: Vec<&str> = text.split_whitespace().collect(rt.alloc())?;
    if says_nothing(words.as_slice()) {
        return Ok(());
    }
    let told = match read_line(words.as_slice()) {
        Some(line) => follow(site, line)?,
        None => None,
    };
    match told {
        Some(told) => println!(rt; "{told}")?,
        None => print_not_understood(rt, number)?,
    }
    Ok(())
}

/// Lines are read as bytes, because one that is no text is to be passed over and not to end the run.
fn run(rt: &HostRuntime) -> anyhow::Result<()> {
    let mut site = Described::new(rt.alloc());
    let lines = BufReader::new(rt.alloc(), rt.stdin())?.split(rt.alloc(), b'\n');
    for (number, line) in (1u64..).zip(lines) {
        match from_utf8(line?.as_slice()) {
            Ok(text) => print_line(rt, &mut site, number, text)?,
            Err(_) => print_not_understood(rt, number)?,
        }
    }
    Ok(())
}

fn main(rt: HostRuntime) -> anyhow::Result<()> {
    run(&rt)
}
