//! Asks the site host a table of questions, and prints each with its answer.
#![tactic(auto)]

mod evaluations;
mod operands;
mod questions;
mod show;

fn run(rt: &HostRuntime) -> anyhow::Result<()> {
    evaluations::print_mixes(rt)?;
    evaluations::print_cases(rt)?;
    evaluations::print_codes(rt)?;
    questions::print_items(rt)?;
    questions::print_values(rt)?;
    questions::print_applications(rt)?;
    questions::print_faults(rt)?;
    questions::print_made(rt)?;
    questions::print_allowed(rt)
}

fn main(rt: HostRuntime) -> anyhow::Result<()> {
    run(&rt)
}
