//! Holds the reading of names and the named list to a table of cases, and prints a line for each.
#![tactic(auto)]

mod appends;
mod kinds;
mod places;
mod rewinds;
mod searches;
mod tally;

use kinds::Level;
use rows::{ImportRow, VarRow};
use tally::Tally;

fn run(rt: &HostRuntime) -> anyhow::Result<()> {
    let mut tally = Tally::default();
    places::judge(rt, &mut tally)?;
    searches::judge::<VarRow<Level>>(rt, &mut tally)?;
    searches::judge::<ImportRow>(rt, &mut tally)?;
    appends::judge::<VarRow<Level>>(rt, &mut tally)?;
    appends::judge::<ImportRow>(rt, &mut tally)?;
    rewinds::judge::<VarRow<Level>>(rt, &mut tally)?;
    rewinds::judge::<ImportRow>(rt, &mut tally)?;
    tally.print(rt)
}

fn main(rt: HostRuntime) -> anyhow::Result<()> {
    run(&rt)
}
