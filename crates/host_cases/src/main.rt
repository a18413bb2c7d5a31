//! Prints what the list host, the scripted host and the resolvers answer to a table of calls, one line each.
#![tactic(auto)]

mod calls;
mod list_cases;
mod resolve_cases;
mod script_cases;
mod script_values;
mod told;

use list_cases::print_list;
use resolve_cases::print_resolvers;
use script_cases::print_script;
use script_values::print_values;

fn run(rt: &HostRuntime) -> anyhow::Result<()> {
    print_list(rt)?;
    print_values(rt)?;
    print_script(rt)?;
    print_resolvers(rt)
}

fn main(rt: HostRuntime) -> anyhow::Result<()> {
    run(&rt)
}
