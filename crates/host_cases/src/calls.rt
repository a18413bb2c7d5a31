//! What is asked of either host, and what both are shown.

use crate::told;
use host::{Host, View};
use rows::Texts;
use std::fmt::Display;

/// What a call is shown besides the variables.
pub fn view(texts: Texts<'static>, mark: bool, limit: usize) -> View<'static> {
    View { texts, mark, limit }
}

/// What each value reads as.
pub fn print_read<H: Host>(
    rt: &HostRuntime,
    name: &str,
    host: &H,
    values: &[H::Value],
) -> anyhow::Result<()>
where
    H::Value: Display,
{
    for value in values.iter().copied() {
        let unit = told::yes_or_no(host.is_unit(value));
        let truth = told::Reading(host.truth(value));
        let whole = told::Reading(host.whole(value));
        let path = told::Reading(host.path(value));
        println!(rt; "{name} {value}: unit {unit}, truth {truth}, whole {whole}, path {path}")?;
    }
    Ok(())
}

/// Values that were made, each by what it was made of.
pub fn print_made<V: Display>(
    rt: &HostRuntime,
    name: &str,
    made: &[(&str, V)],
) -> anyhow::Result<()> {
    for (of, value) in made {
        println!(rt; "{name} {of}: {value}")?;
    }
    Ok(())
}
