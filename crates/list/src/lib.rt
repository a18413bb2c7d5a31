//! The list host: each evaluation takes the next entry of a lent list.
#![tactic(auto)]

mod list_host;
mod value;

pub use list_host::{ListEntry, ListHost};
pub use value::ListValue;
