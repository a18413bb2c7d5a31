//! The scripted host: it does all that a host may do, as a lent script says, so that callers can be tried with it.
#![tactic(auto)]

mod answer;
mod effect;
mod entry;
mod item;
mod operator;
mod script_host;
mod value;

pub use answer::{AllowAnswer, EvalAnswer};
pub use effect::Effect;
pub use entry::Entry;
pub use script_host::{AllowEntry, EvalEntry, ScriptHost};
pub use value::ScriptValue;
