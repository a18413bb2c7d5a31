//! What a host is: the calls by which a run asks for values, and what they mean.
#![tactic(auto)]

mod answers;
mod host;
mod numbers;
mod view;

pub use answers::{Allowed, Applied, Caught, Evaluated, Fault, Halt, Item, NoItem};
pub use host::{Host, MOST_WHOLE};
pub use numbers::{number_in, number_up_to};
pub use view::{Declaration, View, in_use};
