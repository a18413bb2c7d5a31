//! Three tests of an image's tables, each over all rows.
#![tactic(auto)]

mod naming;
mod order;
mod sound;

pub use naming::named_once;
pub use order::in_order;
pub use sound::all_sound;
