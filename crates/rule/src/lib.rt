//! A checked rule, and its quote.
#![tactic(auto)]

mod checked;
mod examine;
mod summary;
mod table;
mod tally;
mod tree;

pub use checked::CheckedRule;
