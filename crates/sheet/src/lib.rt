//! The rows of a rule image outside of an image, and the image that is written of them.
#![tactic(auto)]

mod bytes;
mod encode;
mod range;
mod sheet;
#[cfg(test)]
mod tests;
mod writer;

pub use sheet::{ExprEntry, Sheet, StmtEntry, Unread};
pub use writer::{Unwritten, write};
