//! Resolvers: what stands under the path of an import.
#![tactic(auto)]

mod pair;
mod resolver;
mod table;

pub use pair::Pair;
pub use resolver::{Resolved, Resolver};
pub use table::{PathRow, TableResolver};
