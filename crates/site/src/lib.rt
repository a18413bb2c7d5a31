//! A host with numbers and ranges, whose expressions stand in a table.
#![tactic(auto)]

mod calls;
mod expr;
mod look;
mod ops;
mod questions;
mod table;
mod value;

pub use calls::{SiteHost, TableHost};
pub use expr::{Operand, Operator, SiteExpr};
pub use table::Table;
pub use value::SiteValue;
