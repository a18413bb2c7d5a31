//! Names, and the rows that have one.
#![tactic(auto)]

mod import;
mod place;
mod row;
mod variable;

pub use import::ImportRow;
pub use place::{Place, Source, Texts};
pub use row::{Blank, Named, Unital};
pub use variable::{Access, VarRow};
