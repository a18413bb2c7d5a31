//! The rule image: its header, its tables, and its rows.
#![tactic(auto)]

mod decode;
mod fields;
mod layout;
mod read;
mod refusal;
mod rows;
mod tables;

pub use fields::Fields;
pub use layout::{Layout, MOST_BLOCKS, MOST_BYTES, MOST_EXPRESSIONS, MOST_STATEMENTS, MOST_TEXT};
pub use refusal::Refusal;
pub use rows::{Block, Expr, ExprKind, Name, Parts, Position, Stmt, StmtRow};
pub use tables::Tables;
