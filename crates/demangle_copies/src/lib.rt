//! Copies of the nodes of the syntax tree and of the substitution table.
#![tactic(auto)]

mod entries;
mod in_cells;
mod leaves;
mod nodes;
mod table;
mod try_clone;

pub use try_clone::TryClone;
