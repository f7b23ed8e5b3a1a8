//! The rows of the grammar through which all recursion goes, over the arena: what a reader of a row is handed of them.
#![tactic(auto)]

mod below;
mod tied;

pub use below::Below;
pub use tied::Tied;
