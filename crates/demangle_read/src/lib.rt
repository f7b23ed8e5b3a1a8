//! The reader over the arena: the six rows through which all recursion goes, tied, and whole names.
#![tactic(auto)]

mod late;
mod reader;
mod tie;
mod whole;

pub use reader::Reader;
pub use whole::{read_front, read_whole};
