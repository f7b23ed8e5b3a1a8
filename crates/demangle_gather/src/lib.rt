//! The text of a linker name gathered behind other bytes, with no copy of its own.
#![tactic(auto)]

mod gathering;

pub use gathering::gather;
