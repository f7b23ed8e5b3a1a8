//! The program `cppfilt_text` over the ends that it is given: it copies its input, with each linker name inside it
//! replaced by its text.
#![tactic(auto)]

mod filter;
pub mod program;
pub mod run;

pub use cppfilt_ends::standard;
