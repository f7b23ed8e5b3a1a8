//! The program `cppfilt` over the ends that it is given: it copies its input, with each line that is a linker name
//! replaced by its text.
#![tactic(auto)]

mod cutting;
pub mod filter;
mod lines;
mod names;
pub mod program;
pub mod run;
mod sample;
mod shown;
pub mod status;
mod staying;
pub mod words;

pub use cppfilt_ends::{ends, faulty, memory, standard};
pub use cppfilt_lines::FilterOptions;
