//! The words of the command lines of `cppfilt` and `cppfilt_text`: what they ask for, or what is to be written instead.
#![tactic(auto)]

mod command;
mod number;
mod options;
mod refusal;
mod request;
mod text_command;
mod verdict;

pub use refusal::Refusal;
pub use request::{Request, Task};
pub use verdict::{judge, judge_text};
