//! The public calls of printing, for trees of any kind.
#![tactic(auto)]

mod begin;
mod demangle;
mod telling;

pub use demangle::{print_inner, print_tree};
pub use demangle_lines_tied::no_scope;
pub use telling::tell;
