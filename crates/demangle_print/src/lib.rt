//! Printing: the lines of all nodes, tied together, and the traits by which nodes are printed.
#![tactic(auto)]

mod arguments;
mod demangle;
mod expressions;
mod functions;
mod inner;
mod leaf;
mod names;
mod printer;
mod printing;
mod special_names;
mod tied;
mod types;
mod unqualified;
mod words;

pub use demangle::{Demangle, DemangleAsInner, DemangleAsLeaf, demangle_args, demangle_inner};
