//! The tie of all lines, for trees of any kind.
#![tactic(auto)]

mod depth;
mod nothing;
mod printing;
mod tied;

pub use depth::{Depth, Sources};
pub use nothing::no_scope;
pub use printing::{print_behind, print_line};
