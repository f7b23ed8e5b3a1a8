//! What the lines of printing stand on: where a line is printed, what lies below it, the components to which handles
//! refer, and what of inner items stands behind.
#![tactic(auto)]

mod below;
mod components;
mod depth;
mod items;
mod references;

pub use below::Below;
pub use components::{back_reference, non_substitution};
pub use depth::Depth;
pub use items::close;
pub use references::joined;
