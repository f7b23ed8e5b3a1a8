//! Names inside classes or namespaces with their prefixes (ABI section 5.1.2) over the arena.
//!
//! Each function reads a row or a part of one. What is read again with fewer levels left is called through `below`.
#![tactic(auto)]

mod components;
mod four;
mod held;
mod members;
mod nested_names;
mod prefixes;
mod qualifiers;
mod shapes;
mod take_over;
mod taken;
mod turn_starts;
mod turns;

pub use held::{made, restored};
pub use nested_names::nested_name;
pub use prefixes::prefix_handle;
