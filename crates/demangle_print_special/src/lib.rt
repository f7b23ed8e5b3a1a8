//! The lines of special names: tables, thunks, guards, and Java's resources.
#![tactic(auto)]

mod offsets;
mod resources;
mod special;

pub use offsets::call_offset;
pub use resources::resource_name;
pub use special::special_name;
