//! The lines of types.
#![tactic(auto)]

mod functions;
mod types;

pub use functions::{bare_function_type, exception_spec, function_type};
pub use types::{
    array_type, class_enum_type, pointer_to_member_type, type_node, type_node_steps, vector_type,
};
