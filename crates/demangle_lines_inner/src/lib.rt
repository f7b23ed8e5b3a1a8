//! The lines of what of inner items stands behind what is printed before it, each a function, for trees of any kind.
#![tactic(auto)]

mod arrays;
mod choices;
mod kinds;
mod lines;
mod parameters;
mod parentheses;
mod references;
mod tags;

pub use kinds::tag_of;
pub use lines::{
    array_type_dimension_expression_inside, array_type_dimension_number_inside,
    array_type_no_dimension_inside, bare_function_type_inside, function_type_inside,
    pointer_to_member_type_inside, type_node_lvalue_ref_inside, type_node_pointer_to_inside,
    type_node_rvalue_ref_inside, vector_type_dimension_expression_inside,
    vector_type_dimension_number_inside,
};
pub use parameters::function_inside;
