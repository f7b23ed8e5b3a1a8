//! The lines of literals, parameters and names that are not resolved, of template arguments and of sizes of packs.
#![tactic(auto)]

mod arguments;
mod literals;
mod sizes;
mod unresolved;

pub use arguments::{
    function_param, template_arg_steps, template_template_param, template_template_param_steps,
};
pub use literals::expr_primary;
pub use sizes::{sizeof_captured_pack, sizeof_function_pack, sizeof_template_pack};
pub use unresolved::{
    base_unresolved_name, destructor_name, simple_id, unresolved_name, unresolved_qualifier_level,
    unresolved_type, unresolved_type_steps,
};
