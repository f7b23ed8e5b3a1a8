//! The rows of types, template arguments and literals, ABI sections 5.1.2, 5.1.5 and 5.1.6, over the arena.
//!
//! Each function reads a row or a part of one. The rows that these lead back to are called through `below`, with fewer
//! levels left.
#![tactic(auto)]

mod arguments;
mod array_types;
mod builtin;
mod bytes;
mod class_types;
mod first_bytes;
mod function_types;
mod lists;
mod literals;
mod made;
mod template_params;
mod types;

pub use arguments::{optional_template_args, template_arg_by, template_args};
pub use array_types::{array_type, pointer_to_member_type, vector_type};
pub use builtin::{builtin_type, parametric_builtin_type};
pub use class_types::{class_enum_type, decltype};
pub use first_bytes::begins_std;
pub use function_types::{bare_function_type, exception_spec, function_type, type_list};
pub use lists::{all_arguments, lengthened};
pub use literals::expr_primary;
pub use made::{made_one, made_two, restored};
pub use template_params::template_template_param_handle;
pub use types::type_handle_by;
