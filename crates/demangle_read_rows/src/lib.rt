//! The rows of the grammar that need no recursion, over the arena: bytes, words and numbers of the text, the leaf
//! rows, and new components.
#![tactic(auto)]

mod bytes;
mod components;
mod lists;
mod missing;
mod names;
mod next;
mod numbers;
mod offsets;
mod params;
mod resources;
mod words;

pub use bytes::{behind, decimal, digit, optional_word, signed, unsigned, word};
pub use components::{
    add_expression, add_member_template, add_prefix, add_template_name,
    add_template_template_param, add_type, add_unresolved_type,
};
pub use lists::{abi_tags, clone_suffix};
pub use missing::{optional, optional_discriminator, optional_number, optional_ref_qualifier};
pub use names::{
    abi_tag, clone_type_identifier, data_member_prefix, identifier, sized, source_name,
    unnamed_type_name,
};
pub use next::{begins_function, begins_thunk, has_more, next_is, next_is_digit};
pub use numbers::{discriminator, number, reference_id, seq_id, substitution};
pub use offsets::{call_offset, nv_offset, v_offset};
pub use params::{cv_qualifiers, function_param, some_cv_qualifiers, template_param};
pub use resources::resource_name;
pub use words::{
    builtin_word, component_word, explicit_object_parameter, explicit_object_word, operator_word,
    ref_qualifier, ref_qualifier_word, simple_operator_name, standard_builtin_type,
    well_known_component,
};
