//! Words, parts and the node types of demangle_leaf_nodes, each made out of the cells of an arena.
#![tactic(auto)]

mod handles;
mod leaves;
mod lists;
mod names;
mod options;
mod parts;
mod words;

pub use handles::{
    builtin_type_from, ctor_dtor_name_from, operator_name_from, parametric_builtin_type_from,
    pointer_to_member_type_from, prefix_handle_from, qualified_builtin_from, substitution_from,
    template_template_param_handle_from, type_handle_from, unresolved_type_handle_from,
    unscoped_template_name_handle_from,
};
pub use leaves::{
    abi_tag_from, call_offset_from, clone_type_identifier_from, cv_qualifiers_from,
    data_member_prefix_from, discriminator_from, function_param_from, identifier_from,
    non_substitution_from, nv_offset_from, resource_name_from, seq_id_from, source_name_from,
    template_param_from, template_template_param_from, unnamed_type_name_from, v_offset_from,
};
pub use lists::{
    abi_tag_list_from, clone_suffix_list_from, number_list_from, resource_name_list_from,
    type_handle_list_from,
};
pub use names::{
    abi_tags_from, bare_function_type_from, clone_suffix_from, closure_type_name_from,
    lambda_sig_from, nested_name_from, unqualified_name_from, unscoped_name_from,
    unscoped_template_name_from,
};
pub use options::{
    optional_count_from, optional_discriminator_from, optional_number_from,
    optional_prefix_handle_from, optional_ref_qualifier_from, optional_type_handle_from,
};
pub use parts::{byte_from, count_from, flag_from, four_parts, number_from, place_from, six_parts};
pub use words::{
    explicit_object_parameter_from, ref_qualifier_from, simple_operator_name_from,
    standard_builtin_type_from, well_known_component_from,
};
