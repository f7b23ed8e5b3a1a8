//! Node types that hold no name, type or expression by value, as trees of an arena of cells.
//!
//! Each function puts a node behind the cells that stand; an index that it answers is one that later cells may name.
//! A place of 2^32 or more, and the number of a component that is 2^30 or more, fit no arena: it is `OutOfMemory`.
#![tactic(auto)]

mod leaves;
mod lists;
mod made;
mod parts;

pub use leaves::{
    abi_tag_to, abi_tags_to, bare_function_type_to, builtin_type_to, call_offset_to,
    clone_suffix_to, clone_type_identifier_to, closure_type_name_to, ctor_dtor_name_to,
    cv_qualifiers_to, data_member_prefix_to, discriminator_to, explicit_object_parameter_to,
    function_param_to, identifier_to, lambda_sig_to, nested_name_to, non_substitution_to,
    nv_offset_to, operator_name_to, parametric_builtin_type_to, pointer_to_member_type_to,
    prefix_handle_to, qualified_builtin_to, ref_qualifier_to, resource_name_to, seq_id_to,
    simple_operator_name_to, source_name_to, standard_builtin_type_to, substitution_to,
    template_param_to, template_template_param_handle_to, template_template_param_to,
    type_handle_to, unnamed_type_name_to, unqualified_name_to, unresolved_type_handle_to,
    unscoped_name_to, unscoped_template_name_handle_to, unscoped_template_name_to, v_offset_to,
    well_known_component_to,
};
pub use lists::{gather, wait};
pub use made::{empty, flag_to, number_to, one, place_to, reference_to, signed_to, three, two};
pub use parts::{
    abi_tag_list_to, clone_suffix_list_to, optional_discriminator_to, optional_number_to,
    optional_prefix_handle_to, optional_ref_qualifier_to, optional_signed_to,
    optional_type_handle_to, resource_name_list_to, signed_list_to, type_handle_list_to,
};
