//! The lines of names, each a function, for trees of any kind.
#![tactic(auto)]

mod choices;
mod lines;

pub use lines::{
    abi_tag, abi_tags, clone_suffix, clone_type_identifier, closure_type_name,
    ctor_dtor_name_complete_constructor, ctor_dtor_name_deleting_destructor, data_member_prefix,
    global_ctor_dtor_ctor, global_ctor_dtor_dtor, identifier, lambda_sig, local_name_default,
    local_name_relative, mangled_name_block_invoke, mangled_name_encoding, name_unscoped_template,
    nested_name_template, nested_name_template_explicit_object, nested_name_unqualified,
    nested_name_unqualified_explicit_object, operator_name_cast, operator_name_literal,
    operator_name_simple, operator_name_vendor_extension, prefix_nested, prefix_template,
    prefix_unqualified, unnamed_type_name, unqualified_name_ctor_dtor,
    unqualified_name_local_source_name, unqualified_name_operator, unscoped_name_std,
};
