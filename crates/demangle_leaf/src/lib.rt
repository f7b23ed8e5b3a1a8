//! The context that every reader of a mangled name is given, and the readers that need no recursion.
#![tactic(auto)]

mod substitution;

pub use demangle_leaf_rows::{
    ParseContext, read_abi_tag, read_abi_tags, read_call_offset, read_clone_suffix,
    read_clone_type_identifier, read_cv_qualifiers, read_discriminator, read_function_param,
    read_identifier, read_number, read_nv_offset, read_resource_name, read_seq_id,
    read_source_name, read_template_param, read_unnamed_type_name, read_v_offset,
};
pub use substitution::read_substitution;
