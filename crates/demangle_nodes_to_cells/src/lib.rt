//! The node types that hold each other, and entries of the table, as trees of an arena of cells.
#![tactic(auto)]

mod entries;
mod nodes;

pub use entries::{
    array_type_to, class_enum_type_to, decltype_to, exception_spec_to, function_type_to,
    optional_exception_spec_to, prefix_to, substitutable_to, type_node_to, unresolved_type_to,
    vector_type_to,
};
pub use nodes::{
    base_unresolved_name_to, destructor_name_to, encoding_to, expr_primary_to, expression_list_to,
    expression_to, fold_expr_to, global_ctor_dtor_to, initializer_to, local_name_to,
    mangled_name_to, member_name_to, name_to, optional_initializer_to, optional_name_to,
    optional_template_args_to, simple_id_to, special_name_to, subobject_expr_to,
    template_arg_list_to, template_arg_to, template_args_to, unresolved_name_to,
    unresolved_qualifier_level_list_to, unresolved_qualifier_level_to,
};
