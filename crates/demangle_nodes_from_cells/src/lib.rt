//! The node types that hold each other, and the entries of the table, each made out of the cells of an arena.
#![tactic(auto)]

mod arguments;
mod below;
mod entries;
mod expression_parts;
mod expressions;
mod expressions_of_more;
mod expressions_of_one;
mod lists;
mod names;
mod nodes;
mod options;
mod parts;
mod special_names;
mod tie;
mod tied;
mod unresolved;
mod whole;

pub use entries::{
    array_type_from, class_enum_type_from, decltype_from, exception_spec_from, function_type_from,
    optional_exception_spec_from, optional_template_args_from, prefix_from, substitutable_from,
    type_node_from, unresolved_type_from, vector_type_from,
};
pub use nodes::{
    base_unresolved_name_from, destructor_name_from, expr_primary_from, fold_expr_from,
    global_ctor_dtor_from, initializer_from, local_name_from, member_name_from, simple_id_from,
    special_name_from, subobject_expr_from, template_args_from, unresolved_name_from,
    unresolved_qualifier_level_from,
};
pub use tie::{encoding_from, expression_from, mangled_name_from, name_from, template_arg_from};
