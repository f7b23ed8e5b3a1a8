//! The lines of expressions, each a function, for trees of any kind.
#![tactic(auto)]

mod choices;
mod lines;
mod lines_2;

pub use lines::{
    expression_alignof_type, expression_binary, expression_braced_init_list, expression_call,
    expression_const_cast, expression_conversion_braced, expression_conversion_many,
    expression_conversion_one, expression_delete, expression_delete_array, expression_deref_member,
    expression_dynamic_cast, expression_global_delete, expression_global_delete_array,
    expression_global_new, expression_global_new_array, expression_member, expression_new,
    expression_new_array, expression_noexcept, expression_pointer_to_member, expression_prefix_dec,
    expression_prefix_inc, expression_reinterpret_cast, expression_sizeof_captured_template_pack,
    expression_sizeof_template_pack, expression_sizeof_type, expression_static_cast,
    expression_ternary, expression_typeid_type, expression_unary, fold_expr_binary_left,
    fold_expr_unary_left, fold_expr_unary_right, initializer, member_name,
};
pub use lines_2::{
    destructor_name_unresolved, expr_primary_external, expr_primary_literal,
    expression_pack_expansion, expression_rethrow, expression_throw, simple_id, subobject_expr,
    unresolved_name_global, unresolved_name_global_nested2, unresolved_name_nested1,
    unresolved_name_nested2, unresolved_type_template,
};
