//! The lines of types, each a function, for trees of any kind.
#![tactic(auto)]

mod choices;
mod lines;

pub use lines::{
    class_enum_type_elaborated_enum, class_enum_type_elaborated_struct,
    class_enum_type_elaborated_union, cv_qualifiers, decltype_id_expression,
    parametric_builtin_type_float_n, parametric_builtin_type_float_nx,
    parametric_builtin_type_signed_bit_int, parametric_builtin_type_signed_bit_int_expression,
    parametric_builtin_type_unsigned_bit_int, parametric_builtin_type_unsigned_bit_int_expression,
    qualified_builtin, type_node_complex, type_node_imaginary, type_node_pack_expansion,
    type_node_pointer_to, type_node_qualified, type_node_template_template,
    type_node_vendor_extension,
};
