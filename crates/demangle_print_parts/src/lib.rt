//! Lines that the lines of all groups call: words, numbers, bytes of the input, qualifiers, handles, lists, and
//! template parameters and arguments.
#![tactic(auto)]

mod arguments;
mod builtin;
mod bytes;
mod decltypes;
mod handles;
mod identifiers;
mod lists;
mod numbers;
mod operators;
mod qualifiers;
mod texts;
mod words;

pub use arguments::{argument, optional_template_args, template_args, template_param};
pub use builtin::{
    builtin_type, cv_qualifiers, parametric_builtin_type, qualified_builtin, qualifier_words,
};
pub use bytes::{bytes_between, bytes_text, text_of};
pub use decltypes::decltype;
pub use handles::{
    prefix_handle, template_template_param_handle, type_handle, unresolved_type_handle,
    unscoped_template_name_handle,
};
pub use identifiers::{identifier, source_name};
pub use lists::{expression_list, type_list};
pub use numbers::{optional_ordinal, ordinal};
pub use operators::operator_name;
pub use qualifiers::{explicit_object_parameter, is_qualified, ref_qualifier, reference_mark};
pub use texts::{number, standard_builtin_type, unsigned, well_known_component};
pub use words::simple_operator_name;
