//! The lines of names without a scope: constructors and destructors, closures, unnamed types, tags, and what compilers
//! append to a name.
#![tactic(auto)]

mod leaf_names;
mod suffixes;
mod unnamed;
mod unqualified;

pub use leaf_names::{component_leaf, ctor_dtor_name, leaf_item, leaf_name};
pub use suffixes::{clone_suffix, clone_type_identifier, shown_suffixes};
pub use unnamed::{closure_type_name, lambda_sig, unnamed_leaf, unnamed_type_name};
pub use unqualified::{abi_tag, abi_tags, unqualified_name};
