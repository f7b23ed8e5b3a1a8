//! The lines of whole names and encodings, of names with a scope, and of prefixes.
#![tactic(auto)]

mod encodings;
mod globals;
mod local;
mod nested;
mod prefixes;
mod unscoped;
mod whole;

pub use encodings::encoding_steps;
pub use globals::global_ctor_dtor;
pub use local::local_name;
pub use nested::nested_name;
pub use prefixes::{data_member_prefix, prefix, prefix_steps};
pub use unscoped::{
    name_steps, unscoped_name, unscoped_template_name, unscoped_template_name_steps,
};
pub use whole::mangled_name_steps;
