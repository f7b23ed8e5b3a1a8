//! The lines of template parameters and arguments, each a function, for trees of any kind.
#![tactic(auto)]

mod choices;
mod lines;

pub use lines::{function_param, template_arg_arg_pack, template_args, template_param};
