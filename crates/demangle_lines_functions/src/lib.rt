//! The lines of functions and their types, each a function, for trees of any kind.
#![tactic(auto)]

mod choices;
mod lines;

pub use lines::{
    bare_function_type, encoding_data, encoding_function, exception_spec_computed,
    exception_spec_no_except, function_type,
};
