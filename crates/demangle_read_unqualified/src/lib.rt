//! The rows of names without their scopes (ABI sections 5.1.2, 5.1.3, 5.1.4.3 and 5.1.8), over the arena and over the
//! rows to which they lead back.
//!
//! Each function reads a row or a part of one. What is read again with fewer levels left is called through `below`.
#![tactic(auto)]

mod closures;
mod first_bytes;
mod operators;
mod unqualified_names;
mod words;

pub use closures::{closure_type_name, lambda_sig};
pub use operators::{ctor_dtor_name, operator_name};
pub use unqualified_names::unqualified_name;
