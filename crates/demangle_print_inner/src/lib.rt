//! What of an inner item stands behind what is printed before it: parameter lists, bounds of arrays, marks and classes.
#![tactic(auto)]

mod arrays;
mod inside;
mod parameter_lists;
mod parentheses;
mod waiting;

pub use inside::inner_steps;
pub use parameter_lists::parameters;
