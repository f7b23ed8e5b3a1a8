//! The lines that choose among others by the kind of a node: of expressions, and of components of the table.
#![tactic(auto)]

mod components;
mod expressions;

pub use components::substitutable_steps;
pub use expressions::expression_steps;
