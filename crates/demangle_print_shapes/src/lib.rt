//! The lines of expressions of the kinds that share a shape: what stands behind a word, what stands in parentheses,
//! casts and creations.
#![tactic(auto)]

mod expressions;

pub use expressions::shaped_steps;
