//! The rows of expressions, of unresolved names, and of what both are made of, ABI section 5.1.6, over the arena.
//!
//! Each function reads a row or a part of one. The rows that these lead back to are called through `below`, with fewer
//! levels left.
#![tactic(auto)]

mod calls;
mod casts;
mod expressions;
mod first_bytes;
mod folds;
mod four;
mod lists;
mod members;
mod news;
mod operands;
mod operators;
mod unresolved;
mod unresolved_parts;
mod words;

pub use calls::initializer;
pub use expressions::expression_by;
pub use folds::fold_expr;
pub use members::{member_name, subobject_expr};
pub use unresolved::unresolved_name;
pub use unresolved_parts::{
    base_unresolved_name, destructor_name, simple_id, unresolved_qualifier_level,
    unresolved_type_handle,
};
