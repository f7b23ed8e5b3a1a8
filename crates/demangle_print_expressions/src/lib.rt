//! The lines of expressions of each kind, their operands below them.
#![tactic(auto)]

mod calls;
mod creations;
mod folds;
mod members;
mod operators;
mod shapes;

pub use calls::{
    braced_init_list, call, conversion_braced, conversion_many, conversion_one, initializer,
};
pub use creations::{creation, global_creation, global_led};
pub use folds::fold_expr;
pub use members::{deref_member, member, member_name, pointer_to_member, subobject_expr};
pub use operators::{binary, ternary, unary};
pub use shapes::{cast, enclosed, enclosed_type, led, pack_expansion};
