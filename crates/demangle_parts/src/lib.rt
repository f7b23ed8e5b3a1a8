//! The parts of a linker name: its kind, scope, base, what is behind them and how many parameters it has; and an index
//! of names by scope.
#![tactic(auto)]

mod index;
mod kind;
mod parts;
mod signature;

pub use demangle_groups::{Group, Index};
pub use index::index_of;
pub use kind::Kind;
pub use parts::{Parts, parts_of};
