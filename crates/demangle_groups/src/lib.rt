//! Which entries of a list stand in which scope: groups of positions, in the order of their scopes.
#![tactic(auto)]

mod builder;
mod index;

ghost use Rattle.demangle_groups.specs.Laws.{StandsOnce};

pub use builder::IndexBuilder;
pub use index::{Group, Index};

/// In an index each position of the list stands once, in one group or among the refused ones.
pub fn each_stands_once()
    ensures { StandsOnce }
{}
