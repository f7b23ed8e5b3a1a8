//! Nodes of the flat tree as the trees of lines: small values that name a tree of an arena.
#![tactic(auto)]

mod cells;
mod codes;
mod components;
mod counts;
mod ends;
mod found;
mod held;
mod known;
mod laws;
mod lookups;
mod node;
mod parts;
mod roles;
mod rows;
mod shapes;
mod tags;
mod texts;
mod tree;
mod turns;
mod values;
mod words;

pub use components::Components;
pub use laws::each_arena_has_trees;
pub use node::{Node, tree_at};
