//! The flat tree: an arena of cells, each one tree of a row, and what readers of rows over it answer.
#![tactic(auto)]

mod arena;
mod asked;
mod bytes;
mod cell;
mod constant_cells;
mod constants;
mod depth;
mod entry;
mod laws;
mod ledger;
mod memo;
mod nestable;
mod path;
mod plain;
mod room;
mod store;
mod tag;
mod text;

pub use arena::Arena;
pub use asked::RowName;
pub use cell::{Cell, ListOf};
pub use constants::{
    WordTable, absent_id, builtin_id, empty_id, flag_id, no_tags_id, nought_id, operator_id,
    present_ref_qualifier_id, qualifiers_id, reference_id, word_id,
};
pub use depth::{Depth, passed};
pub use entry::{Entry, Mark};
pub use laws::each_arena_has_a_model;
pub use plain::Plain;
pub use tag::Tag;
pub use text::{Part, Text};
