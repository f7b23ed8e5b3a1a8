//! What the lines of printing stand on, for trees of any kind: the trees as lines see them, scopes, where a line is
//! printed, what lies below it, and the steps of which lines are made.
#![tactic(auto)]

mod at;
mod below;
mod bytes;
mod items;
mod leaves;
mod lookups;
mod parts;
mod plain;
mod scope;
mod scopes;
mod tags;
mod tests;
mod texts;
mod tree;

pub use at::{
    count_at, count_of, entry_of, part_at, part_of_part, part_of_parts, prefix_arguments_at,
    printed_at, shape_at, shape_of,
};
pub use below::Below;
pub use items::{all_waiting, close, close_spaced, hold, take_top, taken};
pub use leaves::{argument, inner_leaf, leaf, need_leaf};
pub use parts::{
    entry, first_part, inner_part, innermost_part, itself, line_of, lines, list, members, operand,
    part,
};
pub use plain::name_part;
pub use scope::{Scope, empty, found_arguments, found_leaf, member};
pub use scopes::{
    with_inner_these, with_leaf_name, with_prefix_arguments, with_these, with_type_arguments,
};
pub use tests::{
    any_set, has_prefix_arguments, has_type_arguments, is_anonymous, is_inner_word,
    is_innermost_word, is_negative, is_qualified, is_special, is_tag, is_there, is_true, is_word,
    spells,
};
pub use texts::{
    inner_ordinal, inner_spelled, magnitude, name, ordinal, resource, spelled, spelled_itself,
    suffix,
};
pub use tree::{Number, Shape, Tree};
