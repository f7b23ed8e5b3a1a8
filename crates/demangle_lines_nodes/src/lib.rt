//! The line of any node, chosen by the number of its tag, and what stands behind any item.
#![tactic(auto)]

mod blocks_0;
mod blocks_1;
mod blocks_10;
mod blocks_11;
mod blocks_12;
mod blocks_13;
mod blocks_2;
mod blocks_3;
mod blocks_4;
mod blocks_5;
mod blocks_6;
mod blocks_7;
mod blocks_8;
mod blocks_9;
mod insides;
mod nodes;
mod trees;

pub use insides::item_inside;
pub use nodes::line_by_tag;
pub use trees::{leaf_inside, tree_line};
