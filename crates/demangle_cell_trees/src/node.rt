//! Nodes.

ghost use Rattle.std.specs.Prelude.{◌≡◌};
ghost use Rattle.demangle_cell_trees.specs.ArenaTrees.{tree_at};
ghost use Rattle.demangle_cell_trees.specs.NodeTrees.{node_tree};

use crate::components::Components;
use demangle_cells::Arena;
use demangle_context::{InnerNode, RefersTo};

/// A tree of an arena, in two words: by its index, or by 2^32 more what is inside of the reference with that index.
#[derive(Clone, Copy)]
pub struct Node<'a> {
    pub(crate) arena: &'a Arena,
    pub(crate) at: u64,
}

impl<'a> InnerNode for Node<'a> {
    ghost use Rattle.demangle_cell_trees.specs.NodeTrees.{node_tree};

    ghost tree = { node_tree };
}

impl<'a> RefersTo<Components<'a>> for Node<'a> {
    ghost use Rattle.demangle_cell_trees.specs.NodeTrees.{table_in};

    ghost table = { table_in };
}

/// The tree of an index.
#[inline(always)]
pub fn tree_at<'a>(arena: &'a Arena, id: u32) -> Node<'a>
    ensures { node_tree result ≡ tree_at arena.now id }
{
    Node {
        arena,
        at: id as u64,
    }
}
