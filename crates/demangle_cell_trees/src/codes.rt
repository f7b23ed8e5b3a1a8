//! Numbers that stand for parts and for nodes: what is not inlined returns one word.

ghost use Rattle.std.specs.Prelude.{◌≡◌, ◌%◌, Some, option_map};
ghost use Rattle.demangle_cells.specs.declared.arena.Arena.{Arena};
ghost use Rattle.demangle_cell_trees.specs.ArenaTrees.{first_inside, node_at};
ghost use Rattle.demangle_cell_trees.specs.Codes.{coded};
ghost use Rattle.demangle_cell_trees.specs.NodeTrees.{node_tree};

use crate::node::Node;
use demangle_cells::Arena;

/// No part, and no node.
pub(crate) const NONE: u64 = u64::MAX;

/// What the cell alone does not tell.
pub(crate) const ELSEWHERE: u64 = u64::MAX - 1;

/// The node itself.
pub(crate) const ITSELF: u64 = u64::MAX - 2;

/// The first number that is no index.
pub(crate) const FIRST_INSIDE: u64 = 1 << 32;

/// Behind it are the nodes of the second arena.
pub(crate) const OF_OTHERS: u64 = 1 << 34;

/// Behind the nodes of the second arena.
pub(crate) const PAST_OTHERS: u64 = 1 << 35;

/// The index in the lower half.
#[inline(always)]
pub(crate) fn low_half(at: u64) -> u32
    ensures { result ≡ at % first_inside }
{
    (at % FIRST_INSIDE) as u32
}

/// The node of a number.
#[inline(always)]
pub(crate) fn decoded<'a>(arena: &'a Arena, subs: &'a Arena, code: u64) -> Option<Node<'a>>
    ensures { option_map node_tree result ≡ coded arena.now subs.now code }
{
    if code < OF_OTHERS {
        return Some(Node { arena, at: code });
    }
    if code < PAST_OTHERS {
        return Some(Node {
            arena: subs,
            at: code - OF_OTHERS,
        });
    }
    None
}

/// The number of a node of the first arena.
#[inline(always)]
pub(crate) fn itself(at: u64) -> u64
    ensures { (a b : Arena) → coded a b result ≡ Some (node_at a at) }
{
    if at < FIRST_INSIDE {
        return at;
    }
    FIRST_INSIDE + low_half(at) as u64
}

/// The number of the same node, where it is one of the second arena.
#[inline(always)]
pub(crate) fn of_others(code: u64) -> u64
    ensures { (a b : Arena) → coded a b result ≡ coded b b code }
{
    if code < OF_OTHERS {
        code + OF_OTHERS
    } else {
        code
    }
}
