//! What is found in a tree with its components.

ghost use Rattle.std.specs.Prelude.{◌≡◌, option_map};
ghost use Rattle.demangle_core.specs.Lookups.{answer_of, settled};
ghost use Rattle.demangle_cell_trees.specs.ArenaTrees.{table_of};
ghost use Rattle.demangle_cell_trees.specs.NodeTrees.{node_tree, table_in};
ghost use Rattle.demangle_cell_trees.specs.Steps.{component_in, found_in, step_of};

use crate::codes::low_half;
use crate::components::Components;
use crate::ends::end_at;
use crate::lookups::{after, answer_of, node_step, settled};
use crate::node::Node;
use crate::roles::Sought;
use crate::turns::FIRST_NUMBERED;

/// What is looked up from the step to a component on: one turn behind the end of that component's look-up, where it is
/// kept.
fn settled_by(sought: Sought, first: u64, subs: &Components) -> u64
    ensures { answer_of (step_of subs.now.arena.now result)
        ≡ settled (component_in sought) (table_in subs.now) (step_of subs.now.arena.now first) }
{
    let end = end_at(subs.ends(sought), subs.split, first);
    if end > 0 {
        after(sought, end, subs.arena)
    } else {
        settled(sought, first, subs.arena)
    }
}

/// What is looked up in a tree.
pub(crate) fn found<'a>(sought: Sought, node: Node<'a>, subs: &Components<'a>) -> Option<Node<'a>>
    ensures { option_map node_tree result ≡ found_in sought (table_in subs.now) (node_tree node.entry) }
{
    let step = node_step(sought, node.arena, low_half(node.at));
    if step < FIRST_NUMBERED {
        return answer_of(node.arena, step);
    }
    answer_of(subs.arena, settled_by(sought, step, subs))
}
