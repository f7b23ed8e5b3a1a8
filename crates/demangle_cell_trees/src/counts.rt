//! How many parts a tree has.

ghost use Rattle.std.specs.Prelude.{◌≡◌, List, ℕ, length, option_map};
ghost use Rattle.demangle_core.specs.Table.{Table};
ghost use Rattle.demangle_printing.specs.Trees.{look_component, look_in};
ghost use Rattle.demangle_printing.specs.World.{parts_seen};
ghost use Rattle.demangle_cell_trees.specs.ArenaTrees.{node_at, table_of, tree_at};
ghost use Rattle.demangle_cell_trees.specs.Codes.{elsewhere};
ghost use Rattle.demangle_cell_trees.specs.NodeTrees.{node_tree};

use crate::cells::{cell_at, cell_of, is_referring, kept_of, numbered, other, referred};
use crate::node::Node;
use crate::rows::{count_in, is_reference};
use demangle_cells::{Arena, Plain};

/// What the cell alone does not tell.
const ELSEWHERE: usize = usize::MAX - 1;

/// How many parts a component has, where it is there; a reference is a node of one part.
fn component_count(found: Option<u32>, subs: &Arena) -> usize
    ensures { result ≡ length (parts_seen (look_component (option_map (tree_at subs.now) found))) }
{
    let Some(id) = found else {
        return 0;
    };
    let cell = cell_at(subs, id);
    if is_reference(cell) {
        1
    } else {
        count_in(subs, cell)
    }
}

/// How many parts any tree has: a reference has those of the component.
#[inline(never)]
fn count_other(arena: &Arena, at: u64, subs: &Arena) -> usize
    ensures { (input : List ℕ) → result
        ≡ length (parts_seen (look_in (table_of subs.now) input (node_at arena.now at))) }
{
    if is_referring(at) {
        return component_count(referred(at, subs), subs);
    }
    let cell = cell_of(arena, at);
    match cell {
        Plain::Reference(number) => component_count(numbered(subs, number), subs),
        Plain::Other(number) => component_count(other(subs, number), subs),
        _ => count_in(arena, cell),
    }
}

/// How many parts the kept cell of a node has, where it tells that alone.
#[inline(always)]
fn kept_count(arena: &Arena, at: u64) -> usize
    ensures { (result ≡ elsewhere → ⊥) → (table : Table) (input : List ℕ) → result
        ≡ length (parts_seen (look_in table input (node_at arena.now at))) }
{
    match kept_of(arena, at) {
        None => ELSEWHERE,
        Some(cell) => if is_reference(cell) {
            ELSEWHERE
        } else {
            count_in(arena, cell)
        },
    }
}

/// How many parts a tree has.
#[inline(always)]
pub(crate) fn count_of(node: Node<'_>, subs: &Arena) -> usize
    ensures { (input : List ℕ) → result
        ≡ length (parts_seen (look_in (table_of subs.now) input (node_tree node.entry))) }
{
    let count = kept_count(node.arena, node.at);
    if count != ELSEWHERE {
        return count;
    }
    count_other(node.arena, node.at, subs)
}
