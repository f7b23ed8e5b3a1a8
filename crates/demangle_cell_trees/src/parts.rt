//! The parts of a tree, by their numbers.

ghost use Rattle.std.specs.Prelude.{◌≡◌, List, ℕ, option_map};
ghost use Rattle.demangle_core.specs.Table.{Table};
ghost use Rattle.demangle_cells.specs.declared.arena.Arena.{Arena};
ghost use Rattle.demangle_printing.specs.Trees.{look_component, look_in};
ghost use Rattle.demangle_printing.specs.World.{nth, parts_seen};
ghost use Rattle.demangle_cell_trees.specs.ArenaTrees.{IsCell, node_at, table_of, tree_at};
ghost use Rattle.demangle_cell_trees.specs.Codes.{coded, elsewhere};
ghost use Rattle.demangle_cell_trees.specs.NodeTrees.{node_tree};
ghost use Rattle.demangle_cell_trees.specs.Own.{parts_in};

use crate::cells::{cell_at, cell_of, is_referring, kept_of, numbered, other, referred};
use crate::codes::{ELSEWHERE, FIRST_INSIDE, NONE, decoded, of_others};
use crate::node::Node;
use crate::rows::{index_in, is_reference};
use demangle_cells::{Arena, Plain};

/// The part of this number of the tree of a cell, where a reference is a node of one part.
fn own_part(arena: &Arena, id: u32, cell: Plain, number: usize) -> u64
    requires { IsCell arena.now id cell }
    ensures { coded arena.now arena.now result ≡ nth number (parts_in (tree_at arena.now id)) }
{
    if !is_reference(cell) {
        return index_in(arena, cell, number);
    }
    match number {
        0 => FIRST_INSIDE + id as u64,
        1.. => NONE,
    }
}

/// The part of this number of a component, where it is there.
fn component_part(found: Option<u32>, number: usize, subs: &Arena) -> u64
    ensures { (a : Arena) → coded a subs.now result
        ≡ nth number (parts_seen (look_component (option_map (tree_at subs.now) found))) }
{
    match found {
        None => NONE,
        Some(id) => of_others(own_part(subs, id, cell_at(subs, id), number)),
    }
}

/// The part of this number of any tree: a reference has those of the component.
#[inline(never)]
pub(crate) fn part_other(arena: &Arena, at: u64, number: usize, subs: &Arena) -> u64
    ensures { (input : List ℕ) → coded arena.now subs.now result
        ≡ nth number (parts_seen (look_in (table_of subs.now) input (node_at arena.now at))) }
{
    if is_referring(at) {
        return component_part(referred(at, subs), number, subs);
    }
    let cell = cell_of(arena, at);
    match cell {
        Plain::Reference(component) => component_part(numbered(subs, component), number, subs),
        Plain::Other(component) => component_part(other(subs, component), number, subs),
        _ => index_in(arena, cell, number),
    }
}

/// The part of this number of the kept cell of a node, where it tells that alone.
#[inline(always)]
fn kept_part(arena: &Arena, at: u64, number: usize) -> u64
    ensures { (result ≡ elsewhere → ⊥) → (table : Table) (input : List ℕ) → coded arena.now arena.now result
        ≡ nth number (parts_seen (look_in table input (node_at arena.now at))) }
{
    match kept_of(arena, at) {
        None => ELSEWHERE,
        Some(cell) => if is_reference(cell) {
            ELSEWHERE
        } else {
            index_in(arena, cell, number)
        },
    }
}

/// The part of this number of a tree.
#[inline(always)]
pub(crate) fn part_of<'a>(node: Node<'a>, number: usize, subs: &'a Arena) -> Option<Node<'a>>
    ensures { (input : List ℕ) → option_map node_tree result
        ≡ nth number (parts_seen (look_in (table_of subs.now) input (node_tree node.entry))) }
{
    let part = kept_part(node.arena, node.at, number);
    if part != ELSEWHERE {
        return decoded(node.arena, node.arena, part);
    }
    decoded(
        node.arena,
        subs,
        part_other(node.arena, node.at, number, subs),
    )
}
