//! What is printed for a tree.

ghost use Rattle.std.specs.Prelude.{◌≡◌, ◌<◌, List, ℕ, Some, option_map};
ghost use Rattle.demangle_core.specs.Core.{Core};
ghost use Rattle.demangle_core.specs.Table.{Table};
ghost use Rattle.demangle_printing.specs.Rules.{of_handle, of_part};
ghost use Rattle.demangle_printing.specs.Trees.{look_component, look_in, with_table};
ghost use Rattle.demangle_cell_trees.specs.ArenaTrees.{Sees, first_inside, node_at, table_of, tree_at};
ghost use Rattle.demangle_cell_trees.specs.Codes.{coded, itself};
ghost use Rattle.demangle_cell_trees.specs.Held.{held_code, is_holder, is_plain};
ghost use Rattle.demangle_cell_trees.specs.NodeTrees.{node_tree};

use crate::cells::{is_referring, kept_at, kept_of, referred};
use crate::codes::{
    ELSEWHERE, FIRST_INSIDE, ITSELF, NONE, OF_OTHERS, PAST_OTHERS, decoded, itself, of_others,
};
use crate::node::Node;
use crate::parts::part_other;
use crate::rows::row_tag;
use crate::shapes::{decoded as shape_of_code, shape_other};
use crate::tags::{number_of_tag, row_number};
use demangle_cells::{Arena, Plain, Tag};
use demangle_lines::Shape;

/// What is printed for a node.
#[derive(Clone, Copy)]
pub(crate) enum Holding {
    /// The node itself.
    Itself,
    /// Its first part.
    Part,
    /// What is printed for its first part, as that of a handle.
    Optional,
    /// Nothing.
    Nothing,
}

/// Whether the part of a node whose tag has this number is printed for it: of a handle that holds its tree, or of a
/// component.
#[inline(always)]
fn is_holder(tag: u8) -> bool
    ensures { result ≡ is_holder tag }
{
    tag == 3 || (tag >= 25 && tag < 27) || (tag >= 205 && tag < 211)
}

/// Whether a node whose tag has this number is one of most, which are printed themselves.
#[inline(always)]
fn is_plain(tag: u8) -> bool
    ensures { result ≡ is_plain tag }
{
    (tag > 3 && tag < 25) || (tag > 26 && tag < 205)
}

/// What is printed for a node whose tag has this number.
#[inline(always)]
fn holding_of(tag: u8) -> Holding
    ensures { result ≡ held_code tag }
{
    if tag == 0 {
        return Holding::Optional;
    }
    if tag == 1 {
        return Holding::Nothing;
    }
    if is_holder(tag) {
        Holding::Part
    } else {
        Holding::Itself
    }
}

/// What is printed for a tree that is no optional part: what a handle or a component holds, or itself.
fn held(arena: &Arena, at: u64, subs: &Arena) -> u64
    ensures { (input : List ℕ) → coded arena.now subs.now result
        ≡ of_handle (with_table (table_of subs.now) input) (Some (node_at arena.now at)) }
{
    match shape_of_code(shape_other(arena, at, subs)) {
        Shape::Node(tag) => match holding_of(tag) {
            Holding::Part => part_other(arena, at, 0, subs),
            _ => itself(at),
        },
        Shape::Word(_, _) => itself(at),
        _ => NONE,
    }
}

/// What is printed for a part that is no optional part.
fn held_in(arena: &Arena, part: u64, subs: &Arena) -> u64
    ensures { (input : List ℕ) → coded arena.now subs.now result
        ≡ of_handle (with_table (table_of subs.now) input) (coded arena.now subs.now part) }
{
    if part < OF_OTHERS {
        return held(arena, part, subs);
    }
    if part < PAST_OTHERS {
        return of_others(held(subs, part - OF_OTHERS, subs));
    }
    NONE
}

/// The part that a component holds and that is printed for it, where its cell alone tells that.
#[inline(always)]
fn component_printed(found: Option<u32>, subs: &Arena) -> u64
    ensures part { result < first_inside → (table : Table) (input : List ℕ) (x : Core)
        → look_in table input x ≡ look_component (option_map (tree_at subs.now) found)
        → Some (node_at subs.now result) ≡ of_part (with_table table input) (Some x) }
    ensures handle { result < first_inside → (table : Table) (input : List ℕ) (x : Core)
        → look_in table input x ≡ look_component (option_map (tree_at subs.now) found)
        → Some (node_at subs.now result) ≡ of_handle (with_table table input) (Some x) }
{
    let Some(id) = found else {
        return ELSEWHERE;
    };
    match kept_at(subs, id) {
        Some(Plain::One(tag, part)) => if is_holder(number_of_tag(tag)) {
            part as u64
        } else {
            ELSEWHERE
        },
        _ => ELSEWHERE,
    }
}

/// The part that a component holds and that is printed for an optional part that refers to it, where the cells alone
/// tell that.
#[inline(always)]
fn optional_printed(arena: &Arena, at: u64, tag: Tag, part: u32, subs: &Arena) -> u64
    requires { Sees arena.now at (Plain.One tag part) }
    ensures { result < first_inside → (input : List ℕ) → Some (node_at subs.now result)
        ≡ of_part (with_table (table_of subs.now) input) (Some (node_at arena.now at)) }
{
    if number_of_tag(tag) == 0 && is_referring(part as u64) {
        return component_printed(referred(part as u64, subs), subs);
    }
    ELSEWHERE
}

/// The part of a component that is printed for a node that refers to it, where the cells alone tell that.
#[inline(always)]
fn referring_printed(arena: &Arena, at: u64, subs: &Arena) -> u64
    ensures { result < first_inside → (input : List ℕ) → Some (node_at subs.now result)
        ≡ of_part (with_table (table_of subs.now) input) (Some (node_at arena.now at)) }
{
    if is_referring(at) {
        return component_printed(referred(at, subs), subs);
    }
    match kept_of(arena, at) {
        Some(Plain::One(tag, part)) => optional_printed(arena, at, tag, part, subs),
        _ => ELSEWHERE,
    }
}

/// What is printed for any tree.
#[inline(always)]
fn printed_other(arena: &Arena, at: u64, subs: &Arena) -> u64
    ensures { (input : List ℕ) → coded arena.now subs.now result
        ≡ of_part (with_table (table_of subs.now) input) (Some (node_at arena.now at)) }
{
    let part = referring_printed(arena, at, subs);
    if part < FIRST_INSIDE {
        return OF_OTHERS + part;
    }
    any_printed(arena, at, subs)
}

/// What is printed for any tree, by what it is.
#[inline(never)]
fn any_printed(arena: &Arena, at: u64, subs: &Arena) -> u64
    ensures { (input : List ℕ) → coded arena.now subs.now result
        ≡ of_part (with_table (table_of subs.now) input) (Some (node_at arena.now at)) }
{
    match shape_of_code(shape_other(arena, at, subs)) {
        Shape::Node(tag) => match holding_of(tag) {
            Holding::Itself => itself(at),
            Holding::Part => part_other(arena, at, 0, subs),
            Holding::Optional => held_in(arena, part_other(arena, at, 0, subs), subs),
            Holding::Nothing => NONE,
        },
        Shape::Word(_, _) => itself(at),
        _ => NONE,
    }
}

/// The part of an optional part, where its cell alone tells that it is printed.
#[inline(always)]
fn optional_part(arena: &Arena, part: u32) -> u64
    ensures other { result ≡ itself → ⊥ }
    ensures part { result < first_inside → (table : Table) (input : List ℕ) → Some (node_at arena.now result)
        ≡ of_handle (with_table table input) (Some (tree_at arena.now part)) }
{
    match kept_at(arena, part) {
        None => ELSEWHERE,
        Some(cell) => if is_plain(row_number(row_tag(cell))) {
            part as u64
        } else {
            ELSEWHERE
        },
    }
}

/// What is printed for a node of one part, where the cells alone tell it.
#[inline(always)]
fn part_printed(arena: &Arena, at: u64, tag: Tag, part: u32) -> u64
    requires { Sees arena.now at (Plain.One tag part) }
    ensures other { result ≡ itself → ⊥ }
    ensures part { result < first_inside → (table : Table) (input : List ℕ) → Some (node_at arena.now result)
        ≡ of_part (with_table table input) (Some (node_at arena.now at)) }
{
    let number = number_of_tag(tag);
    if is_holder(number) {
        return part as u64;
    }
    if number == 0 {
        return optional_part(arena, part);
    }
    ELSEWHERE
}

/// What is printed for a node that has this cell, where the cells alone tell it.
#[inline(always)]
fn cell_printed(arena: &Arena, at: u64, cell: Plain) -> u64
    requires { Sees arena.now at cell }
    ensures itself { result ≡ itself → (table : Table) (input : List ℕ) → Some (node_at arena.now at)
        ≡ of_part (with_table table input) (Some (node_at arena.now at)) }
    ensures part { result < first_inside → (table : Table) (input : List ℕ) → Some (node_at arena.now result)
        ≡ of_part (with_table table input) (Some (node_at arena.now at)) }
{
    if is_plain(row_number(row_tag(cell))) {
        return ITSELF;
    }
    match cell {
        Plain::One(tag, part) => part_printed(arena, at, tag, part),
        _ => ELSEWHERE,
    }
}

/// What is printed for a node, where the kept cells alone tell it.
#[inline(always)]
fn kept_printed(arena: &Arena, at: u64) -> u64
    ensures itself { result ≡ itself → (table : Table) (input : List ℕ) → Some (node_at arena.now at)
        ≡ of_part (with_table table input) (Some (node_at arena.now at)) }
    ensures part { result < first_inside → (table : Table) (input : List ℕ) → Some (node_at arena.now result)
        ≡ of_part (with_table table input) (Some (node_at arena.now at)) }
{
    match kept_of(arena, at) {
        None => ELSEWHERE,
        Some(cell) => cell_printed(arena, at, cell),
    }
}

/// What is printed for a tree.
#[inline(always)]
pub(crate) fn printed_of<'a>(node: Node<'a>, subs: &'a Arena) -> Option<Node<'a>>
    ensures { (input : List ℕ) → option_map node_tree result
        ≡ of_part (with_table (table_of subs.now) input) (Some (node_tree node.entry)) }
{
    let code = kept_printed(node.arena, node.at);
    if code == ITSELF {
        return Some(node);
    }
    if code < FIRST_INSIDE {
        return Some(Node {
            arena: node.arena,
            at: code,
        });
    }
    decoded(node.arena, subs, printed_other(node.arena, node.at, subs))
}
