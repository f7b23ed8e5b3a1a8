//! One turn of a look-up in a tree.

ghost use Rattle.std.specs.Prelude.{◌≡◌, ◌<◌, ◌≤◌, ◌/◌, ℕ, true, IfSome, Option, Some, option_map};
ghost use Rattle.demangle_core.specs.Core.{Core, chosen, end};
ghost use Rattle.demangle_cells.specs.declared.arena.Arena.{Arena};
ghost use Rattle.demangle_printing.specs.World.{nth};
ghost use Rattle.demangle_cell_trees.specs.ArenaTrees.{IsCell, first_inside, tree_at};
ghost use Rattle.demangle_cell_trees.specs.Codes.{IsPart};
ghost use Rattle.demangle_cell_trees.specs.Own.{has_plain, parts_in, row_tag};
ghost use Rattle.demangle_cell_trees.specs.Steps.{IsWay, Offers, Turns, index_tree, is_leaf_word, is_step};
ghost use Rattle.demangle_cell_trees.specs.Steps.{other_part, part_says, size, step_in, step_of};
ghost use Rattle.demangle_cell_trees.specs.declared.roles.Sought.{Sought};

use crate::cells::{cell_at, kept_at};
use crate::codes::{FIRST_INSIDE, NONE};
use crate::roles::{Role, Sought, role_in};
use crate::rows::{index_in, row_tag};
use demangle_cells::{Arena, Plain, Tag};

/// The step to the first numbered component.
pub(crate) const FIRST_NUMBERED: u64 = 1 << 32;

/// The step to the first of the other components.
pub(crate) const FIRST_OTHER: u64 = 2 << 32;

/// Behind the steps to components.
pub(crate) const PAST_STEPS: u64 = 3 << 32;

/// To go into a part.
const INTO: u64 = 4 << 32;

/// To go into a part, and where that comes to nothing into the first.
pub(crate) const ELSE_FIRST: u64 = 5 << 32;

/// To go into a part, and where that comes to nothing into the third.
const ELSE_THIRD: u64 = 6 << 32;

/// Whether a word is its own leaf name: a component but `std`, the first of them.
fn is_leaf_word(table: u8, word: u8) -> bool
    ensures { result ≡ is_leaf_word table word }
{
    table == 2 && word > 0
}

/// What a look-up finds in a word.
fn word_step(sought: Sought, id: u32, table: u8, word: u8) -> u64
    ensures step { is_step result ≡ true }
    ensures is { (a : Arena) → tree_at a id ≡ chosen table word end
        → step_of a result ≡ step_in sought (tree_at a id) }
{
    match sought {
        Sought::LeafName => if is_leaf_word(table, word) {
            id as u64
        } else {
            NONE
        },
        Sought::PrefixArguments => NONE,
        Sought::TypeArguments => NONE,
        Sought::Special => NONE,
    }
}

/// What a look-up finds in the tree of a cell that is no node whose parts have indexes.
fn end_step(sought: Sought, arena: &Arena, id: u32, cell: Plain) -> u64
    requires cell { IsCell arena.now id cell }
    requires ends { row_tag cell ≡ None }
    ensures step { is_step result ≡ true }
    ensures is { step_of arena.now result ≡ step_in sought (tree_at arena.now id) }
{
    match cell {
        Plain::Word(table, word) => word_step(sought, id, table, word),
        Plain::Reference(component) => FIRST_NUMBERED + component as u64,
        Plain::Other(component) => FIRST_OTHER + component as u64,
        _ => NONE,
    }
}

/// To go into a part, if it is there.
#[inline(always)]
fn into(part: u64) -> u64
    ensures { (s : Sought) (a : Arena) (x : Core) (o : Option ℕ) → IsPart o part
        → step_in s x ≡ part_says s (option_map (tree_at a) o)
        → IfSome (option_map (tree_at a) o) (λ y. size y < size x) → Turns s a x result }
{
    if part < FIRST_INSIDE {
        INTO + part
    } else {
        NONE
    }
}

/// To go into a part, if it is there, and where that comes to nothing into another.
#[inline(always)]
fn either(part: u64, way: u64) -> u64
    requires { IsWay way }
    ensures { (s : Sought) (a : Arena) (x : Core) (o : Option ℕ) → IsPart o part → has_plain x ≡ true
        → Offers s x (option_map (tree_at a) o) (nth (other_part way) (parts_in x)) → Turns s a x result }
{
    if part < FIRST_INSIDE {
        way + part
    } else {
        NONE
    }
}

/// What is to be done for the tree of a cell that is a node with this tag.
#[inline(always)]
fn node_turn(sought: Sought, arena: &Arena, id: u32, cell: Plain, tag: Tag) -> u64
    requires cell { IsCell arena.now id cell }
    requires tag { row_tag cell ≡ Some tag }
    ensures { Turns sought arena.now (tree_at arena.now id) result }
{
    match role_in(sought, tag) {
        Role::Itself => id as u64,
        Role::First => into(index_in(arena, cell, 0)),
        Role::Second => into(index_in(arena, cell, 1)),
        Role::Third => into(index_in(arena, cell, 2)),
        Role::SecondElseFirst => either(index_in(arena, cell, 1), ELSE_FIRST),
        Role::FourthElseThird => either(index_in(arena, cell, 3), ELSE_THIRD),
        Role::Nothing => NONE,
    }
}

/// What is to be done for the tree of a cell.
#[inline(always)]
fn cell_turn(sought: Sought, arena: &Arena, id: u32, cell: Plain) -> u64
    requires { IsCell arena.now id cell }
    ensures { Turns sought arena.now (tree_at arena.now id) result }
{
    match row_tag(cell) {
        None => end_step(sought, arena, id, cell),
        Some(tag) => node_turn(sought, arena, id, cell, tag),
    }
}

/// What is to be done for the tree of any index.
#[inline(never)]
fn turn_other(sought: Sought, arena: &Arena, id: u32) -> u64
    ensures { Turns sought arena.now (tree_at arena.now id) result }
{
    cell_turn(sought, arena, id, cell_at(arena, id))
}

/// What is to be done for the tree of an index.
#[inline(always)]
pub(crate) fn turn_at(sought: Sought, arena: &Arena, id: u32) -> u64
    ensures { Turns sought arena.now (tree_at arena.now id) result }
{
    match kept_at(arena, id) {
        None => turn_other(sought, arena, id),
        Some(cell) => cell_turn(sought, arena, id, cell),
    }
}

/// Whether a turn is a step, and there is no more to be done.
#[inline(always)]
pub(crate) fn is_step(turn: u64) -> bool
    ensures { result ≡ is_step turn }
{
    turn / FIRST_INSIDE < 4 || turn / FIRST_INSIDE > 6
}

/// The number of the part that may be gone into behind the first.
#[inline(always)]
pub(crate) fn other_part(turn: u64) -> usize
    requires { 5 ≤ turn / first_inside }
    ensures { result ≡ other_part turn }
{
    ((turn / FIRST_INSIDE - 5) * 2) as usize
}

/// The index of the part of this number of a tree; none where it has no index.
pub(crate) fn index_at(arena: &Arena, id: u32, number: usize) -> u64
    ensures { has_plain (tree_at arena.now id) ≡ true
        → index_tree arena.now result ≡ nth number (parts_in (tree_at arena.now id)) }
{
    index_in(arena, cell_at(arena, id), number)
}
