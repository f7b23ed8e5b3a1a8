//! The cells of an arena, and the components of a table.

ghost use Rattle.std.specs.Prelude.{◌≡◌, ◌+◌, ℕ, List, true, IfSome, MatchOption, option_map};
ghost use Rattle.demangle_core.specs.Core.{N, U};
ghost use Rattle.demangle_core.specs.Table.{entry_at, size};
ghost use Rattle.demangle_cells.specs.declared.arena.Arena.{Arena};
ghost use Rattle.demangle_printing.specs.Trees.{look_component, look_in};
ghost use Rattle.demangle_cell_trees.specs.ArenaTrees.{IsBeside, IsCell, Sees, is_referring, node_at, table_of};
ghost use Rattle.demangle_cell_trees.specs.ArenaTrees.{tree_at};

use crate::codes::low_half;
use demangle_cells::{Arena, Plain};

/// What an index is, one step deep.
#[inline(always)]
pub(crate) fn cell_at(arena: &Arena, id: u32) -> Plain
    ensures { IsCell arena.now id result }
{
    arena.plain(id)
}

/// The cell that is kept for an index, if one is.
#[inline(always)]
pub(crate) fn kept_at(arena: &Arena, id: u32) -> Option<Plain>
    ensures { IfSome result (λ cell. IsCell arena.now id cell) }
{
    arena.kept(id)
}

/// What a node is, one step deep.
#[inline(always)]
pub(crate) fn cell_of(arena: &Arena, at: u64) -> Plain
    ensures { Sees arena.now at result }
{
    arena.plain(low_half(at))
}

/// The cell that is kept for a node, if one is.
#[inline(always)]
pub(crate) fn kept_of(arena: &Arena, at: u64) -> Option<Plain>
    ensures { MatchOption result (IsBeside arena.now at) (λ cell. Sees arena.now at cell) }
{
    arena.kept(low_half(at))
}

/// The index of a numbered component.
#[inline(always)]
pub(crate) fn numbered(subs: &Arena, number: u32) -> Option<u32>
    ensures { option_map (tree_at subs.now) result ≡ entry_at N number (table_of subs.now) }
{
    subs.numbered(number)
}

/// The index of another component.
#[inline(always)]
pub(crate) fn other(subs: &Arena, number: u32) -> Option<u32>
    ensures { option_map (tree_at subs.now) result ≡ entry_at U number (table_of subs.now) }
{
    subs.other(number)
}

/// The index of the first reference.
pub(crate) const FIRST_REFERENCE: u32 = 1 << 30;

/// The index of the first reference to another than a numbered component.
pub(crate) const FIRST_OTHER_REFERENCE: u32 = 1 << 31;

/// Whether a node is a reference, or what is inside of one, by its index alone.
#[inline(always)]
pub(crate) fn is_referring(at: u64) -> bool
    ensures { result ≡ is_referring at }
{
    low_half(at) >= FIRST_REFERENCE
}

/// The index of the component that a reference refers to.
#[inline(always)]
pub(crate) fn referred(at: u64, subs: &Arena) -> Option<u32>
    requires { is_referring at ≡ true }
    ensures { (a : Arena) (input : List ℕ) → look_in (table_of subs.now) input (node_at a at)
        ≡ look_component (option_map (tree_at subs.now) result) }
{
    let id = low_half(at);
    if id >= FIRST_OTHER_REFERENCE {
        return other(subs, id - FIRST_OTHER_REFERENCE);
    }
    numbered(subs, id - FIRST_REFERENCE)
}

/// How many components there are.
pub(crate) fn entry_count(subs: &Arena) -> usize
    ensures { result ≡ size N (table_of subs.now) + size U (table_of subs.now) }
{
    subs.mark().entries
}
