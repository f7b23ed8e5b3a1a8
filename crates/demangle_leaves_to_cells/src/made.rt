//! Nodes of parts that were put into the arena before, and what stands for no node.

ghost use Rattle.std.specs.Prelude.{◌≡◌, pos};
ghost use Rattle.demangle_core.specs.Core.{Core, end, flag, node, number, place, ◌⊕◌};
ghost use Rattle.demangle_grammar.specs.Tree.{reference};
ghost use Rattle.demangle_cells.specs.Tags.{tag_of};
ghost use Rattle.demangle_cells.specs.View.{View, view, which_of};
ghost use Rattle.demangle_leaves_to_cells.specs.Put.{Put};

use demangle_cells::{Arena, Cell, Tag, flag_id, reference_id};
use demangle_text::{Error, Result};

/// The index of a number that isn't below zero. Want of memory is its only refusal.
pub fn number_to(arena: &mut Arena, value: usize) -> Result<u32>
    ensures { Put (view arena.old) (view arena.new) result (number (pos value) end) }
{
    arena.push(Cell::Counted(value))
}

/// The index of a number. Want of memory is its only refusal.
pub fn signed_to(arena: &mut Arena, value: &isize) -> Result<u32>
    ensures { Put (view arena.old) (view arena.new) result (number value.now end) }
{
    arena.push(Cell::Number(*value))
}

/// The index of a place in the input. Want of memory is its only refusal: no arena has places of 2^32 and more.
pub fn place_to(arena: &mut Arena, start: usize, stop: usize) -> Result<u32>
    ensures { Put (view arena.old) (view arena.new) result (place start stop end) }
{
    if start > u32::MAX as usize || stop > u32::MAX as usize {
        return Err(Error::OutOfMemory);
    }
    arena.push(Cell::Place(start as u32, stop as u32))
}

/// The index of a flag.
pub fn flag_to(arena: &mut Arena, set: bool) -> Result<u32>
    ensures { Put (view arena.old) (view arena.new) result (flag set end) }
{
    Ok(flag_id(set))
}

/// The reference to a component. Want of memory is its only refusal: no arena has 2^30 components of a kind.
pub fn reference_to(arena: &mut Arena, numbered: bool, number: usize) -> Result<u32>
    ensures { Put (view arena.old) (view arena.new) result (reference (which_of numbered) number) }
{
    reference_id(numbered, number).ok_or(Error::OutOfMemory)
}

/// The node without parts. Want of memory is its only refusal.
pub fn empty(arena: &mut Arena, tag: Tag) -> Result<u32>
    ensures { Put (view arena.old) (view arena.new) result (node (tag_of tag) end end) }
{
    arena.push(Cell::Empty(tag))
}

/// The node of one part, whose index is handed in. Want of memory is its only refusal.
pub fn one(arena: &mut Arena, tag: Tag, a: Result<u32>) -> Result<u32>
    ensures { (before : View) (x : Core) → Put before (view arena.old) a x
        → Put before (view arena.new) result (node (tag_of tag) x end) }
{
    let a = a?;
    arena.push(Cell::One(tag, a))
}

/// The node of two parts. Want of memory is its only refusal.
pub fn two(arena: &mut Arena, tag: Tag, a: Result<u32>, b: Result<u32>) -> Result<u32>
    ensures { (before middle : View) (x y : Core) → Put before middle a x → Put middle (view arena.old) b y
        → Put before (view arena.new) result (node (tag_of tag) (x ⊕ y) end) }
{
    let a = a?;
    let b = b?;
    arena.push(Cell::Two(tag, a, b))
}

/// The node of three parts. Want of memory is its only refusal.
pub fn three(
    arena: &mut Arena,
    tag: Tag,
    a: Result<u32>,
    b: Result<u32>,
    c: Result<u32>,
) -> Result<u32>
    ensures { (before first second : View) (x y z : Core) → Put before first a x → Put first second b y
        → Put second (view arena.old) c z
        → Put before (view arena.new) result (node (tag_of tag) (x ⊕ (y ⊕ z)) end) }
{
    let a = a?;
    let b = b?;
    let c = c?;
    arena.push(Cell::Three(tag, a, b, c))
}
