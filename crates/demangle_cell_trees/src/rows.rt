//! The parts of a cell.

ghost use Rattle.std.specs.Prelude.{◌≡◌, [], ◌∷◌, length};
ghost use Rattle.demangle_cells.specs.Cells.{span};
ghost use Rattle.demangle_cells.specs.View.{view};
ghost use Rattle.demangle_printing.specs.World.{nth};
ghost use Rattle.demangle_cell_trees.specs.Codes.{IsPart};
ghost use Rattle.demangle_cell_trees.specs.Own.{is_reference, row_of, row_tag};

use crate::codes::NONE;
use demangle_cells::{Arena, Plain, Tag};

/// One of so many indexes of the list, from a place on.
#[inline(always)]
fn listed(arena: &Arena, start: u32, count: u32, number: usize) -> u64
    ensures { IsPart (nth number (span (view arena.now).list start count)) result }
{
    match arena.indexes(start, count).get(number) {
        Some(id) => *id as u64,
        None => NONE,
    }
}

#[inline(always)]
fn first(number: usize, a: u32) -> u64
    ensures { IsPart (nth number (a ∷ [])) result }
{
    match number {
        0 => a as u64,
        1.. => NONE,
    }
}

#[inline(always)]
fn of_two(number: usize, a: u32, b: u32) -> u64
    ensures { IsPart (nth number (a ∷ b ∷ [])) result }
{
    match number {
        0 => a as u64,
        1 => b as u64,
        2.. => NONE,
    }
}

#[inline(always)]
fn of_three(number: usize, a: u32, b: u32, c: u32) -> u64
    ensures { IsPart (nth number (a ∷ b ∷ c ∷ [])) result }
{
    match number {
        0 => a as u64,
        1 => b as u64,
        2 => c as u64,
        3.. => NONE,
    }
}

/// The index of the part of this number of a cell; a reference has none.
#[inline(always)]
pub(crate) fn index_in(arena: &Arena, cell: Plain, number: usize) -> u64
    ensures { IsPart (nth number (row_of (view arena.now).list cell)) result }
{
    match cell {
        Plain::One(_, a) => first(number, a),
        Plain::Arguments(_, a) => first(number, a),
        Plain::Two(_, a, b) => of_two(number, a, b),
        Plain::Three(_, a, b, c) => of_three(number, a, b, c),
        Plain::Many(_, start, count) => listed(arena, start, count, number),
        _ => NONE,
    }
}

/// How many parts of a cell have indexes.
#[inline(always)]
pub(crate) fn count_in(arena: &Arena, cell: Plain) -> usize
    ensures { result ≡ length (row_of (view arena.now).list cell) }
{
    match cell {
        Plain::One(_, _) => 1,
        Plain::Arguments(_, _) => 1,
        Plain::Two(_, _, _) => 2,
        Plain::Three(_, _, _, _) => 3,
        Plain::Many(_, start, count) => arena.indexes(start, count).len(),
        _ => 0,
    }
}

/// Whether a cell is a reference.
#[inline(always)]
pub(crate) fn is_reference(cell: Plain) -> bool
    ensures { result ≡ is_reference cell }
{
    match cell {
        Plain::Reference(_) => true,
        Plain::Other(_) => true,
        _ => false,
    }
}

/// The tag of a cell that is a node whose parts have indexes.
#[inline(always)]
pub(crate) fn row_tag(cell: Plain) -> Option<Tag>
    ensures { result ≡ row_tag cell }
{
    match cell {
        Plain::Empty(tag) => Some(tag),
        Plain::One(tag, _) => Some(tag),
        Plain::Two(tag, _, _) => Some(tag),
        Plain::Three(tag, _, _, _) => Some(tag),
        Plain::Many(tag, _, _) => Some(tag),
        Plain::Arguments(_, _) => Some(Tag::TemplateArgs),
        _ => None,
    }
}
