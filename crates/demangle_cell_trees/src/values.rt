//! What trees without parts hold, and where lists of template arguments began.

ghost use Rattle.std.specs.Prelude.{◌≡◌, List, ℕ};
ghost use Rattle.demangle_core.specs.Table.{Table};
ghost use Rattle.demangle_grammar.specs.Sound.{bytes_of};
ghost use Rattle.demangle_printing.specs.Reader.{bytes_seen, index_seen};
ghost use Rattle.demangle_printing.specs.Trees.{began_at, look_in};
ghost use Rattle.demangle_lines.specs.Shapes.{number_of, value_seen};
ghost use Rattle.demangle_cell_trees.specs.NodeTrees.{node_tree};
ghost use Rattle.demangle_cell_trees.specs.Own.{began_in, place_in, value_in};

use crate::cells::{cell_of, kept_of};
use crate::node::Node;
use demangle_cells::Plain;
use demangle_lines::Number;

/// The bytes from one place of the input up to another.
#[inline(always)]
pub(crate) fn between(input: &[u8], start: u32, stop: u32) -> &[u8]
    ensures { result.now ≡ bytes_of input.now start stop }
{
    let rest = match input.get(start as usize..) {
        Some(rest) => rest,
        None => return &[],
    };
    match rest.get(..stop.saturating_sub(start) as usize) {
        Some(front) => front,
        None => rest,
    }
}

/// The place that a cell is.
#[inline(always)]
fn place_in(cell: Plain) -> (u32, u32)
    ensures { result ≡ place_in cell }
{
    match cell {
        Plain::Place(start, stop) => (start, stop),
        _ => (0, 0),
    }
}

/// The bytes, where a tree is a place in the input.
#[inline(always)]
pub(crate) fn bytes_of<'s>(node: Node<'_>, input: &'s [u8]) -> &'s [u8]
    ensures { (table : Table) → result.now ≡ bytes_seen (look_in table input.now (node_tree node.entry)) }
{
    match kept_of(node.arena, node.at) {
        None => &[],
        Some(cell) => {
            let (start, stop) = place_in(cell);
            between(input, start, stop)
        }
    }
}

/// The number that a cell is.
#[inline(always)]
fn value_in(cell: Plain) -> Number
    ensures { number_of result ≡ value_in cell }
{
    match cell {
        Plain::Number(number) => Number::Signed(number),
        Plain::Counted(number) => Number::Counted(number),
        _ => Number::Counted(0),
    }
}

/// The number that a tree is; 0 elsewhere.
pub(crate) fn number_in(node: Node<'_>) -> Number
    ensures { (table : Table) (input : List ℕ) → number_of result
        ≡ value_seen (look_in table input (node_tree node.entry)) }
{
    value_in(cell_of(node.arena, node.at))
}

/// The number that a tree is, where it isn't below zero; 0 elsewhere.
pub(crate) fn index_in(node: Node<'_>) -> usize
    ensures { (table : Table) (input : List ℕ) → result ≡ index_seen (look_in table input (node_tree node.entry)) }
{
    match number_in(node) {
        Number::Counted(number) => number,
        Number::Signed(number) => { if number < 0 { 0 } else { number as usize } }
    }
}

/// Where the list of template arguments that a cell is began in the input; 0 elsewhere.
#[inline(always)]
fn began_in(cell: Plain) -> u32
    ensures { result ≡ began_in cell }
{
    match cell {
        Plain::Arguments(at, _) => at,
        _ => 0,
    }
}

/// Where a tree began in the input, where it is a list of template arguments; 0 elsewhere.
pub(crate) fn began_of(node: Node<'_>) -> usize
    ensures { result ≡ began_at (node_tree node.entry) }
{
    began_in(cell_of(node.arena, node.at)) as usize
}
