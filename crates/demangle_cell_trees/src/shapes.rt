//! What a tree is, one step deep.

ghost use Rattle.std.specs.Prelude.{◌≡◌, List, ℕ, IfSome, option_map};
ghost use Rattle.demangle_core.specs.Core.{Core};
ghost use Rattle.demangle_core.specs.Table.{Table};
ghost use Rattle.demangle_cells.specs.Cells.{plain_tree};
ghost use Rattle.demangle_printing.specs.Trees.{look_component, look_in};
ghost use Rattle.demangle_lines.specs.Shapes.{shape_in};
ghost use Rattle.demangle_cell_trees.specs.ArenaTrees.{node_at, table_of, tree_at};
ghost use Rattle.demangle_cell_trees.specs.Codes.{quick_of, quick_shape, shape_of_code};
ghost use Rattle.demangle_cell_trees.specs.NodeTrees.{node_tree};
ghost use Rattle.demangle_cell_trees.specs.Own.{node_only, own_shape_in};

use crate::cells::{cell_at, cell_of, is_referring, kept_of, numbered, other, referred};
use crate::node::Node;
use crate::tags::number_of_tag;
use demangle_cells::{Arena, Plain, Tag};
use demangle_lines::Shape;

/// The number of no tree.
const NOTHING: u32 = 0;

/// The number of a number.
const NUMBER: u32 = 3 << 16;

/// The number of bytes.
const BYTES: u32 = 5 << 16;

/// That of bytes in the cell's own numbers: up to there they are tags.
const OWN_BYTES: u32 = 256;

/// What the cell alone does not tell.
const BEHIND: u32 = 257;

/// The number of a node with this tag.
#[inline(always)]
fn node_code(tag: u8) -> u32
    ensures { shape_of_code result ≡ Shape.Node tag }
{
    (1 << 16) + tag as u32
}

/// The number of a word.
#[inline(always)]
fn word_code(table: u8, word: u8) -> u32
    ensures { shape_of_code result ≡ Shape.Word table word }
{
    (2 << 16) + table as u32 * 256 + word as u32
}

/// The number of a flag.
#[inline(always)]
fn flag_code(set: bool) -> u32
    ensures { shape_of_code result ≡ Shape.Flag set }
{
    if set { (4 << 16) + 1 } else { 4 << 16 }
}

/// What a number stands for.
#[inline(always)]
pub(crate) fn decoded(code: u32) -> Shape
    ensures { result ≡ shape_of_code code }
{
    match code / 65536 {
        1 => Shape::Node((code % 256) as u8),
        2 => Shape::Word((code / 256 % 256) as u8, (code % 256) as u8),
        3 => Shape::Number,
        4 => Shape::Flag(code % 256 == 1),
        5 => Shape::Bytes,
        _ => Shape::Nothing,
    }
}

/// What the tree of a cell is, where references are nodes.
#[inline(always)]
fn own_code(cell: Plain) -> u32
    ensures { (F : ℕ → Core) (list : List ℕ) → shape_of_code result ≡ own_shape_in (plain_tree F list cell) }
{
    match cell {
        Plain::Empty(tag) => node_code(number_of_tag(tag)),
        Plain::One(tag, _) => node_code(number_of_tag(tag)),
        Plain::Two(tag, _, _) => node_code(number_of_tag(tag)),
        Plain::Three(tag, _, _, _) => node_code(number_of_tag(tag)),
        Plain::Many(tag, _, _) => node_code(number_of_tag(tag)),
        Plain::Arguments(_, _) => node_code(number_of_tag(Tag::TemplateArgs)),
        Plain::Reference(_) => node_code(number_of_tag(Tag::BackReference)),
        Plain::Other(_) => node_code(number_of_tag(Tag::NonSubstitution)),
        Plain::Place(_, _) => BYTES,
        Plain::Number(_) => NUMBER,
        Plain::Counted(_) => NUMBER,
        Plain::Word(table, word) => word_code(table, word),
        Plain::Flag(set) => flag_code(set),
    }
}

/// A node, or nothing.
#[inline(always)]
fn only_node(code: u32) -> u32
    ensures { shape_of_code result ≡ node_only (shape_of_code code) }
{
    if code / 65536 == 1 { code } else { NOTHING }
}

/// What a component is, where it is there: a node, or nothing.
fn component_code(found: Option<u32>, subs: &Arena) -> u32
    ensures { shape_of_code result ≡ shape_in (look_component (option_map (tree_at subs.now) found)) }
{
    match found {
        None => NOTHING,
        Some(id) => only_node(own_code(cell_at(subs, id))),
    }
}

/// What any tree is: a reference is what the component is.
#[inline(never)]
pub(crate) fn shape_other(arena: &Arena, at: u64, subs: &Arena) -> u32
    ensures { (input : List ℕ) → shape_of_code result
        ≡ shape_in (look_in (table_of subs.now) input (node_at arena.now at)) }
{
    if is_referring(at) {
        return component_code(referred(at, subs), subs);
    }
    let cell = cell_of(arena, at);
    match cell {
        Plain::Reference(number) => component_code(numbered(subs, number), subs),
        Plain::Other(number) => component_code(other(subs, number), subs),
        _ => own_code(cell),
    }
}

/// What a cell tells alone: a tag, or bytes.
#[inline(always)]
fn quick_code(cell: Plain) -> u32
    ensures { quick_shape result ≡ quick_of cell }
{
    match cell {
        Plain::Empty(tag) => number_of_tag(tag) as u32,
        Plain::One(tag, _) => number_of_tag(tag) as u32,
        Plain::Two(tag, _, _) => number_of_tag(tag) as u32,
        Plain::Three(tag, _, _, _) => number_of_tag(tag) as u32,
        Plain::Many(tag, _, _) => number_of_tag(tag) as u32,
        Plain::Arguments(_, _) => 80,
        Plain::Place(_, _) => OWN_BYTES,
        _ => BEHIND,
    }
}

/// What the kept cell of a node tells alone.
#[inline(always)]
fn kept_code(arena: &Arena, at: u64) -> u32
    ensures { IfSome (quick_shape result) (λ shape. (table : Table) (input : List ℕ)
        → shape ≡ shape_in (look_in table input (node_at arena.now at))) }
{
    match kept_of(arena, at) {
        None => BEHIND,
        Some(cell) => quick_code(cell),
    }
}

/// What a tree is.
#[inline(always)]
pub(crate) fn shape_of(node: Node<'_>, subs: &Arena) -> Shape
    ensures { (input : List ℕ) → result ≡ shape_in (look_in (table_of subs.now) input (node_tree node.entry)) }
{
    let code = kept_code(node.arena, node.at);
    if code < OWN_BYTES {
        return Shape::Node(code as u8);
    }
    if code == OWN_BYTES {
        return Shape::Bytes;
    }
    decoded(shape_other(node.arena, node.at, subs))
}
