//! What readers put into an arena.

use crate::tag::Tag;

/// One tree of a row: a node with its parts, or what stands for no node. A part is an index, of a lower cell or of a
/// constant tree.
#[derive(Clone, Copy)]
pub enum Cell {
    /// A node without parts.
    Empty(Tag),
    /// A node of one part.
    One(Tag, u32),
    /// A node of two parts.
    Two(Tag, u32, u32),
    /// A node of three parts.
    Three(Tag, u32, u32, u32),
    /// A node that is a place in the input alone: its first byte, and the byte behind it.
    Text(Tag, u32, u32),
    /// A node that is a number alone.
    Count(Tag, usize),
    /// A place in the input.
    Place(u32, u32),
    /// A number.
    Number(isize),
    /// A number that isn't below zero.
    Counted(usize),
    /// A node with an empty list.
    EmptyList(Tag),
}

/// What becomes of the trees of a list.
#[derive(Clone, Copy)]
pub enum ListOf {
    /// A node with these parts.
    Node(Tag),
    /// A list of template arguments, whose `I` has this index.
    Arguments(u32),
}
