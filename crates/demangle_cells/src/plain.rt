//! What an arena keeps.

use crate::tag::Tag;

/// A tree one step deep: a node with its parts, or what stands for no node. A part is an index, and each node below has
/// one of its own.
#[derive(Clone, Copy)]
pub enum Plain {
    /// A node without parts.
    Empty(Tag),
    /// A node of one part.
    One(Tag, u32),
    /// A node of two parts.
    Two(Tag, u32, u32),
    /// A node of three parts.
    Three(Tag, u32, u32, u32),
    /// A node of any number of parts: where they begin in the list of indexes, and how many they are.
    Many(Tag, u32, u32),
    /// A list of template arguments: the index of its `I` in the input, and its one part, the node of its members.
    Arguments(u32, u32),
    /// A place in the input: its first byte, and the byte behind it.
    Place(u32, u32),
    /// A number.
    Number(isize),
    /// A number that isn't below zero.
    Counted(usize),
    /// A word of a table: the table, and the number of the word.
    Word(u8, u8),
    /// A flag.
    Flag(bool),
    /// The reference to a numbered component.
    Reference(u32),
    /// The reference to another component.
    Other(u32),
}
