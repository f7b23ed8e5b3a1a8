//! What the trees of indexes are, read back from their cells.

ghost use Rattle.std.specs.Prelude.{◌≡◌, ℕ, List, true, IfErr, IfOk};
ghost use Rattle.demangle_text.specs.declared.error.Error.TheVariants.{OutOfMemory};
ghost use Rattle.demangle_core.specs.Core.{Core, node};
ghost use Rattle.demangle_grammar.specs.Reading.{is_numbered};
ghost use Rattle.demangle_cells.specs.Cells.{plain_tree};
ghost use Rattle.demangle_cells.specs.Tags.{tag_of};
ghost use Rattle.demangle_cells.specs.View.{view, Holds};
ghost use Rattle.demangle_read_nested.specs.Shapes.{is_node};

use demangle_cells::{Arena, Plain, Tag};
use demangle_text::{Error, Result};

/// Whether the tree is certainly a node.
pub fn is_node(arena: &Arena, id: u32) -> bool
    ensures { result ≡ true → (F : ℕ → Core) → Holds F (view arena.now) → is_node (F id) ≡ true }
{
    match arena.cell(id) {
        Some(cell) => is_node_cell(cell),
        None => false,
    }
}

/// Whether the cell is a node.
fn is_node_cell(cell: Plain) -> bool
    ensures { (F : ℕ → Core) (list : List ℕ) → result ≡ is_node (plain_tree F list cell) }
{
    match cell {
        Plain::Place(_, _)
        | Plain::Number(_)
        | Plain::Counted(_)
        | Plain::Word(_, _)
        | Plain::Flag(_) => false,
        _ => true,
    }
}

/// Whether template arguments may follow a prefix: behind a well-known or a numbered component. `OutOfMemory` where it
/// is no known index.
pub fn is_numbered(arena: &Arena, prefix: u32) -> Result<bool>
    ensures numbered { IfOk result (λ r. (F : ℕ → Core) → Holds F (view arena.now) → r ≡ is_numbered (F prefix)) }
    ensures refused { IfErr result (λ e. e ≡ OutOfMemory) }
{
    match arena.cell(prefix) {
        Some(cell) => Ok(is_numbered_cell(cell)),
        None => Err(Error::OutOfMemory),
    }
}

/// Whether the cell is a well-known or a numbered component.
fn is_numbered_cell(cell: Plain) -> bool
    ensures { (F : ℕ → Core) (list : List ℕ) → result ≡ is_numbered (plain_tree F list cell) }
{
    match cell {
        Plain::Reference(_) => true,
        Plain::Empty(tag)
        | Plain::One(tag, _)
        | Plain::Two(tag, _, _)
        | Plain::Three(tag, _, _, _)
        | Plain::Many(tag, _, _) => is_numbered_tag(tag),
        _ => false,
    }
}

/// Whether it is the tag of a well-known or a numbered component.
fn is_numbered_tag(tag: Tag) -> bool
    ensures { (c n : Core) → result ≡ is_numbered (node (tag_of tag) c n) }
{
    match tag {
        Tag::WellKnown | Tag::BackReference => true,
        _ => false,
    }
}
