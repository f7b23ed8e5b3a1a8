//! The texts of trees that are words.

ghost use Rattle.std.specs.Prelude.{◌≡◌, List, ℕ};
ghost use Rattle.demangle_core.specs.Table.{Table};
ghost use Rattle.demangle_printing.specs.Trees.{look_in};
ghost use Rattle.demangle_lines.specs.Shapes.{leaf_text_seen, text_seen};
ghost use Rattle.demangle_cell_trees.specs.NodeTrees.{node_tree};
ghost use Rattle.demangle_cell_trees.specs.Own.{leaf_text_in, text_in};

use crate::cells::cell_of;
use crate::node::Node;
use crate::words::{component_leaf_text, text_of_word};
use demangle_cells::Plain;

/// The text of the word that a cell is.
fn text_in(cell: Plain) -> &'static str
    ensures { result.now ≡ text_in cell }
{
    match cell {
        Plain::Word(table, word) => text_of_word(table, word),
        _ => "",
    }
}

/// The text, where a tree is a word.
pub(crate) fn text_of(node: Node<'_>) -> &'static str
    ensures { (table : Table) (input : List ℕ) → result.now
        ≡ text_seen (look_in table input (node_tree node.entry)) }
{
    text_in(cell_of(node.arena, node.at))
}

/// The text of the word that a cell is, as a leaf name.
fn leaf_text_in(cell: Plain) -> &'static str
    ensures { result.now ≡ leaf_text_in cell }
{
    match cell {
        Plain::Word(_, word) => component_leaf_text(word),
        _ => "",
    }
}

/// The text of a leaf name, where a tree is a component, which is a word.
pub(crate) fn leaf_text_of(node: Node<'_>) -> &'static str
    ensures { (table : Table) (input : List ℕ) → result.now
        ≡ leaf_text_seen (look_in table input (node_tree node.entry)) }
{
    leaf_text_in(cell_of(node.arena, node.at))
}
