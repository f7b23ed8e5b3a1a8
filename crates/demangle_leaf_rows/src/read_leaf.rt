//! What every reader of a row without recursion promises.

ghost use Rattle.std.specs.Prelude.{ℕ, Bool};
ghost use Rattle.demangle_core.specs.Core.{Core};
ghost use Rattle.demangle_grammar.specs.Rule.{Row};
ghost use Rattle.demangle_leaf_rows.specs.Answers.{AnswersLeaf};

use crate::depth::Depth;
use demangle_text::{IndexStr, Result};

/// A node whose row needs no recursion, no memory and no component of the table.
pub trait ReadLeaf: Sized {
    /// The row.
    ghost leaf_row: { Row };
    /// The plain tree of a node.
    ghost leaf_tree: { Self → Core };

    /// The node at the front of the input and the rest behind it. Each refusal is the row's.
    fn read_leaf<'b>(depth: Depth, input: IndexStr<'b>) -> Result<(Self, IndexStr<'b>)>
        ensures { AnswersLeaf leaf_tree leaf_row depth.levels depth.conversion input.entry result };
}
