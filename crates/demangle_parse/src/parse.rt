//! What every node that has a row in the grammar can do.

ghost use Rattle.std.specs.Prelude.{◌≡◌, OnErr};
ghost use Rattle.demangle_core.specs.Core.{Core};
ghost use Rattle.demangle_table.specs.TableOf.{table_of};
ghost use Rattle.demangle_grammar.specs.Rule.{Row};
ghost use Rattle.demangle_leaf_rows.specs.Answers.{AnswersOrOutOfMemory};
ghost use Rattle.demangle_leaf_rows.specs.Context.{Keeps};
ghost use Rattle.demangle_leaf_rows.specs.Deepest.{Deepens};
ghost use Rattle.demangle_parse.specs.Reading.{reading_in};

use crate::parsed::parsed;
use crate::read_cells::ReadCells;
use demangle_leaf_rows::ParseContext;
use demangle_table::SubstitutionTable;
use demangle_text::{IndexStr, Result};
use std::alloc::Global;

/// A node that has a row in the grammar, ABI chapter 5.1.
pub trait Parse: Sized {
    /// The row.
    ghost row: { Row };
    /// The plain tree of a node.
    ghost tree: { Self → Core };

    /// The node at the front of the input and the rest behind it: what the ordered reading of the row finds. It adds
    /// its components at the end of the table. Each refusal is the reading's (`TooMuchRecursion` exactly where it
    /// enters a row at the limit, even in an alternative that is only tried), or it is `OutOfMemory`. A refusal leaves
    /// the table as it was. After every answer the level and the conversion flag are as they were before. The deepest
    /// level that the reading enters raises the context's; nothing is said of that one after `TooMuchRecursion` and
    /// `OutOfMemory`.
    fn parse<'b>(
        alloc: Global,
        ctx: &mut ParseContext,
        subs: &mut SubstitutionTable,
        input: IndexStr<'b>,
    ) -> Result<(Self, IndexStr<'b>)>
        ensures reads { AnswersOrOutOfMemory tree result (table_of subs.new)
            (reading_in ctx.old row input.entry (table_of subs.old)) }
        ensures tables { OnErr result (table_of subs.new ≡ table_of subs.old) }
        ensures deepest { Deepens row ctx.old ctx.new input.entry result (table_of subs.old) }
        ensures context { Keeps ctx.old ctx.new };
}

/// A node that is made out of cells.
impl<X: ReadCells> Parse for X {
    ghost row = { X.ReadCells.row };

    ghost tree = { X.ReadCells.tree };

    fn parse<'b>(
        alloc: Global,
        ctx: &mut ParseContext,
        subs: &mut SubstitutionTable,
        input: IndexStr<'b>,
    ) -> Result<(X, IndexStr<'b>)> {
        parsed(alloc, ctx, subs, input)
    }
}
