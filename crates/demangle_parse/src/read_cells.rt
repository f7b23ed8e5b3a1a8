//! What a node is read by: its row's reader over the arena, and what makes the node out of cells.

ghost use Rattle.std.specs.Prelude.{◌≡◌, ℕ, IfOk, IfErr};
ghost use Rattle.demangle_text.specs.declared.error.Error.TheVariants.{OutOfMemory};
ghost use Rattle.demangle_core.specs.Core.{Core};
ghost use Rattle.demangle_grammar.specs.Rule.{Row};
ghost use Rattle.demangle_cells.specs.Reads.{ReadsRow};
ghost use Rattle.demangle_cells.specs.View.{view, Grown, Holds};

use demangle_cells::{Arena, Depth, Part, Text};
use demangle_text::Result;
use std::alloc::Global;

/// A node whose row is read over the arena, ABI chapter 5.1.
pub trait ReadCells: Sized {
    /// The row.
    ghost row: { Row };
    /// The plain tree of a node.
    ghost tree: { Self → Core };

    /// Reads the row at a place of the text: the index of its tree, and where the text goes on. Each refusal is the
    /// reading's, or it is `OutOfMemory`.
    fn read_row(arena: &mut Arena, depth: Depth, text: Text<'_>, at: u32) -> Result<Part>
        ensures grown { Grown (view arena.old) (view arena.new) }
        ensures reads { ReadsRow row depth.levels depth.conversion text.entry at result
            (view arena.old) (view arena.new) };

    /// The node whose tree has this index. `OutOfMemory` is its only refusal.
    fn from_cells(alloc: Global, arena: &Arena, id: u32) -> Result<Self>
        ensures made { IfOk result (λ n. (F : ℕ → Core) → Holds F (view arena.now) → F id ≡ tree n) }
        ensures refused { IfErr result (λ e. e ≡ OutOfMemory) };
}
