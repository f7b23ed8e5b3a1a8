//! Copies by way of cells: a node is put into an arena of its own, and made anew out of it.

ghost use Rattle.std.specs.Prelude.{◌≡◌, ℕ, IfOk, IfErr};
ghost use Rattle.demangle_cells.specs.View.{Holds, view};
ghost use Rattle.demangle_core.specs.Core.{Core};
ghost use Rattle.demangle_leaves_to_cells.specs.Put.{Put};
ghost use Rattle.demangle_text.specs.declared.error.Error.TheVariants.{OutOfMemory};

use demangle_cells::{Arena, each_arena_has_a_model};
use demangle_text::Result;
use std::alloc::Global;

/// A node type that goes into the cells of an arena and comes out of them.
pub(crate) trait InCells: Sized {
    /// The plain tree of a node.
    ghost tree: { Self → Core };

    /// Puts the node into the arena: the index of its tree. `OutOfMemory` is its only refusal.
    fn put(&self, arena: &mut Arena) -> Result<u32>
        ensures { Put (view arena.old) (view arena.new) result (tree self.now) };

    /// The node of the tree of this index. `OutOfMemory` is its only refusal.
    fn made(alloc: Global, arena: &Arena, id: u32) -> Result<Self>
        ensures made { IfOk result (λ n. (F : ℕ → Core) → Holds F (view arena.now) → F id ≡ tree n) }
        ensures refused { IfErr result (λ e. e ≡ OutOfMemory) };
}

/// A copy with the same tree. `OutOfMemory` is its only refusal.
pub(crate) fn copied<X: InCells>(alloc: Global, node: &X) -> Result<X>
    ensures equal { IfOk result (λ r. X.tree r ≡ X.tree node.now) }
    ensures refused { IfErr result (λ e. e ≡ OutOfMemory) }
{
    let mut arena = Arena::new(alloc);
    let id = node.put(&mut arena)?;
    each_arena_has_a_model(&arena);
    X::made(alloc, &arena, id)
}
