//! What a copy is.

ghost use Rattle.std.specs.Prelude.{◌≡◌, IfOk, IfErr};
ghost use Rattle.demangle_text.specs.declared.error.Error.TheVariants.{OutOfMemory};

use demangle_text::Result;
use std::alloc::Global;

/// A node or a table that can be copied. In the original these types derive `Clone`; here a copy takes memory, so it
/// may be refused.
pub trait TryClone: Sized {
    /// Whether the second is a copy of the first: the same tree, or the same table.
    ghost IsCopy: { Self → Self → Type 0 };

    /// A copy, equal to what is copied, the `place` of argument lists and the order of a table's components included.
    /// `OutOfMemory` is its only refusal.
    fn try_clone(&self, alloc: Global) -> Result<Self>
        ensures equal { IfOk result (λ r. IsCopy self.now r) }
        ensures refused { IfErr result (λ e. e ≡ OutOfMemory) };
}
