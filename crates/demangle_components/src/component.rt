//! What is asked of a component.

ghost use Rattle.std.specs.Prelude.{◌≡◌, IfOk, IfErr};
ghost use Rattle.demangle_core.specs.Core.{Core, same};
ghost use Rattle.demangle_text.specs.declared.error.Error.TheVariants.{OutOfMemory};

use demangle_text::Result;
use std::alloc::Global;

/// A component, of which contracts see its plain tree. Equality is that of the trees.
pub trait Component: PartialEq + Drop {
    /// The plain tree.
    ghost tree: { Self → Core };

    ghost compares: { (a b : Self) → Self.PartialEq.eq a b ≡ same (tree a) (tree b) };
}

/// How components are copied: a copy takes memory, so it may be refused.
pub trait CopyComponent<T: Component> {
    /// A copy of the component; `OutOfMemory` is its only refusal.
    fn copy_component(&self, alloc: Global, component: &T) -> Result<T>
        ensures equal { IfOk result (λ r. T.tree r ≡ T.tree component.now) }
        ensures refused { IfErr result (λ e. e ≡ OutOfMemory) };
}
