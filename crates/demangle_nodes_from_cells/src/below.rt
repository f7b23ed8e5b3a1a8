//! What a function that makes a node knows of the nodes below it.

ghost use Rattle.std.specs.Prelude.{◌≡◌, ℕ, IfErr, IfOk};
ghost use Rattle.demangle_text.specs.declared.error.Error.TheVariants.{OutOfMemory};
ghost use Rattle.demangle_core.specs.Core.{Core};
ghost use Rattle.demangle_nodes.specs.TreeNodes.{tree_of_encoding, tree_of_expression, tree_of_mangled_name};
ghost use Rattle.demangle_nodes.specs.TreeNodes.{tree_of_name, tree_of_template_arg};
ghost use Rattle.demangle_cells.specs.View.{Holds, view};

use demangle_cells::Arena;
use demangle_entries::{Encoding, Expression, MangledName, Name, TemplateArg};
use demangle_text::Result;
use std::alloc::Global;

/// The five types through which every cycle of node types leads. A function that makes a node is handed them, and calls
/// those of all other types by their names. Where a cell isn't that of such a node it is `OutOfMemory`, which is the
/// only refusal.
pub(crate) trait Below: Copy {
    /// That nodes may be made at all.
    ghost can: { Self → Type 0 };

    /// An expression, ABI section 5.1.6.
    fn expression(self, alloc: Global, arena: &Arena, id: u32) -> Result<Expression>
        requires can { can self }
        ensures made { IfOk result (λ n. (F : ℕ → Core) → Holds F (view arena.now) → F id ≡ tree_of_expression n) }
        ensures refused { IfErr result (λ e. e ≡ OutOfMemory) };

    /// An argument of a template, ABI section 5.1.2.
    fn template_arg(self, alloc: Global, arena: &Arena, id: u32) -> Result<TemplateArg>
        requires can { can self }
        ensures made { IfOk result (λ n. (F : ℕ → Core) → Holds F (view arena.now) → F id ≡ tree_of_template_arg n) }
        ensures refused { IfErr result (λ e. e ≡ OutOfMemory) };

    /// A name with its scope, ABI section 5.1.2.
    fn name(self, alloc: Global, arena: &Arena, id: u32) -> Result<Name>
        requires can { can self }
        ensures made { IfOk result (λ n. (F : ℕ → Core) → Holds F (view arena.now) → F id ≡ tree_of_name n) }
        ensures refused { IfErr result (λ e. e ≡ OutOfMemory) };

    /// A function, a variable or what the compiler makes, ABI section 5.1.2.
    fn encoding(self, alloc: Global, arena: &Arena, id: u32) -> Result<Encoding>
        requires can { can self }
        ensures made { IfOk result (λ n. (F : ℕ → Core) → Holds F (view arena.now) → F id ≡ tree_of_encoding n) }
        ensures refused { IfErr result (λ e. e ≡ OutOfMemory) };

    /// A whole mangled name, ABI section 5.1.2.
    fn mangled_name(self, alloc: Global, arena: &Arena, id: u32) -> Result<MangledName>
        requires can { can self }
        ensures made { IfOk result (λ n. (F : ℕ → Core) → Holds F (view arena.now) → F id ≡ tree_of_mangled_name n) }
        ensures refused { IfErr result (λ e. e ≡ OutOfMemory) };
}
