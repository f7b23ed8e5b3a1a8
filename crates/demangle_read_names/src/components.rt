//! New components of names.

ghost use Rattle.std.specs.Prelude.{◌≡◌, ℕ, IfOk, IfErr};
ghost use Rattle.demangle_text.specs.declared.error.Error.TheVariants.{OutOfMemory};
ghost use Rattle.demangle_core.specs.Core.{Core, N, Tag, node, end};
ghost use Rattle.demangle_core.specs.Table.{added, size};
ghost use Rattle.demangle_grammar.specs.Tree.{reference};
ghost use Rattle.demangle_cells.specs.View.{view, Grown, Holds, table};

use demangle_cells::{Arena, Cell, Tag as CellTag};
use demangle_text::Result;

/// The name of a template outside of a nested name, ABI section 5.1.2, <unscoped-template-name>: the reference to it.
/// `OutOfMemory` is the one refusal.
#[tactic(auto, using(demangle_cells::proofs::Grows::grows))]
pub fn add_template_name(arena: &mut Arena, name: u32) -> Result<u32>
    ensures grown { Grown (view arena.old) (view arena.new) }
    ensures reference { IfOk result (λ i. (F : ℕ → Core) → Holds F (view arena.new)
        → F i ≡ reference N (size N (table F (view arena.old)))) }
    ensures added { IfOk result (λ i. (F : ℕ → Core) → Holds F (view arena.new)
        → table F (view arena.new) ≡ added N (node Tag.SubstitutableUnscopedTemplateName
        (node Tag.UnscopedTemplateName (F name) end) end) (table F (view arena.old))) }
    ensures refused { IfErr result (λ e. e ≡ OutOfMemory) }
{
    let name = arena.push(Cell::One(CellTag::UnscopedTemplateName, name))?;
    let component = arena.push(Cell::One(CellTag::SubstitutableUnscopedTemplateName, name))?;
    arena.add(true, component)
}
