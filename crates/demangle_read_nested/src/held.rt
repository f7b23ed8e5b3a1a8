//! What the readers of names share: nodes, and answers behind which the components are cut back.

ghost use Rattle.std.specs.Prelude.{◌≡◌, ℕ, IfOk, IfErr};
ghost use Rattle.demangle_text.specs.declared.error.Error.TheVariants.{OutOfMemory};
ghost use Rattle.demangle_core.specs.Core.{Core};
ghost use Rattle.demangle_cells.specs.Cells.{tree};
ghost use Rattle.demangle_cells.specs.View.{view, FitsMark, Grown, Holds, table};
ghost use Rattle.demangle_read_nested.specs.Held.{Restores};

use demangle_cells::{Arena, Cell, Mark, Part};
use demangle_text::Result;

/// One cell more, as the part that ends there. `OutOfMemory` is the one refusal.
#[inline(always)]
#[tactic(auto, using(demangle_cells::proofs::Grows::grows))]
pub fn made(arena: &mut Arena, cell: Cell, end: u32) -> Result<Part>
    ensures grown { Grown (view arena.old) (view arena.new) }
    ensures table { (F : ℕ → Core) → table F (view arena.new) ≡ table F (view arena.old) }
    ensures end { IfOk result (λ x. x.end ≡ end) }
    ensures made { IfOk result (λ x. (F : ℕ → Core) → Holds F (view arena.new)
        → F x.id ≡ tree F (view arena.new).list cell) }
    ensures refused { IfErr result (λ e. e ≡ OutOfMemory) }
{
    let id = arena.push(cell)?;
    Ok(Part { id, end })
}

/// The answer. For a failure the components are cut back to as many as there were.
pub fn restored<X>(arena: &mut Arena, mark: Mark, answer: Result<X>) -> Result<X>
    requires { FitsMark (view arena.old) mark }
    ensures { Restores answer mark result (view arena.old) (view arena.new) }
{
    if answer.is_err() {
        arena.cut_back(mark);
    }
    answer
}
