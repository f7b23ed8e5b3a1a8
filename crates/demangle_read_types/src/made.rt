//! What readers make of their parts.

ghost use Rattle.std.specs.Prelude.{◌≡◌, ◌++◌, ◌∷◌, [], ℕ, IfOk, IfErr, OnOk, OnErr};
ghost use Rattle.demangle_text.specs.declared.error.Error.TheVariants.{OutOfMemory};
ghost use Rattle.demangle_core.specs.Core.{Core, Tag, end, node, ◌⊕◌};
ghost use Rattle.demangle_cells.specs.Cells.{row};
ghost use Rattle.demangle_cells.specs.Tags.{tag_of};
ghost use Rattle.demangle_cells.specs.View.{FitsMark, Grown, Holds, IsCut, Waited, table, view};

use demangle_cells::{Arena, Cell, ListOf, Mark, Part, Tag as CellTag};
use demangle_text::Result;

/// The node of one part, which ends with it.
#[tactic(auto, using(demangle_cells::proofs::Grows::grows))]
pub fn made_one(arena: &mut Arena, tag: CellTag, part: Part) -> Result<Part>
    ensures grown { Grown (view arena.old) (view arena.new) }
    ensures table { (F : ℕ → Core) → table F (view arena.new) ≡ table F (view arena.old) }
    ensures made { IfOk result (λ x. (x.end ≡ part.end)
        × ((F : ℕ → Core) → Holds F (view arena.new) → F x.id ≡ node (tag_of tag) (F part.id) end)) }
    ensures refused { IfErr result (λ e. e ≡ OutOfMemory) }
{
    let id = arena.push(Cell::One(tag, part.id))?;
    Ok(Part { id, end: part.end })
}

/// The node of two parts, which ends with the second.
#[tactic(auto, using(demangle_cells::proofs::Grows::grows))]
pub fn made_two(arena: &mut Arena, tag: CellTag, first: u32, second: Part) -> Result<Part>
    ensures grown { Grown (view arena.old) (view arena.new) }
    ensures table { (F : ℕ → Core) → table F (view arena.new) ≡ table F (view arena.old) }
    ensures made { IfOk result (λ x. (x.end ≡ second.end)
        × ((F : ℕ → Core) → Holds F (view arena.new) → F x.id ≡ node (tag_of tag) (F first ⊕ F second.id) end)) }
    ensures refused { IfErr result (λ e. e ≡ OutOfMemory) }
{
    let id = arena.push(Cell::Two(tag, first, second.id))?;
    Ok(Part {
        id,
        end: second.end,
    })
}

/// The answer. For a failure the components are cut back to the mark.
pub fn restored<X>(arena: &mut Arena, mark: Mark, answer: Result<X>) -> Result<X>
    requires fits { FitsMark (view arena.old) mark }
    ensures same { result ≡ answer }
    ensures kept { OnOk result (view arena.new ≡ view arena.old) }
    ensures cut { OnErr result (IsCut mark (view arena.old) (view arena.new)) }
{
    match answer {
        Ok(x) => Ok(x),
        Err(error) => {
            arena.cut_back(mark);
            Err(error)
        }
    }
}

/// The parts of a function's type.
#[derive(Clone, Copy)]
pub struct FunctionParts {
    pub qualifiers: u32,
    pub spec: u32,
    pub safe: u32,
    pub linked: u32,
    pub bare: u32,
    pub reference: u32,
}

/// The parts wait. Where memory runs out, some of them do.
#[tactic(auto, using(crate::proofs::Waits::parts))]
fn wait_all(arena: &mut Arena, parts: FunctionParts) -> Result<()>
    ensures waited { Waited (view arena.old) (view arena.new) }
    ensures entries { (view arena.new).entries ≡ (view arena.old).entries }
    ensures waits { OnOk result ((view arena.new).waiting ≡ ((((((view arena.old).waiting ++ parts.qualifiers ∷ [])
        ++ parts.spec ∷ []) ++ parts.safe ∷ []) ++ parts.linked ∷ []) ++ parts.bare ∷ []) ++ parts.reference ∷ []) }
    ensures refused { IfErr result (λ e. e ≡ OutOfMemory) }
{
    arena.wait(parts.qualifiers)?;
    arena.wait(parts.spec)?;
    arena.wait(parts.safe)?;
    arena.wait(parts.linked)?;
    arena.wait(parts.bare)?;
    arena.wait(parts.reference)
}

/// The node of a function's type, which ends at a place.
#[tactic(auto, using(demangle_cells::proofs::Grows::grows, crate::proofs::Waits::gathers, crate::proofs::Waits::six_wait))]
pub fn function_of(arena: &mut Arena, parts: FunctionParts, stop: u32) -> Result<Part>
    ensures grown { Grown (view arena.old) (view arena.new) }
    ensures table { (F : ℕ → Core) → table F (view arena.new) ≡ table F (view arena.old) }
    ensures made { IfOk result (λ x. (x.end ≡ stop) × ((F : ℕ → Core) → Holds F (view arena.new)
        → F x.id ≡ node Tag.FunctionType (row F (parts.qualifiers ∷ parts.spec ∷ parts.safe ∷ parts.linked
        ∷ parts.bare ∷ parts.reference ∷ [])) end)) }
    ensures refused { IfErr result (λ e. e ≡ OutOfMemory) }
{
    let from = arena.waiting();
    match wait_all(arena, parts) {
        Ok(()) => arena.gathered(from, ListOf::Node(CellTag::FunctionType), Ok(stop)),
        Err(error) => arena.gathered(from, ListOf::Node(CellTag::FunctionType), Err(error)),
    }
}
