//! Nodes of four parts.

ghost use Rattle.std.specs.Prelude.{◌≡◌, ℕ, ◌++◌, IfErr, IfOk, [], ◌∷◌, OnOk, length, take};
ghost use Rattle.demangle_text.specs.declared.error.Error.TheVariants.{OutOfMemory};
ghost use Rattle.demangle_core.specs.Core.{Core, node, end, ◌⊕◌};
ghost use Rattle.demangle_cells.specs.Tags.{tag_of};
ghost use Rattle.demangle_cells.specs.View.{view, Grown, Holds, KeepsTrees, table};

use demangle_cells::{Arena, ListOf, Tag};
use demangle_text::Result;

/// The index of a node of four parts. `OutOfMemory` is the one refusal.
#[tactic(auto, using(crate::proofs::FourParts::fours))]
pub fn four(arena: &mut Arena, tag: Tag, a: u32, b: u32, c: u32, d: u32) -> Result<u32>
    ensures grown { Grown (view arena.old) (view arena.new) }
    ensures table { (F : ℕ → Core) → table F (view arena.new) ≡ table F (view arena.old) }
    ensures made { IfOk result (λ i. (F : ℕ → Core) → Holds F (view arena.new)
        → F i ≡ node (tag_of tag) (F a ⊕ (F b ⊕ (F c ⊕ F d))) end) }
    ensures refused { IfErr result (λ e. e ≡ OutOfMemory) }
{
    let from = arena.waiting();
    let answer = wait_four(arena, a, b, c, d);
    let part = arena.gathered(from, ListOf::Node(tag), answer)?;
    Ok(part.id)
}

/// The four wait, and the answer is no place of the text.
#[tactic(auto, using(crate::proofs::FourParts::four_waits))]
fn wait_four(arena: &mut Arena, a: u32, b: u32, c: u32, d: u32) -> Result<u32>
    ensures kept { KeepsTrees (view arena.old) (view arena.new) }
    ensures front { take (length (view arena.old).waiting) (view arena.new).waiting ≡ (view arena.old).waiting }
    ensures waits { OnOk result ((view arena.new).waiting ≡ (view arena.old).waiting ++ a ∷ b ∷ c ∷ d ∷ []) }
    ensures refused { IfErr result (λ e. e ≡ OutOfMemory) }
{
    arena.wait(a)?;
    arena.wait(b)?;
    arena.wait(c)?;
    arena.wait(d)?;
    Ok(0)
}
