//! Parts that may be missing.

ghost use Rattle.std.specs.Prelude.{◌≡◌, ℕ};
ghost use Rattle.demangle_core.specs.Core.{Core};
ghost use Rattle.demangle_grammar.specs.Code.{cread, optional_at};
ghost use Rattle.demangle_grammar.specs.Rule.{Row};
ghost use Rattle.demangle_cells.specs.View.{view, table, Grown};
ghost use Rattle.demangle_cells.specs.Reads.{ReadsPart};
ghost use Rattle.demangle_read_rows.specs.Optional.{MayMiss};

use crate::numbers::{discriminator, number};
use crate::words::ref_qualifier;
use demangle_cells::{Arena, Cell, Depth, Part, Tag, Text, absent_id, passed};
use demangle_text::Result;

/// A part that may be missing: for a failure to read its bytes there is none, and the text goes on where the part would
/// begin. Any other failure is the answer.
#[tactic(auto, using(demangle_cells::proofs::Grows::grows))]
pub fn optional(arena: &mut Arena, answer: Result<Part>, at: u32) -> Result<Part>
    ensures grown { Grown (view arena.old) (view arena.new) }
    ensures table { (F : ℕ → Core) → table F (view arena.new) ≡ table F (view arena.old) }
    ensures part { MayMiss answer at result (view arena.new) }
{
    match passed(answer)? {
        Ok(part) => {
            let id = arena.push(Cell::One(Tag::Present, part.id))?;
            Ok(Part { id, end: part.end })
        }
        Err(_) => Ok(Part {
            id: absent_id(),
            end: at,
        }),
    }
}

/// A discriminator or none, ABI section 5.1.7, <discriminator>. The one refusal is `TooMuchRecursion`.
#[tactic(auto, using(demangle_cells::proofs::Grows::grows), unfolding(demangle_grammar::specs::Code::optional_at))]
pub fn optional_discriminator(
    arena: &mut Arena,
    depth: Depth,
    text: Text<'_>,
    at: u32,
) -> Result<Part>
    ensures grown { Grown (view arena.old) (view arena.new) }
    ensures reads { ReadsPart text.entry at result (view arena.old) (view arena.new)
        (λ s. optional_at (cread depth.levels) depth.conversion Row.discriminator s) }
    ensures table { (F : ℕ → Core) → table F (view arena.new) ≡ table F (view arena.old) }
{
    let answer = discriminator(arena, depth, text, at);
    optional(arena, answer, at)
}

/// A number or none, ABI section 5.1.2, <number>. The one refusal is `TooMuchRecursion`.
#[tactic(auto, using(demangle_cells::proofs::Grows::grows), unfolding(demangle_grammar::specs::Code::optional_at))]
pub fn optional_number(arena: &mut Arena, depth: Depth, text: Text<'_>, at: u32) -> Result<Part>
    ensures grown { Grown (view arena.old) (view arena.new) }
    ensures reads { ReadsPart text.entry at result (view arena.old) (view arena.new)
        (λ s. optional_at (cread depth.levels) depth.conversion Row.number s) }
    ensures table { (F : ℕ → Core) → table F (view arena.new) ≡ table F (view arena.old) }
{
    let answer = number(arena, depth, text, at);
    optional(arena, answer, at)
}

/// `&`, `&&` or neither, ABI section 5.1.5.3, <ref-qualifier>. The one refusal is `TooMuchRecursion`.
#[tactic(auto, using(demangle_cells::proofs::Grows::grows), unfolding(demangle_grammar::specs::Code::optional_at))]
pub fn optional_ref_qualifier(
    arena: &mut Arena,
    depth: Depth,
    text: Text<'_>,
    at: u32,
) -> Result<Part>
    ensures grown { Grown (view arena.old) (view arena.new) }
    ensures reads { ReadsPart text.entry at result (view arena.old) (view arena.new)
        (λ s. optional_at (cread depth.levels) depth.conversion Row.ref_qualifier s) }
    ensures table { (F : ℕ → Core) → table F (view arena.new) ≡ table F (view arena.old) }
{
    let answer = ref_qualifier(arena, depth, text, at);
    optional(arena, answer, at)
}
