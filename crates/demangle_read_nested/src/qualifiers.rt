//! What stands before the prefix of a nested name, ABI section 5.1.2, <nested-name>.

ghost use Rattle.std.specs.Prelude.{◌≡◌, ℕ, IfOk};
ghost use Rattle.demangle_core.specs.Core.{Core};
ghost use Rattle.demangle_grammar.specs.Code.{cread};
ghost use Rattle.demangle_forms.specs.NameForms.{nested_qualifiers_at};
ghost use Rattle.demangle_cells.specs.View.{view, Grown, Holds, table};
ghost use Rattle.demangle_read_nested.specs.NestedNames.{IsQualifiers, ReadsQualifiers};

use demangle_cells::{Arena, Depth, Text, passed};
use demangle_read_rows::{
    cv_qualifiers, explicit_object_parameter, next_is, optional_ref_qualifier,
};
use demangle_text::Result;

/// What stands before the prefix of a nested name, as the indexes of its trees.
#[derive(Clone, Copy)]
pub enum NestedQualifiers {
    /// The mark of an explicit object parameter: `H`.
    ExplicitObject(u32),
    /// The qualifiers of a member function, of which there may be none.
    Plain(u32, u32),
}

/// What stands before the prefix, and where the text goes on. The one refusal is `TooMuchRecursion`.
#[tactic(auto, using(demangle_cells::proofs::Grows::grows, crate::proofs::Qualified::qualified), unfolding(demangle_forms::specs::NameForms::nested_qualifiers_at))]
pub fn nested_qualifiers(
    arena: &mut Arena,
    depth: Depth,
    text: Text<'_>,
    at: u32,
) -> Result<(NestedQualifiers, u32)>
    ensures grown { Grown (view arena.old) (view arena.new) }
    ensures table { (F : ℕ → Core) → table F (view arena.new) ≡ table F (view arena.old) }
    ensures reads { ReadsQualifiers text.entry at result (view arena.old) (view arena.new)
        (λ s. nested_qualifiers_at (cread depth.levels) depth.conversion s) }
    ensures shape { IfOk result (λ x. (F : ℕ → Core) → Holds F (view arena.new) → IsQualifiers F x.0) }
{
    if next_is(text, at, b'H') {
        if let Ok(object) = passed(explicit_object_parameter(arena, depth, text, at))? {
            return Ok((NestedQualifiers::ExplicitObject(object.id), object.end));
        }
    }
    let cv = cv_qualifiers(arena, depth, text, at)?;
    let reference = optional_ref_qualifier(arena, depth, text, cv.end)?;
    Ok((NestedQualifiers::Plain(cv.id, reference.id), reference.end))
}
