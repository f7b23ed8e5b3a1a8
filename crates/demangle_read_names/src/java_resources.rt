//! Special names of Java resources, as compilers of Java write them.

ghost use Rattle.std.specs.Prelude.{◌≡◌, ◌≤◌, ℕ, length};
ghost use Rattle.demangle_text.specs.Spot.{front};
ghost use Rattle.demangle_core.specs.Core.{Core};
ghost use Rattle.demangle_grammar.specs.Code.{cread};
ghost use Rattle.demangle_forms.specs.SpecialForms.{java_resource_at};
ghost use Rattle.demangle_cells.specs.View.{view, Grown, table};
ghost use Rattle.demangle_cells.specs.Reads.{Reads, spot_at};

use crate::lists::resource_names;
use demangle_cells::{Arena, Cell, Depth, Part, Tag, Text};
use demangle_read_rows::{behind, has_more, unsigned, word};
use demangle_text::{Error, Result};

/// The name of a Java resource, behind its word `Gr`: a number, and just so many bytes, `_` and the parts of the name.
/// A length of 0 and bytes that are left of these are `UnexpectedText`, fewer bytes `UnexpectedEnd`.
#[tactic(auto, using(demangle_cells::proofs::Grows::grows), unfolding(demangle_forms::specs::SpecialForms::java_resource_at))]
pub fn java_resource(arena: &mut Arena, depth: Depth, text: Text<'_>, at: u32) -> Result<Part>
    ensures grown { Grown (view arena.old) (view arena.new) }
    ensures table { (F : ℕ → Core) → table F (view arena.new) ≡ table F (view arena.old) }
    ensures reads { Reads text.entry at result (view arena.old) (view arena.new)
        (λ s. java_resource_at (cread depth.levels) depth.conversion s) }
{
    let (length, start) = unsigned(text, at, 10)?;
    if length == 0 {
        return Err(Error::UnexpectedText);
    }
    if !has_more(text, start, length) {
        return Err(Error::UnexpectedEnd);
    }
    let stop = behind(text, start, length);
    let inner = front_text(text, start, length);
    let from = word(inner, start, b"_")?;
    let names = resource_names(arena, depth, inner, from)?;
    match inner.rest(names.end) {
        [] => {
            let id = arena.push(Cell::One(Tag::SpecialNameJavaResource, names.id))?;
            Ok(Part { id, end: stop })
        }
        [_, ..] => Err(Error::UnexpectedText),
    }
}

/// The text up to so many bytes behind a place.
#[tactic(auto, using(demangle_read_rows::proofs::Places::fronts))]
fn front_text<'a>(text: Text<'a>, at: u32, count: usize) -> Text<'a>
    requires some { 1 ≤ count }
    requires inside { count ≤ length (spot_at text at).left }
    ensures { spot_at result at ≡ front count (spot_at text.entry at) }
{
    Text {
        bytes: &text.bytes[..at as usize + count],
    }
}
