//! The names of Java resources. An addition of compilers.

ghost use Rattle.std.specs.Prelude.{◌≡◌, ℕ};
ghost use Rattle.demangle_core.specs.Core.{Core};
ghost use Rattle.demangle_grammar.specs.Rule.{Row};
ghost use Rattle.demangle_cells.specs.View.{view, table, Grown};
ghost use Rattle.demangle_cells.specs.Reads.{ReadsRow};
ghost use Rattle.demangle_read_rows.specs.Places.{EndsPlace, resource_tree};

use crate::bytes::{NameClass, word};
use crate::next::has_more;
use demangle_cells::{Arena, Cell, Depth, Part, Tag, Text};
use demangle_text::{Error, Result};

/// Where a component of a resource ends.
#[tactic(auto, unfolding(demangle_grammar::specs::Code::cread, demangle_grammar::specs::Rows::rule))]
fn resource_end(depth: Depth, text: Text<'_>, at: u32) -> Result<u32>
    ensures { EndsPlace Row.resource_name (resource_tree at) depth.levels depth.conversion text.entry at result }
{
    let _depth = depth.enter()?;
    if !has_more(text, at, 1) {
        return Err(Error::UnexpectedEnd);
    }
    let stop = NameClass::Resource.name_end(text, at)?;
    let Ok(escape) = word(text, stop, b"$") else {
        return Ok(stop);
    };
    if let Ok(end) = word(text, escape, b"S") {
        return Ok(end);
    }
    if let Ok(end) = word(text, escape, b"_") {
        return Ok(end);
    }
    if let Ok(end) = word(text, escape, b"$") {
        return Ok(end);
    }
    Err(Error::UnexpectedText)
}

/// One component of a Java resource: the bytes up to the next `$`, and with it one of `$S`, `$_` and `$$`. Nothing left
/// is `UnexpectedEnd`; no byte before the `$`, and another byte behind it or none, are `UnexpectedText`.
///
/// ```text
/// <resource-name> ::= <bytes without $> [$S | $_ | $$]
/// ```
#[tactic(auto, using(demangle_cells::proofs::Grows::grows))]
pub fn resource_name(arena: &mut Arena, depth: Depth, text: Text<'_>, at: u32) -> Result<Part>
    ensures grown { Grown (view arena.old) (view arena.new) }
    ensures reads { ReadsRow Row.resource_name depth.levels depth.conversion text.entry at result
        (view arena.old) (view arena.new) }
    ensures table { (F : ℕ → Core) → table F (view arena.new) ≡ table F (view arena.old) }
{
    let end = resource_end(depth, text, at)?;
    let id = arena.push(Cell::Text(Tag::ResourceName, at, end))?;
    Ok(Part { id, end })
}
