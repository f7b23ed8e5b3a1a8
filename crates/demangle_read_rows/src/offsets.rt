//! Offsets of thunks.

ghost use Rattle.std.specs.Prelude.{◌≡◌, ℕ};
ghost use Rattle.demangle_core.specs.Core.{Core};
ghost use Rattle.demangle_grammar.specs.Rule.{Row};
ghost use Rattle.demangle_cells.specs.View.{view, table, Grown};
ghost use Rattle.demangle_cells.specs.Reads.{ReadsRow};

use crate::bytes::word;
use crate::next::has_more;
use crate::numbers::number;
use demangle_cells::{Arena, Cell, Depth, Part, Tag, Text};
use demangle_text::{Error, Result};

/// A fixed offset of a thunk. ABI section 5.1.4.2.
///
/// ```text
/// <nv-offset> ::= <offset number>
/// ```
#[tactic(auto, using(demangle_cells::proofs::Grows::grows), unfolding(demangle_grammar::specs::Code::cread, demangle_grammar::specs::Rows::rule))]
pub fn nv_offset(arena: &mut Arena, depth: Depth, text: Text<'_>, at: u32) -> Result<Part>
    ensures grown { Grown (view arena.old) (view arena.new) }
    ensures reads { ReadsRow Row.nv_offset depth.levels depth.conversion text.entry at result
        (view arena.old) (view arena.new) }
    ensures table { (F : ℕ → Core) → table F (view arena.new) ≡ table F (view arena.old) }
{
    let depth = depth.enter()?;
    let offset = number(arena, depth, text, at)?;
    let id = arena.push(Cell::One(Tag::NvOffset, offset.id))?;
    Ok(Part {
        id,
        end: offset.end,
    })
}

/// A fixed and a virtual offset of a thunk. ABI section 5.1.4.2.
///
/// ```text
/// <v-offset> ::= <offset number> _ <virtual offset number>
/// ```
#[tactic(auto, using(demangle_cells::proofs::Grows::grows), unfolding(demangle_grammar::specs::Code::cread, demangle_grammar::specs::Rows::rule))]
pub fn v_offset(arena: &mut Arena, depth: Depth, text: Text<'_>, at: u32) -> Result<Part>
    ensures grown { Grown (view arena.old) (view arena.new) }
    ensures reads { ReadsRow Row.v_offset depth.levels depth.conversion text.entry at result
        (view arena.old) (view arena.new) }
    ensures table { (F : ℕ → Core) → table F (view arena.new) ≡ table F (view arena.old) }
{
    let depth = depth.enter()?;
    let offset = number(arena, depth, text, at)?;
    let rest = word(text, offset.end, b"_")?;
    let virtual_offset = number(arena, depth, text, rest)?;
    let id = arena.push(Cell::Two(Tag::VOffset, offset.id, virtual_offset.id))?;
    Ok(Part {
        id,
        end: virtual_offset.end,
    })
}

/// How a thunk changes `this` or the result. ABI section 5.1.4.2. Nothing left is `UnexpectedEnd`, another first byte
/// `UnexpectedText`.
///
/// ```text
/// <call-offset> ::= h <nv-offset> _ | v <v-offset> _
/// ```
#[tactic(auto, using(demangle_cells::proofs::Grows::grows), unfolding(demangle_grammar::specs::Code::cread, demangle_grammar::specs::Rows::rule))]
pub fn call_offset(arena: &mut Arena, depth: Depth, text: Text<'_>, at: u32) -> Result<Part>
    ensures grown { Grown (view arena.old) (view arena.new) }
    ensures reads { ReadsRow Row.call_offset depth.levels depth.conversion text.entry at result
        (view arena.old) (view arena.new) }
    ensures table { (F : ℕ → Core) → table F (view arena.new) ≡ table F (view arena.old) }
{
    let depth = depth.enter()?;
    if !has_more(text, at, 1) {
        return Err(Error::UnexpectedEnd);
    }
    if let Ok(rest) = word(text, at, b"h") {
        let offset = nv_offset(arena, depth, text, rest)?;
        let end = word(text, offset.end, b"_")?;
        let id = arena.push(Cell::One(Tag::CallOffsetNonVirtual, offset.id))?;
        return Ok(Part { id, end });
    }
    if let Ok(rest) = word(text, at, b"v") {
        let offset = v_offset(arena, depth, text, rest)?;
        let end = word(text, offset.end, b"_")?;
        let id = arena.push(Cell::One(Tag::CallOffsetVirtual, offset.id))?;
        return Ok(Part { id, end });
    }
    Err(Error::UnexpectedText)
}
