//! Unresolved names: names in expressions whose meaning depends on template arguments.

ghost use Rattle.std.specs.Prelude.{◌≤◌, ◌<◌};
ghost use Rattle.demangle_grammar.specs.Rule.{Row};
ghost use Rattle.demangle_grammar.specs.Code.{close, cread};
ghost use Rattle.demangle_forms.specs.UnresolvedForms.{global_name_at, scoped_name_at, scopes_name_at};
ghost use Rattle.demangle_forms.specs.UnresolvedForms.{type_name_at, type_scopes_at};
ghost use Rattle.demangle_cells.specs.Reads.{Reads, ReadsRow, Tries};
ghost use Rattle.demangle_cells.specs.View.{Grown, view};

use crate::lists::scope_list;
use crate::unresolved_parts::{base_unresolved_name, unresolved_type_handle};
use demangle_cells::{Arena, Cell, Depth, Part, Tag, Text, empty_id, passed};
use demangle_read_below::Below;
use demangle_read_rows::word;
use demangle_read_types::{made_one, made_two, restored};
use demangle_text::Result;

/// An unresolved name, ABI section 5.1.6.
///
/// ```text
/// <unresolved-name> ::= [gs] <base-unresolved-name>
///                   ::= [gs] sr <unresolved-qualifier-level>+ E <base-unresolved-name>
///                   ::= sr <unresolved-type> <base-unresolved-name>
///                   ::= srN <unresolved-type> <unresolved-qualifier-level>+ E <base-unresolved-name>
/// ```
#[tactic(auto, using(demangle_forms::proofs::UnresolvedLaws::unresolved_name_row_is, demangle_cells::proofs::Grows::grows), unfolding(demangle_forms::specs::UnresolvedForms::unresolved_name_row, demangle_forms::specs::UnresolvedForms::unresolved_name_at))]
pub fn unresolved_name<B: Below>(
    below: B,
    arena: &mut Arena,
    depth: Depth,
    text: Text<'_>,
    at: u32,
) -> Result<Part>
    requires can { B.can below }
    requires room { depth.levels ≤ B.most below }
    ensures grown { Grown (view arena.old) (view arena.new) }
    ensures reads { ReadsRow Row.unresolved_name depth.levels depth.conversion text.entry at result
        (view arena.old) (view arena.new) }
{
    let depth = depth.enter()?;
    if let Ok(rest) = word(text, at, b"gs") {
        return global_name(below, arena, depth, text, rest);
    }
    if let Ok(name) = passed(base_unresolved_name(below, arena, depth, text, at))? {
        return made_one(arena, Tag::UnresolvedNameName, name);
    }
    let rest = word(text, at, b"sr")?;
    scoped_name(below, arena, depth, text, rest)
}

/// A name of the global scope, behind `gs`.
///
/// ```text
/// <unresolved-name> ::= gs <base-unresolved-name> | gs sr <unresolved-qualifier-level>+ E <base-unresolved-name>
/// ```
#[tactic(auto, using(demangle_cells::proofs::Grows::grows, demangle_cells::proofs::Grows::cuts), unfolding(demangle_forms::specs::UnresolvedForms::global_name_at))]
fn global_name<B: Below>(
    below: B,
    arena: &mut Arena,
    depth: Depth,
    text: Text<'_>,
    at: u32,
) -> Result<Part>
    requires can { B.can below }
    requires room { depth.levels < B.most below }
    ensures grown { Grown (view arena.old) (view arena.new) }
    ensures reads { Reads text.entry at result (view arena.old) (view arena.new)
        (λ s. close (global_name_at (cread depth.levels) depth.conversion s)) }
{
    let mark = arena.mark();
    if let Ok(name) = passed(base_unresolved_name(below, arena, depth, text, at))? {
        return made_one(arena, Tag::UnresolvedNameGlobal, name);
    }
    let rest = word(text, at, b"sr")?;
    let scopes = scope_list(below, arena, depth, text, rest)?;
    let answer = word(text, scopes.end, b"E");
    let rest = restored(arena, mark, answer)?;
    let answer = base_unresolved_name(below, arena, depth, text, rest);
    let name = restored(arena, mark, answer)?;
    made_two(arena, Tag::UnresolvedNameGlobalNested2, scopes.id, name)
}

/// A name in a type or in scopes, behind `sr`.
#[tactic(auto, unfolding(demangle_forms::specs::UnresolvedForms::scoped_name_at))]
fn scoped_name<B: Below>(
    below: B,
    arena: &mut Arena,
    depth: Depth,
    text: Text<'_>,
    at: u32,
) -> Result<Part>
    requires can { B.can below }
    requires room { depth.levels < B.most below }
    ensures grown { Grown (view arena.old) (view arena.new) }
    ensures reads { Reads text.entry at result (view arena.old) (view arena.new)
        (λ s. scoped_name_at (cread depth.levels) depth.conversion s) }
{
    if let Ok(rest) = word(text, at, b"N") {
        return name_in_type_scopes(below, arena, depth, text, rest);
    }
    if let Ok(found) = name_in_type(below, arena, depth, text, at)? {
        return Ok(found);
    }
    name_in_scopes(below, arena, depth, text, at)
}

/// A name in scopes of a type, behind `srN`.
///
/// ```text
/// <unresolved-name> ::= srN <unresolved-type> <unresolved-qualifier-level>+ E <base-unresolved-name>
/// ```
#[tactic(auto, using(demangle_cells::proofs::Grows::grows, demangle_cells::proofs::Grows::cuts), unfolding(demangle_forms::specs::UnresolvedForms::type_scopes_at))]
fn name_in_type_scopes<B: Below>(
    below: B,
    arena: &mut Arena,
    depth: Depth,
    text: Text<'_>,
    at: u32,
) -> Result<Part>
    requires can { B.can below }
    requires room { depth.levels < B.most below }
    ensures grown { Grown (view arena.old) (view arena.new) }
    ensures reads { Reads text.entry at result (view arena.old) (view arena.new)
        (λ s. close (type_scopes_at (cread depth.levels) depth.conversion s)) }
{
    let mark = arena.mark();
    let ty = unresolved_type_handle(below, arena, depth, text, at)?;
    let answer = scope_list(below, arena, depth, text, ty.end);
    let scopes = restored(arena, mark, answer)?;
    let answer = word(text, scopes.end, b"E");
    let rest = restored(arena, mark, answer)?;
    let answer = base_unresolved_name(below, arena, depth, text, rest);
    let name = restored(arena, mark, answer)?;
    let cell = Cell::Three(Tag::UnresolvedNameNested1, ty.id, scopes.id, name.id);
    let id = arena.push(cell)?;
    Ok(Part { id, end: name.end })
}

/// A name in a type, behind `sr`. An inner failure is that of the type: scopes are then to be tried.
///
/// ```text
/// <unresolved-name> ::= sr <unresolved-type> <base-unresolved-name>
/// ```
#[tactic(auto, using(demangle_cells::proofs::Grows::grows, demangle_cells::proofs::Grows::cuts), unfolding(demangle_forms::specs::UnresolvedForms::type_name_at))]
fn name_in_type<B: Below>(
    below: B,
    arena: &mut Arena,
    depth: Depth,
    text: Text<'_>,
    at: u32,
) -> Result<Result<Part>>
    requires can { B.can below }
    requires room { depth.levels < B.most below }
    ensures grown { Grown (view arena.old) (view arena.new) }
    ensures tries { Tries text.entry at result (view arena.old) (view arena.new)
        (λ s. type_name_at (cread depth.levels) depth.conversion s) }
{
    let mark = arena.mark();
    let ty = match passed(unresolved_type_handle(below, arena, depth, text, at))? {
        Ok(found) => found,
        Err(error) => return Ok(Err(error)),
    };
    let answer = base_unresolved_name(below, arena, depth, text, ty.end);
    let name = restored(arena, mark, answer)?;
    let cell = Cell::Three(Tag::UnresolvedNameNested1, ty.id, empty_id(), name.id);
    let id = arena.push(cell)?;
    Ok(Ok(Part { id, end: name.end }))
}

/// A name in scopes alone, behind `sr`.
///
/// ```text
/// <unresolved-name> ::= sr <unresolved-qualifier-level>+ E <base-unresolved-name>
/// ```
#[tactic(auto, using(demangle_cells::proofs::Grows::grows, demangle_cells::proofs::Grows::cuts), unfolding(demangle_forms::specs::UnresolvedForms::scopes_name_at))]
fn name_in_scopes<B: Below>(
    below: B,
    arena: &mut Arena,
    depth: Depth,
    text: Text<'_>,
    at: u32,
) -> Result<Part>
    requires can { B.can below }
    requires room { depth.levels < B.most below }
    ensures grown { Grown (view arena.old) (view arena.new) }
    ensures reads { Reads text.entry at result (view arena.old) (view arena.new)
        (λ s. close (scopes_name_at (cread depth.levels) depth.conversion s)) }
{
    let mark = arena.mark();
    let scopes = scope_list(below, arena, depth, text, at)?;
    let answer = word(text, scopes.end, b"E");
    let rest = restored(arena, mark, answer)?;
    let answer = base_unresolved_name(below, arena, depth, text, rest);
    let name = restored(arena, mark, answer)?;
    made_two(arena, Tag::UnresolvedNameNested2, scopes.id, name)
}
