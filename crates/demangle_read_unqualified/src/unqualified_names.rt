//! Names without their scopes, ABI section 5.1.2.

ghost use Rattle.std.specs.Prelude.{◌≤◌, ◌<◌};
ghost use Rattle.demangle_grammar.specs.Rule.{Row};
ghost use Rattle.demangle_grammar.specs.Code.{cread};
ghost use Rattle.demangle_forms.specs.NameForms.{unqualified_rest_at};
ghost use Rattle.demangle_forms.specs.Starts.{source_names_at, unqualified_names_at};
ghost use Rattle.demangle_forms.specs.UnqualifiedForms.{unnamed_at};
ghost use Rattle.demangle_cells.specs.Reads.{Reads, ReadsRow};
ghost use Rattle.demangle_cells.specs.View.{Grown, view};

use crate::closures::closure_type_name;
use crate::first_bytes::{UnqualifiedStart, unqualified_start};
use crate::operators::{ctor_dtor_name, operator_name};
use crate::words::behind_on;
use demangle_cells::{Arena, Cell, Depth, Part, Tag, Text, passed};
use demangle_read_below::Below;
use demangle_read_rows::{abi_tags, optional_discriminator, source_name, unnamed_type_name, word};
use demangle_read_types::{made_two, restored};
use demangle_text::Result;

/// A name without its scope. ABI section 5.1.2.
///
/// ```text
/// <unqualified-name> ::= [on] <operator-name> [<abi-tags>] | <ctor-dtor-name> [<abi-tags>]
///                    ::= <source-name> [<abi-tags>] | L <source-name> [<discriminator>] [<abi-tags>]
///                    ::= <unnamed-type-name> [<abi-tags>] | <closure-type-name> [<abi-tags>]
/// ```
#[tactic(auto, using(demangle_forms::proofs::NameLaws::unqualified_name_row_is, demangle_cells::proofs::Grows::grows), unfolding(demangle_forms::specs::NameForms::unqualified_name_row, demangle_forms::specs::Starts::unqualified_names_at))]
pub fn unqualified_name<B: Below>(
    below: B,
    arena: &mut Arena,
    depth: Depth,
    text: Text<'_>,
    at: u32,
) -> Result<Part>
    requires can { B.can below }
    requires room { depth.levels ≤ B.most below }
    ensures grown { Grown (view arena.old) (view arena.new) }
    ensures reads { ReadsRow Row.unqualified_name depth.levels depth.conversion text.entry at result
        (view arena.old) (view arena.new) }
{
    let depth = depth.enter()?;
    unqualified_alternatives(below, arena, depth, text, at)
}

/// The alternatives of a name, in the level that it entered, from the first one on that must be tried.
#[tactic(auto)]
fn unqualified_alternatives<B: Below>(
    below: B,
    arena: &mut Arena,
    depth: Depth,
    text: Text<'_>,
    at: u32,
) -> Result<Part>
    requires can { B.can below }
    requires room { depth.levels < B.most below }
    ensures grown { Grown (view arena.old) (view arena.new) }
    ensures reads { Reads text.entry at result (view arena.old) (view arena.new)
        (λ s. unqualified_names_at (cread depth.levels) depth.conversion s) }
{
    match unqualified_start(depth, text, at) {
        UnqualifiedStart::All => operator_or_constructor(below, arena, depth, text, at),
        UnqualifiedStart::Constructors => constructor_or_source(below, arena, depth, text, at),
        UnqualifiedStart::Sources => source_or_unnamed(below, arena, depth, text, at),
        UnqualifiedStart::Unnamed => closure_or_unnamed(below, arena, depth, text, at),
    }
}

/// All alternatives: operators, and those after them.
#[tactic(auto, using(demangle_cells::proofs::Grows::grows, demangle_cells::proofs::Grows::cuts), unfolding(demangle_forms::specs::Starts::unqualified_names_at))]
fn operator_or_constructor<B: Below>(
    below: B,
    arena: &mut Arena,
    depth: Depth,
    text: Text<'_>,
    at: u32,
) -> Result<Part>
    requires can { B.can below }
    requires room { depth.levels < B.most below }
    ensures grown { Grown (view arena.old) (view arena.new) }
    ensures reads { Reads text.entry at result (view arena.old) (view arena.new)
        (λ s. unqualified_names_at (cread depth.levels) depth.conversion s) }
{
    let mark = arena.mark();
    let rest = behind_on(text, at);
    if let Ok(operator) = passed(operator_name(below, arena, depth, text, rest))? {
        let answer = abi_tags(arena, depth, text, operator.end);
        let tags = restored(arena, mark, answer)?;
        return made_two(arena, Tag::UnqualifiedNameOperator, operator.id, tags);
    }
    constructor_or_source(below, arena, depth, text, at)
}

/// Constructors and destructors, and the alternatives after them.
#[tactic(auto, using(demangle_forms::proofs::UnqualifiedLaws::unqualified_rest_is, demangle_cells::proofs::Grows::grows, demangle_cells::proofs::Grows::cuts), unfolding(demangle_forms::specs::UnqualifiedForms::unqualified_alternatives, demangle_forms::specs::Starts::source_names_at))]
fn constructor_or_source<B: Below>(
    below: B,
    arena: &mut Arena,
    depth: Depth,
    text: Text<'_>,
    at: u32,
) -> Result<Part>
    requires can { B.can below }
    requires room { depth.levels < B.most below }
    ensures grown { Grown (view arena.old) (view arena.new) }
    ensures reads { Reads text.entry at result (view arena.old) (view arena.new)
        (λ s. unqualified_rest_at (cread depth.levels) depth.conversion s) }
{
    let mark = arena.mark();
    if let Ok(name) = passed(ctor_dtor_name(below, arena, depth, text, at))? {
        let answer = abi_tags(arena, depth, text, name.end);
        let tags = restored(arena, mark, answer)?;
        return made_two(arena, Tag::UnqualifiedNameCtorDtor, name.id, tags);
    }
    source_or_unnamed(below, arena, depth, text, at)
}

/// Source names, with `L` before those of internal linkage, and closures and unnamed types.
#[tactic(auto, using(demangle_cells::proofs::Grows::grows), unfolding(demangle_forms::specs::Starts::source_names_at))]
fn source_or_unnamed<B: Below>(
    below: B,
    arena: &mut Arena,
    depth: Depth,
    text: Text<'_>,
    at: u32,
) -> Result<Part>
    requires can { B.can below }
    requires room { depth.levels < B.most below }
    ensures grown { Grown (view arena.old) (view arena.new) }
    ensures reads { Reads text.entry at result (view arena.old) (view arena.new)
        (λ s. source_names_at (cread depth.levels) depth.conversion s) }
{
    if let Ok(rest) = word(text, at, b"L") {
        let name = source_name(arena, depth, text, rest)?;
        let discriminator = optional_discriminator(arena, depth, text, name.end)?;
        let tags = abi_tags(arena, depth, text, discriminator.end)?;
        let cell = Cell::Three(
            Tag::UnqualifiedNameLocalSourceName,
            name.id,
            discriminator.id,
            tags.id,
        );
        let id = arena.push(cell)?;
        return Ok(Part { id, end: tags.end });
    }
    if let Ok(name) = passed(source_name(arena, depth, text, at))? {
        let tags = abi_tags(arena, depth, text, name.end)?;
        return made_two(arena, Tag::UnqualifiedNameSource, name.id, tags);
    }
    closure_or_unnamed(below, arena, depth, text, at)
}

/// A closure or an unnamed type.
#[tactic(auto, using(demangle_cells::proofs::Grows::grows, demangle_cells::proofs::Grows::cuts), unfolding(demangle_forms::specs::UnqualifiedForms::unnamed_at))]
fn closure_or_unnamed<B: Below>(
    below: B,
    arena: &mut Arena,
    depth: Depth,
    text: Text<'_>,
    at: u32,
) -> Result<Part>
    requires can { B.can below }
    requires room { depth.levels < B.most below }
    ensures grown { Grown (view arena.old) (view arena.new) }
    ensures reads { Reads text.entry at result (view arena.old) (view arena.new)
        (λ s. unnamed_at (cread depth.levels) depth.conversion s) }
{
    let mark = arena.mark();
    if let Ok(closure) = passed(closure_type_name(below, arena, depth, text, at))? {
        let answer = abi_tags(arena, depth, text, closure.end);
        let tags = restored(arena, mark, answer)?;
        return made_two(arena, Tag::UnqualifiedNameClosureType, closure.id, tags);
    }
    let name = unnamed_type_name(arena, depth, text, at)?;
    let tags = abi_tags(arena, depth, text, name.end)?;
    made_two(arena, Tag::UnqualifiedNameUnnamedType, name.id, tags)
}
