//! Names with their scopes, ABI section 5.1.2.

ghost use Rattle.std.specs.Prelude.{◌≡◌, ◌≤◌, ◌<◌};
ghost use Rattle.demangle_grammar.specs.Rule.{Row};
ghost use Rattle.demangle_grammar.specs.Code.{cread};
ghost use Rattle.demangle_forms.specs.Starts.{local_names_at, names_at, template_handles_at, template_names_at};
ghost use Rattle.demangle_forms.specs.Starts.{template_references_at};
ghost use Rattle.demangle_cells.specs.View.{view, Grown};
ghost use Rattle.demangle_cells.specs.Reads.{Reads, ReadsRow};

use crate::components::add_template_name;
use crate::first_bytes::{NameStart, is_substitution, name_start};
use crate::local_names::local_name;
use demangle_cells::{Arena, Cell, Depth, Part, Tag, Text, passed};
use demangle_read_below::Below;
use demangle_read_nested::{made, nested_name, restored};
use demangle_read_rows::{next_is, substitution, word};
use demangle_read_types::template_args;
use demangle_read_unqualified::unqualified_name;
use demangle_text::Result;

/// A name with its scope. An unscoped name before `I` is the name of a template, and becomes a component before its
/// arguments are read. ABI section 5.1.2.
///
/// ```text
/// <name> ::= <nested-name> | <unscoped-name> | <unscoped-template-name> <template-args> | <local-name>
/// ```
#[tactic(auto, using(demangle_cells::proofs::Grows::grows, demangle_forms::proofs::NameStarts::name_row_is), unfolding(demangle_forms::specs::Starts::name_row))]
pub fn name_by<B: Below>(
    below: B,
    arena: &mut Arena,
    depth: Depth,
    text: Text<'_>,
    at: u32,
) -> Result<Part>
    requires can { B.can below }
    requires room { depth.levels ≤ B.most below }
    ensures grown { Grown (view arena.old) (view arena.new) }
    ensures reads { ReadsRow Row.name depth.levels depth.conversion text.entry at result
        (view arena.old) (view arena.new) }
{
    let depth = depth.enter()?;
    name_alternatives(below, arena, depth, text, at)
}

/// The alternatives of a name, in the level that it entered, from the first one on that must be tried.
#[tactic(auto, using(demangle_cells::proofs::Grows::grows))]
fn name_alternatives<B: Below>(
    below: B,
    arena: &mut Arena,
    depth: Depth,
    text: Text<'_>,
    at: u32,
) -> Result<Part>
    requires can { B.can below }
    requires room { depth.levels < B.most below }
    ensures grown { Grown (view arena.old) (view arena.new) }
    ensures reads { Reads text.entry at result (view arena.old) (view arena.new)
        (λ s. names_at (cread depth.levels) depth.conversion s) }
{
    match name_start(depth, text, at) {
        NameStart::All => nested_or_unscoped(below, arena, depth, text, at),
        NameStart::Templates => template_or_local(below, arena, depth, text, at),
        NameStart::Locals => local_alone(below, arena, depth, text, at),
    }
}

/// All alternatives: nested names, unscoped names, and those after them.
#[tactic(auto, using(demangle_cells::proofs::Grows::grows, demangle_cells::proofs::Grows::cuts), unfolding(demangle_forms::specs::Starts::names_at))]
fn nested_or_unscoped<B: Below>(
    below: B,
    arena: &mut Arena,
    depth: Depth,
    text: Text<'_>,
    at: u32,
) -> Result<Part>
    requires can { B.can below }
    requires room { depth.levels < B.most below }
    ensures grown { Grown (view arena.old) (view arena.new) }
    ensures reads { Reads text.entry at result (view arena.old) (view arena.new)
        (λ s. names_at (cread depth.levels) depth.conversion s) }
{
    let mark = arena.mark();
    if let Ok(nested) = passed(nested_name(below, arena, depth, text, at))? {
        return made(arena, Cell::One(Tag::NameNested, nested.id), nested.end);
    }
    if let Ok(name) = passed(unscoped_name(below, arena, depth, text, at))? {
        if next_is(text, name.end, b'I') {
            let template = add_template_name(arena, name.id)?;
            let answer = template_args(below, arena, depth, text, name.end);
            let args = restored(arena, mark, answer)?;
            return made(
                arena,
                Cell::Two(Tag::NameUnscopedTemplate, template, args.id),
                args.end,
            );
        }
        return made(arena, Cell::One(Tag::NameUnscoped, name.id), name.end);
    }
    template_or_local(below, arena, depth, text, at)
}

/// Templates with their arguments, and local names.
#[tactic(auto, using(demangle_cells::proofs::Grows::grows, demangle_cells::proofs::Grows::cuts), unfolding(demangle_forms::specs::Starts::template_names_at))]
fn template_or_local<B: Below>(
    below: B,
    arena: &mut Arena,
    depth: Depth,
    text: Text<'_>,
    at: u32,
) -> Result<Part>
    requires can { B.can below }
    requires room { depth.levels < B.most below }
    ensures grown { Grown (view arena.old) (view arena.new) }
    ensures reads { Reads text.entry at result (view arena.old) (view arena.new)
        (λ s. template_names_at (cread depth.levels) depth.conversion s) }
{
    let mark = arena.mark();
    let answer = unscoped_template_name_handle(below, arena, depth, text, at);
    if let Ok(template) = passed(answer)? {
        let answer = template_args(below, arena, depth, text, template.end);
        let args = restored(arena, mark, answer)?;
        let cell = Cell::Two(Tag::NameUnscopedTemplate, template.id, args.id);
        return made(arena, cell, args.end);
    }
    local_alone(below, arena, depth, text, at)
}

/// A local name, the last alternative.
#[tactic(auto, using(demangle_cells::proofs::Grows::grows), unfolding(demangle_forms::specs::Starts::local_names_at))]
fn local_alone<B: Below>(
    below: B,
    arena: &mut Arena,
    depth: Depth,
    text: Text<'_>,
    at: u32,
) -> Result<Part>
    requires can { B.can below }
    requires room { depth.levels < B.most below }
    ensures grown { Grown (view arena.old) (view arena.new) }
    ensures reads { Reads text.entry at result (view arena.old) (view arena.new)
        (λ s. local_names_at (cread depth.levels) depth.conversion s) }
{
    let local = local_name(below, arena, depth, text, at)?;
    made(arena, Cell::One(Tag::NameLocal, local.id), local.end)
}

/// A name in the global scope or in `std`. ABI section 5.1.2.
///
/// ```text
/// <unscoped-name> ::= <unqualified-name> | St <unqualified-name>
/// ```
#[tactic(auto, using(demangle_cells::proofs::Grows::grows), unfolding(demangle_grammar::specs::Code::cread, demangle_grammar::specs::Rows::rule))]
pub fn unscoped_name<B: Below>(
    below: B,
    arena: &mut Arena,
    depth: Depth,
    text: Text<'_>,
    at: u32,
) -> Result<Part>
    requires can { B.can below }
    requires room { depth.levels ≤ B.most below }
    ensures grown { Grown (view arena.old) (view arena.new) }
    ensures reads { ReadsRow Row.unscoped_name depth.levels depth.conversion text.entry at result
        (view arena.old) (view arena.new) }
{
    let depth = depth.enter()?;
    if let Ok(at) = word(text, at, b"St") {
        let name = unqualified_name(below, arena, depth, text, at)?;
        return made(arena, Cell::One(Tag::UnscopedNameStd, name.id), name.end);
    }
    let name = unqualified_name(below, arena, depth, text, at)?;
    made(
        arena,
        Cell::One(Tag::UnscopedNameUnqualified, name.id),
        name.end,
    )
}

/// The name of a template outside a nested name. It becomes a component unless it is one already. ABI section 5.1.2.
///
/// ```text
/// <unscoped-template-name> ::= <unscoped-name> | <substitution>
/// ```
#[tactic(auto, using(demangle_cells::proofs::Grows::grows, demangle_forms::proofs::NameStarts::template_handle_row_is), unfolding(demangle_forms::specs::Starts::template_handle_row))]
pub fn unscoped_template_name_handle<B: Below>(
    below: B,
    arena: &mut Arena,
    depth: Depth,
    text: Text<'_>,
    at: u32,
) -> Result<Part>
    requires can { B.can below }
    requires room { depth.levels ≤ B.most below }
    ensures grown { Grown (view arena.old) (view arena.new) }
    ensures reads { ReadsRow Row.unscoped_template_name_handle depth.levels depth.conversion text.entry at result
        (view arena.old) (view arena.new) }
{
    let depth = depth.enter()?;
    if is_substitution(depth, text, at) {
        return template_substitution(arena, depth, text, at);
    }
    unscoped_or_substitution(below, arena, depth, text, at)
}

/// An unscoped name, which becomes a component, or a substitution.
#[tactic(auto, using(demangle_cells::proofs::Grows::grows), unfolding(demangle_forms::specs::Starts::template_handles_at))]
fn unscoped_or_substitution<B: Below>(
    below: B,
    arena: &mut Arena,
    depth: Depth,
    text: Text<'_>,
    at: u32,
) -> Result<Part>
    requires can { B.can below }
    requires room { depth.levels < B.most below }
    ensures grown { Grown (view arena.old) (view arena.new) }
    ensures reads { Reads text.entry at result (view arena.old) (view arena.new)
        (λ s. template_handles_at (cread depth.levels) depth.conversion s) }
{
    if let Ok(name) = passed(unscoped_name(below, arena, depth, text, at))? {
        let id = add_template_name(arena, name.id)?;
        return Ok(Part { id, end: name.end });
    }
    template_substitution(arena, depth, text, at)
}

/// A substitution that is the name of a template.
#[tactic(auto, using(demangle_cells::proofs::Grows::grows), unfolding(demangle_forms::specs::Starts::template_references_at))]
fn template_substitution(arena: &mut Arena, depth: Depth, text: Text<'_>, at: u32) -> Result<Part>
    ensures grown { Grown (view arena.old) (view arena.new) }
    ensures reads { Reads text.entry at result (view arena.old) (view arena.new)
        (λ s. template_references_at (cread depth.levels) depth.conversion s) }
{
    substitution(arena, depth, text, at)
}
