//! The turns of a prefix, ABI section 5.1.2, <prefix>. What a turn makes takes the place of the prefix so far.

ghost use Rattle.std.specs.Prelude.{◌≡◌, ◌≤◌, ◌<◌};
ghost use Rattle.demangle_grammar.specs.Rule.{Row};
ghost use Rattle.demangle_grammar.specs.Code.{close, cread};
ghost use Rattle.demangle_forms.specs.NameForms.{first_decltype_at, first_name_at, turn_decltype_at, turn_name_at};
ghost use Rattle.demangle_cells.specs.View.{view, Grown};
ghost use Rattle.demangle_cells.specs.Reads.{Reads, ReadsRow};
ghost use Rattle.demangle_read_nested.specs.Turns.{ReadsBehind};

use crate::components::{add_prefix_of_one, add_prefix_of_two};
use crate::held::restored;
use crate::members::member_prefix;
use crate::turn_starts::{Turn, first_turn, next_turn, no_prefix};
use demangle_cells::{Arena, Depth, Part, Tag, Text, passed};
use demangle_read_below::Below;
use demangle_read_rows::{next_is, optional_word, substitution, template_param, word};
use demangle_read_types::{decltype, template_args};
use demangle_read_unqualified::unqualified_name;
use demangle_text::Result;

/// The first turn of a prefix.
///
/// ```text
/// <prefix> ::= <unqualified-name> | <template-param> | <decltype> | <substitution>
/// ```
#[tactic(auto, using(demangle_cells::proofs::Grows::grows, demangle_forms::proofs::NameLaws::first_turn_row_is), unfolding(demangle_forms::specs::NameForms::first_turn_row))]
pub fn first_prefix<B: Below>(
    below: B,
    arena: &mut Arena,
    depth: Depth,
    text: Text<'_>,
    at: u32,
) -> Result<Part>
    requires can { B.can below }
    requires room { depth.levels ≤ B.most below }
    ensures grown { Grown (view arena.old) (view arena.new) }
    ensures reads { ReadsRow Row.first_turn depth.levels depth.conversion text.entry at result
        (view arena.old) (view arena.new) }
{
    let depth = depth.enter()?;
    match first_turn(text, at) {
        Turn::Substitution => substitution(arena, depth, text, at),
        Turn::Parameter => {
            let param = template_param(arena, depth, text, at)?;
            add_prefix_of_one(arena, text, Tag::PrefixTemplateParam, param)
        }
        Turn::Decltype => first_decltype(below, arena, depth, text, at),
        Turn::Name => first_name(below, arena, depth, text, at),
        Turn::Template | Turn::None => Err(no_prefix(text, at)),
    }
}

/// `decltype`, or the name of a destructor, as the first turn.
#[tactic(auto, using(demangle_cells::proofs::Grows::grows), unfolding(demangle_forms::specs::NameForms::first_decltype_at))]
fn first_decltype<B: Below>(
    below: B,
    arena: &mut Arena,
    depth: Depth,
    text: Text<'_>,
    at: u32,
) -> Result<Part>
    requires can { B.can below }
    requires room { depth.levels < B.most below }
    ensures grown { Grown (view arena.old) (view arena.new) }
    ensures reads { Reads text.entry at result (view arena.old) (view arena.new)
        (λ s. first_decltype_at (cread depth.levels) depth.conversion s) }
{
    if let Ok(ty) = passed(decltype(below, arena, depth, text, at))? {
        return add_prefix_of_one(arena, text, Tag::PrefixDecltype, ty);
    }
    let name = unqualified_name(below, arena, depth, text, at)?;
    add_prefix_of_one(arena, text, Tag::PrefixUnqualified, name)
}

/// A name as the first turn. An `M` behind it, which makes it the name of a data member, is read and not kept.
#[tactic(auto, using(demangle_cells::proofs::Grows::grows), unfolding(demangle_forms::specs::NameForms::first_name_at))]
fn first_name<B: Below>(
    below: B,
    arena: &mut Arena,
    depth: Depth,
    text: Text<'_>,
    at: u32,
) -> Result<Part>
    requires can { B.can below }
    requires room { depth.levels < B.most below }
    ensures grown { Grown (view arena.old) (view arena.new) }
    ensures reads { Reads text.entry at result (view arena.old) (view arena.new)
        (λ s. first_name_at (cread depth.levels) depth.conversion s) }
{
    let name = unqualified_name(below, arena, depth, text, at)?;
    let prefix = add_prefix_of_one(arena, text, Tag::PrefixUnqualified, name)?;
    let (_, end) = optional_word(text, prefix.end, b"M");
    Ok(Part { id: prefix.id, end })
}

/// A turn behind the prefix so far. Where none begins, no byte is read, and the prefix stays.
///
/// ```text
/// <prefix> ::= <prefix> <unqualified-name> | <template-prefix> <template-args> | <prefix> <data-member-prefix>
///          ::= <template-param> | <decltype> | <substitution>
/// ```
#[tactic(auto, using(demangle_cells::proofs::Grows::grows, demangle_forms::proofs::NameLaws::prefix_turn_row_is), unfolding(demangle_forms::specs::NameForms::prefix_turn_row))]
pub fn prefix_turn<B: Below>(
    below: B,
    arena: &mut Arena,
    depth: Depth,
    text: Text<'_>,
    at: u32,
    prefix: u32,
) -> Result<Part>
    requires can { B.can below }
    requires room { depth.levels ≤ B.most below }
    ensures grown { Grown (view arena.old) (view arena.new) }
    ensures reads { ReadsBehind text.entry at prefix result (view arena.old) (view arena.new)
        (λ s acc. cread depth.levels Row.prefix_turn depth.conversion s acc) }
{
    let depth = depth.enter()?;
    match next_turn(arena, prefix, text, at)? {
        Turn::Substitution => substitution(arena, depth, text, at),
        Turn::Parameter => {
            let param = template_param(arena, depth, text, at)?;
            add_prefix_of_one(arena, text, Tag::PrefixTemplateParam, param)
        }
        Turn::Decltype => turn_decltype(below, arena, depth, text, at, prefix),
        Turn::Template => {
            let args = template_args(below, arena, depth, text, at)?;
            add_prefix_of_two(arena, text, Tag::PrefixTemplate, prefix, args)
        }
        Turn::Name => turn_name(below, arena, depth, text, at, prefix),
        Turn::None => Ok(Part {
            id: prefix,
            end: at,
        }),
    }
}

/// `decltype` in place of the prefix, or the name of a destructor behind the prefix.
#[tactic(auto, using(demangle_cells::proofs::Grows::grows), unfolding(demangle_forms::specs::NameForms::turn_decltype_at))]
fn turn_decltype<B: Below>(
    below: B,
    arena: &mut Arena,
    depth: Depth,
    text: Text<'_>,
    at: u32,
    prefix: u32,
) -> Result<Part>
    requires can { B.can below }
    requires room { depth.levels < B.most below }
    ensures grown { Grown (view arena.old) (view arena.new) }
    ensures reads { ReadsBehind text.entry at prefix result (view arena.old) (view arena.new)
        (λ s acc. turn_decltype_at (cread depth.levels) depth.conversion s acc) }
{
    if let Ok(ty) = passed(decltype(below, arena, depth, text, at))? {
        return add_prefix_of_one(arena, text, Tag::PrefixDecltype, ty);
    }
    let name = unqualified_name(below, arena, depth, text, at)?;
    add_prefix_of_two(arena, text, Tag::PrefixNested, prefix, name)
}

/// A name behind the prefix. With an `M` behind it, it is the name of a data member, and is kept without its tags.
#[tactic(auto, using(demangle_cells::proofs::Grows::grows, demangle_cells::proofs::Grows::cuts), unfolding(demangle_forms::specs::NameForms::turn_name_at))]
fn turn_name<B: Below>(
    below: B,
    arena: &mut Arena,
    depth: Depth,
    text: Text<'_>,
    at: u32,
    prefix: u32,
) -> Result<Part>
    requires can { B.can below }
    requires room { depth.levels < B.most below }
    ensures grown { Grown (view arena.old) (view arena.new) }
    ensures reads { ReadsBehind text.entry at prefix result (view arena.old) (view arena.new)
        (λ s acc. close (turn_name_at (cread depth.levels) depth.conversion s acc)) }
{
    let mark = arena.mark();
    let name = unqualified_name(below, arena, depth, text, at)?;
    if next_is(text, name.end, b'M') {
        let answer = member_prefix(arena, prefix, name.id);
        let member = restored(arena, mark, answer)?;
        let member = Part {
            id: member,
            end: name.end,
        };
        let prefix = add_prefix_of_two(arena, text, Tag::PrefixDataMember, prefix, member)?;
        let answer = word(text, prefix.end, b"M");
        let end = restored(arena, mark, answer)?;
        return Ok(Part { id: prefix.id, end });
    }
    add_prefix_of_two(arena, text, Tag::PrefixNested, prefix, name)
}
