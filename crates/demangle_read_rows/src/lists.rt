//! Rows with a list.

ghost use Rattle.std.specs.Prelude.{◌≡◌, ◌<◌, ◌^◌, ℕ, [], IfOk};
ghost use Rattle.demangle_text.specs.Kind.{Gives};
ghost use Rattle.demangle_core.specs.Core.{Core};
ghost use Rattle.demangle_grammar.specs.Code.{all_at, cread};
ghost use Rattle.demangle_grammar.specs.Rule.{Row};
ghost use Rattle.demangle_cells.specs.View.{view, table, Grown, Waited};
ghost use Rattle.demangle_cells.specs.Reads.{spot_at, ListsPart, ReadsPart, ReadsRow};
ghost use Rattle.demangle_read_rows.specs.Lists.{dotted_number, numbers_at};

use crate::bytes::{unsigned, word};
use crate::names::{abi_tag, clone_type_identifier};
use crate::next::next_is;
use demangle_cells::{Arena, Cell, Depth, ListOf, Part, Tag, Text, no_tags_id, passed};
use demangle_text::{Error, Result};

/// As many ABI tags as can be read: their trees wait.
#[tactic(auto, using(crate::proofs::RowLists::row_lists))]
fn waiting_tags(arena: &mut Arena, depth: Depth, text: Text<'_>, at: u32) -> Result<u32>
    ensures waited { Waited (view arena.old) (view arena.new) }
    ensures reads { ListsPart text.entry at result (view arena.old) (view arena.new)
        (λ s. all_at (cread depth.levels) depth.conversion Row.abi_tag s) }
    ensures table { (F : ℕ → Core) → table F (view arena.new) ≡ table F (view arena.old) }
{
    let mut end = at;
    loop {
        let answer = abi_tag(arena, depth, text, end);
        match passed(answer) {
            Ok(Ok(tag)) => {
                if tag.end <= end {
                    return Err(Error::OutOfMemory);
                }
                arena.wait(tag.id)?;
                end = tag.end;
            }
            Ok(Err(_)) => return Ok(end),
            Err(error) => return Err(error),
        }
    }
}

/// The ABI tags, of which there may be none. ABI section 5.1.2. What can't be read as a tag ends them.
///
/// ```text
/// <abi-tags> ::= <abi-tag>*
/// ```
#[inline(always)]
#[tactic(auto, using(demangle_cells::proofs::Grows::grows))]
pub fn abi_tags(arena: &mut Arena, depth: Depth, text: Text<'_>, at: u32) -> Result<Part>
    ensures grown { Grown (view arena.old) (view arena.new) }
    ensures reads { ReadsRow Row.abi_tags depth.levels depth.conversion text.entry at result
        (view arena.old) (view arena.new) }
    ensures table { (F : ℕ → Core) → table F (view arena.new) ≡ table F (view arena.old) }
{
    if depth.levels > 1 && !next_is(text, at, b'B') {
        return Ok(Part {
            id: no_tags_id(),
            end: at,
        });
    }
    all_tags(arena, depth, text, at)
}

/// The same, where there may be one.
#[tactic(auto, using(demangle_cells::proofs::Grows::grows, crate::proofs::RowLists::tags_are), unfolding(crate::specs::Lists::tags_at))]
fn all_tags(arena: &mut Arena, depth: Depth, text: Text<'_>, at: u32) -> Result<Part>
    ensures grown { Grown (view arena.old) (view arena.new) }
    ensures reads { ReadsRow Row.abi_tags depth.levels depth.conversion text.entry at result
        (view arena.old) (view arena.new) }
    ensures table { (F : ℕ → Core) → table F (view arena.new) ≡ table F (view arena.old) }
{
    let depth = depth.enter()?;
    let tags = gathered_tags(arena, depth, text, at)?;
    let id = arena.push(Cell::One(Tag::AbiTags, tags.id))?;
    Ok(Part { id, end: tags.end })
}

/// The list of the ABI tags.
#[tactic(auto, using(demangle_cells::proofs::Waits::gathers))]
fn gathered_tags(arena: &mut Arena, depth: Depth, text: Text<'_>, at: u32) -> Result<Part>
    ensures grown { Grown (view arena.old) (view arena.new) }
    ensures reads { ReadsPart text.entry at result (view arena.old) (view arena.new)
        (λ s. all_at (cread depth.levels) depth.conversion Row.abi_tag s) }
    ensures table { (F : ℕ → Core) → table F (view arena.new) ≡ table F (view arena.old) }
{
    let from = arena.waiting();
    let answer = waiting_tags(arena, depth, text, at);
    arena.gathered(from, ListOf::Node(Tag::Several), answer)
}

/// A dot and a number.
#[tactic(auto, unfolding(crate::specs::Lists::dotted_number))]
fn dot_and_number(text: Text<'_>, at: u32) -> Result<(usize, u32)>
    ensures reads { Gives (λ x. (x.0, spot_at text.entry x.1)) result (dotted_number (spot_at text.entry at)) }
    ensures small { IfOk result (λ x. x.0 < 2 ^ 63) }
{
    let rest = word(text, at, b".")?;
    unsigned(text, rest, 10)
}

/// As many dots, each with a number behind it, as stand there: their trees wait.
#[tactic(auto, using(crate::proofs::DottedNumbers::further))]
fn waiting_numbers(arena: &mut Arena, text: Text<'_>, at: u32) -> Result<u32>
    ensures waited { Waited (view arena.old) (view arena.new) }
    ensures reads { ListsPart text.entry at result (view arena.old) (view arena.new) (λ s. numbers_at [] s) }
    ensures table { (F : ℕ → Core) → table F (view arena.new) ≡ table F (view arena.old) }
{
    let mut end = at;
    while let Ok((number, next)) = dot_and_number(text, end) {
        let id = arena.push(Cell::Number(number as isize))?;
        arena.wait(id)?;
        end = next;
    }
    Ok(end)
}

/// The list of these numbers.
#[tactic(auto, using(demangle_cells::proofs::Waits::gathers))]
fn gathered_numbers(arena: &mut Arena, text: Text<'_>, at: u32) -> Result<Part>
    ensures grown { Grown (view arena.old) (view arena.new) }
    ensures reads { ReadsPart text.entry at result (view arena.old) (view arena.new) (λ s. numbers_at [] s) }
    ensures table { (F : ℕ → Core) → table F (view arena.new) ≡ table F (view arena.old) }
{
    let from = arena.waiting();
    let answer = waiting_numbers(arena, text, at);
    arena.gathered(from, ListOf::Node(Tag::Several), answer)
}

/// The suffix of a clone. An addition of compilers.
///
/// ```text
/// <clone-suffix> ::= . <clone-type-identifier> {. <non-negative number>}*
/// ```
#[tactic(auto, using(demangle_cells::proofs::Grows::grows, crate::proofs::Suffixes::suffix_is), unfolding(crate::specs::Lists::suffix_at))]
pub fn clone_suffix(arena: &mut Arena, depth: Depth, text: Text<'_>, at: u32) -> Result<Part>
    ensures grown { Grown (view arena.old) (view arena.new) }
    ensures reads { ReadsRow Row.clone_suffix depth.levels depth.conversion text.entry at result
        (view arena.old) (view arena.new) }
    ensures table { (F : ℕ → Core) → table F (view arena.new) ≡ table F (view arena.old) }
{
    let depth = depth.enter()?;
    let rest = word(text, at, b".")?;
    let identifier = clone_type_identifier(arena, depth, text, rest)?;
    let numbers = gathered_numbers(arena, text, identifier.end)?;
    let id = arena.push(Cell::Two(Tag::CloneSuffix, identifier.id, numbers.id))?;
    Ok(Part {
        id,
        end: numbers.end,
    })
}
