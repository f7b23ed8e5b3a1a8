//! Lists of expressions, and of the scopes of an unresolved name.

ghost use Rattle.std.specs.Prelude.{◌<◌};
ghost use Rattle.demangle_grammar.specs.Rule.{Row};
ghost use Rattle.demangle_grammar.specs.Code.{all_at, cread, some_at};
ghost use Rattle.demangle_cells.specs.Reads.{ListsPart, ReadsPart};
ghost use Rattle.demangle_cells.specs.View.{Grown, Waited, view};
ghost use Rattle.demangle_read_types.specs.Lists.{ReadsRest};

use crate::unresolved_parts::unresolved_qualifier_level;
use demangle_cells::{Arena, Depth, ListOf, Part, Tag, Text};
use demangle_read_below::Below;
use demangle_read_types::lengthened;
use demangle_text::Result;

/// As many expressions as can be read, behind those of the list that were read before.
#[tactic(auto, using(demangle_cells::proofs::Waits::waited_grown, demangle_read_types::proofs::Waits::waited_marks))]
fn rest_of_expressions<B: Below>(
    below: B,
    arena: &mut Arena,
    depth: Depth,
    text: Text<'_>,
    at: u32,
) -> Result<u32>
    requires can { B.can below }
    requires room { depth.levels < B.most below }
    ensures waited { Waited (view arena.old) (view arena.new) }
    ensures reads { ReadsRest Row.expression depth.levels depth.conversion text.entry at result
        (view arena.old) (view arena.new) }
{
    let mark = arena.mark();
    let mut end = at;
    loop {
        let answer = below.expression(arena, depth, text, end);
        let more = match lengthened(arena, mark, answer, end) {
            Ok(more) => more,
            Err(error) => return Err(error),
        };
        match more {
            Some(next) => end = next,
            None => return Ok(end),
        }
    }
}

/// As many scopes as can be read, behind those of the list that were read before.
#[tactic(auto, using(demangle_cells::proofs::Waits::waited_grown, demangle_read_types::proofs::Waits::waited_marks))]
fn rest_of_scopes<B: Below>(
    below: B,
    arena: &mut Arena,
    depth: Depth,
    text: Text<'_>,
    at: u32,
) -> Result<u32>
    requires can { B.can below }
    requires room { depth.levels < B.most below }
    ensures waited { Waited (view arena.old) (view arena.new) }
    ensures reads { ReadsRest Row.unresolved_qualifier_level depth.levels depth.conversion text.entry at result
        (view arena.old) (view arena.new) }
{
    let mark = arena.mark();
    let mut end = at;
    loop {
        let answer = unresolved_qualifier_level(below, arena, depth, text, end);
        let more = match lengthened(arena, mark, answer, end) {
            Ok(more) => more,
            Err(error) => return Err(error),
        };
        match more {
            Some(next) => end = next,
            None => return Ok(end),
        }
    }
}

/// Any number of expressions, which wait.
fn all_expressions<B: Below>(
    below: B,
    arena: &mut Arena,
    depth: Depth,
    text: Text<'_>,
    at: u32,
) -> Result<u32>
    requires can { B.can below }
    requires room { depth.levels < B.most below }
    ensures waited { Waited (view arena.old) (view arena.new) }
    ensures reads { ListsPart text.entry at result (view arena.old) (view arena.new)
        (λ s. all_at (cread depth.levels) depth.conversion Row.expression s) }
{
    rest_of_expressions(below, arena, depth, text, at)
}

/// One or more scopes, which wait.
#[tactic(auto, using(demangle_cells::proofs::Grows::grows, demangle_read_types::proofs::Waits::waits))]
fn some_scopes<B: Below>(
    below: B,
    arena: &mut Arena,
    depth: Depth,
    text: Text<'_>,
    at: u32,
) -> Result<u32>
    requires can { B.can below }
    requires room { depth.levels < B.most below }
    ensures waited { Waited (view arena.old) (view arena.new) }
    ensures reads { ListsPart text.entry at result (view arena.old) (view arena.new)
        (λ s. some_at (cread depth.levels) depth.conversion Row.unresolved_qualifier_level
        Row.unresolved_qualifier_level s) }
{
    let mark = arena.mark();
    let first = match unresolved_qualifier_level(below, arena, depth, text, at) {
        Ok(first) => first,
        Err(error) => return Err(error),
    };
    arena.wait(first.id)?;
    match rest_of_scopes(below, arena, depth, text, first.end) {
        Ok(end) => Ok(end),
        Err(error) => {
            arena.cut_back(mark);
            Err(error)
        }
    }
}

/// Any number of expressions, as one part.
#[tactic(auto, using(demangle_cells::proofs::Grows::grows, demangle_cells::proofs::Waits::gathers, demangle_read_types::proofs::Waits::waits))]
pub fn expression_list<B: Below>(
    below: B,
    arena: &mut Arena,
    depth: Depth,
    text: Text<'_>,
    at: u32,
) -> Result<Part>
    requires can { B.can below }
    requires room { depth.levels < B.most below }
    ensures grown { Grown (view arena.old) (view arena.new) }
    ensures reads { ReadsPart text.entry at result (view arena.old) (view arena.new)
        (λ s. all_at (cread depth.levels) depth.conversion Row.expression s) }
{
    let from = arena.waiting();
    match all_expressions(below, arena, depth, text, at) {
        Ok(end) => arena.gathered(from, ListOf::Node(Tag::Several), Ok(end)),
        Err(error) => arena.gathered(from, ListOf::Node(Tag::Several), Err(error)),
    }
}

/// One or more scopes, as one part.
#[tactic(auto, using(demangle_cells::proofs::Grows::grows, demangle_cells::proofs::Waits::gathers, demangle_read_types::proofs::Waits::waits))]
pub fn scope_list<B: Below>(
    below: B,
    arena: &mut Arena,
    depth: Depth,
    text: Text<'_>,
    at: u32,
) -> Result<Part>
    requires can { B.can below }
    requires room { depth.levels < B.most below }
    ensures grown { Grown (view arena.old) (view arena.new) }
    ensures reads { ReadsPart text.entry at result (view arena.old) (view arena.new)
        (λ s. some_at (cread depth.levels) depth.conversion Row.unresolved_qualifier_level
        Row.unresolved_qualifier_level s) }
{
    let from = arena.waiting();
    match some_scopes(below, arena, depth, text, at) {
        Ok(end) => arena.gathered(from, ListOf::Node(Tag::Several), Ok(end)),
        Err(error) => arena.gathered(from, ListOf::Node(Tag::Several), Err(error)),
    }
}
