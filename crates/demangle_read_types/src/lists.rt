//! Lists of rows, whose trees wait until the list is read.

ghost use Rattle.std.specs.Prelude.{◌≡◌, ◌≤◌, ◌<◌, true};
ghost use Rattle.demangle_text.specs.Kind.{ends, kind};
ghost use Rattle.demangle_grammar.specs.Rule.{Row};
ghost use Rattle.demangle_grammar.specs.Items.{these};
ghost use Rattle.demangle_grammar.specs.Reading.{next_is};
ghost use Rattle.demangle_grammar.specs.Code.{all_at, cread, some_at};
ghost use Rattle.demangle_cells.specs.Reads.{ListsPart, spot_at};
ghost use Rattle.demangle_cells.specs.View.{FitsMark, Waited, view};
ghost use Rattle.demangle_read_types.specs.Lists.{Lengthens, ReadsRest};

use demangle_cells::{Arena, Depth, Mark, Part, Text};
use demangle_read_below::Below;
use demangle_read_rows::next_is;
use demangle_text::{Error, Result};

/// As many levels as trying a row of these lists at an `E` may enter.
const ENDED: u32 = 10;

/// Whether an error ends the whole reading, so that no other alternative is tried.
fn ends_reading(error: Error) -> bool
    ensures { result ≡ ends (kind error) }
{
    !matches!(
        error,
        Error::UnexpectedEnd | Error::UnexpectedText | Error::BadBackReference | Error::Overflow
    )
}

/// One row more of a list, where it was read behind a place: it waits, and the list goes on there. Nothing where its
/// bytes can't be read, so that the list ends. For any other failure the components are cut back to the mark.
#[tactic(auto, using(demangle_cells::proofs::Waits::gathers))]
pub fn lengthened(
    arena: &mut Arena,
    mark: Mark,
    answer: Result<Part>,
    at: u32,
) -> Result<Option<u32>>
    requires fits { FitsMark (view arena.old) mark }
    ensures { Lengthens answer at mark result (view arena.old) (view arena.new) }
{
    match answer {
        Ok(part) => {
            if part.end <= at {
                return Err(Error::OutOfMemory);
            }
            arena.wait(part.id)?;
            Ok(Some(part.end))
        }
        Err(error) => {
            if !ends_reading(error) {
                return Ok(None);
            }
            arena.cut_back(mark);
            Err(error)
        }
    }
}

/// Whether an `E` is next, with which neither a type nor a template argument begins, and levels enough are left to say
/// so without trying one.
#[inline(always)]
fn ends_list(depth: Depth, text: Text<'_>, at: u32) -> bool
    ensures { result ≡ true → (10 ≤ depth.levels) × (next_is (these "E") (spot_at text.entry at).left ≡ true) }
{
    depth.levels >= ENDED && next_is(text, at, b'E')
}

/// As many types as can be read, behind those of the list that were read before.
#[tactic(auto, using(demangle_cells::proofs::Waits::waited_grown, crate::proofs::Waits::waited_marks))]
pub fn rest_of_types<B: Below>(
    below: B,
    arena: &mut Arena,
    depth: Depth,
    text: Text<'_>,
    at: u32,
) -> Result<u32>
    requires can { B.can below }
    requires room { depth.levels < B.most below }
    ensures waited { Waited (view arena.old) (view arena.new) }
    ensures reads { ReadsRest Row.type_handle depth.levels depth.conversion text.entry at result
        (view arena.old) (view arena.new) }
{
    let mark = arena.mark();
    let mut end = at;
    'rows: loop {
        if ends_list(depth, text, end) {
            return Ok(end);
        }
        let answer = below.type_handle(arena, depth, text, end);
        let more = match lengthened(arena, mark, answer, end) {
            Ok(more) => more,
            Err(error) => return Err(error),
        };
        match more {
            Some(next) => end = next,
            None => return Ok(end),
        }
    }
}

/// As many template arguments as can be read, behind those of the list that were read before.
#[tactic(auto, using(demangle_cells::proofs::Waits::waited_grown, crate::proofs::Waits::waited_marks))]
pub fn rest_of_arguments<B: Below>(
    below: B,
    arena: &mut Arena,
    depth: Depth,
    text: Text<'_>,
    at: u32,
) -> Result<u32>
    requires can { B.can below }
    requires room { depth.levels < B.most below }
    ensures waited { Waited (view arena.old) (view arena.new) }
    ensures reads { ReadsRest Row.template_arg depth.levels depth.conversion text.entry at result
        (view arena.old) (view arena.new) }
{
    let mark = arena.mark();
    let mut end = at;
    'rows: loop {
        if ends_list(depth, text, end) {
            return Ok(end);
        }
        let answer = below.template_arg(arena, depth, text, end);
        let more = match lengthened(arena, mark, answer, end) {
            Ok(more) => more,
            Err(error) => return Err(error),
        };
        match more {
            Some(next) => end = next,
            None => return Ok(end),
        }
    }
}

/// One or more types.
#[tactic(auto, using(demangle_cells::proofs::Grows::grows, crate::proofs::Waits::waits))]
pub fn some_types<B: Below>(
    below: B,
    arena: &mut Arena,
    depth: Depth,
    text: Text<'_>,
    at: u32,
) -> Result<u32>
    requires can { B.can below }
    requires room { depth.levels < B.most below }
    ensures waited { Waited (view arena.old) (view arena.new) }
    ensures reads { ListsPart text.entry at result (view arena.old) (view arena.new)
        (λ s. some_at (cread depth.levels) depth.conversion Row.type_handle Row.type_handle s) }
{
    let mark = arena.mark();
    let first = match below.type_handle(arena, depth, text, at) {
        Ok(first) => first,
        Err(error) => return Err(error),
    };
    arena.wait(first.id)?;
    match rest_of_types(below, arena, depth, text, first.end) {
        Ok(end) => Ok(end),
        Err(error) => {
            arena.cut_back(mark);
            Err(error)
        }
    }
}

/// One or more template arguments.
#[tactic(auto, using(demangle_cells::proofs::Grows::grows, crate::proofs::Waits::waits))]
pub fn some_arguments<B: Below>(
    below: B,
    arena: &mut Arena,
    depth: Depth,
    text: Text<'_>,
    at: u32,
) -> Result<u32>
    requires can { B.can below }
    requires room { depth.levels < B.most below }
    ensures waited { Waited (view arena.old) (view arena.new) }
    ensures reads { ListsPart text.entry at result (view arena.old) (view arena.new)
        (λ s. some_at (cread depth.levels) depth.conversion Row.template_arg Row.template_arg s) }
{
    let mark = arena.mark();
    let first = match below.template_arg(arena, depth, text, at) {
        Ok(first) => first,
        Err(error) => return Err(error),
    };
    arena.wait(first.id)?;
    match rest_of_arguments(below, arena, depth, text, first.end) {
        Ok(end) => Ok(end),
        Err(error) => {
            arena.cut_back(mark);
            Err(error)
        }
    }
}

/// Any number of template arguments.
pub fn all_arguments<B: Below>(
    below: B,
    arena: &mut Arena,
    depth: Depth,
    text: Text<'_>,
    at: u32,
) -> Result<u32>
    requires can { B.can below }
    requires room { depth.levels < B.most below }
    ensures waited { Waited (view arena.old) (view arena.new) }
    ensures reads { ListsPart text.entry at result (view arena.old) (view arena.new)
        (λ s. all_at (cread depth.levels) depth.conversion Row.template_arg s) }
{
    rest_of_arguments(below, arena, depth, text, at)
}
