//! The types of functions, ABI section 5.1.5.3.

ghost use Rattle.std.specs.Prelude.{◌≤◌, ◌<◌};
ghost use Rattle.demangle_grammar.specs.Rule.{Row};
ghost use Rattle.demangle_grammar.specs.Code.{cread, optional_at, some_at};
ghost use Rattle.demangle_cells.specs.Reads.{ReadsPart, ReadsRow};
ghost use Rattle.demangle_cells.specs.View.{Grown, view};

use crate::lists::some_types;
use crate::made::{FunctionParts, function_of, made_one, restored};
use demangle_cells::{Arena, Cell, Depth, ListOf, Part, Tag, Text, flag_id};
use demangle_read_below::Below;
use demangle_read_rows::{cv_qualifiers, optional, optional_ref_qualifier, optional_word, word};
use demangle_text::Result;

/// What a function's type says about exceptions, ABI section 5.1.5.3.
///
/// ```text
/// <exception-spec> ::= Do | DO <expression> E
/// ```
#[tactic(auto, using(demangle_cells::proofs::Grows::grows, demangle_cells::proofs::Grows::cuts), unfolding(demangle_grammar::specs::Code::cread, demangle_grammar::specs::Rows::rule))]
pub fn exception_spec<B: Below>(
    below: B,
    arena: &mut Arena,
    depth: Depth,
    text: Text<'_>,
    at: u32,
) -> Result<Part>
    requires can { B.can below }
    requires room { depth.levels ≤ B.most below }
    ensures grown { Grown (view arena.old) (view arena.new) }
    ensures reads { ReadsRow Row.exception_spec depth.levels depth.conversion text.entry at result
        (view arena.old) (view arena.new) }
{
    let depth = depth.enter()?;
    if let Ok(end) = word(text, at, b"Do") {
        let id = arena.push(Cell::Empty(Tag::ExceptionSpecNoExcept))?;
        return Ok(Part { id, end });
    }
    let rest = word(text, at, b"DO")?;
    let mark = arena.mark();
    let value = below.expression(arena, depth, text, rest)?;
    let end = restored(arena, mark, word(text, value.end, b"E"))?;
    made_one(
        arena,
        Tag::ExceptionSpecComputed,
        Part { id: value.id, end },
    )
}

/// What a function's type says about exceptions, or nothing.
#[tactic(auto, using(demangle_cells::proofs::Grows::grows), unfolding(demangle_grammar::specs::Code::optional_at))]
fn optional_exception_spec<B: Below>(
    below: B,
    arena: &mut Arena,
    depth: Depth,
    text: Text<'_>,
    at: u32,
) -> Result<Part>
    requires can { B.can below }
    requires room { depth.levels < B.most below }
    ensures grown { Grown (view arena.old) (view arena.new) }
    ensures reads { ReadsPart text.entry at result (view arena.old) (view arena.new)
        (λ s. optional_at (cread depth.levels) depth.conversion Row.exception_spec s) }
{
    let answer = exception_spec(below, arena, depth, text, at);
    optional(arena, answer, at)
}

/// The type of a function, ABI section 5.1.5.3. `Dx` says that a transaction may call it, `Y` that it has C linkage.
///
/// ```text
/// <function-type> ::= [<CV-qualifiers>] [<exception-spec>] [Dx] F [Y] <bare-function-type> [<ref-qualifier>] E
/// ```
#[tactic(auto, using(crate::proofs::RowsRead::function_type_is, demangle_cells::proofs::Grows::grows, demangle_cells::proofs::Grows::cuts), unfolding(crate::specs::RowsRead::row_read, demangle_grammar::specs::Rows::rule))]
pub fn function_type<B: Below>(
    below: B,
    arena: &mut Arena,
    depth: Depth,
    text: Text<'_>,
    at: u32,
) -> Result<Part>
    requires can { B.can below }
    requires room { depth.levels ≤ B.most below }
    ensures grown { Grown (view arena.old) (view arena.new) }
    ensures reads { ReadsRow Row.function_type depth.levels depth.conversion text.entry at result
        (view arena.old) (view arena.new) }
{
    let depth = depth.enter()?;
    let mark = arena.mark();
    let qualifiers = cv_qualifiers(arena, depth, text, at)?;
    let spec = optional_exception_spec(below, arena, depth, text, qualifiers.end)?;
    let (safe, rest) = optional_word(text, spec.end, b"Dx");
    let rest = restored(arena, mark, word(text, rest, b"F"))?;
    let (linked, rest) = optional_word(text, rest, b"Y");
    let answer = bare_function_type(below, arena, depth, text, rest);
    let bare = restored(arena, mark, answer)?;
    let answer = optional_ref_qualifier(arena, depth, text, bare.end);
    let reference = restored(arena, mark, answer)?;
    let end = restored(arena, mark, word(text, reference.end, b"E"))?;
    let parts = FunctionParts {
        qualifiers: qualifiers.id,
        spec: spec.id,
        safe: flag_id(safe),
        linked: flag_id(linked),
        bare: bare.id,
        reference: reference.id,
    };
    function_of(arena, parts, end)
}

/// The types of a function: that of its result, where it is written, and those of its parameters. ABI section 5.1.5.3.
///
/// ```text
/// <bare-function-type> ::= <signature type>+
/// ```
#[tactic(auto, using(crate::proofs::RowsRead::bare_function_type_is, demangle_cells::proofs::Grows::grows), unfolding(crate::specs::RowsRead::row_read, demangle_grammar::specs::Rows::rule))]
pub fn bare_function_type<B: Below>(
    below: B,
    arena: &mut Arena,
    depth: Depth,
    text: Text<'_>,
    at: u32,
) -> Result<Part>
    requires can { B.can below }
    requires room { depth.levels ≤ B.most below }
    ensures grown { Grown (view arena.old) (view arena.new) }
    ensures reads { ReadsRow Row.bare_function_type depth.levels depth.conversion text.entry at result
        (view arena.old) (view arena.new) }
{
    let depth = depth.enter()?;
    let types = type_list(below, arena, depth, text, at)?;
    made_one(arena, Tag::BareFunctionType, types)
}

/// One type or more.
#[tactic(auto, using(demangle_cells::proofs::Grows::grows, demangle_cells::proofs::Waits::gathers, crate::proofs::Waits::waits))]
pub fn type_list<B: Below>(
    below: B,
    arena: &mut Arena,
    depth: Depth,
    text: Text<'_>,
    at: u32,
) -> Result<Part>
    requires can { B.can below }
    requires room { depth.levels < B.most below }
    ensures grown { Grown (view arena.old) (view arena.new) }
    ensures reads { ReadsPart text.entry at result (view arena.old) (view arena.new)
        (λ s. some_at (cread depth.levels) depth.conversion Row.type_handle Row.type_handle s) }
{
    let from = arena.waiting();
    match some_types(below, arena, depth, text, at) {
        Ok(end) => arena.gathered(from, ListOf::Node(Tag::Several), Ok(end)),
        Err(error) => arena.gathered(from, ListOf::Node(Tag::Several), Err(error)),
    }
}
