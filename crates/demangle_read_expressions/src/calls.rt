//! Calls, conversions, lists in braces, and the arguments behind `new`.

ghost use Rattle.std.specs.Prelude.{◌≤◌, ◌<◌};
ghost use Rattle.demangle_grammar.specs.Rule.{Row};
ghost use Rattle.demangle_grammar.specs.Code.{close, cread};
ghost use Rattle.demangle_forms.specs.ExpressionForms.{braces_at, call_at, conversion_at, list_at};
ghost use Rattle.demangle_cells.specs.Reads.{Reads, ReadsRow};
ghost use Rattle.demangle_cells.specs.View.{Grown, view};

use crate::lists::expression_list;
use demangle_cells::{Arena, Depth, Part, Tag, Text};
use demangle_read_below::Below;
use demangle_read_rows::word;
use demangle_read_types::{made_one, made_two, restored};
use demangle_text::Result;

/// A call behind its word, ABI section 5.1.6.
///
/// ```text
/// <expression> ::= cl <expression>+ E
/// ```
#[tactic(auto, using(demangle_cells::proofs::Grows::grows, demangle_cells::proofs::Grows::cuts), unfolding(demangle_forms::specs::ExpressionForms::call_at))]
pub fn call<B: Below>(
    below: B,
    arena: &mut Arena,
    depth: Depth,
    text: Text<'_>,
    at: u32,
) -> Result<Part>
    requires can { B.can below }
    requires room { depth.levels < B.most below }
    ensures grown { Grown (view arena.old) (view arena.new) }
    ensures reads { Reads text.entry at result (view arena.old) (view arena.new)
        (λ s. close (call_at (cread depth.levels) depth.conversion s)) }
{
    let mark = arena.mark();
    let callee = below.expression(arena, depth, text, at)?;
    let answer = expression_list(below, arena, depth, text, callee.end);
    let arguments = restored(arena, mark, answer)?;
    let end = restored(arena, mark, word(text, arguments.end, b"E"))?;
    let arguments = Part {
        id: arguments.id,
        end,
    };
    made_two(arena, Tag::ExpressionCall, callee.id, arguments)
}

/// A conversion behind its word, ABI section 5.1.6: of one value, or of none or several in parentheses.
///
/// ```text
/// <expression> ::= cv <type> <expression> | cv <type> _ <expression>* E
/// ```
#[tactic(auto, using(demangle_cells::proofs::Grows::grows, demangle_cells::proofs::Grows::cuts), unfolding(demangle_forms::specs::ExpressionForms::conversion_at))]
pub fn conversion<B: Below>(
    below: B,
    arena: &mut Arena,
    depth: Depth,
    text: Text<'_>,
    at: u32,
) -> Result<Part>
    requires can { B.can below }
    requires room { depth.levels < B.most below }
    ensures grown { Grown (view arena.old) (view arena.new) }
    ensures reads { Reads text.entry at result (view arena.old) (view arena.new)
        (λ s. close (conversion_at (cread depth.levels) depth.conversion s)) }
{
    let mark = arena.mark();
    let ty = below.type_handle(arena, depth, text, at)?;
    if let Ok(rest) = word(text, ty.end, b"_") {
        let answer = expression_list(below, arena, depth, text, rest);
        let values = restored(arena, mark, answer)?;
        let end = restored(arena, mark, word(text, values.end, b"E"))?;
        let values = Part { id: values.id, end };
        return made_two(arena, Tag::ExpressionConversionMany, ty.id, values);
    }
    let answer = below.expression(arena, depth, text, ty.end);
    let value = restored(arena, mark, answer)?;
    made_two(arena, Tag::ExpressionConversionOne, ty.id, value)
}

/// A type and a list in braces behind their word, ABI section 5.1.6.
///
/// ```text
/// <expression> ::= tl <type> <expression>* E
/// ```
#[tactic(auto, using(demangle_cells::proofs::Grows::grows, demangle_cells::proofs::Grows::cuts), unfolding(demangle_forms::specs::ExpressionForms::braces_at))]
pub fn braces<B: Below>(
    below: B,
    arena: &mut Arena,
    depth: Depth,
    text: Text<'_>,
    at: u32,
) -> Result<Part>
    requires can { B.can below }
    requires room { depth.levels < B.most below }
    ensures grown { Grown (view arena.old) (view arena.new) }
    ensures reads { Reads text.entry at result (view arena.old) (view arena.new)
        (λ s. close (braces_at (cread depth.levels) depth.conversion s)) }
{
    let mark = arena.mark();
    let ty = below.type_handle(arena, depth, text, at)?;
    let answer = expression_list(below, arena, depth, text, ty.end);
    let values = restored(arena, mark, answer)?;
    let end = restored(arena, mark, word(text, values.end, b"E"))?;
    let values = Part { id: values.id, end };
    made_two(arena, Tag::ExpressionConversionBraced, ty.id, values)
}

/// A list in braces behind its word, ABI section 5.1.6.
///
/// ```text
/// <expression> ::= il <expression>* E
/// ```
#[tactic(auto, using(demangle_cells::proofs::Grows::grows, demangle_cells::proofs::Grows::cuts), unfolding(demangle_forms::specs::ExpressionForms::list_at))]
pub fn list<B: Below>(
    below: B,
    arena: &mut Arena,
    depth: Depth,
    text: Text<'_>,
    at: u32,
) -> Result<Part>
    requires can { B.can below }
    requires room { depth.levels < B.most below }
    ensures grown { Grown (view arena.old) (view arena.new) }
    ensures reads { Reads text.entry at result (view arena.old) (view arena.new)
        (λ s. close (list_at (cread depth.levels) depth.conversion s)) }
{
    let mark = arena.mark();
    let values = expression_list(below, arena, depth, text, at)?;
    let end = restored(arena, mark, word(text, values.end, b"E"))?;
    let values = Part { id: values.id, end };
    made_one(arena, Tag::ExpressionBracedInitList, values)
}

/// The arguments in parentheses behind `new`, ABI section 5.1.6.
///
/// ```text
/// <initializer> ::= pi <expression>* E
/// ```
#[tactic(auto, using(crate::proofs::RowsRead::initializer_is, demangle_cells::proofs::Grows::grows, demangle_cells::proofs::Grows::cuts), unfolding(demangle_read_types::specs::RowsRead::row_read, demangle_grammar::specs::Rows::rule))]
pub fn initializer<B: Below>(
    below: B,
    arena: &mut Arena,
    depth: Depth,
    text: Text<'_>,
    at: u32,
) -> Result<Part>
    requires can { B.can below }
    requires room { depth.levels ≤ B.most below }
    ensures grown { Grown (view arena.old) (view arena.new) }
    ensures reads { ReadsRow Row.initializer depth.levels depth.conversion text.entry at result
        (view arena.old) (view arena.new) }
{
    let depth = depth.enter()?;
    let mark = arena.mark();
    let rest = word(text, at, b"pi")?;
    let values = expression_list(below, arena, depth, text, rest)?;
    let end = restored(arena, mark, word(text, values.end, b"E"))?;
    made_one(arena, Tag::Initializer, Part { id: values.id, end })
}
