//! Operators and their operands, which count no level of their own.

ghost use Rattle.std.specs.Prelude.{◌<◌};
ghost use Rattle.demangle_grammar.specs.Code.{close, cread};
ghost use Rattle.demangle_forms.specs.ExpressionForms.{binary_at, operands_at, operators_at, ternary_at, unary_at};
ghost use Rattle.demangle_cells.specs.Reads.{Reads};
ghost use Rattle.demangle_cells.specs.View.{Grown, view};
ghost use Rattle.demangle_read_expressions.specs.Operators.{ReadsBehind, ReadsOperands};

use crate::four::four;
use crate::operators::{Operator, counted_operator};
use demangle_cells::{Arena, Cell, Depth, Part, Tag, Text};
use demangle_read_below::Below;
use demangle_read_types::{made_two, restored};
use demangle_text::{Error, Result};

/// An operator with its operands: the last alternative of an expression, ABI section 5.1.6.
///
/// ```text
/// <expression> ::= <unary operator-name> <expression>
///              ::= <binary operator-name> <expression> <expression>
///              ::= <ternary operator-name> <expression> <expression> <expression>
/// ```
#[tactic(auto, using(demangle_cells::proofs::Grows::grows, demangle_cells::proofs::Grows::cuts), unfolding(demangle_forms::specs::ExpressionForms::operators_at))]
pub fn operators<B: Below>(
    below: B,
    arena: &mut Arena,
    depth: Depth,
    text: Text<'_>,
    at: u32,
) -> Result<Part>
    requires can { B.can below }
    requires room { depth.levels < B.most below }
    ensures grown { Grown (view arena.old) (view arena.new) }
    ensures reads { Reads text.entry at result (view arena.old) (view arena.new)
        (λ s. operators_at (cread depth.levels) depth.conversion s) }
{
    let mark = arena.mark();
    let operator = counted_operator(below, arena, depth, text, at)?;
    let answer = operands(below, arena, depth, text, operator);
    restored(arena, mark, answer)
}

/// As many operands as the operator takes. `UnexpectedText` where it takes none or more than three.
#[tactic(auto, unfolding(demangle_forms::specs::ExpressionForms::operands_at))]
fn operands<B: Below>(
    below: B,
    arena: &mut Arena,
    depth: Depth,
    text: Text<'_>,
    operator: Operator,
) -> Result<Part>
    requires can { B.can below }
    requires room { depth.levels < B.most below }
    ensures grown { Grown (view arena.old) (view arena.new) }
    ensures reads { ReadsOperands text.entry operator result (view arena.old) (view arena.new)
        (λ x s. close (operands_at x (cread depth.levels) depth.conversion s)) }
{
    match operator.count {
        1 => unary(below, arena, depth, text, operator),
        2 => binary(below, arena, depth, text, operator),
        3 => ternary(below, arena, depth, text, operator),
        _ => Err(Error::UnexpectedText),
    }
}

/// One operand.
#[tactic(auto, using(demangle_cells::proofs::Grows::grows), unfolding(demangle_forms::specs::ExpressionForms::unary_at))]
fn unary<B: Below>(
    below: B,
    arena: &mut Arena,
    depth: Depth,
    text: Text<'_>,
    operator: Operator,
) -> Result<Part>
    requires can { B.can below }
    requires room { depth.levels < B.most below }
    ensures grown { Grown (view arena.old) (view arena.new) }
    ensures reads { ReadsBehind text.entry operator.end result (view arena.old) (view arena.new)
        (λ F s. close (unary_at (F operator.id) (cread depth.levels) depth.conversion s)) }
{
    let operand = below.expression(arena, depth, text, operator.end)?;
    made_two(arena, Tag::ExpressionUnary, operator.id, operand)
}

/// Two operands.
#[tactic(auto, using(demangle_cells::proofs::Grows::grows, demangle_cells::proofs::Grows::cuts), unfolding(demangle_forms::specs::ExpressionForms::binary_at))]
fn binary<B: Below>(
    below: B,
    arena: &mut Arena,
    depth: Depth,
    text: Text<'_>,
    operator: Operator,
) -> Result<Part>
    requires can { B.can below }
    requires room { depth.levels < B.most below }
    ensures grown { Grown (view arena.old) (view arena.new) }
    ensures reads { ReadsBehind text.entry operator.end result (view arena.old) (view arena.new)
        (λ F s. close (binary_at (F operator.id) (cread depth.levels) depth.conversion s)) }
{
    let mark = arena.mark();
    let left = below.expression(arena, depth, text, operator.end)?;
    let answer = below.expression(arena, depth, text, left.end);
    let right = restored(arena, mark, answer)?;
    let cell = Cell::Three(Tag::ExpressionBinary, operator.id, left.id, right.id);
    let id = arena.push(cell)?;
    Ok(Part { id, end: right.end })
}

/// Three operands.
#[tactic(auto, using(demangle_cells::proofs::Grows::grows, demangle_cells::proofs::Grows::cuts), unfolding(demangle_forms::specs::ExpressionForms::ternary_at))]
fn ternary<B: Below>(
    below: B,
    arena: &mut Arena,
    depth: Depth,
    text: Text<'_>,
    operator: Operator,
) -> Result<Part>
    requires can { B.can below }
    requires room { depth.levels < B.most below }
    ensures grown { Grown (view arena.old) (view arena.new) }
    ensures reads { ReadsBehind text.entry operator.end result (view arena.old) (view arena.new)
        (λ F s. close (ternary_at (F operator.id) (cread depth.levels) depth.conversion s)) }
{
    let mark = arena.mark();
    let first = below.expression(arena, depth, text, operator.end)?;
    let answer = below.expression(arena, depth, text, first.end);
    let second = restored(arena, mark, answer)?;
    let answer = below.expression(arena, depth, text, second.end);
    let third = restored(arena, mark, answer)?;
    let id = four(
        arena,
        Tag::ExpressionTernary,
        operator.id,
        first.id,
        second.id,
        third.id,
    )?;
    Ok(Part { id, end: third.end })
}
