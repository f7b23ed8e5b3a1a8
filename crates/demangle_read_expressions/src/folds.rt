//! Folds over parameter packs, ABI section 5.1.6.

ghost use Rattle.std.specs.Prelude.{◌≡◌, ◌≤◌, ◌<◌, ℕ};
ghost use Rattle.demangle_text.specs.Kind.{Gives};
ghost use Rattle.demangle_core.specs.Core.{Core};
ghost use Rattle.demangle_grammar.specs.Rule.{Row};
ghost use Rattle.demangle_grammar.specs.Code.{close, cread};
ghost use Rattle.demangle_forms.specs.ExpressionForms.{fold_next, fold_operator_at, fold_word_at, folded_at};
ghost use Rattle.demangle_cells.specs.Reads.{ReadsPart, ReadsRow, spot_at};
ghost use Rattle.demangle_cells.specs.View.{Grown, table, view};
ghost use Rattle.demangle_read_expressions.specs.Folds.{fold_of};
ghost use Rattle.demangle_read_expressions.specs.Operators.{ReadsBehind};

use crate::operators::simple_operator;
use demangle_cells::{Arena, Cell, Depth, Part, Tag, Text, WordTable, word_id};
use demangle_read_below::Below;
use demangle_read_rows::{behind, word};
use demangle_read_types::restored;
use demangle_text::{Error, Result};

/// How many expressions are folded. The tag is that of the fold's node.
#[derive(Clone, Copy)]
pub enum Fold {
    /// `fl` or `fr`
    One(Tag),
    /// `fL` or `fR`
    Two(Tag),
}

/// Whether a fold begins here: `fl`, `fr`, `fR`, or `fL` and no digit, which would be that of a function parameter.
#[tactic(auto, unfolding(demangle_forms::specs::ExpressionForms::fold_next))]
pub fn begins_fold(text: Text<'_>, at: u32) -> bool
    ensures { result ≡ fold_next (spot_at text.entry at).left }
{
    match text.rest(at) {
        [b'f', b'l' | b'r' | b'R', ..] => true,
        [b'f', b'L', next, ..] => !next.is_ascii_digit(),
        _ => false,
    }
}

/// Which fold it is, by the byte behind `f`. `UnexpectedText` where it is none of the four.
#[tactic(auto, using(demangle_read_rows::proofs::Places::places), unfolding(demangle_forms::specs::ExpressionForms::fold_word_at, demangle_text::specs::Word::word_at))]
fn fold_word(text: Text<'_>, at: u32) -> Result<(Fold, u32)>
    ensures { Gives (λ x. (fold_of x.0, spot_at text.entry x.1)) result (fold_word_at (spot_at text.entry at)) }
{
    let fold = match text.rest(at) {
        [b'l', ..] => Fold::One(Tag::FoldExprUnaryLeft),
        [b'r', ..] => Fold::One(Tag::FoldExprUnaryRight),
        [b'L', ..] => Fold::Two(Tag::FoldExprBinaryLeft),
        [b'R', ..] => Fold::Two(Tag::FoldExprBinaryRight),
        _ => return Err(Error::UnexpectedText),
    };
    Ok((fold, behind(text, at, 1)))
}

/// The operator of a fold, which takes two operands. `UnexpectedText` where it takes another number.
#[tactic(auto, using(demangle_cells::proofs::Grows::grows), unfolding(demangle_forms::specs::ExpressionForms::fold_operator_at))]
fn fold_operator(arena: &mut Arena, depth: Depth, text: Text<'_>, at: u32) -> Result<Part>
    ensures grown { Grown (view arena.old) (view arena.new) }
    ensures reads { ReadsPart text.entry at result (view arena.old) (view arena.new)
        (λ s. fold_operator_at (cread depth.levels) depth.conversion s) }
    ensures table { (F : ℕ → Core) → table F (view arena.new) ≡ table F (view arena.old) }
{
    let operator = simple_operator(depth, text, at)?;
    if operator.count == 2 {
        return Ok(Part {
            id: word_id(WordTable::Operators, operator.word),
            end: operator.end,
        });
    }
    Err(Error::UnexpectedText)
}

/// A fold, ABI section 5.1.6.
///
/// ```text
/// <fold-expr> ::= fl <operator> <expression> | fr <operator> <expression>
///             ::= fL <operator> <expression> <expression> | fR <operator> <expression> <expression>
/// ```
#[tactic(auto, using(demangle_forms::proofs::ExpressionLaws::fold_expr_row_is, demangle_cells::proofs::Grows::grows), unfolding(demangle_forms::specs::ExpressionForms::fold_expr_row))]
pub fn fold_expr<B: Below>(
    below: B,
    arena: &mut Arena,
    depth: Depth,
    text: Text<'_>,
    at: u32,
) -> Result<Part>
    requires can { B.can below }
    requires room { depth.levels ≤ B.most below }
    ensures grown { Grown (view arena.old) (view arena.new) }
    ensures reads { ReadsRow Row.fold_expr depth.levels depth.conversion text.entry at result
        (view arena.old) (view arena.new) }
{
    let depth = depth.enter()?;
    let rest = word(text, at, b"f")?;
    let (fold, rest) = fold_word(text, rest)?;
    let operator = fold_operator(arena, depth, text, rest)?;
    folded(below, arena, depth, text, fold, operator)
}

/// What is folded, behind the operator.
#[tactic(auto, using(demangle_cells::proofs::Grows::grows, demangle_cells::proofs::Grows::cuts), unfolding(demangle_forms::specs::ExpressionForms::folded_at))]
fn folded<B: Below>(
    below: B,
    arena: &mut Arena,
    depth: Depth,
    text: Text<'_>,
    fold: Fold,
    operator: Part,
) -> Result<Part>
    requires can { B.can below }
    requires room { depth.levels < B.most below }
    ensures grown { Grown (view arena.old) (view arena.new) }
    ensures reads { ReadsBehind text.entry operator.end result (view arena.old) (view arena.new)
        (λ F s. close (folded_at (fold_of fold) (F operator.id) (cread depth.levels) depth.conversion s)) }
{
    let mark = arena.mark();
    let first = below.expression(arena, depth, text, operator.end)?;
    match fold {
        Fold::One(tag) => {
            let id = arena.push(Cell::Two(tag, operator.id, first.id))?;
            Ok(Part { id, end: first.end })
        }
        Fold::Two(tag) => {
            let answer = below.expression(arena, depth, text, first.end);
            let second = restored(arena, mark, answer)?;
            let id = arena.push(Cell::Three(tag, operator.id, first.id, second.id))?;
            Ok(Part {
                id,
                end: second.end,
            })
        }
    }
}
