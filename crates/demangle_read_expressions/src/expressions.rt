//! Expressions: a word at the front tells which of the alternatives stands there; without one they are tried in order.

ghost use Rattle.std.specs.Prelude.{◌≤◌, ◌<◌};
ghost use Rattle.demangle_grammar.specs.Rule.{Row};
ghost use Rattle.demangle_grammar.specs.Code.{close, cread};
ghost use Rattle.demangle_forms.specs.ExpressionForms.{expression_at, names_at, references_at, worded_at};
ghost use Rattle.demangle_cells.specs.Reads.{Reads, ReadsRow};
ghost use Rattle.demangle_cells.specs.View.{Grown, view};
ghost use Rattle.demangle_read_expressions.specs.ExpressionStarts.{literals_at, parameters_at};
ghost use Rattle.demangle_read_expressions.specs.Heads.{head_of};

use crate::calls::{braces, call, conversion, list};
use crate::casts::{cast, of_expression, of_type};
use crate::first_bytes::{ExpressionStart, expression_start};
use crate::folds::{begins_fold, fold_expr};
use crate::members::{access, pointer_to_member, sizeof_captured_pack, sizeof_pack, subobject};
use crate::news::{Allocations, allocation, delete_word, global_allocation};
use crate::operands::operators;
use crate::unresolved::unresolved_name;
use crate::words::{Head, expression_word};
use demangle_cells::{Arena, Cell, Depth, Part, Tag, Text, passed};
use demangle_read_below::Below;
use demangle_read_rows::{function_param, template_param};
use demangle_read_types::{expr_primary, made_one};
use demangle_text::Result;

/// An expression, ABI section 5.1.6.
///
/// ```text
/// <expression> ::= <a word of its own> .. | <fold-expr> | [gs] nw .. | [gs] na .. | [gs] dl .. | [gs] da ..
///              ::= <template-param> | <function-param> | <unresolved-name> | <expr-primary>
///              ::= <operator-name> <expression> [<expression> [<expression>]]
/// ```
#[tactic(auto, using(demangle_forms::proofs::ExpressionLaws::expression_row_is, demangle_cells::proofs::Grows::grows), unfolding(demangle_forms::specs::ExpressionForms::expression_row))]
pub fn expression_by<B: Below>(
    below: B,
    arena: &mut Arena,
    depth: Depth,
    text: Text<'_>,
    at: u32,
) -> Result<Part>
    requires can { B.can below }
    requires room { depth.levels ≤ B.most below }
    ensures grown { Grown (view arena.old) (view arena.new) }
    ensures reads { ReadsRow Row.expression depth.levels depth.conversion text.entry at result
        (view arena.old) (view arena.new) }
{
    let depth = depth.enter()?;
    alternatives(below, arena, depth, text, at)
}

/// The alternatives of an expression whose level is entered, from the first one on that may begin with the next bytes.
#[tactic(auto)]
fn alternatives<B: Below>(
    below: B,
    arena: &mut Arena,
    depth: Depth,
    text: Text<'_>,
    at: u32,
) -> Result<Part>
    requires can { B.can below }
    requires room { depth.levels < B.most below }
    ensures grown { Grown (view arena.old) (view arena.new) }
    ensures reads { Reads text.entry at result (view arena.old) (view arena.new)
        (λ s. expression_at (cread depth.levels) depth.conversion s) }
{
    match expression_start(depth, text, at) {
        ExpressionStart::All => any_expression(below, arena, depth, text, at),
        ExpressionStart::Parameters => parameter_or_unresolved(below, arena, depth, text, at),
        ExpressionStart::UnresolvedNames => unresolved_or_literal(below, arena, depth, text, at),
        ExpressionStart::Literals => literal_or_operator(below, arena, depth, text, at),
        ExpressionStart::Operators => operators(below, arena, depth, text, at),
    }
}

/// All alternatives of an expression.
#[tactic(auto, using(demangle_cells::proofs::Grows::grows), unfolding(demangle_forms::specs::ExpressionForms::expression_at))]
fn any_expression<B: Below>(
    below: B,
    arena: &mut Arena,
    depth: Depth,
    text: Text<'_>,
    at: u32,
) -> Result<Part>
    requires can { B.can below }
    requires room { depth.levels < B.most below }
    ensures grown { Grown (view arena.old) (view arena.new) }
    ensures reads { Reads text.entry at result (view arena.old) (view arena.new)
        (λ s. expression_at (cread depth.levels) depth.conversion s) }
{
    if let Ok((head, rest)) = expression_word(text, at) {
        return worded(below, arena, depth, text, rest, head);
    }
    if begins_fold(text, at) {
        let fold = fold_expr(below, arena, depth, text, at)?;
        return made_one(arena, Tag::ExpressionFold, fold);
    }
    allocation_or_parameter(below, arena, depth, text, at)
}

/// What follows a word of its own.
#[tactic(auto, using(demangle_cells::proofs::Grows::grows))]
fn worded<B: Below>(
    below: B,
    arena: &mut Arena,
    depth: Depth,
    text: Text<'_>,
    at: u32,
    head: Head,
) -> Result<Part>
    requires can { B.can below }
    requires room { depth.levels < B.most below }
    ensures grown { Grown (view arena.old) (view arena.new) }
    ensures reads { Reads text.entry at result (view arena.old) (view arena.new)
        (λ s. close (worded_at (head_of head) (cread depth.levels) depth.conversion s)) }
{
    match head {
        Head::OfExpression(tag) => of_expression(below, arena, depth, text, at, tag),
        Head::OfType(tag) => of_type(below, arena, depth, text, at, tag),
        Head::Cast(tag) => cast(below, arena, depth, text, at, tag),
        Head::Access(tag) => access(below, arena, depth, text, at, tag),
        Head::Call => call(below, arena, depth, text, at),
        Head::Conversion => conversion(below, arena, depth, text, at),
        Head::Braces => braces(below, arena, depth, text, at),
        Head::List => list(below, arena, depth, text, at),
        Head::Subobject => subobject(below, arena, depth, text, at),
        Head::Pointer => pointer_to_member(below, arena, depth, text, at),
        Head::Pack => sizeof_pack(arena, depth, text, at),
        Head::CapturedPack => sizeof_captured_pack(below, arena, depth, text, at),
        Head::Rethrow => {
            let id = arena.push(Cell::Empty(Tag::ExpressionRethrow))?;
            Ok(Part { id, end: at })
        }
    }
}

/// New and delete, and what comes after these.
#[tactic(auto)]
fn allocation_or_parameter<B: Below>(
    below: B,
    arena: &mut Arena,
    depth: Depth,
    text: Text<'_>,
    at: u32,
) -> Result<Part>
    requires can { B.can below }
    requires room { depth.levels < B.most below }
    ensures grown { Grown (view arena.old) (view arena.new) }
    ensures reads { Reads text.entry at result (view arena.old) (view arena.new)
        (λ s. names_at (cread depth.levels) depth.conversion s) }
{
    match delete_word(depth, text, at) {
        Some((tag, rest)) => of_expression(below, arena, depth, text, rest, tag),
        None => any_allocation_or_parameter(below, arena, depth, text, at),
    }
}

/// The same where no word of delete is known to be there: each alternative is tried.
#[tactic(auto, using(demangle_cells::proofs::Grows::grows), unfolding(demangle_forms::specs::ExpressionForms::names_at, crate::specs::ExpressionStarts::parameters_at))]
fn any_allocation_or_parameter<B: Below>(
    below: B,
    arena: &mut Arena,
    depth: Depth,
    text: Text<'_>,
    at: u32,
) -> Result<Part>
    requires can { B.can below }
    requires room { depth.levels < B.most below }
    ensures grown { Grown (view arena.old) (view arena.new) }
    ensures reads { Reads text.entry at result (view arena.old) (view arena.new)
        (λ s. names_at (cread depth.levels) depth.conversion s) }
{
    if let Ok(found) = passed(global_allocation(below, arena, depth, text, at))? {
        return Ok(found);
    }
    let forms = Allocations::plain();
    if let Ok(found) = passed(allocation(below, arena, depth, text, at, forms))? {
        return Ok(found);
    }
    parameter_or_unresolved(below, arena, depth, text, at)
}

/// Parameters, and what comes after these.
#[tactic(auto, using(demangle_cells::proofs::Grows::grows), unfolding(crate::specs::ExpressionStarts::parameters_at))]
fn parameter_or_unresolved<B: Below>(
    below: B,
    arena: &mut Arena,
    depth: Depth,
    text: Text<'_>,
    at: u32,
) -> Result<Part>
    requires can { B.can below }
    requires room { depth.levels < B.most below }
    ensures grown { Grown (view arena.old) (view arena.new) }
    ensures reads { Reads text.entry at result (view arena.old) (view arena.new)
        (λ s. parameters_at (cread depth.levels) depth.conversion s) }
{
    if let Ok(param) = passed(template_param(arena, depth, text, at))? {
        return made_one(arena, Tag::ExpressionTemplateParam, param);
    }
    if let Ok(param) = passed(function_param(arena, depth, text, at))? {
        return made_one(arena, Tag::ExpressionFunctionParam, param);
    }
    unresolved_or_literal(below, arena, depth, text, at)
}

/// Unresolved names, and what comes after these.
#[tactic(auto, using(demangle_cells::proofs::Grows::grows), unfolding(demangle_forms::specs::ExpressionForms::references_at, crate::specs::ExpressionStarts::literals_at))]
fn unresolved_or_literal<B: Below>(
    below: B,
    arena: &mut Arena,
    depth: Depth,
    text: Text<'_>,
    at: u32,
) -> Result<Part>
    requires can { B.can below }
    requires room { depth.levels < B.most below }
    ensures grown { Grown (view arena.old) (view arena.new) }
    ensures reads { Reads text.entry at result (view arena.old) (view arena.new)
        (λ s. references_at (cread depth.levels) depth.conversion s) }
{
    if let Ok(name) = passed(unresolved_name(below, arena, depth, text, at))? {
        return made_one(arena, Tag::ExpressionUnresolvedName, name);
    }
    literal_or_operator(below, arena, depth, text, at)
}

/// Literals and entities, and operators with their operands.
#[tactic(auto, using(demangle_cells::proofs::Grows::grows), unfolding(crate::specs::ExpressionStarts::literals_at))]
fn literal_or_operator<B: Below>(
    below: B,
    arena: &mut Arena,
    depth: Depth,
    text: Text<'_>,
    at: u32,
) -> Result<Part>
    requires can { B.can below }
    requires room { depth.levels < B.most below }
    ensures grown { Grown (view arena.old) (view arena.new) }
    ensures reads { Reads text.entry at result (view arena.old) (view arena.new)
        (λ s. literals_at (cread depth.levels) depth.conversion s) }
{
    if let Ok(primary) = passed(expr_primary(below, arena, depth, text, at))? {
        return made_one(arena, Tag::ExpressionPrimary, primary);
    }
    operators(below, arena, depth, text, at)
}
