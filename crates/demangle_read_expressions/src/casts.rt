//! Expressions that are a word with an expression, a type, or both behind it.

ghost use Rattle.std.specs.Prelude.{◌<◌};
ghost use Rattle.demangle_grammar.specs.Code.{close, cread};
ghost use Rattle.demangle_forms.specs.ExpressionForms.{cast_at, of_expression_at, of_type_at};
ghost use Rattle.demangle_cells.specs.Reads.{Reads};
ghost use Rattle.demangle_cells.specs.Tags.{tag_of};
ghost use Rattle.demangle_cells.specs.View.{Grown, view};

use demangle_cells::{Arena, Depth, Part, Tag, Text};
use demangle_read_below::Below;
use demangle_read_types::{made_one, made_two, restored};
use demangle_text::Result;

/// The expression behind a word, ABI section 5.1.6, as the node of this tag.
///
/// ```text
/// <expression> ::= pp_ <expression> | mm_ <expression> | te <expression> | sz <expression> | az <expression>
///              ::= nx <expression> | sp <expression> | tw <expression>
/// ```
#[tactic(auto, using(demangle_cells::proofs::Grows::grows), unfolding(demangle_forms::specs::ExpressionForms::of_expression_at))]
pub fn of_expression<B: Below>(
    below: B,
    arena: &mut Arena,
    depth: Depth,
    text: Text<'_>,
    at: u32,
    tag: Tag,
) -> Result<Part>
    requires can { B.can below }
    requires room { depth.levels < B.most below }
    ensures grown { Grown (view arena.old) (view arena.new) }
    ensures reads { Reads text.entry at result (view arena.old) (view arena.new)
        (λ s. close (of_expression_at (tag_of tag) (cread depth.levels) depth.conversion s)) }
{
    let inner = below.expression(arena, depth, text, at)?;
    made_one(arena, tag, inner)
}

/// The type behind a word, ABI section 5.1.6, as the node of this tag.
///
/// ```text
/// <expression> ::= ti <type> | st <type> | at <type>
/// ```
#[tactic(auto, using(demangle_cells::proofs::Grows::grows), unfolding(demangle_forms::specs::ExpressionForms::of_type_at))]
pub fn of_type<B: Below>(
    below: B,
    arena: &mut Arena,
    depth: Depth,
    text: Text<'_>,
    at: u32,
    tag: Tag,
) -> Result<Part>
    requires can { B.can below }
    requires room { depth.levels < B.most below }
    ensures grown { Grown (view arena.old) (view arena.new) }
    ensures reads { Reads text.entry at result (view arena.old) (view arena.new)
        (λ s. close (of_type_at (tag_of tag) (cread depth.levels) depth.conversion s)) }
{
    let ty = below.type_handle(arena, depth, text, at)?;
    made_one(arena, tag, ty)
}

/// The type and the expression behind the word of a cast, ABI section 5.1.6, as the node of this tag.
///
/// ```text
/// <expression> ::= dc <type> <expression> | sc <type> <expression> | cc <type> <expression> | rc <type> <expression>
/// ```
#[tactic(auto, using(demangle_cells::proofs::Grows::grows, demangle_cells::proofs::Grows::cuts), unfolding(demangle_forms::specs::ExpressionForms::cast_at))]
pub fn cast<B: Below>(
    below: B,
    arena: &mut Arena,
    depth: Depth,
    text: Text<'_>,
    at: u32,
    tag: Tag,
) -> Result<Part>
    requires can { B.can below }
    requires room { depth.levels < B.most below }
    ensures grown { Grown (view arena.old) (view arena.new) }
    ensures reads { Reads text.entry at result (view arena.old) (view arena.new)
        (λ s. close (cast_at (tag_of tag) (cread depth.levels) depth.conversion s)) }
{
    let mark = arena.mark();
    let ty = below.type_handle(arena, depth, text, at)?;
    let answer = below.expression(arena, depth, text, ty.end);
    let value = restored(arena, mark, answer)?;
    made_two(arena, tag, ty.id, value)
}
