//! Template arguments, ABI section 5.1.2.

ghost use Rattle.std.specs.Prelude.{◌≤◌, ◌<◌};
ghost use Rattle.demangle_grammar.specs.Rule.{Row};
ghost use Rattle.demangle_grammar.specs.Code.{all_at, cread, optional_at, some_at};
ghost use Rattle.demangle_forms.specs.ArgForms.{pack_at, pack_list_at};
ghost use Rattle.demangle_cells.specs.Reads.{Reads, ReadsPart, ReadsRow};
ghost use Rattle.demangle_cells.specs.View.{Grown, view};
ghost use Rattle.demangle_read_types.specs.Arguments.{primary_at, typed_at};

use crate::bytes::pack_mark;
use crate::lists::{all_arguments, some_arguments};
use crate::literals::expr_primary;
use crate::made::{made_one, restored};
use demangle_cells::{Arena, Depth, ListOf, Part, Tag, Text, empty_id, passed};
use demangle_read_below::Below;
use demangle_read_rows::{next_is, optional, word};
use demangle_text::Result;

/// The arguments of a template, with the index of the `I` before them. ABI section 5.1.2.
///
/// ```text
/// <template-args> ::= I <template-arg>+ E
/// ```
#[tactic(auto, using(crate::proofs::RowsRead::template_args_is, demangle_cells::proofs::Grows::grows, demangle_cells::proofs::Grows::cuts, crate::proofs::Waits::gathers), unfolding(crate::specs::RowsRead::row_read, demangle_grammar::specs::Rows::rule))]
pub fn template_args<B: Below>(
    below: B,
    arena: &mut Arena,
    depth: Depth,
    text: Text<'_>,
    at: u32,
) -> Result<Part>
    requires can { B.can below }
    requires room { depth.levels ≤ B.most below }
    ensures grown { Grown (view arena.old) (view arena.new) }
    ensures reads { ReadsRow Row.template_args depth.levels depth.conversion text.entry at result
        (view arena.old) (view arena.new) }
{
    let depth = depth.enter()?;
    let mark = arena.mark();
    let rest = word(text, at, b"I")?;
    let from = arena.waiting();
    let list = ListOf::Arguments(at);
    let args = match some_arguments(below, arena, depth, text, rest) {
        Ok(end) => arena.gathered(from, list, Ok(end))?,
        Err(error) => return arena.gathered(from, list, Err(error)),
    };
    let end = restored(arena, mark, word(text, args.end, b"E"))?;
    Ok(Part { id: args.id, end })
}

/// The arguments of a template, or none.
#[tactic(auto, using(demangle_cells::proofs::Grows::grows), unfolding(demangle_grammar::specs::Code::optional_at))]
pub fn optional_template_args<B: Below>(
    below: B,
    arena: &mut Arena,
    depth: Depth,
    text: Text<'_>,
    at: u32,
) -> Result<Part>
    requires can { B.can below }
    requires room { depth.levels < B.most below }
    ensures grown { Grown (view arena.old) (view arena.new) }
    ensures reads { ReadsPart text.entry at result (view arena.old) (view arena.new)
        (λ s. optional_at (cread depth.levels) depth.conversion Row.template_args s) }
{
    let answer = template_args(below, arena, depth, text, at);
    optional(arena, answer, at)
}

/// An argument of a template, ABI section 5.1.2.
///
/// ```text
/// <template-arg> ::= X <expression> E | <expr-primary> | <type> | J <template-arg>* E | I <template-arg>* E
/// ```
#[tactic(auto, using(demangle_forms::proofs::ArgLaws::template_arg_row_is, demangle_cells::proofs::Grows::grows, demangle_cells::proofs::Grows::cuts), unfolding(demangle_forms::specs::ArgForms::template_arg_row, demangle_forms::specs::ArgForms::template_arg_at, crate::specs::Arguments::primary_at, crate::specs::Arguments::typed_at))]
pub fn template_arg_by<B: Below>(
    below: B,
    arena: &mut Arena,
    depth: Depth,
    text: Text<'_>,
    at: u32,
) -> Result<Part>
    requires can { B.can below }
    requires room { depth.levels ≤ B.most below }
    ensures grown { Grown (view arena.old) (view arena.new) }
    ensures reads { ReadsRow Row.template_arg depth.levels depth.conversion text.entry at result
        (view arena.old) (view arena.new) }
{
    let depth = depth.enter()?;
    if let Ok(rest) = word(text, at, b"X") {
        let mark = arena.mark();
        let value = below.expression(arena, depth, text, rest)?;
        let end = restored(arena, mark, word(text, value.end, b"E"))?;
        return made_one(
            arena,
            Tag::TemplateArgExpression,
            Part { id: value.id, end },
        );
    }
    argument_behind(below, arena, depth, text, at)
}

/// The alternatives of an argument behind expressions. Close to the limit of levels literals are always tried, since
/// trying one may already reach the limit.
#[tactic(auto, using(crate::proofs::Starts::no_primary))]
fn argument_behind<B: Below>(
    below: B,
    arena: &mut Arena,
    depth: Depth,
    text: Text<'_>,
    at: u32,
) -> Result<Part>
    requires can { B.can below }
    requires room { depth.levels < B.most below }
    ensures grown { Grown (view arena.old) (view arena.new) }
    ensures reads { Reads text.entry at result (view arena.old) (view arena.new)
        (λ s. primary_at (cread depth.levels) depth.conversion s) }
{
    if depth.levels == 0 || next_is(text, at, b'L') {
        return literal_or_type(below, arena, depth, text, at);
    }
    type_or_pack(below, arena, depth, text, at)
}

/// Literals, and the alternatives of an argument behind them.
#[tactic(auto, using(demangle_cells::proofs::Grows::grows), unfolding(crate::specs::Arguments::primary_at))]
fn literal_or_type<B: Below>(
    below: B,
    arena: &mut Arena,
    depth: Depth,
    text: Text<'_>,
    at: u32,
) -> Result<Part>
    requires can { B.can below }
    requires room { depth.levels < B.most below }
    ensures grown { Grown (view arena.old) (view arena.new) }
    ensures reads { Reads text.entry at result (view arena.old) (view arena.new)
        (λ s. primary_at (cread depth.levels) depth.conversion s) }
{
    if let Ok(primary) = passed(expr_primary(below, arena, depth, text, at))? {
        return made_one(arena, Tag::TemplateArgSimpleExpression, primary);
    }
    type_or_pack(below, arena, depth, text, at)
}

/// Types, and packs of arguments: the last alternatives of an argument.
#[tactic(auto, using(demangle_cells::proofs::Grows::grows), unfolding(crate::specs::Arguments::typed_at))]
fn type_or_pack<B: Below>(
    below: B,
    arena: &mut Arena,
    depth: Depth,
    text: Text<'_>,
    at: u32,
) -> Result<Part>
    requires can { B.can below }
    requires room { depth.levels < B.most below }
    ensures grown { Grown (view arena.old) (view arena.new) }
    ensures reads { Reads text.entry at result (view arena.old) (view arena.new)
        (λ s. typed_at (cread depth.levels) depth.conversion s) }
{
    if let Ok(ty) = passed(below.type_handle(arena, depth, text, at))? {
        return made_one(arena, Tag::TemplateArgTypeArg, ty);
    }
    argument_pack(below, arena, depth, text, at)
}

/// A pack of arguments: the last alternative of an argument.
#[tactic(auto, using(demangle_cells::proofs::Grows::grows, demangle_cells::proofs::Grows::cuts), unfolding(demangle_forms::specs::ArgForms::pack_at))]
fn argument_pack<B: Below>(
    below: B,
    arena: &mut Arena,
    depth: Depth,
    text: Text<'_>,
    at: u32,
) -> Result<Part>
    requires can { B.can below }
    requires room { depth.levels < B.most below }
    ensures grown { Grown (view arena.old) (view arena.new) }
    ensures reads { Reads text.entry at result (view arena.old) (view arena.new)
        (λ s. pack_at (cread depth.levels) depth.conversion s) }
{
    let mark = arena.mark();
    let rest = pack_mark(text, at)?;
    let args = pack_list(below, arena, depth, text, rest)?;
    let end = restored(arena, mark, word(text, args.end, b"E"))?;
    made_one(arena, Tag::TemplateArgArgPack, Part { id: args.id, end })
}

/// The arguments in a pack, up to its `E`. Where that is next, no argument is tried.
#[tactic(auto, using(demangle_cells::proofs::Grows::grows, demangle_cells::proofs::Waits::gathers, crate::proofs::Waits::waits), unfolding(demangle_forms::specs::ArgForms::pack_list_at))]
fn pack_list<B: Below>(
    below: B,
    arena: &mut Arena,
    depth: Depth,
    text: Text<'_>,
    at: u32,
) -> Result<Part>
    requires can { B.can below }
    requires room { depth.levels < B.most below }
    ensures grown { Grown (view arena.old) (view arena.new) }
    ensures reads { ReadsPart text.entry at result (view arena.old) (view arena.new)
        (λ s. pack_list_at (cread depth.levels) depth.conversion s) }
{
    if next_is(text, at, b'E') {
        return Ok(Part {
            id: empty_id(),
            end: at,
        });
    }
    let from = arena.waiting();
    match all_arguments(below, arena, depth, text, at) {
        Ok(end) => arena.gathered(from, ListOf::Node(Tag::Several), Ok(end)),
        Err(error) => arena.gathered(from, ListOf::Node(Tag::Several), Err(error)),
    }
}
