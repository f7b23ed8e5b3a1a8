//! Parts of objects, members, and the sizes of packs.

ghost use Rattle.std.specs.Prelude.{◌≡◌, ◌≤◌, ◌<◌, ℕ, true, IfErr, IfOk};
ghost use Rattle.demangle_text.specs.declared.error.Error.TheVariants.{OutOfMemory};
ghost use Rattle.demangle_core.specs.Core.{Core, Tag, U, end, node, ◌⊕◌};
ghost use Rattle.demangle_core.specs.Table.{added, size};
ghost use Rattle.demangle_grammar.specs.Rule.{Row};
ghost use Rattle.demangle_grammar.specs.Tree.{template_entry, template_name};
ghost use Rattle.demangle_grammar.specs.Code.{all_at, close, cread};
ghost use Rattle.demangle_forms.specs.ExpressionForms.{access_at, captured_pack_at, member_pointer_at};
ghost use Rattle.demangle_forms.specs.ExpressionForms.{sizeof_pack_at, subobject_at};
ghost use Rattle.demangle_cells.specs.Reads.{Reads, ReadsPart, ReadsRow};
ghost use Rattle.demangle_cells.specs.Tags.{tag_of};
ghost use Rattle.demangle_cells.specs.View.{Grown, Holds, table, view};
ghost use Rattle.demangle_read_expressions.specs.MemberNames.{is_node};

use crate::words::subobject_offset;
use demangle_cells::{Arena, Cell, Depth, ListOf, Part, Tag as CellTag, Text, passed};
use demangle_read_below::Below;
use demangle_read_rows::{add_member_template, function_param, template_param, word};
use demangle_read_types::{all_arguments, made_one, made_two, restored, template_args};
use demangle_read_unqualified::unqualified_name;
use demangle_text::Result;

/// A part of an object behind its word, ABI section 5.1.6.
///
/// ```text
/// <expression> ::= so <subobject-expr>
/// ```
#[tactic(auto, using(demangle_cells::proofs::Grows::grows), unfolding(demangle_forms::specs::ExpressionForms::subobject_at))]
pub fn subobject<B: Below>(
    below: B,
    arena: &mut Arena,
    depth: Depth,
    text: Text<'_>,
    at: u32,
) -> Result<Part>
    requires can { B.can below }
    requires room { depth.levels < B.most below }
    ensures grown { Grown (view arena.old) (view arena.new) }
    ensures reads { Reads text.entry at result (view arena.old) (view arena.new)
        (λ s. close (subobject_at (cread depth.levels) depth.conversion s)) }
{
    let part = subobject_expr(below, arena, depth, text, at)?;
    made_one(arena, CellTag::ExpressionSubobject, part)
}

/// A part of an object: its type, the object, and the offset, which is 0 where none is written. ABI section 5.1.6.
///
/// ```text
/// <subobject-expr> ::= <referent type> <expression> [<offset number>] E
/// ```
#[tactic(auto, using(demangle_forms::proofs::ExpressionLaws::subobject_expr_row_is, demangle_cells::proofs::Grows::grows, demangle_cells::proofs::Grows::cuts), unfolding(demangle_forms::specs::ExpressionForms::subobject_expr_row))]
pub fn subobject_expr<B: Below>(
    below: B,
    arena: &mut Arena,
    depth: Depth,
    text: Text<'_>,
    at: u32,
) -> Result<Part>
    requires can { B.can below }
    requires room { depth.levels ≤ B.most below }
    ensures grown { Grown (view arena.old) (view arena.new) }
    ensures reads { ReadsRow Row.subobject_expr depth.levels depth.conversion text.entry at result
        (view arena.old) (view arena.new) }
{
    let depth = depth.enter()?;
    let mark = arena.mark();
    let ty = below.type_handle(arena, depth, text, at)?;
    let answer = below.expression(arena, depth, text, ty.end);
    let object = restored(arena, mark, answer)?;
    let (offset, rest) = subobject_offset(text, object.end);
    let end = restored(arena, mark, word(text, rest, b"E"))?;
    let offset = arena.push(Cell::Number(offset))?;
    let cell = Cell::Three(CellTag::SubobjectExpr, ty.id, object.id, offset);
    let id = arena.push(cell)?;
    Ok(Part { id, end })
}

/// An object and the name of its member behind a word, ABI section 5.1.6, as the node of this tag.
///
/// ```text
/// <expression> ::= dt <expression> <member name> | pt <expression> <member name>
/// ```
#[tactic(auto, using(demangle_cells::proofs::Grows::grows, demangle_cells::proofs::Grows::cuts), unfolding(demangle_forms::specs::ExpressionForms::access_at))]
pub fn access<B: Below>(
    below: B,
    arena: &mut Arena,
    depth: Depth,
    text: Text<'_>,
    at: u32,
    tag: CellTag,
) -> Result<Part>
    requires can { B.can below }
    requires room { depth.levels < B.most below }
    ensures grown { Grown (view arena.old) (view arena.new) }
    ensures reads { Reads text.entry at result (view arena.old) (view arena.new)
        (λ s. close (access_at (tag_of tag) (cread depth.levels) depth.conversion s)) }
{
    let mark = arena.mark();
    let object = below.expression(arena, depth, text, at)?;
    let answer = member_name(below, arena, depth, text, object.end);
    let member = restored(arena, mark, answer)?;
    made_two(arena, tag, object.id, member)
}

/// An object and a pointer to a member of it behind their word, ABI section 5.1.6.
///
/// ```text
/// <expression> ::= ds <expression> <expression>
/// ```
#[tactic(auto, using(demangle_cells::proofs::Grows::grows, demangle_cells::proofs::Grows::cuts), unfolding(demangle_forms::specs::ExpressionForms::member_pointer_at))]
pub fn pointer_to_member<B: Below>(
    below: B,
    arena: &mut Arena,
    depth: Depth,
    text: Text<'_>,
    at: u32,
) -> Result<Part>
    requires can { B.can below }
    requires room { depth.levels < B.most below }
    ensures grown { Grown (view arena.old) (view arena.new) }
    ensures reads { Reads text.entry at result (view arena.old) (view arena.new)
        (λ s. close (member_pointer_at (cread depth.levels) depth.conversion s)) }
{
    let mark = arena.mark();
    let object = below.expression(arena, depth, text, at)?;
    let answer = below.expression(arena, depth, text, object.end);
    let member = restored(arena, mark, answer)?;
    made_two(arena, CellTag::ExpressionPointerToMember, object.id, member)
}

/// The size of a pack behind its word, ABI section 5.1.6: of a template parameter or of a function parameter.
///
/// ```text
/// <expression> ::= sZ <template-param> | sZ <function-param>
/// ```
#[tactic(auto, using(demangle_cells::proofs::Grows::grows), unfolding(demangle_forms::specs::ExpressionForms::sizeof_pack_at))]
pub fn sizeof_pack(arena: &mut Arena, depth: Depth, text: Text<'_>, at: u32) -> Result<Part>
    ensures grown { Grown (view arena.old) (view arena.new) }
    ensures reads { Reads text.entry at result (view arena.old) (view arena.new)
        (λ s. close (sizeof_pack_at (cread depth.levels) depth.conversion s)) }
{
    if let Ok(param) = passed(template_param(arena, depth, text, at))? {
        return made_one(arena, CellTag::ExpressionSizeofTemplatePack, param);
    }
    let param = function_param(arena, depth, text, at)?;
    made_one(arena, CellTag::ExpressionSizeofFunctionPack, param)
}

/// Any number of template arguments, as one part.
#[tactic(auto, using(demangle_cells::proofs::Grows::grows, demangle_cells::proofs::Waits::gathers, demangle_read_types::proofs::Waits::waits))]
fn argument_list<B: Below>(
    below: B,
    arena: &mut Arena,
    depth: Depth,
    text: Text<'_>,
    at: u32,
) -> Result<Part>
    requires can { B.can below }
    requires room { depth.levels < B.most below }
    ensures grown { Grown (view arena.old) (view arena.new) }
    ensures reads { ReadsPart text.entry at result (view arena.old) (view arena.new)
        (λ s. all_at (cread depth.levels) depth.conversion Row.template_arg s) }
{
    let from = arena.waiting();
    match all_arguments(below, arena, depth, text, at) {
        Ok(end) => arena.gathered(from, ListOf::Node(CellTag::Several), Ok(end)),
        Err(error) => arena.gathered(from, ListOf::Node(CellTag::Several), Err(error)),
    }
}

/// The size of a template parameter pack that an alias template captured, behind its word, ABI section 5.1.6.
///
/// ```text
/// <expression> ::= sP <template-arg>* E
/// ```
#[tactic(auto, using(demangle_cells::proofs::Grows::grows, demangle_cells::proofs::Grows::cuts), unfolding(demangle_forms::specs::ExpressionForms::captured_pack_at))]
pub fn sizeof_captured_pack<B: Below>(
    below: B,
    arena: &mut Arena,
    depth: Depth,
    text: Text<'_>,
    at: u32,
) -> Result<Part>
    requires can { B.can below }
    requires room { depth.levels < B.most below }
    ensures grown { Grown (view arena.old) (view arena.new) }
    ensures reads { Reads text.entry at result (view arena.old) (view arena.new)
        (λ s. close (captured_pack_at (cread depth.levels) depth.conversion s)) }
{
    let mark = arena.mark();
    let args = argument_list(below, arena, depth, text, at)?;
    let end = restored(arena, mark, word(text, args.end, b"E"))?;
    let args = Part { id: args.id, end };
    made_one(arena, CellTag::ExpressionSizeofCapturedTemplatePack, args)
}

/// The name of a member. With template arguments behind it the name becomes a component of the second list, after those
/// that its arguments add. ABI section 5.1.6 has an `<unresolved-name>` in its place.
///
/// ```text
/// <member name> ::= <unqualified-name> [<template-args>]
/// ```
#[tactic(auto, using(crate::proofs::MemberNames::unqualified_node, demangle_cells::proofs::Grows::grows, demangle_cells::proofs::Grows::cuts), unfolding(demangle_grammar::specs::Code::cread, demangle_grammar::specs::Rows::rule))]
pub fn member_name<B: Below>(
    below: B,
    arena: &mut Arena,
    depth: Depth,
    text: Text<'_>,
    at: u32,
) -> Result<Part>
    requires can { B.can below }
    requires room { depth.levels ≤ B.most below }
    ensures grown { Grown (view arena.old) (view arena.new) }
    ensures reads { ReadsRow Row.member_name depth.levels depth.conversion text.entry at result
        (view arena.old) (view arena.new) }
{
    let depth = depth.enter()?;
    let mark = arena.mark();
    let name = unqualified_name(below, arena, depth, text, at)?;
    let answer = passed(template_args(below, arena, depth, text, name.end));
    if let Ok(args) = restored(arena, mark, answer)? {
        return member_template(arena, name.id, args);
    }
    plain_member(arena, name)
}

/// The name of a member with no arguments.
#[tactic(auto, using(demangle_cells::proofs::Grows::grows))]
fn plain_member(arena: &mut Arena, name: Part) -> Result<Part>
    ensures grown { Grown (view arena.old) (view arena.new) }
    ensures table { (F : ℕ → Core) → table F (view arena.new) ≡ table F (view arena.old) }
    ensures made { IfOk result (λ x. (x.end ≡ name.end) × ((F : ℕ → Core) → Holds F (view arena.new)
        → F x.id ≡ node Tag.MemberName (node Tag.NameUnscoped
        (node Tag.UnscopedNameUnqualified (F name.id) end) end) end)) }
    ensures refused { IfErr result (λ e. e ≡ OutOfMemory) }
{
    let unscoped = made_one(arena, CellTag::UnscopedNameUnqualified, name)?;
    let name = made_one(arena, CellTag::NameUnscoped, unscoped)?;
    made_one(arena, CellTag::MemberName, name)
}

/// The name of a member with its arguments: the name is added to the second list, and the node refers to it.
#[tactic(auto, using(crate::proofs::MemberNames::members, demangle_cells::proofs::Grows::grows))]
fn member_template(arena: &mut Arena, name: u32, args: Part) -> Result<Part>
    ensures grown { Grown (view arena.old) (view arena.new) }
    ensures made { IfOk result (λ x. (x.end ≡ args.end) × ((F : ℕ → Core) → Holds F (view arena.new)
        → is_node (F name) ≡ true → F x.id ≡ node Tag.MemberName
        (template_name (size U (table F (view arena.old))) (F name ⊕ F args.id)) end)) }
    ensures added { IfOk result (λ x. (F : ℕ → Core) → Holds F (view arena.new) → is_node (F name) ≡ true
        → table F (view arena.new)
        ≡ added U (template_entry (F name ⊕ F args.id)) (table F (view arena.old))) }
    ensures refused { IfErr result (λ e. e ≡ OutOfMemory) }
{
    let reference = add_member_template(arena, name)?;
    let name = made_two(arena, CellTag::NameUnscopedTemplate, reference, args)?;
    made_one(arena, CellTag::MemberName, name)
}
