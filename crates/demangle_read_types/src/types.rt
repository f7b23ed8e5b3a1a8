//! Types, ABI section 5.1.5: their alternatives in groups, in the order in which they are tried.

ghost use Rattle.std.specs.Prelude.{◌≤◌, ◌<◌};
ghost use Rattle.demangle_grammar.specs.Rule.{Row};
ghost use Rattle.demangle_grammar.specs.Code.{cread, trial_part};
ghost use Rattle.demangle_forms.specs.TypeForms.{type_extension_at, type_handle_at, type_marks_at, type_names_at};
ghost use Rattle.demangle_forms.specs.TypeForms.{type_param_at, type_qualified_at, type_shapes_at};
ghost use Rattle.demangle_forms.specs.TypeForms.{type_substitution_at, type_template_at, type_templates_at};
ghost use Rattle.demangle_forms.specs.Starts.{function_types_at, qualified_types_at, referred_types_at};
ghost use Rattle.demangle_cells.specs.Reads.{EndsRow, Reads, ReadsRow, Tries};
ghost use Rattle.demangle_cells.specs.View.{Grown, view};
ghost use Rattle.demangle_read_types.specs.Ahead.{TestsAhead};

use crate::arguments::{optional_template_args, template_args};
use crate::array_types::{array_type, pointer_to_member_type, vector_type};
use crate::builtin::{builtin_handle, builtin_type};
use crate::bytes::type_mark;
use crate::class_types::{class_enum_type, decltype};
use crate::first_bytes::{TypeStart, type_start};
use crate::function_types::function_type;
use crate::made::{made_one, restored};
use crate::template_params::template_template_param_handle;
use demangle_cells::{Arena, Cell, Depth, Part, RowName, Tag, Text, passed};
use demangle_read_below::Below;
use demangle_read_rows::{
    add_type, begins_function, next_is, some_cv_qualifiers, source_name, substitution,
    template_param, word,
};
use demangle_text::{Error, Result};

/// A type, ABI section 5.1.5. All but builtin types and substitutions become numbered components.
///
/// ```text
/// <type> ::= <builtin-type> | U <source-name> [<template-args>] <type> | <CV-qualifiers> <type>
///        ::= <class-enum-type> | <substitution> | <function-type> | <array-type> | <vector-type>
///        ::= <pointer-to-member-type> | <template-param> | <template-template-param> <template-args> | <decltype>
///        ::= P <type> | R <type> | O <type> | C <type> | G <type> | Dp <type>
/// ```
#[tactic(auto, using(demangle_cells::proofs::Grows::grows, demangle_forms::proofs::TypeLaws::type_handle_row_is), unfolding(demangle_forms::specs::TypeForms::type_handle_row))]
pub fn type_handle_by<B: Below>(
    below: B,
    arena: &mut Arena,
    depth: Depth,
    text: Text<'_>,
    at: u32,
) -> Result<Part>
    requires can { B.can below }
    requires room { depth.levels ≤ B.most below }
    ensures grown { Grown (view arena.old) (view arena.new) }
    ensures reads { ReadsRow Row.type_handle depth.levels depth.conversion text.entry at result
        (view arena.old) (view arena.new) }
{
    let depth = depth.enter()?;
    type_alternatives(below, arena, depth, text, at)
}

/// The alternatives of a type whose level is entered, from the first one on that the next bytes allow.
#[tactic(auto, using(demangle_cells::proofs::Grows::grows))]
fn type_alternatives<B: Below>(
    below: B,
    arena: &mut Arena,
    depth: Depth,
    text: Text<'_>,
    at: u32,
) -> Result<Part>
    requires can { B.can below }
    requires room { depth.levels < B.most below }
    ensures grown { Grown (view arena.old) (view arena.new) }
    ensures reads { Reads text.entry at result (view arena.old) (view arena.new)
        (λ s. type_handle_at (cread depth.levels) depth.conversion s) }
{
    match type_start(depth, text, at) {
        TypeStart::All => any_type(below, arena, depth, text, at),
        TypeStart::Qualified => qualified_or_named(below, arena, depth, text, at),
        TypeStart::Names => type_names(below, arena, depth, text, at),
        TypeStart::Substitutions => substitution_or_named(below, arena, depth, text, at),
        TypeStart::Functions => function_or_shape(below, arena, depth, text, at),
        TypeStart::Shapes => type_shapes(below, arena, depth, text, at),
        TypeStart::Templates => type_templates(below, arena, depth, text, at),
        TypeStart::Marks => type_marks(below, arena, depth, text, at),
    }
}

/// All alternatives: builtin types, types with a compiler's own qualifier, and what comes after these.
#[tactic(auto, using(demangle_cells::proofs::Grows::grows), unfolding(demangle_forms::specs::TypeForms::type_handle_at, demangle_forms::specs::Starts::qualified_types_at))]
fn any_type<B: Below>(
    below: B,
    arena: &mut Arena,
    depth: Depth,
    text: Text<'_>,
    at: u32,
) -> Result<Part>
    requires can { B.can below }
    requires room { depth.levels < B.most below }
    ensures grown { Grown (view arena.old) (view arena.new) }
    ensures reads { Reads text.entry at result (view arena.old) (view arena.new)
        (λ s. type_handle_at (cread depth.levels) depth.conversion s) }
{
    if let Some(found) = builtin_handle(depth, text, at) {
        return Ok(found);
    }
    if let Ok(builtin) = passed(builtin_type(below, arena, depth, text, at))? {
        return made_one(arena, Tag::TypeHandleBuiltin, builtin);
    }
    if let Ok(found) = type_extension(below, arena, depth, text, at)? {
        return Ok(found);
    }
    qualified_or_named(below, arena, depth, text, at)
}

/// A type with a compiler's own qualifier: `U <source-name> [<template-args>] <type>`.
#[tactic(auto, using(demangle_cells::proofs::Grows::grows, demangle_cells::proofs::Grows::cuts), unfolding(demangle_forms::specs::TypeForms::type_extension_at))]
fn type_extension<B: Below>(
    below: B,
    arena: &mut Arena,
    depth: Depth,
    text: Text<'_>,
    at: u32,
) -> Result<Result<Part>>
    requires can { B.can below }
    requires room { depth.levels < B.most below }
    ensures grown { Grown (view arena.old) (view arena.new) }
    ensures reads { Tries text.entry at result (view arena.old) (view arena.new)
        (λ s. type_extension_at (cread depth.levels) depth.conversion s) }
{
    let rest = match word(text, at, b"U") {
        Ok(rest) => rest,
        Err(error) => return Ok(Err(error)),
    };
    let mark = arena.mark();
    let name = source_name(arena, depth, text, rest)?;
    let args = optional_template_args(below, arena, depth, text, name.end)?;
    let answer = below.type_handle(arena, depth, text, args.end);
    let inner = restored(arena, mark, answer)?;
    let cell = Cell::Three(Tag::TypeNodeVendorExtension, name.id, args.id, inner.id);
    let id = add_type(arena, cell)?;
    Ok(Ok(Part { id, end: inner.end }))
}

/// A type with at least one qualifier. Those before a function type are part of that type, and are not read here.
#[tactic(auto, using(demangle_cells::proofs::Grows::grows), unfolding(demangle_forms::specs::TypeForms::type_qualified_at))]
fn type_qualified<B: Below>(
    below: B,
    arena: &mut Arena,
    depth: Depth,
    text: Text<'_>,
    at: u32,
) -> Result<Result<Part>>
    requires can { B.can below }
    requires room { depth.levels < B.most below }
    ensures grown { Grown (view arena.old) (view arena.new) }
    ensures reads { Tries text.entry at result (view arena.old) (view arena.new)
        (λ s. type_qualified_at (cread depth.levels) depth.conversion s) }
{
    let qualifiers = match passed(some_cv_qualifiers(arena, depth, text, at))? {
        Ok(found) => found,
        Err(error) => return Ok(Err(error)),
    };
    if begins_function(text, qualifiers.end) {
        return Ok(Err(Error::UnexpectedText));
    }
    let inner = below.type_handle(arena, depth, text, qualifiers.end)?;
    let id = add_type(
        arena,
        Cell::Two(Tag::TypeNodeQualified, qualifiers.id, inner.id),
    )?;
    Ok(Ok(Part { id, end: inner.end }))
}

/// Types with qualifiers, and what comes after these.
#[tactic(auto, using(demangle_cells::proofs::Grows::grows), unfolding(demangle_forms::specs::Starts::qualified_types_at))]
fn qualified_or_named<B: Below>(
    below: B,
    arena: &mut Arena,
    depth: Depth,
    text: Text<'_>,
    at: u32,
) -> Result<Part>
    requires can { B.can below }
    requires room { depth.levels < B.most below }
    ensures grown { Grown (view arena.old) (view arena.new) }
    ensures reads { Reads text.entry at result (view arena.old) (view arena.new)
        (λ s. qualified_types_at (cread depth.levels) depth.conversion s) }
{
    if let Ok(found) = type_qualified(below, arena, depth, text, at)? {
        return Ok(found);
    }
    type_names(below, arena, depth, text, at)
}

/// A substitution where no arguments follow, else the alternatives from classes on. Such a substitution is no class, so
/// it may be tried first.
#[tactic(auto, using(demangle_cells::proofs::Grows::grows), unfolding(demangle_forms::specs::Starts::referred_types_at, demangle_forms::specs::TypeForms::type_substitution_at))]
fn substitution_or_named<B: Below>(
    below: B,
    arena: &mut Arena,
    depth: Depth,
    text: Text<'_>,
    at: u32,
) -> Result<Part>
    requires can { B.can below }
    requires room { depth.levels < B.most below }
    ensures grown { Grown (view arena.old) (view arena.new) }
    ensures reads { Reads text.entry at result (view arena.old) (view arena.new)
        (λ s. referred_types_at (cread depth.levels) depth.conversion s) }
{
    match substitution(arena, depth, text, at) {
        Ok(found) => {
            if !next_is(text, found.end, b'I') {
                return Ok(found);
            }
        }
        Err(Error::OutOfMemory) => return Err(Error::OutOfMemory),
        Err(_) => {}
    }
    type_names(below, arena, depth, text, at)
}

/// Classes and enumerations, substitutions, and what comes after these.
#[tactic(auto, using(demangle_cells::proofs::Grows::grows), unfolding(demangle_forms::specs::TypeForms::type_names_at, demangle_forms::specs::Starts::function_types_at))]
fn type_names<B: Below>(
    below: B,
    arena: &mut Arena,
    depth: Depth,
    text: Text<'_>,
    at: u32,
) -> Result<Part>
    requires can { B.can below }
    requires room { depth.levels < B.most below }
    ensures grown { Grown (view arena.old) (view arena.new) }
    ensures reads { Reads text.entry at result (view arena.old) (view arena.new)
        (λ s. type_names_at (cread depth.levels) depth.conversion s) }
{
    if let Ok(class) = passed(class_enum_type(below, arena, depth, text, at))? {
        let id = add_type(arena, Cell::One(Tag::TypeNodeClassEnum, class.id))?;
        return Ok(Part { id, end: class.end });
    }
    if let Ok(found) = type_substitution(arena, depth, text, at)? {
        return Ok(found);
    }
    function_or_shape(below, arena, depth, text, at)
}

/// Functions, and what comes after these.
#[tactic(auto, using(demangle_cells::proofs::Grows::grows), unfolding(demangle_forms::specs::Starts::function_types_at))]
fn function_or_shape<B: Below>(
    below: B,
    arena: &mut Arena,
    depth: Depth,
    text: Text<'_>,
    at: u32,
) -> Result<Part>
    requires can { B.can below }
    requires room { depth.levels < B.most below }
    ensures grown { Grown (view arena.old) (view arena.new) }
    ensures reads { Reads text.entry at result (view arena.old) (view arena.new)
        (λ s. function_types_at (cread depth.levels) depth.conversion s) }
{
    if let Ok(function) = passed(function_type(below, arena, depth, text, at))? {
        let id = add_type(arena, Cell::One(Tag::TypeNodeFunction, function.id))?;
        return Ok(Part {
            id,
            end: function.end,
        });
    }
    type_shapes(below, arena, depth, text, at)
}

/// A substitution, which is a type where no arguments follow.
#[tactic(auto, using(demangle_cells::proofs::Grows::grows), unfolding(demangle_forms::specs::TypeForms::type_substitution_at))]
fn type_substitution(
    arena: &mut Arena,
    depth: Depth,
    text: Text<'_>,
    at: u32,
) -> Result<Result<Part>>
    ensures grown { Grown (view arena.old) (view arena.new) }
    ensures reads { Tries text.entry at result (view arena.old) (view arena.new)
        (λ s. type_substitution_at (cread depth.levels) depth.conversion s) }
{
    let found = match passed(substitution(arena, depth, text, at))? {
        Ok(found) => found,
        Err(error) => return Ok(Err(error)),
    };
    if next_is(text, found.end, b'I') {
        return Ok(Err(Error::UnexpectedText));
    }
    Ok(Ok(found))
}

/// Arrays, vectors, pointers to members, and what comes after these.
#[tactic(auto, using(demangle_cells::proofs::Grows::grows), unfolding(demangle_forms::specs::TypeForms::type_shapes_at))]
fn type_shapes<B: Below>(
    below: B,
    arena: &mut Arena,
    depth: Depth,
    text: Text<'_>,
    at: u32,
) -> Result<Part>
    requires can { B.can below }
    requires room { depth.levels < B.most below }
    ensures grown { Grown (view arena.old) (view arena.new) }
    ensures reads { Reads text.entry at result (view arena.old) (view arena.new)
        (λ s. type_shapes_at (cread depth.levels) depth.conversion s) }
{
    if let Ok(array) = passed(array_type(below, arena, depth, text, at))? {
        let id = add_type(arena, Cell::One(Tag::TypeNodeArray, array.id))?;
        return Ok(Part { id, end: array.end });
    }
    if let Ok(vector) = passed(vector_type(below, arena, depth, text, at))? {
        let id = add_type(arena, Cell::One(Tag::TypeNodeVector, vector.id))?;
        return Ok(Part {
            id,
            end: vector.end,
        });
    }
    if let Ok(member) = passed(pointer_to_member_type(below, arena, depth, text, at))? {
        let id = add_type(arena, Cell::One(Tag::TypeNodePointerToMember, member.id))?;
        return Ok(Part {
            id,
            end: member.end,
        });
    }
    type_templates(below, arena, depth, text, at)
}

/// Template parameters, templates with arguments, `decltype`, and the marks before a type.
#[tactic(auto, using(demangle_cells::proofs::Grows::grows), unfolding(demangle_forms::specs::TypeForms::type_templates_at))]
fn type_templates<B: Below>(
    below: B,
    arena: &mut Arena,
    depth: Depth,
    text: Text<'_>,
    at: u32,
) -> Result<Part>
    requires can { B.can below }
    requires room { depth.levels < B.most below }
    ensures grown { Grown (view arena.old) (view arena.new) }
    ensures reads { Reads text.entry at result (view arena.old) (view arena.new)
        (λ s. type_templates_at (cread depth.levels) depth.conversion s) }
{
    if let Ok(found) = type_param(below, arena, depth, text, at)? {
        return Ok(found);
    }
    if let Ok(found) = type_template(below, arena, depth, text, at)? {
        return Ok(found);
    }
    if let Ok(ty) = passed(decltype(below, arena, depth, text, at))? {
        let id = add_type(arena, Cell::One(Tag::TypeNodeDecltype, ty.id))?;
        return Ok(Part { id, end: ty.end });
    }
    type_marks(below, arena, depth, text, at)
}

/// A template parameter, unless arguments follow that are its own.
#[tactic(auto, using(demangle_cells::proofs::Grows::grows), unfolding(demangle_forms::specs::TypeForms::type_param_at))]
fn type_param<B: Below>(
    below: B,
    arena: &mut Arena,
    depth: Depth,
    text: Text<'_>,
    at: u32,
) -> Result<Result<Part>>
    requires can { B.can below }
    requires room { depth.levels < B.most below }
    ensures grown { Grown (view arena.old) (view arena.new) }
    ensures reads { Tries text.entry at result (view arena.old) (view arena.new)
        (λ s. type_param_at (cread depth.levels) depth.conversion s) }
{
    let param = match passed(template_param(arena, depth, text, at))? {
        Ok(found) => found,
        Err(error) => return Ok(Err(error)),
    };
    if let Err(error) = stands_alone(below, arena, depth, text, param.end)? {
        return Ok(Err(error));
    }
    let id = add_type(arena, Cell::One(Tag::TypeNodeTemplateParam, param.id))?;
    Ok(Ok(Part { id, end: param.end }))
}

/// Whether the parameter is the whole type: where no arguments follow, or, in a conversion operator's type, one list
/// alone, which is then the operator's own, even if it can't be read. Where a second list follows, the first is the
/// parameter's. The first is read ahead and given back. An inner failure says that what follows belongs to the
/// parameter.
#[tactic(auto, using(demangle_cells::proofs::Grows::grows, crate::proofs::Ahead::tried_end), unfolding(demangle_grammar::specs::Code::trial_part))]
fn stands_alone<B: Below>(
    below: B,
    arena: &mut Arena,
    depth: Depth,
    text: Text<'_>,
    at: u32,
) -> Result<Result<()>>
    requires can { B.can below }
    requires room { depth.levels < B.most below }
    ensures grown { Grown (view arena.old) (view arena.new) }
    ensures reads { TestsAhead text.entry at result (view arena.old) (view arena.new)
        (λ s. trial_part (cread depth.levels) depth.conversion Row.template_args s) }
{
    if !next_is(text, at, b'I') {
        return Ok(Ok(()));
    }
    if !depth.conversion {
        return Ok(Err(Error::UnexpectedText));
    }
    match passed(arguments_ahead(below, arena, depth, text, at))? {
        Ok(end) => {
            if next_is(text, end, b'I') {
                return Ok(Err(Error::UnexpectedText));
            }
            Ok(Ok(()))
        }
        Err(_) => Ok(Ok(())),
    }
}

/// Where arguments end that are read ahead; they are given back. Once what rows answer is kept, it is recalled, or read
/// and remembered.
#[tactic(auto, using(demangle_cells::proofs::Grows::grows, crate::proofs::Ahead::ends_here))]
fn arguments_ahead<B: Below>(
    below: B,
    arena: &mut Arena,
    depth: Depth,
    text: Text<'_>,
    at: u32,
) -> Result<u32>
    requires can { B.can below }
    requires room { depth.levels < B.most below }
    ensures grown { Grown (view arena.old) (view arena.new) }
    ensures reads { EndsRow Row.template_args depth.levels depth.conversion text.entry at result
        (view arena.old) (view arena.new) }
{
    if !arena.is_late(text) {
        return arguments_tried(below, arena, depth, text, at);
    }
    if let Some(end) = arena.recall_end(RowName::TemplateArgs, depth, text, at) {
        return end;
    }
    let end = arguments_tried(below, arena, depth, text, at);
    arena.remember_end(RowName::TemplateArgs, depth, text, at, &end);
    end
}

/// Where arguments end that are read and given back.
#[tactic(auto, using(demangle_cells::proofs::Grows::grows, demangle_cells::proofs::Grows::cuts))]
fn arguments_tried<B: Below>(
    below: B,
    arena: &mut Arena,
    depth: Depth,
    text: Text<'_>,
    at: u32,
) -> Result<u32>
    requires can { B.can below }
    requires room { depth.levels < B.most below }
    ensures grown { Grown (view arena.old) (view arena.new) }
    ensures reads { EndsRow Row.template_args depth.levels depth.conversion text.entry at result
        (view arena.old) (view arena.new) }
{
    let mark = arena.mark();
    let args = template_args(below, arena, depth, text, at)?;
    arena.cut_back(mark);
    Ok(args.end)
}

/// A template that is a parameter or a substitution, with its arguments.
#[tactic(auto, using(demangle_cells::proofs::Grows::grows, demangle_cells::proofs::Grows::cuts), unfolding(demangle_forms::specs::TypeForms::type_template_at))]
fn type_template<B: Below>(
    below: B,
    arena: &mut Arena,
    depth: Depth,
    text: Text<'_>,
    at: u32,
) -> Result<Result<Part>>
    requires can { B.can below }
    requires room { depth.levels < B.most below }
    ensures grown { Grown (view arena.old) (view arena.new) }
    ensures reads { Tries text.entry at result (view arena.old) (view arena.new)
        (λ s. type_template_at (cread depth.levels) depth.conversion s) }
{
    let mark = arena.mark();
    let template = match passed(template_template_param_handle(arena, depth, text, at))? {
        Ok(found) => found,
        Err(error) => return Ok(Err(error)),
    };
    let answer = template_args(below, arena, depth, text, template.end);
    let args = restored(arena, mark, answer)?;
    let id = add_type(
        arena,
        Cell::Two(Tag::TypeNodeTemplateTemplate, template.id, args.id),
    )?;
    Ok(Ok(Part { id, end: args.end }))
}

/// A type after a mark: `P`, `R`, `O`, `C`, `G` or `Dp`.
#[tactic(auto, using(demangle_cells::proofs::Grows::grows), unfolding(demangle_forms::specs::TypeForms::type_marks_at))]
fn type_marks<B: Below>(
    below: B,
    arena: &mut Arena,
    depth: Depth,
    text: Text<'_>,
    at: u32,
) -> Result<Part>
    requires can { B.can below }
    requires room { depth.levels < B.most below }
    ensures grown { Grown (view arena.old) (view arena.new) }
    ensures reads { Reads text.entry at result (view arena.old) (view arena.new)
        (λ s. type_marks_at (cread depth.levels) depth.conversion s) }
{
    let (mark, rest) = type_mark(text, at)?;
    let inner = below.type_handle(arena, depth, text, rest)?;
    let id = add_type(arena, Cell::One(mark, inner.id))?;
    Ok(Part { id, end: inner.end })
}
