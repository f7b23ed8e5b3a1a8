//! What unresolved names are made of: scopes, types, identifiers with arguments, destructors.

ghost use Rattle.std.specs.Prelude.{◌≤◌};
ghost use Rattle.demangle_grammar.specs.Rule.{Row};
ghost use Rattle.demangle_cells.specs.Reads.{ReadsRow};
ghost use Rattle.demangle_cells.specs.View.{Grown, view};

use demangle_cells::{Arena, Cell, Depth, Part, Tag, Text, passed};
use demangle_read_below::Below;
use demangle_read_rows::{add_unresolved_type, source_name, substitution, template_param, word};
use demangle_read_types::{decltype, made_one, made_two, optional_template_args, restored};
use demangle_read_unqualified::operator_name;
use demangle_text::Result;

/// One scope of an unresolved name, ABI section 5.1.6.
///
/// ```text
/// <unresolved-qualifier-level> ::= <simple-id>
/// ```
#[tactic(auto, using(demangle_cells::proofs::Grows::grows), unfolding(demangle_grammar::specs::Code::cread, demangle_grammar::specs::Rows::rule))]
pub fn unresolved_qualifier_level<B: Below>(
    below: B,
    arena: &mut Arena,
    depth: Depth,
    text: Text<'_>,
    at: u32,
) -> Result<Part>
    requires can { B.can below }
    requires room { depth.levels ≤ B.most below }
    ensures grown { Grown (view arena.old) (view arena.new) }
    ensures reads { ReadsRow Row.unresolved_qualifier_level depth.levels depth.conversion text.entry at result
        (view arena.old) (view arena.new) }
{
    let depth = depth.enter()?;
    let id = simple_id(below, arena, depth, text, at)?;
    made_one(arena, Tag::UnresolvedQualifierLevel, id)
}

/// An identifier with its template arguments, ABI section 5.1.6.
///
/// ```text
/// <simple-id> ::= <source-name> [<template-args>]
/// ```
#[tactic(auto, using(crate::proofs::RowsRead::simple_id_is, demangle_cells::proofs::Grows::grows), unfolding(demangle_read_types::specs::RowsRead::row_read, demangle_grammar::specs::Rows::rule))]
pub fn simple_id<B: Below>(
    below: B,
    arena: &mut Arena,
    depth: Depth,
    text: Text<'_>,
    at: u32,
) -> Result<Part>
    requires can { B.can below }
    requires room { depth.levels ≤ B.most below }
    ensures grown { Grown (view arena.old) (view arena.new) }
    ensures reads { ReadsRow Row.simple_id depth.levels depth.conversion text.entry at result
        (view arena.old) (view arena.new) }
{
    let depth = depth.enter()?;
    let name = source_name(arena, depth, text, at)?;
    let args = optional_template_args(below, arena, depth, text, name.end)?;
    made_two(arena, Tag::SimpleId, name.id, args)
}

/// The type that an unresolved name belongs to, ABI section 5.1.6. Unless it is a substitution, it becomes a numbered
/// component.
///
/// ```text
/// <unresolved-type> ::= <template-param> [<template-args>] | <decltype> | <substitution>
/// ```
#[tactic(auto, using(crate::proofs::RowsRead::unresolved_type_is, demangle_cells::proofs::Grows::grows), unfolding(demangle_read_types::specs::RowsRead::row_read, demangle_grammar::specs::Rows::rule))]
pub fn unresolved_type_handle<B: Below>(
    below: B,
    arena: &mut Arena,
    depth: Depth,
    text: Text<'_>,
    at: u32,
) -> Result<Part>
    requires can { B.can below }
    requires room { depth.levels ≤ B.most below }
    ensures grown { Grown (view arena.old) (view arena.new) }
    ensures reads { ReadsRow Row.unresolved_type_handle depth.levels depth.conversion text.entry at result
        (view arena.old) (view arena.new) }
{
    let depth = depth.enter()?;
    if let Ok(param) = passed(template_param(arena, depth, text, at))? {
        let args = optional_template_args(below, arena, depth, text, param.end)?;
        let cell = Cell::Two(Tag::UnresolvedTypeTemplate, param.id, args.id);
        let id = add_unresolved_type(arena, cell)?;
        return Ok(Part { id, end: args.end });
    }
    if let Ok(found) = passed(decltype(below, arena, depth, text, at))? {
        let cell = Cell::One(Tag::UnresolvedTypeDecltype, found.id);
        let id = add_unresolved_type(arena, cell)?;
        return Ok(Part { id, end: found.end });
    }
    substitution(arena, depth, text, at)
}

/// The type behind the `~` of a destructor, ABI section 5.1.6.
///
/// ```text
/// <destructor-name> ::= <unresolved-type> | <simple-id>
/// ```
#[tactic(auto, using(demangle_cells::proofs::Grows::grows), unfolding(demangle_grammar::specs::Code::cread, demangle_grammar::specs::Rows::rule))]
pub fn destructor_name<B: Below>(
    below: B,
    arena: &mut Arena,
    depth: Depth,
    text: Text<'_>,
    at: u32,
) -> Result<Part>
    requires can { B.can below }
    requires room { depth.levels ≤ B.most below }
    ensures grown { Grown (view arena.old) (view arena.new) }
    ensures reads { ReadsRow Row.destructor_name depth.levels depth.conversion text.entry at result
        (view arena.old) (view arena.new) }
{
    let depth = depth.enter()?;
    if let Ok(ty) = passed(unresolved_type_handle(below, arena, depth, text, at))? {
        return made_one(arena, Tag::DestructorNameUnresolved, ty);
    }
    let id = simple_id(below, arena, depth, text, at)?;
    made_one(arena, Tag::DestructorNameName, id)
}

/// An unresolved name without its scopes, ABI section 5.1.6.
///
/// ```text
/// <base-unresolved-name> ::= <simple-id> | on <operator-name> [<template-args>] | dn <destructor-name>
/// ```
#[tactic(auto, using(crate::proofs::RowsRead::base_unresolved_name_is, demangle_cells::proofs::Grows::grows, demangle_cells::proofs::Grows::cuts), unfolding(demangle_read_types::specs::RowsRead::row_read, demangle_grammar::specs::Rows::rule))]
pub fn base_unresolved_name<B: Below>(
    below: B,
    arena: &mut Arena,
    depth: Depth,
    text: Text<'_>,
    at: u32,
) -> Result<Part>
    requires can { B.can below }
    requires room { depth.levels ≤ B.most below }
    ensures grown { Grown (view arena.old) (view arena.new) }
    ensures reads { ReadsRow Row.base_unresolved_name depth.levels depth.conversion text.entry at result
        (view arena.old) (view arena.new) }
{
    let depth = depth.enter()?;
    let mark = arena.mark();
    if let Ok(id) = passed(simple_id(below, arena, depth, text, at))? {
        return made_one(arena, Tag::BaseUnresolvedNameName, id);
    }
    if let Ok(rest) = word(text, at, b"on") {
        let operator = operator_name(below, arena, depth, text, rest)?;
        let answer = optional_template_args(below, arena, depth, text, operator.end);
        let args = restored(arena, mark, answer)?;
        return made_two(arena, Tag::BaseUnresolvedNameOperator, operator.id, args);
    }
    let rest = word(text, at, b"dn")?;
    let destructor = destructor_name(below, arena, depth, text, rest)?;
    made_one(arena, Tag::BaseUnresolvedNameDestructor, destructor)
}
