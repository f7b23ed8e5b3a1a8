//! Lists.

ghost use Rattle.demangle_cells.specs.Cells.{row};
ghost use Rattle.demangle_cells.specs.View.{Holds, view};
ghost use Rattle.demangle_core.specs.Core.{Core, trees};
ghost use Rattle.demangle_leaves_from_cells.specs.Lists.{several};
ghost use Rattle.demangle_nodes.specs.TreeNodes.{parts_of_expression, parts_of_template_arg};
ghost use Rattle.demangle_nodes.specs.TreeNodes.{parts_of_unresolved_qualifier_level, tag_of_expression};
ghost use Rattle.demangle_nodes.specs.TreeNodes.{tag_of_template_arg, tag_of_unresolved_qualifier_level};
ghost use Rattle.demangle_text.specs.declared.error.Error.TheVariants.{OutOfMemory};
ghost use Rattle.std.specs.Prelude.{IfErr, IfOk, ℕ, ◌≡◌};

use crate::below::Below;
use crate::parts::{grown, kept};
use crate::unresolved::unresolved_qualifier_level_by;
use demangle_cells::{Arena, Plain, Tag};
use demangle_entries::{Expression, TemplateArg, UnresolvedQualifierLevel};
use demangle_text::{Error, Result};
use std::alloc::Global;

/// A list of `Expression`.
pub(crate) fn expression_list_by<B: Below>(
    below: B,
    alloc: Global,
    arena: &Arena,
    id: u32,
) -> Result<Vec<Expression>>
    requires can { B.can below }
    ensures made { IfOk result (λ n. (F : ℕ → Core) → Holds F (view arena.now)
        → F id ≡ several (trees tag_of_expression parts_of_expression n.items)) }
    ensures refused { IfErr result (λ e. e ≡ OutOfMemory) }
{
    match arena.cell(id) {
        Some(Plain::Empty(Tag::Several)) => Ok(Vec::new(alloc)),
        Some(Plain::Many(Tag::Several, start, count)) => expression_list_of(
            below,
            alloc,
            arena,
            arena.indexes(start, count),
        ),
        _ => Err(Error::OutOfMemory),
    }
}

/// The nodes of these indexes.
fn expression_list_of<B: Below>(
    below: B,
    alloc: Global,
    arena: &Arena,
    ids: &[u32],
) -> Result<Vec<Expression>>
    requires can { B.can below }
    ensures made { IfOk result (λ n. (F : ℕ → Core) → Holds F (view arena.now)
        → row F ids.now ≡ trees tag_of_expression parts_of_expression n.items) }
    ensures refused { IfErr result (λ e. e ≡ OutOfMemory) }
{
    let mut list = Vec::new(alloc);
    for id in ids {
        let (held, next) = kept(list, below.expression(alloc, arena, *id))?;
        list = grown(held, next)?;
    }
    Ok(list)
}

/// A list of `TemplateArg`.
pub(crate) fn template_arg_list_by<B: Below>(
    below: B,
    alloc: Global,
    arena: &Arena,
    id: u32,
) -> Result<Vec<TemplateArg>>
    requires can { B.can below }
    ensures made { IfOk result (λ n. (F : ℕ → Core) → Holds F (view arena.now)
        → F id ≡ several (trees tag_of_template_arg parts_of_template_arg n.items)) }
    ensures refused { IfErr result (λ e. e ≡ OutOfMemory) }
{
    match arena.cell(id) {
        Some(Plain::Empty(Tag::Several)) => Ok(Vec::new(alloc)),
        Some(Plain::Many(Tag::Several, start, count)) => template_arg_list_of(
            below,
            alloc,
            arena,
            arena.indexes(start, count),
        ),
        _ => Err(Error::OutOfMemory),
    }
}

/// The nodes of these indexes.
fn template_arg_list_of<B: Below>(
    below: B,
    alloc: Global,
    arena: &Arena,
    ids: &[u32],
) -> Result<Vec<TemplateArg>>
    requires can { B.can below }
    ensures made { IfOk result (λ n. (F : ℕ → Core) → Holds F (view arena.now)
        → row F ids.now ≡ trees tag_of_template_arg parts_of_template_arg n.items) }
    ensures refused { IfErr result (λ e. e ≡ OutOfMemory) }
{
    let mut list = Vec::new(alloc);
    for id in ids {
        let (held, next) = kept(list, below.template_arg(alloc, arena, *id))?;
        list = grown(held, next)?;
    }
    Ok(list)
}

/// A list of `UnresolvedQualifierLevel`.
pub(crate) fn unresolved_qualifier_level_list_by<B: Below>(
    below: B,
    alloc: Global,
    arena: &Arena,
    id: u32,
) -> Result<Vec<UnresolvedQualifierLevel>>
    requires can { B.can below }
    ensures made { IfOk result (λ n. (F : ℕ → Core) → Holds F (view arena.now)
        → F id ≡ several (trees tag_of_unresolved_qualifier_level parts_of_unresolved_qualifier_level n.items)) }
    ensures refused { IfErr result (λ e. e ≡ OutOfMemory) }
{
    match arena.cell(id) {
        Some(Plain::Empty(Tag::Several)) => Ok(Vec::new(alloc)),
        Some(Plain::Many(Tag::Several, start, count)) => unresolved_qualifier_level_list_of(
            below,
            alloc,
            arena,
            arena.indexes(start, count),
        ),
        _ => Err(Error::OutOfMemory),
    }
}

/// The nodes of these indexes.
fn unresolved_qualifier_level_list_of<B: Below>(
    below: B,
    alloc: Global,
    arena: &Arena,
    ids: &[u32],
) -> Result<Vec<UnresolvedQualifierLevel>>
    requires can { B.can below }
    ensures made { IfOk result (λ n. (F : ℕ → Core) → Holds F (view arena.now)
        → row F ids.now ≡ trees tag_of_unresolved_qualifier_level parts_of_unresolved_qualifier_level n.items) }
    ensures refused { IfErr result (λ e. e ≡ OutOfMemory) }
{
    let mut list = Vec::new(alloc);
    for id in ids {
        let (held, next) = kept(
            list,
            unresolved_qualifier_level_by(below, alloc, arena, *id),
        )?;
        list = grown(held, next)?;
    }
    Ok(list)
}
