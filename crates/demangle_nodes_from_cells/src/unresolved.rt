//! Unresolved names.

ghost use Rattle.demangle_cells.specs.View.{Holds, view};
ghost use Rattle.demangle_core.specs.Core.{Core};
ghost use Rattle.demangle_nodes.specs.TreeNodes.{tree_of_base_unresolved_name, tree_of_destructor_name};
ghost use Rattle.demangle_nodes.specs.TreeNodes.{tree_of_simple_id, tree_of_unresolved_name};
ghost use Rattle.demangle_nodes.specs.TreeNodes.{tree_of_unresolved_qualifier_level};
ghost use Rattle.demangle_text.specs.declared.error.Error.TheVariants.{OutOfMemory};
ghost use Rattle.std.specs.Prelude.{IfErr, IfOk, ℕ, ◌≡◌};

use crate::below::Below;
use crate::lists::unresolved_qualifier_level_list_by;
use crate::options::optional_template_args_by;
use crate::parts::kept;
use demangle_cells::{Arena, Plain, Tag};
use demangle_entries::{
    BaseUnresolvedName, DestructorName, SimpleId, UnresolvedName, UnresolvedQualifierLevel,
};
use demangle_leaves_from_cells::{
    operator_name_from, source_name_from, unresolved_type_handle_from,
};
use demangle_text::{Error, Result};
use std::alloc::Global;

/// An `UnresolvedName`, ABI section 5.1.6.
#[tactic(auto, using(demangle_nodes::proofs::Parts::parts_unresolved_name))]
pub(crate) fn unresolved_name_by<B: Below>(
    below: B,
    alloc: Global,
    arena: &Arena,
    id: u32,
) -> Result<UnresolvedName>
    requires can { B.can below }
    ensures made { IfOk result (λ n. (F : ℕ → Core) → Holds F (view arena.now) → F id ≡ tree_of_unresolved_name n) }
    ensures refused { IfErr result (λ e. e ≡ OutOfMemory) }
{
    match arena.cell(id) {
        Some(Plain::One(Tag::UnresolvedNameName, base_unresolved_name)) => Ok(UnresolvedName::Name(
            base_unresolved_name_by(below, alloc, arena, base_unresolved_name)?,
        )),
        Some(Plain::One(Tag::UnresolvedNameGlobal, base_unresolved_name)) => Ok(
            UnresolvedName::Global(base_unresolved_name_by(
                below,
                alloc,
                arena,
                base_unresolved_name,
            )?),
        ),
        Some(
            Plain::Three(
                Tag::UnresolvedNameNested1,
                unresolved_type_handle,
                unresolved_qualifier_level_list,
                base_unresolved_name,
            ),
        ) => {
            let unresolved_type_handle = unresolved_type_handle_from(
                arena,
                unresolved_type_handle,
            )?;
            let unresolved_qualifier_level_list = unresolved_qualifier_level_list_by(
                below,
                alloc,
                arena,
                unresolved_qualifier_level_list,
            )?;
            let (unresolved_qualifier_level_list, base_unresolved_name) = kept(
                unresolved_qualifier_level_list,
                base_unresolved_name_by(below, alloc, arena, base_unresolved_name),
            )?;
            Ok(UnresolvedName::Nested1(
                unresolved_type_handle,
                unresolved_qualifier_level_list,
                base_unresolved_name,
            ))
        }
        Some(
            Plain::Two(
                Tag::UnresolvedNameNested2,
                unresolved_qualifier_level_list,
                base_unresolved_name,
            ),
        ) => {
            let unresolved_qualifier_level_list = unresolved_qualifier_level_list_by(
                below,
                alloc,
                arena,
                unresolved_qualifier_level_list,
            )?;
            let (unresolved_qualifier_level_list, base_unresolved_name) = kept(
                unresolved_qualifier_level_list,
                base_unresolved_name_by(below, alloc, arena, base_unresolved_name),
            )?;
            Ok(UnresolvedName::Nested2(unresolved_qualifier_level_list, base_unresolved_name))
        }
        Some(
            Plain::Two(
                Tag::UnresolvedNameGlobalNested2,
                unresolved_qualifier_level_list,
                base_unresolved_name,
            ),
        ) => {
            let unresolved_qualifier_level_list = unresolved_qualifier_level_list_by(
                below,
                alloc,
                arena,
                unresolved_qualifier_level_list,
            )?;
            let (unresolved_qualifier_level_list, base_unresolved_name) = kept(
                unresolved_qualifier_level_list,
                base_unresolved_name_by(below, alloc, arena, base_unresolved_name),
            )?;
            Ok(UnresolvedName::GlobalNested2(unresolved_qualifier_level_list, base_unresolved_name))
        }
        _ => Err(Error::OutOfMemory),
    }
}

/// An `UnresolvedQualifierLevel`, ABI section 5.1.6.
#[tactic(auto, using(demangle_nodes::proofs::Parts::parts_unresolved_qualifier_level))]
pub(crate) fn unresolved_qualifier_level_by<B: Below>(
    below: B,
    alloc: Global,
    arena: &Arena,
    id: u32,
) -> Result<UnresolvedQualifierLevel>
    requires can { B.can below }
    ensures made { IfOk result (λ n. (F : ℕ → Core) → Holds F (view arena.now)
        → F id ≡ tree_of_unresolved_qualifier_level n) }
    ensures refused { IfErr result (λ e. e ≡ OutOfMemory) }
{
    match arena.cell(id) {
        Some(Plain::One(Tag::UnresolvedQualifierLevel, simple_id)) => Ok(UnresolvedQualifierLevel(
            simple_id_by(below, alloc, arena, simple_id)?,
        )),
        _ => Err(Error::OutOfMemory),
    }
}

/// A `SimpleId`, ABI section 5.1.6.
#[tactic(auto, using(demangle_nodes::proofs::Parts::parts_simple_id))]
pub(crate) fn simple_id_by<B: Below>(
    below: B,
    alloc: Global,
    arena: &Arena,
    id: u32,
) -> Result<SimpleId>
    requires can { B.can below }
    ensures made { IfOk result (λ n. (F : ℕ → Core) → Holds F (view arena.now) → F id ≡ tree_of_simple_id n) }
    ensures refused { IfErr result (λ e. e ≡ OutOfMemory) }
{
    match arena.cell(id) {
        Some(Plain::Two(Tag::SimpleId, source_name, template_args)) => {
            let source_name = source_name_from(arena, source_name)?;
            let template_args = optional_template_args_by(below, alloc, arena, template_args)?;
            Ok(SimpleId(source_name, template_args))
        }
        _ => Err(Error::OutOfMemory),
    }
}

/// A `BaseUnresolvedName`, ABI section 5.1.6.
#[tactic(auto, using(demangle_nodes::proofs::Parts::parts_base_unresolved_name))]
pub(crate) fn base_unresolved_name_by<B: Below>(
    below: B,
    alloc: Global,
    arena: &Arena,
    id: u32,
) -> Result<BaseUnresolvedName>
    requires can { B.can below }
    ensures made { IfOk result (λ n. (F : ℕ → Core) → Holds F (view arena.now)
        → F id ≡ tree_of_base_unresolved_name n) }
    ensures refused { IfErr result (λ e. e ≡ OutOfMemory) }
{
    match arena.cell(id) {
        Some(Plain::One(Tag::BaseUnresolvedNameName, simple_id)) => Ok(BaseUnresolvedName::Name(
            simple_id_by(below, alloc, arena, simple_id)?,
        )),
        Some(Plain::Two(Tag::BaseUnresolvedNameOperator, operator_name, template_args)) => {
            let operator_name = operator_name_from(arena, operator_name)?;
            let template_args = optional_template_args_by(below, alloc, arena, template_args)?;
            Ok(BaseUnresolvedName::Operator(operator_name, template_args))
        }
        Some(Plain::One(Tag::BaseUnresolvedNameDestructor, destructor_name)) => Ok(
            BaseUnresolvedName::Destructor(destructor_name_by(
                below,
                alloc,
                arena,
                destructor_name,
            )?),
        ),
        _ => Err(Error::OutOfMemory),
    }
}

/// A `DestructorName`, ABI section 5.1.6.
#[tactic(auto, using(demangle_nodes::proofs::Parts::parts_destructor_name))]
pub(crate) fn destructor_name_by<B: Below>(
    below: B,
    alloc: Global,
    arena: &Arena,
    id: u32,
) -> Result<DestructorName>
    requires can { B.can below }
    ensures made { IfOk result (λ n. (F : ℕ → Core) → Holds F (view arena.now) → F id ≡ tree_of_destructor_name n) }
    ensures refused { IfErr result (λ e. e ≡ OutOfMemory) }
{
    match arena.cell(id) {
        Some(Plain::One(Tag::DestructorNameUnresolved, unresolved_type_handle)) => Ok(
            DestructorName::Unresolved(unresolved_type_handle_from(arena, unresolved_type_handle)?),
        ),
        Some(Plain::One(Tag::DestructorNameName, simple_id)) => Ok(DestructorName::Name(
            simple_id_by(below, alloc, arena, simple_id)?,
        )),
        _ => Err(Error::OutOfMemory),
    }
}
