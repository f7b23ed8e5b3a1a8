//! Node types of numbers, flags and places alone.

ghost use Rattle.demangle_cells.specs.View.{Holds, view};
ghost use Rattle.demangle_core.specs.Core.{Core};
ghost use Rattle.demangle_leaf_nodes.specs.TreeLeaves.{tree_of_abi_tag, tree_of_call_offset};
ghost use Rattle.demangle_leaf_nodes.specs.TreeLeaves.{tree_of_clone_type_identifier, tree_of_cv_qualifiers};
ghost use Rattle.demangle_leaf_nodes.specs.TreeLeaves.{tree_of_data_member_prefix, tree_of_discriminator};
ghost use Rattle.demangle_leaf_nodes.specs.TreeLeaves.{tree_of_function_param, tree_of_identifier};
ghost use Rattle.demangle_leaf_nodes.specs.TreeLeaves.{tree_of_non_substitution, tree_of_nv_offset};
ghost use Rattle.demangle_leaf_nodes.specs.TreeLeaves.{tree_of_resource_name, tree_of_seq_id, tree_of_source_name};
ghost use Rattle.demangle_leaf_nodes.specs.TreeLeaves.{tree_of_template_param, tree_of_template_template_param};
ghost use Rattle.demangle_leaf_nodes.specs.TreeLeaves.{tree_of_unnamed_type_name, tree_of_v_offset};
ghost use Rattle.demangle_text.specs.declared.error.Error.TheVariants.{OutOfMemory};
ghost use Rattle.std.specs.Prelude.{IfErr, IfOk, ℕ, ◌≡◌};

use crate::options::optional_count_from;
use crate::parts::{count_from, flag_from, number_from, place_from};
use demangle_cells::{Arena, Plain, Tag};
use demangle_leaf_nodes::{
    AbiTag, CallOffset, CloneTypeIdentifier, CvQualifiers, DataMemberPrefix, Discriminator,
    FunctionParam, Identifier, NonSubstitution, NvOffset, ResourceName, SeqId, SourceName,
    TemplateParam, TemplateTemplateParam, UnnamedTypeName, VOffset,
};
use demangle_text::{Error, Result};

/// A `NonSubstitution` out of its cell. Another cell is refused as `OutOfMemory`, the only refusal.
pub fn non_substitution_from(arena: &Arena, id: u32) -> Result<NonSubstitution>
    ensures made { IfOk result (λ n. (F : ℕ → Core) → Holds F (view arena.now) → F id ≡ tree_of_non_substitution n) }
    ensures refused { IfErr result (λ e. e ≡ OutOfMemory) }
{
    match arena.cell(id) {
        Some(Plain::Other(number)) => Ok(NonSubstitution(number as usize)),
        _ => Err(Error::OutOfMemory),
    }
}

/// A `SeqId` out of its cell. Another cell is refused as `OutOfMemory`, the only refusal. ABI section 5.1.10.
pub fn seq_id_from(arena: &Arena, id: u32) -> Result<SeqId>
    ensures made { IfOk result (λ n. (F : ℕ → Core) → Holds F (view arena.now) → F id ≡ tree_of_seq_id n) }
    ensures refused { IfErr result (λ e. e ≡ OutOfMemory) }
{
    match arena.cell(id) {
        Some(Plain::One(Tag::SeqId, count)) => Ok(SeqId(count_from(arena, count)?)),
        _ => Err(Error::OutOfMemory),
    }
}

/// A `TemplateParam` out of its cell. Another cell is refused as `OutOfMemory`, the only refusal. ABI section 5.1.5.8.
pub fn template_param_from(arena: &Arena, id: u32) -> Result<TemplateParam>
    ensures made { IfOk result (λ n. (F : ℕ → Core) → Holds F (view arena.now) → F id ≡ tree_of_template_param n) }
    ensures refused { IfErr result (λ e. e ≡ OutOfMemory) }
{
    match arena.cell(id) {
        Some(Plain::One(Tag::TemplateParam, count)) => Ok(TemplateParam(count_from(arena, count)?)),
        _ => Err(Error::OutOfMemory),
    }
}

/// A `Discriminator` out of its cell. Another cell is refused as `OutOfMemory`, the only refusal. ABI section 5.1.7.
pub fn discriminator_from(arena: &Arena, id: u32) -> Result<Discriminator>
    ensures made { IfOk result (λ n. (F : ℕ → Core) → Holds F (view arena.now) → F id ≡ tree_of_discriminator n) }
    ensures refused { IfErr result (λ e. e ≡ OutOfMemory) }
{
    match arena.cell(id) {
        Some(Plain::One(Tag::Discriminator, count)) => Ok(Discriminator(count_from(arena, count)?)),
        _ => Err(Error::OutOfMemory),
    }
}

/// An `Identifier` out of its cell. Another cell is refused as `OutOfMemory`, the only refusal. ABI section 5.1.2.
pub fn identifier_from(arena: &Arena, id: u32) -> Result<Identifier>
    ensures made { IfOk result (λ n. (F : ℕ → Core) → Holds F (view arena.now) → F id ≡ tree_of_identifier n) }
    ensures refused { IfErr result (λ e. e ≡ OutOfMemory) }
{
    match arena.cell(id) {
        Some(Plain::One(Tag::Identifier, place)) => {
            let (start, end) = place_from(arena, place)?;
            Ok(Identifier { start, end })
        }
        _ => Err(Error::OutOfMemory),
    }
}

/// A `CloneTypeIdentifier` out of its cell. Another cell is refused as `OutOfMemory`, the only refusal.
pub fn clone_type_identifier_from(arena: &Arena, id: u32) -> Result<CloneTypeIdentifier>
    ensures made { IfOk result (λ n. (F : ℕ → Core) → Holds F (view arena.now)
        → F id ≡ tree_of_clone_type_identifier n) }
    ensures refused { IfErr result (λ e. e ≡ OutOfMemory) }
{
    match arena.cell(id) {
        Some(Plain::One(Tag::CloneTypeIdentifier, place)) => {
            let (start, end) = place_from(arena, place)?;
            Ok(CloneTypeIdentifier { start, end })
        }
        _ => Err(Error::OutOfMemory),
    }
}

/// A `ResourceName` out of its cell. Another cell is refused as `OutOfMemory`, the only refusal.
pub fn resource_name_from(arena: &Arena, id: u32) -> Result<ResourceName>
    ensures made { IfOk result (λ n. (F : ℕ → Core) → Holds F (view arena.now) → F id ≡ tree_of_resource_name n) }
    ensures refused { IfErr result (λ e. e ≡ OutOfMemory) }
{
    match arena.cell(id) {
        Some(Plain::One(Tag::ResourceName, place)) => {
            let (start, end) = place_from(arena, place)?;
            Ok(ResourceName { start, end })
        }
        _ => Err(Error::OutOfMemory),
    }
}

/// A `SourceName` out of its cell. Another cell is refused as `OutOfMemory`, the only refusal. ABI section 5.1.2.
pub fn source_name_from(arena: &Arena, id: u32) -> Result<SourceName>
    ensures made { IfOk result (λ n. (F : ℕ → Core) → Holds F (view arena.now) → F id ≡ tree_of_source_name n) }
    ensures refused { IfErr result (λ e. e ≡ OutOfMemory) }
{
    match arena.cell(id) {
        Some(Plain::One(Tag::SourceName, identifier)) => Ok(SourceName(identifier_from(
            arena, identifier,
        )?)),
        _ => Err(Error::OutOfMemory),
    }
}

/// An `AbiTag` out of its cell. Another cell is refused as `OutOfMemory`, the only refusal. ABI section 5.1.2.
pub fn abi_tag_from(arena: &Arena, id: u32) -> Result<AbiTag>
    ensures made { IfOk result (λ n. (F : ℕ → Core) → Holds F (view arena.now) → F id ≡ tree_of_abi_tag n) }
    ensures refused { IfErr result (λ e. e ≡ OutOfMemory) }
{
    match arena.cell(id) {
        Some(Plain::One(Tag::AbiTag, source_name)) => Ok(AbiTag(source_name_from(
            arena,
            source_name,
        )?)),
        _ => Err(Error::OutOfMemory),
    }
}

/// A `DataMemberPrefix` out of its cell. Another cell is refused as `OutOfMemory`, the only refusal. ABI section 5.1.7.
pub fn data_member_prefix_from(arena: &Arena, id: u32) -> Result<DataMemberPrefix>
    ensures made { IfOk result (λ n. (F : ℕ → Core) → Holds F (view arena.now) → F id ≡ tree_of_data_member_prefix n) }
    ensures refused { IfErr result (λ e. e ≡ OutOfMemory) }
{
    match arena.cell(id) {
        Some(Plain::One(Tag::DataMemberPrefix, source_name)) => Ok(DataMemberPrefix(
            source_name_from(arena, source_name)?,
        )),
        _ => Err(Error::OutOfMemory),
    }
}

/// A `CvQualifiers` out of its cell. Another cell is refused as `OutOfMemory`, the only refusal. ABI section 5.1.5.1.
pub fn cv_qualifiers_from(arena: &Arena, id: u32) -> Result<CvQualifiers>
    ensures made { IfOk result (λ n. (F : ℕ → Core) → Holds F (view arena.now) → F id ≡ tree_of_cv_qualifiers n) }
    ensures refused { IfErr result (λ e. e ≡ OutOfMemory) }
{
    match arena.cell(id) {
        Some(Plain::Three(Tag::CvQualifiers, restrict, volatile, const_)) => Ok(CvQualifiers {
            restrict: flag_from(arena, restrict)?,
            volatile: flag_from(arena, volatile)?,
            const_: flag_from(arena, const_)?,
        }),
        _ => Err(Error::OutOfMemory),
    }
}

/// A `NvOffset` out of its cell. Another cell is refused as `OutOfMemory`, the only refusal. ABI section 5.1.4.2.
pub fn nv_offset_from(arena: &Arena, id: u32) -> Result<NvOffset>
    ensures made { IfOk result (λ n. (F : ℕ → Core) → Holds F (view arena.now) → F id ≡ tree_of_nv_offset n) }
    ensures refused { IfErr result (λ e. e ≡ OutOfMemory) }
{
    match arena.cell(id) {
        Some(Plain::One(Tag::NvOffset, number)) => Ok(NvOffset(number_from(arena, number)?)),
        _ => Err(Error::OutOfMemory),
    }
}

/// A `VOffset` out of its cell. Another cell is refused as `OutOfMemory`, the only refusal. ABI section 5.1.4.2.
pub fn v_offset_from(arena: &Arena, id: u32) -> Result<VOffset>
    ensures made { IfOk result (λ n. (F : ℕ → Core) → Holds F (view arena.now) → F id ≡ tree_of_v_offset n) }
    ensures refused { IfErr result (λ e. e ≡ OutOfMemory) }
{
    match arena.cell(id) {
        Some(Plain::Two(Tag::VOffset, first_number, second_number)) => Ok(VOffset(
            number_from(arena, first_number)?,
            number_from(arena, second_number)?,
        )),
        _ => Err(Error::OutOfMemory),
    }
}

/// A `CallOffset` out of its cell. Another cell is refused as `OutOfMemory`, the only refusal. ABI section 5.1.4.2.
pub fn call_offset_from(arena: &Arena, id: u32) -> Result<CallOffset>
    ensures made { IfOk result (λ n. (F : ℕ → Core) → Holds F (view arena.now) → F id ≡ tree_of_call_offset n) }
    ensures refused { IfErr result (λ e. e ≡ OutOfMemory) }
{
    match arena.cell(id) {
        Some(Plain::One(Tag::CallOffsetNonVirtual, nv_offset)) => Ok(CallOffset::NonVirtual(
            nv_offset_from(arena, nv_offset)?,
        )),
        Some(Plain::One(Tag::CallOffsetVirtual, v_offset)) => Ok(CallOffset::Virtual(v_offset_from(
            arena, v_offset,
        )?)),
        _ => Err(Error::OutOfMemory),
    }
}

/// A `FunctionParam` out of its cell. Another cell is refused as `OutOfMemory`, the only refusal. ABI section 5.1.5.9.
pub fn function_param_from(arena: &Arena, id: u32) -> Result<FunctionParam>
    ensures made { IfOk result (λ n. (F : ℕ → Core) → Holds F (view arena.now) → F id ≡ tree_of_function_param n) }
    ensures refused { IfErr result (λ e. e ≡ OutOfMemory) }
{
    match arena.cell(id) {
        Some(Plain::Three(Tag::FunctionParam, first_count, cv_qualifiers, second_count)) => Ok(
            FunctionParam(
                count_from(arena, first_count)?,
                cv_qualifiers_from(arena, cv_qualifiers)?,
                optional_count_from(arena, second_count)?,
            ),
        ),
        _ => Err(Error::OutOfMemory),
    }
}

/// A `TemplateTemplateParam` out of its cell. Another cell is refused as `OutOfMemory`, the only refusal. ABI section
/// 5.1.5.8.
pub fn template_template_param_from(arena: &Arena, id: u32) -> Result<TemplateTemplateParam>
    ensures made { IfOk result (λ n. (F : ℕ → Core) → Holds F (view arena.now)
        → F id ≡ tree_of_template_template_param n) }
    ensures refused { IfErr result (λ e. e ≡ OutOfMemory) }
{
    match arena.cell(id) {
        Some(Plain::One(Tag::TemplateTemplateParam, template_param)) => Ok(TemplateTemplateParam(
            template_param_from(arena, template_param)?,
        )),
        _ => Err(Error::OutOfMemory),
    }
}

/// An `UnnamedTypeName` out of its cell. Another cell is refused as `OutOfMemory`, the only refusal. ABI section 5.1.7.
pub fn unnamed_type_name_from(arena: &Arena, id: u32) -> Result<UnnamedTypeName>
    ensures made { IfOk result (λ n. (F : ℕ → Core) → Holds F (view arena.now) → F id ≡ tree_of_unnamed_type_name n) }
    ensures refused { IfErr result (λ e. e ≡ OutOfMemory) }
{
    match arena.cell(id) {
        Some(Plain::One(Tag::UnnamedTypeName, count)) => Ok(UnnamedTypeName(optional_count_from(
            arena, count,
        )?)),
        _ => Err(Error::OutOfMemory),
    }
}
