//! Node types that own memory.

ghost use Rattle.demangle_cells.specs.View.{Holds, view};
ghost use Rattle.demangle_core.specs.Core.{Core};
ghost use Rattle.demangle_leaf_nodes.specs.TreeLeaves.{tree_of_abi_tags, tree_of_bare_function_type};
ghost use Rattle.demangle_leaf_nodes.specs.TreeLeaves.{tree_of_clone_suffix, tree_of_closure_type_name};
ghost use Rattle.demangle_leaf_nodes.specs.TreeLeaves.{tree_of_lambda_sig, tree_of_nested_name};
ghost use Rattle.demangle_leaf_nodes.specs.TreeLeaves.{tree_of_unqualified_name, tree_of_unscoped_name};
ghost use Rattle.demangle_leaf_nodes.specs.TreeLeaves.{tree_of_unscoped_template_name};
ghost use Rattle.demangle_text.specs.declared.error.Error.TheVariants.{OutOfMemory};
ghost use Rattle.std.specs.Prelude.{IfErr, IfOk, ℕ, ◌≡◌};

use crate::handles::{ctor_dtor_name_from, operator_name_from, prefix_handle_from};
use crate::leaves::{
    clone_type_identifier_from, cv_qualifiers_from, source_name_from, unnamed_type_name_from,
};
use crate::lists::{abi_tag_list_from, number_list_from, type_handle_list_from};
use crate::options::{
    optional_count_from, optional_discriminator_from, optional_prefix_handle_from,
    optional_ref_qualifier_from,
};
use crate::parts::four_parts;
use crate::words::explicit_object_parameter_from;
use demangle_cells::{Arena, Plain, Tag};
use demangle_leaf_nodes::{
    AbiTags, BareFunctionType, CloneSuffix, ClosureTypeName, LambdaSig, NestedName,
    UnqualifiedName, UnscopedName, UnscopedTemplateName,
};
use demangle_text::{Error, Result};
use std::alloc::Global;

/// An `AbiTags` out of its cell. Another cell is refused as `OutOfMemory`, the only refusal. ABI section 5.1.2.
pub fn abi_tags_from(alloc: Global, arena: &Arena, id: u32) -> Result<AbiTags>
    ensures made { IfOk result (λ n. (F : ℕ → Core) → Holds F (view arena.now) → F id ≡ tree_of_abi_tags n) }
    ensures refused { IfErr result (λ e. e ≡ OutOfMemory) }
{
    match arena.cell(id) {
        Some(Plain::One(Tag::AbiTags, abi_tag_list)) => Ok(AbiTags(abi_tag_list_from(
            alloc,
            arena,
            abi_tag_list,
        )?)),
        _ => Err(Error::OutOfMemory),
    }
}

/// A `CloneSuffix` out of its cell. Another cell is refused as `OutOfMemory`, the only refusal.
pub fn clone_suffix_from(alloc: Global, arena: &Arena, id: u32) -> Result<CloneSuffix>
    ensures made { IfOk result (λ n. (F : ℕ → Core) → Holds F (view arena.now) → F id ≡ tree_of_clone_suffix n) }
    ensures refused { IfErr result (λ e. e ≡ OutOfMemory) }
{
    match arena.cell(id) {
        Some(Plain::Two(Tag::CloneSuffix, clone_type_identifier, number_list)) => Ok(CloneSuffix(
            clone_type_identifier_from(arena, clone_type_identifier)?,
            number_list_from(alloc, arena, number_list)?,
        )),
        _ => Err(Error::OutOfMemory),
    }
}

/// A `BareFunctionType` out of its cell. Another cell is refused as `OutOfMemory`, the only refusal. ABI section
/// 5.1.5.3.
pub fn bare_function_type_from(alloc: Global, arena: &Arena, id: u32) -> Result<BareFunctionType>
    ensures made { IfOk result (λ n. (F : ℕ → Core) → Holds F (view arena.now) → F id ≡ tree_of_bare_function_type n) }
    ensures refused { IfErr result (λ e. e ≡ OutOfMemory) }
{
    match arena.cell(id) {
        Some(Plain::One(Tag::BareFunctionType, type_handle_list)) => Ok(BareFunctionType(
            type_handle_list_from(alloc, arena, type_handle_list)?,
        )),
        _ => Err(Error::OutOfMemory),
    }
}

/// A `LambdaSig` out of its cell. Another cell is refused as `OutOfMemory`, the only refusal. ABI section 5.1.8.
pub fn lambda_sig_from(alloc: Global, arena: &Arena, id: u32) -> Result<LambdaSig>
    ensures made { IfOk result (λ n. (F : ℕ → Core) → Holds F (view arena.now) → F id ≡ tree_of_lambda_sig n) }
    ensures refused { IfErr result (λ e. e ≡ OutOfMemory) }
{
    match arena.cell(id) {
        Some(Plain::One(Tag::LambdaSig, type_handle_list)) => Ok(LambdaSig(type_handle_list_from(
            alloc,
            arena,
            type_handle_list,
        )?)),
        _ => Err(Error::OutOfMemory),
    }
}

/// A `ClosureTypeName` out of its cell. Another cell is refused as `OutOfMemory`, the only refusal. ABI section 5.1.8.
pub fn closure_type_name_from(alloc: Global, arena: &Arena, id: u32) -> Result<ClosureTypeName>
    ensures made { IfOk result (λ n. (F : ℕ → Core) → Holds F (view arena.now) → F id ≡ tree_of_closure_type_name n) }
    ensures refused { IfErr result (λ e. e ≡ OutOfMemory) }
{
    match arena.cell(id) {
        Some(Plain::Two(Tag::ClosureTypeName, lambda_sig, count)) => {
            let count = optional_count_from(arena, count)?;
            Ok(ClosureTypeName(lambda_sig_from(alloc, arena, lambda_sig)?, count))
        },
        _ => Err(Error::OutOfMemory),
    }
}

/// An `UnqualifiedName` out of its cell. Another cell is refused as `OutOfMemory`, the only refusal. ABI section 5.1.2.
pub fn unqualified_name_from(alloc: Global, arena: &Arena, id: u32) -> Result<UnqualifiedName>
    ensures made { IfOk result (λ n. (F : ℕ → Core) → Holds F (view arena.now) → F id ≡ tree_of_unqualified_name n) }
    ensures refused { IfErr result (λ e. e ≡ OutOfMemory) }
{
    match arena.cell(id) {
        Some(Plain::Two(Tag::UnqualifiedNameOperator, operator_name, abi_tags)) => Ok(
            UnqualifiedName::Operator(
                operator_name_from(arena, operator_name)?,
                abi_tags_from(alloc, arena, abi_tags)?,
            ),
        ),
        Some(Plain::Two(Tag::UnqualifiedNameCtorDtor, ctor_dtor_name, abi_tags)) => Ok(
            UnqualifiedName::CtorDtor(
                ctor_dtor_name_from(arena, ctor_dtor_name)?,
                abi_tags_from(alloc, arena, abi_tags)?,
            ),
        ),
        Some(Plain::Two(Tag::UnqualifiedNameSource, source_name, abi_tags)) => Ok(
            UnqualifiedName::Source(
                source_name_from(arena, source_name)?,
                abi_tags_from(alloc, arena, abi_tags)?,
            ),
        ),
        Some(
            Plain::Three(Tag::UnqualifiedNameLocalSourceName, source_name, discriminator, abi_tags),
        ) => Ok(UnqualifiedName::LocalSourceName(
            source_name_from(arena, source_name)?,
            optional_discriminator_from(arena, discriminator)?,
            abi_tags_from(alloc, arena, abi_tags)?,
        )),
        Some(Plain::Two(Tag::UnqualifiedNameUnnamedType, unnamed_type_name, abi_tags)) => Ok(
            UnqualifiedName::UnnamedType(
                unnamed_type_name_from(arena, unnamed_type_name)?,
                abi_tags_from(alloc, arena, abi_tags)?,
            ),
        ),
        Some(Plain::Two(Tag::UnqualifiedNameClosureType, closure_type_name, abi_tags)) => Ok(
            UnqualifiedName::ClosureType(
                closure_type_name_from(alloc, arena, closure_type_name)?,
                abi_tags_from(alloc, arena, abi_tags)?,
            ),
        ),
        _ => Err(Error::OutOfMemory),
    }
}

/// An `UnscopedName` out of its cell. Another cell is refused as `OutOfMemory`, the only refusal. ABI section 5.1.2.
pub fn unscoped_name_from(alloc: Global, arena: &Arena, id: u32) -> Result<UnscopedName>
    ensures made { IfOk result (λ n. (F : ℕ → Core) → Holds F (view arena.now) → F id ≡ tree_of_unscoped_name n) }
    ensures refused { IfErr result (λ e. e ≡ OutOfMemory) }
{
    match arena.cell(id) {
        Some(Plain::One(Tag::UnscopedNameUnqualified, unqualified_name)) => Ok(
            UnscopedName::Unqualified(unqualified_name_from(alloc, arena, unqualified_name)?),
        ),
        Some(Plain::One(Tag::UnscopedNameStd, unqualified_name)) => Ok(UnscopedName::Std(
            unqualified_name_from(alloc, arena, unqualified_name)?,
        )),
        _ => Err(Error::OutOfMemory),
    }
}

/// An `UnscopedTemplateName` out of its cell. Another cell is refused as `OutOfMemory`, the only refusal. ABI section
/// 5.1.2.
pub fn unscoped_template_name_from(
    alloc: Global,
    arena: &Arena,
    id: u32,
) -> Result<UnscopedTemplateName>
    ensures made { IfOk result (λ n. (F : ℕ → Core) → Holds F (view arena.now)
        → F id ≡ tree_of_unscoped_template_name n) }
    ensures refused { IfErr result (λ e. e ≡ OutOfMemory) }
{
    match arena.cell(id) {
        Some(Plain::One(Tag::UnscopedTemplateName, unscoped_name)) => Ok(UnscopedTemplateName(
            unscoped_name_from(alloc, arena, unscoped_name)?,
        )),
        _ => Err(Error::OutOfMemory),
    }
}

/// A `NestedName` out of its cell. Another cell is refused as `OutOfMemory`, the only refusal. ABI section 5.1.2.
pub fn nested_name_from(alloc: Global, arena: &Arena, id: u32) -> Result<NestedName>
    ensures made { IfOk result (λ n. (F : ℕ → Core) → Holds F (view arena.now) → F id ≡ tree_of_nested_name n) }
    ensures refused { IfErr result (λ e. e ≡ OutOfMemory) }
{
    match arena.cell(id) {
        Some(Plain::Many(Tag::NestedNameUnqualified, start, count)) => {
            let (cv_qualifiers, ref_qualifier, prefix_handle, unqualified_name) = four_parts(
                arena.indexes(start, count),
            )?;
            Ok(NestedName::Unqualified(
                cv_qualifiers_from(arena, cv_qualifiers)?,
                optional_ref_qualifier_from(arena, ref_qualifier)?,
                optional_prefix_handle_from(arena, prefix_handle)?,
                unqualified_name_from(alloc, arena, unqualified_name)?,
            ))
        }
        Some(Plain::Three(Tag::NestedNameTemplate, cv_qualifiers, ref_qualifier, prefix_handle)) =>
            Ok(NestedName::Template(
                cv_qualifiers_from(arena, cv_qualifiers)?,
                optional_ref_qualifier_from(arena, ref_qualifier)?,
                prefix_handle_from(arena, prefix_handle)?,
            )),
        Some(
            Plain::Three(
                Tag::NestedNameUnqualifiedExplicitObject,
                prefix_handle,
                unqualified_name,
                explicit_object_parameter,
            ),
        ) => {
            let explicit_object_parameter = explicit_object_parameter_from(
                arena,
                explicit_object_parameter,
            )?;
            Ok(NestedName::UnqualifiedExplicitObject(
                optional_prefix_handle_from(arena, prefix_handle)?,
                unqualified_name_from(alloc, arena, unqualified_name)?,
                explicit_object_parameter,
            ))
        },
        Some(
            Plain::Two(
                Tag::NestedNameTemplateExplicitObject,
                prefix_handle,
                explicit_object_parameter,
            ),
        ) => Ok(NestedName::TemplateExplicitObject(
            prefix_handle_from(arena, prefix_handle)?,
            explicit_object_parameter_from(arena, explicit_object_parameter)?,
        )),
        _ => Err(Error::OutOfMemory),
    }
}
