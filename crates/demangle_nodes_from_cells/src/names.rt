//! Names, functions and variables.

ghost use Rattle.demangle_cells.specs.View.{Holds, view};
ghost use Rattle.demangle_core.specs.Core.{Core};
ghost use Rattle.demangle_nodes.specs.TreeNodes.{tree_of_encoding, tree_of_global_ctor_dtor, tree_of_local_name};
ghost use Rattle.demangle_nodes.specs.TreeNodes.{tree_of_mangled_name, tree_of_member_name, tree_of_name};
ghost use Rattle.demangle_text.specs.declared.error.Error.TheVariants.{OutOfMemory};
ghost use Rattle.std.specs.Prelude.{IfErr, IfOk, ℕ, ◌≡◌};

use crate::arguments::template_args_by;
use crate::below::Below;
use crate::options::optional_boxed_name_by;
use crate::parts::{boxed, kept};
use crate::special_names::special_name_by;
use demangle_cells::{Arena, Plain, Tag};
use demangle_entries::{Encoding, GlobalCtorDtor, LocalName, MangledName, MemberName, Name};
use demangle_leaves_from_cells::{
    bare_function_type_from, clone_suffix_list_from, nested_name_from, optional_discriminator_from,
    optional_number_from, type_handle_from, unscoped_name_from, unscoped_template_name_handle_from,
};
use demangle_text::{Error, Result};
use std::alloc::Global;

/// A `MangledName`, ABI section 5.1.2.
#[tactic(auto, using(demangle_nodes::proofs::Parts::parts_mangled_name))]
pub(crate) fn mangled_name_by<B: Below>(
    below: B,
    alloc: Global,
    arena: &Arena,
    id: u32,
) -> Result<MangledName>
    requires can { B.can below }
    ensures made { IfOk result (λ n. (F : ℕ → Core) → Holds F (view arena.now) → F id ≡ tree_of_mangled_name n) }
    ensures refused { IfErr result (λ e. e ≡ OutOfMemory) }
{
    match arena.cell(id) {
        Some(Plain::Two(Tag::MangledNameEncoding, encoding, clone_suffix_list)) => {
            let encoding = below.encoding(alloc, arena, encoding)?;
            let (encoding, clone_suffix_list) = kept(
                encoding,
                clone_suffix_list_from(alloc, arena, clone_suffix_list),
            )?;
            Ok(MangledName::Encoding(encoding, clone_suffix_list))
        }
        Some(Plain::Two(Tag::MangledNameBlockInvoke, encoding, number)) => {
            let number = optional_number_from(arena, number)?;
            let encoding = below.encoding(alloc, arena, encoding)?;
            Ok(MangledName::BlockInvoke(encoding, number))
        }
        Some(Plain::One(Tag::MangledNameTopLevelType, type_handle)) => Ok(MangledName::TopLevelType(
            type_handle_from(arena, type_handle)?,
        )),
        Some(Plain::One(Tag::MangledNameGlobalCtorDtor, global_ctor_dtor)) => Ok(
            MangledName::GlobalCtorDtor(global_ctor_dtor_by(
                below,
                alloc,
                arena,
                global_ctor_dtor,
            )?),
        ),
        _ => Err(Error::OutOfMemory),
    }
}

/// An `Encoding`, ABI section 5.1.2.
#[tactic(auto, using(demangle_nodes::proofs::Parts::parts_encoding))]
pub(crate) fn encoding_by<B: Below>(
    below: B,
    alloc: Global,
    arena: &Arena,
    id: u32,
) -> Result<Encoding>
    requires can { B.can below }
    ensures made { IfOk result (λ n. (F : ℕ → Core) → Holds F (view arena.now) → F id ≡ tree_of_encoding n) }
    ensures refused { IfErr result (λ e. e ≡ OutOfMemory) }
{
    match arena.cell(id) {
        Some(Plain::Two(Tag::EncodingFunction, name, bare_function_type)) => {
            let name = below.name(alloc, arena, name)?;
            let (name, bare_function_type) = kept(
                name,
                bare_function_type_from(alloc, arena, bare_function_type),
            )?;
            Ok(Encoding::Function(name, bare_function_type))
        }
        Some(Plain::One(Tag::EncodingData, name)) => Ok(Encoding::Data(below.name(
            alloc, arena, name,
        )?)),
        Some(Plain::One(Tag::EncodingSpecial, special_name)) => Ok(Encoding::Special(boxed(
            alloc,
            special_name_by(below, alloc, arena, special_name),
        )?)),
        _ => Err(Error::OutOfMemory),
    }
}

/// A `GlobalCtorDtor`.
#[tactic(auto, using(demangle_nodes::proofs::Parts::parts_global_ctor_dtor))]
pub(crate) fn global_ctor_dtor_by<B: Below>(
    below: B,
    alloc: Global,
    arena: &Arena,
    id: u32,
) -> Result<GlobalCtorDtor>
    requires can { B.can below }
    ensures made { IfOk result (λ n. (F : ℕ → Core) → Holds F (view arena.now) → F id ≡ tree_of_global_ctor_dtor n) }
    ensures refused { IfErr result (λ e. e ≡ OutOfMemory) }
{
    match arena.cell(id) {
        Some(Plain::One(Tag::GlobalCtorDtorCtor, mangled_name)) => Ok(GlobalCtorDtor::Ctor(boxed(
            alloc,
            below.mangled_name(alloc, arena, mangled_name),
        )?)),
        Some(Plain::One(Tag::GlobalCtorDtorDtor, mangled_name)) => Ok(GlobalCtorDtor::Dtor(boxed(
            alloc,
            below.mangled_name(alloc, arena, mangled_name),
        )?)),
        _ => Err(Error::OutOfMemory),
    }
}

/// A `Name`, ABI section 5.1.2.
#[tactic(auto, using(demangle_nodes::proofs::Parts::parts_name))]
pub(crate) fn name_by<B: Below>(below: B, alloc: Global, arena: &Arena, id: u32) -> Result<Name>
    requires can { B.can below }
    ensures made { IfOk result (λ n. (F : ℕ → Core) → Holds F (view arena.now) → F id ≡ tree_of_name n) }
    ensures refused { IfErr result (λ e. e ≡ OutOfMemory) }
{
    match arena.cell(id) {
        Some(Plain::One(Tag::NameNested, nested_name)) => Ok(Name::Nested(nested_name_from(
            alloc,
            arena,
            nested_name,
        )?)),
        Some(Plain::One(Tag::NameUnscoped, unscoped_name)) => Ok(Name::Unscoped(unscoped_name_from(
            alloc,
            arena,
            unscoped_name,
        )?)),
        Some(Plain::Two(Tag::NameUnscopedTemplate, unscoped_template_name_handle, template_args)) =>
            {
                let unscoped_template_name_handle = unscoped_template_name_handle_from(
                    arena,
                    unscoped_template_name_handle,
                )?;
                let template_args = template_args_by(below, alloc, arena, template_args)?;
                Ok(Name::UnscopedTemplate(unscoped_template_name_handle, template_args))
            }
        Some(Plain::One(Tag::NameLocal, local_name)) => Ok(Name::Local(local_name_by(
            below, alloc, arena, local_name,
        )?)),
        _ => Err(Error::OutOfMemory),
    }
}

/// A `MemberName`, ABI section 5.1.6.
pub(crate) fn member_name_by<B: Below>(
    below: B,
    alloc: Global,
    arena: &Arena,
    id: u32,
) -> Result<MemberName>
    requires can { B.can below }
    ensures made { IfOk result (λ n. (F : ℕ → Core) → Holds F (view arena.now) → F id ≡ tree_of_member_name n) }
    ensures refused { IfErr result (λ e. e ≡ OutOfMemory) }
{
    match arena.cell(id) {
        Some(Plain::One(Tag::MemberName, name)) => Ok(MemberName(boxed(
            alloc,
            below.name(alloc, arena, name),
        )?)),
        _ => Err(Error::OutOfMemory),
    }
}

/// A `LocalName`, ABI section 5.1.7.
#[tactic(auto, using(demangle_nodes::proofs::Parts::parts_local_name))]
pub(crate) fn local_name_by<B: Below>(
    below: B,
    alloc: Global,
    arena: &Arena,
    id: u32,
) -> Result<LocalName>
    requires can { B.can below }
    ensures made { IfOk result (λ n. (F : ℕ → Core) → Holds F (view arena.now) → F id ≡ tree_of_local_name n) }
    ensures refused { IfErr result (λ e. e ≡ OutOfMemory) }
{
    match arena.cell(id) {
        Some(Plain::Three(Tag::LocalNameRelative, encoding, name, discriminator)) => {
            let discriminator = optional_discriminator_from(arena, discriminator)?;
            let encoding = boxed(alloc, below.encoding(alloc, arena, encoding))?;
            let (encoding, name) = kept(
                encoding,
                optional_boxed_name_by(below, alloc, arena, name),
            )?;
            Ok(LocalName::Relative(encoding, name, discriminator))
        }
        Some(Plain::Three(Tag::LocalNameDefault, encoding, number, name)) => {
            let number = optional_number_from(arena, number)?;
            let encoding = boxed(alloc, below.encoding(alloc, arena, encoding))?;
            let (encoding, name) = kept(encoding, boxed(alloc, below.name(alloc, arena, name)))?;
            Ok(LocalName::Default(encoding, number, name))
        }
        _ => Err(Error::OutOfMemory),
    }
}
