//! What the compiler makes.

ghost use Rattle.demangle_cells.specs.View.{Holds, view};
ghost use Rattle.demangle_core.specs.Core.{Core};
ghost use Rattle.demangle_nodes.specs.TreeNodes.{tree_of_special_name};
ghost use Rattle.demangle_nodes_from_cells.specs.Node.{node_of};
ghost use Rattle.demangle_text.specs.declared.error.Error.TheVariants.{OutOfMemory};
ghost use Rattle.std.specs.Prelude.{IfErr, IfOk, [], ℕ, ◌∷◌, ◌≡◌};

use crate::below::Below;
use crate::parts::boxed;
use demangle_cells::{Arena, Plain, Tag};
use demangle_entries::SpecialName;
use demangle_leaves_from_cells::{
    call_offset_from, count_from, resource_name_list_from, type_handle_from,
};
use demangle_text::{Error, Result};
use std::alloc::Global;

/// A `SpecialName::VirtualTable` of these parts.
#[tactic(auto, using(demangle_nodes::proofs::Parts::special_name_virtual_table))]
fn special_name_virtual_table<B: Below>(
    below: B,
    alloc: Global,
    arena: &Arena,
    type_handle: u32,
) -> Result<SpecialName>
    requires can { B.can below }
    ensures made { IfOk result (λ n. (F : ℕ → Core) → Holds F (view arena.now)
        → node_of F Tag.SpecialNameVirtualTable (type_handle ∷ []) ≡ tree_of_special_name n) }
    ensures refused { IfErr result (λ e. e ≡ OutOfMemory) }
{
    Ok(SpecialName::VirtualTable(type_handle_from(arena, type_handle)?))
}

/// A `SpecialName::Vtt` of these parts.
#[tactic(auto, using(demangle_nodes::proofs::Parts::special_name_vtt))]
fn special_name_vtt<B: Below>(
    below: B,
    alloc: Global,
    arena: &Arena,
    type_handle: u32,
) -> Result<SpecialName>
    requires can { B.can below }
    ensures made { IfOk result (λ n. (F : ℕ → Core) → Holds F (view arena.now)
        → node_of F Tag.SpecialNameVtt (type_handle ∷ []) ≡ tree_of_special_name n) }
    ensures refused { IfErr result (λ e. e ≡ OutOfMemory) }
{
    Ok(SpecialName::Vtt(type_handle_from(arena, type_handle)?))
}

/// A `SpecialName::Typeinfo` of these parts.
#[tactic(auto, using(demangle_nodes::proofs::Parts::special_name_typeinfo))]
fn special_name_typeinfo<B: Below>(
    below: B,
    alloc: Global,
    arena: &Arena,
    type_handle: u32,
) -> Result<SpecialName>
    requires can { B.can below }
    ensures made { IfOk result (λ n. (F : ℕ → Core) → Holds F (view arena.now)
        → node_of F Tag.SpecialNameTypeinfo (type_handle ∷ []) ≡ tree_of_special_name n) }
    ensures refused { IfErr result (λ e. e ≡ OutOfMemory) }
{
    Ok(SpecialName::Typeinfo(type_handle_from(arena, type_handle)?))
}

/// A `SpecialName::TypeinfoName` of these parts.
#[tactic(auto, using(demangle_nodes::proofs::Parts::special_name_typeinfo_name))]
fn special_name_typeinfo_name<B: Below>(
    below: B,
    alloc: Global,
    arena: &Arena,
    type_handle: u32,
) -> Result<SpecialName>
    requires can { B.can below }
    ensures made { IfOk result (λ n. (F : ℕ → Core) → Holds F (view arena.now)
        → node_of F Tag.SpecialNameTypeinfoName (type_handle ∷ []) ≡ tree_of_special_name n) }
    ensures refused { IfErr result (λ e. e ≡ OutOfMemory) }
{
    Ok(SpecialName::TypeinfoName(type_handle_from(arena, type_handle)?))
}

/// A `SpecialName::VirtualOverrideThunk` of these parts.
#[tactic(auto, using(demangle_nodes::proofs::Parts::special_name_virtual_override_thunk))]
fn special_name_virtual_override_thunk<B: Below>(
    below: B,
    alloc: Global,
    arena: &Arena,
    call_offset: u32,
    encoding: u32,
) -> Result<SpecialName>
    requires can { B.can below }
    ensures made { IfOk result (λ n. (F : ℕ → Core) → Holds F (view arena.now)
        → node_of F Tag.SpecialNameVirtualOverrideThunk (call_offset ∷ encoding ∷ []) ≡ tree_of_special_name n) }
    ensures refused { IfErr result (λ e. e ≡ OutOfMemory) }
{
    let call_offset = call_offset_from(arena, call_offset)?;
    let encoding = boxed(alloc, below.encoding(alloc, arena, encoding))?;
    Ok(SpecialName::VirtualOverrideThunk(call_offset, encoding))
}

/// A `SpecialName::VirtualOverrideThunkCovariant` of these parts.
#[tactic(auto, using(demangle_nodes::proofs::Parts::special_name_virtual_override_thunk_covariant))]
fn special_name_virtual_override_thunk_covariant<B: Below>(
    below: B,
    alloc: Global,
    arena: &Arena,
    first_call_offset: u32,
    second_call_offset: u32,
    encoding: u32,
) -> Result<SpecialName>
    requires can { B.can below }
    ensures made { IfOk result (λ n. (F : ℕ → Core) → Holds F (view arena.now)
        → node_of F Tag.SpecialNameVirtualOverrideThunkCovariant
        (first_call_offset ∷ second_call_offset ∷ encoding ∷ [])
        ≡ tree_of_special_name n) }
    ensures refused { IfErr result (λ e. e ≡ OutOfMemory) }
{
    let first_call_offset = call_offset_from(arena, first_call_offset)?;
    let second_call_offset = call_offset_from(arena, second_call_offset)?;
    let encoding = boxed(alloc, below.encoding(alloc, arena, encoding))?;
    Ok(SpecialName::VirtualOverrideThunkCovariant(first_call_offset, second_call_offset, encoding))
}

/// A `SpecialName::Guard` of these parts.
#[tactic(auto, using(demangle_nodes::proofs::Parts::special_name_guard))]
fn special_name_guard<B: Below>(
    below: B,
    alloc: Global,
    arena: &Arena,
    name: u32,
) -> Result<SpecialName>
    requires can { B.can below }
    ensures made { IfOk result (λ n. (F : ℕ → Core) → Holds F (view arena.now)
        → node_of F Tag.SpecialNameGuard (name ∷ []) ≡ tree_of_special_name n) }
    ensures refused { IfErr result (λ e. e ≡ OutOfMemory) }
{
    Ok(SpecialName::Guard(below.name(alloc, arena, name)?))
}

/// A `SpecialName::GuardTemporary` of these parts.
#[tactic(auto, using(demangle_nodes::proofs::Parts::special_name_guard_temporary))]
fn special_name_guard_temporary<B: Below>(
    below: B,
    alloc: Global,
    arena: &Arena,
    name: u32,
    count: u32,
) -> Result<SpecialName>
    requires can { B.can below }
    ensures made { IfOk result (λ n. (F : ℕ → Core) → Holds F (view arena.now)
        → node_of F Tag.SpecialNameGuardTemporary (name ∷ count ∷ []) ≡ tree_of_special_name n) }
    ensures refused { IfErr result (λ e. e ≡ OutOfMemory) }
{
    let count = count_from(arena, count)?;
    let name = below.name(alloc, arena, name)?;
    Ok(SpecialName::GuardTemporary(name, count))
}

/// A `SpecialName::ConstructionVtable` of these parts.
#[tactic(auto, using(demangle_nodes::proofs::Parts::special_name_construction_vtable))]
fn special_name_construction_vtable<B: Below>(
    below: B,
    alloc: Global,
    arena: &Arena,
    first_type_handle: u32,
    count: u32,
    second_type_handle: u32,
) -> Result<SpecialName>
    requires can { B.can below }
    ensures made { IfOk result (λ n. (F : ℕ → Core) → Holds F (view arena.now)
        → node_of F Tag.SpecialNameConstructionVtable (first_type_handle ∷ count ∷ second_type_handle ∷ [])
        ≡ tree_of_special_name n) }
    ensures refused { IfErr result (λ e. e ≡ OutOfMemory) }
{
    let first_type_handle = type_handle_from(arena, first_type_handle)?;
    let count = count_from(arena, count)?;
    let second_type_handle = type_handle_from(arena, second_type_handle)?;
    Ok(SpecialName::ConstructionVtable(first_type_handle, count, second_type_handle))
}

/// A `SpecialName::TypeinfoFunction` of these parts.
#[tactic(auto, using(demangle_nodes::proofs::Parts::special_name_typeinfo_function))]
fn special_name_typeinfo_function<B: Below>(
    below: B,
    alloc: Global,
    arena: &Arena,
    type_handle: u32,
) -> Result<SpecialName>
    requires can { B.can below }
    ensures made { IfOk result (λ n. (F : ℕ → Core) → Holds F (view arena.now)
        → node_of F Tag.SpecialNameTypeinfoFunction (type_handle ∷ []) ≡ tree_of_special_name n) }
    ensures refused { IfErr result (λ e. e ≡ OutOfMemory) }
{
    Ok(SpecialName::TypeinfoFunction(type_handle_from(arena, type_handle)?))
}

/// A `SpecialName::TlsInit` of these parts.
#[tactic(auto, using(demangle_nodes::proofs::Parts::special_name_tls_init))]
fn special_name_tls_init<B: Below>(
    below: B,
    alloc: Global,
    arena: &Arena,
    name: u32,
) -> Result<SpecialName>
    requires can { B.can below }
    ensures made { IfOk result (λ n. (F : ℕ → Core) → Holds F (view arena.now)
        → node_of F Tag.SpecialNameTlsInit (name ∷ []) ≡ tree_of_special_name n) }
    ensures refused { IfErr result (λ e. e ≡ OutOfMemory) }
{
    Ok(SpecialName::TlsInit(below.name(alloc, arena, name)?))
}

/// A `SpecialName::TlsWrapper` of these parts.
#[tactic(auto, using(demangle_nodes::proofs::Parts::special_name_tls_wrapper))]
fn special_name_tls_wrapper<B: Below>(
    below: B,
    alloc: Global,
    arena: &Arena,
    name: u32,
) -> Result<SpecialName>
    requires can { B.can below }
    ensures made { IfOk result (λ n. (F : ℕ → Core) → Holds F (view arena.now)
        → node_of F Tag.SpecialNameTlsWrapper (name ∷ []) ≡ tree_of_special_name n) }
    ensures refused { IfErr result (λ e. e ≡ OutOfMemory) }
{
    Ok(SpecialName::TlsWrapper(below.name(alloc, arena, name)?))
}

/// A `SpecialName::JavaResource` of these parts.
#[tactic(auto, using(demangle_nodes::proofs::Parts::special_name_java_resource))]
fn special_name_java_resource<B: Below>(
    below: B,
    alloc: Global,
    arena: &Arena,
    resource_name_list: u32,
) -> Result<SpecialName>
    requires can { B.can below }
    ensures made { IfOk result (λ n. (F : ℕ → Core) → Holds F (view arena.now)
        → node_of F Tag.SpecialNameJavaResource (resource_name_list ∷ []) ≡ tree_of_special_name n) }
    ensures refused { IfErr result (λ e. e ≡ OutOfMemory) }
{
    Ok(SpecialName::JavaResource(resource_name_list_from(alloc, arena, resource_name_list)?))
}

/// A `SpecialName::TransactionClone` of these parts.
#[tactic(auto, using(demangle_nodes::proofs::Parts::special_name_transaction_clone))]
fn special_name_transaction_clone<B: Below>(
    below: B,
    alloc: Global,
    arena: &Arena,
    encoding: u32,
) -> Result<SpecialName>
    requires can { B.can below }
    ensures made { IfOk result (λ n. (F : ℕ → Core) → Holds F (view arena.now)
        → node_of F Tag.SpecialNameTransactionClone (encoding ∷ []) ≡ tree_of_special_name n) }
    ensures refused { IfErr result (λ e. e ≡ OutOfMemory) }
{
    Ok(SpecialName::TransactionClone(boxed(alloc, below.encoding(alloc, arena, encoding))?))
}

/// A `SpecialName::NonTransactionClone` of these parts.
#[tactic(auto, using(demangle_nodes::proofs::Parts::special_name_non_transaction_clone))]
fn special_name_non_transaction_clone<B: Below>(
    below: B,
    alloc: Global,
    arena: &Arena,
    encoding: u32,
) -> Result<SpecialName>
    requires can { B.can below }
    ensures made { IfOk result (λ n. (F : ℕ → Core) → Holds F (view arena.now)
        → node_of F Tag.SpecialNameNonTransactionClone (encoding ∷ []) ≡ tree_of_special_name n) }
    ensures refused { IfErr result (λ e. e ≡ OutOfMemory) }
{
    Ok(SpecialName::NonTransactionClone(boxed(alloc, below.encoding(alloc, arena, encoding))?))
}

/// A node of these parts, by its tag.
fn special_name_of_one<B: Below>(
    below: B,
    alloc: Global,
    arena: &Arena,
    tag: Tag,
    a: u32,
) -> Result<SpecialName>
    requires can { B.can below }
    ensures made { IfOk result (λ n. (F : ℕ → Core) → Holds F (view arena.now)
        → node_of F tag (a ∷ []) ≡ tree_of_special_name n) }
    ensures refused { IfErr result (λ e. e ≡ OutOfMemory) }
{
    match tag {
        Tag::SpecialNameVirtualTable => special_name_virtual_table(below, alloc, arena, a),
        Tag::SpecialNameVtt => special_name_vtt(below, alloc, arena, a),
        Tag::SpecialNameTypeinfo => special_name_typeinfo(below, alloc, arena, a),
        Tag::SpecialNameTypeinfoName => special_name_typeinfo_name(below, alloc, arena, a),
        Tag::SpecialNameGuard => special_name_guard(below, alloc, arena, a),
        Tag::SpecialNameTypeinfoFunction => special_name_typeinfo_function(below, alloc, arena, a),
        Tag::SpecialNameTlsInit => special_name_tls_init(below, alloc, arena, a),
        Tag::SpecialNameTlsWrapper => special_name_tls_wrapper(below, alloc, arena, a),
        Tag::SpecialNameJavaResource => special_name_java_resource(below, alloc, arena, a),
        Tag::SpecialNameTransactionClone => special_name_transaction_clone(below, alloc, arena, a),
        Tag::SpecialNameNonTransactionClone => special_name_non_transaction_clone(
            below, alloc, arena, a,
        ),
        _ => Err(Error::OutOfMemory),
    }
}

/// A node of these parts, by its tag.
fn special_name_of_two<B: Below>(
    below: B,
    alloc: Global,
    arena: &Arena,
    tag: Tag,
    a: u32,
    b: u32,
) -> Result<SpecialName>
    requires can { B.can below }
    ensures made { IfOk result (λ n. (F : ℕ → Core) → Holds F (view arena.now)
        → node_of F tag (a ∷ b ∷ []) ≡ tree_of_special_name n) }
    ensures refused { IfErr result (λ e. e ≡ OutOfMemory) }
{
    match tag {
        Tag::SpecialNameVirtualOverrideThunk => special_name_virtual_override_thunk(
            below, alloc, arena, a, b,
        ),
        Tag::SpecialNameGuardTemporary => special_name_guard_temporary(below, alloc, arena, a, b),
        _ => Err(Error::OutOfMemory),
    }
}

/// A node of these parts, by its tag.
fn special_name_of_three<B: Below>(
    below: B,
    alloc: Global,
    arena: &Arena,
    tag: Tag,
    a: u32,
    b: u32,
    c: u32,
) -> Result<SpecialName>
    requires can { B.can below }
    ensures made { IfOk result (λ n. (F : ℕ → Core) → Holds F (view arena.now)
        → node_of F tag (a ∷ b ∷ c ∷ []) ≡ tree_of_special_name n) }
    ensures refused { IfErr result (λ e. e ≡ OutOfMemory) }
{
    match tag {
        Tag::SpecialNameVirtualOverrideThunkCovariant =>
            special_name_virtual_override_thunk_covariant(below, alloc, arena, a, b, c),
        Tag::SpecialNameConstructionVtable => special_name_construction_vtable(
            below, alloc, arena, a, b, c,
        ),
        _ => Err(Error::OutOfMemory),
    }
}

/// A `SpecialName`, ABI section 5.1.4.
pub(crate) fn special_name_by<B: Below>(
    below: B,
    alloc: Global,
    arena: &Arena,
    id: u32,
) -> Result<SpecialName>
    requires can { B.can below }
    ensures made { IfOk result (λ n. (F : ℕ → Core) → Holds F (view arena.now) → F id ≡ tree_of_special_name n) }
    ensures refused { IfErr result (λ e. e ≡ OutOfMemory) }
{
    match arena.cell(id) {
        Some(Plain::One(tag, a)) => special_name_of_one(below, alloc, arena, tag, a),
        Some(Plain::Two(tag, a, b)) => special_name_of_two(below, alloc, arena, tag, a, b),
        Some(Plain::Three(tag, a, b, c)) => special_name_of_three(
            below, alloc, arena, tag, a, b, c,
        ),
        _ => Err(Error::OutOfMemory),
    }
}
