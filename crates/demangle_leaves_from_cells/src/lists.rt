//! Lists.

ghost use Rattle.demangle_cells.specs.Cells.{row};
ghost use Rattle.demangle_cells.specs.View.{Holds, view};
ghost use Rattle.demangle_core.specs.Core.{Core, numbers, trees};
ghost use Rattle.demangle_leaf_nodes.specs.TreeLeaves.{parts_of_abi_tag, parts_of_clone_suffix};
ghost use Rattle.demangle_leaf_nodes.specs.TreeLeaves.{parts_of_resource_name, parts_of_type_handle};
ghost use Rattle.demangle_leaf_nodes.specs.TreeLeaves.{tag_of_abi_tag, tag_of_clone_suffix, tag_of_resource_name};
ghost use Rattle.demangle_leaf_nodes.specs.TreeLeaves.{tag_of_type_handle};
ghost use Rattle.demangle_leaves_from_cells.specs.Lists.{several};
ghost use Rattle.demangle_text.specs.declared.error.Error.TheVariants.{OutOfMemory};
ghost use Rattle.std.specs.Prelude.{IfErr, IfOk, ℕ, ◌≡◌};

use crate::handles::type_handle_from;
use crate::leaves::{abi_tag_from, resource_name_from};
use crate::names::clone_suffix_from;
use crate::parts::number_from;
use demangle_cells::{Arena, Plain, Tag};
use demangle_leaf_nodes::{AbiTag, CloneSuffix, ResourceName, TypeHandle};
use demangle_text::{Error, Result};
use std::alloc::Global;

/// A list of `AbiTag` out of the cell of its node. Another cell is refused as `OutOfMemory`, the only refusal.
pub fn abi_tag_list_from(alloc: Global, arena: &Arena, id: u32) -> Result<Vec<AbiTag>>
    ensures made { IfOk result (λ n. (F : ℕ → Core) → Holds F (view arena.now)
        → F id ≡ several (trees tag_of_abi_tag parts_of_abi_tag n.items)) }
    ensures refused { IfErr result (λ e. e ≡ OutOfMemory) }
{
    match arena.cell(id) {
        Some(Plain::Empty(Tag::Several)) => Ok(Vec::new(alloc)),
        Some(Plain::Many(Tag::Several, start, count)) => abi_tag_list_of(
            alloc,
            arena,
            arena.indexes(start, count),
        ),
        _ => Err(Error::OutOfMemory),
    }
}

// The nodes of these indexes.
fn abi_tag_list_of(alloc: Global, arena: &Arena, ids: &[u32]) -> Result<Vec<AbiTag>>
    ensures made { IfOk result (λ n. (F : ℕ → Core) → Holds F (view arena.now)
        → row F ids.now ≡ trees tag_of_abi_tag parts_of_abi_tag n.items) }
    ensures refused { IfErr result (λ e. e ≡ OutOfMemory) }
{
    let mut list = Vec::new(alloc);
    for id in ids {
        list.push(abi_tag_from(arena, *id)?)?;
    }
    Ok(list)
}

/// A list of `TypeHandle` out of the cell of its node. Another cell is refused as `OutOfMemory`, the only refusal.
pub fn type_handle_list_from(alloc: Global, arena: &Arena, id: u32) -> Result<Vec<TypeHandle>>
    ensures made { IfOk result (λ n. (F : ℕ → Core) → Holds F (view arena.now)
        → F id ≡ several (trees tag_of_type_handle parts_of_type_handle n.items)) }
    ensures refused { IfErr result (λ e. e ≡ OutOfMemory) }
{
    match arena.cell(id) {
        Some(Plain::Empty(Tag::Several)) => Ok(Vec::new(alloc)),
        Some(Plain::Many(Tag::Several, start, count)) => type_handle_list_of(
            alloc,
            arena,
            arena.indexes(start, count),
        ),
        _ => Err(Error::OutOfMemory),
    }
}

// The nodes of these indexes.
fn type_handle_list_of(alloc: Global, arena: &Arena, ids: &[u32]) -> Result<Vec<TypeHandle>>
    ensures made { IfOk result (λ n. (F : ℕ → Core) → Holds F (view arena.now)
        → row F ids.now ≡ trees tag_of_type_handle parts_of_type_handle n.items) }
    ensures refused { IfErr result (λ e. e ≡ OutOfMemory) }
{
    let mut list = Vec::new(alloc);
    for id in ids {
        list.push(type_handle_from(arena, *id)?)?;
    }
    Ok(list)
}

/// A list of `isize` out of the cell of its node. Another cell is refused as `OutOfMemory`, the only refusal.
pub fn number_list_from(alloc: Global, arena: &Arena, id: u32) -> Result<Vec<isize>>
    ensures made { IfOk result (λ n. (F : ℕ → Core) → Holds F (view arena.now) → F id ≡ several (numbers n.items)) }
    ensures refused { IfErr result (λ e. e ≡ OutOfMemory) }
{
    match arena.cell(id) {
        Some(Plain::Empty(Tag::Several)) => Ok(Vec::new(alloc)),
        Some(Plain::Many(Tag::Several, start, count)) => number_list_of(
            alloc,
            arena,
            arena.indexes(start, count),
        ),
        _ => Err(Error::OutOfMemory),
    }
}

// The nodes of these indexes.
fn number_list_of(alloc: Global, arena: &Arena, ids: &[u32]) -> Result<Vec<isize>>
    ensures made { IfOk result (λ n. (F : ℕ → Core) → Holds F (view arena.now) → row F ids.now ≡ numbers n.items) }
    ensures refused { IfErr result (λ e. e ≡ OutOfMemory) }
{
    let mut list = Vec::new(alloc);
    for id in ids {
        list.push(number_from(arena, *id)?)?;
    }
    Ok(list)
}

/// A list of `CloneSuffix` out of the cell of its node. Another cell is refused as `OutOfMemory`, the only refusal.
pub fn clone_suffix_list_from(alloc: Global, arena: &Arena, id: u32) -> Result<Vec<CloneSuffix>>
    ensures made { IfOk result (λ n. (F : ℕ → Core) → Holds F (view arena.now)
        → F id ≡ several (trees tag_of_clone_suffix parts_of_clone_suffix n.items)) }
    ensures refused { IfErr result (λ e. e ≡ OutOfMemory) }
{
    match arena.cell(id) {
        Some(Plain::Empty(Tag::Several)) => Ok(Vec::new(alloc)),
        Some(Plain::Many(Tag::Several, start, count)) => clone_suffix_list_of(
            alloc,
            arena,
            arena.indexes(start, count),
        ),
        _ => Err(Error::OutOfMemory),
    }
}

// The nodes of these indexes.
fn clone_suffix_list_of(alloc: Global, arena: &Arena, ids: &[u32]) -> Result<Vec<CloneSuffix>>
    ensures made { IfOk result (λ n. (F : ℕ → Core) → Holds F (view arena.now)
        → row F ids.now ≡ trees tag_of_clone_suffix parts_of_clone_suffix n.items) }
    ensures refused { IfErr result (λ e. e ≡ OutOfMemory) }
{
    let mut list = Vec::new(alloc);
    for id in ids {
        list.push(clone_suffix_from(alloc, arena, *id)?)?;
    }
    Ok(list)
}

/// A list of `ResourceName` out of the cell of its node. Another cell is refused as `OutOfMemory`, the only refusal.
pub fn resource_name_list_from(alloc: Global, arena: &Arena, id: u32) -> Result<Vec<ResourceName>>
    ensures made { IfOk result (λ n. (F : ℕ → Core) → Holds F (view arena.now)
        → F id ≡ several (trees tag_of_resource_name parts_of_resource_name n.items)) }
    ensures refused { IfErr result (λ e. e ≡ OutOfMemory) }
{
    match arena.cell(id) {
        Some(Plain::Empty(Tag::Several)) => Ok(Vec::new(alloc)),
        Some(Plain::Many(Tag::Several, start, count)) => resource_name_list_of(
            alloc,
            arena,
            arena.indexes(start, count),
        ),
        _ => Err(Error::OutOfMemory),
    }
}

// The nodes of these indexes.
fn resource_name_list_of(alloc: Global, arena: &Arena, ids: &[u32]) -> Result<Vec<ResourceName>>
    ensures made { IfOk result (λ n. (F : ℕ → Core) → Holds F (view arena.now)
        → row F ids.now ≡ trees tag_of_resource_name parts_of_resource_name n.items) }
    ensures refused { IfErr result (λ e. e ≡ OutOfMemory) }
{
    let mut list = Vec::new(alloc);
    for id in ids {
        list.push(resource_name_from(arena, *id)?)?;
    }
    Ok(list)
}
