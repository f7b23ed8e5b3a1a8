//! Lists of these, and parts that may not be there.

ghost use Rattle.demangle_cells.specs.Cells.{list_tree};
ghost use Rattle.demangle_cells.specs.View.{view};
ghost use Rattle.demangle_core.specs.Core.{node, numbers, trees};
ghost use Rattle.demangle_leaf_nodes.specs.TreeLeaves.{parts_of_abi_tag, parts_of_clone_suffix};
ghost use Rattle.demangle_leaf_nodes.specs.TreeLeaves.{parts_of_resource_name, parts_of_type_handle};
ghost use Rattle.demangle_leaf_nodes.specs.TreeLeaves.{tag_of_abi_tag, tag_of_clone_suffix, tag_of_resource_name};
ghost use Rattle.demangle_leaf_nodes.specs.TreeLeaves.{tag_of_type_handle, tree_of_discriminator, tree_of_number};
ghost use Rattle.demangle_leaf_nodes.specs.TreeLeaves.{tree_of_option, tree_of_prefix_handle};
ghost use Rattle.demangle_leaf_nodes.specs.TreeLeaves.{tree_of_ref_qualifier, tree_of_signed, tree_of_type_handle};
ghost use Rattle.demangle_leaves_to_cells.specs.Put.{Put, Waits};

use crate::leaves::{
    abi_tag_to, clone_suffix_to, discriminator_to, prefix_handle_to, ref_qualifier_to,
    resource_name_to, type_handle_to,
};
use crate::lists::{gather, wait};
use crate::made::{number_to, one, signed_to};
use demangle_cells::{Arena, ListOf, Tag, absent_id};
use demangle_leaf_nodes::{
    AbiTag, CloneSuffix, Discriminator, PrefixHandle, ResourceName, TypeHandle,
};
use demangle_text::Result;
use demangle_vocab::RefQualifier;

/// The same of a part that may not be there.
pub fn optional_number_to(arena: &mut Arena, node: &Option<usize>) -> Result<u32>
    ensures { Put (view arena.old) (view arena.new) result (tree_of_option tree_of_number node.now) }
{
    match node {
        None => Ok(absent_id()),
        Some(part) => {
            let part = number_to(arena, *part);
            one(arena, Tag::Present, part)
        }
    }
}

/// The same of a part that may not be there.
pub fn optional_signed_to(arena: &mut Arena, node: &Option<isize>) -> Result<u32>
    ensures { Put (view arena.old) (view arena.new) result (tree_of_option tree_of_signed node.now) }
{
    match node {
        None => Ok(absent_id()),
        Some(part) => {
            let part = signed_to(arena, part);
            one(arena, Tag::Present, part)
        }
    }
}

/// The same of a part that may not be there.
pub fn optional_discriminator_to(arena: &mut Arena, node: &Option<Discriminator>) -> Result<u32>
    ensures { Put (view arena.old) (view arena.new) result (tree_of_option tree_of_discriminator node.now) }
{
    match node {
        None => Ok(absent_id()),
        Some(part) => {
            let part = discriminator_to(arena, part);
            one(arena, Tag::Present, part)
        }
    }
}

/// The same of a part that may not be there.
pub fn optional_type_handle_to(arena: &mut Arena, node: &Option<TypeHandle>) -> Result<u32>
    ensures { Put (view arena.old) (view arena.new) result (tree_of_option tree_of_type_handle node.now) }
{
    match node {
        None => Ok(absent_id()),
        Some(part) => {
            let part = type_handle_to(arena, part);
            one(arena, Tag::Present, part)
        }
    }
}

/// The same of a part that may not be there.
pub fn optional_ref_qualifier_to(arena: &mut Arena, node: &Option<RefQualifier>) -> Result<u32>
    ensures { Put (view arena.old) (view arena.new) result (tree_of_option tree_of_ref_qualifier node.now) }
{
    match node {
        None => Ok(absent_id()),
        Some(part) => {
            let part = ref_qualifier_to(arena, part);
            one(arena, Tag::Present, part)
        }
    }
}

/// The same of a part that may not be there.
pub fn optional_prefix_handle_to(arena: &mut Arena, node: &Option<PrefixHandle>) -> Result<u32>
    ensures { Put (view arena.old) (view arena.new) result (tree_of_option tree_of_prefix_handle node.now) }
{
    match node {
        None => Ok(absent_id()),
        Some(part) => {
            let part = prefix_handle_to(arena, part);
            one(arena, Tag::Present, part)
        }
    }
}

fn wait_signed_list(arena: &mut Arena, nodes: &[isize]) -> Result<()>
    ensures { Waits (view arena.old) (view arena.new) result (numbers nodes.now) }
{
    for node in nodes {
        let part = signed_to(arena, node);
        wait(arena, Ok(()), part)?;
    }
    Ok(())
}

/// Puts the nodes into the arena, one behind the other, and answers what becomes of them. `OutOfMemory` is its only
/// refusal.
pub fn signed_list_to(arena: &mut Arena, nodes: &[isize], list: ListOf) -> Result<u32>
    ensures { Put (view arena.old) (view arena.new) result (list_tree list (numbers nodes.now)) }
{
    let from = arena.waiting();
    let waited = wait_signed_list(arena, nodes);
    gather(arena, from, list, waited)
}

fn wait_abi_tag_list(arena: &mut Arena, nodes: &[AbiTag]) -> Result<()>
    ensures { Waits (view arena.old) (view arena.new) result (trees tag_of_abi_tag parts_of_abi_tag nodes.now) }
{
    for node in nodes {
        let part = abi_tag_to(arena, node);
        wait(arena, Ok(()), part)?;
    }
    Ok(())
}

/// Puts the nodes into the arena, one behind the other, and answers what becomes of them. `OutOfMemory` is its only
/// refusal.
pub fn abi_tag_list_to(arena: &mut Arena, nodes: &[AbiTag], list: ListOf) -> Result<u32>
    ensures { Put (view arena.old) (view arena.new) result
        (list_tree list (trees tag_of_abi_tag parts_of_abi_tag nodes.now)) }
{
    let from = arena.waiting();
    let waited = wait_abi_tag_list(arena, nodes);
    gather(arena, from, list, waited)
}

fn wait_type_handle_list(arena: &mut Arena, nodes: &[TypeHandle]) -> Result<()>
    ensures { Waits (view arena.old) (view arena.new) result
        (trees tag_of_type_handle parts_of_type_handle nodes.now) }
{
    for node in nodes {
        let part = type_handle_to(arena, node);
        wait(arena, Ok(()), part)?;
    }
    Ok(())
}

/// Puts the nodes into the arena, one behind the other, and answers what becomes of them. `OutOfMemory` is its only
/// refusal.
pub fn type_handle_list_to(arena: &mut Arena, nodes: &[TypeHandle], list: ListOf) -> Result<u32>
    ensures { Put (view arena.old) (view arena.new) result
        (list_tree list (trees tag_of_type_handle parts_of_type_handle nodes.now)) }
{
    let from = arena.waiting();
    let waited = wait_type_handle_list(arena, nodes);
    gather(arena, from, list, waited)
}

fn wait_resource_name_list(arena: &mut Arena, nodes: &[ResourceName]) -> Result<()>
    ensures { Waits (view arena.old) (view arena.new) result
        (trees tag_of_resource_name parts_of_resource_name nodes.now) }
{
    for node in nodes {
        let part = resource_name_to(arena, node);
        wait(arena, Ok(()), part)?;
    }
    Ok(())
}

/// Puts the nodes into the arena, one behind the other, and answers what becomes of them. `OutOfMemory` is its only
/// refusal.
pub fn resource_name_list_to(arena: &mut Arena, nodes: &[ResourceName], list: ListOf) -> Result<u32>
    ensures { Put (view arena.old) (view arena.new) result
        (list_tree list (trees tag_of_resource_name parts_of_resource_name nodes.now)) }
{
    let from = arena.waiting();
    let waited = wait_resource_name_list(arena, nodes);
    gather(arena, from, list, waited)
}

fn wait_clone_suffix_list(arena: &mut Arena, nodes: &[CloneSuffix]) -> Result<()>
    ensures { Waits (view arena.old) (view arena.new) result
        (trees tag_of_clone_suffix parts_of_clone_suffix nodes.now) }
{
    for node in nodes {
        let part = clone_suffix_to(arena, node);
        wait(arena, Ok(()), part)?;
    }
    Ok(())
}

/// Puts the nodes into the arena, one behind the other, and answers what becomes of them. `OutOfMemory` is its only
/// refusal.
pub fn clone_suffix_list_to(arena: &mut Arena, nodes: &[CloneSuffix], list: ListOf) -> Result<u32>
    ensures { Put (view arena.old) (view arena.new) result
        (list_tree list (trees tag_of_clone_suffix parts_of_clone_suffix nodes.now)) }
{
    let from = arena.waiting();
    let waited = wait_clone_suffix_list(arena, nodes);
    gather(arena, from, list, waited)
}
