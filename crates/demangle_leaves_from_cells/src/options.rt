//! Parts that may be missing.

ghost use Rattle.demangle_cells.specs.View.{Holds, view};
ghost use Rattle.demangle_core.specs.Core.{Core};
ghost use Rattle.demangle_leaf_nodes.specs.TreeLeaves.{tree_of_discriminator, tree_of_number, tree_of_option};
ghost use Rattle.demangle_leaf_nodes.specs.TreeLeaves.{tree_of_prefix_handle, tree_of_ref_qualifier};
ghost use Rattle.demangle_leaf_nodes.specs.TreeLeaves.{tree_of_signed, tree_of_type_handle};
ghost use Rattle.demangle_text.specs.declared.error.Error.TheVariants.{OutOfMemory};
ghost use Rattle.std.specs.Prelude.{IfErr, IfOk, ℕ, ◌≡◌};

use crate::handles::{prefix_handle_from, type_handle_from};
use crate::leaves::discriminator_from;
use crate::parts::{count_from, number_from};
use crate::words::ref_qualifier_from;
use demangle_cells::{Arena, Plain, Tag};
use demangle_leaf_nodes::{Discriminator, PrefixHandle, TypeHandle};
use demangle_text::{Error, Result};
use demangle_vocab::RefQualifier;

/// A `usize` that may be missing. Another cell is refused as `OutOfMemory`, the only refusal.
pub fn optional_count_from(arena: &Arena, id: u32) -> Result<Option<usize>>
    ensures made { IfOk result (λ n. (F : ℕ → Core) → Holds F (view arena.now)
        → F id ≡ tree_of_option tree_of_number n) }
    ensures refused { IfErr result (λ e. e ≡ OutOfMemory) }
{
    match arena.cell(id) {
        Some(Plain::Empty(Tag::Absent)) => Ok(None),
        Some(Plain::One(Tag::Present, count)) => Ok(Some(count_from(arena, count)?)),
        _ => Err(Error::OutOfMemory),
    }
}

/// A `isize` that may be missing. Another cell is refused as `OutOfMemory`, the only refusal.
pub fn optional_number_from(arena: &Arena, id: u32) -> Result<Option<isize>>
    ensures made { IfOk result (λ n. (F : ℕ → Core) → Holds F (view arena.now)
        → F id ≡ tree_of_option tree_of_signed n) }
    ensures refused { IfErr result (λ e. e ≡ OutOfMemory) }
{
    match arena.cell(id) {
        Some(Plain::Empty(Tag::Absent)) => Ok(None),
        Some(Plain::One(Tag::Present, number)) => Ok(Some(number_from(arena, number)?)),
        _ => Err(Error::OutOfMemory),
    }
}

/// A `Discriminator` that may be missing. Another cell is refused as `OutOfMemory`, the only refusal.
pub fn optional_discriminator_from(arena: &Arena, id: u32) -> Result<Option<Discriminator>>
    ensures made { IfOk result (λ n. (F : ℕ → Core) → Holds F (view arena.now)
        → F id ≡ tree_of_option tree_of_discriminator n) }
    ensures refused { IfErr result (λ e. e ≡ OutOfMemory) }
{
    match arena.cell(id) {
        Some(Plain::Empty(Tag::Absent)) => Ok(None),
        Some(Plain::One(Tag::Present, discriminator)) => Ok(Some(discriminator_from(
            arena,
            discriminator,
        )?)),
        _ => Err(Error::OutOfMemory),
    }
}

/// A `RefQualifier` that may be missing. Another cell is refused as `OutOfMemory`, the only refusal.
pub fn optional_ref_qualifier_from(arena: &Arena, id: u32) -> Result<Option<RefQualifier>>
    ensures made { IfOk result (λ n. (F : ℕ → Core) → Holds F (view arena.now)
        → F id ≡ tree_of_option tree_of_ref_qualifier n) }
    ensures refused { IfErr result (λ e. e ≡ OutOfMemory) }
{
    match arena.cell(id) {
        Some(Plain::Empty(Tag::Absent)) => Ok(None),
        Some(Plain::One(Tag::Present, ref_qualifier)) => Ok(Some(ref_qualifier_from(
            arena,
            ref_qualifier,
        )?)),
        _ => Err(Error::OutOfMemory),
    }
}

/// A `PrefixHandle` that may be missing. Another cell is refused as `OutOfMemory`, the only refusal.
pub fn optional_prefix_handle_from(arena: &Arena, id: u32) -> Result<Option<PrefixHandle>>
    ensures made { IfOk result (λ n. (F : ℕ → Core) → Holds F (view arena.now)
        → F id ≡ tree_of_option tree_of_prefix_handle n) }
    ensures refused { IfErr result (λ e. e ≡ OutOfMemory) }
{
    match arena.cell(id) {
        Some(Plain::Empty(Tag::Absent)) => Ok(None),
        Some(Plain::One(Tag::Present, prefix_handle)) => Ok(Some(prefix_handle_from(
            arena,
            prefix_handle,
        )?)),
        _ => Err(Error::OutOfMemory),
    }
}

/// A `TypeHandle` that may be missing. Another cell is refused as `OutOfMemory`, the only refusal.
pub fn optional_type_handle_from(arena: &Arena, id: u32) -> Result<Option<TypeHandle>>
    ensures made { IfOk result (λ n. (F : ℕ → Core) → Holds F (view arena.now)
        → F id ≡ tree_of_option tree_of_type_handle n) }
    ensures refused { IfErr result (λ e. e ≡ OutOfMemory) }
{
    match arena.cell(id) {
        Some(Plain::Empty(Tag::Absent)) => Ok(None),
        Some(Plain::One(Tag::Present, type_handle)) => Ok(Some(type_handle_from(
            arena,
            type_handle,
        )?)),
        _ => Err(Error::OutOfMemory),
    }
}
