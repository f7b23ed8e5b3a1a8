//! Parts that may be missing.

ghost use Rattle.demangle_cells.specs.View.{Holds, view};
ghost use Rattle.demangle_core.specs.Core.{Core};
ghost use Rattle.demangle_leaf_nodes.specs.TreeLeaves.{tree_of_option};
ghost use Rattle.demangle_nodes.specs.TreeNodes.{boxed_name, tree_of_initializer, tree_of_template_args};
ghost use Rattle.demangle_text.specs.declared.error.Error.TheVariants.{OutOfMemory};
ghost use Rattle.std.specs.Prelude.{IfErr, IfOk, ℕ, ◌≡◌};

use crate::arguments::template_args_by;
use crate::below::Below;
use crate::expression_parts::initializer_by;
use crate::parts::boxed;
use demangle_cells::{Arena, Plain, Tag};
use demangle_entries::{Initializer, Name, TemplateArgs};
use demangle_text::{Error, Result};
use std::alloc::Global;

/// A `TemplateArgs` that may be missing.
pub(crate) fn optional_template_args_by<B: Below>(
    below: B,
    alloc: Global,
    arena: &Arena,
    id: u32,
) -> Result<Option<TemplateArgs>>
    requires can { B.can below }
    ensures made { IfOk result (λ n. (F : ℕ → Core) → Holds F (view arena.now)
        → F id ≡ tree_of_option tree_of_template_args n) }
    ensures refused { IfErr result (λ e. e ≡ OutOfMemory) }
{
    match arena.cell(id) {
        Some(Plain::Empty(Tag::Absent)) => Ok(None),
        Some(Plain::One(Tag::Present, part)) => Ok(Some(template_args_by(
            below, alloc, arena, part,
        )?)),
        _ => Err(Error::OutOfMemory),
    }
}

/// An `Initializer` that may be missing.
pub(crate) fn optional_initializer_by<B: Below>(
    below: B,
    alloc: Global,
    arena: &Arena,
    id: u32,
) -> Result<Option<Initializer>>
    requires can { B.can below }
    ensures made { IfOk result (λ n. (F : ℕ → Core) → Holds F (view arena.now)
        → F id ≡ tree_of_option tree_of_initializer n) }
    ensures refused { IfErr result (λ e. e ≡ OutOfMemory) }
{
    match arena.cell(id) {
        Some(Plain::Empty(Tag::Absent)) => Ok(None),
        Some(Plain::One(Tag::Present, part)) => Ok(Some(initializer_by(
            below, alloc, arena, part,
        )?)),
        _ => Err(Error::OutOfMemory),
    }
}

/// A `Box<Name>` that may be missing.
pub(crate) fn optional_boxed_name_by<B: Below>(
    below: B,
    alloc: Global,
    arena: &Arena,
    id: u32,
) -> Result<Option<Box<Name>>>
    requires can { B.can below }
    ensures made { IfOk result (λ n. (F : ℕ → Core) → Holds F (view arena.now) → F id ≡ tree_of_option boxed_name n) }
    ensures refused { IfErr result (λ e. e ≡ OutOfMemory) }
{
    match arena.cell(id) {
        Some(Plain::Empty(Tag::Absent)) => Ok(None),
        Some(Plain::One(Tag::Present, part)) => Ok(Some(boxed(
            alloc,
            below.name(alloc, arena, part),
        )?)),
        _ => Err(Error::OutOfMemory),
    }
}
