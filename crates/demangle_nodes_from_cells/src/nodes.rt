//! The nodes that hold each other, by whatever index.

ghost use Rattle.demangle_cells.specs.View.{Holds, view};
ghost use Rattle.demangle_core.specs.Core.{Core};
ghost use Rattle.demangle_nodes.specs.TreeNodes.{tree_of_base_unresolved_name, tree_of_destructor_name};
ghost use Rattle.demangle_nodes.specs.TreeNodes.{tree_of_expr_primary, tree_of_fold_expr, tree_of_global_ctor_dtor};
ghost use Rattle.demangle_nodes.specs.TreeNodes.{tree_of_initializer, tree_of_local_name, tree_of_member_name};
ghost use Rattle.demangle_nodes.specs.TreeNodes.{tree_of_simple_id, tree_of_special_name, tree_of_subobject_expr};
ghost use Rattle.demangle_nodes.specs.TreeNodes.{tree_of_template_args, tree_of_unresolved_name};
ghost use Rattle.demangle_nodes.specs.TreeNodes.{tree_of_unresolved_qualifier_level};
ghost use Rattle.demangle_text.specs.declared.error.Error.TheVariants.{OutOfMemory};
ghost use Rattle.std.specs.Prelude.{IfErr, IfOk, ℕ, ◌≡◌};

use crate::arguments::{expr_primary_by, template_args_by};
use crate::expression_parts::{fold_expr_by, initializer_by, subobject_expr_by};
use crate::names::{global_ctor_dtor_by, local_name_by, member_name_by};
use crate::special_names::special_name_by;
use crate::unresolved::{
    base_unresolved_name_by, destructor_name_by, simple_id_by, unresolved_name_by,
    unresolved_qualifier_level_by,
};
use crate::whole::Whole;
use demangle_cells::Arena;
use demangle_entries::{
    BaseUnresolvedName, DestructorName, ExprPrimary, FoldExpr, GlobalCtorDtor, Initializer,
    LocalName, MemberName, SimpleId, SpecialName, SubobjectExpr, TemplateArgs, UnresolvedName,
    UnresolvedQualifierLevel,
};
use demangle_text::Result;
use std::alloc::Global;

/// A `GlobalCtorDtor` out of its cell. Another cell is refused as `OutOfMemory`, the only refusal.
pub fn global_ctor_dtor_from(alloc: Global, arena: &Arena, id: u32) -> Result<GlobalCtorDtor>
    ensures made { IfOk result (λ n. (F : ℕ → Core) → Holds F (view arena.now) → F id ≡ tree_of_global_ctor_dtor n) }
    ensures refused { IfErr result (λ e. e ≡ OutOfMemory) }
{
    global_ctor_dtor_by(Whole, alloc, arena, id)
}

/// A `TemplateArgs` out of its cell. Another cell is refused as `OutOfMemory`, the only refusal. ABI section 5.1.2.
pub fn template_args_from(alloc: Global, arena: &Arena, id: u32) -> Result<TemplateArgs>
    ensures made { IfOk result (λ n. (F : ℕ → Core) → Holds F (view arena.now) → F id ≡ tree_of_template_args n) }
    ensures refused { IfErr result (λ e. e ≡ OutOfMemory) }
{
    template_args_by(Whole, alloc, arena, id)
}

/// A `MemberName` out of its cell. Another cell is refused as `OutOfMemory`, the only refusal. ABI section 5.1.6.
pub fn member_name_from(alloc: Global, arena: &Arena, id: u32) -> Result<MemberName>
    ensures made { IfOk result (λ n. (F : ℕ → Core) → Holds F (view arena.now) → F id ≡ tree_of_member_name n) }
    ensures refused { IfErr result (λ e. e ≡ OutOfMemory) }
{
    member_name_by(Whole, alloc, arena, id)
}

/// An `Initializer` out of its cell. Another cell is refused as `OutOfMemory`, the only refusal. ABI section 5.1.6.
pub fn initializer_from(alloc: Global, arena: &Arena, id: u32) -> Result<Initializer>
    ensures made { IfOk result (λ n. (F : ℕ → Core) → Holds F (view arena.now) → F id ≡ tree_of_initializer n) }
    ensures refused { IfErr result (λ e. e ≡ OutOfMemory) }
{
    initializer_by(Whole, alloc, arena, id)
}

/// An `UnresolvedName` out of its cell. Another cell is refused as `OutOfMemory`, the only refusal. ABI section 5.1.6.
pub fn unresolved_name_from(alloc: Global, arena: &Arena, id: u32) -> Result<UnresolvedName>
    ensures made { IfOk result (λ n. (F : ℕ → Core) → Holds F (view arena.now) → F id ≡ tree_of_unresolved_name n) }
    ensures refused { IfErr result (λ e. e ≡ OutOfMemory) }
{
    unresolved_name_by(Whole, alloc, arena, id)
}

/// An `UnresolvedQualifierLevel` out of its cell. Another cell is refused as `OutOfMemory`, the only refusal. ABI
/// section 5.1.6.
pub fn unresolved_qualifier_level_from(
    alloc: Global,
    arena: &Arena,
    id: u32,
) -> Result<UnresolvedQualifierLevel>
    ensures made { IfOk result (λ n. (F : ℕ → Core) → Holds F (view arena.now)
        → F id ≡ tree_of_unresolved_qualifier_level n) }
    ensures refused { IfErr result (λ e. e ≡ OutOfMemory) }
{
    unresolved_qualifier_level_by(Whole, alloc, arena, id)
}

/// A `SimpleId` out of its cell. Another cell is refused as `OutOfMemory`, the only refusal. ABI section 5.1.6.
pub fn simple_id_from(alloc: Global, arena: &Arena, id: u32) -> Result<SimpleId>
    ensures made { IfOk result (λ n. (F : ℕ → Core) → Holds F (view arena.now) → F id ≡ tree_of_simple_id n) }
    ensures refused { IfErr result (λ e. e ≡ OutOfMemory) }
{
    simple_id_by(Whole, alloc, arena, id)
}

/// A `BaseUnresolvedName` out of its cell. Another cell is refused as `OutOfMemory`, the only refusal. ABI section
/// 5.1.6.
pub fn base_unresolved_name_from(
    alloc: Global,
    arena: &Arena,
    id: u32,
) -> Result<BaseUnresolvedName>
    ensures made { IfOk result (λ n. (F : ℕ → Core) → Holds F (view arena.now)
        → F id ≡ tree_of_base_unresolved_name n) }
    ensures refused { IfErr result (λ e. e ≡ OutOfMemory) }
{
    base_unresolved_name_by(Whole, alloc, arena, id)
}

/// A `DestructorName` out of its cell. Another cell is refused as `OutOfMemory`, the only refusal. ABI section 5.1.6.
pub fn destructor_name_from(alloc: Global, arena: &Arena, id: u32) -> Result<DestructorName>
    ensures made { IfOk result (λ n. (F : ℕ → Core) → Holds F (view arena.now) → F id ≡ tree_of_destructor_name n) }
    ensures refused { IfErr result (λ e. e ≡ OutOfMemory) }
{
    destructor_name_by(Whole, alloc, arena, id)
}

/// An `ExprPrimary` out of its cell. Another cell is refused as `OutOfMemory`, the only refusal. ABI section 5.1.6.
pub fn expr_primary_from(alloc: Global, arena: &Arena, id: u32) -> Result<ExprPrimary>
    ensures made { IfOk result (λ n. (F : ℕ → Core) → Holds F (view arena.now) → F id ≡ tree_of_expr_primary n) }
    ensures refused { IfErr result (λ e. e ≡ OutOfMemory) }
{
    expr_primary_by(Whole, alloc, arena, id)
}

/// A `LocalName` out of its cell. Another cell is refused as `OutOfMemory`, the only refusal. ABI section 5.1.7.
pub fn local_name_from(alloc: Global, arena: &Arena, id: u32) -> Result<LocalName>
    ensures made { IfOk result (λ n. (F : ℕ → Core) → Holds F (view arena.now) → F id ≡ tree_of_local_name n) }
    ensures refused { IfErr result (λ e. e ≡ OutOfMemory) }
{
    local_name_by(Whole, alloc, arena, id)
}

/// A `SpecialName` out of its cell. Another cell is refused as `OutOfMemory`, the only refusal. ABI section 5.1.4.
pub fn special_name_from(alloc: Global, arena: &Arena, id: u32) -> Result<SpecialName>
    ensures made { IfOk result (λ n. (F : ℕ → Core) → Holds F (view arena.now) → F id ≡ tree_of_special_name n) }
    ensures refused { IfErr result (λ e. e ≡ OutOfMemory) }
{
    special_name_by(Whole, alloc, arena, id)
}

/// A `SubobjectExpr` out of its cell. Another cell is refused as `OutOfMemory`, the only refusal. ABI section 5.1.6.
pub fn subobject_expr_from(alloc: Global, arena: &Arena, id: u32) -> Result<SubobjectExpr>
    ensures made { IfOk result (λ n. (F : ℕ → Core) → Holds F (view arena.now) → F id ≡ tree_of_subobject_expr n) }
    ensures refused { IfErr result (λ e. e ≡ OutOfMemory) }
{
    subobject_expr_by(Whole, alloc, arena, id)
}

/// A `FoldExpr` out of its cell. Another cell is refused as `OutOfMemory`, the only refusal. ABI section 5.1.6.
pub fn fold_expr_from(alloc: Global, arena: &Arena, id: u32) -> Result<FoldExpr>
    ensures made { IfOk result (λ n. (F : ℕ → Core) → Holds F (view arena.now) → F id ≡ tree_of_fold_expr n) }
    ensures refused { IfErr result (λ e. e ≡ OutOfMemory) }
{
    fold_expr_by(Whole, alloc, arena, id)
}
