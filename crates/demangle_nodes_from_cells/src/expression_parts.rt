//! Parts of expressions.

ghost use Rattle.demangle_cells.specs.View.{Holds, view};
ghost use Rattle.demangle_core.specs.Core.{Core};
ghost use Rattle.demangle_nodes.specs.TreeNodes.{tree_of_fold_expr, tree_of_initializer, tree_of_subobject_expr};
ghost use Rattle.demangle_text.specs.declared.error.Error.TheVariants.{OutOfMemory};
ghost use Rattle.std.specs.Prelude.{IfErr, IfOk, ℕ, ◌≡◌};

use crate::below::Below;
use crate::lists::expression_list_by;
use crate::parts::{boxed, kept};
use demangle_cells::{Arena, Plain, Tag};
use demangle_entries::{FoldExpr, Initializer, SubobjectExpr};
use demangle_leaves_from_cells::{number_from, simple_operator_name_from, type_handle_from};
use demangle_text::{Error, Result};
use std::alloc::Global;

/// An `Initializer`, ABI section 5.1.6.
pub(crate) fn initializer_by<B: Below>(
    below: B,
    alloc: Global,
    arena: &Arena,
    id: u32,
) -> Result<Initializer>
    requires can { B.can below }
    ensures made { IfOk result (λ n. (F : ℕ → Core) → Holds F (view arena.now) → F id ≡ tree_of_initializer n) }
    ensures refused { IfErr result (λ e. e ≡ OutOfMemory) }
{
    match arena.cell(id) {
        Some(Plain::One(Tag::Initializer, expression_list)) => Ok(Initializer(expression_list_by(
            below,
            alloc,
            arena,
            expression_list,
        )?)),
        _ => Err(Error::OutOfMemory),
    }
}

/// A `SubobjectExpr`, ABI section 5.1.6.
pub(crate) fn subobject_expr_by<B: Below>(
    below: B,
    alloc: Global,
    arena: &Arena,
    id: u32,
) -> Result<SubobjectExpr>
    requires can { B.can below }
    ensures made { IfOk result (λ n. (F : ℕ → Core) → Holds F (view arena.now) → F id ≡ tree_of_subobject_expr n) }
    ensures refused { IfErr result (λ e. e ≡ OutOfMemory) }
{
    match arena.cell(id) {
        Some(Plain::Three(Tag::SubobjectExpr, ty, expr, offset)) => {
            let ty = type_handle_from(arena, ty)?;
            let offset = number_from(arena, offset)?;
            let expr = boxed(alloc, below.expression(alloc, arena, expr))?;
            Ok(SubobjectExpr { ty, expr, offset })
        }
        _ => Err(Error::OutOfMemory),
    }
}

/// A `FoldExpr`, ABI section 5.1.6.
#[tactic(auto, using(demangle_nodes::proofs::Parts::parts_fold_expr))]
pub(crate) fn fold_expr_by<B: Below>(
    below: B,
    alloc: Global,
    arena: &Arena,
    id: u32,
) -> Result<FoldExpr>
    requires can { B.can below }
    ensures made { IfOk result (λ n. (F : ℕ → Core) → Holds F (view arena.now) → F id ≡ tree_of_fold_expr n) }
    ensures refused { IfErr result (λ e. e ≡ OutOfMemory) }
{
    match arena.cell(id) {
        Some(Plain::Two(Tag::FoldExprUnaryLeft, simple_operator_name, expression)) => {
            let simple_operator_name = simple_operator_name_from(arena, simple_operator_name)?;
            let expression = boxed(alloc, below.expression(alloc, arena, expression))?;
            Ok(FoldExpr::UnaryLeft(simple_operator_name, expression))
        }
        Some(Plain::Two(Tag::FoldExprUnaryRight, simple_operator_name, expression)) => {
            let simple_operator_name = simple_operator_name_from(arena, simple_operator_name)?;
            let expression = boxed(alloc, below.expression(alloc, arena, expression))?;
            Ok(FoldExpr::UnaryRight(simple_operator_name, expression))
        }
        Some(
            Plain::Three(
                Tag::FoldExprBinaryLeft,
                simple_operator_name,
                first_expression,
                second_expression,
            ),
        ) => {
            let simple_operator_name = simple_operator_name_from(arena, simple_operator_name)?;
            let first_expression = boxed(alloc, below.expression(alloc, arena, first_expression))?;
            let (first_expression, second_expression) = kept(
                first_expression,
                boxed(alloc, below.expression(alloc, arena, second_expression)),
            )?;
            Ok(FoldExpr::BinaryLeft(simple_operator_name, first_expression, second_expression))
        }
        Some(
            Plain::Three(
                Tag::FoldExprBinaryRight,
                simple_operator_name,
                first_expression,
                second_expression,
            ),
        ) => {
            let simple_operator_name = simple_operator_name_from(arena, simple_operator_name)?;
            let first_expression = boxed(alloc, below.expression(alloc, arena, first_expression))?;
            let (first_expression, second_expression) = kept(
                first_expression,
                boxed(alloc, below.expression(alloc, arena, second_expression)),
            )?;
            Ok(FoldExpr::BinaryRight(simple_operator_name, first_expression, second_expression))
        }
        _ => Err(Error::OutOfMemory),
    }
}
