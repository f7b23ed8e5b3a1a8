//! Expressions of one part.

ghost use Rattle.demangle_cells.specs.View.{Holds, view};
ghost use Rattle.demangle_cells.specs.declared.tag.Tag.{Tag};
ghost use Rattle.demangle_core.specs.Core.{Core};
ghost use Rattle.demangle_nodes.specs.TreeNodes.{tree_of_expression};
ghost use Rattle.demangle_nodes_from_cells.specs.Node.{node_of};
ghost use Rattle.demangle_text.specs.declared.error.Error.TheVariants.{OutOfMemory};
ghost use Rattle.std.specs.Prelude.{IfErr, IfOk, [], ℕ, ◌∷◌, ◌≡◌};

use crate::arguments::expr_primary_by;
use crate::below::Below;
use crate::expression_parts::{fold_expr_by, subobject_expr_by};
use crate::lists::{expression_list_by, template_arg_list_by};
use crate::parts::boxed;
use crate::unresolved::unresolved_name_by;
use demangle_cells::Arena;
use demangle_entries::Expression;
use demangle_leaves_from_cells::{function_param_from, template_param_from, type_handle_from};
use demangle_text::Result;
use std::alloc::Global;

/// An `Expression::PrefixInc` of these parts.
#[tactic(auto, using(demangle_nodes::proofs::Parts::expression_prefix_inc))]
pub(crate) fn expression_prefix_inc<B: Below>(
    below: B,
    alloc: Global,
    arena: &Arena,
    expression: u32,
) -> Result<Expression>
    requires can { B.can below }
    ensures made { IfOk result (λ n. (F : ℕ → Core) → Holds F (view arena.now)
        → node_of F Tag.ExpressionPrefixInc (expression ∷ []) ≡ tree_of_expression n) }
    ensures refused { IfErr result (λ e. e ≡ OutOfMemory) }
{
    Ok(Expression::PrefixInc(boxed(alloc, below.expression(alloc, arena, expression))?))
}

/// An `Expression::PrefixDec` of these parts.
#[tactic(auto, using(demangle_nodes::proofs::Parts::expression_prefix_dec))]
pub(crate) fn expression_prefix_dec<B: Below>(
    below: B,
    alloc: Global,
    arena: &Arena,
    expression: u32,
) -> Result<Expression>
    requires can { B.can below }
    ensures made { IfOk result (λ n. (F : ℕ → Core) → Holds F (view arena.now)
        → node_of F Tag.ExpressionPrefixDec (expression ∷ []) ≡ tree_of_expression n) }
    ensures refused { IfErr result (λ e. e ≡ OutOfMemory) }
{
    Ok(Expression::PrefixDec(boxed(alloc, below.expression(alloc, arena, expression))?))
}

/// An `Expression::BracedInitList` of these parts.
#[tactic(auto, using(demangle_nodes::proofs::Parts::expression_braced_init_list))]
pub(crate) fn expression_braced_init_list<B: Below>(
    below: B,
    alloc: Global,
    arena: &Arena,
    expression_list: u32,
) -> Result<Expression>
    requires can { B.can below }
    ensures made { IfOk result (λ n. (F : ℕ → Core) → Holds F (view arena.now)
        → node_of F Tag.ExpressionBracedInitList (expression_list ∷ []) ≡ tree_of_expression n) }
    ensures refused { IfErr result (λ e. e ≡ OutOfMemory) }
{
    Ok(Expression::BracedInitList(expression_list_by(below, alloc, arena, expression_list)?))
}

/// An `Expression::Delete` of these parts.
#[tactic(auto, using(demangle_nodes::proofs::Parts::expression_delete))]
pub(crate) fn expression_delete<B: Below>(
    below: B,
    alloc: Global,
    arena: &Arena,
    expression: u32,
) -> Result<Expression>
    requires can { B.can below }
    ensures made { IfOk result (λ n. (F : ℕ → Core) → Holds F (view arena.now)
        → node_of F Tag.ExpressionDelete (expression ∷ []) ≡ tree_of_expression n) }
    ensures refused { IfErr result (λ e. e ≡ OutOfMemory) }
{
    Ok(Expression::Delete(boxed(alloc, below.expression(alloc, arena, expression))?))
}

/// An `Expression::GlobalDelete` of these parts.
#[tactic(auto, using(demangle_nodes::proofs::Parts::expression_global_delete))]
pub(crate) fn expression_global_delete<B: Below>(
    below: B,
    alloc: Global,
    arena: &Arena,
    expression: u32,
) -> Result<Expression>
    requires can { B.can below }
    ensures made { IfOk result (λ n. (F : ℕ → Core) → Holds F (view arena.now)
        → node_of F Tag.ExpressionGlobalDelete (expression ∷ []) ≡ tree_of_expression n) }
    ensures refused { IfErr result (λ e. e ≡ OutOfMemory) }
{
    Ok(Expression::GlobalDelete(boxed(alloc, below.expression(alloc, arena, expression))?))
}

/// An `Expression::DeleteArray` of these parts.
#[tactic(auto, using(demangle_nodes::proofs::Parts::expression_delete_array))]
pub(crate) fn expression_delete_array<B: Below>(
    below: B,
    alloc: Global,
    arena: &Arena,
    expression: u32,
) -> Result<Expression>
    requires can { B.can below }
    ensures made { IfOk result (λ n. (F : ℕ → Core) → Holds F (view arena.now)
        → node_of F Tag.ExpressionDeleteArray (expression ∷ []) ≡ tree_of_expression n) }
    ensures refused { IfErr result (λ e. e ≡ OutOfMemory) }
{
    Ok(Expression::DeleteArray(boxed(alloc, below.expression(alloc, arena, expression))?))
}

/// An `Expression::GlobalDeleteArray` of these parts.
#[tactic(auto, using(demangle_nodes::proofs::Parts::expression_global_delete_array))]
pub(crate) fn expression_global_delete_array<B: Below>(
    below: B,
    alloc: Global,
    arena: &Arena,
    expression: u32,
) -> Result<Expression>
    requires can { B.can below }
    ensures made { IfOk result (λ n. (F : ℕ → Core) → Holds F (view arena.now)
        → node_of F Tag.ExpressionGlobalDeleteArray (expression ∷ []) ≡ tree_of_expression n) }
    ensures refused { IfErr result (λ e. e ≡ OutOfMemory) }
{
    Ok(Expression::GlobalDeleteArray(boxed(alloc, below.expression(alloc, arena, expression))?))
}

/// An `Expression::TypeidType` of these parts.
#[tactic(auto, using(demangle_nodes::proofs::Parts::expression_typeid_type))]
pub(crate) fn expression_typeid_type<B: Below>(
    below: B,
    alloc: Global,
    arena: &Arena,
    type_handle: u32,
) -> Result<Expression>
    requires can { B.can below }
    ensures made { IfOk result (λ n. (F : ℕ → Core) → Holds F (view arena.now)
        → node_of F Tag.ExpressionTypeidType (type_handle ∷ []) ≡ tree_of_expression n) }
    ensures refused { IfErr result (λ e. e ≡ OutOfMemory) }
{
    Ok(Expression::TypeidType(type_handle_from(arena, type_handle)?))
}

/// An `Expression::TypeidExpr` of these parts.
#[tactic(auto, using(demangle_nodes::proofs::Parts::expression_typeid_expr))]
pub(crate) fn expression_typeid_expr<B: Below>(
    below: B,
    alloc: Global,
    arena: &Arena,
    expression: u32,
) -> Result<Expression>
    requires can { B.can below }
    ensures made { IfOk result (λ n. (F : ℕ → Core) → Holds F (view arena.now)
        → node_of F Tag.ExpressionTypeidExpr (expression ∷ []) ≡ tree_of_expression n) }
    ensures refused { IfErr result (λ e. e ≡ OutOfMemory) }
{
    Ok(Expression::TypeidExpr(boxed(alloc, below.expression(alloc, arena, expression))?))
}

/// An `Expression::SizeofType` of these parts.
#[tactic(auto, using(demangle_nodes::proofs::Parts::expression_sizeof_type))]
pub(crate) fn expression_sizeof_type<B: Below>(
    below: B,
    alloc: Global,
    arena: &Arena,
    type_handle: u32,
) -> Result<Expression>
    requires can { B.can below }
    ensures made { IfOk result (λ n. (F : ℕ → Core) → Holds F (view arena.now)
        → node_of F Tag.ExpressionSizeofType (type_handle ∷ []) ≡ tree_of_expression n) }
    ensures refused { IfErr result (λ e. e ≡ OutOfMemory) }
{
    Ok(Expression::SizeofType(type_handle_from(arena, type_handle)?))
}

/// An `Expression::SizeofExpr` of these parts.
#[tactic(auto, using(demangle_nodes::proofs::Parts::expression_sizeof_expr))]
pub(crate) fn expression_sizeof_expr<B: Below>(
    below: B,
    alloc: Global,
    arena: &Arena,
    expression: u32,
) -> Result<Expression>
    requires can { B.can below }
    ensures made { IfOk result (λ n. (F : ℕ → Core) → Holds F (view arena.now)
        → node_of F Tag.ExpressionSizeofExpr (expression ∷ []) ≡ tree_of_expression n) }
    ensures refused { IfErr result (λ e. e ≡ OutOfMemory) }
{
    Ok(Expression::SizeofExpr(boxed(alloc, below.expression(alloc, arena, expression))?))
}

/// An `Expression::AlignofType` of these parts.
#[tactic(auto, using(demangle_nodes::proofs::Parts::expression_alignof_type))]
pub(crate) fn expression_alignof_type<B: Below>(
    below: B,
    alloc: Global,
    arena: &Arena,
    type_handle: u32,
) -> Result<Expression>
    requires can { B.can below }
    ensures made { IfOk result (λ n. (F : ℕ → Core) → Holds F (view arena.now)
        → node_of F Tag.ExpressionAlignofType (type_handle ∷ []) ≡ tree_of_expression n) }
    ensures refused { IfErr result (λ e. e ≡ OutOfMemory) }
{
    Ok(Expression::AlignofType(type_handle_from(arena, type_handle)?))
}

/// An `Expression::AlignofExpr` of these parts.
#[tactic(auto, using(demangle_nodes::proofs::Parts::expression_alignof_expr))]
pub(crate) fn expression_alignof_expr<B: Below>(
    below: B,
    alloc: Global,
    arena: &Arena,
    expression: u32,
) -> Result<Expression>
    requires can { B.can below }
    ensures made { IfOk result (λ n. (F : ℕ → Core) → Holds F (view arena.now)
        → node_of F Tag.ExpressionAlignofExpr (expression ∷ []) ≡ tree_of_expression n) }
    ensures refused { IfErr result (λ e. e ≡ OutOfMemory) }
{
    Ok(Expression::AlignofExpr(boxed(alloc, below.expression(alloc, arena, expression))?))
}

/// An `Expression::Noexcept` of these parts.
#[tactic(auto, using(demangle_nodes::proofs::Parts::expression_noexcept))]
pub(crate) fn expression_noexcept<B: Below>(
    below: B,
    alloc: Global,
    arena: &Arena,
    expression: u32,
) -> Result<Expression>
    requires can { B.can below }
    ensures made { IfOk result (λ n. (F : ℕ → Core) → Holds F (view arena.now)
        → node_of F Tag.ExpressionNoexcept (expression ∷ []) ≡ tree_of_expression n) }
    ensures refused { IfErr result (λ e. e ≡ OutOfMemory) }
{
    Ok(Expression::Noexcept(boxed(alloc, below.expression(alloc, arena, expression))?))
}

/// An `Expression::Subobject` of these parts.
#[tactic(auto, using(demangle_nodes::proofs::Parts::expression_subobject))]
pub(crate) fn expression_subobject<B: Below>(
    below: B,
    alloc: Global,
    arena: &Arena,
    subobject_expr: u32,
) -> Result<Expression>
    requires can { B.can below }
    ensures made { IfOk result (λ n. (F : ℕ → Core) → Holds F (view arena.now)
        → node_of F Tag.ExpressionSubobject (subobject_expr ∷ []) ≡ tree_of_expression n) }
    ensures refused { IfErr result (λ e. e ≡ OutOfMemory) }
{
    Ok(Expression::Subobject(subobject_expr_by(below, alloc, arena, subobject_expr)?))
}

/// An `Expression::TemplateParam` of these parts.
#[tactic(auto, using(demangle_nodes::proofs::Parts::expression_template_param))]
pub(crate) fn expression_template_param<B: Below>(
    below: B,
    alloc: Global,
    arena: &Arena,
    template_param: u32,
) -> Result<Expression>
    requires can { B.can below }
    ensures made { IfOk result (λ n. (F : ℕ → Core) → Holds F (view arena.now)
        → node_of F Tag.ExpressionTemplateParam (template_param ∷ []) ≡ tree_of_expression n) }
    ensures refused { IfErr result (λ e. e ≡ OutOfMemory) }
{
    Ok(Expression::TemplateParam(template_param_from(arena, template_param)?))
}

/// An `Expression::FunctionParam` of these parts.
#[tactic(auto, using(demangle_nodes::proofs::Parts::expression_function_param))]
pub(crate) fn expression_function_param<B: Below>(
    below: B,
    alloc: Global,
    arena: &Arena,
    function_param: u32,
) -> Result<Expression>
    requires can { B.can below }
    ensures made { IfOk result (λ n. (F : ℕ → Core) → Holds F (view arena.now)
        → node_of F Tag.ExpressionFunctionParam (function_param ∷ []) ≡ tree_of_expression n) }
    ensures refused { IfErr result (λ e. e ≡ OutOfMemory) }
{
    Ok(Expression::FunctionParam(function_param_from(arena, function_param)?))
}

/// An `Expression::SizeofTemplatePack` of these parts.
#[tactic(auto, using(demangle_nodes::proofs::Parts::expression_sizeof_template_pack))]
pub(crate) fn expression_sizeof_template_pack<B: Below>(
    below: B,
    alloc: Global,
    arena: &Arena,
    template_param: u32,
) -> Result<Expression>
    requires can { B.can below }
    ensures made { IfOk result (λ n. (F : ℕ → Core) → Holds F (view arena.now)
        → node_of F Tag.ExpressionSizeofTemplatePack (template_param ∷ []) ≡ tree_of_expression n) }
    ensures refused { IfErr result (λ e. e ≡ OutOfMemory) }
{
    Ok(Expression::SizeofTemplatePack(template_param_from(arena, template_param)?))
}

/// An `Expression::SizeofFunctionPack` of these parts.
#[tactic(auto, using(demangle_nodes::proofs::Parts::expression_sizeof_function_pack))]
pub(crate) fn expression_sizeof_function_pack<B: Below>(
    below: B,
    alloc: Global,
    arena: &Arena,
    function_param: u32,
) -> Result<Expression>
    requires can { B.can below }
    ensures made { IfOk result (λ n. (F : ℕ → Core) → Holds F (view arena.now)
        → node_of F Tag.ExpressionSizeofFunctionPack (function_param ∷ []) ≡ tree_of_expression n) }
    ensures refused { IfErr result (λ e. e ≡ OutOfMemory) }
{
    Ok(Expression::SizeofFunctionPack(function_param_from(arena, function_param)?))
}

/// An `Expression::SizeofCapturedTemplatePack` of these parts.
#[tactic(auto, using(demangle_nodes::proofs::Parts::expression_sizeof_captured_template_pack))]
pub(crate) fn expression_sizeof_captured_template_pack<B: Below>(
    below: B,
    alloc: Global,
    arena: &Arena,
    template_arg_list: u32,
) -> Result<Expression>
    requires can { B.can below }
    ensures made { IfOk result (λ n. (F : ℕ → Core) → Holds F (view arena.now)
        → node_of F Tag.ExpressionSizeofCapturedTemplatePack (template_arg_list ∷ []) ≡ tree_of_expression n) }
    ensures refused { IfErr result (λ e. e ≡ OutOfMemory) }
{
    Ok(Expression::SizeofCapturedTemplatePack(template_arg_list_by(
        below,
        alloc,
        arena,
        template_arg_list,
    )?))
}

/// An `Expression::PackExpansion` of these parts.
#[tactic(auto, using(demangle_nodes::proofs::Parts::expression_pack_expansion))]
pub(crate) fn expression_pack_expansion<B: Below>(
    below: B,
    alloc: Global,
    arena: &Arena,
    expression: u32,
) -> Result<Expression>
    requires can { B.can below }
    ensures made { IfOk result (λ n. (F : ℕ → Core) → Holds F (view arena.now)
        → node_of F Tag.ExpressionPackExpansion (expression ∷ []) ≡ tree_of_expression n) }
    ensures refused { IfErr result (λ e. e ≡ OutOfMemory) }
{
    Ok(Expression::PackExpansion(boxed(alloc, below.expression(alloc, arena, expression))?))
}

/// An `Expression::Fold` of these parts.
#[tactic(auto, using(demangle_nodes::proofs::Parts::expression_fold))]
pub(crate) fn expression_fold<B: Below>(
    below: B,
    alloc: Global,
    arena: &Arena,
    fold_expr: u32,
) -> Result<Expression>
    requires can { B.can below }
    ensures made { IfOk result (λ n. (F : ℕ → Core) → Holds F (view arena.now)
        → node_of F Tag.ExpressionFold (fold_expr ∷ []) ≡ tree_of_expression n) }
    ensures refused { IfErr result (λ e. e ≡ OutOfMemory) }
{
    Ok(Expression::Fold(fold_expr_by(below, alloc, arena, fold_expr)?))
}

/// An `Expression::Throw` of these parts.
#[tactic(auto, using(demangle_nodes::proofs::Parts::expression_throw))]
pub(crate) fn expression_throw<B: Below>(
    below: B,
    alloc: Global,
    arena: &Arena,
    expression: u32,
) -> Result<Expression>
    requires can { B.can below }
    ensures made { IfOk result (λ n. (F : ℕ → Core) → Holds F (view arena.now)
        → node_of F Tag.ExpressionThrow (expression ∷ []) ≡ tree_of_expression n) }
    ensures refused { IfErr result (λ e. e ≡ OutOfMemory) }
{
    Ok(Expression::Throw(boxed(alloc, below.expression(alloc, arena, expression))?))
}

/// An `Expression::UnresolvedName` of these parts.
#[tactic(auto, using(demangle_nodes::proofs::Parts::expression_unresolved_name))]
pub(crate) fn expression_unresolved_name<B: Below>(
    below: B,
    alloc: Global,
    arena: &Arena,
    unresolved_name: u32,
) -> Result<Expression>
    requires can { B.can below }
    ensures made { IfOk result (λ n. (F : ℕ → Core) → Holds F (view arena.now)
        → node_of F Tag.ExpressionUnresolvedName (unresolved_name ∷ []) ≡ tree_of_expression n) }
    ensures refused { IfErr result (λ e. e ≡ OutOfMemory) }
{
    Ok(Expression::UnresolvedName(unresolved_name_by(below, alloc, arena, unresolved_name)?))
}

/// An `Expression::Primary` of these parts.
#[tactic(auto, using(demangle_nodes::proofs::Parts::expression_primary))]
pub(crate) fn expression_primary<B: Below>(
    below: B,
    alloc: Global,
    arena: &Arena,
    expr_primary: u32,
) -> Result<Expression>
    requires can { B.can below }
    ensures made { IfOk result (λ n. (F : ℕ → Core) → Holds F (view arena.now)
        → node_of F Tag.ExpressionPrimary (expr_primary ∷ []) ≡ tree_of_expression n) }
    ensures refused { IfErr result (λ e. e ≡ OutOfMemory) }
{
    Ok(Expression::Primary(expr_primary_by(below, alloc, arena, expr_primary)?))
}
