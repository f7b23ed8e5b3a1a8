//! Expressions of more parts.

ghost use Rattle.demangle_cells.specs.View.{Holds, view};
ghost use Rattle.demangle_cells.specs.declared.tag.Tag.{Tag};
ghost use Rattle.demangle_core.specs.Core.{Core};
ghost use Rattle.demangle_nodes.specs.TreeNodes.{tree_of_expression};
ghost use Rattle.demangle_nodes_from_cells.specs.Node.{node_of};
ghost use Rattle.demangle_text.specs.declared.error.Error.TheVariants.{OutOfMemory};
ghost use Rattle.std.specs.Prelude.{IfErr, IfOk, [], ℕ, ◌∷◌, ◌≡◌};

use crate::below::Below;
use crate::lists::expression_list_by;
use crate::names::member_name_by;
use crate::options::optional_initializer_by;
use crate::parts::{boxed, kept};
use demangle_cells::Arena;
use demangle_entries::Expression;
use demangle_leaves_from_cells::{four_parts, operator_name_from, type_handle_from};
use demangle_text::Result;
use std::alloc::Global;

/// An `Expression::Unary` of these parts.
#[tactic(auto, using(demangle_nodes::proofs::Parts::expression_unary))]
pub(crate) fn expression_unary<B: Below>(
    below: B,
    alloc: Global,
    arena: &Arena,
    operator_name: u32,
    expression: u32,
) -> Result<Expression>
    requires can { B.can below }
    ensures made { IfOk result (λ n. (F : ℕ → Core) → Holds F (view arena.now)
        → node_of F Tag.ExpressionUnary (operator_name ∷ expression ∷ []) ≡ tree_of_expression n) }
    ensures refused { IfErr result (λ e. e ≡ OutOfMemory) }
{
    let operator_name = operator_name_from(arena, operator_name)?;
    let expression = boxed(alloc, below.expression(alloc, arena, expression))?;
    Ok(Expression::Unary(operator_name, expression))
}

/// An `Expression::Binary` of these parts.
#[tactic(auto, using(demangle_nodes::proofs::Parts::expression_binary))]
pub(crate) fn expression_binary<B: Below>(
    below: B,
    alloc: Global,
    arena: &Arena,
    operator_name: u32,
    first_expression: u32,
    second_expression: u32,
) -> Result<Expression>
    requires can { B.can below }
    ensures made { IfOk result (λ n. (F : ℕ → Core) → Holds F (view arena.now)
        → node_of F Tag.ExpressionBinary (operator_name ∷ first_expression ∷ second_expression ∷ [])
        ≡ tree_of_expression n) }
    ensures refused { IfErr result (λ e. e ≡ OutOfMemory) }
{
    let operator_name = operator_name_from(arena, operator_name)?;
    let first_expression = boxed(alloc, below.expression(alloc, arena, first_expression))?;
    let (first_expression, second_expression) = kept(
        first_expression,
        boxed(alloc, below.expression(alloc, arena, second_expression)),
    )?;
    Ok(Expression::Binary(operator_name, first_expression, second_expression))
}

/// An `Expression::Ternary` of these parts.
#[tactic(auto, using(demangle_nodes::proofs::Parts::expression_ternary))]
pub(crate) fn expression_ternary<B: Below>(
    below: B,
    alloc: Global,
    arena: &Arena,
    ids: &[u32],
) -> Result<Expression>
    requires can { B.can below }
    ensures made { IfOk result (λ n. (F : ℕ → Core) → Holds F (view arena.now)
        → node_of F Tag.ExpressionTernary ids.now ≡ tree_of_expression n) }
    ensures refused { IfErr result (λ e. e ≡ OutOfMemory) }
{
    let (operator_name, first_expression, second_expression, third_expression) = four_parts(ids)?;
    let operator_name = operator_name_from(arena, operator_name)?;
    let first_expression = boxed(alloc, below.expression(alloc, arena, first_expression))?;
    let (first_expression, second_expression) = kept(
        first_expression,
        boxed(alloc, below.expression(alloc, arena, second_expression)),
    )?;
    let ((first_expression, second_expression), third_expression) = kept(
        (first_expression, second_expression),
        boxed(alloc, below.expression(alloc, arena, third_expression)),
    )?;
    Ok(Expression::Ternary(
        operator_name,
        first_expression,
        second_expression,
        third_expression,
    ))
}

/// An `Expression::Call` of these parts.
#[tactic(auto, using(demangle_nodes::proofs::Parts::expression_call))]
pub(crate) fn expression_call<B: Below>(
    below: B,
    alloc: Global,
    arena: &Arena,
    expression: u32,
    expression_list: u32,
) -> Result<Expression>
    requires can { B.can below }
    ensures made { IfOk result (λ n. (F : ℕ → Core) → Holds F (view arena.now)
        → node_of F Tag.ExpressionCall (expression ∷ expression_list ∷ []) ≡ tree_of_expression n) }
    ensures refused { IfErr result (λ e. e ≡ OutOfMemory) }
{
    let expression = boxed(alloc, below.expression(alloc, arena, expression))?;
    let (expression, expression_list) = kept(
        expression,
        expression_list_by(below, alloc, arena, expression_list),
    )?;
    Ok(Expression::Call(expression, expression_list))
}

/// An `Expression::ConversionOne` of these parts.
#[tactic(auto, using(demangle_nodes::proofs::Parts::expression_conversion_one))]
pub(crate) fn expression_conversion_one<B: Below>(
    below: B,
    alloc: Global,
    arena: &Arena,
    type_handle: u32,
    expression: u32,
) -> Result<Expression>
    requires can { B.can below }
    ensures made { IfOk result (λ n. (F : ℕ → Core) → Holds F (view arena.now)
        → node_of F Tag.ExpressionConversionOne (type_handle ∷ expression ∷ []) ≡ tree_of_expression n) }
    ensures refused { IfErr result (λ e. e ≡ OutOfMemory) }
{
    let type_handle = type_handle_from(arena, type_handle)?;
    let expression = boxed(alloc, below.expression(alloc, arena, expression))?;
    Ok(Expression::ConversionOne(type_handle, expression))
}

/// An `Expression::ConversionMany` of these parts.
#[tactic(auto, using(demangle_nodes::proofs::Parts::expression_conversion_many))]
pub(crate) fn expression_conversion_many<B: Below>(
    below: B,
    alloc: Global,
    arena: &Arena,
    type_handle: u32,
    expression_list: u32,
) -> Result<Expression>
    requires can { B.can below }
    ensures made { IfOk result (λ n. (F : ℕ → Core) → Holds F (view arena.now)
        → node_of F Tag.ExpressionConversionMany (type_handle ∷ expression_list ∷ []) ≡ tree_of_expression n) }
    ensures refused { IfErr result (λ e. e ≡ OutOfMemory) }
{
    let type_handle = type_handle_from(arena, type_handle)?;
    let expression_list = expression_list_by(below, alloc, arena, expression_list)?;
    Ok(Expression::ConversionMany(type_handle, expression_list))
}

/// An `Expression::ConversionBraced` of these parts.
#[tactic(auto, using(demangle_nodes::proofs::Parts::expression_conversion_braced))]
pub(crate) fn expression_conversion_braced<B: Below>(
    below: B,
    alloc: Global,
    arena: &Arena,
    type_handle: u32,
    expression_list: u32,
) -> Result<Expression>
    requires can { B.can below }
    ensures made { IfOk result (λ n. (F : ℕ → Core) → Holds F (view arena.now)
        → node_of F Tag.ExpressionConversionBraced (type_handle ∷ expression_list ∷ []) ≡ tree_of_expression n) }
    ensures refused { IfErr result (λ e. e ≡ OutOfMemory) }
{
    let type_handle = type_handle_from(arena, type_handle)?;
    let expression_list = expression_list_by(below, alloc, arena, expression_list)?;
    Ok(Expression::ConversionBraced(type_handle, expression_list))
}

/// An `Expression::New` of these parts.
#[tactic(auto, using(demangle_nodes::proofs::Parts::expression_new))]
pub(crate) fn expression_new<B: Below>(
    below: B,
    alloc: Global,
    arena: &Arena,
    expression_list: u32,
    type_handle: u32,
    initializer: u32,
) -> Result<Expression>
    requires can { B.can below }
    ensures made { IfOk result (λ n. (F : ℕ → Core) → Holds F (view arena.now)
        → node_of F Tag.ExpressionNew (expression_list ∷ type_handle ∷ initializer ∷ []) ≡ tree_of_expression n) }
    ensures refused { IfErr result (λ e. e ≡ OutOfMemory) }
{
    let type_handle = type_handle_from(arena, type_handle)?;
    let expression_list = expression_list_by(below, alloc, arena, expression_list)?;
    let (expression_list, initializer) = kept(
        expression_list,
        optional_initializer_by(below, alloc, arena, initializer),
    )?;
    Ok(Expression::New(expression_list, type_handle, initializer))
}

/// An `Expression::GlobalNew` of these parts.
#[tactic(auto, using(demangle_nodes::proofs::Parts::expression_global_new))]
pub(crate) fn expression_global_new<B: Below>(
    below: B,
    alloc: Global,
    arena: &Arena,
    expression_list: u32,
    type_handle: u32,
    initializer: u32,
) -> Result<Expression>
    requires can { B.can below }
    ensures made { IfOk result (λ n. (F : ℕ → Core) → Holds F (view arena.now)
        → node_of F Tag.ExpressionGlobalNew (expression_list ∷ type_handle ∷ initializer ∷ []) ≡ tree_of_expression n) }
    ensures refused { IfErr result (λ e. e ≡ OutOfMemory) }
{
    let type_handle = type_handle_from(arena, type_handle)?;
    let expression_list = expression_list_by(below, alloc, arena, expression_list)?;
    let (expression_list, initializer) = kept(
        expression_list,
        optional_initializer_by(below, alloc, arena, initializer),
    )?;
    Ok(Expression::GlobalNew(expression_list, type_handle, initializer))
}

/// An `Expression::NewArray` of these parts.
#[tactic(auto, using(demangle_nodes::proofs::Parts::expression_new_array))]
pub(crate) fn expression_new_array<B: Below>(
    below: B,
    alloc: Global,
    arena: &Arena,
    expression_list: u32,
    type_handle: u32,
    initializer: u32,
) -> Result<Expression>
    requires can { B.can below }
    ensures made { IfOk result (λ n. (F : ℕ → Core) → Holds F (view arena.now)
        → node_of F Tag.ExpressionNewArray (expression_list ∷ type_handle ∷ initializer ∷ []) ≡ tree_of_expression n) }
    ensures refused { IfErr result (λ e. e ≡ OutOfMemory) }
{
    let type_handle = type_handle_from(arena, type_handle)?;
    let expression_list = expression_list_by(below, alloc, arena, expression_list)?;
    let (expression_list, initializer) = kept(
        expression_list,
        optional_initializer_by(below, alloc, arena, initializer),
    )?;
    Ok(Expression::NewArray(expression_list, type_handle, initializer))
}

/// An `Expression::GlobalNewArray` of these parts.
#[tactic(auto, using(demangle_nodes::proofs::Parts::expression_global_new_array))]
pub(crate) fn expression_global_new_array<B: Below>(
    below: B,
    alloc: Global,
    arena: &Arena,
    expression_list: u32,
    type_handle: u32,
    initializer: u32,
) -> Result<Expression>
    requires can { B.can below }
    ensures made { IfOk result (λ n. (F : ℕ → Core) → Holds F (view arena.now)
        → node_of F Tag.ExpressionGlobalNewArray (expression_list ∷ type_handle ∷ initializer ∷ [])
        ≡ tree_of_expression n) }
    ensures refused { IfErr result (λ e. e ≡ OutOfMemory) }
{
    let type_handle = type_handle_from(arena, type_handle)?;
    let expression_list = expression_list_by(below, alloc, arena, expression_list)?;
    let (expression_list, initializer) = kept(
        expression_list,
        optional_initializer_by(below, alloc, arena, initializer),
    )?;
    Ok(Expression::GlobalNewArray(expression_list, type_handle, initializer))
}

/// An `Expression::DynamicCast` of these parts.
#[tactic(auto, using(demangle_nodes::proofs::Parts::expression_dynamic_cast))]
pub(crate) fn expression_dynamic_cast<B: Below>(
    below: B,
    alloc: Global,
    arena: &Arena,
    type_handle: u32,
    expression: u32,
) -> Result<Expression>
    requires can { B.can below }
    ensures made { IfOk result (λ n. (F : ℕ → Core) → Holds F (view arena.now)
        → node_of F Tag.ExpressionDynamicCast (type_handle ∷ expression ∷ []) ≡ tree_of_expression n) }
    ensures refused { IfErr result (λ e. e ≡ OutOfMemory) }
{
    let type_handle = type_handle_from(arena, type_handle)?;
    let expression = boxed(alloc, below.expression(alloc, arena, expression))?;
    Ok(Expression::DynamicCast(type_handle, expression))
}

/// An `Expression::StaticCast` of these parts.
#[tactic(auto, using(demangle_nodes::proofs::Parts::expression_static_cast))]
pub(crate) fn expression_static_cast<B: Below>(
    below: B,
    alloc: Global,
    arena: &Arena,
    type_handle: u32,
    expression: u32,
) -> Result<Expression>
    requires can { B.can below }
    ensures made { IfOk result (λ n. (F : ℕ → Core) → Holds F (view arena.now)
        → node_of F Tag.ExpressionStaticCast (type_handle ∷ expression ∷ []) ≡ tree_of_expression n) }
    ensures refused { IfErr result (λ e. e ≡ OutOfMemory) }
{
    let type_handle = type_handle_from(arena, type_handle)?;
    let expression = boxed(alloc, below.expression(alloc, arena, expression))?;
    Ok(Expression::StaticCast(type_handle, expression))
}

/// An `Expression::ConstCast` of these parts.
#[tactic(auto, using(demangle_nodes::proofs::Parts::expression_const_cast))]
pub(crate) fn expression_const_cast<B: Below>(
    below: B,
    alloc: Global,
    arena: &Arena,
    type_handle: u32,
    expression: u32,
) -> Result<Expression>
    requires can { B.can below }
    ensures made { IfOk result (λ n. (F : ℕ → Core) → Holds F (view arena.now)
        → node_of F Tag.ExpressionConstCast (type_handle ∷ expression ∷ []) ≡ tree_of_expression n) }
    ensures refused { IfErr result (λ e. e ≡ OutOfMemory) }
{
    let type_handle = type_handle_from(arena, type_handle)?;
    let expression = boxed(alloc, below.expression(alloc, arena, expression))?;
    Ok(Expression::ConstCast(type_handle, expression))
}

/// An `Expression::ReinterpretCast` of these parts.
#[tactic(auto, using(demangle_nodes::proofs::Parts::expression_reinterpret_cast))]
pub(crate) fn expression_reinterpret_cast<B: Below>(
    below: B,
    alloc: Global,
    arena: &Arena,
    type_handle: u32,
    expression: u32,
) -> Result<Expression>
    requires can { B.can below }
    ensures made { IfOk result (λ n. (F : ℕ → Core) → Holds F (view arena.now)
        → node_of F Tag.ExpressionReinterpretCast (type_handle ∷ expression ∷ []) ≡ tree_of_expression n) }
    ensures refused { IfErr result (λ e. e ≡ OutOfMemory) }
{
    let type_handle = type_handle_from(arena, type_handle)?;
    let expression = boxed(alloc, below.expression(alloc, arena, expression))?;
    Ok(Expression::ReinterpretCast(type_handle, expression))
}

/// An `Expression::Member` of these parts.
#[tactic(auto, using(demangle_nodes::proofs::Parts::expression_member))]
pub(crate) fn expression_member<B: Below>(
    below: B,
    alloc: Global,
    arena: &Arena,
    expression: u32,
    member_name: u32,
) -> Result<Expression>
    requires can { B.can below }
    ensures made { IfOk result (λ n. (F : ℕ → Core) → Holds F (view arena.now)
        → node_of F Tag.ExpressionMember (expression ∷ member_name ∷ []) ≡ tree_of_expression n) }
    ensures refused { IfErr result (λ e. e ≡ OutOfMemory) }
{
    let expression = boxed(alloc, below.expression(alloc, arena, expression))?;
    let (expression, member_name) = kept(
        expression,
        member_name_by(below, alloc, arena, member_name),
    )?;
    Ok(Expression::Member(expression, member_name))
}

/// An `Expression::DerefMember` of these parts.
#[tactic(auto, using(demangle_nodes::proofs::Parts::expression_deref_member))]
pub(crate) fn expression_deref_member<B: Below>(
    below: B,
    alloc: Global,
    arena: &Arena,
    expression: u32,
    member_name: u32,
) -> Result<Expression>
    requires can { B.can below }
    ensures made { IfOk result (λ n. (F : ℕ → Core) → Holds F (view arena.now)
        → node_of F Tag.ExpressionDerefMember (expression ∷ member_name ∷ []) ≡ tree_of_expression n) }
    ensures refused { IfErr result (λ e. e ≡ OutOfMemory) }
{
    let expression = boxed(alloc, below.expression(alloc, arena, expression))?;
    let (expression, member_name) = kept(
        expression,
        member_name_by(below, alloc, arena, member_name),
    )?;
    Ok(Expression::DerefMember(expression, member_name))
}

/// An `Expression::PointerToMember` of these parts.
#[tactic(auto, using(demangle_nodes::proofs::Parts::expression_pointer_to_member))]
pub(crate) fn expression_pointer_to_member<B: Below>(
    below: B,
    alloc: Global,
    arena: &Arena,
    first_expression: u32,
    second_expression: u32,
) -> Result<Expression>
    requires can { B.can below }
    ensures made { IfOk result (λ n. (F : ℕ → Core) → Holds F (view arena.now)
        → node_of F Tag.ExpressionPointerToMember (first_expression ∷ second_expression ∷ []) ≡ tree_of_expression n) }
    ensures refused { IfErr result (λ e. e ≡ OutOfMemory) }
{
    let first_expression = boxed(alloc, below.expression(alloc, arena, first_expression))?;
    let (first_expression, second_expression) = kept(
        first_expression,
        boxed(alloc, below.expression(alloc, arena, second_expression)),
    )?;
    Ok(Expression::PointerToMember(first_expression, second_expression))
}
