//! Expressions, by the tags of their nodes.

ghost use Rattle.demangle_cells.specs.View.{Holds, view};
ghost use Rattle.demangle_core.specs.Core.{Core};
ghost use Rattle.demangle_nodes.specs.TreeNodes.{tree_of_expression};
ghost use Rattle.demangle_nodes_from_cells.specs.Node.{node_of};
ghost use Rattle.demangle_text.specs.declared.error.Error.TheVariants.{OutOfMemory};
ghost use Rattle.std.specs.Prelude.{IfErr, IfOk, [], ℕ, ◌∷◌, ◌≡◌};

use crate::below::Below;
use crate::expressions_of_more::{
    expression_binary, expression_call, expression_const_cast, expression_conversion_braced,
    expression_conversion_many, expression_conversion_one, expression_deref_member,
    expression_dynamic_cast, expression_global_new, expression_global_new_array, expression_member,
    expression_new, expression_new_array, expression_pointer_to_member,
    expression_reinterpret_cast, expression_static_cast, expression_ternary, expression_unary,
};
use crate::expressions_of_one::{
    expression_alignof_expr, expression_alignof_type, expression_braced_init_list,
    expression_delete, expression_delete_array, expression_fold, expression_function_param,
    expression_global_delete, expression_global_delete_array, expression_noexcept,
    expression_pack_expansion, expression_prefix_dec, expression_prefix_inc, expression_primary,
    expression_sizeof_captured_template_pack, expression_sizeof_expr,
    expression_sizeof_function_pack, expression_sizeof_template_pack, expression_sizeof_type,
    expression_subobject, expression_template_param, expression_throw, expression_typeid_expr,
    expression_typeid_type, expression_unresolved_name,
};
use demangle_cells::{Arena, Plain, Tag};
use demangle_entries::Expression;
use demangle_text::{Error, Result};
use std::alloc::Global;

/// A node of these parts, by its tag.
fn expression_of_one<B: Below>(
    below: B,
    alloc: Global,
    arena: &Arena,
    tag: Tag,
    a: u32,
) -> Result<Expression>
    requires can { B.can below }
    ensures made { IfOk result (λ n. (F : ℕ → Core) → Holds F (view arena.now)
        → node_of F tag (a ∷ []) ≡ tree_of_expression n) }
    ensures refused { IfErr result (λ e. e ≡ OutOfMemory) }
{
    match tag {
        Tag::ExpressionPrefixInc => expression_prefix_inc(below, alloc, arena, a),
        Tag::ExpressionPrefixDec => expression_prefix_dec(below, alloc, arena, a),
        Tag::ExpressionBracedInitList => expression_braced_init_list(below, alloc, arena, a),
        Tag::ExpressionDelete => expression_delete(below, alloc, arena, a),
        Tag::ExpressionGlobalDelete => expression_global_delete(below, alloc, arena, a),
        Tag::ExpressionDeleteArray => expression_delete_array(below, alloc, arena, a),
        Tag::ExpressionGlobalDeleteArray => expression_global_delete_array(below, alloc, arena, a),
        Tag::ExpressionTypeidType => expression_typeid_type(below, alloc, arena, a),
        Tag::ExpressionTypeidExpr => expression_typeid_expr(below, alloc, arena, a),
        Tag::ExpressionSizeofType => expression_sizeof_type(below, alloc, arena, a),
        Tag::ExpressionSizeofExpr => expression_sizeof_expr(below, alloc, arena, a),
        Tag::ExpressionAlignofType => expression_alignof_type(below, alloc, arena, a),
        Tag::ExpressionAlignofExpr => expression_alignof_expr(below, alloc, arena, a),
        Tag::ExpressionNoexcept => expression_noexcept(below, alloc, arena, a),
        Tag::ExpressionSubobject => expression_subobject(below, alloc, arena, a),
        Tag::ExpressionTemplateParam => expression_template_param(below, alloc, arena, a),
        Tag::ExpressionFunctionParam => expression_function_param(below, alloc, arena, a),
        Tag::ExpressionSizeofTemplatePack => expression_sizeof_template_pack(
            below, alloc, arena, a,
        ),
        Tag::ExpressionSizeofFunctionPack => expression_sizeof_function_pack(
            below, alloc, arena, a,
        ),
        Tag::ExpressionSizeofCapturedTemplatePack => expression_sizeof_captured_template_pack(
            below, alloc, arena, a,
        ),
        Tag::ExpressionPackExpansion => expression_pack_expansion(below, alloc, arena, a),
        Tag::ExpressionFold => expression_fold(below, alloc, arena, a),
        Tag::ExpressionThrow => expression_throw(below, alloc, arena, a),
        Tag::ExpressionUnresolvedName => expression_unresolved_name(below, alloc, arena, a),
        Tag::ExpressionPrimary => expression_primary(below, alloc, arena, a),
        _ => Err(Error::OutOfMemory),
    }
}

/// A node of these parts, by its tag.
fn expression_of_two<B: Below>(
    below: B,
    alloc: Global,
    arena: &Arena,
    tag: Tag,
    a: u32,
    b: u32,
) -> Result<Expression>
    requires can { B.can below }
    ensures made { IfOk result (λ n. (F : ℕ → Core) → Holds F (view arena.now)
        → node_of F tag (a ∷ b ∷ []) ≡ tree_of_expression n) }
    ensures refused { IfErr result (λ e. e ≡ OutOfMemory) }
{
    match tag {
        Tag::ExpressionUnary => expression_unary(below, alloc, arena, a, b),
        Tag::ExpressionCall => expression_call(below, alloc, arena, a, b),
        Tag::ExpressionConversionOne => expression_conversion_one(below, alloc, arena, a, b),
        Tag::ExpressionConversionMany => expression_conversion_many(below, alloc, arena, a, b),
        Tag::ExpressionConversionBraced => expression_conversion_braced(below, alloc, arena, a, b),
        Tag::ExpressionDynamicCast => expression_dynamic_cast(below, alloc, arena, a, b),
        Tag::ExpressionStaticCast => expression_static_cast(below, alloc, arena, a, b),
        Tag::ExpressionConstCast => expression_const_cast(below, alloc, arena, a, b),
        Tag::ExpressionReinterpretCast => expression_reinterpret_cast(below, alloc, arena, a, b),
        Tag::ExpressionMember => expression_member(below, alloc, arena, a, b),
        Tag::ExpressionDerefMember => expression_deref_member(below, alloc, arena, a, b),
        Tag::ExpressionPointerToMember => expression_pointer_to_member(below, alloc, arena, a, b),
        _ => Err(Error::OutOfMemory),
    }
}

/// A node of these parts, by its tag.
fn expression_of_three<B: Below>(
    below: B,
    alloc: Global,
    arena: &Arena,
    tag: Tag,
    a: u32,
    b: u32,
    c: u32,
) -> Result<Expression>
    requires can { B.can below }
    ensures made { IfOk result (λ n. (F : ℕ → Core) → Holds F (view arena.now)
        → node_of F tag (a ∷ b ∷ c ∷ []) ≡ tree_of_expression n) }
    ensures refused { IfErr result (λ e. e ≡ OutOfMemory) }
{
    match tag {
        Tag::ExpressionBinary => expression_binary(below, alloc, arena, a, b, c),
        Tag::ExpressionNew => expression_new(below, alloc, arena, a, b, c),
        Tag::ExpressionGlobalNew => expression_global_new(below, alloc, arena, a, b, c),
        Tag::ExpressionNewArray => expression_new_array(below, alloc, arena, a, b, c),
        Tag::ExpressionGlobalNewArray => expression_global_new_array(below, alloc, arena, a, b, c),
        _ => Err(Error::OutOfMemory),
    }
}

/// An `Expression`, ABI section 5.1.6.
#[tactic(auto, using(demangle_nodes::proofs::Parts::expression_rethrow))]
pub(crate) fn expression_by<B: Below>(
    below: B,
    alloc: Global,
    arena: &Arena,
    id: u32,
) -> Result<Expression>
    requires can { B.can below }
    ensures made { IfOk result (λ n. (F : ℕ → Core) → Holds F (view arena.now) → F id ≡ tree_of_expression n) }
    ensures refused { IfErr result (λ e. e ≡ OutOfMemory) }
{
    match arena.cell(id) {
        Some(Plain::Empty(Tag::ExpressionRethrow)) => Ok(Expression::Rethrow),
        Some(Plain::One(tag, a)) => expression_of_one(below, alloc, arena, tag, a),
        Some(Plain::Two(tag, a, b)) => expression_of_two(below, alloc, arena, tag, a, b),
        Some(Plain::Three(tag, a, b, c)) => expression_of_three(below, alloc, arena, tag, a, b, c),
        Some(Plain::Many(Tag::ExpressionTernary, start, count)) => expression_ternary(
            below,
            alloc,
            arena,
            arena.indexes(start, count),
        ),
        _ => Err(Error::OutOfMemory),
    }
}
