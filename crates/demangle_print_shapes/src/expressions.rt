//! The kinds of expressions whose line is a shape that several have.

ghost use Rattle.std.specs.Prelude.{◌≡◌, ◌++◌, true};
ghost use Rattle.demangle_nodes.specs.TreeNodes.{tree_of_expression};
ghost use Rattle.demangle_meets.specs.Meets.{Line};
ghost use Rattle.demangle_scope.specs.ScopeOf.{scope_of};
ghost use Rattle.demangle_print_below.specs.PageOf.{page};
ghost use Rattle.demangle_print_shapes.specs.Kinds.{enclosed_kinds, is_one_of, made_kinds, shaped_kinds};

use demangle_print_below::Below;
use demangle_print_expressions::{
    cast, creation, enclosed, enclosed_type, global_creation, global_led, led,
};
use demangle_scope::{ArgScopeStack, DemangleContext, DemangleWrite};
use demangle_tree::Expression;

/// Casts and creations.
fn cast_or_creation_steps<'subs, W: DemangleWrite, B: Below<'subs, W>>(
    below: B,
    node: &'subs Expression,
    scope: Option<ArgScopeStack<'_, 'subs>>,
    ctx: &mut DemangleContext<'subs, '_, W>,
)
    requires can { B.can below }
    requires shaped { is_one_of made_kinds node.now ≡ true }
    ensures { Line (B.at below) (page W.seen ctx.old) (page W.seen ctx.new) (tree_of_expression node.now)
        (scope_of scope.entry) }
{
    match node {
        Expression::DynamicCast(ty, operand) => {
            cast(below, "dynamic_cast<", ty, operand, scope, ctx);
        }
        Expression::StaticCast(ty, operand) => cast(below, "static_cast<", ty, operand, scope, ctx),
        Expression::ConstCast(ty, operand) => cast(below, "const_cast<", ty, operand, scope, ctx),
        Expression::ReinterpretCast(ty, operand) => {
            cast(below, "reinterpret_cast<", ty, operand, scope, ctx);
        }
        Expression::New(list, ty, init) => {
            creation(below, "new (", list.as_slice(), ty, init, scope, ctx);
        }
        Expression::NewArray(list, ty, init) => {
            creation(below, "new[] (", list.as_slice(), ty, init, scope, ctx);
        }
        Expression::GlobalNew(list, ty, init) => {
            global_creation(below, "new (", list.as_slice(), ty, init, scope, ctx);
        }
        Expression::GlobalNewArray(list, ty, init) => {
            global_creation(below, "new[] (", list.as_slice(), ty, init, scope, ctx);
        }
        _ => {}
    }
}

/// What stands in parentheses behind a word, and the shapes that are left.
fn enclosed_steps<'subs, W: DemangleWrite, B: Below<'subs, W>>(
    below: B,
    node: &'subs Expression,
    scope: Option<ArgScopeStack<'_, 'subs>>,
    ctx: &mut DemangleContext<'subs, '_, W>,
)
    requires can { B.can below }
    requires shaped { is_one_of (enclosed_kinds ++ made_kinds) node.now ≡ true }
    ensures { Line (B.at below) (page W.seen ctx.old) (page W.seen ctx.new) (tree_of_expression node.now)
        (scope_of scope.entry) }
{
    match node {
        Expression::TypeidType(ty) => enclosed_type(below, "typeid (", ty, scope, ctx),
        Expression::TypeidExpr(operand) => enclosed(below, "typeid (", operand, scope, ctx),
        Expression::SizeofType(ty) => enclosed_type(below, "sizeof (", ty, scope, ctx),
        Expression::SizeofExpr(operand) => enclosed(below, "sizeof (", operand, scope, ctx),
        Expression::AlignofType(ty) => enclosed_type(below, "alignof (", ty, scope, ctx),
        Expression::AlignofExpr(operand) => enclosed(below, "alignof (", operand, scope, ctx),
        Expression::Noexcept(operand) => enclosed(below, "noexcept (", operand, scope, ctx),
        _ => cast_or_creation_steps(below, node, scope, ctx),
    }
}

/// An expression of a shape that several kinds have: what stands behind a word, and the other shapes.
pub fn shaped_steps<'subs, W: DemangleWrite, B: Below<'subs, W>>(
    below: B,
    node: &'subs Expression,
    scope: Option<ArgScopeStack<'_, 'subs>>,
    ctx: &mut DemangleContext<'subs, '_, W>,
)
    requires can { B.can below }
    requires shaped { is_one_of shaped_kinds node.now ≡ true }
    ensures { Line (B.at below) (page W.seen ctx.old) (page W.seen ctx.new) (tree_of_expression node.now)
        (scope_of scope.entry) }
{
    match node {
        Expression::PrefixInc(operand) => led(below, "++", operand, scope, ctx),
        Expression::PrefixDec(operand) => led(below, "--", operand, scope, ctx),
        Expression::Delete(operand) => led(below, "delete ", operand, scope, ctx),
        Expression::DeleteArray(operand) => led(below, "delete[] ", operand, scope, ctx),
        Expression::GlobalDelete(operand) => global_led(below, "delete ", operand, scope, ctx),
        Expression::GlobalDeleteArray(operand) => {
            global_led(below, "delete[] ", operand, scope, ctx);
        }
        Expression::Throw(operand) => led(below, "throw ", operand, scope, ctx),
        _ => enclosed_steps(below, node, scope, ctx),
    }
}
