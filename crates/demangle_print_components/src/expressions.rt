//! The line of an expression, by its kind.

ghost use Rattle.std.specs.Prelude.{◌≡◌, ◌++◌, true};
ghost use Rattle.demangle_nodes.specs.TreeNodes.{tree_of_expression};
ghost use Rattle.demangle_meets.specs.Meets.{Line};
ghost use Rattle.demangle_scope.specs.ScopeOf.{scope_of};
ghost use Rattle.demangle_print_below.specs.PageOf.{page};
ghost use Rattle.demangle_print_shapes.specs.Kinds.{is_one_of, shaped_kinds};
ghost use Rattle.demangle_print_components.specs.Kinds.{call_kinds, primary_kinds};

use demangle_print_below::Below;
use demangle_print_expressions::{
    binary, braced_init_list, call, conversion_braced, conversion_many, conversion_one,
    deref_member, fold_expr, member, pack_expansion, pointer_to_member, subobject_expr, ternary,
    unary,
};
use demangle_print_parts::template_param;
use demangle_print_primaries::{
    expr_primary, function_param, sizeof_captured_pack, sizeof_function_pack, sizeof_template_pack,
    unresolved_name,
};
use demangle_print_shapes::shaped_steps;
use demangle_scope::{ArgScopeStack, DemangleContext, DemangleWrite};
use demangle_tree::Expression;

/// Literals, names, parameters and sizes of packs, and the shapes that several kinds have.
fn primary_steps<'subs, W: DemangleWrite, B: Below<'subs, W>>(
    below: B,
    node: &'subs Expression,
    scope: Option<ArgScopeStack<'_, 'subs>>,
    ctx: &mut DemangleContext<'subs, '_, W>,
)
    requires can { B.can below }
    requires others { is_one_of (primary_kinds ++ shaped_kinds) node.now ≡ true }
    ensures { Line (B.at below) (page W.seen ctx.old) (page W.seen ctx.new) (tree_of_expression node.now)
        (scope_of scope.entry) }
{
    match node {
        Expression::SizeofTemplatePack(param) => sizeof_template_pack(below, param, scope, ctx),
        Expression::SizeofFunctionPack(param) => sizeof_function_pack(below, param, ctx),
        Expression::SizeofCapturedTemplatePack(args) => {
            sizeof_captured_pack(below, args.as_slice(), scope, ctx);
        }
        Expression::TemplateParam(param) => template_param(below, param, scope, ctx),
        Expression::FunctionParam(param) => function_param(below, param, ctx),
        Expression::Rethrow => ctx.text("throw"),
        Expression::UnresolvedName(name) => unresolved_name(below, name, scope, ctx),
        Expression::Primary(primary) => expr_primary(below, primary, scope, ctx),
        _ => shaped_steps(below, node, scope, ctx),
    }
}

/// Calls, conversions, lists in braces and expansions of packs, and what is left.
fn call_steps<'subs, W: DemangleWrite, B: Below<'subs, W>>(
    below: B,
    node: &'subs Expression,
    scope: Option<ArgScopeStack<'_, 'subs>>,
    ctx: &mut DemangleContext<'subs, '_, W>,
)
    requires can { B.can below }
    requires others { is_one_of (call_kinds ++ (primary_kinds ++ shaped_kinds)) node.now ≡ true }
    ensures { Line (B.at below) (page W.seen ctx.old) (page W.seen ctx.new) (tree_of_expression node.now)
        (scope_of scope.entry) }
{
    match node {
        Expression::Call(callee, args) => call(below, callee, args.as_slice(), scope, ctx),
        Expression::ConversionOne(ty, operand) => conversion_one(below, ty, operand, scope, ctx),
        Expression::ConversionMany(ty, list) => {
            conversion_many(below, ty, list.as_slice(), scope, ctx);
        }
        Expression::ConversionBraced(ty, list) => {
            conversion_braced(below, ty, list.as_slice(), scope, ctx);
        }
        Expression::BracedInitList(list) => braced_init_list(below, list.as_slice(), scope, ctx),
        Expression::PackExpansion(operand) => pack_expansion(below, operand, scope, ctx),
        _ => primary_steps(below, node, scope, ctx),
    }
}

/// An expression, its level entered: operators, and the other kinds.
pub fn expression_steps<'subs, W: DemangleWrite, B: Below<'subs, W>>(
    below: B,
    node: &'subs Expression,
    scope: Option<ArgScopeStack<'_, 'subs>>,
    ctx: &mut DemangleContext<'subs, '_, W>,
)
    requires { B.can below }
    ensures { Line (B.at below) (page W.seen ctx.old) (page W.seen ctx.new) (tree_of_expression node.now)
        (scope_of scope.entry) }
{
    match node {
        Expression::Unary(operator, operand) => unary(below, operator, operand, scope, ctx),
        Expression::Binary(operator, left, right) => {
            binary(below, operator, left, right, scope, ctx);
        }
        Expression::Ternary(operator, first, second, third) => {
            ternary(below, operator, first, second, third, scope, ctx);
        }
        Expression::Fold(fold) => fold_expr(below, fold, scope, ctx),
        Expression::Member(object, name) => member(below, object, name, scope, ctx),
        Expression::DerefMember(object, name) => deref_member(below, object, name, scope, ctx),
        Expression::PointerToMember(left, right) => {
            pointer_to_member(below, left, right, scope, ctx);
        }
        Expression::Subobject(part) => subobject_expr(below, part, scope, ctx),
        _ => call_steps(below, node, scope, ctx),
    }
}
