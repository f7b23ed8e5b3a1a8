//! Calls and conversions, and lists in brackets.

ghost use Rattle.demangle_core.specs.Core.{◌⊕◌, Tag};
ghost use Rattle.demangle_leaf_nodes.specs.TreeLeaves.{tree_of_type_handle};
ghost use Rattle.demangle_nodes.specs.TreeNodes.{tree_of_expression, tree_of_initializer};
ghost use Rattle.demangle_meets.specs.Meets.{Line, Prints};
ghost use Rattle.demangle_scope.specs.ScopeOf.{scope_of};
ghost use Rattle.demangle_print_below.specs.PageOf.{page};
ghost use Rattle.demangle_print_primaries.specs.Made.{expressions, made};

use crate::shapes::operand;
use demangle_print_below::Below;
use demangle_print_parts::{expression_list, type_handle};
use demangle_scope::{ArgScopeStack, DemangleContext, DemangleWrite};
use demangle_tree::{Expression, Initializer, TypeHandle};

/// `(g)(1, 2)`.
pub fn call<'subs, W: DemangleWrite, B: Below<'subs, W>>(
    below: B,
    callee: &'subs Expression,
    args: &'subs [Expression],
    scope: Option<ArgScopeStack<'_, 'subs>>,
    ctx: &mut DemangleContext<'subs, '_, W>,
)
    requires { B.can below }
    ensures { Line (B.at below) (page W.seen ctx.old) (page W.seen ctx.new)
        (made Tag.ExpressionCall (tree_of_expression callee.now ⊕ expressions args.now)) (scope_of scope.entry) }
{
    operand(below, callee, scope, ctx);
    ctx.text("(");
    expression_list(below, args, scope, ctx);
    ctx.text(")");
}

/// `(int)(g)`.
pub fn conversion_one<'subs, W: DemangleWrite, B: Below<'subs, W>>(
    below: B,
    handle: &'subs TypeHandle,
    node: &'subs Expression,
    scope: Option<ArgScopeStack<'_, 'subs>>,
    ctx: &mut DemangleContext<'subs, '_, W>,
)
    requires { B.can below }
    ensures { Line (B.at below) (page W.seen ctx.old) (page W.seen ctx.new)
        (made Tag.ExpressionConversionOne (tree_of_type_handle handle.now ⊕ tree_of_expression node.now))
        (scope_of scope.entry) }
{
    ctx.text("(");
    type_handle(below, handle, scope, ctx);
    ctx.text(")(");
    below.expression(node, scope, ctx);
    ctx.text(")");
}

/// `T(1, 2)`.
pub fn conversion_many<'subs, W: DemangleWrite, B: Below<'subs, W>>(
    below: B,
    handle: &'subs TypeHandle,
    nodes: &'subs [Expression],
    scope: Option<ArgScopeStack<'_, 'subs>>,
    ctx: &mut DemangleContext<'subs, '_, W>,
)
    requires { B.can below }
    ensures { Line (B.at below) (page W.seen ctx.old) (page W.seen ctx.new)
        (made Tag.ExpressionConversionMany (tree_of_type_handle handle.now ⊕ expressions nodes.now))
        (scope_of scope.entry) }
{
    type_handle(below, handle, scope, ctx);
    ctx.text("(");
    expression_list(below, nodes, scope, ctx);
    ctx.text(")");
}

/// `T{1, 2}`.
pub fn conversion_braced<'subs, W: DemangleWrite, B: Below<'subs, W>>(
    below: B,
    handle: &'subs TypeHandle,
    nodes: &'subs [Expression],
    scope: Option<ArgScopeStack<'_, 'subs>>,
    ctx: &mut DemangleContext<'subs, '_, W>,
)
    requires { B.can below }
    ensures { Line (B.at below) (page W.seen ctx.old) (page W.seen ctx.new)
        (made Tag.ExpressionConversionBraced (tree_of_type_handle handle.now ⊕ expressions nodes.now))
        (scope_of scope.entry) }
{
    type_handle(below, handle, scope, ctx);
    ctx.text("{");
    expression_list(below, nodes, scope, ctx);
    ctx.text("}");
}

/// `{1, 2}`.
pub fn braced_init_list<'subs, W: DemangleWrite, B: Below<'subs, W>>(
    below: B,
    nodes: &'subs [Expression],
    scope: Option<ArgScopeStack<'_, 'subs>>,
    ctx: &mut DemangleContext<'subs, '_, W>,
)
    requires { B.can below }
    ensures { Line (B.at below) (page W.seen ctx.old) (page W.seen ctx.new)
        (made Tag.ExpressionBracedInitList (expressions nodes.now)) (scope_of scope.entry) }
{
    ctx.text("{");
    expression_list(below, nodes, scope, ctx);
    ctx.text("}");
}

/// `(1, 2)`, behind the type of a `new` expression.
pub fn initializer<'subs, W: DemangleWrite, B: Below<'subs, W>>(
    below: B,
    node: &'subs Initializer,
    scope: Option<ArgScopeStack<'_, 'subs>>,
    ctx: &mut DemangleContext<'subs, '_, W>,
)
    requires { B.can below }
    ensures { Prints (B.at below) (page W.seen ctx.old) (page W.seen ctx.new) (tree_of_initializer node.now)
        (scope_of scope.entry) }
{
    let Some(below) = below.enter(ctx) else {
        return;
    };
    ctx.text("(");
    expression_list(below, node.0.as_slice(), scope, ctx);
    ctx.text(")");
}
