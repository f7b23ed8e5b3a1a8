//! Members of objects.

ghost use Rattle.demangle_core.specs.Core.{◌⊕◌, Tag};
ghost use Rattle.demangle_nodes.specs.TreeNodes.{tree_of_expression, tree_of_member_name, tree_of_subobject_expr};
ghost use Rattle.demangle_meets.specs.Meets.{Line, Prints};
ghost use Rattle.demangle_scope.specs.ScopeOf.{scope_of};
ghost use Rattle.demangle_print_below.specs.PageOf.{page};
ghost use Rattle.demangle_print_primaries.specs.Made.{made};

use crate::shapes::operand;
use demangle_print_below::Below;
use demangle_print_parts::{number, type_handle};
use demangle_scope::{ArgScopeStack, DemangleContext, DemangleWrite};
use demangle_tree::{Expression, GetTemplateArgs, MemberName, Name, SubobjectExpr};

/// `(g).x`.
pub fn member<'subs, W: DemangleWrite, B: Below<'subs, W>>(
    below: B,
    object: &'subs Expression,
    name: &'subs MemberName,
    scope: Option<ArgScopeStack<'_, 'subs>>,
    ctx: &mut DemangleContext<'subs, '_, W>,
)
    requires { B.can below }
    ensures { Line (B.at below) (page W.seen ctx.old) (page W.seen ctx.new)
        (made Tag.ExpressionMember (tree_of_expression object.now ⊕ tree_of_member_name name.now))
        (scope_of scope.entry) }
{
    operand(below, object, scope, ctx);
    ctx.text(".");
    member_name(below, name, scope, ctx);
}

/// `g->x`.
pub fn deref_member<'subs, W: DemangleWrite, B: Below<'subs, W>>(
    below: B,
    object: &'subs Expression,
    name: &'subs MemberName,
    scope: Option<ArgScopeStack<'_, 'subs>>,
    ctx: &mut DemangleContext<'subs, '_, W>,
)
    requires { B.can below }
    ensures { Line (B.at below) (page W.seen ctx.old) (page W.seen ctx.new)
        (made Tag.ExpressionDerefMember (tree_of_expression object.now ⊕ tree_of_member_name name.now))
        (scope_of scope.entry) }
{
    below.expression(object, scope, ctx);
    ctx.text("->");
    member_name(below, name, scope, ctx);
}

/// `g.*h`.
pub fn pointer_to_member<'subs, W: DemangleWrite, B: Below<'subs, W>>(
    below: B,
    object: &'subs Expression,
    member: &'subs Expression,
    scope: Option<ArgScopeStack<'_, 'subs>>,
    ctx: &mut DemangleContext<'subs, '_, W>,
)
    requires { B.can below }
    ensures { Line (B.at below) (page W.seen ctx.old) (page W.seen ctx.new)
        (made Tag.ExpressionPointerToMember (tree_of_expression object.now ⊕ tree_of_expression member.now))
        (scope_of scope.entry) }
{
    below.expression(object, scope, ctx);
    ctx.text(".*");
    below.expression(member, scope, ctx);
}

/// The name of a member, in parentheses where it has template arguments.
pub fn member_name<'subs, W: DemangleWrite, B: Below<'subs, W>>(
    below: B,
    node: &'subs MemberName,
    scope: Option<ArgScopeStack<'_, 'subs>>,
    ctx: &mut DemangleContext<'subs, '_, W>,
)
    requires { B.can below }
    ensures { Prints (B.at below) (page W.seen ctx.old) (page W.seen ctx.new) (tree_of_member_name node.now)
        (scope_of scope.entry) }
{
    let Some(below) = below.enter(ctx) else {
        return;
    };
    let name: &'subs Name = &node.0;
    match name.get_template_args(below.subs()) {
        Some(_) => {
            ctx.text("(");
            below.name(name, scope, ctx);
            ctx.text(")");
        }
        None => below.name(name, scope, ctx),
    }
}

/// `g.<int at offset 4>`.
pub fn subobject_expr<'subs, W: DemangleWrite, B: Below<'subs, W>>(
    below: B,
    node: &'subs SubobjectExpr,
    scope: Option<ArgScopeStack<'_, 'subs>>,
    ctx: &mut DemangleContext<'subs, '_, W>,
)
    requires { B.can below }
    ensures { Prints (B.at below) (page W.seen ctx.old) (page W.seen ctx.new) (tree_of_subobject_expr node.now)
        (scope_of scope.entry) }
{
    let Some(below) = below.enter(ctx) else {
        return;
    };
    below.expression(&node.expr, scope, ctx);
    ctx.text(".<");
    type_handle(below, &node.ty, scope, ctx);
    ctx.text(" at offset ");
    number(node.offset, ctx);
    ctx.text(">");
}
