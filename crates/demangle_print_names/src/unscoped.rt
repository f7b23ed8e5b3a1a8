//! Names of every kind, and names of the global scope or of `std`.

ghost use Rattle.demangle_leaf_nodes.specs.TreeLeaves.{tree_of_unscoped_name, tree_of_unscoped_template_name};
ghost use Rattle.demangle_nodes.specs.TreeNodes.{tree_of_name};
ghost use Rattle.demangle_meets.specs.Meets.{Line, Prints};
ghost use Rattle.demangle_scope.specs.ScopeOf.{scope_of};
ghost use Rattle.demangle_print_below.specs.PageOf.{page};

use crate::local::local_name;
use crate::nested::nested_name;
use demangle_print_below::Below;
use demangle_print_parts::{template_args, unscoped_template_name_handle};
use demangle_print_unqualified::unqualified_name;
use demangle_scope::{ArgScopeStack, DemangleContext, DemangleWrite, ScopeItem, scope_push};
use demangle_tree::{Name, UnscopedName, UnscopedTemplateName};

/// A name, its level entered. The name of a template has its arguments in scope.
pub fn name_steps<'subs, W: DemangleWrite, B: Below<'subs, W>>(
    below: B,
    node: &'subs Name,
    scope: Option<ArgScopeStack<'_, 'subs>>,
    ctx: &mut DemangleContext<'subs, '_, W>,
)
    requires { B.can below }
    ensures { Line (B.at below) (page W.seen ctx.old) (page W.seen ctx.new) (tree_of_name node.now)
        (scope_of scope.entry) }
{
    match node {
        Name::Nested(name) => nested_name(below, name, scope, ctx),
        Name::Unscoped(name) => unscoped_name(below, name, scope, ctx),
        Name::UnscopedTemplate(template, args) => {
            let inner = scope_push(&scope, ScopeItem::Args(args));
            unscoped_template_name_handle(below, template, inner, ctx);
            template_args(below, args, scope, ctx);
        }
        Name::Local(name) => local_name(below, name, scope, ctx),
    }
}

/// `f`, and `std::f`.
pub fn unscoped_name<'subs, W: DemangleWrite, B: Below<'subs, W>>(
    below: B,
    node: &'subs UnscopedName,
    scope: Option<ArgScopeStack<'_, 'subs>>,
    ctx: &mut DemangleContext<'subs, '_, W>,
)
    requires { B.can below }
    ensures { Prints (B.at below) (page W.seen ctx.old) (page W.seen ctx.new) (tree_of_unscoped_name node.now)
        (scope_of scope.entry) }
{
    let Some(below) = below.enter(ctx) else {
        return;
    };
    match node {
        UnscopedName::Unqualified(name) => unqualified_name(below, name, scope, ctx),
        UnscopedName::Std(name) => {
            ctx.text("std::");
            unqualified_name(below, name, scope, ctx);
        }
    }
}

/// The name of a template without its arguments, its level entered.
pub fn unscoped_template_name_steps<'subs, W: DemangleWrite, B: Below<'subs, W>>(
    below: B,
    node: &'subs UnscopedTemplateName,
    scope: Option<ArgScopeStack<'_, 'subs>>,
    ctx: &mut DemangleContext<'subs, '_, W>,
)
    requires { B.can below }
    ensures { Line (B.at below) (page W.seen ctx.old) (page W.seen ctx.new) (tree_of_unscoped_template_name node.now)
        (scope_of scope.entry) }
{
    unscoped_name(below, &node.0, scope, ctx);
}

/// The name of a template without its arguments.
pub fn unscoped_template_name<'subs, W: DemangleWrite, B: Below<'subs, W>>(
    below: B,
    node: &'subs UnscopedTemplateName,
    scope: Option<ArgScopeStack<'_, 'subs>>,
    ctx: &mut DemangleContext<'subs, '_, W>,
)
    requires { B.can below }
    ensures { Prints (B.at below) (page W.seen ctx.old) (page W.seen ctx.new)
        (tree_of_unscoped_template_name node.now) (scope_of scope.entry) }
{
    let Some(below) = below.enter(ctx) else {
        return;
    };
    unscoped_template_name_steps(below, node, scope, ctx);
}
