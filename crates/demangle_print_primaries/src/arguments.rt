//! Parameters of functions, and template arguments.

ghost use Rattle.std.specs.Prelude.{map};
ghost use Rattle.demangle_core.specs.Core.{Core};
ghost use Rattle.demangle_leaf_nodes.specs.TreeLeaves.{tree_of_function_param, tree_of_template_template_param};
ghost use Rattle.demangle_nodes.specs.TreeNodes.{tree_of_template_arg};
ghost use Rattle.demangle_printing.specs.Rules.{lines_of};
ghost use Rattle.demangle_printing.specs.Scope.{Scope};
ghost use Rattle.demangle_meets.specs.Meets.{Line, Meets, Prints};
ghost use Rattle.demangle_meets.specs.Place.{world_of};
ghost use Rattle.demangle_scope.specs.ScopeOf.{scope_of};
ghost use Rattle.demangle_print_below.specs.PageOf.{page};

use crate::literals::expr_primary;
use demangle_print_below::Below;
use demangle_print_parts::{ordinal, template_param, type_handle};
use demangle_scope::{ArgScopeStack, DemangleContext, DemangleWrite, PrintFlag};
use demangle_tree::{FunctionParam, TemplateArg, TemplateTemplateParam};

/// `{parm#1}`, or `this`.
pub fn function_param<'subs, W: DemangleWrite, B: Below<'subs, W>>(
    below: B,
    node: &FunctionParam,
    ctx: &mut DemangleContext<'subs, '_, W>,
)
    requires { B.can below }
    ensures { (sc : Scope Core) → Prints (B.at below) (page W.seen ctx.old) (page W.seen ctx.new)
        (tree_of_function_param node.now) sc }
{
    let Some(_below) = below.enter(ctx) else {
        return;
    };
    match node.2 {
        Some(idx) => {
            ctx.text("{parm#");
            ordinal(idx, 1, ctx);
            ctx.text("}");
        }
        None => ctx.text("this"),
    }
}

/// A template template parameter, its level entered.
pub fn template_template_param_steps<'subs, W: DemangleWrite, B: Below<'subs, W>>(
    below: B,
    node: &'subs TemplateTemplateParam,
    scope: Option<ArgScopeStack<'_, 'subs>>,
    ctx: &mut DemangleContext<'subs, '_, W>,
)
    requires { B.can below }
    ensures { Line (B.at below) (page W.seen ctx.old) (page W.seen ctx.new)
        (tree_of_template_template_param node.now) (scope_of scope.entry) }
{
    template_param(below, &node.0, scope, ctx);
}

/// A template template parameter.
pub fn template_template_param<'subs, W: DemangleWrite, B: Below<'subs, W>>(
    below: B,
    node: &'subs TemplateTemplateParam,
    scope: Option<ArgScopeStack<'_, 'subs>>,
    ctx: &mut DemangleContext<'subs, '_, W>,
)
    requires { B.can below }
    ensures { Prints (B.at below) (page W.seen ctx.old) (page W.seen ctx.new)
        (tree_of_template_template_param node.now) (scope_of scope.entry) }
{
    let Some(below) = below.enter(ctx) else {
        return;
    };
    template_template_param_steps(below, node, scope, ctx);
}

/// Template arguments, with commas between.
pub(crate) fn template_arg_list<'subs, W: DemangleWrite, B: Below<'subs, W>>(
    below: B,
    nodes: &'subs [TemplateArg],
    scope: Option<ArgScopeStack<'_, 'subs>>,
    ctx: &mut DemangleContext<'subs, '_, W>,
)
    requires { B.can below }
    ensures { Meets (B.at below) (page W.seen ctx.old) (page W.seen ctx.new)
        (lines_of (world_of (B.at below).refers) (map tree_of_template_arg nodes.now) (scope_of scope.entry)) }
{
    let Some((first, rest)) = nodes.split_first() else {
        return;
    };
    below.template_arg(first, scope, ctx);
    for node in rest {
        ctx.text(", ");
        below.template_arg(node, scope, ctx);
    }
}

/// A template argument, its level entered.
pub fn template_arg_steps<'subs, W: DemangleWrite, B: Below<'subs, W>>(
    below: B,
    node: &'subs TemplateArg,
    scope: Option<ArgScopeStack<'_, 'subs>>,
    ctx: &mut DemangleContext<'subs, '_, W>,
)
    requires { B.can below }
    ensures { Line (B.at below) (page W.seen ctx.old) (page W.seen ctx.new) (tree_of_template_arg node.now)
        (scope_of scope.entry) }
{
    match node {
        TemplateArg::TypeArg(handle) => type_handle(below, handle, scope, ctx),
        TemplateArg::Expression(node) => below.expression(node, scope, ctx),
        TemplateArg::SimpleExpression(primary) => expr_primary(below, primary, scope, ctx),
        TemplateArg::ArgPack(nodes) => {
            ctx.turn(PrintFlag::Pack, true);
            template_arg_list(below, nodes.as_slice(), scope, ctx);
        }
    }
}
