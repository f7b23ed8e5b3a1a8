//! The sizes of packs.

ghost use Rattle.demangle_core.specs.Core.{Core, Tag};
ghost use Rattle.demangle_leaf_nodes.specs.TreeLeaves.{tree_of_function_param, tree_of_template_param};
ghost use Rattle.demangle_printing.specs.Scope.{Scope};
ghost use Rattle.demangle_meets.specs.Meets.{Line};
ghost use Rattle.demangle_scope.specs.ScopeOf.{scope_of};
ghost use Rattle.demangle_print_below.specs.PageOf.{page};
ghost use Rattle.demangle_print_primaries.specs.Made.{arguments, made};

use crate::arguments::{function_param, template_arg_list};
use demangle_print_below::Below;
use demangle_print_parts::template_param;
use demangle_scope::{ArgScopeStack, DemangleContext, DemangleWrite};
use demangle_tree::{FunctionParam, TemplateArg, TemplateParam};

/// `sizeof...(int, char)`, of the template parameter that stands for these.
pub fn sizeof_template_pack<'subs, W: DemangleWrite, B: Below<'subs, W>>(
    below: B,
    node: &TemplateParam,
    scope: Option<ArgScopeStack<'_, 'subs>>,
    ctx: &mut DemangleContext<'subs, '_, W>,
)
    requires { B.can below }
    ensures { Line (B.at below) (page W.seen ctx.old) (page W.seen ctx.new)
        (made Tag.ExpressionSizeofTemplatePack (tree_of_template_param node.now)) (scope_of scope.entry) }
{
    ctx.text("sizeof...(");
    template_param(below, node, scope, ctx);
    ctx.text(")");
}

/// `sizeof...({parm#1})`.
pub fn sizeof_function_pack<'subs, W: DemangleWrite, B: Below<'subs, W>>(
    below: B,
    node: &FunctionParam,
    ctx: &mut DemangleContext<'subs, '_, W>,
)
    requires { B.can below }
    ensures { (sc : Scope Core) → Line (B.at below) (page W.seen ctx.old) (page W.seen ctx.new)
        (made Tag.ExpressionSizeofFunctionPack (tree_of_function_param node.now)) sc }
{
    ctx.text("sizeof...(");
    function_param(below, node, ctx);
    ctx.text(")");
}

/// `sizeof...(int, char)`, of the arguments themselves.
pub fn sizeof_captured_pack<'subs, W: DemangleWrite, B: Below<'subs, W>>(
    below: B,
    nodes: &'subs [TemplateArg],
    scope: Option<ArgScopeStack<'_, 'subs>>,
    ctx: &mut DemangleContext<'subs, '_, W>,
)
    requires { B.can below }
    ensures { Line (B.at below) (page W.seen ctx.old) (page W.seen ctx.new)
        (made Tag.ExpressionSizeofCapturedTemplatePack (arguments nodes.now)) (scope_of scope.entry) }
{
    ctx.text("sizeof...(");
    template_arg_list(below, nodes, scope, ctx);
    ctx.text(")");
}
