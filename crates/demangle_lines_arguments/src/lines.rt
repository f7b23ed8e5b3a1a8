//! Lines of template parameters and arguments.

ghost use Rattle.demangle_core.specs.Core.{Tag};
ghost use Rattle.demangle_printing.specs.Lines.{line_steps};
ghost use Rattle.demangle_context.specs.PageOf.{page};
ghost use Rattle.demangle_lines.specs.Does.{Runs};
ghost use Rattle.demangle_lines.specs.ScopeOf.{lent_scope};

use crate::choices::{choice_1, choice_2, choice_3, choice_4};
use demangle_context::{Context, DemangleNodeType, DemangleWrite, PrintFlag};
use demangle_lines::{Below, Scope, Tree, list, members};

/// The line of `TemplateParam`: a template parameter by its position, from 0. ABI section 5.1.5.8.
pub fn template_param<'s, T: Tree<S>, S: 's, W: DemangleWrite, B: Below<'s, T, S, W>>(
    below: B,
    tree: T,
    scope: Option<&Scope<'_, T>>,
    ctx: &mut Context<'s, '_, T, S, W>,
)
    requires { B.can below }
    ensures { Runs (B.at below) (page T.tree T.table W.seen ctx.old) (page T.tree T.table W.seen ctx.new) (T.tree
        tree) (lent_scope T.tree scope.entry) (line_steps Tag.TemplateParam) }
{
    let told = ctx.begin_node(DemangleNodeType::TemplateParam);
    choice_1(below, tree, scope, ctx);
    ctx.end_node(told);
}

/// The line of `FunctionParam`: a parameter of the function that is declared, or of one around it: the number behind
/// `fL` as it is written, one less than the scopes between, and 0 for `fp`; its qualifiers; and its position, where
/// `None` is `this`. ABI section 5.1.5.9.
pub fn function_param<'s, T: Tree<S>, S: 's, W: DemangleWrite, B: Below<'s, T, S, W>>(
    below: B,
    tree: T,
    scope: Option<&Scope<'_, T>>,
    ctx: &mut Context<'s, '_, T, S, W>,
)
    requires { B.can below }
    ensures { Runs (B.at below) (page T.tree T.table W.seen ctx.old) (page T.tree T.table W.seen ctx.new) (T.tree
        tree) (lent_scope T.tree scope.entry) (line_steps Tag.FunctionParam) }
{
    choice_2(below, tree, scope, ctx);
}

/// The line of `TemplateArgs`: the arguments of a template, and their place: the index of the `I` before them, which
/// equality leaves out. ABI section 5.1.2.
pub fn template_args<'s, T: Tree<S>, S: 's, W: DemangleWrite, B: Below<'s, T, S, W>>(
    below: B,
    tree: T,
    scope: Option<&Scope<'_, T>>,
    ctx: &mut Context<'s, '_, T, S, W>,
)
    requires { B.can below }
    ensures { Runs (B.at below) (page T.tree T.table W.seen ctx.old) (page T.tree T.table W.seen ctx.new) (T.tree
        tree) (lent_scope T.tree scope.entry) (line_steps Tag.TemplateArgs) }
{
    let items = ctx.fence();
    choice_3(below, tree, scope, ctx);
    ctx.text("<");
    let told = ctx.begin_node(DemangleNodeType::TemplateArgs);
    members(below, tree, 0, scope, ctx);
    choice_4(below, tree, scope, ctx);
    ctx.end_node(told);
    ctx.text(">");
    ctx.unfence(items);
}

/// The line of `TemplateArgArgPack`: what stands for a parameter pack, `int, char`: `JicE`. ABI section 5.1.2.
pub fn template_arg_arg_pack<'s, T: Tree<S>, S: 's, W: DemangleWrite, B: Below<'s, T, S, W>>(
    below: B,
    tree: T,
    scope: Option<&Scope<'_, T>>,
    ctx: &mut Context<'s, '_, T, S, W>,
)
    requires { B.can below }
    ensures { Runs (B.at below) (page T.tree T.table W.seen ctx.old) (page T.tree T.table W.seen ctx.new) (T.tree
        tree) (lent_scope T.tree scope.entry) (line_steps Tag.TemplateArgArgPack) }
{
    ctx.turn(PrintFlag::Pack, true);
    list(below, tree, 0, scope, ctx);
}
