//! Template parameters and lists of template arguments.

ghost use Rattle.std.specs.Prelude.{◌<◌, Some, map};
ghost use Rattle.demangle_core.specs.Core.{Core};
ghost use Rattle.demangle_leaf_nodes.specs.TreeLeaves.{tree_of_option, tree_of_template_param};
ghost use Rattle.demangle_nodes.specs.TreeNodes.{tree_of_template_arg, tree_of_template_args};
ghost use Rattle.demangle_printing.specs.Act.{Act};
ghost use Rattle.demangle_printing.specs.Lines.Arguments.{members_apart};
ghost use Rattle.demangle_printing.specs.Reader.{run};
ghost use Rattle.demangle_printing.specs.Rules.{members_of};
ghost use Rattle.demangle_meets.specs.Meets.{Meets, Prints, Remains};
ghost use Rattle.demangle_meets.specs.Place.{Place, world_of};
ghost use Rattle.demangle_scope.specs.ScopeOf.{scope_of};
ghost use Rattle.demangle_print_below.specs.PageOf.{page};
ghost use Rattle.demangle_print_parts.specs.Arguments.{apart_from, argument_of, stands_for};

use crate::numbers::ordinal;
use demangle_print_below::Below;
use demangle_scope::{
    ArgScopeStack, DemangleContext, DemangleNodeType, DemangleWrite, PrintFlag, scope_in_arg,
    scope_template_arg,
};
use demangle_tree::{TemplateArgs, TemplateParam};

/// The template argument of this number, from the newest list in scope that has so many.
pub fn argument<'subs, W: DemangleWrite, B: Below<'subs, W>>(
    below: B,
    idx: usize,
    scope: Option<ArgScopeStack<'_, 'subs>>,
    ctx: &mut DemangleContext<'subs, '_, W>,
)
    requires { B.can below }
    ensures { Meets (B.at below) (page W.seen ctx.old) (page W.seen ctx.new)
        (argument_of (world_of (B.at below).refers) (scope_of scope.entry) idx) }
{
    match scope_template_arg(&scope, idx) {
        Ok((arg, _)) => below.template_arg(arg, scope, ctx),
        Err(error) => ctx.fail_reference(error),
    }
}

/// What a template parameter stands for: `auto:1` in the signature of a closure, an argument elsewhere.
fn stands_for<'subs, W: DemangleWrite, B: Below<'subs, W>>(
    below: B,
    idx: usize,
    scope: Option<ArgScopeStack<'_, 'subs>>,
    ctx: &mut DemangleContext<'subs, '_, W>,
)
    requires { B.can below }
    ensures { Meets (B.at below) (page W.seen ctx.old) (page W.seen ctx.new)
        (stands_for (world_of (B.at below).refers) (scope_of scope.entry) idx) }
{
    if ctx.is_on(PrintFlag::Lambda) {
        ctx.text("auto:");
        ordinal(idx, 1, ctx);
    } else {
        argument(below, idx, scope, ctx);
    }
}

/// A template parameter, by what it stands for.
pub fn template_param<'subs, W: DemangleWrite, B: Below<'subs, W>>(
    below: B,
    node: &TemplateParam,
    scope: Option<ArgScopeStack<'_, 'subs>>,
    ctx: &mut DemangleContext<'subs, '_, W>,
)
    requires { B.can below }
    ensures { Prints (B.at below) (page W.seen ctx.old) (page W.seen ctx.new) (tree_of_template_param node.now)
        (scope_of scope.entry) }
{
    let Some(below) = below.enter(ctx) else {
        return;
    };
    let told = ctx.begin_node(DemangleNodeType::TemplateParam);
    stands_for(below, node.0, scope, ctx);
    ctx.end_node(told);
}

/// A space where the last byte is this bracket, of ASCII, so that no two brackets touch.
fn apart_from<'subs, W: DemangleWrite>(bracket: char, ctx: &mut DemangleContext<'subs, '_, W>)
    requires { bracket < 128 }
    ensures { (p : Place) (k : Act Core) → Remains p (page W.seen ctx.old) (page W.seen ctx.new)
        (apart_from bracket k) k }
{
    if ctx.last_is(bracket) {
        ctx.text(" ");
    }
}

/// Template arguments with commas between. The scope of each says that this one is being printed.
fn members<'subs, W: DemangleWrite, B: Below<'subs, W>>(
    below: B,
    args: &'subs TemplateArgs,
    scope: Option<ArgScopeStack<'_, 'subs>>,
    ctx: &mut DemangleContext<'subs, '_, W>,
)
    requires { B.can below }
    ensures { Meets (B.at below) (page W.seen ctx.old) (page W.seen ctx.new)
        (members_of (world_of (B.at below).refers) args.now.1 (map tree_of_template_arg args.now.0.items)
        (scope_of scope.entry)) }
{
    let Some((first, _)) = args.0.split_first() else {
        return;
    };
    below.template_arg(first, scope_in_arg(scope, 0, args), ctx);
    for index in 1..args.0.len() {
        ctx.text(", ");
        below.template_arg(&args.0[index], scope_in_arg(scope, index, args), ctx);
    }
}

/// Template arguments with commas between, and a space where the last one ends in `>`.
fn members_apart<'subs, W: DemangleWrite, B: Below<'subs, W>>(
    below: B,
    args: &'subs TemplateArgs,
    scope: Option<ArgScopeStack<'_, 'subs>>,
    ctx: &mut DemangleContext<'subs, '_, W>,
)
    requires { B.can below }
    ensures { Meets (B.at below) (page W.seen ctx.old) (page W.seen ctx.new)
        (run (world_of (B.at below).refers) (Some (tree_of_template_args args.now)) (scope_of scope.entry)
        members_apart) }
{
    members(below, args, scope, ctx);
    apart_from('>', ctx);
}

/// `<int, char>`.
pub fn template_args<'subs, W: DemangleWrite, B: Below<'subs, W>>(
    below: B,
    node: &'subs TemplateArgs,
    scope: Option<ArgScopeStack<'_, 'subs>>,
    ctx: &mut DemangleContext<'subs, '_, W>,
)
    requires { B.can below }
    ensures { Prints (B.at below) (page W.seen ctx.old) (page W.seen ctx.new) (tree_of_template_args node.now)
        (scope_of scope.entry) }
{
    let Some(below) = below.enter(ctx) else {
        return;
    };
    let items = ctx.fence();
    apart_from('<', ctx);
    ctx.text("<");
    let told = ctx.begin_node(DemangleNodeType::TemplateArgs);
    members_apart(below, node, scope, ctx);
    ctx.end_node(told);
    ctx.text(">");
    ctx.unfence(items);
}

/// Template arguments, where there are any.
pub fn optional_template_args<'subs, W: DemangleWrite, B: Below<'subs, W>>(
    below: B,
    node: &'subs Option<TemplateArgs>,
    scope: Option<ArgScopeStack<'_, 'subs>>,
    ctx: &mut DemangleContext<'subs, '_, W>,
)
    requires { B.can below }
    ensures { Prints (B.at below) (page W.seen ctx.old) (page W.seen ctx.new)
        (tree_of_option tree_of_template_args node.now) (scope_of scope.entry) }
{
    if let Some(args) = node {
        template_args(below, args, scope, ctx);
    }
}
