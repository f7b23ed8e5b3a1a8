//! Prefixes.

ghost use Rattle.std.specs.Prelude.{Some};
ghost use Rattle.demangle_core.specs.Core.{Core};
ghost use Rattle.demangle_leaf_nodes.specs.TreeLeaves.{tree_of_data_member_prefix};
ghost use Rattle.demangle_entries.specs.TreeEntries.{tag_of_prefix, tree_of_prefix};
ghost use Rattle.demangle_printing.specs.Lines.{line_steps};
ghost use Rattle.demangle_printing.specs.Reader.{run};
ghost use Rattle.demangle_printing.specs.Scope.{Scope};
ghost use Rattle.demangle_context.specs.Kinds.{kind_of};
ghost use Rattle.demangle_meets.specs.Meets.{Line, Meets, Prints};
ghost use Rattle.demangle_meets.specs.Place.{world_of};
ghost use Rattle.demangle_scope.specs.ScopeOf.{scope_of};
ghost use Rattle.demangle_print_below.specs.PageOf.{page};
ghost use Rattle.demangle_print_names.specs.Opens.{Opens};
ghost use Rattle.demangle_print_unqualified.specs.Pieces.{in_fence};

use demangle_print_below::Below;
use demangle_print_parts::{decltype, prefix_handle, source_name, template_args, template_param};
use demangle_print_unqualified::unqualified_name;
use demangle_scope::{ArgScopeStack, DemangleContext, DemangleNodeType, DemangleWrite, PrintFlag};
use demangle_tree::{DataMemberPrefix, Prefix};

/// The kind of node as which a prefix is told. The flag that says so is turned off.
fn prefix_kind<'subs, W: DemangleWrite>(ctx: &mut DemangleContext<'subs, '_, W>) -> DemangleNodeType
    ensures { Opens (page W.seen ctx.old) (page W.seen ctx.new) (kind_of result) }
{
    if ctx.is_on(PrintFlag::TemplatePrefix) {
        ctx.turn(PrintFlag::TemplatePrefix, false);
        return DemangleNodeType::TemplatePrefix;
    }
    if ctx.is_on(PrintFlag::NestedPrefix) {
        ctx.turn(PrintFlag::NestedPrefix, false);
        return DemangleNodeType::NestedName;
    }
    DemangleNodeType::Prefix
}

/// The scopes and names of a prefix, as they stand in its events.
fn path<'subs, W: DemangleWrite, B: Below<'subs, W>>(
    below: B,
    node: &'subs Prefix,
    scope: Option<ArgScopeStack<'_, 'subs>>,
    ctx: &mut DemangleContext<'subs, '_, W>,
)
    requires { B.can below }
    ensures { Meets (B.at below) (page W.seen ctx.old) (page W.seen ctx.new)
        (run (world_of (B.at below).refers) (Some (tree_of_prefix node.now)) (scope_of scope.entry)
        (in_fence (line_steps (tag_of_prefix node.now)))) }
{
    match node {
        Prefix::Unqualified(name) => unqualified_name(below, name, scope, ctx),
        Prefix::Nested(handle, name) => {
            prefix_handle(below, handle, scope, ctx);
            ctx.text("::");
            unqualified_name(below, name, scope, ctx);
        }
        Prefix::Template(handle, args) => {
            ctx.turn(PrintFlag::TemplatePrefix, true);
            prefix_handle(below, handle, scope, ctx);
            ctx.turn(PrintFlag::TemplatePrefix, false);
            template_args(below, args, scope, ctx);
        }
        Prefix::TemplateParam(param) => template_param(below, param, scope, ctx),
        Prefix::Decltype(node) => decltype(below, node, scope, ctx),
        Prefix::DataMember(handle, member) => {
            prefix_handle(below, handle, scope, ctx);
            ctx.text("::");
            data_member_prefix(below, member, ctx);
        }
    }
}

/// A scope, or a name with its scope, inside a nested name, its level entered. Inner items that wait are for the
/// whole name.
pub fn prefix_steps<'subs, W: DemangleWrite, B: Below<'subs, W>>(
    below: B,
    node: &'subs Prefix,
    scope: Option<ArgScopeStack<'_, 'subs>>,
    ctx: &mut DemangleContext<'subs, '_, W>,
)
    requires { B.can below }
    ensures { Line (B.at below) (page W.seen ctx.old) (page W.seen ctx.new) (tree_of_prefix node.now)
        (scope_of scope.entry) }
{
    let kind = prefix_kind(ctx);
    let told = ctx.begin_node(kind);
    let items = ctx.fence();
    path(below, node, scope, ctx);
    ctx.unfence(items);
    ctx.end_node(told);
}

/// A scope, or a name with its scope, inside a nested name.
pub fn prefix<'subs, W: DemangleWrite, B: Below<'subs, W>>(
    below: B,
    node: &'subs Prefix,
    scope: Option<ArgScopeStack<'_, 'subs>>,
    ctx: &mut DemangleContext<'subs, '_, W>,
)
    requires { B.can below }
    ensures { Prints (B.at below) (page W.seen ctx.old) (page W.seen ctx.new) (tree_of_prefix node.now)
        (scope_of scope.entry) }
{
    let Some(below) = below.enter(ctx) else {
        return;
    };
    prefix_steps(below, node, scope, ctx);
}

/// The member whose initializer is the scope of a closure.
pub fn data_member_prefix<'subs, W: DemangleWrite, B: Below<'subs, W>>(
    below: B,
    node: &DataMemberPrefix,
    ctx: &mut DemangleContext<'subs, '_, W>,
)
    requires { B.can below }
    ensures { (sc : Scope Core) → Prints (B.at below) (page W.seen ctx.old) (page W.seen ctx.new)
        (tree_of_data_member_prefix node.now) sc }
{
    let Some(below) = below.enter(ctx) else {
        return;
    };
    let told = ctx.begin_node(DemangleNodeType::DataMemberPrefix);
    source_name(below, &node.0, ctx);
    ctx.end_node(told);
}
