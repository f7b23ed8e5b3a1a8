//! Names without their scope, and their ABI tags.

ghost use Rattle.std.specs.Prelude.{Some, map};
ghost use Rattle.demangle_core.specs.Core.{Core};
ghost use Rattle.demangle_leaf_nodes.specs.TreeLeaves.{tag_of_unqualified_name, tree_of_abi_tag, tree_of_abi_tags};
ghost use Rattle.demangle_leaf_nodes.specs.TreeLeaves.{tree_of_unqualified_name};
ghost use Rattle.demangle_printing.specs.Items.{itself};
ghost use Rattle.demangle_printing.specs.Lines.{line_steps};
ghost use Rattle.demangle_printing.specs.Reader.{run};
ghost use Rattle.demangle_printing.specs.Scope.{Scope};
ghost use Rattle.demangle_printing.specs.Step.{Step};
ghost use Rattle.demangle_meets.specs.Meets.{Meets, Prints};
ghost use Rattle.demangle_meets.specs.Place.{world_of};
ghost use Rattle.demangle_scope.specs.ScopeOf.{scope_of};
ghost use Rattle.demangle_print_below.specs.PageOf.{page};
ghost use Rattle.demangle_print_parts.specs.Pieces.{each_of};
ghost use Rattle.demangle_print_unqualified.specs.Pieces.{in_event};

use crate::leaf_names::ctor_dtor_name;
use crate::unnamed::{closure_type_name, unnamed_type_name};
use demangle_print_below::Below;
use demangle_print_parts::{operator_name, source_name};
use demangle_scope::{ArgScopeStack, DemangleContext, DemangleNodeType, DemangleWrite};
use demangle_tree::{AbiTag, AbiTags, UnqualifiedName};

/// `[abi:cxx11]`.
pub fn abi_tag<'subs, W: DemangleWrite, B: Below<'subs, W>>(
    below: B,
    node: &AbiTag,
    ctx: &mut DemangleContext<'subs, '_, W>,
)
    requires { B.can below }
    ensures { (sc : Scope Core) → Prints (B.at below) (page W.seen ctx.old) (page W.seen ctx.new)
        (tree_of_abi_tag node.now) sc }
{
    let Some(below) = below.enter(ctx) else {
        return;
    };
    ctx.text("[abi:");
    source_name(below, &node.0, ctx);
    ctx.text("]");
}

/// Tags, one after the other.
fn each_tag<'subs, W: DemangleWrite, B: Below<'subs, W>>(
    below: B,
    nodes: &[AbiTag],
    ctx: &mut DemangleContext<'subs, '_, W>,
)
    requires { B.can below }
    ensures { (sc : Scope Core) → Meets (B.at below) (page W.seen ctx.old) (page W.seen ctx.new)
        (each_of (world_of (B.at below).refers) (itself Step.done) (map tree_of_abi_tag nodes.now) sc) }
{
    for node in nodes {
        abi_tag(below, node, ctx);
    }
}

/// The tags of a name.
pub fn abi_tags<'subs, W: DemangleWrite, B: Below<'subs, W>>(
    below: B,
    node: &AbiTags,
    ctx: &mut DemangleContext<'subs, '_, W>,
)
    requires { B.can below }
    ensures { (sc : Scope Core) → Prints (B.at below) (page W.seen ctx.old) (page W.seen ctx.new)
        (tree_of_abi_tags node.now) sc }
{
    let Some(below) = below.enter(ctx) else {
        return;
    };
    each_tag(below, node.0.as_slice(), ctx);
}

/// A name of any kind and its tags.
#[inline(always)]
fn name_and_tags<'subs, W: DemangleWrite, B: Below<'subs, W>>(
    below: B,
    node: &'subs UnqualifiedName,
    scope: Option<ArgScopeStack<'_, 'subs>>,
    ctx: &mut DemangleContext<'subs, '_, W>,
)
    requires { B.can below }
    ensures { Meets (B.at below) (page W.seen ctx.old) (page W.seen ctx.new)
        (run (world_of (B.at below).refers) (Some (tree_of_unqualified_name node.now)) (scope_of scope.entry)
        (in_event (line_steps (tag_of_unqualified_name node.now)))) }
{
    match node {
        UnqualifiedName::Operator(operator, tags) => {
            ctx.text("operator");
            operator_name(below, operator, scope, ctx);
            abi_tags(below, tags, ctx);
        }
        UnqualifiedName::CtorDtor(name, tags) => {
            ctor_dtor_name(below, name, scope, ctx);
            abi_tags(below, tags, ctx);
        }
        UnqualifiedName::Source(name, tags) => {
            source_name(below, name, ctx);
            abi_tags(below, tags, ctx);
        }
        UnqualifiedName::LocalSourceName(name, _, tags) => {
            source_name(below, name, ctx);
            abi_tags(below, tags, ctx);
        }
        UnqualifiedName::UnnamedType(name, tags) => {
            unnamed_type_name(below, name, ctx);
            abi_tags(below, tags, ctx);
        }
        UnqualifiedName::ClosureType(name, tags) => {
            closure_type_name(below, name, scope, ctx);
            abi_tags(below, tags, ctx);
        }
    }
}

/// A name without its scope.
#[inline(always)]
pub fn unqualified_name<'subs, W: DemangleWrite, B: Below<'subs, W>>(
    below: B,
    node: &'subs UnqualifiedName,
    scope: Option<ArgScopeStack<'_, 'subs>>,
    ctx: &mut DemangleContext<'subs, '_, W>,
)
    requires { B.can below }
    ensures { Prints (B.at below) (page W.seen ctx.old) (page W.seen ctx.new) (tree_of_unqualified_name node.now)
        (scope_of scope.entry) }
{
    let Some(below) = below.enter(ctx) else {
        return;
    };
    let told = ctx.begin_node(DemangleNodeType::UnqualifiedName);
    name_and_tags(below, node, scope, ctx);
    ctx.end_node(told);
}
