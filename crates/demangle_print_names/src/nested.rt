//! Names in classes or namespaces.

ghost use Rattle.std.specs.Prelude.{Some, true};
ghost use Rattle.demangle_core.specs.Core.{◌⊕◌, Core};
ghost use Rattle.demangle_leaf_nodes.specs.TreeLeaves.{tree_of_cv_qualifiers, tree_of_nested_name, tree_of_option};
ghost use Rattle.demangle_leaf_nodes.specs.TreeLeaves.{tree_of_prefix_handle, tree_of_ref_qualifier};
ghost use Rattle.demangle_leaf_nodes.specs.TreeLeaves.{tree_of_unqualified_name};
ghost use Rattle.demangle_printing.specs.Act.{Act, ask, block, done, set};
ghost use Rattle.demangle_printing.specs.Lines.Names.{behind_member, member_qualifiers, prefix_and_name};
ghost use Rattle.demangle_printing.specs.Lines.Names.{template_path};
ghost use Rattle.demangle_printing.specs.Reader.{run};
ghost use Rattle.demangle_printing.specs.Rules.{line_of, quoted, turn_from};
ghost use Rattle.demangle_printing.specs.Scope.{Scope};
ghost use Rattle.demangle_printing.specs.State.{object};
ghost use Rattle.demangle_printing.specs.Step.{Step};
ghost use Rattle.demangle_meets.specs.Meets.{Meets, Prints, Remains};
ghost use Rattle.demangle_meets.specs.Place.{world_of};
ghost use Rattle.demangle_scope.specs.ScopeOf.{scope_of};
ghost use Rattle.demangle_print_below.specs.PageOf.{page};
ghost use Rattle.demangle_print_parts.specs.Pieces.{row, when_there};
ghost use Rattle.demangle_print_unqualified.specs.Pieces.{qualifiers_act};

use demangle_print_below::Below;
use demangle_print_parts::{cv_qualifiers, is_qualified, prefix_handle, reference_mark};
use demangle_print_unqualified::unqualified_name;
use demangle_scope::{ArgScopeStack, DemangleContext, DemangleNodeType, DemangleWrite, PrintFlag};
use demangle_tree::{CvQualifiers, NestedName, PrefixHandle, UnqualifiedName};
use demangle_vocab::RefQualifier;

/// A prefix and `::`, where there is a prefix.
fn prefix_before<'subs, W: DemangleWrite, B: Below<'subs, W>>(
    below: B,
    prefix: &'subs Option<PrefixHandle>,
    scope: Option<ArgScopeStack<'_, 'subs>>,
    ctx: &mut DemangleContext<'subs, '_, W>,
)
    requires { B.can below }
    ensures { Meets (B.at below) (page W.seen ctx.old) (page W.seen ctx.new)
        (when_there (world_of (B.at below).refers) (tree_of_option tree_of_prefix_handle prefix.now)
        (block (line_of (world_of (B.at below).refers) (Some (tree_of_option tree_of_prefix_handle prefix.now))
        (scope_of scope.entry)) (quoted "::" done))) }
{
    // A prefix refers to components of this table alone, and none of them is an optional part.
    let _table = below.subs();
    if let Some(handle) = prefix {
        prefix_handle(below, handle, scope, ctx);
        ctx.text("::");
    }
}

/// A prefix and a name.
fn prefix_and_name<'subs, W: DemangleWrite, B: Below<'subs, W>>(
    below: B,
    prefix: &'subs Option<PrefixHandle>,
    name: &'subs UnqualifiedName,
    scope: Option<ArgScopeStack<'_, 'subs>>,
    ctx: &mut DemangleContext<'subs, '_, W>,
)
    requires { B.can below }
    ensures { Meets (B.at below) (page W.seen ctx.old) (page W.seen ctx.new)
        (run (world_of (B.at below).refers) (Some
        (row (tree_of_option tree_of_prefix_handle prefix.now ⊕ tree_of_unqualified_name name.now)))
        (scope_of scope.entry) (prefix_and_name 0 1)) }
{
    let items = ctx.fence();
    let told = ctx.begin_node(DemangleNodeType::NestedName);
    prefix_before(below, prefix, scope, ctx);
    unqualified_name(below, name, scope, ctx);
    ctx.end_node(told);
    ctx.unfence(items);
}

/// A prefix that ends in template arguments.
fn template_path<'subs, W: DemangleWrite, B: Below<'subs, W>>(
    below: B,
    prefix: &'subs PrefixHandle,
    scope: Option<ArgScopeStack<'_, 'subs>>,
    ctx: &mut DemangleContext<'subs, '_, W>,
)
    requires { B.can below }
    ensures { Meets (B.at below) (page W.seen ctx.old) (page W.seen ctx.new)
        (run (world_of (B.at below).refers) (Some (row (tree_of_prefix_handle prefix.now))) (scope_of scope.entry)
        (template_path 0)) }
{
    ctx.turn(PrintFlag::NestedPrefix, true);
    let items = ctx.fence();
    prefix_handle(below, prefix, scope, ctx);
    ctx.unfence(items);
    ctx.turn(PrintFlag::NestedPrefix, false);
}

/// What of the item on top stands behind, where one waits.
fn one_waiting<'subs, W: DemangleWrite, B: Below<'subs, W>>(
    below: B,
    scope: Option<ArgScopeStack<'_, 'subs>>,
    ctx: &mut DemangleContext<'subs, '_, W>,
)
    requires { B.can below }
    ensures { (k : Act Core) → Remains (B.at below) (page W.seen ctx.old) (page W.seen ctx.new)
        (ask (λ s. turn_from (world_of (B.at below).refers) s.inner (scope_of scope.entry) done) k) k }
{
    if let Some(item) = ctx.take() {
        below.inner(item, scope, ctx);
    }
}

/// The qualifiers of a member function, where parameters are shown.
fn shown_qualifiers<'subs, W: DemangleWrite, B: Below<'subs, W>>(
    below: B,
    node: &CvQualifiers,
    ctx: &mut DemangleContext<'subs, '_, W>,
)
    requires { B.can below }
    ensures { (sc : Scope Core) (k : Act Core) → Remains (B.at below) (page W.seen ctx.old) (page W.seen ctx.new)
        (qualifiers_act (world_of (B.at below).refers) (tree_of_cv_qualifiers node.now) sc k) k }
{
    let is_qualified = is_qualified(node);
    if is_qualified {
        if ctx.is_on(PrintFlag::Params) {
            cv_qualifiers(below, node, ctx);
        }
    }
}

/// The qualifiers of a member function, and `&` or `&&` behind them.
fn member_qualifiers<'subs, W: DemangleWrite, B: Below<'subs, W>>(
    below: B,
    qualifiers: &CvQualifiers,
    reference: &Option<RefQualifier>,
    ctx: &mut DemangleContext<'subs, '_, W>,
)
    requires { B.can below }
    ensures { (sc : Scope Core) → Meets (B.at below) (page W.seen ctx.old) (page W.seen ctx.new)
        (run (world_of (B.at below).refers) (Some
        (row (tree_of_cv_qualifiers qualifiers.now ⊕ tree_of_option tree_of_ref_qualifier reference.now))) sc
        member_qualifiers) }
{
    shown_qualifiers(below, qualifiers, ctx);
    reference_mark(below, reference, ctx);
}

/// What of a waiting item stands behind a nested name, and then the qualifiers of a member function.
fn behind_member<'subs, W: DemangleWrite, B: Below<'subs, W>>(
    below: B,
    qualifiers: &CvQualifiers,
    reference: &Option<RefQualifier>,
    scope: Option<ArgScopeStack<'_, 'subs>>,
    ctx: &mut DemangleContext<'subs, '_, W>,
)
    requires { B.can below }
    ensures { Meets (B.at below) (page W.seen ctx.old) (page W.seen ctx.new)
        (run (world_of (B.at below).refers) (Some
        (row (tree_of_cv_qualifiers qualifiers.now ⊕ tree_of_option tree_of_ref_qualifier reference.now)))
        (scope_of scope.entry) (behind_member Step.done)) }
{
    one_waiting(below, scope, ctx);
    member_qualifiers(below, qualifiers, reference, ctx);
}

/// Says that the next parameters begin with an explicit object, and prints what of a waiting item stands behind.
fn behind_object<'subs, W: DemangleWrite, B: Below<'subs, W>>(
    below: B,
    scope: Option<ArgScopeStack<'_, 'subs>>,
    ctx: &mut DemangleContext<'subs, '_, W>,
)
    requires { B.can below }
    ensures { Meets (B.at below) (page W.seen ctx.old) (page W.seen ctx.new)
        (set object true
        (ask (λ s. turn_from (world_of (B.at below).refers) s.inner (scope_of scope.entry) done) done)) }
{
    ctx.turn(PrintFlag::Object, true);
    one_waiting(below, scope, ctx);
}

/// `A::f`.
pub fn nested_name<'subs, W: DemangleWrite, B: Below<'subs, W>>(
    below: B,
    node: &'subs NestedName,
    scope: Option<ArgScopeStack<'_, 'subs>>,
    ctx: &mut DemangleContext<'subs, '_, W>,
)
    requires { B.can below }
    ensures { Prints (B.at below) (page W.seen ctx.old) (page W.seen ctx.new) (tree_of_nested_name node.now)
        (scope_of scope.entry) }
{
    let Some(below) = below.enter(ctx) else {
        return;
    };
    match node {
        NestedName::Unqualified(qualifiers, reference, prefix, name) => {
            prefix_and_name(below, prefix, name, scope, ctx);
            behind_member(below, qualifiers, reference, scope, ctx);
        }
        NestedName::Template(qualifiers, reference, prefix) => {
            template_path(below, prefix, scope, ctx);
            behind_member(below, qualifiers, reference, scope, ctx);
        }
        NestedName::UnqualifiedExplicitObject(prefix, name, _) => {
            prefix_and_name(below, prefix, name, scope, ctx);
            behind_object(below, scope, ctx);
        }
        NestedName::TemplateExplicitObject(prefix, _) => {
            template_path(below, prefix, scope, ctx);
            behind_object(below, scope, ctx);
        }
    }
}
