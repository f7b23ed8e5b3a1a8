//! Names that are not resolved.

ghost use Rattle.std.specs.Prelude.{map};
ghost use Rattle.demangle_core.specs.Core.{◌⊕◌, Tag};
ghost use Rattle.demangle_leaf_nodes.specs.TreeLeaves.{tree_of_option, tree_of_template_param};
ghost use Rattle.demangle_nodes.specs.TreeNodes.{tree_of_base_unresolved_name, tree_of_destructor_name};
ghost use Rattle.demangle_nodes.specs.TreeNodes.{tree_of_simple_id, tree_of_template_args, tree_of_unresolved_name};
ghost use Rattle.demangle_nodes.specs.TreeNodes.{tree_of_unresolved_qualifier_level};
ghost use Rattle.demangle_entries.specs.TreeEntries.{tree_of_unresolved_type};
ghost use Rattle.demangle_meets.specs.Meets.{Line, Meets, Prints};
ghost use Rattle.demangle_meets.specs.Place.{world_of};
ghost use Rattle.demangle_scope.specs.ScopeOf.{scope_of};
ghost use Rattle.demangle_print_below.specs.PageOf.{page};
ghost use Rattle.demangle_print_primaries.specs.Levels.{in_its_scope, levels_of};
ghost use Rattle.demangle_print_primaries.specs.Made.{made};

use demangle_print_below::Below;
use demangle_print_parts::{
    decltype, operator_name, optional_template_args, source_name, template_args, template_param,
    unresolved_type_handle,
};
use demangle_scope::{ArgScopeStack, DemangleContext, DemangleWrite, ScopeItem, scope_push};
use demangle_tree::{
    BaseUnresolvedName, DestructorName, SimpleId, TemplateArgs, TemplateParam, UnresolvedName,
    UnresolvedQualifierLevel, UnresolvedType,
};

/// `A<int>`.
pub fn simple_id<'subs, W: DemangleWrite, B: Below<'subs, W>>(
    below: B,
    node: &'subs SimpleId,
    scope: Option<ArgScopeStack<'_, 'subs>>,
    ctx: &mut DemangleContext<'subs, '_, W>,
)
    requires { B.can below }
    ensures { Prints (B.at below) (page W.seen ctx.old) (page W.seen ctx.new) (tree_of_simple_id node.now)
        (scope_of scope.entry) }
{
    let Some(below) = below.enter(ctx) else {
        return;
    };
    source_name(below, &node.0, ctx);
    optional_template_args(below, &node.1, scope, ctx);
}

/// One scope of an unresolved name.
pub fn unresolved_qualifier_level<'subs, W: DemangleWrite, B: Below<'subs, W>>(
    below: B,
    node: &'subs UnresolvedQualifierLevel,
    scope: Option<ArgScopeStack<'_, 'subs>>,
    ctx: &mut DemangleContext<'subs, '_, W>,
)
    requires { B.can below }
    ensures { Prints (B.at below) (page W.seen ctx.old) (page W.seen ctx.new)
        (tree_of_unresolved_qualifier_level node.now) (scope_of scope.entry) }
{
    let Some(below) = below.enter(ctx) else {
        return;
    };
    simple_id(below, &node.0, scope, ctx);
}

/// `~A`.
pub fn destructor_name<'subs, W: DemangleWrite, B: Below<'subs, W>>(
    below: B,
    node: &'subs DestructorName,
    scope: Option<ArgScopeStack<'_, 'subs>>,
    ctx: &mut DemangleContext<'subs, '_, W>,
)
    requires { B.can below }
    ensures { Prints (B.at below) (page W.seen ctx.old) (page W.seen ctx.new) (tree_of_destructor_name node.now)
        (scope_of scope.entry) }
{
    let Some(below) = below.enter(ctx) else {
        return;
    };
    ctx.text("~");
    match node {
        DestructorName::Unresolved(handle) => unresolved_type_handle(below, handle, scope, ctx),
        DestructorName::Name(id) => simple_id(below, id, scope, ctx),
    }
}

/// An unresolved name without its scopes.
pub fn base_unresolved_name<'subs, W: DemangleWrite, B: Below<'subs, W>>(
    below: B,
    node: &'subs BaseUnresolvedName,
    scope: Option<ArgScopeStack<'_, 'subs>>,
    ctx: &mut DemangleContext<'subs, '_, W>,
)
    requires { B.can below }
    ensures { Prints (B.at below) (page W.seen ctx.old) (page W.seen ctx.new)
        (tree_of_base_unresolved_name node.now) (scope_of scope.entry) }
{
    let Some(below) = below.enter(ctx) else {
        return;
    };
    match node {
        BaseUnresolvedName::Name(id) => simple_id(below, id, scope, ctx),
        BaseUnresolvedName::Operator(operator, args) => {
            operator_name(below, operator, scope, ctx);
            optional_template_args(below, args, scope, ctx);
        }
        BaseUnresolvedName::Destructor(name) => destructor_name(below, name, scope, ctx),
    }
}

/// The scopes of an unresolved name, `::` behind each.
fn levels<'subs, W: DemangleWrite, B: Below<'subs, W>>(
    below: B,
    nodes: &'subs [UnresolvedQualifierLevel],
    scope: Option<ArgScopeStack<'_, 'subs>>,
    ctx: &mut DemangleContext<'subs, '_, W>,
)
    requires { B.can below }
    ensures { Meets (B.at below) (page W.seen ctx.old) (page W.seen ctx.new)
        (levels_of (world_of (B.at below).refers) (scope_of scope.entry)
        (map tree_of_unresolved_qualifier_level nodes.now)) }
{
    for node in nodes {
        unresolved_qualifier_level(below, node, scope, ctx);
        ctx.text("::");
    }
}

/// `T::A::x`.
pub fn unresolved_name<'subs, W: DemangleWrite, B: Below<'subs, W>>(
    below: B,
    node: &'subs UnresolvedName,
    scope: Option<ArgScopeStack<'_, 'subs>>,
    ctx: &mut DemangleContext<'subs, '_, W>,
)
    requires { B.can below }
    ensures { Prints (B.at below) (page W.seen ctx.old) (page W.seen ctx.new) (tree_of_unresolved_name node.now)
        (scope_of scope.entry) }
{
    let Some(below) = below.enter(ctx) else {
        return;
    };
    match node {
        UnresolvedName::Name(name) => base_unresolved_name(below, name, scope, ctx),
        UnresolvedName::Global(name) => {
            ctx.text("::");
            base_unresolved_name(below, name, scope, ctx);
        }
        UnresolvedName::Nested1(handle, scopes, name) => {
            unresolved_type_handle(below, handle, scope, ctx);
            ctx.text("::");
            levels(below, scopes.as_slice(), scope, ctx);
            base_unresolved_name(below, name, scope, ctx);
        }
        UnresolvedName::Nested2(scopes, name) => {
            levels(below, scopes.as_slice(), scope, ctx);
            base_unresolved_name(below, name, scope, ctx);
        }
        UnresolvedName::GlobalNested2(scopes, name) => {
            ctx.text("::");
            levels(below, scopes.as_slice(), scope, ctx);
            base_unresolved_name(below, name, scope, ctx);
        }
    }
}

/// A template parameter and its arguments, which are in scope.
fn template_in_scope<'subs, W: DemangleWrite, B: Below<'subs, W>>(
    below: B,
    param: &'subs TemplateParam,
    args: &'subs TemplateArgs,
    scope: Option<ArgScopeStack<'_, 'subs>>,
    ctx: &mut DemangleContext<'subs, '_, W>,
)
    requires { B.can below }
    ensures { Meets (B.at below) (page W.seen ctx.old) (page W.seen ctx.new)
        (in_its_scope (world_of (B.at below).refers) (scope_of scope.entry) (tree_of_template_param param.now)
        (tree_of_template_args args.now)) }
{
    let inner = scope_push(&scope, ScopeItem::Args(args));
    template_param(below, param, inner, ctx);
    template_args(below, args, inner, ctx);
}

/// A template parameter, and its arguments where it has any.
fn template_type<'subs, W: DemangleWrite, B: Below<'subs, W>>(
    below: B,
    param: &'subs TemplateParam,
    args: &'subs Option<TemplateArgs>,
    scope: Option<ArgScopeStack<'_, 'subs>>,
    ctx: &mut DemangleContext<'subs, '_, W>,
)
    requires { B.can below }
    ensures { Line (B.at below) (page W.seen ctx.old) (page W.seen ctx.new)
        (made Tag.UnresolvedTypeTemplate (tree_of_template_param param.now
        ⊕ tree_of_option tree_of_template_args args.now))
        (scope_of scope.entry) }
{
    match args {
        Some(list) => template_in_scope(below, param, list, scope, ctx),
        None => template_param(below, param, scope, ctx),
    }
}

/// The type of an unresolved name, its level entered.
pub fn unresolved_type_steps<'subs, W: DemangleWrite, B: Below<'subs, W>>(
    below: B,
    node: &'subs UnresolvedType,
    scope: Option<ArgScopeStack<'_, 'subs>>,
    ctx: &mut DemangleContext<'subs, '_, W>,
)
    requires { B.can below }
    ensures { Line (B.at below) (page W.seen ctx.old) (page W.seen ctx.new) (tree_of_unresolved_type node.now)
        (scope_of scope.entry) }
{
    match node {
        UnresolvedType::Template(param, args) => template_type(below, param, args, scope, ctx),
        UnresolvedType::Decltype(node) => decltype(below, node, scope, ctx),
    }
}

/// The type of an unresolved name.
pub fn unresolved_type<'subs, W: DemangleWrite, B: Below<'subs, W>>(
    below: B,
    node: &'subs UnresolvedType,
    scope: Option<ArgScopeStack<'_, 'subs>>,
    ctx: &mut DemangleContext<'subs, '_, W>,
)
    requires { B.can below }
    ensures { Prints (B.at below) (page W.seen ctx.old) (page W.seen ctx.new) (tree_of_unresolved_type node.now)
        (scope_of scope.entry) }
{
    let Some(below) = below.enter(ctx) else {
        return;
    };
    unresolved_type_steps(below, node, scope, ctx);
}
