//! Handles: what they hold, or the component to which they refer. They count no level.

ghost use Rattle.demangle_leaf_nodes.specs.TreeLeaves.{tree_of_prefix_handle};
ghost use Rattle.demangle_leaf_nodes.specs.TreeLeaves.{tree_of_template_template_param_handle, tree_of_type_handle};
ghost use Rattle.demangle_leaf_nodes.specs.TreeLeaves.{tree_of_unresolved_type_handle};
ghost use Rattle.demangle_leaf_nodes.specs.TreeLeaves.{tree_of_unscoped_template_name_handle};
ghost use Rattle.demangle_meets.specs.Meets.{Prints};
ghost use Rattle.demangle_scope.specs.ScopeOf.{scope_of};
ghost use Rattle.demangle_print_below.specs.PageOf.{page};

use crate::builtin::{builtin_type, qualified_builtin};
use crate::texts::well_known_component;
use demangle_print_below::{Below, back_reference, non_substitution};
use demangle_scope::{ArgScopeStack, DemangleContext, DemangleWrite};
use demangle_tree::{
    PrefixHandle, TemplateTemplateParamHandle, TypeHandle, UnresolvedTypeHandle,
    UnscopedTemplateNameHandle,
};

/// A type.
#[inline(always)]
pub fn type_handle<'subs, W: DemangleWrite, B: Below<'subs, W>>(
    below: B,
    node: &'subs TypeHandle,
    scope: Option<ArgScopeStack<'_, 'subs>>,
    ctx: &mut DemangleContext<'subs, '_, W>,
)
    requires { B.can below }
    ensures { Prints (B.at below) (page W.seen ctx.old) (page W.seen ctx.new)
        (tree_of_type_handle node.now) (scope_of scope.entry) }
{
    match node {
        TypeHandle::WellKnown(word) => well_known_component(below, word, ctx),
        TypeHandle::BackReference(idx) => back_reference(below, *idx, scope, ctx),
        TypeHandle::Builtin(builtin) => builtin_type(below, builtin, scope, ctx),
        TypeHandle::QualifiedBuiltin(builtin) => qualified_builtin(below, builtin, scope, ctx),
    }
}

/// A prefix.
#[inline(always)]
pub fn prefix_handle<'subs, W: DemangleWrite, B: Below<'subs, W>>(
    below: B,
    node: &'subs PrefixHandle,
    scope: Option<ArgScopeStack<'_, 'subs>>,
    ctx: &mut DemangleContext<'subs, '_, W>,
)
    requires { B.can below }
    ensures { Prints (B.at below) (page W.seen ctx.old) (page W.seen ctx.new)
        (tree_of_prefix_handle node.now) (scope_of scope.entry) }
{
    match node {
        PrefixHandle::WellKnown(word) => well_known_component(below, word, ctx),
        PrefixHandle::BackReference(idx) => back_reference(below, *idx, scope, ctx),
        PrefixHandle::NonSubstitution(other) => non_substitution(below, other, scope, ctx),
    }
}

/// The name of a template.
pub fn unscoped_template_name_handle<'subs, W: DemangleWrite, B: Below<'subs, W>>(
    below: B,
    node: &'subs UnscopedTemplateNameHandle,
    scope: Option<ArgScopeStack<'_, 'subs>>,
    ctx: &mut DemangleContext<'subs, '_, W>,
)
    requires { B.can below }
    ensures { Prints (B.at below) (page W.seen ctx.old) (page W.seen ctx.new)
        (tree_of_unscoped_template_name_handle node.now) (scope_of scope.entry) }
{
    match node {
        UnscopedTemplateNameHandle::WellKnown(word) => well_known_component(below, word, ctx),
        UnscopedTemplateNameHandle::BackReference(idx) => back_reference(below, *idx, scope, ctx),
        UnscopedTemplateNameHandle::NonSubstitution(other) => {
            non_substitution(below, other, scope, ctx);
        }
    }
}

/// A template template parameter.
pub fn template_template_param_handle<'subs, W: DemangleWrite, B: Below<'subs, W>>(
    below: B,
    node: &'subs TemplateTemplateParamHandle,
    scope: Option<ArgScopeStack<'_, 'subs>>,
    ctx: &mut DemangleContext<'subs, '_, W>,
)
    requires { B.can below }
    ensures { Prints (B.at below) (page W.seen ctx.old) (page W.seen ctx.new)
        (tree_of_template_template_param_handle node.now) (scope_of scope.entry) }
{
    match node {
        TemplateTemplateParamHandle::WellKnown(word) => well_known_component(below, word, ctx),
        TemplateTemplateParamHandle::BackReference(idx) => back_reference(below, *idx, scope, ctx),
    }
}

/// A type that is known by a template parameter or a `decltype` alone.
pub fn unresolved_type_handle<'subs, W: DemangleWrite, B: Below<'subs, W>>(
    below: B,
    node: &'subs UnresolvedTypeHandle,
    scope: Option<ArgScopeStack<'_, 'subs>>,
    ctx: &mut DemangleContext<'subs, '_, W>,
)
    requires { B.can below }
    ensures { Prints (B.at below) (page W.seen ctx.old) (page W.seen ctx.new)
        (tree_of_unresolved_type_handle node.now) (scope_of scope.entry) }
{
    match node {
        UnresolvedTypeHandle::WellKnown(word) => well_known_component(below, word, ctx),
        UnresolvedTypeHandle::BackReference(idx) => back_reference(below, *idx, scope, ctx),
    }
}
