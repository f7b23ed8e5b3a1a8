//! Components to which handles refer. They count no level.

ghost use Rattle.demangle_core.specs.Core.{N, Tag, end, node, ref};
ghost use Rattle.demangle_leaf_nodes.specs.TreeLeaves.{tree_of_non_substitution};
ghost use Rattle.demangle_meets.specs.Meets.{Prints};
ghost use Rattle.demangle_scope.specs.ScopeOf.{scope_of};
ghost use Rattle.demangle_print_below.specs.PageOf.{page};

use crate::below::Below;
use demangle_entries::NonSubstitution;
use demangle_scope::{ArgScopeStack, DemangleContext, DemangleWrite};

/// The component of this number in the list of substitutions; nothing where there is none.
pub fn back_reference<'subs, W: DemangleWrite, B: Below<'subs, W>>(
    below: B,
    idx: usize,
    scope: Option<ArgScopeStack<'_, 'subs>>,
    ctx: &mut DemangleContext<'subs, '_, W>,
)
    requires { B.can below }
    ensures { Prints (B.at below) (page W.seen ctx.old) (page W.seen ctx.new)
        (node Tag.BackReference (ref N idx end) end) (scope_of scope.entry) }
{
    let subs = below.subs();
    match subs.get(idx) {
        None => {}
        Some(component) => below.substitutable(component, scope, ctx),
    }
}

/// A component of the list of non-substitutions; nothing where it isn't there.
pub fn non_substitution<'subs, W: DemangleWrite, B: Below<'subs, W>>(
    below: B,
    node: &NonSubstitution,
    scope: Option<ArgScopeStack<'_, 'subs>>,
    ctx: &mut DemangleContext<'subs, '_, W>,
)
    requires { B.can below }
    ensures { Prints (B.at below) (page W.seen ctx.old) (page W.seen ctx.new)
        (tree_of_non_substitution node.now) (scope_of scope.entry) }
{
    let subs = below.subs();
    match subs.get_non_substitution(node.0) {
        None => {}
        Some(component) => below.substitutable(component, scope, ctx),
    }
}
