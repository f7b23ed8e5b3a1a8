//! Whole names.

ghost use Rattle.demangle_nodes.specs.TreeNodes.{tree_of_mangled_name};
ghost use Rattle.demangle_meets.specs.Meets.{Line};
ghost use Rattle.demangle_scope.specs.ScopeOf.{scope_of};
ghost use Rattle.demangle_print_below.specs.PageOf.{page};

use crate::globals::global_ctor_dtor;
use demangle_print_below::Below;
use demangle_print_parts::type_handle;
use demangle_print_unqualified::shown_suffixes;
use demangle_scope::{ArgScopeStack, DemangleContext, DemangleWrite};
use demangle_tree::MangledName;

/// A whole name, its level entered.
pub fn mangled_name_steps<'subs, W: DemangleWrite, B: Below<'subs, W>>(
    below: B,
    node: &'subs MangledName,
    scope: Option<ArgScopeStack<'_, 'subs>>,
    ctx: &mut DemangleContext<'subs, '_, W>,
)
    requires { B.can below }
    ensures { Line (B.at below) (page W.seen ctx.old) (page W.seen ctx.new) (tree_of_mangled_name node.now)
        (scope_of scope.entry) }
{
    match node {
        MangledName::Encoding(encoding, suffixes) => {
            below.encoding(encoding, scope, ctx);
            shown_suffixes(below, suffixes.as_slice(), ctx);
        }
        MangledName::BlockInvoke(encoding, _) => {
            ctx.text("invocation function for block in ");
            below.encoding(encoding, scope, ctx);
        }
        MangledName::TopLevelType(handle) => type_handle(below, handle, scope, ctx),
        MangledName::GlobalCtorDtor(name) => global_ctor_dtor(below, name, scope, ctx),
    }
}
