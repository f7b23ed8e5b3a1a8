//! Lists with commas.

ghost use Rattle.std.specs.Prelude.{map};
ghost use Rattle.demangle_leaf_nodes.specs.TreeLeaves.{tree_of_type_handle};
ghost use Rattle.demangle_nodes.specs.TreeNodes.{tree_of_expression};
ghost use Rattle.demangle_printing.specs.Rules.{lines_of};
ghost use Rattle.demangle_meets.specs.Meets.{Meets};
ghost use Rattle.demangle_meets.specs.Place.{world_of};
ghost use Rattle.demangle_scope.specs.ScopeOf.{scope_of};
ghost use Rattle.demangle_print_below.specs.PageOf.{page};

use crate::handles::type_handle;
use demangle_print_below::Below;
use demangle_scope::{ArgScopeStack, DemangleContext, DemangleWrite};
use demangle_tree::{Expression, TypeHandle};

/// Expressions, with commas between.
pub fn expression_list<'subs, W: DemangleWrite, B: Below<'subs, W>>(
    below: B,
    nodes: &'subs [Expression],
    scope: Option<ArgScopeStack<'_, 'subs>>,
    ctx: &mut DemangleContext<'subs, '_, W>,
)
    requires { B.can below }
    ensures { Meets (B.at below) (page W.seen ctx.old) (page W.seen ctx.new)
        (lines_of (world_of (B.at below).refers) (map tree_of_expression nodes.now) (scope_of scope.entry)) }
{
    let Some((first, rest)) = nodes.split_first() else {
        return;
    };
    below.expression(first, scope, ctx);
    for node in rest {
        ctx.text(", ");
        below.expression(node, scope, ctx);
    }
}

/// Types, with commas between.
pub fn type_list<'subs, W: DemangleWrite, B: Below<'subs, W>>(
    below: B,
    nodes: &'subs [TypeHandle],
    scope: Option<ArgScopeStack<'_, 'subs>>,
    ctx: &mut DemangleContext<'subs, '_, W>,
)
    requires { B.can below }
    ensures { Meets (B.at below) (page W.seen ctx.old) (page W.seen ctx.new) (lines_of (world_of (B.at
        below).refers) (map tree_of_type_handle nodes.now) (scope_of scope.entry)) }
{
    let Some((first, rest)) = nodes.split_first() else {
        return;
    };
    type_handle(below, first, scope, ctx);
    for node in rest {
        ctx.text(", ");
        type_handle(below, node, scope, ctx);
    }
}
