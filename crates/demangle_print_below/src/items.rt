//! Inner items: nodes of which a part stands behind what is printed next.

ghost use Rattle.demangle_printing.specs.Act.{done};
ghost use Rattle.demangle_printing.specs.Rules.{inner_of};
ghost use Rattle.demangle_meets.specs.Meets.{Closes};
ghost use Rattle.demangle_meets.specs.Place.{world_of};
ghost use Rattle.demangle_scope.specs.ItemTree.{item_tree};
ghost use Rattle.demangle_scope.specs.ScopeOf.{scope_of};
ghost use Rattle.demangle_print_below.specs.PageOf.{page};

use crate::below::Below;
use demangle_scope::{ArgScopeStack, DemangleContext, DemangleWrite, InnerItem};

/// What of an item stands behind, where the item that was pushed at this level is still on top.
pub fn close<'subs, W: DemangleWrite, B: Below<'subs, W>>(
    below: B,
    item: InnerItem<'subs>,
    scope: Option<ArgScopeStack<'_, 'subs>>,
    ctx: &mut DemangleContext<'subs, '_, W>,
)
    requires { B.can below }
    ensures { Closes (B.at below) (page W.seen ctx.old) (page W.seen ctx.new)
        (inner_of (world_of (B.at below).refers) (item_tree item.entry) (scope_of scope.entry) done) }
{
    if ctx.take_own(below.level()) {
        below.inner(item, scope, ctx);
    }
}
