//! Items that wait, from the top.

ghost use Rattle.std.specs.Prelude.{length};
ghost use Rattle.demangle_core.specs.Core.{Core};
ghost use Rattle.demangle_printing.specs.Act.{Act, pop};
ghost use Rattle.demangle_printing.specs.Rules.{inner_of, turns};
ghost use Rattle.demangle_meets.specs.Meets.{Meets, Remains};
ghost use Rattle.demangle_meets.specs.Place.{world_of};
ghost use Rattle.demangle_scope.specs.ItemTree.{item_tree};
ghost use Rattle.demangle_scope.specs.ScopeOf.{scope_of};
ghost use Rattle.demangle_print_below.specs.PageOf.{page};

use demangle_print_below::Below;
use demangle_scope::{ArgScopeStack, DemangleContext, DemangleWrite, InnerItem};

/// Takes the item on top, and prints what of it stands behind.
pub(crate) fn take_top<'subs, W: DemangleWrite, B: Below<'subs, W>>(
    below: B,
    item: InnerItem<'subs>,
    scope: Option<ArgScopeStack<'_, 'subs>>,
    ctx: &mut DemangleContext<'subs, '_, W>,
)
    requires { B.can below }
    ensures { (k : Act Core) → Remains (B.at below) (page W.seen ctx.old) (page W.seen ctx.new)
        (pop (inner_of (world_of (B.at below).refers) (item_tree item.entry) (scope_of scope.entry) k)) k }
{
    ctx.pop();
    below.inner(item, scope, ctx);
}

/// What of each item stands behind, from the top, until none waits.
pub(crate) fn all_waiting<'subs, W: DemangleWrite, B: Below<'subs, W>>(
    below: B,
    scope: Option<ArgScopeStack<'_, 'subs>>,
    ctx: &mut DemangleContext<'subs, '_, W>,
)
    requires { B.can below }
    ensures { Meets (B.at below) (page W.seen ctx.old) (page W.seen ctx.new)
        (turns (world_of (B.at below).refers) (length (page W.seen ctx.old).inner) (scope_of scope.entry)) }
{
    for _turn in 0..ctx.waiting() {
        let Some(item) = ctx.take() else {
            return;
        };
        below.inner(item, scope, ctx);
    }
}
