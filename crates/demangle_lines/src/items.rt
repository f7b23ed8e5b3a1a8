//! Inner items: nodes of which a part stands behind what is printed next.

ghost use Rattle.std.specs.Prelude.{length};
ghost use Rattle.demangle_core.specs.Core.{Core};
ghost use Rattle.demangle_printing.specs.Act.{Act, done, pop, space};
ghost use Rattle.demangle_printing.specs.Rules.{inner_of, turns};
ghost use Rattle.demangle_meets.specs.Calls.{Pushes};
ghost use Rattle.demangle_meets.specs.Meets.{Closes, Meets, Remains};
ghost use Rattle.demangle_meets.specs.Place.{world_of};
ghost use Rattle.demangle_context.specs.PageOf.{page};
ghost use Rattle.demangle_lines.specs.Does.{Takes};
ghost use Rattle.demangle_lines.specs.ScopeOf.{lent_scope};

use crate::below::Below;
use crate::scope::Scope;
use crate::tree::Tree;
use demangle_context::{Context, DemangleWrite};

/// The item waits, pushed at the level.
#[inline(always)]
pub fn hold<'s, T: Tree<S>, S: 's, W: DemangleWrite, B: Below<'s, T, S, W>>(
    below: B,
    item: T,
    ctx: &mut Context<'s, '_, T, S, W>,
)
    ensures { Pushes (B.at below).level (page T.tree T.table W.seen ctx.old) (page T.tree T.table W.seen ctx.new) (T.tree
        item) }
{
    ctx.hold(item, below.level());
}

/// What of an item stands behind, where the item that was pushed at this level is still on top.
pub fn close<'s, T: Tree<S>, S: 's, W: DemangleWrite, B: Below<'s, T, S, W>>(
    below: B,
    item: T,
    scope: Option<&Scope<'_, T>>,
    ctx: &mut Context<'s, '_, T, S, W>,
)
    requires { B.can below }
    ensures { Closes (B.at below) (page T.tree T.table W.seen ctx.old) (page T.tree T.table W.seen ctx.new) (inner_of
        (world_of (B.at below).refers) (T.tree item) (lent_scope T.tree scope.entry) done) }
{
    if ctx.take_own(below.level()) {
        below.behind(item, scope, ctx);
    }
}

/// The same with a space before it.
pub fn close_spaced<'s, T: Tree<S>, S: 's, W: DemangleWrite, B: Below<'s, T, S, W>>(
    below: B,
    item: T,
    scope: Option<&Scope<'_, T>>,
    ctx: &mut Context<'s, '_, T, S, W>,
)
    requires { B.can below }
    ensures { Closes (B.at below) (page T.tree T.table W.seen ctx.old) (page T.tree T.table W.seen ctx.new) (space
        (inner_of (world_of (B.at below).refers) (T.tree item) (lent_scope T.tree scope.entry) done)) }
{
    if ctx.take_own(below.level()) {
        ctx.space();
        below.behind(item, scope, ctx);
    }
}

/// What of the top item stands behind, where there is one.
pub fn taken<'s, T: Tree<S>, S: 's, W: DemangleWrite, B: Below<'s, T, S, W>>(
    below: B,
    scope: Option<&Scope<'_, T>>,
    ctx: &mut Context<'s, '_, T, S, W>,
)
    requires { B.can below }
    ensures { Takes (B.at below) (page T.tree T.table W.seen ctx.old) (page T.tree T.table W.seen ctx.new) (lent_scope
        T.tree scope.entry) }
{
    match ctx.take() {
        None => {}
        Some(item) => below.behind(item, scope, ctx),
    }
}

/// Takes the item on top, and prints what of it stands behind.
pub fn take_top<'s, T: Tree<S>, S: 's, W: DemangleWrite, B: Below<'s, T, S, W>>(
    below: B,
    item: T,
    scope: Option<&Scope<'_, T>>,
    ctx: &mut Context<'s, '_, T, S, W>,
)
    requires { B.can below }
    ensures { (k : Act Core) → Remains (B.at below) (page T.tree T.table W.seen ctx.old) (page T.tree T.table W.seen
        ctx.new) (pop (inner_of (world_of (B.at below).refers) (T.tree item) (lent_scope T.tree scope.entry) k)) k }
{
    ctx.pop();
    below.behind(item, scope, ctx);
}

/// What of each item stands behind, from the top, until none waits.
pub fn all_waiting<'s, T: Tree<S>, S: 's, W: DemangleWrite, B: Below<'s, T, S, W>>(
    below: B,
    scope: Option<&Scope<'_, T>>,
    ctx: &mut Context<'s, '_, T, S, W>,
)
    requires { B.can below }
    ensures { Meets (B.at below) (page T.tree T.table W.seen ctx.old) (page T.tree T.table W.seen ctx.new) (turns
        (world_of (B.at below).refers) (length (page T.tree T.table W.seen ctx.old).inner) (lent_scope T.tree
        scope.entry)) }
{
    for _turn in 0..ctx.waiting() {
        let Some(item) = ctx.take() else {
            return;
        };
        below.behind(item, scope, ctx);
    }
}
