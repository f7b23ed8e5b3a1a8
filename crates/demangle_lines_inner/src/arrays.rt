//! What stands between the elements of an array and its bounds.

ghost use Rattle.std.specs.Prelude.{length, true};
ghost use Rattle.demangle_printing.specs.Arrays.{array_turns, before_bounds};
ghost use Rattle.demangle_meets.specs.Meets.{Meets};
ghost use Rattle.demangle_meets.specs.Place.{Place, world_of};
ghost use Rattle.demangle_context.specs.PageOf.{page};
ghost use Rattle.demangle_lines.specs.ScopeOf.{lent_scope};
ghost use Rattle.demangle_lines_inner.specs.Behind.{all_in_parentheses, others_before_bounds};
ghost use Rattle.demangle_lines_inner.specs.Behind.{others_in_parentheses};

use crate::kinds::{ArrayTurn, item_turn};
use demangle_context::{Context, DemangleWrite, RefersTo};
use demangle_lines::{Below, Scope, Tree, all_waiting, take_top};

/// The space before the bounds, unless other bounds stand before them.
fn space_before<'s, T: RefersTo<S>, S: 's, W: DemangleWrite>(
    is_spaced: bool,
    ctx: &mut Context<'s, '_, T, S, W>,
)
    ensures { (p : Place) → Meets p (page T.tree T.table W.seen ctx.old) (page T.tree T.table W.seen ctx.new)
        (before_bounds (world_of p.refers) is_spaced) }
{
    if is_spaced {
        ctx.space();
    }
}

/// The items that wait, a closing parenthesis, and the space before the bounds.
fn others_before_bounds<'s, T: Tree<S>, S: 's, W: DemangleWrite, B: Below<'s, T, S, W>>(
    below: B,
    is_spaced: bool,
    scope: Option<&Scope<'_, T>>,
    ctx: &mut Context<'s, '_, T, S, W>,
)
    requires { B.can below }
    ensures { Meets (B.at below) (page T.tree T.table W.seen ctx.old) (page T.tree T.table W.seen ctx.new)
        (others_before_bounds (world_of (B.at below).refers) (lent_scope T.tree scope.entry) is_spaced) }
{
    all_waiting(below, scope, ctx);
    ctx.text(")");
    space_before(is_spaced, ctx);
}

/// The qualifiers on top, and then the other items in parentheses.
fn others_in_parentheses<'s, T: Tree<S>, S: 's, W: DemangleWrite, B: Below<'s, T, S, W>>(
    below: B,
    item: T,
    is_spaced: bool,
    scope: Option<&Scope<'_, T>>,
    ctx: &mut Context<'s, '_, T, S, W>,
)
    requires { B.can below }
    ensures { Meets (B.at below) (page T.tree T.table W.seen ctx.old) (page T.tree T.table W.seen ctx.new)
        (others_in_parentheses (world_of (B.at below).refers) (T.tree item) (lent_scope T.tree scope.entry) is_spaced) }
{
    ctx.space();
    take_top(below, item, scope, ctx);
    ctx.space();
    ctx.text("(");
    others_before_bounds(below, is_spaced, scope, ctx);
}

/// All items in parentheses, this one on top.
fn all_in_parentheses<'s, T: Tree<S>, S: 's, W: DemangleWrite, B: Below<'s, T, S, W>>(
    below: B,
    item: T,
    is_spaced: bool,
    scope: Option<&Scope<'_, T>>,
    ctx: &mut Context<'s, '_, T, S, W>,
)
    requires { B.can below }
    ensures { Meets (B.at below) (page T.tree T.table W.seen ctx.old) (page T.tree T.table W.seen ctx.new)
        (all_in_parentheses (world_of (B.at below).refers) (T.tree item) (lent_scope T.tree scope.entry) is_spaced) }
{
    ctx.space();
    ctx.text("(");
    take_top(below, item, scope, ctx);
    others_before_bounds(below, is_spaced, scope, ctx);
}

/// What stands before the bounds: other arrays as they are, and the rest of the items in parentheses.
pub(crate) fn before_bounds<'s, T: Tree<S>, S: 's, W: DemangleWrite, B: Below<'s, T, S, W>>(
    below: B,
    scope: Option<&Scope<'_, T>>,
    ctx: &mut Context<'s, '_, T, S, W>,
)
    requires { B.can below }
    ensures { Meets (B.at below) (page T.tree T.table W.seen ctx.old) (page T.tree T.table W.seen ctx.new) (array_turns
        (world_of (B.at below).refers) (length (page T.tree T.table W.seen ctx.old).inner) (lent_scope T.tree
        scope.entry) true) }
{
    let mut is_spaced = true;
    for _turn in 0..ctx.waiting() {
        let Some(item) = ctx.item(0) else {
            space_before(is_spaced, ctx);
            return;
        };
        match item_turn(below, item) {
            ArrayTurn::Array => {
                take_top(below, item, scope, ctx);
                is_spaced = false;
                continue;
            }
            ArrayTurn::Elements => {
                take_top(below, item, scope, ctx);
                continue;
            }
            ArrayTurn::Qualified => {
                others_in_parentheses(below, item, is_spaced, scope, ctx);
                return;
            }
            ArrayTurn::Other => {
                all_in_parentheses(below, item, is_spaced, scope, ctx);
                return;
            }
        }
    }
    space_before(is_spaced, ctx);
}
