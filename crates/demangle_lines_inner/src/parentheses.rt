//! The parentheses around what stands between the result of a function and its parameters.

ghost use Rattle.std.specs.Prelude.{◌≡◌, ◌||◌};
ghost use Rattle.demangle_printing.specs.Parameters.{closing, opening, space_unless, wanted, wants};
ghost use Rattle.demangle_printing.specs.Rules.{tag};
ghost use Rattle.demangle_printing.specs.State.{is_byte};
ghost use Rattle.demangle_meets.specs.Meets.{Meets};
ghost use Rattle.demangle_meets.specs.Place.{Place, world_of};
ghost use Rattle.demangle_context.specs.PageOf.{page};
ghost use Rattle.demangle_lines_inner.specs.Kinds.{number_wants, wanted_of};

use crate::kinds::tag_of;
use crate::tags;
use demangle_context::{Context, DemangleWrite, RefersTo};
use demangle_lines::{Below, Tree};

/// Whether there are parentheses, and a space before them.
#[derive(Clone, Copy, Debug)]
pub(crate) enum Parentheses {
    /// There are none.
    Needless,
    /// There are, with a space before them unless `(` or `*` stands there.
    Plain,
    /// There are, with a space before them.
    Spaced,
}

fn tag_wants(tag: u8) -> Parentheses
    ensures { wanted_of result ≡ number_wants tag }
{
    if tag == tags::POINTER_TO_MEMBER_TYPE || tag == tags::TYPE_NODE_QUALIFIED {
        return Parentheses::Spaced;
    }
    if tag == tags::TYPE_NODE_POINTER_TO
        || tag == tags::TYPE_NODE_LVALUE_REF
        || tag == tags::TYPE_NODE_RVALUE_REF
    {
        return Parentheses::Plain;
    }
    Parentheses::Needless
}

/// What parentheses an item wants.
fn item_wants<'s, T: Tree<S>, S: 's, W: DemangleWrite, B: Below<'s, T, S, W>>(
    below: B,
    item: T,
) -> Parentheses
    ensures { wanted_of result ≡ wants (tag (world_of (B.at below).refers) (T.tree item)) }
{
    tag_wants(tag_of(below, item))
}

/// What the first item wants, from the top, that wants any parentheses.
pub(crate) fn wanted<'s, T: Tree<S>, S: 's, W: DemangleWrite, B: Below<'s, T, S, W>>(
    below: B,
    ctx: &Context<'s, '_, T, S, W>,
) -> Parentheses
    ensures { wanted_of result ≡ wanted (world_of (B.at below).refers)
        (page T.tree T.table W.seen ctx.now).inner }
{
    for from_top in 0..ctx.waiting() {
        let Some(item) = ctx.item(from_top) else {
            return Parentheses::Needless;
        };
        match item_wants(below, item) {
            Parentheses::Needless => {}
            Parentheses::Plain => return Parentheses::Plain,
            Parentheses::Spaced => return Parentheses::Spaced,
        }
    }
    Parentheses::Needless
}

/// A space, unless `(` or `*` stands there.
fn space_unless_open_or_star<'s, T: RefersTo<S>, S: 's, W: DemangleWrite>(
    ctx: &mut Context<'s, '_, T, S, W>,
)
    ensures { (p : Place) → Meets p (page T.tree T.table W.seen ctx.old) (page T.tree T.table W.seen ctx.new)
        (space_unless (world_of p.refers) (is_byte 40 (page T.tree T.table W.seen ctx.old).last
        || is_byte 42 (page T.tree T.table W.seen ctx.old).last)) }
{
    if ctx.last_is('(') {
        return;
    }
    if ctx.last_is('*') {
        return;
    }
    ctx.space();
}

/// The opening parenthesis, where there are parentheses.
pub(crate) fn opening<'s, T: RefersTo<S>, S: 's, W: DemangleWrite>(
    parentheses: Parentheses,
    ctx: &mut Context<'s, '_, T, S, W>,
)
    ensures { (p : Place) → Meets p (page T.tree T.table W.seen ctx.old) (page T.tree T.table W.seen ctx.new)
        (opening (world_of p.refers) (wanted_of parentheses)) }
{
    match parentheses {
        Parentheses::Needless => {}
        Parentheses::Plain => {
            space_unless_open_or_star(ctx);
            ctx.text("(");
        }
        Parentheses::Spaced => {
            ctx.space();
            ctx.text("(");
        }
    }
}

/// The closing parenthesis, where there are parentheses.
pub(crate) fn closing<'s, T: RefersTo<S>, S: 's, W: DemangleWrite>(
    parentheses: Parentheses,
    ctx: &mut Context<'s, '_, T, S, W>,
)
    ensures { (p : Place) → Meets p (page T.tree T.table W.seen ctx.old) (page T.tree T.table W.seen ctx.new)
        (closing (world_of p.refers) (wanted_of parentheses)) }
{
    match parentheses {
        Parentheses::Needless => {}
        Parentheses::Plain => ctx.text(")"),
        Parentheses::Spaced => ctx.text(")"),
    }
}
