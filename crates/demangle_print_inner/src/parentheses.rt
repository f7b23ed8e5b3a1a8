//! The parentheses around what stands between the result of a function and its parameters.

ghost use Rattle.std.specs.Prelude.{◌≡◌, ◌||◌};
ghost use Rattle.demangle_printing.specs.Parameters.{closing, opening, space_unless, wanted};
ghost use Rattle.demangle_printing.specs.State.{is_byte};
ghost use Rattle.demangle_meets.specs.Meets.{Meets};
ghost use Rattle.demangle_meets.specs.Place.{Place, Refers, world_of};
ghost use Rattle.demangle_print_below.specs.PageOf.{page};
ghost use Rattle.demangle_print_inner.specs.Kinds.{item_wants, node_wants, wanted_of};

use demangle_scope::{DemangleContext, DemangleWrite, InnerItem};
use demangle_tree::TypeNode;

/// Whether there are parentheses, and a space before them.
#[derive(Clone, Copy, Debug)]
pub(crate) enum Parentheses {
    /// There are none.
    Needless,
    /// There are, with a space before them unless `(` or `*` stands there.
    Plain,
    /// There are, with a space before them.
    Spaced,
}

fn node_wants(node: &TypeNode) -> Parentheses
    ensures { wanted_of result ≡ node_wants node.now }
{
    match node {
        TypeNode::Qualified(_, _) => Parentheses::Spaced,
        TypeNode::PointerTo(_) => Parentheses::Plain,
        TypeNode::LvalueRef(_) => Parentheses::Plain,
        TypeNode::RvalueRef(_) => Parentheses::Plain,
        _ => Parentheses::Needless,
    }
}

fn item_wants(item: InnerItem<'_>) -> Parentheses
    ensures { wanted_of result ≡ item_wants item.entry }
{
    match item {
        InnerItem::Node(node) => node_wants(node),
        InnerItem::Member(_) => Parentheses::Spaced,
        _ => Parentheses::Needless,
    }
}

/// What the first item wants, from the top, that wants any parentheses.
pub(crate) fn wanted<'subs, W: DemangleWrite>(ctx: &DemangleContext<'subs, '_, W>) -> Parentheses
    ensures { (r : Refers) → wanted_of result ≡ wanted (world_of r) (page W.seen ctx.now).inner }
{
    for from_top in 0..ctx.waiting() {
        let Some(item) = ctx.item(from_top) else {
            return Parentheses::Needless;
        };
        match item_wants(item) {
            Parentheses::Needless => {}
            Parentheses::Plain => return Parentheses::Plain,
            Parentheses::Spaced => return Parentheses::Spaced,
        }
    }
    Parentheses::Needless
}

/// A space, unless `(` or `*` stands there.
fn space_unless_open_or_star<'subs, W: DemangleWrite>(ctx: &mut DemangleContext<'subs, '_, W>)
    ensures { (p : Place) → Meets p (page W.seen ctx.old) (page W.seen ctx.new)
        (space_unless (world_of p.refers)
        (is_byte 40 (page W.seen ctx.old).last || is_byte 42 (page W.seen ctx.old).last)) }
{
    if ctx.last_is('(') {
        return;
    }
    if ctx.last_is('*') {
        return;
    }
    ctx.space();
}

/// The opening parenthesis, where there are parentheses.
pub(crate) fn opening<'subs, W: DemangleWrite>(
    parentheses: Parentheses,
    ctx: &mut DemangleContext<'subs, '_, W>,
)
    ensures { (p : Place) → Meets p (page W.seen ctx.old) (page W.seen ctx.new)
        (opening (world_of p.refers) (wanted_of parentheses)) }
{
    match parentheses {
        Parentheses::Needless => {}
        Parentheses::Plain => {
            space_unless_open_or_star(ctx);
            ctx.text("(");
        }
        Parentheses::Spaced => {
            ctx.space();
            ctx.text("(");
        }
    }
}

/// The closing parenthesis, where there are parentheses.
pub(crate) fn closing<'subs, W: DemangleWrite>(
    parentheses: Parentheses,
    ctx: &mut DemangleContext<'subs, '_, W>,
)
    ensures { (p : Place) → Meets p (page W.seen ctx.old) (page W.seen ctx.new)
        (closing (world_of p.refers) (wanted_of parentheses)) }
{
    match parentheses {
        Parentheses::Needless => {}
        Parentheses::Plain => ctx.text(")"),
        Parentheses::Spaced => ctx.text(")"),
    }
}
