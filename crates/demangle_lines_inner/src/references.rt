//! Adjacent references, which are written as one.

ghost use Rattle.std.specs.Prelude.{◌≡◌, length};
ghost use Rattle.demangle_core.specs.Core.{Core};
ghost use Rattle.demangle_printing.specs.Act.{Act, done, text};
ghost use Rattle.demangle_printing.specs.Rules.{is_lvalue, is_lvalue_top, is_rvalue, joined, rvalues, tag};
ghost use Rattle.demangle_meets.specs.Meets.{Meets, Remains};
ghost use Rattle.demangle_meets.specs.Place.{world_of};
ghost use Rattle.demangle_context.specs.PageOf.{page};
ghost use Rattle.demangle_lines_inner.specs.Tops.{is_rvalue_top};

use crate::kinds::{is, tag_of};
use crate::tags;
use demangle_context::{Context, DemangleWrite};
use demangle_lines::{Below, Tree};

fn is_rvalue<'s, T: Tree<S>, S: 's, W: DemangleWrite, B: Below<'s, T, S, W>>(
    below: B,
    item: T,
) -> bool
    ensures { result ≡ is_rvalue (world_of (B.at below).refers) (tag (world_of (B.at below).refers) (T.tree item)) }
{
    is(tag_of(below, item), tags::TYPE_NODE_RVALUE_REF)
}

fn is_lvalue<'s, T: Tree<S>, S: 's, W: DemangleWrite, B: Below<'s, T, S, W>>(
    below: B,
    item: T,
) -> bool
    ensures { result ≡ is_lvalue (world_of (B.at below).refers) (tag (world_of (B.at below).refers) (T.tree item)) }
{
    is(tag_of(below, item), tags::TYPE_NODE_LVALUE_REF)
}

/// Whether an rvalue reference is on top.
fn is_rvalue_top<'s, T: Tree<S>, S: 's, W: DemangleWrite, B: Below<'s, T, S, W>>(
    below: B,
    ctx: &Context<'s, '_, T, S, W>,
) -> bool
    ensures { result ≡ is_rvalue_top (world_of (B.at below).refers)
        (page T.tree T.table W.seen ctx.now).inner }
{
    match ctx.item(0) {
        None => false,
        Some(item) => is_rvalue(below, item),
    }
}

/// Whether an lvalue reference is on top.
fn is_lvalue_top<'s, T: Tree<S>, S: 's, W: DemangleWrite, B: Below<'s, T, S, W>>(
    below: B,
    ctx: &Context<'s, '_, T, S, W>,
) -> bool
    ensures { result ≡ is_lvalue_top (world_of (B.at below).refers)
        (page T.tree T.table W.seen ctx.now).inner }
{
    match ctx.item(0) {
        None => false,
        Some(item) => is_lvalue(below, item),
    }
}

/// Takes rvalue references from the top.
fn take_rvalues<'s, T: Tree<S>, S: 's, W: DemangleWrite, B: Below<'s, T, S, W>>(
    below: B,
    ctx: &mut Context<'s, '_, T, S, W>,
)
    ensures { Meets (B.at below) (page T.tree T.table W.seen ctx.old) (page T.tree T.table W.seen ctx.new)
        (rvalues (world_of (B.at below).refers) (length (page T.tree T.table W.seen ctx.old).inner)) }
{
    while is_rvalue_top(below, ctx) {
        ctx.pop();
    }
}

/// One mark for adjacent references: this one, unless an lvalue reference waits, whose mark is printed later.
pub(crate) fn joined<'s, T: Tree<S>, S: 's, W: DemangleWrite, B: Below<'s, T, S, W>>(
    below: B,
    mark: &str,
    ctx: &mut Context<'s, '_, T, S, W>,
)
    ensures { (k : Act Core) → Remains (B.at below) (page T.tree T.table W.seen ctx.old)
        (page T.tree T.table W.seen ctx.new) (joined (world_of (B.at below).refers) (text mark.now done) k) k }
{
    take_rvalues(below, ctx);
    if !is_lvalue_top(below, ctx) {
        ctx.text(mark);
    }
}
