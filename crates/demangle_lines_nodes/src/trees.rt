//! The line of any tree, and of one as a leaf name.

ghost use Rattle.demangle_printing.specs.Act as job;
ghost use Rattle.demangle_printing.specs.Print.{body};
ghost use Rattle.demangle_meets.specs.Meets.{Meets};
ghost use Rattle.demangle_meets.specs.Place.{world_of};
ghost use Rattle.demangle_context.specs.PageOf.{page};
ghost use Rattle.demangle_lines.specs.ScopeOf.{lent_scope};

use crate::nodes::line_by_tag;
use demangle_context::{Context, DemangleWrite};
use demangle_lines::{Below, Scope, Shape, Tree, shape_at, spelled_itself};

/// The line of a tree, its level entered.
#[inline(always)]
pub fn tree_line<'s, T: Tree<S>, S: 's, W: DemangleWrite, B: Below<'s, T, S, W>>(
    below: B,
    tree: T,
    scope: Option<&Scope<'_, T>>,
    ctx: &mut Context<'s, '_, T, S, W>,
)
    requires { B.can below }
    ensures { Meets (B.at below) (page T.tree T.table W.seen ctx.old) (page T.tree T.table W.seen ctx.new)
        (body (world_of (B.at below).refers) (job.line (T.tree tree)) (lent_scope T.tree scope.entry)) }
{
    match shape_at(below, tree) {
        Shape::Node(number) => line_by_tag(below, number, tree, scope, ctx),
        Shape::Word(_, _) => spelled_itself(below, tree, ctx),
        _ => {}
    }
}

/// An unnamed type as a leaf name, its level entered: the last source name, where there is one.
pub fn leaf_inside<'s, T: Tree<S>, S: 's, W: DemangleWrite, B: Below<'s, T, S, W>>(
    below: B,
    tree: T,
    scope: Option<&Scope<'_, T>>,
    ctx: &mut Context<'s, '_, T, S, W>,
)
    requires { B.can below }
    ensures { Meets (B.at below) (page T.tree T.table W.seen ctx.old) (page T.tree T.table W.seen ctx.new)
        (body (world_of (B.at below).refers) (job.leaf (T.tree tree)) (lent_scope T.tree scope.entry)) }
{
    match ctx.source_name() {
        Some(name) => ctx.text(name),
        None => tree_line(below, tree, scope, ctx),
    }
}
