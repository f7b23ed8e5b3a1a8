//! The functions through which all recursion goes: each enters a level, and the lines below call them again, one level
//! deeper.

ghost use Rattle.demangle_meets.specs.Meets.{Inner};
ghost use Rattle.demangle_context.specs.PageOf.{page};
ghost use Rattle.demangle_lines.specs.ScopeOf.{lent_scope};
ghost use Rattle.demangle_lines_tied.specs.MayPrint.{PrintsLeaf, PrintsLine};
ghost use Rattle.demangle_lines_tied.specs.PlaceOf.{place_of};

use crate::depth::{Depth, deeper};
use crate::tied::Tied;
use demangle_context::{Context, DemangleWrite};
use demangle_lines::{Scope, Tree};
use demangle_lines_nodes::{item_inside, leaf_inside, tree_line};

/// The line of a tree, one level deeper.
#[cycle(printing)]
pub fn print_line<'d, 's, T: Tree<S>, S: 's, W: DemangleWrite>(
    tree: T,
    scope: Option<&Scope<'_, T>>,
    ctx: &mut Context<'s, '_, T, S, W>,
    depth: Depth<'d, 's, S>,
)
    ensures { PrintsLine (place_of T.table depth.entry) (page T.tree T.table W.seen ctx.old)
        (page T.tree T.table W.seen ctx.new) (T.tree tree) (lent_scope T.tree scope.entry) }
{
    let Some(depth) = deeper(depth, ctx) else {
        return;
    };
    let below = Tied {
        depth,
        line: print_line,
        leaf: print_leaf,
        behind: print_behind,
    };
    tree_line(below, tree, scope, ctx);
}

/// An unnamed type as a leaf name, one level deeper.
#[cycle(printing)]
pub(crate) fn print_leaf<'d, 's, T: Tree<S>, S: 's, W: DemangleWrite>(
    tree: T,
    scope: Option<&Scope<'_, T>>,
    ctx: &mut Context<'s, '_, T, S, W>,
    depth: Depth<'d, 's, S>,
)
    ensures { PrintsLeaf (place_of T.table depth.entry) (page T.tree T.table W.seen ctx.old)
        (page T.tree T.table W.seen ctx.new) (T.tree tree) (lent_scope T.tree scope.entry) }
{
    let Some(depth) = deeper(depth, ctx) else {
        return;
    };
    let below = Tied {
        depth,
        line: print_line,
        leaf: print_leaf,
        behind: print_behind,
    };
    leaf_inside(below, tree, scope, ctx);
}

/// What of an item stands behind, one level deeper.
#[cycle(printing)]
pub fn print_behind<'d, 's, T: Tree<S>, S: 's, W: DemangleWrite>(
    item: T,
    scope: Option<&Scope<'_, T>>,
    ctx: &mut Context<'s, '_, T, S, W>,
    depth: Depth<'d, 's, S>,
)
    ensures { Inner (place_of T.table depth.entry) (page T.tree T.table W.seen ctx.old)
        (page T.tree T.table W.seen ctx.new) (T.tree item) (lent_scope T.tree scope.entry) }
{
    let Some(depth) = deeper(depth, ctx) else {
        return;
    };
    let below = Tied {
        depth,
        line: print_line,
        leaf: print_leaf,
        behind: print_behind,
    };
    item_inside(below, item, scope, ctx);
}
