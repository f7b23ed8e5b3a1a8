//! Steps of which the lines of special names are made.

ghost use Rattle.std.specs.Prelude.{option_map};
ghost use Rattle.demangle_meets.specs.Meets.{Meets};
ghost use Rattle.demangle_meets.specs.Place.{world_of};
ghost use Rattle.demangle_context.specs.PageOf.{page};
ghost use Rattle.demangle_lines.specs.Does.{Runs};
ghost use Rattle.demangle_lines.specs.Pieces.{each_of};
ghost use Rattle.demangle_lines.specs.ScopeOf.{lent_scope};
ghost use Rattle.demangle_printing.specs.World.{listed};
ghost use Rattle.demangle_lines_special.specs.Choices.{each_1_steps};

use demangle_context::{Context, DemangleWrite};
use demangle_lines::{Below, Scope, Tree, count_of, entry_of, itself};

/// Steps for a tree of a list.
pub(crate) fn every_1<'s, T: Tree<S>, S: 's, W: DemangleWrite, B: Below<'s, T, S, W>>(
    below: B,
    tree: T,
    scope: Option<&Scope<'_, T>>,
    ctx: &mut Context<'s, '_, T, S, W>,
)
    requires { B.can below }
    ensures { Runs (B.at below) (page T.tree T.table W.seen ctx.old) (page T.tree T.table W.seen ctx.new) (T.tree
        tree) (lent_scope T.tree scope.entry) each_1_steps }
{
    itself(below, tree, scope, ctx);
}

/// Steps for each tree of a list.
pub(crate) fn each_1<'s, T: Tree<S>, S: 's, W: DemangleWrite, B: Below<'s, T, S, W>>(
    below: B,
    list: Option<T>,
    scope: Option<&Scope<'_, T>>,
    ctx: &mut Context<'s, '_, T, S, W>,
)
    requires { B.can below }
    ensures { Meets (B.at below) (page T.tree T.table W.seen ctx.old) (page T.tree T.table W.seen ctx.new) (each_of
        (world_of (B.at below).refers) each_1_steps (listed (world_of (B.at below).refers) (option_map T.tree
        list)) (lent_scope T.tree scope.entry)) }
{
    for number in 0..count_of(below, list) {
        let Some(found) = entry_of(below, list, number) else {
            return;
        };
        every_1(below, found, scope, ctx);
    }
}
