//! Steps of which the lines of what of inner items stands behind what is printed before it are made.

ghost use Rattle.demangle_context.specs.PageOf.{page};
ghost use Rattle.demangle_lines.specs.Does.{Chooses, Holds};
ghost use Rattle.demangle_lines.specs.ScopeOf.{lent_scope};
ghost use Rattle.demangle_lines_inner.specs.Choices.{choice_1_if, choice_1_yes, choice_1_no, choice_2_if};
ghost use Rattle.demangle_lines_inner.specs.Choices.{choice_2_yes, choice_2_no, condition_1_is, choice_3_if};
ghost use Rattle.demangle_lines_inner.specs.Choices.{choice_3_yes, choice_3_no};

use demangle_context::{Context, DemangleWrite};
use demangle_lines::{Below, Scope, Tree, is_qualified, is_there, part};

/// Steps that a condition chooses.
pub(crate) fn choice_1<'s, T: Tree<S>, S: 's, W: DemangleWrite, B: Below<'s, T, S, W>>(
    below: B,
    tree: T,
    scope: Option<&Scope<'_, T>>,
    ctx: &mut Context<'s, '_, T, S, W>,
)
    requires { B.can below }
    ensures { Chooses (B.at below) (page T.tree T.table W.seen ctx.old) (page T.tree T.table W.seen ctx.new) (T.tree
        tree) (lent_scope T.tree scope.entry) choice_1_if choice_1_yes choice_1_no }
{
    if is_qualified(below, tree, 0) {
        part(below, tree, 0, scope, ctx);
    }
}

/// Steps that a condition chooses.
pub(crate) fn choice_2<'s, T: Tree<S>, S: 's, W: DemangleWrite, B: Below<'s, T, S, W>>(
    below: B,
    tree: T,
    scope: Option<&Scope<'_, T>>,
    ctx: &mut Context<'s, '_, T, S, W>,
)
    requires { B.can below }
    ensures { Chooses (B.at below) (page T.tree T.table W.seen ctx.old) (page T.tree T.table W.seen ctx.new) (T.tree
        tree) (lent_scope T.tree scope.entry) choice_2_if choice_2_yes choice_2_no }
{
    if is_there(below, tree, 5) {
        ctx.space();
        part(below, tree, 5, scope, ctx);
    }
}

/// A condition.
pub(crate) fn condition_1<'s, T: Tree<S>, S: 's, W: DemangleWrite, B: Below<'s, T, S, W>>(
    below: B,
    tree: T,
    ctx: &Context<'s, '_, T, S, W>,
) -> bool
    ensures { Holds (B.at below).refers (page T.tree T.table W.seen ctx.now) (T.tree tree) condition_1_is result }
{
    !ctx.last_is('(')
}

/// Steps that a condition chooses.
pub(crate) fn choice_3<'s, T: Tree<S>, S: 's, W: DemangleWrite, B: Below<'s, T, S, W>>(
    below: B,
    tree: T,
    scope: Option<&Scope<'_, T>>,
    ctx: &mut Context<'s, '_, T, S, W>,
)
    requires { B.can below }
    ensures { Chooses (B.at below) (page T.tree T.table W.seen ctx.old) (page T.tree T.table W.seen ctx.new) (T.tree
        tree) (lent_scope T.tree scope.entry) choice_3_if choice_3_yes choice_3_no }
{
    if condition_1(below, tree, ctx) {
        ctx.space();
    }
}
