//! Steps of which the lines of functions and their types are made.

ghost use Rattle.demangle_context.specs.PageOf.{page};
ghost use Rattle.demangle_lines.specs.Does.{Chooses, Holds, Runs};
ghost use Rattle.demangle_lines.specs.ScopeOf.{lent_scope};
ghost use Rattle.demangle_lines_functions.specs.Choices.{under_1_steps, condition_1_is, condition_2_is};
ghost use Rattle.demangle_lines_functions.specs.Choices.{condition_3_is, choice_1_if, choice_1_yes, choice_1_no};
ghost use Rattle.demangle_lines_functions.specs.Choices.{choice_2_if, choice_2_yes, choice_2_no, choice_3_if};
ghost use Rattle.demangle_lines_functions.specs.Choices.{choice_3_yes, choice_3_no};

use demangle_context::{Context, DemangleWrite, PrintFlag};
use demangle_lines::{
    Below, Scope, Tree, close, has_prefix_arguments, hold, innermost_part, is_special, is_there,
    part, with_prefix_arguments,
};

/// A condition.
pub(crate) fn condition_3<'s, T: Tree<S>, S: 's, W: DemangleWrite, B: Below<'s, T, S, W>>(
    below: B,
    tree: T,
    ctx: &Context<'s, '_, T, S, W>,
) -> bool
    ensures { Holds (B.at below).refers (page T.tree T.table W.seen ctx.now) (T.tree tree) condition_3_is result }
{
    !is_special(below, tree, 0)
}

/// A condition.
pub(crate) fn condition_2<'s, T: Tree<S>, S: 's, W: DemangleWrite, B: Below<'s, T, S, W>>(
    below: B,
    tree: T,
    ctx: &Context<'s, '_, T, S, W>,
) -> bool
    ensures { Holds (B.at below).refers (page T.tree T.table W.seen ctx.now) (T.tree tree) condition_2_is result }
{
    if ctx.is_on(PrintFlag::Returns) {
        condition_3(below, tree, ctx)
    } else {
        false
    }
}

/// A condition.
pub(crate) fn condition_1<'s, T: Tree<S>, S: 's, W: DemangleWrite, B: Below<'s, T, S, W>>(
    below: B,
    tree: T,
    ctx: &Context<'s, '_, T, S, W>,
) -> bool
    ensures { Holds (B.at below).refers (page T.tree T.table W.seen ctx.now) (T.tree tree) condition_1_is result }
{
    if has_prefix_arguments(below, tree, 0) {
        condition_2(below, tree, ctx)
    } else {
        false
    }
}

/// Steps that a condition chooses.
pub(crate) fn choice_1<'s, T: Tree<S>, S: 's, W: DemangleWrite, B: Below<'s, T, S, W>>(
    below: B,
    tree: T,
    scope: Option<&Scope<'_, T>>,
    ctx: &mut Context<'s, '_, T, S, W>,
)
    requires { B.can below }
    ensures { Chooses (B.at below) (page T.tree T.table W.seen ctx.old) (page T.tree T.table W.seen ctx.new) (T.tree
        tree) (lent_scope T.tree scope.entry) choice_1_if choice_1_yes choice_1_no }
{
    if condition_1(below, tree, ctx) {
        innermost_part(below, tree, 1, 0, 0, scope, ctx);
        ctx.text(" ");
    }
}

/// Steps that a condition chooses.
pub(crate) fn choice_2<'s, T: Tree<S>, S: 's, W: DemangleWrite, B: Below<'s, T, S, W>>(
    below: B,
    tree: T,
    scope: Option<&Scope<'_, T>>,
    ctx: &mut Context<'s, '_, T, S, W>,
)
    requires { B.can below }
    ensures { Chooses (B.at below) (page T.tree T.table W.seen ctx.old) (page T.tree T.table W.seen ctx.new) (T.tree
        tree) (lent_scope T.tree scope.entry) choice_2_if choice_2_yes choice_2_no }
{
    if ctx.is_on(PrintFlag::Params) {
        hold(below, tree, ctx);
        part(below, tree, 0, scope, ctx);
        close(below, tree, scope, ctx);
    } else {
        part(below, tree, 0, scope, ctx);
    }
}

/// Steps in a scope of their own.
pub(crate) fn under_1<'s, T: Tree<S>, S: 's, W: DemangleWrite, B: Below<'s, T, S, W>>(
    below: B,
    tree: T,
    scope: Option<&Scope<'_, T>>,
    ctx: &mut Context<'s, '_, T, S, W>,
)
    requires { B.can below }
    ensures { Runs (B.at below) (page T.tree T.table W.seen ctx.old) (page T.tree T.table W.seen ctx.new) (T.tree
        tree) (lent_scope T.tree scope.entry) under_1_steps }
{
    let inner = with_prefix_arguments(below, tree, 0, scope);
    choice_1(below, tree, Some(&inner), ctx);
    choice_2(below, tree, Some(&inner), ctx);
}

/// Steps that a condition chooses.
pub(crate) fn choice_3<'s, T: Tree<S>, S: 's, W: DemangleWrite, B: Below<'s, T, S, W>>(
    below: B,
    tree: T,
    scope: Option<&Scope<'_, T>>,
    ctx: &mut Context<'s, '_, T, S, W>,
)
    requires { B.can below }
    ensures { Chooses (B.at below) (page T.tree T.table W.seen ctx.old) (page T.tree T.table W.seen ctx.new) (T.tree
        tree) (lent_scope T.tree scope.entry) choice_3_if choice_3_yes choice_3_no }
{
    if is_there(below, tree, 1) {
        ctx.space();
        part(below, tree, 1, scope, ctx);
    }
}
