//! Steps of which the lines of template parameters and arguments are made.

ghost use Rattle.demangle_context.specs.PageOf.{page};
ghost use Rattle.demangle_lines.specs.Does.{Chooses};
ghost use Rattle.demangle_lines.specs.ScopeOf.{lent_scope};
ghost use Rattle.demangle_lines_arguments.specs.Choices.{choice_1_if, choice_1_yes, choice_1_no, choice_2_if};
ghost use Rattle.demangle_lines_arguments.specs.Choices.{choice_2_yes, choice_2_no, choice_3_if, choice_3_yes};
ghost use Rattle.demangle_lines_arguments.specs.Choices.{choice_3_no, choice_4_if, choice_4_yes, choice_4_no};

use demangle_context::{Context, DemangleWrite, PrintFlag};
use demangle_lines::{Below, Scope, Tree, argument, inner_ordinal, is_there, ordinal};

/// Steps that a condition chooses.
pub(crate) fn choice_1<'s, T: Tree<S>, S: 's, W: DemangleWrite, B: Below<'s, T, S, W>>(
    below: B,
    tree: T,
    scope: Option<&Scope<'_, T>>,
    ctx: &mut Context<'s, '_, T, S, W>,
)
    requires { B.can below }
    ensures { Chooses (B.at below) (page T.tree T.table W.seen ctx.old) (page T.tree T.table W.seen ctx.new) (T.tree
        tree) (lent_scope T.tree scope.entry) choice_1_if choice_1_yes choice_1_no }
{
    if ctx.is_on(PrintFlag::Lambda) {
        ctx.text("auto:");
        ordinal(below, tree, 0, 0, 1, ctx);
    } else {
        argument(below, tree, 0, scope, ctx);
    }
}

/// Steps that a condition chooses.
pub(crate) fn choice_2<'s, T: Tree<S>, S: 's, W: DemangleWrite, B: Below<'s, T, S, W>>(
    below: B,
    tree: T,
    scope: Option<&Scope<'_, T>>,
    ctx: &mut Context<'s, '_, T, S, W>,
)
    requires { B.can below }
    ensures { Chooses (B.at below) (page T.tree T.table W.seen ctx.old) (page T.tree T.table W.seen ctx.new) (T.tree
        tree) (lent_scope T.tree scope.entry) choice_2_if choice_2_yes choice_2_no }
{
    if is_there(below, tree, 2) {
        ctx.text("{parm#");
        inner_ordinal(below, tree, 2, 0, 0, 1, ctx);
        ctx.text("}");
    } else {
        ctx.text("this");
    }
}

/// Steps that a condition chooses.
pub(crate) fn choice_3<'s, T: Tree<S>, S: 's, W: DemangleWrite, B: Below<'s, T, S, W>>(
    below: B,
    tree: T,
    scope: Option<&Scope<'_, T>>,
    ctx: &mut Context<'s, '_, T, S, W>,
)
    requires { B.can below }
    ensures { Chooses (B.at below) (page T.tree T.table W.seen ctx.old) (page T.tree T.table W.seen ctx.new) (T.tree
        tree) (lent_scope T.tree scope.entry) choice_3_if choice_3_yes choice_3_no }
{
    if ctx.last_is('<') {
        ctx.text(" ");
    }
}

/// Steps that a condition chooses.
pub(crate) fn choice_4<'s, T: Tree<S>, S: 's, W: DemangleWrite, B: Below<'s, T, S, W>>(
    below: B,
    tree: T,
    scope: Option<&Scope<'_, T>>,
    ctx: &mut Context<'s, '_, T, S, W>,
)
    requires { B.can below }
    ensures { Chooses (B.at below) (page T.tree T.table W.seen ctx.old) (page T.tree T.table W.seen ctx.new) (T.tree
        tree) (lent_scope T.tree scope.entry) choice_4_if choice_4_yes choice_4_no }
{
    if ctx.last_is('>') {
        ctx.text(" ");
    }
}
