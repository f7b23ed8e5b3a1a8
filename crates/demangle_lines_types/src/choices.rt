//! Steps of which the lines of types are made.

ghost use Rattle.demangle_context.specs.PageOf.{page};
ghost use Rattle.demangle_lines.specs.Does.{Chooses, Holds};
ghost use Rattle.demangle_lines.specs.ScopeOf.{lent_scope};
ghost use Rattle.demangle_lines_types.specs.Choices.{choice_1_if, choice_1_yes, choice_1_no, choice_2_if};
ghost use Rattle.demangle_lines_types.specs.Choices.{choice_2_yes, choice_2_no, choice_3_if, choice_3_yes};
ghost use Rattle.demangle_lines_types.specs.Choices.{choice_3_no, condition_1_is, choice_4_if, choice_4_yes};
ghost use Rattle.demangle_lines_types.specs.Choices.{choice_4_no};

use demangle_context::{Context, DemangleWrite, PrintFlag};
use demangle_lines::{Below, Scope, Tree, is_true};

/// Steps that a condition chooses.
pub(crate) fn choice_1<'s, T: Tree<S>, S: 's, W: DemangleWrite, B: Below<'s, T, S, W>>(
    below: B,
    tree: T,
    scope: Option<&Scope<'_, T>>,
    ctx: &mut Context<'s, '_, T, S, W>,
)
    requires { B.can below }
    ensures { Chooses (B.at below) (page T.tree T.table W.seen ctx.old) (page T.tree T.table W.seen ctx.new) (T.tree
        tree) (lent_scope T.tree scope.entry) choice_1_if choice_1_yes choice_1_no }
{
    if is_true(below, tree, 2) {
        ctx.space();
        ctx.text("const");
    }
}

/// Steps that a condition chooses.
pub(crate) fn choice_2<'s, T: Tree<S>, S: 's, W: DemangleWrite, B: Below<'s, T, S, W>>(
    below: B,
    tree: T,
    scope: Option<&Scope<'_, T>>,
    ctx: &mut Context<'s, '_, T, S, W>,
)
    requires { B.can below }
    ensures { Chooses (B.at below) (page T.tree T.table W.seen ctx.old) (page T.tree T.table W.seen ctx.new) (T.tree
        tree) (lent_scope T.tree scope.entry) choice_2_if choice_2_yes choice_2_no }
{
    if is_true(below, tree, 1) {
        ctx.space();
        ctx.text("volatile");
    }
}

/// Steps that a condition chooses.
pub(crate) fn choice_3<'s, T: Tree<S>, S: 's, W: DemangleWrite, B: Below<'s, T, S, W>>(
    below: B,
    tree: T,
    scope: Option<&Scope<'_, T>>,
    ctx: &mut Context<'s, '_, T, S, W>,
)
    requires { B.can below }
    ensures { Chooses (B.at below) (page T.tree T.table W.seen ctx.old) (page T.tree T.table W.seen ctx.new) (T.tree
        tree) (lent_scope T.tree scope.entry) choice_3_if choice_3_yes choice_3_no }
{
    if is_true(below, tree, 0) {
        ctx.space();
        ctx.text("restrict");
    }
}

/// A condition.
pub(crate) fn condition_1<'s, T: Tree<S>, S: 's, W: DemangleWrite, B: Below<'s, T, S, W>>(
    below: B,
    tree: T,
    ctx: &Context<'s, '_, T, S, W>,
) -> bool
    ensures { Holds (B.at below).refers (page T.tree T.table W.seen ctx.now) (T.tree tree) condition_1_is result }
{
    !ctx.is_on(PrintFlag::Pack)
}

/// Steps that a condition chooses.
pub(crate) fn choice_4<'s, T: Tree<S>, S: 's, W: DemangleWrite, B: Below<'s, T, S, W>>(
    below: B,
    tree: T,
    scope: Option<&Scope<'_, T>>,
    ctx: &mut Context<'s, '_, T, S, W>,
)
    requires { B.can below }
    ensures { Chooses (B.at below) (page T.tree T.table W.seen ctx.old) (page T.tree T.table W.seen ctx.new) (T.tree
        tree) (lent_scope T.tree scope.entry) choice_4_if choice_4_yes choice_4_no }
{
    if condition_1(below, tree, ctx) {
        ctx.text("...");
    }
}
