//! Steps of which the lines of expressions are made.

ghost use Rattle.std.specs.Prelude.{option_map};
ghost use Rattle.demangle_meets.specs.Meets.{Meets};
ghost use Rattle.demangle_meets.specs.Place.{world_of};
ghost use Rattle.demangle_context.specs.PageOf.{page};
ghost use Rattle.demangle_lines.specs.Does.{Chooses, Holds, Runs};
ghost use Rattle.demangle_lines.specs.Pieces.{each_of};
ghost use Rattle.demangle_lines.specs.ScopeOf.{lent_scope};
ghost use Rattle.demangle_printing.specs.World.{listed};
ghost use Rattle.demangle_lines_expressions.specs.Choices.{condition_1_is, choice_1_if, choice_1_yes, choice_1_no};
ghost use Rattle.demangle_lines_expressions.specs.Choices.{choice_2_if, choice_2_yes, choice_2_no, choice_3_if};
ghost use Rattle.demangle_lines_expressions.specs.Choices.{choice_3_yes, choice_3_no, choice_4_if, choice_4_yes};
ghost use Rattle.demangle_lines_expressions.specs.Choices.{choice_4_no, condition_2_is, condition_3_is};
ghost use Rattle.demangle_lines_expressions.specs.Choices.{choice_8_if, choice_8_yes, choice_8_no, condition_4_is};
ghost use Rattle.demangle_lines_expressions.specs.Choices.{choice_11_if, choice_11_yes, choice_11_no, choice_12_if};
ghost use Rattle.demangle_lines_expressions.specs.Choices.{choice_12_yes, choice_12_no, choice_13_if};
ghost use Rattle.demangle_lines_expressions.specs.Choices.{choice_13_yes, choice_13_no, choice_10_if};
ghost use Rattle.demangle_lines_expressions.specs.Choices.{choice_10_yes, choice_10_no, choice_9_if, choice_9_yes};
ghost use Rattle.demangle_lines_expressions.specs.Choices.{choice_9_no, choice_7_if, choice_7_yes, choice_7_no};
ghost use Rattle.demangle_lines_expressions.specs.Choices.{choice_6_if, choice_6_yes, choice_6_no, choice_5_if};
ghost use Rattle.demangle_lines_expressions.specs.Choices.{choice_5_yes, choice_5_no, each_1_steps, choice_14_if};
ghost use Rattle.demangle_lines_expressions.specs.Choices.{choice_14_yes, choice_14_no};

use demangle_context::{Context, DemangleWrite, PrintFlag};
use demangle_lines::{
    Below, Scope, Tree, count_of, entry_of, has_prefix_arguments, is_inner_word, is_innermost_word,
    is_negative, is_there, itself, magnitude, operand, part, spells, with_inner_these,
};

/// A condition.
pub(crate) fn condition_1<'s, T: Tree<S>, S: 's, W: DemangleWrite, B: Below<'s, T, S, W>>(
    below: B,
    tree: T,
    ctx: &Context<'s, '_, T, S, W>,
) -> bool
    ensures { Holds (B.at below).refers (page T.tree T.table W.seen ctx.now) (T.tree tree) condition_1_is result }
{
    if is_inner_word(below, tree, 0, 39, 0, 0) {
        true
    } else {
        is_inner_word(below, tree, 0, 40, 0, 0)
    }
}

/// Steps that a condition chooses.
pub(crate) fn choice_1<'s, T: Tree<S>, S: 's, W: DemangleWrite, B: Below<'s, T, S, W>>(
    below: B,
    tree: T,
    scope: Option<&Scope<'_, T>>,
    ctx: &mut Context<'s, '_, T, S, W>,
)
    requires { B.can below }
    ensures { Chooses (B.at below) (page T.tree T.table W.seen ctx.old) (page T.tree T.table W.seen ctx.new) (T.tree
        tree) (lent_scope T.tree scope.entry) choice_1_if choice_1_yes choice_1_no }
{
    if condition_1(below, tree, ctx) {
        operand(below, tree, 1, scope, ctx);
        part(below, tree, 0, scope, ctx);
    } else {
        part(below, tree, 0, scope, ctx);
        operand(below, tree, 1, scope, ctx);
    }
}

/// Steps that a condition chooses.
pub(crate) fn choice_2<'s, T: Tree<S>, S: 's, W: DemangleWrite, B: Below<'s, T, S, W>>(
    below: B,
    tree: T,
    scope: Option<&Scope<'_, T>>,
    ctx: &mut Context<'s, '_, T, S, W>,
)
    requires { B.can below }
    ensures { Chooses (B.at below) (page T.tree T.table W.seen ctx.old) (page T.tree T.table W.seen ctx.new) (T.tree
        tree) (lent_scope T.tree scope.entry) choice_2_if choice_2_yes choice_2_no }
{
    if is_inner_word(below, tree, 0, 33, 0, 0) {
        ctx.text("((");
        part(below, tree, 1, scope, ctx);
        ctx.text(")>(");
        part(below, tree, 2, scope, ctx);
        ctx.text("))");
    } else {
        operand(below, tree, 1, scope, ctx);
        part(below, tree, 0, scope, ctx);
        operand(below, tree, 2, scope, ctx);
    }
}

/// Steps that a condition chooses.
pub(crate) fn choice_3<'s, T: Tree<S>, S: 's, W: DemangleWrite, B: Below<'s, T, S, W>>(
    below: B,
    tree: T,
    scope: Option<&Scope<'_, T>>,
    ctx: &mut Context<'s, '_, T, S, W>,
)
    requires { B.can below }
    ensures { Chooses (B.at below) (page T.tree T.table W.seen ctx.old) (page T.tree T.table W.seen ctx.new) (T.tree
        tree) (lent_scope T.tree scope.entry) choice_3_if choice_3_yes choice_3_no }
{
    if is_inner_word(below, tree, 0, 46, 0, 0) {
        operand(below, tree, 1, scope, ctx);
        ctx.text("?");
        operand(below, tree, 2, scope, ctx);
        ctx.text(" : ");
        operand(below, tree, 3, scope, ctx);
    } else {
        part(below, tree, 0, scope, ctx);
        ctx.text("(");
        part(below, tree, 1, scope, ctx);
        ctx.text(", ");
        part(below, tree, 2, scope, ctx);
        ctx.text(", ");
        part(below, tree, 3, scope, ctx);
        ctx.text(")");
    }
}

/// Steps that a condition chooses.
pub(crate) fn choice_4<'s, T: Tree<S>, S: 's, W: DemangleWrite, B: Below<'s, T, S, W>>(
    below: B,
    tree: T,
    scope: Option<&Scope<'_, T>>,
    ctx: &mut Context<'s, '_, T, S, W>,
)
    requires { B.can below }
    ensures { Chooses (B.at below) (page T.tree T.table W.seen ctx.old) (page T.tree T.table W.seen ctx.new) (T.tree
        tree) (lent_scope T.tree scope.entry) choice_4_if choice_4_yes choice_4_no }
{
    if has_prefix_arguments(below, tree, 0) {
        ctx.text("(");
        part(below, tree, 0, scope, ctx);
        ctx.text(")");
    } else {
        part(below, tree, 0, scope, ctx);
    }
}

/// A condition.
pub(crate) fn condition_2<'s, T: Tree<S>, S: 's, W: DemangleWrite, B: Below<'s, T, S, W>>(
    below: B,
    tree: T,
    ctx: &Context<'s, '_, T, S, W>,
) -> bool
    ensures { Holds (B.at below).refers (page T.tree T.table W.seen ctx.now) (T.tree tree) condition_2_is result }
{
    if is_innermost_word(below, tree, 1, 2, 0, 0, 0) {
        spells(below, tree, b"0", 1)
    } else {
        false
    }
}

/// A condition.
pub(crate) fn condition_3<'s, T: Tree<S>, S: 's, W: DemangleWrite, B: Below<'s, T, S, W>>(
    below: B,
    tree: T,
    ctx: &Context<'s, '_, T, S, W>,
) -> bool
    ensures { Holds (B.at below).refers (page T.tree T.table W.seen ctx.now) (T.tree tree) condition_3_is result }
{
    if is_innermost_word(below, tree, 1, 2, 0, 0, 0) {
        spells(below, tree, b"1", 1)
    } else {
        false
    }
}

/// Steps that a condition chooses.
pub(crate) fn choice_8<'s, T: Tree<S>, S: 's, W: DemangleWrite, B: Below<'s, T, S, W>>(
    below: B,
    tree: T,
    scope: Option<&Scope<'_, T>>,
    ctx: &mut Context<'s, '_, T, S, W>,
)
    requires { B.can below }
    ensures { Chooses (B.at below) (page T.tree T.table W.seen ctx.old) (page T.tree T.table W.seen ctx.new) (T.tree
        tree) (lent_scope T.tree scope.entry) choice_8_if choice_8_yes choice_8_no }
{
    if is_negative(below, tree, 1) {
        ctx.text("-");
    }
}

/// A condition.
pub(crate) fn condition_4<'s, T: Tree<S>, S: 's, W: DemangleWrite, B: Below<'s, T, S, W>>(
    below: B,
    tree: T,
    ctx: &Context<'s, '_, T, S, W>,
) -> bool
    ensures { Holds (B.at below).refers (page T.tree T.table W.seen ctx.now) (T.tree tree) condition_4_is result }
{
    if is_innermost_word(below, tree, 1, 16, 0, 0, 0) {
        true
    } else {
        is_innermost_word(below, tree, 1, 17, 0, 0, 0)
    }
}

/// Steps that a condition chooses.
pub(crate) fn choice_11<'s, T: Tree<S>, S: 's, W: DemangleWrite, B: Below<'s, T, S, W>>(
    below: B,
    tree: T,
    scope: Option<&Scope<'_, T>>,
    ctx: &mut Context<'s, '_, T, S, W>,
)
    requires { B.can below }
    ensures { Chooses (B.at below) (page T.tree T.table W.seen ctx.old) (page T.tree T.table W.seen ctx.new) (T.tree
        tree) (lent_scope T.tree scope.entry) choice_11_if choice_11_yes choice_11_no }
{
    if ctx.is_on(PrintFlag::LiteralTypes) {
        ctx.text("(");
        part(below, tree, 0, scope, ctx);
        ctx.text(")");
    }
}

/// Steps that a condition chooses.
pub(crate) fn choice_12<'s, T: Tree<S>, S: 's, W: DemangleWrite, B: Below<'s, T, S, W>>(
    below: B,
    tree: T,
    scope: Option<&Scope<'_, T>>,
    ctx: &mut Context<'s, '_, T, S, W>,
)
    requires { B.can below }
    ensures { Chooses (B.at below) (page T.tree T.table W.seen ctx.old) (page T.tree T.table W.seen ctx.new) (T.tree
        tree) (lent_scope T.tree scope.entry) choice_12_if choice_12_yes choice_12_no }
{
    if is_negative(below, tree, 1) {
        ctx.text("-[");
    } else {
        ctx.text("[");
    }
}

/// Steps that a condition chooses.
pub(crate) fn choice_13<'s, T: Tree<S>, S: 's, W: DemangleWrite, B: Below<'s, T, S, W>>(
    below: B,
    tree: T,
    scope: Option<&Scope<'_, T>>,
    ctx: &mut Context<'s, '_, T, S, W>,
)
    requires { B.can below }
    ensures { Chooses (B.at below) (page T.tree T.table W.seen ctx.old) (page T.tree T.table W.seen ctx.new) (T.tree
        tree) (lent_scope T.tree scope.entry) choice_13_if choice_13_yes choice_13_no }
{
    if is_innermost_word(below, tree, 1, 8, 0, 0, 0) {
        choice_8(below, tree, scope, ctx);
        magnitude(below, tree, 1, ctx);
    } else {
        choice_11(below, tree, scope, ctx);
        choice_8(below, tree, scope, ctx);
        magnitude(below, tree, 1, ctx);
    }
}

/// Steps that a condition chooses.
pub(crate) fn choice_10<'s, T: Tree<S>, S: 's, W: DemangleWrite, B: Below<'s, T, S, W>>(
    below: B,
    tree: T,
    scope: Option<&Scope<'_, T>>,
    ctx: &mut Context<'s, '_, T, S, W>,
)
    requires { B.can below }
    ensures { Chooses (B.at below) (page T.tree T.table W.seen ctx.old) (page T.tree T.table W.seen ctx.new) (T.tree
        tree) (lent_scope T.tree scope.entry) choice_10_if choice_10_yes choice_10_no }
{
    if condition_4(below, tree, ctx) {
        choice_11(below, tree, scope, ctx);
        choice_12(below, tree, scope, ctx);
        magnitude(below, tree, 1, ctx);
        ctx.text("]");
    } else {
        choice_13(below, tree, scope, ctx);
    }
}

/// Steps that a condition chooses.
pub(crate) fn choice_9<'s, T: Tree<S>, S: 's, W: DemangleWrite, B: Below<'s, T, S, W>>(
    below: B,
    tree: T,
    scope: Option<&Scope<'_, T>>,
    ctx: &mut Context<'s, '_, T, S, W>,
)
    requires { B.can below }
    ensures { Chooses (B.at below) (page T.tree T.table W.seen ctx.old) (page T.tree T.table W.seen ctx.new) (T.tree
        tree) (lent_scope T.tree scope.entry) choice_9_if choice_9_yes choice_9_no }
{
    if is_innermost_word(below, tree, 1, 31, 0, 0, 0) {
        ctx.text("nullptr");
    } else {
        choice_10(below, tree, scope, ctx);
    }
}

/// Steps that a condition chooses.
pub(crate) fn choice_7<'s, T: Tree<S>, S: 's, W: DemangleWrite, B: Below<'s, T, S, W>>(
    below: B,
    tree: T,
    scope: Option<&Scope<'_, T>>,
    ctx: &mut Context<'s, '_, T, S, W>,
)
    requires { B.can below }
    ensures { Chooses (B.at below) (page T.tree T.table W.seen ctx.old) (page T.tree T.table W.seen ctx.new) (T.tree
        tree) (lent_scope T.tree scope.entry) choice_7_if choice_7_yes choice_7_no }
{
    if is_innermost_word(below, tree, 1, 2, 0, 0, 0) {
        ctx.text("(bool)");
        choice_8(below, tree, scope, ctx);
        magnitude(below, tree, 1, ctx);
    } else {
        choice_9(below, tree, scope, ctx);
    }
}

/// Steps that a condition chooses.
pub(crate) fn choice_6<'s, T: Tree<S>, S: 's, W: DemangleWrite, B: Below<'s, T, S, W>>(
    below: B,
    tree: T,
    scope: Option<&Scope<'_, T>>,
    ctx: &mut Context<'s, '_, T, S, W>,
)
    requires { B.can below }
    ensures { Chooses (B.at below) (page T.tree T.table W.seen ctx.old) (page T.tree T.table W.seen ctx.new) (T.tree
        tree) (lent_scope T.tree scope.entry) choice_6_if choice_6_yes choice_6_no }
{
    if condition_3(below, tree, ctx) {
        ctx.text("true");
    } else {
        choice_7(below, tree, scope, ctx);
    }
}

/// Steps that a condition chooses.
pub(crate) fn choice_5<'s, T: Tree<S>, S: 's, W: DemangleWrite, B: Below<'s, T, S, W>>(
    below: B,
    tree: T,
    scope: Option<&Scope<'_, T>>,
    ctx: &mut Context<'s, '_, T, S, W>,
)
    requires { B.can below }
    ensures { Chooses (B.at below) (page T.tree T.table W.seen ctx.old) (page T.tree T.table W.seen ctx.new) (T.tree
        tree) (lent_scope T.tree scope.entry) choice_5_if choice_5_yes choice_5_no }
{
    if condition_2(below, tree, ctx) {
        ctx.text("false");
    } else {
        choice_6(below, tree, scope, ctx);
    }
}

/// Steps for a tree of a list.
pub(crate) fn every_1<'s, T: Tree<S>, S: 's, W: DemangleWrite, B: Below<'s, T, S, W>>(
    below: B,
    tree: T,
    scope: Option<&Scope<'_, T>>,
    ctx: &mut Context<'s, '_, T, S, W>,
)
    requires { B.can below }
    ensures { Runs (B.at below) (page T.tree T.table W.seen ctx.old) (page T.tree T.table W.seen ctx.new) (T.tree
        tree) (lent_scope T.tree scope.entry) each_1_steps }
{
    itself(below, tree, scope, ctx);
    ctx.text("::");
}

/// Steps for each tree of a list.
pub(crate) fn each_1<'s, T: Tree<S>, S: 's, W: DemangleWrite, B: Below<'s, T, S, W>>(
    below: B,
    list: Option<T>,
    scope: Option<&Scope<'_, T>>,
    ctx: &mut Context<'s, '_, T, S, W>,
)
    requires { B.can below }
    ensures { Meets (B.at below) (page T.tree T.table W.seen ctx.old) (page T.tree T.table W.seen ctx.new) (each_of
        (world_of (B.at below).refers) each_1_steps (listed (world_of (B.at below).refers) (option_map T.tree
        list)) (lent_scope T.tree scope.entry)) }
{
    for number in 0..count_of(below, list) {
        let Some(found) = entry_of(below, list, number) else {
            return;
        };
        every_1(below, found, scope, ctx);
    }
}

/// Steps that a condition chooses.
pub(crate) fn choice_14<'s, T: Tree<S>, S: 's, W: DemangleWrite, B: Below<'s, T, S, W>>(
    below: B,
    tree: T,
    scope: Option<&Scope<'_, T>>,
    ctx: &mut Context<'s, '_, T, S, W>,
)
    requires { B.can below }
    ensures { Chooses (B.at below) (page T.tree T.table W.seen ctx.old) (page T.tree T.table W.seen ctx.new) (T.tree
        tree) (lent_scope T.tree scope.entry) choice_14_if choice_14_yes choice_14_no }
{
    if is_there(below, tree, 1) {
        let inner = with_inner_these(below, tree, 1, 0, scope);
        part(below, tree, 0, Some(&inner), ctx);
        part(below, tree, 1, Some(&inner), ctx);
    } else {
        part(below, tree, 0, scope, ctx);
    }
}
