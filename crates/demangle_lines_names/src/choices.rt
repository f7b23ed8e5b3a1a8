//! Steps of which the lines of names are made.

ghost use Rattle.std.specs.Prelude.{option_map};
ghost use Rattle.demangle_meets.specs.Meets.{Meets};
ghost use Rattle.demangle_meets.specs.Place.{world_of};
ghost use Rattle.demangle_context.specs.PageOf.{page};
ghost use Rattle.demangle_lines.specs.Does.{Chooses, Holds, Runs};
ghost use Rattle.demangle_lines.specs.Pieces.{each_of};
ghost use Rattle.demangle_lines.specs.ScopeOf.{lent_scope};
ghost use Rattle.demangle_printing.specs.World.{listed};
ghost use Rattle.demangle_lines_names.specs.Choices.{each_1_steps, choice_1_if, choice_1_yes, choice_1_no};
ghost use Rattle.demangle_lines_names.specs.Choices.{each_2_steps, choice_2_if, choice_2_yes, choice_2_no};
ghost use Rattle.demangle_lines_names.specs.Choices.{condition_1_is, choice_3_if, choice_3_yes, choice_3_no};
ghost use Rattle.demangle_lines_names.specs.Choices.{choice_4_if, choice_4_yes, choice_4_no, choice_5_if};
ghost use Rattle.demangle_lines_names.specs.Choices.{choice_5_yes, choice_5_no, choice_6_if, choice_6_yes};
ghost use Rattle.demangle_lines_names.specs.Choices.{choice_6_no, choice_8_if, choice_8_yes, choice_8_no};
ghost use Rattle.demangle_lines_names.specs.Choices.{choice_7_if, choice_7_yes, choice_7_no, choice_10_if};
ghost use Rattle.demangle_lines_names.specs.Choices.{choice_10_yes, choice_10_no, choice_9_if, choice_9_yes};
ghost use Rattle.demangle_lines_names.specs.Choices.{choice_9_no, choice_12_if, choice_12_yes, choice_12_no};
ghost use Rattle.demangle_lines_names.specs.Choices.{choice_11_if, choice_11_yes, choice_11_no, choice_13_if};
ghost use Rattle.demangle_lines_names.specs.Choices.{choice_13_yes, choice_13_no, condition_2_is, condition_3_is};
ghost use Rattle.demangle_lines_names.specs.Choices.{condition_4_is, choice_14_if, choice_14_yes, choice_14_no};
ghost use Rattle.demangle_lines_names.specs.Choices.{choice_15_if, choice_15_yes, choice_15_no};

use demangle_context::{Context, DemangleNodeType, DemangleWrite, PrintFlag};
use demangle_lines::{
    Below, Scope, Tree, count_of, entry_of, inner_leaf, is_anonymous, is_qualified, is_there,
    is_word, itself, leaf, name, name_part, part_at, spelled_itself,
};

/// Steps for a tree of a list.
pub(crate) fn every_1<'s, T: Tree<S>, S: 's, W: DemangleWrite, B: Below<'s, T, S, W>>(
    below: B,
    tree: T,
    scope: Option<&Scope<'_, T>>,
    ctx: &mut Context<'s, '_, T, S, W>,
)
    requires { B.can below }
    ensures { Runs (B.at below) (page T.tree T.table W.seen ctx.old) (page T.tree T.table W.seen ctx.new) (T.tree
        tree) (lent_scope T.tree scope.entry) each_1_steps }
{
    itself(below, tree, scope, ctx);
}

/// Steps for each tree of a list.
pub(crate) fn each_1<'s, T: Tree<S>, S: 's, W: DemangleWrite, B: Below<'s, T, S, W>>(
    below: B,
    list: Option<T>,
    scope: Option<&Scope<'_, T>>,
    ctx: &mut Context<'s, '_, T, S, W>,
)
    requires { B.can below }
    ensures { Meets (B.at below) (page T.tree T.table W.seen ctx.old) (page T.tree T.table W.seen ctx.new) (each_of
        (world_of (B.at below).refers) each_1_steps (listed (world_of (B.at below).refers) (option_map T.tree
        list)) (lent_scope T.tree scope.entry)) }
{
    for number in 0..count_of(below, list) {
        let Some(found) = entry_of(below, list, number) else {
            return;
        };
        every_1(below, found, scope, ctx);
    }
}

/// Steps that a condition chooses.
pub(crate) fn choice_1<'s, T: Tree<S>, S: 's, W: DemangleWrite, B: Below<'s, T, S, W>>(
    below: B,
    tree: T,
    scope: Option<&Scope<'_, T>>,
    ctx: &mut Context<'s, '_, T, S, W>,
)
    requires { B.can below }
    ensures { Chooses (B.at below) (page T.tree T.table W.seen ctx.old) (page T.tree T.table W.seen ctx.new) (T.tree
        tree) (lent_scope T.tree scope.entry) choice_1_if choice_1_yes choice_1_no }
{
    if ctx.is_on(PrintFlag::Params) {
        each_1(below, part_at(below, tree, 1), scope, ctx);
    }
}

/// Steps for a tree of a list.
pub(crate) fn every_2<'s, T: Tree<S>, S: 's, W: DemangleWrite, B: Below<'s, T, S, W>>(
    below: B,
    tree: T,
    scope: Option<&Scope<'_, T>>,
    ctx: &mut Context<'s, '_, T, S, W>,
)
    requires { B.can below }
    ensures { Runs (B.at below) (page T.tree T.table W.seen ctx.old) (page T.tree T.table W.seen ctx.new) (T.tree
        tree) (lent_scope T.tree scope.entry) each_2_steps }
{
    ctx.text(".");
    spelled_itself(below, tree, ctx);
}

/// Steps for each tree of a list.
pub(crate) fn each_2<'s, T: Tree<S>, S: 's, W: DemangleWrite, B: Below<'s, T, S, W>>(
    below: B,
    list: Option<T>,
    scope: Option<&Scope<'_, T>>,
    ctx: &mut Context<'s, '_, T, S, W>,
)
    requires { B.can below }
    ensures { Meets (B.at below) (page T.tree T.table W.seen ctx.old) (page T.tree T.table W.seen ctx.new) (each_of
        (world_of (B.at below).refers) each_2_steps (listed (world_of (B.at below).refers) (option_map T.tree
        list)) (lent_scope T.tree scope.entry)) }
{
    for number in 0..count_of(below, list) {
        let Some(found) = entry_of(below, list, number) else {
            return;
        };
        every_2(below, found, scope, ctx);
    }
}

/// Steps that a condition chooses.
pub(crate) fn choice_2<'s, T: Tree<S>, S: 's, W: DemangleWrite, B: Below<'s, T, S, W>>(
    below: B,
    tree: T,
    scope: Option<&Scope<'_, T>>,
    ctx: &mut Context<'s, '_, T, S, W>,
)
    requires { B.can below }
    ensures { Chooses (B.at below) (page T.tree T.table W.seen ctx.old) (page T.tree T.table W.seen ctx.new) (T.tree
        tree) (lent_scope T.tree scope.entry) choice_2_if choice_2_yes choice_2_no }
{
    if is_there(below, tree, 2) {
        name_part(below, tree, 2, scope, ctx);
        ctx.text("::");
    }
}

/// A condition.
pub(crate) fn condition_1<'s, T: Tree<S>, S: 's, W: DemangleWrite, B: Below<'s, T, S, W>>(
    below: B,
    tree: T,
    ctx: &Context<'s, '_, T, S, W>,
) -> bool
    ensures { Holds (B.at below).refers (page T.tree T.table W.seen ctx.now) (T.tree tree) condition_1_is result }
{
    if is_qualified(below, tree, 0) {
        ctx.is_on(PrintFlag::Params)
    } else {
        false
    }
}

/// Steps that a condition chooses.
pub(crate) fn choice_3<'s, T: Tree<S>, S: 's, W: DemangleWrite, B: Below<'s, T, S, W>>(
    below: B,
    tree: T,
    scope: Option<&Scope<'_, T>>,
    ctx: &mut Context<'s, '_, T, S, W>,
)
    requires { B.can below }
    ensures { Chooses (B.at below) (page T.tree T.table W.seen ctx.old) (page T.tree T.table W.seen ctx.new) (T.tree
        tree) (lent_scope T.tree scope.entry) choice_3_if choice_3_yes choice_3_no }
{
    if condition_1(below, tree, ctx) {
        name_part(below, tree, 0, scope, ctx);
    }
}

/// Steps that a condition chooses.
pub(crate) fn choice_4<'s, T: Tree<S>, S: 's, W: DemangleWrite, B: Below<'s, T, S, W>>(
    below: B,
    tree: T,
    scope: Option<&Scope<'_, T>>,
    ctx: &mut Context<'s, '_, T, S, W>,
)
    requires { B.can below }
    ensures { Chooses (B.at below) (page T.tree T.table W.seen ctx.old) (page T.tree T.table W.seen ctx.new) (T.tree
        tree) (lent_scope T.tree scope.entry) choice_4_if choice_4_yes choice_4_no }
{
    if is_there(below, tree, 1) {
        ctx.space();
        name_part(below, tree, 1, scope, ctx);
    }
}

/// Steps that a condition chooses.
pub(crate) fn choice_5<'s, T: Tree<S>, S: 's, W: DemangleWrite, B: Below<'s, T, S, W>>(
    below: B,
    tree: T,
    scope: Option<&Scope<'_, T>>,
    ctx: &mut Context<'s, '_, T, S, W>,
)
    requires { B.can below }
    ensures { Chooses (B.at below) (page T.tree T.table W.seen ctx.old) (page T.tree T.table W.seen ctx.new) (T.tree
        tree) (lent_scope T.tree scope.entry) choice_5_if choice_5_yes choice_5_no }
{
    if is_there(below, tree, 0) {
        name_part(below, tree, 0, scope, ctx);
        ctx.text("::");
    }
}

/// Steps that a condition chooses.
pub(crate) fn choice_6<'s, T: Tree<S>, S: 's, W: DemangleWrite, B: Below<'s, T, S, W>>(
    below: B,
    tree: T,
    scope: Option<&Scope<'_, T>>,
    ctx: &mut Context<'s, '_, T, S, W>,
)
    requires { B.can below }
    ensures { Chooses (B.at below) (page T.tree T.table W.seen ctx.old) (page T.tree T.table W.seen ctx.new) (T.tree
        tree) (lent_scope T.tree scope.entry) choice_6_if choice_6_yes choice_6_no }
{
    if is_there(below, tree, 1) {
        ctx.text("::");
        name_part(below, tree, 1, scope, ctx);
    } else {
        ctx.text("::string literal");
    }
}

/// Steps that a condition chooses.
pub(crate) fn choice_8<'s, T: Tree<S>, S: 's, W: DemangleWrite, B: Below<'s, T, S, W>>(
    below: B,
    tree: T,
    scope: Option<&Scope<'_, T>>,
    ctx: &mut Context<'s, '_, T, S, W>,
)
    requires { B.can below }
    ensures { Chooses (B.at below) (page T.tree T.table W.seen ctx.old) (page T.tree T.table W.seen ctx.new) (T.tree
        tree) (lent_scope T.tree scope.entry) choice_8_if choice_8_yes choice_8_no }
{
    if ctx.is_on(PrintFlag::NestedPrefix) {
        ctx.turn(PrintFlag::NestedPrefix, false);
        let told = ctx.begin_node(DemangleNodeType::NestedName);
        let items = ctx.fence();
        name_part(below, tree, 0, scope, ctx);
        ctx.unfence(items);
        ctx.end_node(told);
    } else {
        let told = ctx.begin_node(DemangleNodeType::Prefix);
        let items = ctx.fence();
        name_part(below, tree, 0, scope, ctx);
        ctx.unfence(items);
        ctx.end_node(told);
    }
}

/// Steps that a condition chooses.
pub(crate) fn choice_7<'s, T: Tree<S>, S: 's, W: DemangleWrite, B: Below<'s, T, S, W>>(
    below: B,
    tree: T,
    scope: Option<&Scope<'_, T>>,
    ctx: &mut Context<'s, '_, T, S, W>,
)
    requires { B.can below }
    ensures { Chooses (B.at below) (page T.tree T.table W.seen ctx.old) (page T.tree T.table W.seen ctx.new) (T.tree
        tree) (lent_scope T.tree scope.entry) choice_7_if choice_7_yes choice_7_no }
{
    if ctx.is_on(PrintFlag::TemplatePrefix) {
        ctx.turn(PrintFlag::TemplatePrefix, false);
        let told = ctx.begin_node(DemangleNodeType::TemplatePrefix);
        let items = ctx.fence();
        name_part(below, tree, 0, scope, ctx);
        ctx.unfence(items);
        ctx.end_node(told);
    } else {
        choice_8(below, tree, scope, ctx);
    }
}

/// Steps that a condition chooses.
pub(crate) fn choice_10<'s, T: Tree<S>, S: 's, W: DemangleWrite, B: Below<'s, T, S, W>>(
    below: B,
    tree: T,
    scope: Option<&Scope<'_, T>>,
    ctx: &mut Context<'s, '_, T, S, W>,
)
    requires { B.can below }
    ensures { Chooses (B.at below) (page T.tree T.table W.seen ctx.old) (page T.tree T.table W.seen ctx.new) (T.tree
        tree) (lent_scope T.tree scope.entry) choice_10_if choice_10_yes choice_10_no }
{
    if ctx.is_on(PrintFlag::NestedPrefix) {
        ctx.turn(PrintFlag::NestedPrefix, false);
        let told = ctx.begin_node(DemangleNodeType::NestedName);
        let items = ctx.fence();
        name_part(below, tree, 0, scope, ctx);
        ctx.text("::");
        name_part(below, tree, 1, scope, ctx);
        ctx.unfence(items);
        ctx.end_node(told);
    } else {
        let told = ctx.begin_node(DemangleNodeType::Prefix);
        let items = ctx.fence();
        name_part(below, tree, 0, scope, ctx);
        ctx.text("::");
        name_part(below, tree, 1, scope, ctx);
        ctx.unfence(items);
        ctx.end_node(told);
    }
}

/// Steps that a condition chooses.
pub(crate) fn choice_9<'s, T: Tree<S>, S: 's, W: DemangleWrite, B: Below<'s, T, S, W>>(
    below: B,
    tree: T,
    scope: Option<&Scope<'_, T>>,
    ctx: &mut Context<'s, '_, T, S, W>,
)
    requires { B.can below }
    ensures { Chooses (B.at below) (page T.tree T.table W.seen ctx.old) (page T.tree T.table W.seen ctx.new) (T.tree
        tree) (lent_scope T.tree scope.entry) choice_9_if choice_9_yes choice_9_no }
{
    if ctx.is_on(PrintFlag::TemplatePrefix) {
        ctx.turn(PrintFlag::TemplatePrefix, false);
        let told = ctx.begin_node(DemangleNodeType::TemplatePrefix);
        let items = ctx.fence();
        name_part(below, tree, 0, scope, ctx);
        ctx.text("::");
        name_part(below, tree, 1, scope, ctx);
        ctx.unfence(items);
        ctx.end_node(told);
    } else {
        choice_10(below, tree, scope, ctx);
    }
}

/// Steps that a condition chooses.
pub(crate) fn choice_12<'s, T: Tree<S>, S: 's, W: DemangleWrite, B: Below<'s, T, S, W>>(
    below: B,
    tree: T,
    scope: Option<&Scope<'_, T>>,
    ctx: &mut Context<'s, '_, T, S, W>,
)
    requires { B.can below }
    ensures { Chooses (B.at below) (page T.tree T.table W.seen ctx.old) (page T.tree T.table W.seen ctx.new) (T.tree
        tree) (lent_scope T.tree scope.entry) choice_12_if choice_12_yes choice_12_no }
{
    if ctx.is_on(PrintFlag::NestedPrefix) {
        ctx.turn(PrintFlag::NestedPrefix, false);
        let told = ctx.begin_node(DemangleNodeType::NestedName);
        let items = ctx.fence();
        ctx.turn(PrintFlag::TemplatePrefix, true);
        name_part(below, tree, 0, scope, ctx);
        ctx.turn(PrintFlag::TemplatePrefix, false);
        name_part(below, tree, 1, scope, ctx);
        ctx.unfence(items);
        ctx.end_node(told);
    } else {
        let told = ctx.begin_node(DemangleNodeType::Prefix);
        let items = ctx.fence();
        ctx.turn(PrintFlag::TemplatePrefix, true);
        name_part(below, tree, 0, scope, ctx);
        ctx.turn(PrintFlag::TemplatePrefix, false);
        name_part(below, tree, 1, scope, ctx);
        ctx.unfence(items);
        ctx.end_node(told);
    }
}

/// Steps that a condition chooses.
pub(crate) fn choice_11<'s, T: Tree<S>, S: 's, W: DemangleWrite, B: Below<'s, T, S, W>>(
    below: B,
    tree: T,
    scope: Option<&Scope<'_, T>>,
    ctx: &mut Context<'s, '_, T, S, W>,
)
    requires { B.can below }
    ensures { Chooses (B.at below) (page T.tree T.table W.seen ctx.old) (page T.tree T.table W.seen ctx.new) (T.tree
        tree) (lent_scope T.tree scope.entry) choice_11_if choice_11_yes choice_11_no }
{
    if ctx.is_on(PrintFlag::TemplatePrefix) {
        ctx.turn(PrintFlag::TemplatePrefix, false);
        let told = ctx.begin_node(DemangleNodeType::TemplatePrefix);
        let items = ctx.fence();
        ctx.turn(PrintFlag::TemplatePrefix, true);
        name_part(below, tree, 0, scope, ctx);
        ctx.turn(PrintFlag::TemplatePrefix, false);
        name_part(below, tree, 1, scope, ctx);
        ctx.unfence(items);
        ctx.end_node(told);
    } else {
        choice_12(below, tree, scope, ctx);
    }
}

/// Steps that a condition chooses.
pub(crate) fn choice_13<'s, T: Tree<S>, S: 's, W: DemangleWrite, B: Below<'s, T, S, W>>(
    below: B,
    tree: T,
    scope: Option<&Scope<'_, T>>,
    ctx: &mut Context<'s, '_, T, S, W>,
)
    requires { B.can below }
    ensures { Chooses (B.at below) (page T.tree T.table W.seen ctx.old) (page T.tree T.table W.seen ctx.new) (T.tree
        tree) (lent_scope T.tree scope.entry) choice_13_if choice_13_yes choice_13_no }
{
    if is_anonymous(below, tree, 0) {
        ctx.text("(anonymous namespace)");
    } else {
        name(below, tree, 0, ctx);
    }
}

/// A condition.
pub(crate) fn condition_4<'s, T: Tree<S>, S: 's, W: DemangleWrite, B: Below<'s, T, S, W>>(
    below: B,
    tree: T,
    ctx: &Context<'s, '_, T, S, W>,
) -> bool
    ensures { Holds (B.at below).refers (page T.tree T.table W.seen ctx.now) (T.tree tree) condition_4_is result }
{
    if is_word(below, tree, 0, 2, 0) {
        true
    } else {
        is_word(below, tree, 0, 3, 0)
    }
}

/// A condition.
pub(crate) fn condition_3<'s, T: Tree<S>, S: 's, W: DemangleWrite, B: Below<'s, T, S, W>>(
    below: B,
    tree: T,
    ctx: &Context<'s, '_, T, S, W>,
) -> bool
    ensures { Holds (B.at below).refers (page T.tree T.table W.seen ctx.now) (T.tree tree) condition_3_is result }
{
    if is_word(below, tree, 0, 1, 0) {
        true
    } else {
        condition_4(below, tree, ctx)
    }
}

/// A condition.
pub(crate) fn condition_2<'s, T: Tree<S>, S: 's, W: DemangleWrite, B: Below<'s, T, S, W>>(
    below: B,
    tree: T,
    ctx: &Context<'s, '_, T, S, W>,
) -> bool
    ensures { Holds (B.at below).refers (page T.tree T.table W.seen ctx.now) (T.tree tree) condition_2_is result }
{
    if is_word(below, tree, 0, 0, 0) {
        true
    } else {
        condition_3(below, tree, ctx)
    }
}

/// Steps that a condition chooses.
pub(crate) fn choice_14<'s, T: Tree<S>, S: 's, W: DemangleWrite, B: Below<'s, T, S, W>>(
    below: B,
    tree: T,
    scope: Option<&Scope<'_, T>>,
    ctx: &mut Context<'s, '_, T, S, W>,
)
    requires { B.can below }
    ensures { Chooses (B.at below) (page T.tree T.table W.seen ctx.old) (page T.tree T.table W.seen ctx.new) (T.tree
        tree) (lent_scope T.tree scope.entry) choice_14_if choice_14_yes choice_14_no }
{
    if condition_2(below, tree, ctx) {
        ctx.space();
    }
}

/// Steps that a condition chooses.
pub(crate) fn choice_15<'s, T: Tree<S>, S: 's, W: DemangleWrite, B: Below<'s, T, S, W>>(
    below: B,
    tree: T,
    scope: Option<&Scope<'_, T>>,
    ctx: &mut Context<'s, '_, T, S, W>,
)
    requires { B.can below }
    ensures { Chooses (B.at below) (page T.tree T.table W.seen ctx.old) (page T.tree T.table W.seen ctx.new) (T.tree
        tree) (lent_scope T.tree scope.entry) choice_15_if choice_15_yes choice_15_no }
{
    if is_there(below, tree, 0) {
        inner_leaf(below, tree, 0, 0, scope, ctx);
    } else {
        leaf(below, scope, ctx);
    }
}
