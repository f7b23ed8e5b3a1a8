//! The parameters of a function, and what of its type stands around them.

ghost use Rattle.std.specs.Prelude.{◌≡◌, ◌∷◌, [], Some, drop, length, option_map};
ghost use Rattle.demangle_core.specs.Core.{Tag};
ghost use Rattle.demangle_printing.specs.Act as job;
ghost use Rattle.demangle_printing.specs.Act.{call, done};
ghost use Rattle.demangle_printing.specs.Parameters.{explicit_object, is_kept, is_void, parameters_act};
ghost use Rattle.demangle_printing.specs.Parameters.{parameters_end};
ghost use Rattle.demangle_printing.specs.Print.{body};
ghost use Rattle.demangle_core.specs.Lookups.{as_prefix};
ghost use Rattle.demangle_printing.specs.Rules.{args_of, inside_node, inside_of, lines_of};
ghost use Rattle.demangle_printing.specs.World.{find, listed};
ghost use Rattle.demangle_meets.specs.Meets.{Meets, Sifts};
ghost use Rattle.demangle_meets.specs.Place.{Place, world_of};
ghost use Rattle.demangle_context.specs.PageOf.{page};
ghost use Rattle.demangle_lines.specs.ScopeOf.{lent_scope};

use crate::kinds::is_kept;
use crate::parentheses::{closing, opening, wanted};
use demangle_context::{Context, DemangleWrite, PrintFlag, RefersTo};
use demangle_lines::{
    Below, Scope, Tree, all_waiting, count_of, entry, entry_of, found_arguments, is_inner_word,
    part_at, part_of_part, prefix_arguments_at,
};

/// Goes through all items that wait, from the top: keeps those that stand behind the parameters, and prints what of
/// each other one stands behind.
fn sift<'s, T: Tree<S>, S: 's, W: DemangleWrite, B: Below<'s, T, S, W>>(
    below: B,
    scope: Option<&Scope<'_, T>>,
    ctx: &mut Context<'s, '_, T, S, W>,
)
    requires { B.can below }
    ensures { Sifts (B.at below) (page T.tree T.table W.seen ctx.old) (page T.tree T.table W.seen ctx.new) (is_kept
        (world_of (B.at below).refers)) (inside_of (world_of (B.at below).refers) (lent_scope T.tree scope.entry))
        (length (page T.tree T.table W.seen ctx.old).inner) }
{
    for _turn in 0..ctx.waiting() {
        let Some(item) = ctx.item(0) else {
            return;
        };
        if is_kept(below, item) {
            ctx.keep();
            continue;
        }
        ctx.pop();
        below.behind(item, scope, ctx);
    }
}

/// Types from one on, with commas between.
fn types_from<'s, T: Tree<S>, S: 's, W: DemangleWrite, B: Below<'s, T, S, W>>(
    below: B,
    list: Option<T>,
    from: u8,
    scope: Option<&Scope<'_, T>>,
    ctx: &mut Context<'s, '_, T, S, W>,
)
    requires { B.can below }
    ensures { Meets (B.at below) (page T.tree T.table W.seen ctx.old) (page T.tree T.table W.seen ctx.new) (lines_of
        (world_of (B.at below).refers) (drop from (listed (world_of (B.at below).refers) (option_map T.tree list)))
        (lent_scope T.tree scope.entry)) }
{
    let first = from as usize;
    let count = count_of(below, list);
    if count <= first {
        return;
    }
    entry(below, list, first, scope, ctx);
    for number in first + 1..count {
        ctx.text(", ");
        entry(below, list, number, scope, ctx);
    }
}

/// Whether the types from one on are `void` alone.
fn is_void<'s, T: Tree<S>, S: 's, W: DemangleWrite, B: Below<'s, T, S, W>>(
    below: B,
    list: Option<T>,
    from: u8,
) -> bool
    ensures { result ≡ is_void (world_of (B.at below).refers) (drop from (listed (world_of (B.at below).refers)
        (option_map T.tree list))) }
{
    if count_of(below, list) != from as usize + 1 {
        return false;
    }
    match entry_of(below, list, from as usize) {
        None => false,
        Some(tree) => is_inner_word(below, tree, 1, 0, 0, 0),
    }
}

/// `this` before the first parameter, where it is an explicit object parameter.
fn explicit_object<'s, T: RefersTo<S>, S: 's, W: DemangleWrite>(ctx: &mut Context<'s, '_, T, S, W>)
    ensures { (p : Place) → Meets p (page T.tree T.table W.seen ctx.old) (page T.tree T.table W.seen ctx.new)
        (explicit_object (world_of p.refers) (page T.tree T.table W.seen ctx.old).flags.object) }
{
    if ctx.is_on(PrintFlag::Object) {
        ctx.text("this ");
        ctx.turn(PrintFlag::Object, false);
    }
}

/// The list of parameters, the closing parenthesis, and the items that were kept.
fn list_of_parameters<'s, T: Tree<S>, S: 's, W: DemangleWrite, B: Below<'s, T, S, W>>(
    below: B,
    list: Option<T>,
    from: u8,
    scope: Option<&Scope<'_, T>>,
    ctx: &mut Context<'s, '_, T, S, W>,
)
    requires { B.can below }
    ensures { Meets (B.at below) (page T.tree T.table W.seen ctx.old) (page T.tree T.table W.seen ctx.new) (parameters_end
        (world_of (B.at below).refers) (is_void (world_of (B.at below).refers) (drop from (listed (world_of (B.at
        below).refers) (option_map T.tree list)))) (drop from (listed (world_of (B.at below).refers) (option_map
        T.tree list))) (lent_scope T.tree scope.entry)) }
{
    if is_void(below, list, from) {
        ctx.text(")");
        return;
    }
    explicit_object(ctx);
    let items = ctx.fence();
    types_from(below, list, from, scope, ctx);
    ctx.unfence(items);
    ctx.text(")");
    all_waiting(below, scope, ctx);
}

/// The parameters of a function behind what stands between them and its result, their level entered.
fn parameters_steps<'s, T: Tree<S>, S: 's, W: DemangleWrite, B: Below<'s, T, S, W>>(
    below: B,
    list: Option<T>,
    from: u8,
    scope: Option<&Scope<'_, T>>,
    ctx: &mut Context<'s, '_, T, S, W>,
)
    requires { B.can below }
    ensures { Meets (B.at below) (page T.tree T.table W.seen ctx.old) (page T.tree T.table W.seen ctx.new) (parameters_act
        (world_of (B.at below).refers) (drop from (listed (world_of (B.at below).refers) (option_map T.tree list)))
        (lent_scope T.tree scope.entry)) }
{
    let parentheses = wanted(below, ctx);
    opening(parentheses, ctx);
    let before = ctx.kept();
    sift(below, scope, ctx);
    ctx.unkeep(before);
    closing(parentheses, ctx);
    ctx.text("(");
    list_of_parameters(below, list, from, scope, ctx);
}

/// The parameters of a function of these types from one on.
fn parameters<'s, T: Tree<S>, S: 's, W: DemangleWrite, B: Below<'s, T, S, W>>(
    below: B,
    list: Option<T>,
    from: u8,
    scope: Option<&Scope<'_, T>>,
    ctx: &mut Context<'s, '_, T, S, W>,
)
    requires { B.can below }
    ensures { Meets (B.at below) (page T.tree T.table W.seen ctx.old) (page T.tree T.table W.seen ctx.new) (call
        (job.parameters (drop from (listed (world_of (B.at below).refers) (option_map T.tree list)))) (lent_scope
        T.tree scope.entry) done) }
{
    let Some(below) = below.enter(ctx) else {
        return;
    };
    parameters_steps(below, list, from, scope, ctx);
}

/// The parameters of a function whose types are a part, from one on.
pub(crate) fn parameters_behind<'s, T: Tree<S>, S: 's, W: DemangleWrite, B: Below<'s, T, S, W>>(
    below: B,
    tree: T,
    number: usize,
    from: u8,
    scope: Option<&Scope<'_, T>>,
    ctx: &mut Context<'s, '_, T, S, W>,
)
    requires { B.can below }
    ensures { Meets (B.at below) (page T.tree T.table W.seen ctx.old) (page T.tree T.table W.seen ctx.new) (call
        (job.parameters (drop from (listed (world_of (B.at below).refers) (find (world_of (B.at below).refers) (Some
        (T.tree tree)) (number ∷ []))))) (lent_scope T.tree scope.entry) done) }
{
    parameters(below, part_at(below, tree, number), from, scope, ctx);
}

/// The template arguments of the name of a function.
fn name_arguments<'s, T: Tree<S>, S: 's, W: DemangleWrite, B: Below<'s, T, S, W>>(
    below: B,
    tree: T,
) -> Option<T>
    ensures { option_map T.tree result ≡ args_of (world_of (B.at below).refers) as_prefix (find (world_of (B.at
        below).refers) (Some (T.tree tree)) (0 ∷ [])) }
{
    match part_at(below, tree, 0) {
        None => None,
        Some(name) => prefix_arguments_at(below, name),
    }
}

/// What of a function stands behind its name, its level entered: its parameters, where template arguments of its name
/// are in scope and the first type, its result, is left out.
pub fn function_inside<'s, T: Tree<S>, S: 's, W: DemangleWrite, B: Below<'s, T, S, W>>(
    below: B,
    tree: T,
    scope: Option<&Scope<'_, T>>,
    ctx: &mut Context<'s, '_, T, S, W>,
)
    requires { B.can below }
    ensures { Meets (B.at below) (page T.tree T.table W.seen ctx.old) (page T.tree T.table W.seen ctx.new) (body (world_of
        (B.at below).refers) (inside_node (world_of (B.at below).refers) (T.tree tree) (lent_scope T.tree scope.entry)
        Tag.EncodingFunction).0 (inside_node (world_of (B.at below).refers) (T.tree tree) (lent_scope T.tree
        scope.entry) Tag.EncodingFunction).1) }
{
    let types = part_of_part(below, tree, 1, 0);
    match name_arguments(below, tree) {
        None => parameters_steps(below, types, 0, scope, ctx),
        Some(arguments) => {
            let inner = found_arguments(scope, Some(arguments), tree);
            parameters_steps(below, types, 1, Some(&inner), ctx);
        }
    }
}
