//! Parts of a node by their lines, and lists.

ghost use Rattle.std.specs.Prelude.{◌∷◌, [], Some, option_map};
ghost use Rattle.demangle_printing.specs.Reader.{is_bare, operand_in, place_of};
ghost use Rattle.demangle_printing.specs.Rules.{line_of, lines_of, members_of};
ghost use Rattle.demangle_printing.specs.Scope.{in_member};
ghost use Rattle.demangle_printing.specs.Trees.{began_at};
ghost use Rattle.demangle_printing.specs.World.{find, listed, nth};
ghost use Rattle.demangle_meets.specs.Meets.{Meets};
ghost use Rattle.demangle_meets.specs.Place.{world_of};
ghost use Rattle.demangle_context.specs.PageOf.{page};
ghost use Rattle.demangle_lines.specs.ScopeOf.{lent_scope};

use crate::at::{count_of, entry_of, part_at, part_of_part, part_of_parts, printed_at};
use crate::below::Below;
use crate::scope::{Scope, member};
use crate::tests::is_bare;
use crate::tree::Tree;
use demangle_context::{Context, DemangleWrite};

/// The line of what is printed for a tree.
#[inline(always)]
pub fn itself<'s, T: Tree<S>, S: 's, W: DemangleWrite, B: Below<'s, T, S, W>>(
    below: B,
    tree: T,
    scope: Option<&Scope<'_, T>>,
    ctx: &mut Context<'s, '_, T, S, W>,
)
    requires { B.can below }
    ensures { Meets (B.at below) (page T.tree T.table W.seen ctx.old) (page T.tree T.table W.seen ctx.new) (line_of
        (world_of (B.at below).refers) (Some (T.tree tree)) (lent_scope T.tree scope.entry)) }
{
    match printed_at(below, tree) {
        None => {}
        Some(shown) => below.line(shown, scope, ctx),
    }
}

/// The line of what is printed for a tree, where there is one.
#[inline(always)]
pub fn line_of<'s, T: Tree<S>, S: 's, W: DemangleWrite, B: Below<'s, T, S, W>>(
    below: B,
    found: Option<T>,
    scope: Option<&Scope<'_, T>>,
    ctx: &mut Context<'s, '_, T, S, W>,
)
    requires { B.can below }
    ensures { Meets (B.at below) (page T.tree T.table W.seen ctx.old) (page T.tree T.table W.seen ctx.new) (line_of
        (world_of (B.at below).refers) (option_map T.tree found) (lent_scope T.tree scope.entry)) }
{
    match found {
        None => {}
        Some(tree) => itself(below, tree, scope, ctx),
    }
}

/// The line of a part.
#[inline(always)]
pub fn part<'s, T: Tree<S>, S: 's, W: DemangleWrite, B: Below<'s, T, S, W>>(
    below: B,
    tree: T,
    number: usize,
    scope: Option<&Scope<'_, T>>,
    ctx: &mut Context<'s, '_, T, S, W>,
)
    requires { B.can below }
    ensures { Meets (B.at below) (page T.tree T.table W.seen ctx.old) (page T.tree T.table W.seen ctx.new) (line_of
        (world_of (B.at below).refers) (find (world_of (B.at below).refers) (Some (T.tree tree)) (number ∷ []))
        (lent_scope T.tree scope.entry)) }
{
    line_of(below, part_at(below, tree, number), scope, ctx);
}

/// The line of the first part. It is made where it is called, so that lines that pass on become one loop.
#[inline(always)]
pub fn first_part<'s, T: Tree<S>, S: 's, W: DemangleWrite, B: Below<'s, T, S, W>>(
    below: B,
    tree: T,
    scope: Option<&Scope<'_, T>>,
    ctx: &mut Context<'s, '_, T, S, W>,
)
    requires { B.can below }
    ensures { Meets (B.at below) (page T.tree T.table W.seen ctx.old) (page T.tree T.table W.seen ctx.new) (line_of
        (world_of (B.at below).refers) (find (world_of (B.at below).refers) (Some (T.tree tree)) (0 ∷ []))
        (lent_scope T.tree scope.entry)) }
{
    line_of(below, part_at(below, tree, 0), scope, ctx);
}

/// The line of a part of a part.
pub fn inner_part<'s, T: Tree<S>, S: 's, W: DemangleWrite, B: Below<'s, T, S, W>>(
    below: B,
    tree: T,
    first: usize,
    second: usize,
    scope: Option<&Scope<'_, T>>,
    ctx: &mut Context<'s, '_, T, S, W>,
)
    requires { B.can below }
    ensures { Meets (B.at below) (page T.tree T.table W.seen ctx.old) (page T.tree T.table W.seen ctx.new) (line_of
        (world_of (B.at below).refers) (find (world_of (B.at below).refers) (Some (T.tree tree)) (first ∷ second ∷
        [])) (lent_scope T.tree scope.entry)) }
{
    line_of(below, part_of_part(below, tree, first, second), scope, ctx);
}

/// The line of a part of a part of a part.
pub fn innermost_part<'s, T: Tree<S>, S: 's, W: DemangleWrite, B: Below<'s, T, S, W>>(
    below: B,
    tree: T,
    first: usize,
    second: usize,
    third: usize,
    scope: Option<&Scope<'_, T>>,
    ctx: &mut Context<'s, '_, T, S, W>,
)
    requires { B.can below }
    ensures { Meets (B.at below) (page T.tree T.table W.seen ctx.old) (page T.tree T.table W.seen ctx.new) (line_of
        (world_of (B.at below).refers) (find (world_of (B.at below).refers) (Some (T.tree tree)) (first ∷ second ∷
        third ∷ [])) (lent_scope T.tree scope.entry)) }
{
    line_of(
        below,
        part_of_parts(below, tree, first, second, third),
        scope,
        ctx,
    );
}

/// An operand, in parentheses where it is no parameter and no name.
pub fn operand<'s, T: Tree<S>, S: 's, W: DemangleWrite, B: Below<'s, T, S, W>>(
    below: B,
    tree: T,
    number: usize,
    scope: Option<&Scope<'_, T>>,
    ctx: &mut Context<'s, '_, T, S, W>,
)
    requires { B.can below }
    ensures { Meets (B.at below) (page T.tree T.table W.seen ctx.old) (page T.tree T.table W.seen ctx.new) (operand_in
        (is_bare (world_of (B.at below).refers) (find (world_of (B.at below).refers) (Some (T.tree tree)) (number ∷
        []))) (line_of (world_of (B.at below).refers) (find (world_of (B.at below).refers) (Some (T.tree tree))
        (number ∷ [])) (lent_scope T.tree scope.entry))) }
{
    let found = part_at(below, tree, number);
    if is_bare(below, found) {
        line_of(below, found, scope, ctx);
    } else {
        ctx.text("(");
        line_of(below, found, scope, ctx);
        ctx.text(")");
    }
}

/// The line of a tree of a list, where there is one.
#[inline(always)]
pub fn entry<'s, T: Tree<S>, S: 's, W: DemangleWrite, B: Below<'s, T, S, W>>(
    below: B,
    list: Option<T>,
    number: usize,
    scope: Option<&Scope<'_, T>>,
    ctx: &mut Context<'s, '_, T, S, W>,
)
    requires { B.can below }
    ensures { Meets (B.at below) (page T.tree T.table W.seen ctx.old) (page T.tree T.table W.seen ctx.new) (line_of
        (world_of (B.at below).refers) (nth number (listed (world_of (B.at below).refers) (option_map T.tree list)))
        (lent_scope T.tree scope.entry)) }
{
    line_of(below, entry_of(below, list, number), scope, ctx);
}

/// The lines of a list, with commas between.
pub fn lines<'s, T: Tree<S>, S: 's, W: DemangleWrite, B: Below<'s, T, S, W>>(
    below: B,
    list: Option<T>,
    scope: Option<&Scope<'_, T>>,
    ctx: &mut Context<'s, '_, T, S, W>,
)
    requires { B.can below }
    ensures { Meets (B.at below) (page T.tree T.table W.seen ctx.old) (page T.tree T.table W.seen ctx.new) (lines_of
        (world_of (B.at below).refers) (listed (world_of (B.at below).refers) (option_map T.tree list)) (lent_scope
        T.tree scope.entry)) }
{
    let count = count_of(below, list);
    if count == 0 {
        return;
    }
    entry(below, list, 0, scope, ctx);
    for number in 1..count {
        ctx.text(", ");
        entry(below, list, number, scope, ctx);
    }
}

/// The lines of a list that is a part, with commas between.
#[inline(always)]
pub fn list<'s, T: Tree<S>, S: 's, W: DemangleWrite, B: Below<'s, T, S, W>>(
    below: B,
    tree: T,
    number: usize,
    scope: Option<&Scope<'_, T>>,
    ctx: &mut Context<'s, '_, T, S, W>,
)
    requires { B.can below }
    ensures { Meets (B.at below) (page T.tree T.table W.seen ctx.old) (page T.tree T.table W.seen ctx.new) (lines_of
        (world_of (B.at below).refers) (listed (world_of (B.at below).refers) (find (world_of (B.at below).refers)
        (Some (T.tree tree)) (number ∷ []))) (lent_scope T.tree scope.entry)) }
{
    lines(below, part_at(below, tree, number), scope, ctx);
}

/// The line of a member of a list of template arguments, in the scope of this member.
#[inline(always)]
fn argument_line<'s, T: Tree<S>, S: 's, W: DemangleWrite, B: Below<'s, T, S, W>>(
    below: B,
    tree: T,
    list: Option<T>,
    number: usize,
    scope: Option<&Scope<'_, T>>,
    ctx: &mut Context<'s, '_, T, S, W>,
)
    requires { B.can below }
    ensures { Meets (B.at below) (page T.tree T.table W.seen ctx.old) (page T.tree T.table W.seen ctx.new) (line_of
        (world_of (B.at below).refers) (nth number (listed (world_of (B.at below).refers) (option_map T.tree list)))
        (in_member number (began_at (T.tree tree)) (lent_scope T.tree scope.entry))) }
{
    let marked = member(scope, number, tree);
    entry(below, list, number, Some(&marked), ctx);
}

/// Template arguments with commas between. The scope of each says that this one is being printed.
pub fn members<'s, T: Tree<S>, S: 's, W: DemangleWrite, B: Below<'s, T, S, W>>(
    below: B,
    tree: T,
    number: usize,
    scope: Option<&Scope<'_, T>>,
    ctx: &mut Context<'s, '_, T, S, W>,
)
    requires { B.can below }
    ensures { Meets (B.at below) (page T.tree T.table W.seen ctx.old) (page T.tree T.table W.seen ctx.new) (members_of
        (world_of (B.at below).refers) (place_of (world_of (B.at below).refers) (Some (T.tree tree))) (listed
        (world_of (B.at below).refers) (find (world_of (B.at below).refers) (Some (T.tree tree)) (number ∷ [])))
        (lent_scope T.tree scope.entry)) }
{
    let list = part_at(below, tree, number);
    let count = count_of(below, list);
    if count == 0 {
        return;
    }
    argument_line(below, tree, list, 0, scope, ctx);
    for index in 1..count {
        ctx.text(", ");
        argument_line(below, tree, list, index, scope, ctx);
    }
}
