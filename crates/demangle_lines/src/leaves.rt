//! Leaf names, and template arguments in scope.

ghost use Rattle.std.specs.Prelude.{◌∷◌, [], Some, Ok, option_map};
ghost use Rattle.demangle_printing.specs.Act.{call, done, line};
ghost use Rattle.demangle_printing.specs.Reader.{argument_act, found_leaf, index_seen, need_leaf};
ghost use Rattle.demangle_printing.specs.Rules.{leaf_act, leaf_name_of};
ghost use Rattle.demangle_printing.specs.Scope.{scope_argument, scope_leaf};
ghost use Rattle.demangle_printing.specs.World.{find, see};
ghost use Rattle.demangle_meets.specs.Meets.{Meets};
ghost use Rattle.demangle_meets.specs.Place.{world_of};
ghost use Rattle.demangle_context.specs.PageOf.{page};
ghost use Rattle.demangle_lines.specs.ScopeOf.{lent_scope};

use crate::at::{index_of, part_at, part_of_part, shape_at};
use crate::below::Below;
use crate::lookups::{argument_in, leaf_in};
use crate::parts::itself;
use crate::scope::{Scope, empty};
use crate::scopes::leaf_name_of;
use crate::tags;
use crate::tests::is_tag;
use crate::tree::{Shape, Tree};
use demangle_context::{Context, DemangleWrite, PrintFault};

/// The line of a tree with nothing in scope.
fn alone<'s, T: Tree<S>, S: 's, W: DemangleWrite, B: Below<'s, T, S, W>>(
    below: B,
    tree: T,
    scope: Option<&Scope<'_, T>>,
    ctx: &mut Context<'s, '_, T, S, W>,
)
    requires { B.can below }
    ensures { Meets (B.at below) (page T.tree T.table W.seen ctx.old) (page T.tree T.table W.seen ctx.new) (call (line
        (T.tree tree)) [] done) }
{
    let nothing = empty(scope, tree);
    below.line(tree, Some(&nothing), ctx);
}

/// A leaf name: a source name and a closure by their lines, with nothing in scope.
fn leaf_line<'s, T: Tree<S>, S: 's, W: DemangleWrite, B: Below<'s, T, S, W>>(
    below: B,
    tree: T,
    scope: Option<&Scope<'_, T>>,
    ctx: &mut Context<'s, '_, T, S, W>,
)
    requires { B.can below }
    ensures { Meets (B.at below) (page T.tree T.table W.seen ctx.old) (page T.tree T.table W.seen ctx.new) (leaf_act
        (world_of (B.at below).refers) (Ok (T.tree tree))) }
{
    let shape = shape_at(below, tree);
    if is_tag(shape, tags::SOURCE_NAME) {
        alone(below, tree, scope, ctx);
        return;
    }
    if is_tag(shape, tags::CLOSURE_TYPE_NAME) {
        alone(below, tree, scope, ctx);
        return;
    }
    if is_tag(shape, tags::UNNAMED_TYPE_NAME) {
        below.unnamed_leaf(tree, ctx);
        return;
    }
    match shape {
        Shape::Word(_, _) => ctx.text(tree.leaf_text()),
        _ => {}
    }
}

/// That a leaf name is in scope: a fault where none is.
pub fn need_leaf<'s, T: Tree<S>, S: 's, W: DemangleWrite, B: Below<'s, T, S, W>>(
    below: B,
    scope: Option<&Scope<'_, T>>,
    ctx: &mut Context<'s, '_, T, S, W>,
)
    ensures { Meets (B.at below) (page T.tree T.table W.seen ctx.old) (page T.tree T.table W.seen ctx.new) (need_leaf
        (world_of (B.at below).refers) (scope_leaf (lent_scope T.tree scope.entry))) }
{
    match leaf_in(scope) {
        None => ctx.fail(PrintFault::BadLeafNameReference),
        Some(_) => {}
    }
}

/// The leaf name that was found: a fault where none was.
fn leaf_found<'s, T: Tree<S>, S: 's, W: DemangleWrite, B: Below<'s, T, S, W>>(
    below: B,
    found: Option<T>,
    scope: Option<&Scope<'_, T>>,
    ctx: &mut Context<'s, '_, T, S, W>,
)
    requires { B.can below }
    ensures { Meets (B.at below) (page T.tree T.table W.seen ctx.old) (page T.tree T.table W.seen ctx.new) (leaf_act
        (world_of (B.at below).refers) (found_leaf (world_of (B.at below).refers) (option_map T.tree found))) }
{
    match found {
        None => ctx.fail(PrintFault::BadLeafNameReference),
        Some(tree) => leaf_line(below, tree, scope, ctx),
    }
}

/// The leaf name in scope.
pub fn leaf<'s, T: Tree<S>, S: 's, W: DemangleWrite, B: Below<'s, T, S, W>>(
    below: B,
    scope: Option<&Scope<'_, T>>,
    ctx: &mut Context<'s, '_, T, S, W>,
)
    requires { B.can below }
    ensures { Meets (B.at below) (page T.tree T.table W.seen ctx.old) (page T.tree T.table W.seen ctx.new) (leaf_act
        (world_of (B.at below).refers) (scope_leaf (lent_scope T.tree scope.entry))) }
{
    leaf_found(below, leaf_in(scope), scope, ctx);
}

/// The leaf name of a part of a part.
pub fn inner_leaf<'s, T: Tree<S>, S: 's, W: DemangleWrite, B: Below<'s, T, S, W>>(
    below: B,
    tree: T,
    first: usize,
    second: usize,
    scope: Option<&Scope<'_, T>>,
    ctx: &mut Context<'s, '_, T, S, W>,
)
    requires { B.can below }
    ensures { Meets (B.at below) (page T.tree T.table W.seen ctx.old) (page T.tree T.table W.seen ctx.new) (leaf_act
        (world_of (B.at below).refers) (found_leaf (world_of (B.at below).refers) (leaf_name_of (world_of (B.at
        below).refers) (find (world_of (B.at below).refers) (Some (T.tree tree)) (first ∷ second ∷ []))))) }
{
    let named = part_of_part(below, tree, first, second);
    leaf_found(below, leaf_name_of(below, named), scope, ctx);
}

/// The template argument of the number that a part is.
pub fn argument<'s, T: Tree<S>, S: 's, W: DemangleWrite, B: Below<'s, T, S, W>>(
    below: B,
    tree: T,
    number: usize,
    scope: Option<&Scope<'_, T>>,
    ctx: &mut Context<'s, '_, T, S, W>,
)
    requires { B.can below }
    ensures { Meets (B.at below) (page T.tree T.table W.seen ctx.old) (page T.tree T.table W.seen ctx.new) (argument_act
        (world_of (B.at below).refers) (scope_argument (world_of (B.at below).refers) (lent_scope T.tree scope.entry)
        (index_seen (see (world_of (B.at below).refers) (find (world_of (B.at below).refers) (Some (T.tree tree))
        (number ∷ []))))) (lent_scope T.tree scope.entry)) }
{
    let index = index_of(below, part_at(below, tree, number));
    match argument_in(scope, index, below.subs()) {
        Ok(found) => itself(below, found, scope, ctx),
        Err(fault) => ctx.fail(fault),
    }
}
