//! Names that are an identifier alone, printed where they stand: each line that is passed on the way is entered, but
//! none is chosen.

ghost use Rattle.std.specs.Prelude.{◌≡◌, ◌∷◌, [], ℕ, Some};
ghost use Rattle.demangle_core.specs.Core.{Core, Tag};
ghost use Rattle.demangle_grammar.specs.Sound.{bytes_of};
ghost use Rattle.demangle_printing.specs.Act.{call, done, line};
ghost use Rattle.demangle_printing.specs.Lines.{line_steps};
ghost use Rattle.demangle_printing.specs.Print.{body};
ghost use Rattle.demangle_printing.specs.Rules.{line_of};
ghost use Rattle.demangle_printing.specs.Scope.{Scope};
ghost use Rattle.demangle_printing.specs.World.{find};
ghost use Rattle.demangle_meets.specs.Meets.{Meets};
ghost use Rattle.demangle_meets.specs.Place.{Place, world_of};
ghost use Rattle.demangle_context.specs.PageOf.{page};
ghost use Rattle.demangle_lines.specs.Does.{Runs};
ghost use Rattle.demangle_lines.specs.Known.{IsPlainName, identifier, no_tags, source_name};
ghost use Rattle.demangle_lines.specs.ScopeOf.{lent_scope};

use crate::at::part_at;
use crate::below::Below;
use crate::parts::itself;
use crate::tree::Tree;
use crate::{bytes, scope};
use demangle_context::{Context, DemangleNodeType, DemangleWrite};

/// The line of an identifier of these bytes, its level entered.
#[inline(always)]
fn identifier_text<'s, T: Tree<S>, S: 's, W: DemangleWrite>(
    bytes: &'s [u8],
    ctx: &mut Context<'s, '_, T, S, W>,
)
    ensures { (p : Place) (i j : ℕ) (scope : Scope Core) → bytes.now ≡ bytes_of p.refers.input i j
        → Meets p (page T.tree T.table W.seen ctx.old) (page T.tree T.table W.seen ctx.new)
        (body (world_of p.refers) (line (identifier i j)) scope) }
{
    if bytes::is_anonymous(bytes) {
        ctx.text("(anonymous namespace)");
    } else {
        bytes::write_name(bytes, ctx);
    }
}

/// The line of an identifier of these bytes.
#[inline(always)]
fn identifier_line<'s, T: Tree<S>, S: 's, W: DemangleWrite, B: Below<'s, T, S, W>>(
    below: B,
    bytes: &'s [u8],
    ctx: &mut Context<'s, '_, T, S, W>,
)
    requires { B.can below }
    ensures { (i j : ℕ) (scope : Scope Core) → bytes.now ≡ bytes_of (B.at below).refers.input i j
        → Meets (B.at below) (page T.tree T.table W.seen ctx.old) (page T.tree T.table W.seen ctx.new)
        (call (line (identifier i j)) scope done) }
{
    let Some(_inner) = below.enter(ctx) else {
        return;
    };
    identifier_text(bytes, ctx);
}

/// The line of a source name of these bytes.
#[inline(always)]
fn source_line<'s, T: Tree<S>, S: 's, W: DemangleWrite, B: Below<'s, T, S, W>>(
    below: B,
    bytes: &'s [u8],
    ctx: &mut Context<'s, '_, T, S, W>,
)
    requires { B.can below }
    ensures { (i j : ℕ) (scope : Scope Core) → bytes.now ≡ bytes_of (B.at below).refers.input i j
        → Meets (B.at below) (page T.tree T.table W.seen ctx.old) (page T.tree T.table W.seen ctx.new)
        (call (line (source_name i j)) scope done) }
{
    let Some(inner) = below.enter(ctx) else {
        return;
    };
    identifier_line(inner, bytes, ctx);
}

/// The line of the tags of a name that has none: its level is entered, and nothing is printed.
#[inline(always)]
fn no_tags_line<'s, T: Tree<S>, S: 's, W: DemangleWrite, B: Below<'s, T, S, W>>(
    below: B,
    ctx: &mut Context<'s, '_, T, S, W>,
)
    requires { B.can below }
    ensures { (scope : Scope Core) → Meets (B.at below) (page T.tree T.table W.seen ctx.old)
        (page T.tree T.table W.seen ctx.new) (call (line no_tags) scope done) }
{
    let Some(_inner) = below.enter(ctx) else {
        return;
    };
}

/// The line of an unqualified name that is an identifier of these bytes, its level entered.
#[inline(always)]
fn plain_name<'s, T: Tree<S>, S: 's, W: DemangleWrite, B: Below<'s, T, S, W>>(
    below: B,
    bytes: &'s [u8],
    ctx: &mut Context<'s, '_, T, S, W>,
)
    requires { B.can below }
    ensures { (x : Core) (scope : Scope Core) → IsPlainName (B.at below).refers.input x bytes.now
        → Runs (B.at below) (page T.tree T.table W.seen ctx.old) (page T.tree T.table W.seen ctx.new) x scope
        (line_steps Tag.UnqualifiedNameSource) }
{
    let told = ctx.begin_node(DemangleNodeType::UnqualifiedName);
    source_line(below, bytes, ctx);
    no_tags_line(below, ctx);
    ctx.end_node(told);
}

/// The line of an unqualified name that is an identifier of these bytes.
#[inline(always)]
fn plain_line<'s, T: Tree<S>, S: 's, W: DemangleWrite, B: Below<'s, T, S, W>>(
    below: B,
    bytes: &'s [u8],
    ctx: &mut Context<'s, '_, T, S, W>,
)
    requires { B.can below }
    ensures { (x : Core) (scope : Scope Core) → IsPlainName (B.at below).refers.input x bytes.now
        → Meets (B.at below) (page T.tree T.table W.seen ctx.old) (page T.tree T.table W.seen ctx.new)
        (call (line x) scope done) }
{
    let Some(inner) = below.enter(ctx) else {
        return;
    };
    plain_name(inner, bytes, ctx);
}

/// The line of a part that often is an unqualified name of an identifier alone.
#[inline(always)]
pub fn name_part<'s, T: Tree<S>, S: 's, W: DemangleWrite, B: Below<'s, T, S, W>>(
    below: B,
    tree: T,
    number: usize,
    scope: Option<&scope::Scope<'_, T>>,
    ctx: &mut Context<'s, '_, T, S, W>,
)
    requires { B.can below }
    ensures { Meets (B.at below) (page T.tree T.table W.seen ctx.old) (page T.tree T.table W.seen ctx.new) (line_of
        (world_of (B.at below).refers) (find (world_of (B.at below).refers) (Some (T.tree tree)) (number ∷ []))
        (lent_scope T.tree scope.entry)) }
{
    let Some(found) = part_at(below, tree, number) else {
        return;
    };
    match found.plain_name(below.input()) {
        Some(bytes) => plain_line(below, bytes, ctx),
        None => itself(below, found, scope, ctx),
    }
}
