//! Printing of a tree within a context.

ghost use Rattle.std.specs.Prelude.{[]};
ghost use Rattle.demangle_printing.specs.Act.{line};
ghost use Rattle.demangle_meets.specs.Meets.{Prints, deeper};
ghost use Rattle.demangle_context.specs.PageOf.{page};
ghost use Rattle.demangle_lines.specs.ScopeOf.{lent_scope};
ghost use Rattle.demangle_lines_print.specs.Demangled.{Answers, Demangled, DemangledInner, state};
ghost use Rattle.demangle_lines_tied.specs.PlaceOf.{place_in, place_of};

use crate::begin::{begin, sources_of};
use demangle_context::{Context, DemangleError, DemangleWrite};
use demangle_lines::{Scope, Tree};
use demangle_lines_tied::{Depth, no_scope, print_behind, print_line};

/// The line of what is printed for a tree.
fn print_shown<'d, 's, T: Tree<S>, S: 's, W: DemangleWrite>(
    tree: T,
    scope: Option<&Scope<'_, T>>,
    ctx: &mut Context<'s, '_, T, S, W>,
    depth: Depth<'d, 's, S>,
)
    ensures { Prints (place_of T.table depth.entry) (page T.tree T.table W.seen ctx.old)
        (page T.tree T.table W.seen ctx.new) (T.tree tree) (lent_scope T.tree scope.entry) }
{
    match tree.printed(depth.sources.subs) {
        None => {}
        Some(shown) => print_line(shown, scope, ctx, depth),
    }
}

/// The line of what is printed for a tree: for an optional part, a handle or a component, of what it holds or refers
/// to; for any other node, of itself.
///
/// `Reference` comes where a template parameter or a leaf name refers to nothing, `TooMuchRecursion` where no level
/// is left, `NotUtf8` where bytes of the input are no text, `TooLong` where the text is longer than the options
/// allow, all exactly as the printing table says. `Sink` comes only where the listener's count of faults rose.
/// `OutOfMemory` comes only where its count of refusals rose, for limits up to 65,536, where no two items have one
/// level, as in a context without items. After an error the listener was told the events before it, and then that
/// nodes end, no more than stood open.
pub fn print_tree<'s, T: Tree<S>, S: 's, W: DemangleWrite>(
    tree: T,
    scope: Option<&Scope<'_, T>>,
    ctx: &mut Context<'s, '_, T, S, W>,
) -> Result<(), DemangleError>
    ensures { Demangled (page T.tree T.table W.seen ctx.old) (page T.tree T.table W.seen ctx.new) (T.tree tree)
        (lent_scope T.tree scope.entry) result }
{
    let sources = sources_of(ctx);
    let depth = begin(&sources, ctx);
    print_shown(tree, scope, ctx, depth);
    ctx.answer()
}

/// What of a tree stands behind what is printed next. The errors are those of `print_tree`.
pub fn print_inner<'s, T: Tree<S>, S: 's, W: DemangleWrite>(
    tree: T,
    scope: Option<&Scope<'_, T>>,
    ctx: &mut Context<'s, '_, T, S, W>,
) -> Result<(), DemangleError>
    ensures { DemangledInner (page T.tree T.table W.seen ctx.old) (page T.tree T.table W.seen ctx.new)
        (T.tree tree) (lent_scope T.tree scope.entry) result }
{
    let sources = sources_of(ctx);
    let depth = begin(&sources, ctx);
    print_behind(tree, scope, ctx, depth);
    ctx.answer()
}

/// The line of a tree itself, which is what is printed for it where it is neither an optional part nor a handle nor a
/// component. The errors are those of `print_tree`.
pub(crate) fn print_itself<'s, T: Tree<S>, S: 's, W: DemangleWrite>(
    tree: T,
    ctx: &mut Context<'s, '_, T, S, W>,
) -> Result<(), DemangleError>
    ensures { Answers (page T.tree T.table W.seen ctx.old) (page T.tree T.table W.seen ctx.new)
        (deeper (place_in (page T.tree T.table W.seen ctx.old).fixed) (line (T.tree tree)) []
        (state (page T.tree T.table W.seen ctx.old))) result }
{
    let sources = sources_of(ctx);
    let depth = begin(&sources, ctx);
    print_line(tree, no_scope(), ctx, depth);
    ctx.answer()
}
