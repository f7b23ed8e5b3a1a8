//! Where printing begins: at the level of a context.

ghost use Rattle.std.specs.Prelude.{◌≡◌, ◌-◌};
ghost use Rattle.demangle_context.specs.PageOf.{page};
ghost use Rattle.demangle_lines_print.specs.Demangled.{Begun};
ghost use Rattle.demangle_lines_tied.specs.PlaceOf.{place_of, refers_of};

use demangle_context::{Context, DemangleWrite};
use demangle_lines::Tree;
use demangle_lines_tied::{Depth, Sources};
use demangle_printing::prints_declared;

/// What the trees of a context refer to, and the deepest level.
pub(crate) fn sources_of<'s, T: Tree<S>, S: 's, W: DemangleWrite>(
    ctx: &Context<'s, '_, T, S, W>,
) -> Sources<'s, S>
    ensures refers { refers_of T.table result ≡ (page T.tree T.table W.seen ctx.now).fixed.refers }
    ensures deepest { result.deepest ≡ (page T.tree T.table W.seen ctx.now).fixed.limit - 1 }
{
    Sources {
        subs: ctx.subs(),
        input: ctx.input(),
        deepest: ctx.recursion_limit().saturating_sub(1),
    }
}

/// Begins to print at the level of a context, and forgets an earlier trouble.
pub(crate) fn begin<'d, 's, T: Tree<S>, S: 's, W: DemangleWrite>(
    sources: &'d Sources<'s, S>,
    ctx: &mut Context<'s, '_, T, S, W>,
) -> Depth<'d, 's, S>
    requires refers { refers_of T.table sources.now ≡ (page T.tree T.table W.seen ctx.old).fixed.refers }
    requires deepest { sources.now.deepest ≡ (page T.tree T.table W.seen ctx.old).fixed.limit - 1 }
    ensures { Begun (page T.tree T.table W.seen ctx.old) (page T.tree T.table W.seen ctx.new)
        (place_of T.table result) }
{
    // For the contract: the law on declarators.
    prints_declared();
    ctx.start();
    Depth {
        sources,
        level: ctx.recursion_level(),
    }
}
