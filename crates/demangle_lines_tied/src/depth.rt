//! Where a line is printed.

ghost use Rattle.std.specs.Prelude.{◌≡◌, ◌<◌, ◌≤◌, ◌+◌, MatchOption};
ghost use Rattle.demangle_meets.specs.Calls.{Enters, Stops};
ghost use Rattle.demangle_context.specs.PageOf.{page};
ghost use Rattle.demangle_lines_tied.specs.PlaceOf.{place_of};

use demangle_context::{Context, DemangleWrite, PrintFault, RefersTo};

/// The table and the input to which the trees of a printing refer, and the deepest level.
#[derive_where(Clone, Copy)]
pub struct Sources<'s, S> {
    pub subs: &'s S,
    pub input: &'s [u8],
    pub deepest: u32,
}

/// Those, and the level, by value: a line enters a level, and none gives one back. It is so small that it is passed in
/// two registers.
#[derive_where(Clone, Copy)]
pub struct Depth<'d, 's, S> {
    pub sources: &'d Sources<'s, S>,
    pub level: u32,
}

/// The next level, where it isn't past the deepest one.
#[inline(always)]
fn next_level(level: u32, deepest: u32) -> Option<u32>
    ensures { MatchOption result (deepest ≤ level) (λ next. (level < deepest) × (next ≡ level + 1)) }
{
    if level < deepest {
        Some(level + 1)
    } else {
        None
    }
}

/// One level deeper. Where none is left printing stops; `None` then, and where it had stopped.
#[inline(always)]
pub(crate) fn deeper<'d, 's, T: RefersTo<S>, S, W: DemangleWrite>(
    depth: Depth<'d, 's, S>,
    ctx: &mut Context<'s, '_, T, S, W>,
) -> Option<Depth<'d, 's, S>>
    ensures { MatchOption result
        (Stops (place_of T.table depth.entry) (page T.tree T.table W.seen ctx.old) (page T.tree T.table W.seen ctx.new))
        (λ d. Enters (place_of T.table depth.entry) (place_of T.table d) (page T.tree T.table W.seen ctx.old)
        (page T.tree T.table W.seen ctx.new)) }
{
    if !ctx.is_stopped() {
        if let Some(level) = next_level(depth.level, depth.sources.deepest) {
            return Some(Depth {
                sources: depth.sources,
                level,
            });
        }
    }
    ctx.fail(PrintFault::TooMuchRecursion);
    None
}
