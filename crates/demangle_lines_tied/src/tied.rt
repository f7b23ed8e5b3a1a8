//! What lies below a line, made of three functions.

ghost use Rattle.demangle_meets.specs.Meets.{Inner};
ghost use Rattle.demangle_lines_tied.specs.MayPrint.{MayPrint, PrintsLeaf, PrintsLine};
ghost use Rattle.demangle_lines_tied.specs.PlaceOf.{place_of};

use crate::depth::{Depth, deeper};
use crate::nothing::no_scope;
use demangle_context::{Context, DemangleWrite};
use demangle_lines::{Below, Scope, Tree};

/// Functions for the lines through which recursion goes, and the place at which they are called. They are passed by
/// name, so that they may be called by lines of other crates, and under `FnOnce`, since they are copied with it: there
/// is one way then to call each, where `Fn` has three, each of which would be a member of that recursion.
#[derive_where(Clone, Copy; PrintLine: Copy, PrintLeaf: Copy, PrintBehind: Copy)]
pub(crate) struct Tied<'d, 's, S, PrintLine, PrintLeaf, PrintBehind> {
    pub depth: Depth<'d, 's, S>,
    pub line: PrintLine,
    pub leaf: PrintLeaf,
    pub behind: PrintBehind,
}

impl<'d, 's, T, S, W, PrintLine, PrintLeaf, PrintBehind> Below<'s, T, S, W>
    for Tied<'d, 's, S, PrintLine, PrintLeaf, PrintBehind>
where
    T: Tree<S>,
    S: 's,
    W: DemangleWrite,
    PrintLine: for<'a, 'e, 'prev, 'w> FnOnce(
        T,
        Option<&'a Scope<'prev, T>>,
        &mut Context<'s, 'w, T, S, W>,
        Depth<'e, 's, S>,
    )
        + Copy,
    PrintLeaf: for<'a, 'e, 'prev, 'w> FnOnce(
        T,
        Option<&'a Scope<'prev, T>>,
        &mut Context<'s, 'w, T, S, W>,
        Depth<'e, 's, S>,
    )
        + Copy,
    PrintBehind: for<'a, 'e, 'prev, 'w> FnOnce(
        T,
        Option<&'a Scope<'prev, T>>,
        &mut Context<'s, 'w, T, S, W>,
        Depth<'e, 's, S>,
    )
        + Copy,
{
    ghost at = { λ s. place_of T.table s.depth };

    ghost can = { λ s.
        MayPrint T.tree T.table W.seen PrintsLine (PrintLine.pre s.line) (PrintLine.post s.line)
        (place_of T.table s.depth).left
        × MayPrint T.tree T.table W.seen PrintsLeaf (PrintLeaf.pre s.leaf) (PrintLeaf.post s.leaf)
        (place_of T.table s.depth).left
        × MayPrint T.tree T.table W.seen Inner (PrintBehind.pre s.behind) (PrintBehind.post s.behind)
        (place_of T.table s.depth).left };

    fn level(self) -> u32 {
        self.depth.level
    }

    fn subs(self) -> &'s S {
        self.depth.sources.subs
    }

    fn input(self) -> &'s [u8] {
        self.depth.sources.input
    }

    fn enter(
        self,
        ctx: &mut Context<'s, '_, T, S, W>,
    ) -> Option<Tied<'d, 's, S, PrintLine, PrintLeaf, PrintBehind>> {
        match deeper(self.depth, ctx) {
            None => None,
            Some(depth) => Some(Tied {
                depth,
                line: self.line,
                leaf: self.leaf,
                behind: self.behind,
            }),
        }
    }

    fn line(self, tree: T, scope: Option<&Scope<'_, T>>, ctx: &mut Context<'s, '_, T, S, W>) {
        (self.line)(tree, scope, ctx, self.depth);
    }

    fn unnamed_leaf(self, tree: T, ctx: &mut Context<'s, '_, T, S, W>) {
        (self.leaf)(tree, no_scope(), ctx, self.depth);
    }

    fn behind(self, item: T, scope: Option<&Scope<'_, T>>, ctx: &mut Context<'s, '_, T, S, W>) {
        (self.behind)(item, scope, ctx, self.depth);
    }
}
