//! What lies below a line.

ghost use Rattle.std.specs.Prelude.{◌≡◌, [], MatchOption};
ghost use Rattle.demangle_printing.specs.Act.{call, done, leaf, line};
ghost use Rattle.demangle_meets.specs.Calls.{Enters, Stops};
ghost use Rattle.demangle_meets.specs.Meets.{Inner, Meets};
ghost use Rattle.demangle_meets.specs.Place.{Place};
ghost use Rattle.demangle_context.specs.PageOf.{page};
ghost use Rattle.demangle_lines.specs.ScopeOf.{lent_scope};

use crate::scope::Scope;
use crate::tree::Tree;
use demangle_context::{Context, DemangleWrite};

/// The lines through which all recursion goes, at a place: that of a tree, an unnamed type
/// as a leaf name, and what of an item stands behind. All that
/// a line calls besides is called by name.
pub trait Below<'s, T: Tree<S>, S: 's, W: DemangleWrite>: Copy {
    ghost at: { Self → Place };
    /// The lines may be called.
    ghost can: { Self → Type 0 };

    /// The level.
    fn level(self) -> u32
        ensures { result ≡ (at self).level };

    /// The table to which the trees refer.
    fn subs(self) -> &'s S
        ensures { T.table result.now ≡ (at self).refers.table };

    /// The mangled name.
    fn input(self) -> &'s [u8]
        ensures { result.now ≡ (at self).refers.input };

    /// One level deeper. Where none is left printing stops; `None` then, and where it had stopped.
    fn enter(self, ctx: &mut Context<'s, '_, T, S, W>) -> Option<Self>
        requires { can self }
        ensures { MatchOption result
            (Stops (at self) (page T.tree T.table W.seen ctx.old) (page T.tree T.table W.seen ctx.new))
            (λ deeper. Enters (at self) (at deeper) (page T.tree T.table W.seen ctx.old)
            (page T.tree T.table W.seen ctx.new) × can deeper) };

    /// The line of a tree.
    fn line(self, tree: T, scope: Option<&Scope<'_, T>>, ctx: &mut Context<'s, '_, T, S, W>)
        requires { can self }
        ensures { Meets (at self) (page T.tree T.table W.seen ctx.old) (page T.tree T.table W.seen ctx.new)
            (call (line (T.tree tree)) (lent_scope T.tree scope.entry) done) };

    /// An unnamed type as a leaf name, with nothing in scope.
    fn unnamed_leaf(self, tree: T, ctx: &mut Context<'s, '_, T, S, W>)
        requires { can self }
        ensures { Meets (at self) (page T.tree T.table W.seen ctx.old) (page T.tree T.table W.seen ctx.new)
            (call (leaf (T.tree tree)) [] done) };

    /// What of an item stands behind.
    fn behind(self, item: T, scope: Option<&Scope<'_, T>>, ctx: &mut Context<'s, '_, T, S, W>)
        requires { can self }
        ensures { Inner (at self) (page T.tree T.table W.seen ctx.old) (page T.tree T.table W.seen ctx.new)
            (T.tree item) (lent_scope T.tree scope.entry) };
}
