//! Where a line is printed.

ghost use Rattle.std.specs.Prelude.{◌≡◌, MatchOption};
ghost use Rattle.demangle_table.specs.TableOf.{table_of};
ghost use Rattle.demangle_meets.specs.Calls.{Enters, Stops};
ghost use Rattle.demangle_print_below.specs.PageOf.{page};
ghost use Rattle.demangle_print_below.specs.PlaceOf.{place_in, place_of};

use demangle_scope::{DemangleContext, DemangleWrite, PrintFault};
use demangle_table::SubstitutionTable;

/// The table and the input of the tree that is printed, the level, and the deepest level, all by value: a line enters a
/// level, and none gives one back.
#[derive(Clone, Copy)]
pub struct Depth<'subs> {
    subs: &'subs SubstitutionTable,
    input: &'subs [u8],
    level: u32,
    deepest: u32,
}

#[tactic(auto, unfolding(crate::specs::PlaceOf::place_of))]
impl<'subs> Depth<'subs> {
    /// Where a context is.
    pub fn of<W: DemangleWrite>(ctx: &DemangleContext<'subs, '_, W>) -> Depth<'subs>
        ensures { place_of result ≡ place_in (page W.seen ctx.now).fixed }
    {
        Depth {
            subs: ctx.subs(),
            input: ctx.input(),
            level: ctx.recursion_level(),
            deepest: ctx.recursion_limit() - 1,
        }
    }

    /// The level.
    pub fn level(self) -> u32
        ensures { result ≡ (place_of self.entry).level }
    {
        self.level
    }

    /// The table to which the trees refer.
    pub fn subs(self) -> &'subs SubstitutionTable
        ensures { table_of result.now ≡ (place_of self.entry).refers.table }
    {
        self.subs
    }

    /// The mangled name.
    pub fn input(self) -> &'subs [u8]
        ensures { result.now ≡ (place_of self.entry).refers.input }
    {
        self.input
    }

    /// One level deeper. Where none is left printing stops; `None` then, and where it had stopped.
    pub fn enter<W: DemangleWrite>(
        self,
        ctx: &mut DemangleContext<'subs, '_, W>,
    ) -> Option<Depth<'subs>>
        ensures { MatchOption result
            (Stops (place_of self.entry) (page W.seen ctx.old) (page W.seen ctx.new))
            (λ deeper. Enters (place_of self.entry) (place_of deeper) (page W.seen ctx.old) (page W.seen ctx.new)) }
    {
        if ctx.is_stopped() || self.level >= self.deepest {
            ctx.fail(PrintFault::TooMuchRecursion);
            return None;
        }
        Some(Depth {
            subs: self.subs,
            input: self.input,
            level: self.level + 1,
            deepest: self.deepest,
        })
    }
}
