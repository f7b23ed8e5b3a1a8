//! Ordinals: names leave out the first number, and count from the second.

ghost use Rattle.std.specs.Prelude.{◌+ℤ◌, pos, Some, ◌∷◌, []};
ghost use Rattle.std.specs.Fmt.{signed_decimal};
ghost use Rattle.demangle_leaf_nodes.specs.TreeLeaves.{tree_of_number, tree_of_option};
ghost use Rattle.demangle_printing.specs.State.{written};
ghost use Rattle.demangle_printing.specs.Texts.{ordinal_of};
ghost use Rattle.demangle_printing.specs.World.{find, see};
ghost use Rattle.demangle_meets.specs.Calls.{Steps};
ghost use Rattle.demangle_meets.specs.Place.{Refers, world_of};
ghost use Rattle.demangle_print_below.specs.PageOf.{page};

use demangle_decimal::Decimal;
use demangle_scope::{DemangleContext, DemangleWrite};

/// The sum of a number and a constant, in decimal.
pub fn ordinal<'subs, W: DemangleWrite>(n: usize, plus: u8, ctx: &mut DemangleContext<'subs, '_, W>)
    ensures { Steps (page W.seen ctx.old) (page W.seen ctx.new) (written (signed_decimal (pos n +ℤ pos plus))) }
{
    let mut room = Decimal::new();
    ctx.text(room.unsigned(n as u128 + plus as u128));
}

/// The sum of an optional number and a constant, in decimal, and `none` where there is no number.
pub fn optional_ordinal<'subs, W: DemangleWrite>(
    n: Option<usize>,
    none: u8,
    plus: u8,
    ctx: &mut DemangleContext<'subs, '_, W>,
)
    ensures { (r : Refers) → Steps (page W.seen ctx.old) (page W.seen ctx.new) (written (ordinal_of none plus
        (see (world_of r) (find (world_of r) (Some (tree_of_option tree_of_number n)) (0 ∷ []))))) }
{
    match n {
        Some(n) => ordinal(n, plus, ctx),
        None => {
            let mut room = Decimal::new();
            ctx.text(room.unsigned(none as u128));
        }
    }
}
