//! Words and numbers.

ghost use Rattle.std.specs.Prelude.{pos};
ghost use Rattle.std.specs.Fmt.{signed_decimal};
ghost use Rattle.demangle_core.specs.Core.{Core};
ghost use Rattle.demangle_leaf_nodes.specs.TreeLeaves.{tree_of_standard_builtin_type, tree_of_well_known_component};
ghost use Rattle.demangle_printing.specs.Scope.{Scope};
ghost use Rattle.demangle_printing.specs.State.{written};
ghost use Rattle.demangle_meets.specs.Calls.{Steps};
ghost use Rattle.demangle_meets.specs.Meets.{Prints};
ghost use Rattle.demangle_print_below.specs.PageOf.{page};

use demangle_decimal::Decimal;
use demangle_print_below::Below;
use demangle_scope::{DemangleContext, DemangleWrite};
use demangle_vocab::{StandardBuiltinType, WellKnownComponent};

/// A number, in decimal.
pub fn number<'subs, W: DemangleWrite>(n: isize, ctx: &mut DemangleContext<'subs, '_, W>)
    ensures { Steps (page W.seen ctx.old) (page W.seen ctx.new) (written (signed_decimal n)) }
{
    let mut room = Decimal::new();
    ctx.text(room.signed(n));
}

/// An unsigned number, in decimal.
pub fn unsigned<'subs, W: DemangleWrite>(n: usize, ctx: &mut DemangleContext<'subs, '_, W>)
    ensures { Steps (page W.seen ctx.old) (page W.seen ctx.new) (written (signed_decimal (pos n))) }
{
    let mut room = Decimal::new();
    ctx.text(room.unsigned(n as u128));
}

/// A word of the table of builtin types.
pub fn standard_builtin_type<'subs, W: DemangleWrite, B: Below<'subs, W>>(
    below: B,
    word: &StandardBuiltinType,
    ctx: &mut DemangleContext<'subs, '_, W>,
)
    requires { B.can below }
    ensures { (sc : Scope Core) → Prints (B.at below) (page W.seen ctx.old) (page W.seen ctx.new)
        (tree_of_standard_builtin_type word.now) sc }
{
    let Some(_below) = below.enter(ctx) else {
        return;
    };
    ctx.text(word.text());
}

/// A word of the table of abbreviated components.
pub fn well_known_component<'subs, W: DemangleWrite, B: Below<'subs, W>>(
    below: B,
    word: &WellKnownComponent,
    ctx: &mut DemangleContext<'subs, '_, W>,
)
    requires { B.can below }
    ensures { (sc : Scope Core) → Prints (B.at below) (page W.seen ctx.old) (page W.seen ctx.new)
        (tree_of_well_known_component word.now) sc }
{
    let Some(_below) = below.enter(ctx) else {
        return;
    };
    ctx.text(word.text());
}
