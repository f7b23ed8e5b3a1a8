//! Words of the tables of operators.

ghost use Rattle.demangle_core.specs.Core.{Core};
ghost use Rattle.demangle_leaf_nodes.specs.TreeLeaves.{tree_of_simple_operator_name};
ghost use Rattle.demangle_printing.specs.Scope.{Scope};
ghost use Rattle.demangle_meets.specs.Meets.{Prints};
ghost use Rattle.demangle_print_below.specs.PageOf.{page};

use demangle_print_below::Below;
use demangle_scope::{DemangleContext, DemangleWrite};
use demangle_vocab::SimpleOperatorName;

/// A word of the table of operators.
pub fn simple_operator_name<'subs, W: DemangleWrite, B: Below<'subs, W>>(
    below: B,
    word: &SimpleOperatorName,
    ctx: &mut DemangleContext<'subs, '_, W>,
)
    requires { B.can below }
    ensures { (sc : Scope Core) → Prints (B.at below) (page W.seen ctx.old) (page W.seen ctx.new)
        (tree_of_simple_operator_name word.now) sc }
{
    let Some(_below) = below.enter(ctx) else {
        return;
    };
    ctx.text(word.text());
}
