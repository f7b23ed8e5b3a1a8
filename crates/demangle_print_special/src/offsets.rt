//! The offsets of thunks.

ghost use Rattle.demangle_core.specs.Core.{Core};
ghost use Rattle.demangle_leaf_nodes.specs.TreeLeaves.{tree_of_call_offset};
ghost use Rattle.demangle_printing.specs.Scope.{Scope};
ghost use Rattle.demangle_meets.specs.Meets.{Prints};
ghost use Rattle.demangle_print_below.specs.PageOf.{page};

use demangle_print_below::Below;
use demangle_print_parts::number;
use demangle_scope::{DemangleContext, DemangleWrite};
use demangle_tree::CallOffset;

/// `{offset(-8)}`, and `{virtual offset(0, -24)}`.
pub fn call_offset<'subs, W: DemangleWrite, B: Below<'subs, W>>(
    below: B,
    node: &CallOffset,
    ctx: &mut DemangleContext<'subs, '_, W>,
)
    requires { B.can below }
    ensures { (sc : Scope Core) → Prints (B.at below) (page W.seen ctx.old) (page W.seen ctx.new)
        (tree_of_call_offset node.now) sc }
{
    let Some(_below) = below.enter(ctx) else {
        return;
    };
    match node {
        CallOffset::NonVirtual(offset) => {
            ctx.text("{offset(");
            number(offset.0, ctx);
            ctx.text(")}");
        }
        CallOffset::Virtual(offset) => {
            ctx.text("{virtual offset(");
            number(offset.0, ctx);
            ctx.text(", ");
            number(offset.1, ctx);
            ctx.text(")}");
        }
    }
}
