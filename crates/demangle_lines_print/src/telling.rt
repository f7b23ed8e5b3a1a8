//! The printing of a name's tree.

ghost use Rattle.std.specs.Prelude.{◌≡◌};
ghost use Rattle.demangle_context.specs.Items.{no_items};
ghost use Rattle.demangle_context.specs.ItemsOf.{items_of};
ghost use Rattle.demangle_lines_print.specs.Telling.{Tells, telling};

use crate::demangle::print_itself;
use demangle_context::{Context, DemangleError, DemangleOptions, DemangleWrite, InnerItems};
use demangle_lines::Tree;

/// Tells a listener the text of a name, and the nodes in it. The stacks of the printing, which were made for the limit
/// of the options, are given back, empty but with their room, for another one; so no memory is taken for them. The
/// errors are those of `print_tree`.
pub fn tell<'s, T: Tree<S>, S: 's, W: DemangleWrite>(
    items: InnerItems<T>,
    tree: T,
    subs: &'s S,
    input: &'s [u8],
    options: &DemangleOptions,
    out: &mut W,
) -> (InnerItems<T>, Result<(), DemangleError>)
    requires { items_of T.tree items ≡ no_items options.now.limit }
    ensures stacks { items_of T.tree result.0 ≡ no_items options.now.limit }
    ensures told { Tells (W.seen out.old) (W.seen out.new) options.now.limit
        (telling (T.table subs.entry.now) input.entry.now options.now (T.tree tree)) result.1 }
{
    let mut ctx = Context::begin(items, subs, input, *options, out);
    let answer = print_itself(tree, &mut ctx);
    let (items, _out) = ctx.end_with_items();
    (items, answer)
}
