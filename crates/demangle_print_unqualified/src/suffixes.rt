//! Suffixes of clones.

ghost use Rattle.std.specs.Prelude.{Some, map};
ghost use Rattle.demangle_core.specs.Core.{Core, Tag, end, node, trees};
ghost use Rattle.demangle_leaf_nodes.specs.TreeLeaves.{parts_of_clone_suffix, tag_of_clone_suffix};
ghost use Rattle.demangle_leaf_nodes.specs.TreeLeaves.{tree_of_clone_suffix, tree_of_clone_type_identifier};
ghost use Rattle.demangle_leaf_nodes.specs.TreeLeaves.{tree_of_signed};
ghost use Rattle.demangle_printing.specs.Items.{◌·◌, itself, spelled_itself, t};
ghost use Rattle.demangle_printing.specs.Lines.Names.{clone_suffixes};
ghost use Rattle.demangle_printing.specs.Reader.{run};
ghost use Rattle.demangle_printing.specs.Scope.{Scope};
ghost use Rattle.demangle_printing.specs.Step.{Step};
ghost use Rattle.demangle_meets.specs.Meets.{Meets, Prints};
ghost use Rattle.demangle_meets.specs.Place.{Place, world_of};
ghost use Rattle.demangle_print_below.specs.PageOf.{page};
ghost use Rattle.demangle_print_parts.specs.Pieces.{each_of, row};
ghost use Rattle.demangle_print_unqualified.specs.Pieces.{word_act};

use demangle_print_below::Below;
use demangle_print_parts::{bytes_between, number, text_of};
use demangle_scope::{DemangleContext, DemangleWrite, PrintFault, PrintFlag};
use demangle_tree::{CloneSuffix, CloneTypeIdentifier};

/// A space, a dot and a word, which must be UTF-8 and is kept as the last source name.
fn suffix_word<'subs, W: DemangleWrite>(bytes: &'subs [u8], ctx: &mut DemangleContext<'subs, '_, W>)
    ensures { (p : Place) → Meets p (page W.seen ctx.old) (page W.seen ctx.new) (word_act bytes.now) }
{
    match text_of(bytes) {
        Some(text) => {
            ctx.name(text);
            ctx.text(" .");
            ctx.text(text);
        }
        None => {
            ctx.text(" .");
            ctx.fail(PrintFault::NotUtf8);
        }
    }
}

/// The word of a clone's suffix, behind a dot.
pub fn clone_type_identifier<'subs, W: DemangleWrite, B: Below<'subs, W>>(
    below: B,
    node: &CloneTypeIdentifier,
    ctx: &mut DemangleContext<'subs, '_, W>,
)
    requires { B.can below }
    ensures { (sc : Scope Core) → Prints (B.at below) (page W.seen ctx.old) (page W.seen ctx.new)
        (tree_of_clone_type_identifier node.now) sc }
{
    let Some(below) = below.enter(ctx) else {
        return;
    };
    suffix_word(bytes_between(below.input(), node.start, node.end), ctx);
}

/// Numbers, each behind a dot.
fn clone_numbers<'subs, W: DemangleWrite>(
    numbers: &[isize],
    ctx: &mut DemangleContext<'subs, '_, W>,
)
    ensures { (p : Place) (sc : Scope Core) → Meets p (page W.seen ctx.old) (page W.seen ctx.new)
        (each_of (world_of p.refers) ((t "." · spelled_itself) Step.done) (map tree_of_signed numbers.now) sc) }
{
    for n in numbers {
        ctx.text(".");
        number(*n, ctx);
    }
}

/// ` [clone .part.0]`.
pub fn clone_suffix<'subs, W: DemangleWrite, B: Below<'subs, W>>(
    below: B,
    node: &CloneSuffix,
    ctx: &mut DemangleContext<'subs, '_, W>,
)
    requires { B.can below }
    ensures { (sc : Scope Core) → Prints (B.at below) (page W.seen ctx.old) (page W.seen ctx.new)
        (tree_of_clone_suffix node.now) sc }
{
    let Some(below) = below.enter(ctx) else {
        return;
    };
    ctx.text(" [clone");
    clone_type_identifier(below, &node.0, ctx);
    clone_numbers(node.1.as_slice(), ctx);
    ctx.text("]");
}

/// Suffixes of clones, one after the other.
fn each_suffix<'subs, W: DemangleWrite, B: Below<'subs, W>>(
    below: B,
    nodes: &[CloneSuffix],
    ctx: &mut DemangleContext<'subs, '_, W>,
)
    requires { B.can below }
    ensures { (sc : Scope Core) → Meets (B.at below) (page W.seen ctx.old) (page W.seen ctx.new)
        (each_of (world_of (B.at below).refers) (itself Step.done) (map tree_of_clone_suffix nodes.now) sc) }
{
    for node in nodes {
        clone_suffix(below, node, ctx);
    }
}

/// The suffixes of clones behind an encoding, where parameters are shown.
pub fn shown_suffixes<'subs, W: DemangleWrite, B: Below<'subs, W>>(
    below: B,
    nodes: &[CloneSuffix],
    ctx: &mut DemangleContext<'subs, '_, W>,
)
    requires { B.can below }
    ensures { (sc : Scope Core) (t : Tag) (c : Core) → Meets (B.at below) (page W.seen ctx.old) (page W.seen ctx.new)
        (run (world_of (B.at below).refers) (Some
        (row (node t c (node Tag.Several (trees tag_of_clone_suffix parts_of_clone_suffix nodes.now) end)))) sc
        clone_suffixes) }
{
    if ctx.is_on(PrintFlag::Params) {
        each_suffix(below, nodes, ctx);
    }
}
