//! Java's resources.

ghost use Rattle.std.specs.Prelude.{◌≡◌, ◌<◌, encode_utf8, length, map, option_map};
ghost use Rattle.demangle_core.specs.Core.{Core};
ghost use Rattle.demangle_leaf_nodes.specs.TreeLeaves.{tree_of_resource_name};
ghost use Rattle.demangle_printing.specs.Items.{itself};
ghost use Rattle.demangle_printing.specs.Reader.{texts};
ghost use Rattle.demangle_printing.specs.Scope.{Scope};
ghost use Rattle.demangle_printing.specs.State.{written};
ghost use Rattle.demangle_printing.specs.Step.{Step};
ghost use Rattle.demangle_printing.specs.Texts.{characters, escaped};
ghost use Rattle.demangle_meets.specs.Calls.{Steps};
ghost use Rattle.demangle_meets.specs.Meets.{Meets, Prints, Remains};
ghost use Rattle.demangle_meets.specs.Place.{Place, world_of};
ghost use Rattle.demangle_print_below.specs.PageOf.{page};
ghost use Rattle.demangle_print_parts.specs.Pieces.{each_of};

use demangle_print_below::Below;
use demangle_print_parts::bytes_between;
use demangle_scope::{DemangleContext, DemangleWrite};
use demangle_tree::ResourceName;

/// What an escape stands for: `$S` is `/`, `$_` is `.`, and `$$` is `$`.
fn escaped(first: u8, second: u8) -> Option<&'static str>
    ensures { option_map (λ x. x.now) result ≡ escaped first second }
{
    match (first, second) {
        (b'$', b'S') => Some("/"),
        (b'$', b'_') => Some("."),
        (b'$', b'$') => Some("$"),
        _ => None,
    }
}

/// The character whose number is this byte.
fn character<'subs, W: DemangleWrite>(byte: u8, ctx: &mut DemangleContext<'subs, '_, W>)
    ensures { Steps (page W.seen ctx.old) (page W.seen ctx.new) (written (encode_utf8 byte)) }
{
    let mut buffer = [0; 4];
    ctx.text((byte as char).encode_utf8(&mut buffer));
}

/// Prints the first character of bytes, which may be escaped, and gives the bytes behind it.
fn front_character<'b, 'subs, W: DemangleWrite>(
    bytes: &'b [u8],
    ctx: &mut DemangleContext<'subs, '_, W>,
) -> &'b [u8]
    ensures left { (p : Place) → Remains p (page W.seen ctx.old) (page W.seen ctx.new)
        (texts (characters bytes.now)) (texts (characters result.now)) }
    ensures shorter { 0 < length bytes.now → length result.now < length bytes.now }
{
    let Some((first, rest)) = bytes.split_first() else {
        return bytes;
    };
    let Some((second, behind)) = rest.split_first() else {
        character(*first, ctx);
        return rest;
    };
    match escaped(*first, *second) {
        Some(text) => {
            ctx.text(text);
            behind
        }
        None => {
            character(*first, ctx);
            rest
        }
    }
}

/// The characters of a part of a resource's name.
fn characters<'subs, W: DemangleWrite>(bytes: &[u8], ctx: &mut DemangleContext<'subs, '_, W>)
    ensures { (p : Place) → Meets p (page W.seen ctx.old) (page W.seen ctx.new) (texts (characters bytes.now)) }
{
    let mut rest = bytes;
    while !rest.is_empty() {
        rest = front_character(rest, ctx);
    }
}

/// One component of a Java resource.
pub fn resource_name<'subs, W: DemangleWrite, B: Below<'subs, W>>(
    below: B,
    node: &ResourceName,
    ctx: &mut DemangleContext<'subs, '_, W>,
)
    requires { B.can below }
    ensures { (sc : Scope Core) → Prints (B.at below) (page W.seen ctx.old) (page W.seen ctx.new)
        (tree_of_resource_name node.now) sc }
{
    let Some(below) = below.enter(ctx) else {
        return;
    };
    characters(bytes_between(below.input(), node.start, node.end), ctx);
}

/// Components of a Java resource, one after the other.
pub(crate) fn each_resource<'subs, W: DemangleWrite, B: Below<'subs, W>>(
    below: B,
    nodes: &[ResourceName],
    ctx: &mut DemangleContext<'subs, '_, W>,
)
    requires { B.can below }
    ensures { (sc : Scope Core) → Meets (B.at below) (page W.seen ctx.old) (page W.seen ctx.new)
        (each_of (world_of (B.at below).refers) (itself Step.done) (map tree_of_resource_name nodes.now) sc) }
{
    for node in nodes {
        resource_name(below, node, ctx);
    }
}
