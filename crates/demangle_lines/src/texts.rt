//! Texts of parts.

ghost use Rattle.std.specs.Prelude.{◌≡◌, ◌∷◌, [], ◌+ℤ◌, Some, codes, option_map, pos};
ghost use Rattle.std.specs.Fmt.{signed_decimal};
ghost use Rattle.demangle_core.specs.Core.{Core};
ghost use Rattle.demangle_printing.specs.Act.{block, done, named, text};
ghost use Rattle.demangle_printing.specs.Reader.{bytes_seen, input_text, spelled_act, texts};
ghost use Rattle.demangle_printing.specs.State.{written};
ghost use Rattle.demangle_printing.specs.Texts.{characters, ordinal_of, without_sign};
ghost use Rattle.demangle_printing.specs.World.{find, see};
ghost use Rattle.demangle_meets.specs.Calls.{Steps};
ghost use Rattle.demangle_meets.specs.Meets.{Meets};
ghost use Rattle.demangle_meets.specs.Place.{world_of};
ghost use Rattle.demangle_context.specs.PageOf.{page};
ghost use Rattle.demangle_lines.specs.Shapes.{number_of};

use crate::at::{bytes_at, bytes_of, number_of, part_at, part_of_part, shape_at, shape_of};
use crate::below::Below;
use crate::bytes;
use crate::tests::is_number;
use crate::tree::{Number, Shape, Tree};
use demangle_context::{Context, DemangleWrite, RefersTo};
use demangle_decimal::Decimal;

/// The sum of a signed number and a constant, in decimal.
fn write_signed_sum<'s, T: RefersTo<S>, S: 's, W: DemangleWrite>(
    value: isize,
    plus: u8,
    ctx: &mut Context<'s, '_, T, S, W>,
)
    ensures { Steps (page T.tree T.table W.seen ctx.old) (page T.tree T.table W.seen ctx.new) (written (signed_decimal
        (value +ℤ pos plus))) }
{
    let mut room = Decimal::new();
    let size = value.unsigned_abs();
    if value >= 0 {
        ctx.text(room.unsigned(size as u128 + plus as u128));
    } else if size <= plus as usize {
        ctx.text(room.unsigned((plus as usize - size) as u128));
    } else {
        ctx.text(room.signed(value + plus as isize));
    }
}

/// The sum of a number and a constant, in decimal.
fn write_sum<'s, T: RefersTo<S>, S: 's, W: DemangleWrite>(
    number: Number,
    plus: u8,
    ctx: &mut Context<'s, '_, T, S, W>,
)
    ensures { Steps (page T.tree T.table W.seen ctx.old) (page T.tree T.table W.seen ctx.new) (written (signed_decimal
        (number_of number +ℤ pos plus))) }
{
    let mut room = Decimal::new();
    match number {
        Number::Counted(count) => ctx.text(room.unsigned(count as u128 + plus as u128)),
        Number::Signed(value) => write_signed_sum(value, plus, ctx),
    }
}

/// A number, in decimal.
fn write_number<'s, T: RefersTo<S>, S: 's, W: DemangleWrite>(
    number: Number,
    ctx: &mut Context<'s, '_, T, S, W>,
)
    ensures { Steps (page T.tree T.table W.seen ctx.old) (page T.tree T.table W.seen ctx.new) (written (signed_decimal
        (number_of number))) }
{
    let mut room = Decimal::new();
    match number {
        Number::Counted(count) => ctx.text(room.unsigned(count as u128)),
        Number::Signed(value) => ctx.text(room.signed(value)),
    }
}

/// The text of a word, the bytes of a place, a number.
#[inline(always)]
pub fn spelled_itself<'s, T: Tree<S>, S: 's, W: DemangleWrite, B: Below<'s, T, S, W>>(
    below: B,
    tree: T,
    ctx: &mut Context<'s, '_, T, S, W>,
)
    ensures { Meets (B.at below) (page T.tree T.table W.seen ctx.old) (page T.tree T.table W.seen ctx.new) (spelled_act
        ((world_of (B.at below).refers).look (T.tree tree))) }
{
    match shape_at(below, tree) {
        Shape::Nothing => ctx.text(""),
        Shape::Node(_) => ctx.text(""),
        Shape::Word(_, _) => ctx.text(tree.text()),
        Shape::Number => write_number(tree.number(), ctx),
        Shape::Flag(_) => ctx.text(""),
        Shape::Bytes => bytes::bytes_text(bytes_at(below, tree), ctx),
    }
}

/// The same, where there is one.
fn spelled_of<'s, T: Tree<S>, S: 's, W: DemangleWrite, B: Below<'s, T, S, W>>(
    below: B,
    found: Option<T>,
    ctx: &mut Context<'s, '_, T, S, W>,
)
    ensures { Meets (B.at below) (page T.tree T.table W.seen ctx.old) (page T.tree T.table W.seen ctx.new) (spelled_act
        (see (world_of (B.at below).refers) (option_map T.tree found))) }
{
    match found {
        None => ctx.text(""),
        Some(tree) => spelled_itself(below, tree, ctx),
    }
}

/// The text of a part.
pub fn spelled<'s, T: Tree<S>, S: 's, W: DemangleWrite, B: Below<'s, T, S, W>>(
    below: B,
    tree: T,
    number: usize,
    ctx: &mut Context<'s, '_, T, S, W>,
)
    ensures { Meets (B.at below) (page T.tree T.table W.seen ctx.old) (page T.tree T.table W.seen ctx.new) (spelled_act
        (see (world_of (B.at below).refers) (find (world_of (B.at below).refers) (Some (T.tree tree)) (number ∷ [])))) }
{
    spelled_of(below, part_at(below, tree, number), ctx);
}

/// The text of a part of a part.
pub fn inner_spelled<'s, T: Tree<S>, S: 's, W: DemangleWrite, B: Below<'s, T, S, W>>(
    below: B,
    tree: T,
    first: usize,
    second: usize,
    ctx: &mut Context<'s, '_, T, S, W>,
)
    ensures { Meets (B.at below) (page T.tree T.table W.seen ctx.old) (page T.tree T.table W.seen ctx.new) (spelled_act
        (see (world_of (B.at below).refers) (find (world_of (B.at below).refers) (Some (T.tree tree)) (first ∷ second
        ∷ [])))) }
{
    spelled_of(below, part_of_part(below, tree, first, second), ctx);
}

/// The bytes of a literal without its sign.
pub fn magnitude<'s, T: Tree<S>, S: 's, W: DemangleWrite, B: Below<'s, T, S, W>>(
    below: B,
    tree: T,
    number: usize,
    ctx: &mut Context<'s, '_, T, S, W>,
)
    ensures { Meets (B.at below) (page T.tree T.table W.seen ctx.old) (page T.tree T.table W.seen ctx.new) (input_text
        (without_sign (bytes_seen (see (world_of (B.at below).refers) (find (world_of (B.at below).refers) (Some
        (T.tree tree)) (number ∷ [])))))) }
{
    let found = bytes_of(below, part_at(below, tree, number));
    bytes::bytes_text(bytes::without_sign(found), ctx);
}

/// The sum of a number and a constant, in decimal; `none` where there is no number.
fn ordinal_of<'s, T: Tree<S>, S: 's, W: DemangleWrite, B: Below<'s, T, S, W>>(
    below: B,
    found: Option<T>,
    none: u8,
    plus: u8,
    ctx: &mut Context<'s, '_, T, S, W>,
)
    ensures { Steps (page T.tree T.table W.seen ctx.old) (page T.tree T.table W.seen ctx.new) (written (ordinal_of none
        plus (see (world_of (B.at below).refers) (option_map T.tree found)))) }
{
    if is_number(shape_of(below, found)) {
        write_sum(number_of(below, found), plus, ctx);
    } else {
        let mut room = Decimal::new();
        ctx.text(room.unsigned(none as u128));
    }
}

/// The sum of a part that is a number and a constant, in decimal; `none` where it is no number.
pub fn ordinal<'s, T: Tree<S>, S: 's, W: DemangleWrite, B: Below<'s, T, S, W>>(
    below: B,
    tree: T,
    number: usize,
    none: u8,
    plus: u8,
    ctx: &mut Context<'s, '_, T, S, W>,
)
    ensures { Steps (page T.tree T.table W.seen ctx.old) (page T.tree T.table W.seen ctx.new) (written (ordinal_of none
        plus (see (world_of (B.at below).refers) (find (world_of (B.at below).refers) (Some (T.tree tree)) (number ∷
        []))))) }
{
    ordinal_of(below, part_at(below, tree, number), none, plus, ctx);
}

/// The same of a part of a part.
pub fn inner_ordinal<'s, T: Tree<S>, S: 's, W: DemangleWrite, B: Below<'s, T, S, W>>(
    below: B,
    tree: T,
    first: usize,
    second: usize,
    none: u8,
    plus: u8,
    ctx: &mut Context<'s, '_, T, S, W>,
)
    ensures { Steps (page T.tree T.table W.seen ctx.old) (page T.tree T.table W.seen ctx.new) (written (ordinal_of none
        plus (see (world_of (B.at below).refers) (find (world_of (B.at below).refers) (Some (T.tree tree)) (first ∷
        second ∷ []))))) }
{
    let found = part_of_part(below, tree, first, second);
    ordinal_of(below, found, none, plus, ctx);
}

/// A name, which is kept as the last source name.
fn name_of<'s, T: Tree<S>, S: 's, W: DemangleWrite, B: Below<'s, T, S, W>>(
    below: B,
    found: Option<T>,
    ctx: &mut Context<'s, '_, T, S, W>,
)
    ensures { Meets (B.at below) (page T.tree T.table W.seen ctx.old) (page T.tree T.table W.seen ctx.new) (named
        (bytes_seen (see (world_of (B.at below).refers) (option_map T.tree found))) (block (spelled_act (see (world_of
        (B.at below).refers) (option_map T.tree found))) done)) }
{
    match shape_of(below, found) {
        Shape::Bytes => bytes::write_name(bytes_of(below, found), ctx),
        _ => {
            ctx.name("");
            spelled_of(below, found, ctx);
        }
    }
}

/// A part that is a name, which is kept as the last source name.
pub fn name<'s, T: Tree<S>, S: 's, W: DemangleWrite, B: Below<'s, T, S, W>>(
    below: B,
    tree: T,
    number: usize,
    ctx: &mut Context<'s, '_, T, S, W>,
)
    ensures { Meets (B.at below) (page T.tree T.table W.seen ctx.old) (page T.tree T.table W.seen ctx.new) (named
        (bytes_seen (see (world_of (B.at below).refers) (find (world_of (B.at below).refers) (Some (T.tree tree))
        (number ∷ [])))) (block (spelled_act (see (world_of (B.at below).refers) (find (world_of (B.at below).refers)
        (Some (T.tree tree)) (number ∷ [])))) done)) }
{
    name_of(below, part_at(below, tree, number), ctx);
}

/// The word of a suffix behind a space and a dot, which is kept as the last source name.
fn suffix_of<'s, T: Tree<S>, S: 's, W: DemangleWrite, B: Below<'s, T, S, W>>(
    below: B,
    found: Option<T>,
    ctx: &mut Context<'s, '_, T, S, W>,
)
    ensures { Meets (B.at below) (page T.tree T.table W.seen ctx.old) (page T.tree T.table W.seen ctx.new) (named
        (bytes_seen (see (world_of (B.at below).refers) (option_map T.tree found))) (text (codes " .") (block
        (spelled_act (see (world_of (B.at below).refers) (option_map T.tree found))) done))) }
{
    match shape_of(below, found) {
        Shape::Bytes => bytes::write_suffix(bytes_of(below, found), ctx),
        _ => {
            ctx.name("");
            ctx.text(" .");
            spelled_of(below, found, ctx);
        }
    }
}

/// A part that is the word of a suffix, behind a space and a dot. It is kept as the last source name.
pub fn suffix<'s, T: Tree<S>, S: 's, W: DemangleWrite, B: Below<'s, T, S, W>>(
    below: B,
    tree: T,
    number: usize,
    ctx: &mut Context<'s, '_, T, S, W>,
)
    ensures { Meets (B.at below) (page T.tree T.table W.seen ctx.old) (page T.tree T.table W.seen ctx.new) (named
        (bytes_seen (see (world_of (B.at below).refers) (find (world_of (B.at below).refers) (Some (T.tree tree))
        (number ∷ [])))) (text (codes " .") (block (spelled_act (see (world_of (B.at below).refers) (find (world_of
        (B.at below).refers) (Some (T.tree tree)) (number ∷ [])))) done))) }
{
    suffix_of(below, part_at(below, tree, number), ctx);
}

/// The characters of a part of a resource's name.
pub fn resource<'s, T: Tree<S>, S: 's, W: DemangleWrite, B: Below<'s, T, S, W>>(
    below: B,
    tree: T,
    number: usize,
    ctx: &mut Context<'s, '_, T, S, W>,
)
    ensures { Meets (B.at below) (page T.tree T.table W.seen ctx.old) (page T.tree T.table W.seen ctx.new) (texts
        (characters (bytes_seen (see (world_of (B.at below).refers) (find (world_of (B.at below).refers) (Some (T.tree
        tree)) (number ∷ [])))))) }
{
    bytes::characters(bytes_of(below, part_at(below, tree, number)), ctx);
}
