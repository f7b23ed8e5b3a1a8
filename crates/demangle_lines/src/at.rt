//! What a line asks of a tree.

ghost use Rattle.std.specs.Prelude.{◌≡◌, ◌∷◌, [], Some, List, ℕ, is_some, length, option_map, true};
ghost use Rattle.demangle_core.specs.Lookups.{as_prefix, as_type};
ghost use Rattle.demangle_printing.specs.Reader.{bytes_seen, index_seen, is_bare};
ghost use Rattle.demangle_printing.specs.Rules.{args_of, leaf_name_of, of_part};
ghost use Rattle.demangle_printing.specs.World.{find, listed, nth, parts, see};
ghost use Rattle.demangle_meets.specs.Place.{world_of};
ghost use Rattle.demangle_lines.specs.Shapes.{number_of, shape_in, value_seen};

use crate::below::Below;
use crate::tree::{Number, Shape, Tree};
use demangle_context::DemangleWrite;

/// What a tree is.
#[inline(always)]
pub fn shape_at<'s, T: Tree<S>, S: 's, W: DemangleWrite, B: Below<'s, T, S, W>>(
    below: B,
    tree: T,
) -> Shape
    ensures { result ≡ shape_in ((world_of (B.at below).refers).look (T.tree tree)) }
{
    tree.shape(below.subs())
}

/// How many parts a tree has.
#[inline(always)]
pub fn count_at<'s, T: Tree<S>, S: 's, W: DemangleWrite, B: Below<'s, T, S, W>>(
    below: B,
    tree: T,
) -> usize
    ensures { result ≡ length (parts (world_of (B.at below).refers) (T.tree tree)) }
{
    tree.count(below.subs())
}

/// A part of a tree.
#[inline(always)]
pub fn part_at<'s, T: Tree<S>, S: 's, W: DemangleWrite, B: Below<'s, T, S, W>>(
    below: B,
    tree: T,
    number: usize,
) -> Option<T>
    ensures { option_map T.tree result ≡ nth number (parts (world_of (B.at below).refers) (T.tree tree)) }
{
    tree.part(number, below.subs())
}

/// What is printed for a tree.
#[inline(always)]
pub fn printed_at<'s, T: Tree<S>, S: 's, W: DemangleWrite, B: Below<'s, T, S, W>>(
    below: B,
    tree: T,
) -> Option<T>
    ensures { option_map T.tree result ≡ of_part (world_of (B.at below).refers) (Some (T.tree tree)) }
{
    tree.printed(below.subs())
}

/// The leaf name of a tree.
#[inline(always)]
pub fn leaf_name_at<'s, T: Tree<S>, S: 's, W: DemangleWrite, B: Below<'s, T, S, W>>(
    below: B,
    tree: T,
) -> Option<T>
    ensures { option_map T.tree result ≡ leaf_name_of (world_of (B.at below).refers) (Some (T.tree tree)) }
{
    tree.leaf_name(below.subs())
}

/// The template arguments of a name.
#[inline(always)]
pub fn prefix_arguments_at<'s, T: Tree<S>, S: 's, W: DemangleWrite, B: Below<'s, T, S, W>>(
    below: B,
    tree: T,
) -> Option<T>
    ensures { option_map T.tree result ≡ args_of (world_of (B.at below).refers) as_prefix (Some (T.tree tree)) }
{
    tree.prefix_arguments(below.subs())
}

/// The template arguments of a type.
#[inline(always)]
pub fn type_arguments_at<'s, T: Tree<S>, S: 's, W: DemangleWrite, B: Below<'s, T, S, W>>(
    below: B,
    tree: T,
) -> Option<T>
    ensures { option_map T.tree result ≡ args_of (world_of (B.at below).refers) as_type (Some (T.tree tree)) }
{
    tree.type_arguments(below.subs())
}

/// Whether a name is that of a constructor, a destructor or a conversion.
#[inline(always)]
pub fn is_special_at<'s, T: Tree<S>, S: 's, W: DemangleWrite, B: Below<'s, T, S, W>>(
    below: B,
    tree: T,
) -> bool
    ensures { result ≡ (world_of (B.at below).refers).is_special (T.tree tree) }
{
    tree.is_special(below.subs())
}

/// The bytes of a tree, where it is bytes of the input.
#[inline(always)]
pub fn bytes_at<'s, T: Tree<S>, S: 's, W: DemangleWrite, B: Below<'s, T, S, W>>(
    below: B,
    tree: T,
) -> &'s [u8]
    ensures { result.now ≡ bytes_seen ((world_of (B.at below).refers).look (T.tree tree)) }
{
    tree.bytes(below.input())
}

/// A part of a part.
#[inline(always)]
pub fn part_of_part<'s, T: Tree<S>, S: 's, W: DemangleWrite, B: Below<'s, T, S, W>>(
    below: B,
    tree: T,
    first: usize,
    second: usize,
) -> Option<T>
    ensures { option_map T.tree result ≡ find (world_of (B.at below).refers) (Some (T.tree tree))
        (first ∷ second ∷ []) }
{
    match part_at(below, tree, first) {
        None => None,
        Some(part) => part_at(below, part, second),
    }
}

/// A part of a part of a part.
#[inline(always)]
pub fn part_of_parts<'s, T: Tree<S>, S: 's, W: DemangleWrite, B: Below<'s, T, S, W>>(
    below: B,
    tree: T,
    first: usize,
    second: usize,
    third: usize,
) -> Option<T>
    ensures { option_map T.tree result ≡ find (world_of (B.at below).refers) (Some (T.tree tree))
        (first ∷ second ∷ third ∷ []) }
{
    match part_of_part(below, tree, first, second) {
        None => None,
        Some(part) => part_at(below, part, third),
    }
}

/// What a tree is, where there is one.
#[inline(always)]
pub fn shape_of<'s, T: Tree<S>, S: 's, W: DemangleWrite, B: Below<'s, T, S, W>>(
    below: B,
    found: Option<T>,
) -> Shape
    ensures { result ≡ shape_in (see (world_of (B.at below).refers) (option_map T.tree found)) }
{
    match found {
        None => Shape::Nothing,
        Some(tree) => shape_at(below, tree),
    }
}

/// The bytes of a tree, where there is one.
#[inline(always)]
pub fn bytes_of<'s, T: Tree<S>, S: 's, W: DemangleWrite, B: Below<'s, T, S, W>>(
    below: B,
    found: Option<T>,
) -> &'s [u8]
    ensures { result.now ≡ bytes_seen (see (world_of (B.at below).refers) (option_map T.tree found)) }
{
    match found {
        None => &[],
        Some(tree) => bytes_at(below, tree),
    }
}

/// The number of a tree, where there is one that isn't below zero; 0 elsewhere.
#[inline(always)]
pub fn index_of<'s, T: Tree<S>, S: 's, W: DemangleWrite, B: Below<'s, T, S, W>>(
    below: B,
    found: Option<T>,
) -> usize
    ensures { result ≡ index_seen (see (world_of (B.at below).refers) (option_map T.tree found)) }
{
    match found {
        None => 0,
        Some(tree) => tree.index(),
    }
}

/// The number of a tree; 0 elsewhere.
#[inline(always)]
pub fn number_of<'s, T: Tree<S>, S: 's, W: DemangleWrite, B: Below<'s, T, S, W>>(
    below: B,
    found: Option<T>,
) -> Number
    ensures { number_of result ≡ value_seen (see (world_of (B.at below).refers) (option_map T.tree found)) }
{
    match found {
        None => Number::Counted(0),
        Some(tree) => tree.number(),
    }
}

/// How many trees a list has, where there is one.
#[inline(always)]
pub fn count_of<'s, T: Tree<S>, S: 's, W: DemangleWrite, B: Below<'s, T, S, W>>(
    below: B,
    found: Option<T>,
) -> usize
    ensures { result ≡ length (listed (world_of (B.at below).refers) (option_map T.tree found)) }
{
    match found {
        None => 0,
        Some(tree) => count_at(below, tree),
    }
}

/// A tree of a list, where there is one.
#[inline(always)]
pub fn entry_of<'s, T: Tree<S>, S: 's, W: DemangleWrite, B: Below<'s, T, S, W>>(
    below: B,
    found: Option<T>,
    number: usize,
) -> Option<T>
    ensures { option_map T.tree result ≡ nth number (listed (world_of (B.at below).refers) (option_map T.tree found)) }
{
    match found {
        None => None,
        Some(tree) => part_at(below, tree, number),
    }
}
