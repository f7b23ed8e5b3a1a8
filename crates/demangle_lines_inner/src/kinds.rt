//! What kind of node an item is.

ghost use Rattle.std.specs.Prelude.{◌≡◌, ◌==◌, option_map};
ghost use Rattle.demangle_core.specs.Core.{code};
ghost use Rattle.demangle_printing.specs.Arrays.{is_array_tree, qualified_turn, turn_node};
ghost use Rattle.demangle_printing.specs.Parameters.{is_kept};
ghost use Rattle.demangle_printing.specs.Rules.{of_handle, tag};
ghost use Rattle.demangle_meets.specs.Place.{world_of};
ghost use Rattle.demangle_lines_inner.specs.Kinds.{number_holds, number_turn, turn_of};

use crate::tags;
use demangle_context::DemangleWrite;
use demangle_lines::{Below, Shape, Tree, any_set, part_at, shape_at};

/// What an item is to the array that it stands around.
#[derive(Clone, Copy, Debug)]
pub(crate) enum ArrayTurn {
    /// An array of arrays.
    Array,
    /// A qualified array.
    Elements,
    /// Another qualified type.
    Qualified,
    /// Any other.
    Other,
}

/// Whether the number of a tag is this one.
#[inline(always)]
pub(crate) fn is(number: u8, tag: u8) -> bool
    ensures { result ≡ (number == tag) }
{
    number == tag
}

/// The number of a node's tag; 1, as of an optional part that isn't there, where it is no node.
#[inline(always)]
pub fn tag_of<'s, T: Tree<S>, S: 's, W: DemangleWrite, B: Below<'s, T, S, W>>(
    below: B,
    tree: T,
) -> u8
    ensures { result ≡ code (tag (world_of (B.at below).refers) (T.tree tree)) }
{
    match shape_at(below, tree) {
        Shape::Node(tag) => tag,
        _ => 1,
    }
}

/// Whether an item is the type of a function that has qualifiers, which stand behind its parameters.
pub(crate) fn is_kept<'s, T: Tree<S>, S: 's, W: DemangleWrite, B: Below<'s, T, S, W>>(
    below: B,
    item: T,
) -> bool
    ensures { result ≡ is_kept (world_of (B.at below).refers) (T.tree item) }
{
    let number = tag_of(below, item);
    if is(number, tags::FUNCTION_TYPE) {
        return any_set(below, part_at(below, item, 0));
    }
    false
}

/// Whether the number of a tag is that of a handle that holds its tree in place, or of a component.
fn is_handle(number: u8) -> bool
    ensures { result ≡ number_holds number }
{
    number == tags::WELL_KNOWN
        || number == tags::TYPE_HANDLE_BUILTIN
        || number == tags::TYPE_HANDLE_QUALIFIED_BUILTIN
        || (tags::SUBSTITUTABLE_UNSCOPED_TEMPLATE_NAME <= number
            && number <= tags::SUBSTITUTABLE_EXPRESSION)
}

/// Whether a tree is an array.
fn is_array_part<'s, T: Tree<S>, S: 's, W: DemangleWrite, B: Below<'s, T, S, W>>(
    below: B,
    found: Option<T>,
) -> bool
    ensures { result ≡ is_array_tree (world_of (B.at below).refers) (option_map T.tree found) }
{
    match found {
        None => false,
        Some(tree) => is(tag_of(below, tree), tags::TYPE_NODE_ARRAY),
    }
}

/// Whether what a handle holds or refers to is an array.
fn is_array<'s, T: Tree<S>, S: 's, W: DemangleWrite, B: Below<'s, T, S, W>>(
    below: B,
    found: Option<T>,
) -> bool
    ensures { result ≡ is_array_tree (world_of (B.at below).refers) (of_handle (world_of (B.at below).refers) (option_map
        T.tree found)) }
{
    let Some(tree) = found else {
        return false;
    };
    let number = tag_of(below, tree);
    if is_handle(number) {
        return is_array_part(below, part_at(below, tree, 0));
    }
    is(number, tags::TYPE_NODE_ARRAY)
}

/// What a qualified type is, where it is known whether it is an array.
fn array_turn(is_array: bool) -> ArrayTurn
    ensures { turn_of result ≡ qualified_turn is_array }
{
    if is_array {
        return ArrayTurn::Elements;
    }
    ArrayTurn::Qualified
}

/// What another item is, by the number of its tag.
fn tag_turn(number: u8) -> ArrayTurn
    ensures { turn_of result ≡ number_turn number }
{
    if is(number, tags::ARRAY_TYPE_DIMENSION_NUMBER) {
        return ArrayTurn::Array;
    }
    if is(number, tags::ARRAY_TYPE_DIMENSION_EXPRESSION) {
        return ArrayTurn::Array;
    }
    if is(number, tags::ARRAY_TYPE_NO_DIMENSION) {
        return ArrayTurn::Array;
    }
    ArrayTurn::Other
}

/// What an item is to the array.
pub(crate) fn item_turn<'s, T: Tree<S>, S: 's, W: DemangleWrite, B: Below<'s, T, S, W>>(
    below: B,
    item: T,
) -> ArrayTurn
    ensures { turn_of result ≡ turn_node (world_of (B.at below).refers) (T.tree item) (tag (world_of (B.at below).refers)
        (T.tree item)) }
{
    let number = tag_of(below, item);
    if is(number, tags::TYPE_NODE_QUALIFIED) {
        return array_turn(is_array(below, part_at(below, item, 1)));
    }
    tag_turn(number)
}
