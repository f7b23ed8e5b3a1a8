//! What lines depend on.

ghost use Rattle.std.specs.Prelude.{◌≡◌, ◌∷◌, [], ℕ, Some, is_some, option_map, true};
ghost use Rattle.demangle_core.specs.Lookups.{as_prefix, as_type};
ghost use Rattle.demangle_printing.specs.Parameters.{any_set};
ghost use Rattle.demangle_printing.specs.Reader.{is_bare, is_special_tree};
ghost use Rattle.demangle_printing.specs.Rules.{args_of};
ghost use Rattle.demangle_printing.specs.Step.{Test};
ghost use Rattle.demangle_printing.specs.World.{listed};
ghost use Rattle.demangle_meets.specs.Place.{world_of};
ghost use Rattle.demangle_lines.specs.Does.{Says};
ghost use Rattle.demangle_lines.specs.Known.{unqualified};
ghost use Rattle.demangle_lines.specs.Shapes.{flag_shape, is_number, is_tag, is_word_shape};

use crate::at::{
    bytes_of, count_of, entry_of, is_special_at, part_at, part_of_part, part_of_parts,
    prefix_arguments_at, shape_at, shape_of, type_arguments_at,
};
use crate::below::Below;
use crate::tree::{Shape, Tree};
use crate::{bytes, tags};
use demangle_context::DemangleWrite;

/// Whether a tree is a node of this tag.
#[inline(always)]
pub fn is_tag(shape: Shape, number: u8) -> bool
    ensures { result ≡ is_tag number shape }
{
    match shape {
        Shape::Node(tag) => tag == number,
        _ => false,
    }
}

/// Whether a tree is a number.
#[inline(always)]
pub(crate) fn is_number(shape: Shape) -> bool
    ensures { result ≡ is_number shape }
{
    match shape {
        Shape::Number => true,
        _ => false,
    }
}

/// Whether it says that something is so.
#[inline(always)]
fn is_set(shape: Shape) -> bool
    ensures { result ≡ flag_shape shape }
{
    match shape {
        Shape::Flag(is_so) => is_so,
        _ => false,
    }
}

/// Whether it is this word.
#[inline(always)]
fn is_shape_word(shape: Shape, table: u8, word: u8) -> bool
    ensures { result ≡ is_word_shape table word shape }
{
    match shape {
        Shape::Word(its_table, its_word) => table == its_table && word == its_word,
        _ => false,
    }
}

/// Whether an optional part is there.
#[inline(always)]
pub fn is_there<'s, T: Tree<S>, S: 's, W: DemangleWrite, B: Below<'s, T, S, W>>(
    below: B,
    tree: T,
    number: usize,
) -> bool
    ensures { Says (B.at below).refers (T.tree tree) (Test.there (number ∷ [])) result }
{
    is_tag(shape_of(below, part_at(below, tree, number)), tags::PRESENT)
}

/// Whether a part says that something is so.
#[inline(always)]
pub fn is_true<'s, T: Tree<S>, S: 's, W: DemangleWrite, B: Below<'s, T, S, W>>(
    below: B,
    tree: T,
    number: usize,
) -> bool
    ensures { Says (B.at below).refers (T.tree tree) (Test.is_true (number ∷ [])) result }
{
    is_set(shape_of(below, part_at(below, tree, number)))
}

/// Whether a part is this word.
#[inline(always)]
pub fn is_word<'s, T: Tree<S>, S: 's, W: DemangleWrite, B: Below<'s, T, S, W>>(
    below: B,
    tree: T,
    table: u8,
    word: u8,
    number: usize,
) -> bool
    ensures { Says (B.at below).refers (T.tree tree) (Test.is_word table word (number ∷ [])) result }
{
    is_shape_word(shape_of(below, part_at(below, tree, number)), table, word)
}

/// Whether a part of a part is this word.
#[inline(always)]
pub fn is_inner_word<'s, T: Tree<S>, S: 's, W: DemangleWrite, B: Below<'s, T, S, W>>(
    below: B,
    tree: T,
    table: u8,
    word: u8,
    first: usize,
    second: usize,
) -> bool
    ensures { Says (B.at below).refers (T.tree tree) (Test.is_word table word (first ∷ second ∷ [])) result }
{
    is_shape_word(
        shape_of(below, part_of_part(below, tree, first, second)),
        table,
        word,
    )
}

/// Whether a part of a part of a part is this word.
pub fn is_innermost_word<'s, T: Tree<S>, S: 's, W: DemangleWrite, B: Below<'s, T, S, W>>(
    below: B,
    tree: T,
    table: u8,
    word: u8,
    first: usize,
    second: usize,
    third: usize,
) -> bool
    ensures { Says (B.at below).refers (T.tree tree) (Test.is_word table word (first ∷ second ∷ third ∷ [])) result }
{
    is_shape_word(
        shape_of(below, part_of_parts(below, tree, first, second, third)),
        table,
        word,
    )
}

/// Whether the bytes of a part are these.
pub fn spells<'s, T: Tree<S>, S: 's, W: DemangleWrite, B: Below<'s, T, S, W>>(
    below: B,
    tree: T,
    word: &[u8],
    number: usize,
) -> bool
    ensures { Says (B.at below).refers (T.tree tree) (Test.spells word.now (number ∷ [])) result }
{
    bytes::spells(word, bytes_of(below, part_at(below, tree, number)))
}

/// Whether the bytes of a part begin with the sign of a literal.
pub fn is_negative<'s, T: Tree<S>, S: 's, W: DemangleWrite, B: Below<'s, T, S, W>>(
    below: B,
    tree: T,
    number: usize,
) -> bool
    ensures { Says (B.at below).refers (T.tree tree) (Test.negative (number ∷ [])) result }
{
    bytes::is_negative(bytes_of(below, part_at(below, tree, number)))
}

/// Whether the bytes of a part name an anonymous namespace.
pub fn is_anonymous<'s, T: Tree<S>, S: 's, W: DemangleWrite, B: Below<'s, T, S, W>>(
    below: B,
    tree: T,
    number: usize,
) -> bool
    ensures { Says (B.at below).refers (T.tree tree) (Test.anonymous (number ∷ [])) result }
{
    bytes::is_anonymous(bytes_of(below, part_at(below, tree, number)))
}

/// Whether it is seen at once that nothing is so of which the parts of a list speak.
#[inline(always)]
fn is_unqualified<T: Tree<S>, S>(found: Option<T>) -> bool
    ensures { result ≡ true → option_map T.tree found ≡ Some unqualified }
{
    match found {
        None => false,
        Some(tree) => tree.is_unqualified(),
    }
}

/// Whether some part of a list says that something is so.
#[inline(always)]
pub fn any_set<'s, T: Tree<S>, S: 's, W: DemangleWrite, B: Below<'s, T, S, W>>(
    below: B,
    list: Option<T>,
) -> bool
    ensures { result ≡ any_set (world_of (B.at below).refers) (listed (world_of (B.at below).refers) (option_map T.tree
        list)) }
{
    if is_unqualified(list) {
        return false;
    }
    let count = count_of(below, list);
    for number in 0..count {
        if is_set(shape_of(below, entry_of(below, list, number))) {
            return true;
        }
    }
    false
}

/// Whether some qualifier is there.
#[inline(always)]
pub fn is_qualified<'s, T: Tree<S>, S: 's, W: DemangleWrite, B: Below<'s, T, S, W>>(
    below: B,
    tree: T,
    number: usize,
) -> bool
    ensures { Says (B.at below).refers (T.tree tree) (Test.qualified (number ∷ [])) result }
{
    any_set(below, part_at(below, tree, number))
}

/// Whether a name has template arguments.
fn prefix_has_arguments<'s, T: Tree<S>, S: 's, W: DemangleWrite, B: Below<'s, T, S, W>>(
    below: B,
    found: Option<T>,
) -> bool
    ensures { result ≡ is_some (args_of (world_of (B.at below).refers) as_prefix (option_map T.tree found)) }
{
    match found {
        None => false,
        Some(tree) => prefix_arguments_at(below, tree).is_some(),
    }
}

/// Whether a part has template arguments, as a name.
#[inline(always)]
pub fn has_prefix_arguments<'s, T: Tree<S>, S: 's, W: DemangleWrite, B: Below<'s, T, S, W>>(
    below: B,
    tree: T,
    number: usize,
) -> bool
    ensures { Says (B.at below).refers (T.tree tree) (Test.has_args as_prefix (number ∷ [])) result }
{
    prefix_has_arguments(below, part_at(below, tree, number))
}

/// Whether a type has template arguments.
fn type_has_arguments<'s, T: Tree<S>, S: 's, W: DemangleWrite, B: Below<'s, T, S, W>>(
    below: B,
    found: Option<T>,
) -> bool
    ensures { result ≡ is_some (args_of (world_of (B.at below).refers) as_type (option_map T.tree found)) }
{
    match found {
        None => false,
        Some(tree) => type_arguments_at(below, tree).is_some(),
    }
}

/// Whether a part has template arguments, as a type.
pub fn has_type_arguments<'s, T: Tree<S>, S: 's, W: DemangleWrite, B: Below<'s, T, S, W>>(
    below: B,
    tree: T,
    number: usize,
) -> bool
    ensures { Says (B.at below).refers (T.tree tree) (Test.has_args as_type (number ∷ [])) result }
{
    type_has_arguments(below, part_at(below, tree, number))
}

/// Whether it is a constructor, a destructor or a conversion.
fn special<'s, T: Tree<S>, S: 's, W: DemangleWrite, B: Below<'s, T, S, W>>(
    below: B,
    found: Option<T>,
) -> bool
    ensures { result ≡ is_special_tree (world_of (B.at below).refers) (option_map T.tree found) }
{
    match found {
        None => false,
        Some(tree) => is_special_at(below, tree),
    }
}

/// Whether a part is a constructor, a destructor or a conversion.
pub fn is_special<'s, T: Tree<S>, S: 's, W: DemangleWrite, B: Below<'s, T, S, W>>(
    below: B,
    tree: T,
    number: usize,
) -> bool
    ensures { Says (B.at below).refers (T.tree tree) (Test.special (number ∷ [])) result }
{
    special(below, part_at(below, tree, number))
}

/// Whether it is a parameter or a name.
fn is_bare_tree<'s, T: Tree<S>, S: 's, W: DemangleWrite, B: Below<'s, T, S, W>>(
    below: B,
    tree: T,
) -> bool
    ensures { result ≡ is_bare (world_of (B.at below).refers) (Some (T.tree tree)) }
{
    let shape = shape_at(below, tree);
    if is_tag(shape, tags::EXPRESSION_FUNCTION_PARAM) {
        return true;
    }
    if is_tag(shape, tags::EXPRESSION_PRIMARY) {
        return is_tag(
            shape_of(below, part_at(below, tree, 0)),
            tags::EXPR_PRIMARY_EXTERNAL,
        );
    }
    false
}

/// Whether an operand stands without parentheses, as a parameter or a name.
pub(crate) fn is_bare<'s, T: Tree<S>, S: 's, W: DemangleWrite, B: Below<'s, T, S, W>>(
    below: B,
    found: Option<T>,
) -> bool
    ensures { result ≡ is_bare (world_of (B.at below).refers) (option_map T.tree found) }
{
    match found {
        None => true,
        Some(tree) => is_bare_tree(below, tree),
    }
}
