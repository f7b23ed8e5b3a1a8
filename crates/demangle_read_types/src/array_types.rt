//! Arrays, vectors and pointers to members, ABI section 5.1.5.

ghost use Rattle.std.specs.Prelude.{◌≤◌};
ghost use Rattle.demangle_grammar.specs.Rule.{Row};
ghost use Rattle.demangle_cells.specs.Reads.{ReadsRow};
ghost use Rattle.demangle_cells.specs.View.{Grown, view};

use crate::made::{made_one, made_two, restored};
use demangle_cells::{Arena, Cell, Depth, Part, Tag, Text, passed};
use demangle_read_below::Below;
use demangle_read_rows::{unsigned, word};
use demangle_text::Result;

/// An array, ABI section 5.1.5.
///
/// ```text
/// <array-type> ::= A <positive dimension number> _ <element type>
///              ::= A <dimension expression> _ <element type> | A _ <element type>
/// ```
#[tactic(auto, using(demangle_cells::proofs::Grows::grows, demangle_cells::proofs::Grows::cuts), unfolding(demangle_grammar::specs::Code::cread, demangle_grammar::specs::Rows::rule))]
pub fn array_type<B: Below>(
    below: B,
    arena: &mut Arena,
    depth: Depth,
    text: Text<'_>,
    at: u32,
) -> Result<Part>
    requires can { B.can below }
    requires room { depth.levels ≤ B.most below }
    ensures grown { Grown (view arena.old) (view arena.new) }
    ensures reads { ReadsRow Row.array_type depth.levels depth.conversion text.entry at result
        (view arena.old) (view arena.new) }
{
    let depth = depth.enter()?;
    let rest = word(text, at, b"A")?;
    if let Ok((dimension, rest)) = unsigned(text, rest, 10) {
        let rest = word(text, rest, b"_")?;
        let element = below.type_handle(arena, depth, text, rest)?;
        let dimension = arena.push(Cell::Number(dimension as isize))?;
        return made_two(arena, Tag::ArrayTypeDimensionNumber, dimension, element);
    }
    let mark = arena.mark();
    match passed(below.expression(arena, depth, text, rest))? {
        Ok(dimension) => {
            let answer = word(text, dimension.end, b"_");
            let rest = restored(arena, mark, answer)?;
            let answer = below.type_handle(arena, depth, text, rest);
            let element = restored(arena, mark, answer)?;
            made_two(
                arena,
                Tag::ArrayTypeDimensionExpression,
                dimension.id,
                element,
            )
        }
        Err(_) => {
            let rest = word(text, rest, b"_")?;
            let element = below.type_handle(arena, depth, text, rest)?;
            made_one(arena, Tag::ArrayTypeNoDimension, element)
        }
    }
}

/// A vector, an extension of compilers, ABI section 5.1.5.
///
/// ```text
/// <vector-type> ::= Dv <number> _ <type> | Dv <expression> _ <type>
/// ```
#[tactic(auto, using(demangle_cells::proofs::Grows::grows, demangle_cells::proofs::Grows::cuts), unfolding(demangle_grammar::specs::Code::cread, demangle_grammar::specs::Rows::rule))]
pub fn vector_type<B: Below>(
    below: B,
    arena: &mut Arena,
    depth: Depth,
    text: Text<'_>,
    at: u32,
) -> Result<Part>
    requires can { B.can below }
    requires room { depth.levels ≤ B.most below }
    ensures grown { Grown (view arena.old) (view arena.new) }
    ensures reads { ReadsRow Row.vector_type depth.levels depth.conversion text.entry at result
        (view arena.old) (view arena.new) }
{
    let depth = depth.enter()?;
    let rest = word(text, at, b"Dv")?;
    if let Ok((dimension, rest)) = unsigned(text, rest, 10) {
        let rest = word(text, rest, b"_")?;
        let element = below.type_handle(arena, depth, text, rest)?;
        let dimension = arena.push(Cell::Number(dimension as isize))?;
        return made_two(arena, Tag::VectorTypeDimensionNumber, dimension, element);
    }
    let mark = arena.mark();
    let dimension = below.expression(arena, depth, text, rest)?;
    let answer = word(text, dimension.end, b"_");
    let rest = restored(arena, mark, answer)?;
    let answer = below.type_handle(arena, depth, text, rest);
    let element = restored(arena, mark, answer)?;
    made_two(
        arena,
        Tag::VectorTypeDimensionExpression,
        dimension.id,
        element,
    )
}

/// A pointer to a member: the class and the type of the member, ABI section 5.1.5.
///
/// ```text
/// <pointer-to-member-type> ::= M <class type> <member type>
/// ```
#[tactic(auto, using(demangle_cells::proofs::Grows::grows, demangle_cells::proofs::Grows::cuts), unfolding(demangle_grammar::specs::Code::cread, demangle_grammar::specs::Rows::rule))]
pub fn pointer_to_member_type<B: Below>(
    below: B,
    arena: &mut Arena,
    depth: Depth,
    text: Text<'_>,
    at: u32,
) -> Result<Part>
    requires can { B.can below }
    requires room { depth.levels ≤ B.most below }
    ensures grown { Grown (view arena.old) (view arena.new) }
    ensures reads { ReadsRow Row.pointer_to_member_type depth.levels depth.conversion text.entry at result
        (view arena.old) (view arena.new) }
{
    let depth = depth.enter()?;
    let rest = word(text, at, b"M")?;
    let mark = arena.mark();
    let class = below.type_handle(arena, depth, text, rest)?;
    let answer = below.type_handle(arena, depth, text, class.end);
    let member = restored(arena, mark, answer)?;
    made_two(arena, Tag::PointerToMemberType, class.id, member)
}
