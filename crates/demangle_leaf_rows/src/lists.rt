//! Rows with a list: they take memory.

ghost use Rattle.std.specs.Prelude.{◌≡◌, ◌<◌, ◌^◌, IfOk};
ghost use Rattle.demangle_text.specs.Kind.{Gives};
ghost use Rattle.demangle_text.specs.Spot.{spot};
ghost use Rattle.demangle_leaf_nodes.specs.TreeLeaves.{tree_of_abi_tags, tree_of_clone_suffix};
ghost use Rattle.demangle_grammar.specs.Rule.{Row};
ghost use Rattle.demangle_leaf_rows.specs.Answers.{AnswersLeafOrOutOfMemory};
ghost use Rattle.demangle_leaf_rows.specs.DottedNumbers.{AnswersNumbers, dotted_number};

use crate::depth::{Depth, hidden};
use crate::read_leaf::ReadLeaf;
use demangle_leaf_nodes::{AbiTag, AbiTags, CloneSuffix, CloneTypeIdentifier};
use demangle_text::{IndexStr, Result, consume, parse_unsigned};
use std::alloc::Global;

/// The ABI tags at the front, of which there may be none. ABI section 5.1.2.
///
/// ```text
/// <abi-tags> ::= <abi-tag>*
/// ```
#[inline(always)]
#[tactic(auto, using(crate::proofs::Tags::tags), unfolding(demangle_grammar::specs::Code::cread))]
pub fn abi_tags<'b>(
    alloc: Global,
    depth: Depth,
    input: IndexStr<'b>,
) -> Result<(AbiTags, IndexStr<'b>)>
    ensures { AnswersLeafOrOutOfMemory tree_of_abi_tags Row.abi_tags depth.levels depth.conversion input.entry result }
{
    let depth = depth.enter()?;
    let mut tags = Vec::new(alloc);
    let mut rest = input;
    loop {
        match hidden(AbiTag::read_leaf(depth, rest)) {
            Ok(Some((tag, after))) => {
                tags.push(tag)?;
                rest = after;
            }
            Ok(None) => return Ok((AbiTags(tags), rest)),
            Err(error) => return Err(error),
        }
    }
}

/// A dot and a number.
#[tactic(auto, unfolding(crate::specs::DottedNumbers::dotted_number))]
fn dot_and_number<'b>(input: IndexStr<'b>) -> Result<(usize, IndexStr<'b>)>
    ensures reads { Gives (λ x. (x.0, spot x.1)) result (dotted_number (spot input.entry)) }
    ensures small { IfOk result (λ x. x.0 < 2 ^ 63) }
{
    let rest = consume(b".", input)?;
    parse_unsigned(10, rest)
}

/// As many dots, each with a number behind it, as stand at the front.
#[tactic(auto, using(crate::proofs::DottedNumbers::numbers))]
fn dotted_numbers<'b>(alloc: Global, input: IndexStr<'b>) -> Result<(Vec<isize>, IndexStr<'b>)>
    ensures { AnswersNumbers input.entry result }
{
    let mut numbers = Vec::new(alloc);
    let mut rest = input;
    while let Ok((number, after)) = dot_and_number(rest) {
        numbers.push(number as isize)?;
        rest = after;
    }
    Ok((numbers, rest))
}

/// The suffix of a clone. An addition of compilers.
///
/// ```text
/// <clone-suffix> ::= . <clone-type-identifier> {. <non-negative number>}*
/// ```
#[tactic(auto, unfolding(demangle_grammar::specs::Code::cread, demangle_grammar::specs::Rows::rule))]
pub fn clone_suffix<'b>(
    alloc: Global,
    depth: Depth,
    input: IndexStr<'b>,
) -> Result<(CloneSuffix, IndexStr<'b>)>
    ensures { AnswersLeafOrOutOfMemory tree_of_clone_suffix Row.clone_suffix
        depth.levels depth.conversion input.entry result }
{
    let depth = depth.enter()?;
    let rest = consume(b".", input)?;
    let (identifier, rest) = CloneTypeIdentifier::read_leaf(depth, rest)?;
    let (numbers, rest) = dotted_numbers(alloc, rest)?;
    Ok((CloneSuffix(identifier, numbers), rest))
}
