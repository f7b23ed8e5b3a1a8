//! Numbers, and references to components by their numbers.

ghost use Rattle.std.specs.Prelude.{◌≡◌, ◌<◌, ◌^◌, IfOk};
ghost use Rattle.demangle_core.specs.Core.{N};
ghost use Rattle.demangle_core.specs.Table.{Table, size};
ghost use Rattle.demangle_leaf_nodes.specs.TreeLeaves.{tree_of_signed, tree_of_seq_id, tree_of_discriminator};
ghost use Rattle.demangle_leaf_nodes.specs.TreeLeaves.{tree_of_substitution};
ghost use Rattle.demangle_grammar.specs.Rule.{Row};
ghost use Rattle.demangle_leaf_rows.specs.Answers.{AnswersLeaf, AnswersRow};

use crate::bytes::digit_at;
use crate::depth::{Depth, hidden};
use crate::read_leaf::ReadLeaf;
use demangle_leaf_nodes::{Discriminator, Number, SeqId, Substitution};
use demangle_text::{Error, IndexStr, Result, consume, parse_number, parse_unsigned};
use demangle_vocab::WellKnownComponent;

/// A number, with its sign. ABI section 5.1.2.
///
/// ```text
/// <number> ::= [n] <non-negative decimal integer>
/// ```
impl ReadLeaf for Number {
    ghost leaf_row = { Row.number };

    ghost leaf_tree = { tree_of_signed };

    #[tactic(auto, unfolding(demangle_grammar::specs::Code::cread, demangle_grammar::specs::Rows::rule))]
    fn read_leaf<'b>(depth: Depth, input: IndexStr<'b>) -> Result<(Number, IndexStr<'b>)> {
        let _depth = depth.enter()?;
        parse_number(10, true, input)
    }
}

/// The number of a component, below 2^63, so that 1 can be added. ABI section 5.1.10.
///
/// ```text
/// <seq-id> ::= <0-9A-Z>+
/// ```
#[tactic(auto, unfolding(demangle_grammar::specs::Code::cread, demangle_grammar::specs::Rows::rule))]
pub fn seq_id<'b>(depth: Depth, input: IndexStr<'b>) -> Result<(SeqId, IndexStr<'b>)>
    ensures reads { AnswersLeaf tree_of_seq_id Row.seq_id depth.levels depth.conversion input.entry result }
    ensures small { IfOk result (λ x. x.0.0 < 2 ^ 63) }
{
    let _depth = depth.enter()?;
    let (number, rest) = parse_unsigned(36, input)?;
    Ok((SeqId(number), rest))
}

/// The number of a component, as `seq_id` reads it.
impl ReadLeaf for SeqId {
    ghost leaf_row = { Row.seq_id };

    ghost leaf_tree = { tree_of_seq_id };

    #[tactic(auto, unfolding(demangle_grammar::specs::Code::cread, demangle_grammar::specs::Rows::rule))]
    fn read_leaf<'b>(depth: Depth, input: IndexStr<'b>) -> Result<(SeqId, IndexStr<'b>)> {
        seq_id(depth, input)
    }
}

/// Tells local entities of one name apart. ABI section 5.1.7.
///
/// ```text
/// <discriminator> ::= _ <non-negative number>      # below 10
///                 ::= __ <non-negative number> _   # from 10 on
/// ```
impl ReadLeaf for Discriminator {
    ghost leaf_row = { Row.discriminator };

    ghost leaf_tree = { tree_of_discriminator };

    #[tactic(auto, unfolding(demangle_grammar::specs::Code::cread, demangle_grammar::specs::Rows::rule))]
    fn read_leaf<'b>(depth: Depth, input: IndexStr<'b>) -> Result<(Discriminator, IndexStr<'b>)> {
        let _depth = depth.enter()?;
        let rest = consume(b"_", input)?;
        if let Ok(rest) = consume(b"_", rest) {
            let (number, rest) = parse_unsigned(10, rest)?;
            if number < 10 {
                return Err(Error::UnexpectedText);
            }
            let rest = consume(b"_", rest)?;
            return Ok((Discriminator(number), rest));
        }
        let (digit, rest) = digit_at(rest)?;
        Ok((Discriminator(digit as usize), rest))
    }
}

/// A reference to a numbered component of a table that has so many, or one of the abbreviated names of `std`. ABI
/// section 5.1.10.
///
/// ```text
/// <substitution> ::= S_ | S <seq-id> _
///                ::= St | Sa | Sb | Ss | Si | So | Sd
/// ```
#[inline(always)]
#[tactic(auto, unfolding(demangle_grammar::specs::Code::cread, demangle_grammar::specs::Rows::rule))]
pub fn substitution<'b>(
    depth: Depth,
    components: usize,
    input: IndexStr<'b>,
) -> Result<(Substitution, IndexStr<'b>)>
    ensures { (table : Table) → size N table ≡ components
        → AnswersRow tree_of_substitution Row.substitution depth.levels depth.conversion input.entry result table }
{
    let depth = depth.enter()?;
    if let Some((component, rest)) = hidden(WellKnownComponent::read_leaf(depth, input))? {
        return Ok((Substitution::WellKnown(component), rest));
    }
    let rest = consume(b"S", input)?;
    let (index, rest) = match hidden(seq_id(depth, rest))? {
        Some((SeqId(number), rest)) => (number + 1, rest),
        None => (0, rest),
    };
    if index >= components {
        return Err(Error::BadBackReference);
    }
    let rest = consume(b"_", rest)?;
    Ok((Substitution::BackReference(index), rest))
}
