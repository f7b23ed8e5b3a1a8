//! The names of operators in expressions, with how many operands they take.

ghost use Rattle.std.specs.Prelude.{◌≡◌, ◌≤◌, IfOk};
ghost use Rattle.demangle_text.specs.Kind.{Gives};
ghost use Rattle.demangle_core.specs.Core.{chosen, end};
ghost use Rattle.demangle_grammar.specs.Reading.{arity_in};
ghost use Rattle.demangle_vocab.specs.Operators.{operator_words};
ghost use Rattle.demangle_vocab.specs.WordTable.{table_from};
ghost use Rattle.demangle_cells.specs.Reads.{spot_at};
ghost use Rattle.demangle_cells.specs.View.{Grown, view};
ghost use Rattle.demangle_read_expressions.specs.Operators.{ReadsOperator, ReadsSimple};

use demangle_cells::{Arena, Cell, Depth, Tag, Text, operator_id, passed};
use demangle_read_below::Below;
use demangle_read_rows::{behind, digit, source_name, word};
use demangle_text::{IndexStr, Result};
use demangle_vocab::SimpleOperatorName;

/// An operator that is a word: the number of the word, how many operands it takes, and where the text goes on.
#[derive(Clone, Copy)]
pub struct Word {
    pub word: u8,
    pub count: u8,
    pub end: u32,
}

/// The name of an operator: its index, how many operands it takes, and where the text goes on.
#[derive(Clone, Copy)]
pub struct Operator {
    pub id: u32,
    pub count: u8,
    pub end: u32,
}

/// The operator that is the word there. Refused as the table of operators is.
#[tactic(auto, using(demangle_read_rows::proofs::Places::tables))]
fn operator_there(text: Text<'_>, at: u32) -> Result<Word>
    ensures word { Gives (λ x. (x.word, spot_at text.entry x.end)) result
        (table_from operator_words (spot_at text.entry at)) }
    ensures count { IfOk result (λ x. arity_in (chosen 0 x.word end) ≡ x.count) }
{
    let (operator, rest) = SimpleOperatorName::read_word(IndexStr::new(text.rest(at)))?;
    Ok(Word {
        word: operator.number(),
        count: operator.arity(),
        end: behind(text, at, rest.index()),
    })
}

/// An operator whose name is one word. ABI section 5.1.3.
#[tactic(auto, unfolding(demangle_grammar::specs::Code::cread, demangle_grammar::specs::Rows::rule))]
pub fn simple_operator(depth: Depth, text: Text<'_>, at: u32) -> Result<Word>
    ensures { ReadsSimple depth.levels depth.conversion text.entry at result }
{
    let _depth = depth.enter()?;
    operator_there(text, at)
}

/// The name of an operator. The type of a conversion operator is read with the conversion flag set. ABI section 5.1.3.
///
/// ```text
/// <operator-name> ::= nw | na | dl | ..   # a word of the table
///                 ::= cv <type> | li <source-name> | v <digit> <source-name>
/// ```
#[tactic(auto, using(demangle_cells::proofs::Grows::grows), unfolding(demangle_grammar::specs::Code::cread, demangle_grammar::specs::Rows::rule))]
pub fn counted_operator<B: Below>(
    below: B,
    arena: &mut Arena,
    depth: Depth,
    text: Text<'_>,
    at: u32,
) -> Result<Operator>
    requires can { B.can below }
    requires room { depth.levels ≤ B.most below }
    ensures grown { Grown (view arena.old) (view arena.new) }
    ensures reads { ReadsOperator depth.levels depth.conversion text.entry at result
        (view arena.old) (view arena.new) }
{
    let depth = depth.enter()?;
    if let Ok(found) = passed(simple_operator(depth, text, at))? {
        return Ok(Operator {
            id: operator_id(found.word),
            count: found.count,
            end: found.end,
        });
    }
    if let Ok(rest) = word(text, at, b"cv") {
        let converted = Depth {
            levels: depth.levels,
            conversion: true,
        };
        let ty = below.type_handle(arena, converted, text, rest)?;
        let id = arena.push(Cell::One(Tag::OperatorNameConversion, ty.id))?;
        return Ok(Operator {
            id,
            count: 0,
            end: ty.end,
        });
    }
    if let Ok(rest) = word(text, at, b"li") {
        let name = source_name(arena, depth, text, rest)?;
        let id = arena.push(Cell::One(Tag::OperatorNameLiteral, name.id))?;
        return Ok(Operator {
            id,
            count: 1,
            end: name.end,
        });
    }
    let rest = word(text, at, b"v")?;
    let (count, rest) = digit(text, rest)?;
    let name = source_name(arena, depth, text, rest)?;
    let arity = arena.push(Cell::Number(count as isize))?;
    let id = arena.push(Cell::Two(Tag::OperatorNameVendorExtension, arity, name.id))?;
    Ok(Operator {
        id,
        count,
        end: name.end,
    })
}
