//! The rows of one word of a table.

ghost use Rattle.std.specs.Prelude.{◌≡◌, ℕ};
ghost use Rattle.demangle_text.specs.Kind.{Gives};
ghost use Rattle.demangle_core.specs.Core.{Core};
ghost use Rattle.demangle_grammar.specs.Rule.{Row};
ghost use Rattle.demangle_cells.specs.View.{view, table, Grown};
ghost use Rattle.demangle_cells.specs.Reads.{spot_at, ReadsRow};
ghost use Rattle.demangle_vocab.specs.Builtins.{builtin_words};
ghost use Rattle.demangle_vocab.specs.Components.{component_words};
ghost use Rattle.demangle_vocab.specs.Operators.{operator_words};
ghost use Rattle.demangle_vocab.specs.Qualifiers.{explicit_object_words, ref_qualifier_words};
ghost use Rattle.demangle_vocab.specs.WordTable.{table_from};

use crate::bytes::behind;
use demangle_cells::{Arena, Depth, Part, Text, WordTable, word_id};
use demangle_text::{IndexStr, Result};
use demangle_vocab::{
    ExplicitObjectParameter, RefQualifier, SimpleOperatorName, StandardBuiltinType,
    WellKnownComponent,
};

/// The number of the operator there, and where the text goes on. Where no word of the table is there, `UnexpectedEnd`
/// exactly where all bytes that are left are a proper prefix of a word, as no bytes are, and else `UnexpectedText`.
#[tactic(auto, using(crate::proofs::Places::tables))]
pub fn operator_word(text: Text<'_>, at: u32) -> Result<(u8, u32)>
    ensures { Gives (λ x. (x.0, spot_at text.entry x.1)) result (table_from operator_words (spot_at text.entry at)) }
{
    let (word, rest) = SimpleOperatorName::read_word(IndexStr::new(text.rest(at)))?;
    Ok((word.number(), behind(text, at, rest.index())))
}

/// An operator whose name is one word. ABI section 5.1.3.
///
/// ```text
/// <operator-name> ::= nw | na | dl | da | ..   # a word of the table
/// ```
#[tactic(auto, using(demangle_cells::proofs::Grows::grows), unfolding(demangle_grammar::specs::Code::cread, demangle_grammar::specs::Rows::rule))]
pub fn simple_operator_name(
    arena: &mut Arena,
    depth: Depth,
    text: Text<'_>,
    at: u32,
) -> Result<Part>
    ensures grown { Grown (view arena.old) (view arena.new) }
    ensures reads { ReadsRow Row.simple_operator_name depth.levels depth.conversion text.entry at result
        (view arena.old) (view arena.new) }
    ensures table { (F : ℕ → Core) → table F (view arena.new) ≡ table F (view arena.old) }
{
    let _depth = depth.enter()?;
    let (word, end) = operator_word(text, at)?;
    Ok(Part {
        id: word_id(WordTable::Operators, word),
        end,
    })
}

/// The number of the builtin type there, and where the text goes on. Where no word of the table is there,
/// `UnexpectedEnd` exactly where all bytes that are left are a proper prefix of a word, as no bytes are, and else
/// `UnexpectedText`.
#[tactic(auto, using(crate::proofs::Places::tables))]
pub fn builtin_word(text: Text<'_>, at: u32) -> Result<(u8, u32)>
    ensures { Gives (λ x. (x.0, spot_at text.entry x.1)) result (table_from builtin_words (spot_at text.entry at)) }
{
    let (word, rest) = StandardBuiltinType::read_word(IndexStr::new(text.rest(at)))?;
    Ok((word.number(), behind(text, at, rest.index())))
}

/// A builtin type whose name is one word. ABI section 5.1.5.2.
///
/// ```text
/// <builtin-type> ::= v | w | b | c | ..   # a word of the table
/// ```
#[tactic(auto, using(demangle_cells::proofs::Grows::grows), unfolding(demangle_grammar::specs::Code::cread, demangle_grammar::specs::Rows::rule))]
pub fn standard_builtin_type(
    arena: &mut Arena,
    depth: Depth,
    text: Text<'_>,
    at: u32,
) -> Result<Part>
    ensures grown { Grown (view arena.old) (view arena.new) }
    ensures reads { ReadsRow Row.standard_builtin_type depth.levels depth.conversion text.entry at result
        (view arena.old) (view arena.new) }
    ensures table { (F : ℕ → Core) → table F (view arena.new) ≡ table F (view arena.old) }
{
    let _depth = depth.enter()?;
    let (word, end) = builtin_word(text, at)?;
    Ok(Part {
        id: word_id(WordTable::Builtins, word),
        end,
    })
}

/// The number of the abbreviated name there, and where the text goes on. Where no word of the table is there,
/// `UnexpectedEnd` exactly where all bytes that are left are a proper prefix of a word, as no bytes are, and else
/// `UnexpectedText`.
#[tactic(auto, using(crate::proofs::Places::tables))]
pub fn component_word(text: Text<'_>, at: u32) -> Result<(u8, u32)>
    ensures { Gives (λ x. (x.0, spot_at text.entry x.1)) result (table_from component_words (spot_at text.entry at)) }
{
    let (word, rest) = WellKnownComponent::read_word(IndexStr::new(text.rest(at)))?;
    Ok((word.number(), behind(text, at, rest.index())))
}

/// One of the abbreviated names of `std`. ABI section 5.1.10.
///
/// ```text
/// <substitution> ::= St | Sa | Sb | Ss | Si | So | Sd
/// ```
#[tactic(auto, using(demangle_cells::proofs::Grows::grows), unfolding(demangle_grammar::specs::Code::cread, demangle_grammar::specs::Rows::rule))]
pub fn well_known_component(
    arena: &mut Arena,
    depth: Depth,
    text: Text<'_>,
    at: u32,
) -> Result<Part>
    ensures grown { Grown (view arena.old) (view arena.new) }
    ensures reads { ReadsRow Row.well_known_component depth.levels depth.conversion text.entry at result
        (view arena.old) (view arena.new) }
    ensures table { (F : ℕ → Core) → table F (view arena.new) ≡ table F (view arena.old) }
{
    let _depth = depth.enter()?;
    let (word, end) = component_word(text, at)?;
    Ok(Part {
        id: word_id(WordTable::Components, word),
        end,
    })
}

/// The number of the ref-qualifier there, and where the text goes on. Where no word of the table is there,
/// `UnexpectedEnd` exactly where all bytes that are left are a proper prefix of a word, as no bytes are, and else
/// `UnexpectedText`.
#[tactic(auto, using(crate::proofs::Places::tables))]
pub fn ref_qualifier_word(text: Text<'_>, at: u32) -> Result<(u8, u32)>
    ensures { Gives (λ x. (x.0, spot_at text.entry x.1)) result
        (table_from ref_qualifier_words (spot_at text.entry at)) }
{
    let (word, rest) = RefQualifier::read_word(IndexStr::new(text.rest(at)))?;
    Ok((word.number(), behind(text, at, rest.index())))
}

/// `&` or `&&`. ABI section 5.1.5.3.
///
/// ```text
/// <ref-qualifier> ::= R | O
/// ```
#[tactic(auto, using(demangle_cells::proofs::Grows::grows), unfolding(demangle_grammar::specs::Code::cread, demangle_grammar::specs::Rows::rule))]
pub fn ref_qualifier(arena: &mut Arena, depth: Depth, text: Text<'_>, at: u32) -> Result<Part>
    ensures grown { Grown (view arena.old) (view arena.new) }
    ensures reads { ReadsRow Row.ref_qualifier depth.levels depth.conversion text.entry at result
        (view arena.old) (view arena.new) }
    ensures table { (F : ℕ → Core) → table F (view arena.new) ≡ table F (view arena.old) }
{
    let _depth = depth.enter()?;
    let (word, end) = ref_qualifier_word(text, at)?;
    Ok(Part {
        id: word_id(WordTable::RefQualifiers, word),
        end,
    })
}

/// The number of the mark there, and where the text goes on. Where no word of the table is there, `UnexpectedEnd`
/// exactly where all bytes that are left are a proper prefix of a word, as no bytes are, and else `UnexpectedText`.
#[tactic(auto, using(crate::proofs::Places::tables))]
pub fn explicit_object_word(text: Text<'_>, at: u32) -> Result<(u8, u32)>
    ensures { Gives (λ x. (x.0, spot_at text.entry x.1)) result
        (table_from explicit_object_words (spot_at text.entry at)) }
{
    let (word, rest) = ExplicitObjectParameter::read_word(IndexStr::new(text.rest(at)))?;
    Ok((word.number(), behind(text, at, rest.index())))
}

/// The mark of a member function whose first parameter is the object. ABI section 5.1.2.
#[tactic(auto, using(demangle_cells::proofs::Grows::grows), unfolding(demangle_grammar::specs::Code::cread, demangle_grammar::specs::Rows::rule))]
pub fn explicit_object_parameter(
    arena: &mut Arena,
    depth: Depth,
    text: Text<'_>,
    at: u32,
) -> Result<Part>
    ensures grown { Grown (view arena.old) (view arena.new) }
    ensures reads { ReadsRow Row.explicit_object_parameter depth.levels depth.conversion text.entry at result
        (view arena.old) (view arena.new) }
    ensures table { (F : ℕ → Core) → table F (view arena.new) ≡ table F (view arena.old) }
{
    let _depth = depth.enter()?;
    let (word, end) = explicit_object_word(text, at)?;
    Ok(Part {
        id: word_id(WordTable::ExplicitObjects, word),
        end,
    })
}
