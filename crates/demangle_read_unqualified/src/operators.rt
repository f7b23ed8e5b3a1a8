//! The names of operators, ABI section 5.1.3, and of constructors and destructors, ABI section 5.1.4.3.

ghost use Rattle.std.specs.Prelude.{◌≤◌, ◌<◌};
ghost use Rattle.demangle_grammar.specs.Rule.{Row};
ghost use Rattle.demangle_grammar.specs.Code.{cread};
ghost use Rattle.demangle_forms.specs.UnqualifiedForms.{inherited_at};
ghost use Rattle.demangle_cells.specs.Reads.{Reads, ReadsRow};
ghost use Rattle.demangle_cells.specs.View.{Grown, view};

use crate::words::{constructor_word, destructor_word};
use demangle_cells::{Arena, Cell, Depth, Part, Tag, Text, absent_id, passed};
use demangle_read_below::Below;
use demangle_read_rows::{digit, has_more, simple_operator_name, source_name, word};
use demangle_read_types::{made_one, made_two};
use demangle_text::{Error, Result};

/// The name of an operator. The type of a conversion operator is read with the conversion flag set. ABI section 5.1.3.
///
/// ```text
/// <operator-name> ::= nw | na | dl | ..   # a word of the table
///                 ::= cv <type> | li <source-name> | v <digit> <source-name>
/// ```
#[tactic(auto, using(demangle_cells::proofs::Grows::grows), unfolding(demangle_grammar::specs::Code::cread, demangle_grammar::specs::Rows::rule))]
pub fn operator_name<B: Below>(
    below: B,
    arena: &mut Arena,
    depth: Depth,
    text: Text<'_>,
    at: u32,
) -> Result<Part>
    requires can { B.can below }
    requires room { depth.levels ≤ B.most below }
    ensures grown { Grown (view arena.old) (view arena.new) }
    ensures reads { ReadsRow Row.operator_name depth.levels depth.conversion text.entry at result
        (view arena.old) (view arena.new) }
{
    let depth = depth.enter()?;
    if let Ok(found) = passed(simple_operator_name(arena, depth, text, at))? {
        return made_one(arena, Tag::OperatorNameSimple, found);
    }
    if let Ok(rest) = word(text, at, b"cv") {
        let converted = Depth {
            levels: depth.levels,
            conversion: true,
        };
        let ty = below.type_handle(arena, converted, text, rest)?;
        return made_one(arena, Tag::OperatorNameConversion, ty);
    }
    if let Ok(rest) = word(text, at, b"li") {
        let name = source_name(arena, depth, text, rest)?;
        return made_one(arena, Tag::OperatorNameLiteral, name);
    }
    let rest = word(text, at, b"v")?;
    let (arity, rest) = digit(text, rest)?;
    let name = source_name(arena, depth, text, rest)?;
    let arity = arena.push(Cell::Number(arity as isize))?;
    made_two(arena, Tag::OperatorNameVendorExtension, arity, name)
}

/// The name of a constructor or a destructor. ABI section 5.1.4.3.
///
/// ```text
/// <ctor-dtor-name> ::= C1 | C2 | C3 | C4 | D0 | D1 | D2 | D4
///                  ::= CI1 <base class type> | CI2 <base class type> | CI3 <base class type> | CI4 <base class type>
/// ```
#[tactic(auto, using(demangle_forms::proofs::UnqualifiedLaws::ctor_dtor_name_row_is, demangle_cells::proofs::Grows::grows), unfolding(demangle_forms::specs::UnqualifiedForms::ctor_dtor_name_row))]
pub fn ctor_dtor_name<B: Below>(
    below: B,
    arena: &mut Arena,
    depth: Depth,
    text: Text<'_>,
    at: u32,
) -> Result<Part>
    requires can { B.can below }
    requires room { depth.levels ≤ B.most below }
    ensures grown { Grown (view arena.old) (view arena.new) }
    ensures reads { ReadsRow Row.ctor_dtor_name depth.levels depth.conversion text.entry at result
        (view arena.old) (view arena.new) }
{
    let depth = depth.enter()?;
    if !has_more(text, at, 1) {
        return Err(Error::UnexpectedEnd);
    }
    if let Ok(rest) = word(text, at, b"CI") {
        return inherited_constructor(below, arena, depth, text, rest);
    }
    if let Ok(rest) = word(text, at, b"C") {
        let (tag, end) = constructor_word(text, rest)?;
        let id = arena.push(Cell::One(tag, absent_id()))?;
        return Ok(Part { id, end });
    }
    let (tag, end) = destructor_word(text, at)?;
    let id = arena.push(Cell::Empty(tag))?;
    Ok(Part { id, end })
}

/// A constructor that is inherited from a base class, behind `CI`.
#[tactic(auto, using(demangle_cells::proofs::Grows::grows), unfolding(demangle_forms::specs::UnqualifiedForms::inherited_at))]
fn inherited_constructor<B: Below>(
    below: B,
    arena: &mut Arena,
    depth: Depth,
    text: Text<'_>,
    at: u32,
) -> Result<Part>
    requires can { B.can below }
    requires room { depth.levels < B.most below }
    ensures grown { Grown (view arena.old) (view arena.new) }
    ensures reads { Reads text.entry at result (view arena.old) (view arena.new)
        (λ s. inherited_at (cread depth.levels) depth.conversion s) }
{
    let (tag, rest) = constructor_word(text, at)?;
    let base = below.type_handle(arena, depth, text, rest)?;
    let base = made_one(arena, Tag::Present, base)?;
    made_one(arena, tag, base)
}
