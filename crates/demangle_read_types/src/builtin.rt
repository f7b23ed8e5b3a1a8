//! Builtin types, ABI section 5.1.5.2.

ghost use Rattle.std.specs.Prelude.{◌≡◌, ◌≤◌, ◌<◌, ℕ, IfSome};
ghost use Rattle.demangle_core.specs.Core.{Core};
ghost use Rattle.demangle_grammar.specs.Rule.{Row};
ghost use Rattle.demangle_grammar.specs.Code.{Found, cread, here};
ghost use Rattle.demangle_core.specs.Table.{Table};
ghost use Rattle.demangle_forms.specs.TypeForms.{type_handle_at};
ghost use Rattle.demangle_forms.specs.BuiltinForms.{bits_at, float_at};
ghost use Rattle.demangle_cells.specs.Reads.{Reads, ReadsRow, spot_at};
ghost use Rattle.demangle_cells.specs.Tags.{tag_of};
ghost use Rattle.demangle_cells.specs.View.{Grown, Holds, View, table, view};

use crate::made::{made_one, restored};
use demangle_cells::{Arena, Cell, Depth, Part, Tag, Text, builtin_id, passed};
use demangle_read_below::Below;
use demangle_read_rows::{
    add_expression, builtin_word, has_more, next_is_digit, source_name, standard_builtin_type,
    unsigned, word,
};
use demangle_text::{Error, Result};

/// A builtin type: a word of the table, a compiler's own type, or one with a width in bits. ABI section 5.1.5.2.
///
/// ```text
/// <builtin-type> ::= v | w | b | c | ..   # a word of the table
///                ::= u <source-name> | <parametric builtin type>
/// ```
#[tactic(auto, using(demangle_cells::proofs::Grows::grows), unfolding(demangle_grammar::specs::Code::cread, demangle_grammar::specs::Rows::rule))]
pub fn builtin_type<B: Below>(
    below: B,
    arena: &mut Arena,
    depth: Depth,
    text: Text<'_>,
    at: u32,
) -> Result<Part>
    requires can { B.can below }
    requires room { depth.levels ≤ B.most below }
    ensures grown { Grown (view arena.old) (view arena.new) }
    ensures reads { ReadsRow Row.builtin_type depth.levels depth.conversion text.entry at result
        (view arena.old) (view arena.new) }
{
    let depth = depth.enter()?;
    if let Ok(builtin) = passed(standard_builtin_type(arena, depth, text, at))? {
        return made_one(arena, Tag::BuiltinTypeStandard, builtin);
    }
    if let Ok(rest) = word(text, at, b"u") {
        let name = source_name(arena, depth, text, rest)?;
        return made_one(arena, Tag::BuiltinTypeExtension, name);
    }
    let builtin = parametric_builtin_type(below, arena, depth, text, at)?;
    made_one(arena, Tag::BuiltinTypeParametric, builtin)
}

/// A builtin type that is one word of the table, where levels enough are left: the first alternative of a type.
#[tactic(auto, using(crate::proofs::Starts::builtin_first))]
pub fn builtin_handle(depth: Depth, text: Text<'_>, at: u32) -> Option<Part>
    ensures { IfSome result (λ x. (F : ℕ → Core) (v : View) → Holds F v → (table : Table)
        → type_handle_at (cread depth.levels) depth.conversion (here (spot_at text.entry at) table)
        ≡ Found (F x.id) (here (spot_at text.entry x.end) table)) }
{
    if depth.levels < 2 {
        return None;
    }
    match builtin_word(text, at) {
        Ok((word, end)) => Some(Part {
            id: builtin_id(word),
            end,
        }),
        Err(_) => None,
    }
}

/// A builtin type with a width in bits, ABI section 5.1.5.2.
///
/// ```text
/// <parametric builtin type> ::= DF <number> _ | DF <number> x
///                           ::= DB <number> _ | DB <expression> _ | DU <number> _ | DU <expression> _
/// ```
#[tactic(auto, using(demangle_cells::proofs::Grows::grows, demangle_forms::proofs::BuiltinLaws::parametric_row_is), unfolding(demangle_forms::specs::BuiltinForms::parametric_row, demangle_forms::specs::BuiltinForms::parametric_at))]
pub fn parametric_builtin_type<B: Below>(
    below: B,
    arena: &mut Arena,
    depth: Depth,
    text: Text<'_>,
    at: u32,
) -> Result<Part>
    requires can { B.can below }
    requires room { depth.levels ≤ B.most below }
    ensures grown { Grown (view arena.old) (view arena.new) }
    ensures reads { ReadsRow Row.parametric_builtin_type depth.levels depth.conversion text.entry at result
        (view arena.old) (view arena.new) }
{
    let depth = depth.enter()?;
    let rest = word(text, at, b"D")?;
    if let Ok(rest) = word(text, rest, b"F") {
        return float_type(arena, depth, text, rest);
    }
    if let Ok(rest) = word(text, rest, b"B") {
        let tags = BitTags {
            number: Tag::ParametricBuiltinTypeSignedBitInt,
            expression: Tag::ParametricBuiltinTypeSignedBitIntExpression,
        };
        return bit_int(below, arena, depth, text, rest, tags);
    }
    if let Ok(rest) = word(text, rest, b"U") {
        let tags = BitTags {
            number: Tag::ParametricBuiltinTypeUnsignedBitInt,
            expression: Tag::ParametricBuiltinTypeUnsignedBitIntExpression,
        };
        return bit_int(below, arena, depth, text, rest, tags);
    }
    if !has_more(text, rest, 1) {
        return Err(Error::UnexpectedEnd);
    }
    Err(Error::UnexpectedText)
}

/// A floating-point type with a width, after its `DF`.
#[tactic(auto, using(demangle_cells::proofs::Grows::grows), unfolding(demangle_forms::specs::BuiltinForms::float_at))]
fn float_type(arena: &mut Arena, depth: Depth, text: Text<'_>, at: u32) -> Result<Part>
    ensures grown { Grown (view arena.old) (view arena.new) }
    ensures reads { Reads text.entry at result (view arena.old) (view arena.new)
        (λ s. float_at (cread depth.levels) depth.conversion s) }
    ensures table { (F : ℕ → Core) → table F (view arena.new) ≡ table F (view arena.old) }
{
    if !has_more(text, at, 1) {
        return Err(Error::UnexpectedEnd);
    }
    if !next_is_digit(text, at) {
        return Err(Error::UnexpectedText);
    }
    let (width, rest) = unsigned(text, at, 10)?;
    if let Ok(end) = word(text, rest, b"x") {
        let id = arena.push(Cell::Count(Tag::ParametricBuiltinTypeFloatNx, width))?;
        return Ok(Part { id, end });
    }
    let end = word(text, rest, b"_")?;
    let id = arena.push(Cell::Count(Tag::ParametricBuiltinTypeFloatN, width))?;
    Ok(Part { id, end })
}

/// The nodes of a `_BitInt` type: with a width that is a number, and with one that is an expression.
#[derive(Clone, Copy)]
pub struct BitTags {
    pub number: Tag,
    pub expression: Tag,
}

/// A `_BitInt` type, after its `DB` or `DU`. A width that is an expression becomes a component of the second list.
#[tactic(auto, using(demangle_cells::proofs::Grows::grows, demangle_cells::proofs::Grows::cuts), unfolding(demangle_forms::specs::BuiltinForms::bits_at))]
fn bit_int<B: Below>(
    below: B,
    arena: &mut Arena,
    depth: Depth,
    text: Text<'_>,
    at: u32,
    tags: BitTags,
) -> Result<Part>
    requires can { B.can below }
    requires room { depth.levels < B.most below }
    ensures grown { Grown (view arena.old) (view arena.new) }
    ensures reads { Reads text.entry at result (view arena.old) (view arena.new)
        (λ s. bits_at (tag_of tags.number) (tag_of tags.expression) (cread depth.levels) depth.conversion s) }
{
    if !has_more(text, at, 1) {
        return Err(Error::UnexpectedEnd);
    }
    if next_is_digit(text, at) {
        let (width, rest) = unsigned(text, at, 10)?;
        let end = word(text, rest, b"_")?;
        let id = arena.push(Cell::Count(tags.number, width))?;
        return Ok(Part { id, end });
    }
    let mark = arena.mark();
    let width = below.expression(arena, depth, text, at)?;
    let end = restored(arena, mark, word(text, width.end, b"_"))?;
    let reference = add_expression(arena, width.id)?;
    made_one(arena, tags.expression, Part { id: reference, end })
}
