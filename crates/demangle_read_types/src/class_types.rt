//! Classes, enumerations and `decltype`, ABI section 5.1.5.

ghost use Rattle.std.specs.Prelude.{◌≤◌};
ghost use Rattle.demangle_grammar.specs.Rule.{Row};
ghost use Rattle.demangle_cells.specs.Reads.{ReadsRow};
ghost use Rattle.demangle_cells.specs.View.{Grown, view};

use crate::made::{made_one, restored};
use demangle_cells::{Arena, Depth, Part, Tag, Text, passed};
use demangle_read_below::Below;
use demangle_read_rows::word;
use demangle_text::Result;

/// A class, a union or an enumeration, ABI section 5.1.5.
///
/// ```text
/// <class-enum-type> ::= <name> | Ts <name> | Tu <name> | Te <name>
/// ```
#[tactic(auto, using(demangle_cells::proofs::Grows::grows), unfolding(demangle_grammar::specs::Code::cread, demangle_grammar::specs::Rows::rule))]
pub fn class_enum_type<B: Below>(
    below: B,
    arena: &mut Arena,
    depth: Depth,
    text: Text<'_>,
    at: u32,
) -> Result<Part>
    requires can { B.can below }
    requires room { depth.levels ≤ B.most below }
    ensures grown { Grown (view arena.old) (view arena.new) }
    ensures reads { ReadsRow Row.class_enum_type depth.levels depth.conversion text.entry at result
        (view arena.old) (view arena.new) }
{
    let depth = depth.enter()?;
    if let Ok(name) = passed(below.name(arena, depth, text, at))? {
        return made_one(arena, Tag::ClassEnumTypeNamed, name);
    }
    let rest = word(text, at, b"T")?;
    if let Ok(rest) = word(text, rest, b"s") {
        let name = below.name(arena, depth, text, rest)?;
        return made_one(arena, Tag::ClassEnumTypeElaboratedStruct, name);
    }
    if let Ok(rest) = word(text, rest, b"u") {
        let name = below.name(arena, depth, text, rest)?;
        return made_one(arena, Tag::ClassEnumTypeElaboratedUnion, name);
    }
    let rest = word(text, rest, b"e")?;
    let name = below.name(arena, depth, text, rest)?;
    made_one(arena, Tag::ClassEnumTypeElaboratedEnum, name)
}

/// The type of an expression, ABI section 5.1.5: `Dt` where that is a name or a member access, else `DT`.
///
/// ```text
/// <decltype> ::= Dt <expression> E | DT <expression> E
/// ```
#[tactic(auto, using(demangle_cells::proofs::Grows::grows, demangle_cells::proofs::Grows::cuts), unfolding(demangle_grammar::specs::Code::cread, demangle_grammar::specs::Rows::rule))]
pub fn decltype<B: Below>(
    below: B,
    arena: &mut Arena,
    depth: Depth,
    text: Text<'_>,
    at: u32,
) -> Result<Part>
    requires can { B.can below }
    requires room { depth.levels ≤ B.most below }
    ensures grown { Grown (view arena.old) (view arena.new) }
    ensures reads { ReadsRow Row.decltype depth.levels depth.conversion text.entry at result
        (view arena.old) (view arena.new) }
{
    let depth = depth.enter()?;
    let rest = word(text, at, b"D")?;
    let mark = arena.mark();
    if let Ok(rest) = word(text, rest, b"t") {
        let value = below.expression(arena, depth, text, rest)?;
        let end = restored(arena, mark, word(text, value.end, b"E"))?;
        return made_one(arena, Tag::DecltypeIdExpression, Part { id: value.id, end });
    }
    let rest = word(text, rest, b"T")?;
    let value = below.expression(arena, depth, text, rest)?;
    let end = restored(arena, mark, word(text, value.end, b"E"))?;
    made_one(arena, Tag::DecltypeExpression, Part { id: value.id, end })
}
