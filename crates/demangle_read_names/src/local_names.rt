//! Entities inside functions, ABI section 5.1.7.

ghost use Rattle.std.specs.Prelude.{◌≡◌, ◌≤◌, ◌<◌};
ghost use Rattle.demangle_grammar.specs.Rule.{Row};
ghost use Rattle.demangle_cells.specs.View.{view, Grown};
ghost use Rattle.demangle_cells.specs.Reads.{ReadsRow};

use demangle_cells::{Arena, Cell, Depth, Part, Tag, Text, absent_id};
use demangle_read_below::Below;
use demangle_read_nested::{made, restored};
use demangle_read_rows::{optional_discriminator, optional_number, word};
use demangle_text::Result;

/// An entity inside a function, a string literal of it, or an entity in the default argument of a parameter. ABI
/// section 5.1.7.
///
/// ```text
/// <local-name> ::= Z <function encoding> E <entity name> [<discriminator>]
///              ::= Z <function encoding> E s [<discriminator>]
///              ::= Z <function encoding> E d [<parameter number>] _ <entity name>
/// ```
#[tactic(auto, using(demangle_cells::proofs::Grows::grows, demangle_cells::proofs::Grows::cuts, crate::proofs::RowsRead::local_name_is), unfolding(demangle_read_types::specs::RowsRead::row_read, demangle_grammar::specs::Rows::rule))]
pub fn local_name<B: Below>(
    below: B,
    arena: &mut Arena,
    depth: Depth,
    text: Text<'_>,
    at: u32,
) -> Result<Part>
    requires can { B.can below }
    requires room { depth.levels ≤ B.most below }
    ensures grown { Grown (view arena.old) (view arena.new) }
    ensures reads { ReadsRow Row.local_name depth.levels depth.conversion text.entry at result
        (view arena.old) (view arena.new) }
{
    let depth = depth.enter()?;
    let mark = arena.mark();
    let at = word(text, at, b"Z")?;
    let function = below.encoding(arena, depth, text, at)?;
    let answer = word(text, function.end, b"E");
    let at = restored(arena, mark, answer)?;
    if let Ok(at) = word(text, at, b"s") {
        let answer = optional_discriminator(arena, depth, text, at);
        let number = restored(arena, mark, answer)?;
        let cell = Cell::Three(Tag::LocalNameRelative, function.id, absent_id(), number.id);
        return made(arena, cell, number.end);
    }
    if let Ok(at) = word(text, at, b"d") {
        let answer = optional_number(arena, depth, text, at);
        let number = restored(arena, mark, answer)?;
        let answer = word(text, number.end, b"_");
        let at = restored(arena, mark, answer)?;
        let answer = below.name(arena, depth, text, at);
        let name = restored(arena, mark, answer)?;
        let cell = Cell::Three(Tag::LocalNameDefault, function.id, number.id, name.id);
        return made(arena, cell, name.end);
    }
    let answer = below.name(arena, depth, text, at);
    let name = restored(arena, mark, answer)?;
    let entity = made(arena, Cell::One(Tag::Present, name.id), name.end)?;
    let answer = optional_discriminator(arena, depth, text, entity.end);
    let number = restored(arena, mark, answer)?;
    let cell = Cell::Three(Tag::LocalNameRelative, function.id, entity.id, number.id);
    made(arena, cell, number.end)
}
