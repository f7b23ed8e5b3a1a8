//! Names, and what stands beside them.

ghost use Rattle.std.specs.Prelude.{◌≡◌, ◌≤◌, ℕ, length, IfOk};
ghost use Rattle.demangle_text.specs.Kind.{Gives};
ghost use Rattle.demangle_text.specs.Spot.{front};
ghost use Rattle.demangle_core.specs.Core.{Core};
ghost use Rattle.demangle_grammar.specs.Rule.{Row};
ghost use Rattle.demangle_cells.specs.View.{view, table, Grown};
ghost use Rattle.demangle_cells.specs.Reads.{spot_at, ReadsRow};
ghost use Rattle.demangle_read_rows.specs.Places.{ReadsPlace, identifier_tree, source_name_tree};
ghost use Rattle.demangle_read_rows.specs.Sized.{sized_at};

use crate::bytes::{NameClass, decimal, identifier_end, unsigned, word};
use demangle_cells::{Arena, Cell, Depth, Part, Tag, Text, absent_id};
use demangle_text::{Error, Result};

/// Where bytes stand.
#[derive(Clone, Copy)]
pub struct Place {
    /// The index of the first byte.
    pub start: u32,
    /// The index behind the last one.
    pub stop: u32,
}

/// The longest run of characters of an identifier. ABI section 5.1.2. Nothing left is `UnexpectedEnd`, an empty run
/// `UnexpectedText`.
///
/// ```text
/// <identifier> ::= <unqualified source code identifier>
/// ```
#[tactic(auto, using(demangle_cells::proofs::Grows::grows), unfolding(demangle_grammar::specs::Code::cread, demangle_grammar::specs::Rows::rule))]
pub fn identifier(arena: &mut Arena, depth: Depth, text: Text<'_>, at: u32) -> Result<Part>
    ensures grown { Grown (view arena.old) (view arena.new) }
    ensures reads { ReadsRow Row.identifier depth.levels depth.conversion text.entry at result
        (view arena.old) (view arena.new) }
    ensures table { (F : ℕ → Core) → table F (view arena.new) ≡ table F (view arena.old) }
{
    let _depth = depth.enter()?;
    let end = identifier_end(text, at)?;
    let id = arena.push(Cell::Text(Tag::Identifier, at, end))?;
    Ok(Part { id, end })
}

/// The word behind the first dot of a clone's suffix. An addition of compilers. Nothing left is `UnexpectedEnd`, an
/// empty run `UnexpectedText`.
///
/// ```text
/// <clone-type-identifier> ::= <unqualified source code identifier>
/// ```
#[tactic(auto, using(demangle_cells::proofs::Grows::grows), unfolding(demangle_grammar::specs::Code::cread, demangle_grammar::specs::Rows::rule))]
pub fn clone_type_identifier(
    arena: &mut Arena,
    depth: Depth,
    text: Text<'_>,
    at: u32,
) -> Result<Part>
    ensures grown { Grown (view arena.old) (view arena.new) }
    ensures reads { ReadsRow Row.clone_type_identifier depth.levels depth.conversion text.entry at result
        (view arena.old) (view arena.new) }
    ensures table { (F : ℕ → Core) → table F (view arena.new) ≡ table F (view arena.old) }
{
    let _depth = depth.enter()?;
    let end = NameClass::CloneType.name_end(text, at)?;
    let id = arena.push(Cell::Text(Tag::CloneTypeIdentifier, at, end))?;
    Ok(Part { id, end })
}

/// The place of an identifier.
#[tactic(auto, unfolding(demangle_grammar::specs::Code::cread, demangle_grammar::specs::Rows::rule))]
fn identifier_place(depth: Depth, text: Text<'_>, at: u32) -> Result<Place>
    ensures { ReadsPlace Row.identifier identifier_tree depth.levels depth.conversion text.entry at result }
{
    let _depth = depth.enter()?;
    let stop = identifier_end(text, at)?;
    Ok(Place { start: at, stop })
}

/// The text up to so many bytes behind a place.
#[tactic(auto, using(crate::proofs::Places::fronts))]
fn front<'a>(text: Text<'a>, at: u32, count: usize) -> Text<'a>
    requires some { 1 ≤ count }
    requires inside { count ≤ length (spot_at text at).left }
    ensures { spot_at result at ≡ front count (spot_at text.entry at) }
{
    Text {
        bytes: &text.bytes[..at as usize + count],
    }
}

/// A length, and where so many bytes begin. A length of 0 is `UnexpectedText`, fewer bytes `UnexpectedEnd`.
#[tactic(auto, unfolding(crate::specs::Sized::sized_at))]
pub fn sized(text: Text<'_>, at: u32) -> Result<(usize, u32)>
    ensures reads { Gives (λ x. (x.0, spot_at text.entry x.1)) result (sized_at (spot_at text.entry at)) }
    ensures fits { IfOk result (λ x. (1 ≤ x.0) × (x.0 ≤ length (spot_at text.entry x.1).left)) }
{
    let (length, start) = decimal(text, at)?;
    if length == 0 {
        return Err(Error::UnexpectedText);
    }
    if text.rest(start).len() < length {
        return Err(Error::UnexpectedEnd);
    }
    Ok((length, start))
}

/// The place of the identifier of a source name.
#[tactic(auto, using(crate::proofs::SourceNames::source_names), unfolding(crate::specs::Sized::source_at))]
fn source_place(depth: Depth, text: Text<'_>, at: u32) -> Result<Place>
    ensures { ReadsPlace Row.source_name source_name_tree depth.levels depth.conversion text.entry at result }
{
    let depth = depth.enter()?;
    let (length, start) = sized(text, at)?;
    let inner = front(text, start, length);
    let place = identifier_place(depth, inner, start)?;
    match inner.rest(place.stop) {
        [] => Ok(place),
        [_, ..] => Err(Error::UnexpectedText),
    }
}

/// A length that is not 0, and an identifier that takes just so many bytes. ABI section 5.1.2. A length of 0 and bytes
/// that are no identifier's are `UnexpectedText`, fewer bytes `UnexpectedEnd`.
///
/// ```text
/// <source-name> ::= <positive length number> <identifier>
/// ```
#[tactic(auto, using(demangle_cells::proofs::Grows::grows))]
pub fn source_name(arena: &mut Arena, depth: Depth, text: Text<'_>, at: u32) -> Result<Part>
    ensures grown { Grown (view arena.old) (view arena.new) }
    ensures reads { ReadsRow Row.source_name depth.levels depth.conversion text.entry at result
        (view arena.old) (view arena.new) }
    ensures table { (F : ℕ → Core) → table F (view arena.new) ≡ table F (view arena.old) }
{
    let place = source_place(depth, text, at)?;
    let identifier = arena.push(Cell::Text(Tag::Identifier, place.start, place.stop))?;
    let id = arena.push(Cell::One(Tag::SourceName, identifier))?;
    Ok(Part {
        id,
        end: place.stop,
    })
}

/// One ABI tag. ABI section 5.1.2.
///
/// ```text
/// <abi-tag> ::= B <source-name>
/// ```
#[tactic(auto, using(demangle_cells::proofs::Grows::grows), unfolding(demangle_grammar::specs::Code::cread, demangle_grammar::specs::Rows::rule))]
pub fn abi_tag(arena: &mut Arena, depth: Depth, text: Text<'_>, at: u32) -> Result<Part>
    ensures grown { Grown (view arena.old) (view arena.new) }
    ensures reads { ReadsRow Row.abi_tag depth.levels depth.conversion text.entry at result
        (view arena.old) (view arena.new) }
    ensures table { (F : ℕ → Core) → table F (view arena.new) ≡ table F (view arena.old) }
{
    let depth = depth.enter()?;
    let rest = word(text, at, b"B")?;
    let name = source_name(arena, depth, text, rest)?;
    let id = arena.push(Cell::One(Tag::AbiTag, name.id))?;
    Ok(Part { id, end: name.end })
}

/// The member in whose initializer a closure stands. ABI section 5.1.7.
///
/// ```text
/// <data-member-prefix> ::= <source-name> M
/// ```
#[tactic(auto, using(demangle_cells::proofs::Grows::grows), unfolding(demangle_grammar::specs::Code::cread, demangle_grammar::specs::Rows::rule))]
pub fn data_member_prefix(arena: &mut Arena, depth: Depth, text: Text<'_>, at: u32) -> Result<Part>
    ensures grown { Grown (view arena.old) (view arena.new) }
    ensures reads { ReadsRow Row.data_member_prefix depth.levels depth.conversion text.entry at result
        (view arena.old) (view arena.new) }
    ensures table { (F : ℕ → Core) → table F (view arena.new) ≡ table F (view arena.old) }
{
    let depth = depth.enter()?;
    let name = source_name(arena, depth, text, at)?;
    let end = word(text, name.end, b"M")?;
    let id = arena.push(Cell::One(Tag::DataMemberPrefix, name.id))?;
    Ok(Part { id, end })
}

/// A type without a name. ABI section 5.1.7.
///
/// ```text
/// <unnamed-type-name> ::= Ut [<non-negative number>] _
/// ```
#[tactic(auto, using(demangle_cells::proofs::Grows::grows), unfolding(demangle_grammar::specs::Code::cread, demangle_grammar::specs::Rows::rule))]
pub fn unnamed_type_name(arena: &mut Arena, depth: Depth, text: Text<'_>, at: u32) -> Result<Part>
    ensures grown { Grown (view arena.old) (view arena.new) }
    ensures reads { ReadsRow Row.unnamed_type_name depth.levels depth.conversion text.entry at result
        (view arena.old) (view arena.new) }
    ensures table { (F : ℕ → Core) → table F (view arena.new) ≡ table F (view arena.old) }
{
    let _depth = depth.enter()?;
    let rest = word(text, at, b"Ut")?;
    if let Ok((number, rest)) = unsigned(text, rest, 10) {
        let end = word(text, rest, b"_")?;
        let number = arena.push(Cell::Count(Tag::Present, number))?;
        let id = arena.push(Cell::One(Tag::UnnamedTypeName, number))?;
        return Ok(Part { id, end });
    }
    let end = word(text, rest, b"_")?;
    let id = arena.push(Cell::One(Tag::UnnamedTypeName, absent_id()))?;
    Ok(Part { id, end })
}
