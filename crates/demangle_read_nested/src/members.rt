//! Data members behind a prefix, ABI section 5.1.7, <data-member-prefix>.

ghost use Rattle.std.specs.Prelude.{◌≡◌, ℕ};
ghost use Rattle.demangle_core.specs.Core.{Core};
ghost use Rattle.demangle_cells.specs.View.{view, Grown, table};
ghost use Rattle.demangle_read_nested.specs.Members.{MakesDataMember, MakesMember};

use crate::shapes::is_node;
use demangle_cells::{Arena, Cell, Plain, Tag};
use demangle_text::{Error, Result};

/// The name of a data member of this name behind the prefix, without the name's tags. `UnexpectedText` where the
/// name is no source name.
#[tactic(auto, using(demangle_cells::proofs::Grows::grows, crate::proofs::MemberNames::members))]
pub fn member_prefix(arena: &mut Arena, prefix: u32, name: u32) -> Result<u32>
    ensures grown { Grown (view arena.old) (view arena.new) }
    ensures table { (F : ℕ → Core) → table F (view arena.new) ≡ table F (view arena.old) }
    ensures makes { MakesMember prefix name result (view arena.new) }
{
    if !is_node(arena, prefix) {
        return Err(Error::OutOfMemory);
    }
    match arena.cell(name) {
        Some(
            Plain::Two(Tag::UnqualifiedNameSource, source, _)
            | Plain::Three(Tag::UnqualifiedNameLocalSourceName, source, _, _),
        ) => data_member(arena, source),
        Some(
            Plain::Two(
                Tag::UnqualifiedNameOperator
                | Tag::UnqualifiedNameCtorDtor
                | Tag::UnqualifiedNameClosureType,
                _,
                _,
            )
            | Plain::One(Tag::UnqualifiedNameUnnamedType, _),
        ) => Err(Error::UnexpectedText),
        _ => Err(Error::OutOfMemory),
    }
}

/// The name of a data member of this source name.
#[tactic(auto, using(demangle_cells::proofs::Grows::grows))]
fn data_member(arena: &mut Arena, source: u32) -> Result<u32>
    ensures grown { Grown (view arena.old) (view arena.new) }
    ensures table { (F : ℕ → Core) → table F (view arena.new) ≡ table F (view arena.old) }
    ensures makes { MakesDataMember source result (view arena.new) }
{
    if !is_node(arena, source) {
        return Err(Error::OutOfMemory);
    }
    arena.push(Cell::One(Tag::DataMemberPrefix, source))
}
