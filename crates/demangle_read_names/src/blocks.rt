//! The numbers of blocks, as compilers write them.

ghost use Rattle.std.specs.Prelude.{◌≡◌, ℕ};
ghost use Rattle.demangle_core.specs.Core.{Core};
ghost use Rattle.demangle_forms.specs.MangledForms.{block_number_at};
ghost use Rattle.demangle_cells.specs.View.{view, Grown, table};
ghost use Rattle.demangle_read_names.specs.Blocks.{GivesPart, ReadsBlock};

use demangle_cells::{Arena, Cell, Part, Tag, Text, absent_id};
use demangle_read_nested::made;
use demangle_read_rows::{unsigned, word};
use demangle_text::Result;

/// The number of a block: none, one alone, or one behind `_` or `.`, where it can't be missing.
#[tactic(auto, using(demangle_cells::proofs::Grows::grows), unfolding(demangle_forms::specs::MangledForms::block_number_at))]
pub fn block_number(arena: &mut Arena, text: Text<'_>, at: u32) -> Result<Part>
    ensures grown { Grown (view arena.old) (view arena.new) }
    ensures table { (F : ℕ → Core) → table F (view arena.new) ≡ table F (view arena.old) }
    ensures reads { GivesPart text.entry at result (view arena.new) (λ p. block_number_at p) }
{
    if let Ok(at) = word(text, at, b"_") {
        let (number, end) = unsigned(text, at, 10)?;
        return made(arena, Cell::Count(Tag::Present, number), end);
    }
    if let Ok(at) = word(text, at, b".") {
        let (number, end) = unsigned(text, at, 10)?;
        return made(arena, Cell::Count(Tag::Present, number), end);
    }
    match unsigned(text, at, 10) {
        Ok((number, end)) => made(arena, Cell::Count(Tag::Present, number), end),
        Err(_) => Ok(Part {
            id: absent_id(),
            end: at,
        }),
    }
}

/// The block of an encoding, behind that: `_block_invoke <block number>`.
#[tactic(auto, using(demangle_cells::proofs::Grows::grows))]
pub fn block_of(arena: &mut Arena, text: Text<'_>, encoding: Part) -> Result<Part>
    ensures grown { Grown (view arena.old) (view arena.new) }
    ensures table { (F : ℕ → Core) → table F (view arena.new) ≡ table F (view arena.old) }
    ensures reads { ReadsBlock text.entry encoding result (view arena.old) (view arena.new) }
{
    let at = word(text, encoding.end, b"_block_invoke")?;
    let number = block_number(arena, text, at)?;
    let cell = Cell::Two(Tag::MangledNameBlockInvoke, encoding.id, number.id);
    made(arena, cell, number.end)
}
