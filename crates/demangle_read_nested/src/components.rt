//! New components of prefixes.

ghost use Rattle.std.specs.Prelude.{◌≡◌, ℕ, IfOk, IfErr};
ghost use Rattle.demangle_text.specs.declared.error.Error.TheVariants.{OutOfMemory};
ghost use Rattle.demangle_core.specs.Core.{Core, Tag, node, end, ◌⊕◌};
ghost use Rattle.demangle_core.specs.Table.{added, size};
ghost use Rattle.demangle_grammar.specs.Rule.{Mark};
ghost use Rattle.demangle_grammar.specs.Reading.{marks};
ghost use Rattle.demangle_grammar.specs.Tree.{reference};
ghost use Rattle.demangle_cells.specs.Reads.{spot_at};
ghost use Rattle.demangle_cells.specs.Tags.{tag_of};
ghost use Rattle.demangle_cells.specs.View.{view, which_of, Grown, Holds, table};

use demangle_cells::{Arena, Cell, Part, Tag as CellTag, Text};
use demangle_read_rows::next_is;
use demangle_text::Result;

/// A prefix of one part, ABI section 5.1.2, <prefix>: the reference to it, and where the text goes on. Where `E` is
/// next the whole name ends with it, and it goes to the second list. `OutOfMemory` is the one refusal.
#[inline(always)]
#[tactic(auto, using(demangle_cells::proofs::Grows::grows))]
pub fn add_prefix_of_one(
    arena: &mut Arena,
    text: Text<'_>,
    tag: CellTag,
    part: Part,
) -> Result<Part>
    ensures grown { Grown (view arena.old) (view arena.new) }
    ensures end { IfOk result (λ x. x.end ≡ part.end) }
    ensures reference { IfOk result (λ x. (F : ℕ → Core) → Holds F (view arena.new)
        → F x.id ≡ reference (marks Mark.by_end (spot_at text.entry part.end).left)
        (size (marks Mark.by_end (spot_at text.entry part.end).left) (table F (view arena.old)))) }
    ensures added { IfOk result (λ x. (F : ℕ → Core) → Holds F (view arena.new)
        → table F (view arena.new) ≡ added (marks Mark.by_end (spot_at text.entry part.end).left)
        (node Tag.SubstitutablePrefix (node (tag_of tag) (F part.id) end) end) (table F (view arena.old))) }
    ensures refused { IfErr result (λ e. e ≡ OutOfMemory) }
{
    let prefix = arena.push(Cell::One(tag, part.id))?;
    let id = add_prefix(arena, text, part.end, prefix)?;
    Ok(Part { id, end: part.end })
}

/// The same of a prefix of two parts, of which the second was read last.
#[inline(always)]
#[tactic(auto, using(demangle_cells::proofs::Grows::grows))]
pub fn add_prefix_of_two(
    arena: &mut Arena,
    text: Text<'_>,
    tag: CellTag,
    first: u32,
    second: Part,
) -> Result<Part>
    ensures grown { Grown (view arena.old) (view arena.new) }
    ensures end { IfOk result (λ x. x.end ≡ second.end) }
    ensures reference { IfOk result (λ x. (F : ℕ → Core) → Holds F (view arena.new)
        → F x.id ≡ reference (marks Mark.by_end (spot_at text.entry second.end).left)
        (size (marks Mark.by_end (spot_at text.entry second.end).left) (table F (view arena.old)))) }
    ensures added { IfOk result (λ x. (F : ℕ → Core) → Holds F (view arena.new)
        → table F (view arena.new) ≡ added (marks Mark.by_end (spot_at text.entry second.end).left)
        (node Tag.SubstitutablePrefix (node (tag_of tag) (F first ⊕ F second.id) end) end)
        (table F (view arena.old))) }
    ensures refused { IfErr result (λ e. e ≡ OutOfMemory) }
{
    let prefix = arena.push(Cell::Two(tag, first, second.id))?;
    let id = add_prefix(arena, text, second.end, prefix)?;
    Ok(Part {
        id,
        end: second.end,
    })
}

/// The prefix of this index, as a component of the list that the next byte tells.
#[inline(always)]
fn add_prefix(arena: &mut Arena, text: Text<'_>, at: u32, prefix: u32) -> Result<u32>
    ensures grown { Grown (view arena.old) (view arena.new) }
    ensures reference { IfOk result (λ i. (F : ℕ → Core) → Holds F (view arena.new)
        → F i ≡ reference (marks Mark.by_end (spot_at text.entry at).left)
        (size (marks Mark.by_end (spot_at text.entry at).left) (table F (view arena.old)))) }
    ensures added { IfOk result (λ i. (F : ℕ → Core) → Holds F (view arena.new)
        → table F (view arena.new) ≡ added (marks Mark.by_end (spot_at text.entry at).left)
        (node Tag.SubstitutablePrefix (F prefix) end) (table F (view arena.old))) }
    ensures refused { IfErr result (λ e. e ≡ OutOfMemory) }
{
    let ends = next_is(text, at, b'E');
    add_entry(arena, !ends, prefix)
}

/// The entry of a prefix, as a component of one of the two lists: the reference to it.
#[inline(always)]
#[tactic(auto, using(demangle_cells::proofs::Grows::grows))]
fn add_entry(arena: &mut Arena, numbered: bool, prefix: u32) -> Result<u32>
    ensures grown { Grown (view arena.old) (view arena.new) }
    ensures reference { IfOk result (λ i. (F : ℕ → Core) → Holds F (view arena.new)
        → F i ≡ reference (which_of numbered) (size (which_of numbered) (table F (view arena.old)))) }
    ensures added { IfOk result (λ i. (F : ℕ → Core) → Holds F (view arena.new)
        → table F (view arena.new) ≡ added (which_of numbered)
        (node Tag.SubstitutablePrefix (F prefix) end) (table F (view arena.old))) }
    ensures refused { IfErr result (λ e. e ≡ OutOfMemory) }
{
    let component = arena.push(Cell::One(CellTag::SubstitutablePrefix, prefix))?;
    arena.add(numbered, component)
}
