//! Lists of rows that add no component.

ghost use Rattle.std.specs.Prelude.{◌≡◌, ℕ};
ghost use Rattle.demangle_core.specs.Core.{Core};
ghost use Rattle.demangle_grammar.specs.Code.{all_at, cread};
ghost use Rattle.demangle_grammar.specs.Rule.{Row};
ghost use Rattle.demangle_cells.specs.View.{view, Grown, Waited, table};
ghost use Rattle.demangle_cells.specs.Reads.{ListsPart, ReadsPart};

use demangle_cells::{Arena, Depth, ListOf, Part, Tag, Text, passed};
use demangle_read_rows::{clone_suffix, resource_name};
use demangle_text::{Error, Result};

/// The suffixes of clones behind an encoding, as compilers append them, of which there may be none. What can't be read
/// as a suffix ends the list.
#[tactic(auto, using(demangle_cells::proofs::Waits::gathers))]
pub fn clone_suffixes(arena: &mut Arena, depth: Depth, text: Text<'_>, at: u32) -> Result<Part>
    ensures grown { Grown (view arena.old) (view arena.new) }
    ensures table { (F : ℕ → Core) → table F (view arena.new) ≡ table F (view arena.old) }
    ensures reads { ReadsPart text.entry at result (view arena.old) (view arena.new)
        (λ s. all_at (cread depth.levels) depth.conversion Row.clone_suffix s) }
{
    let from = arena.waiting();
    let answer = waiting_suffixes(arena, depth, text, at);
    arena.gathered(from, ListOf::Node(Tag::Several), answer)
}

/// The same, where their trees wait.
#[tactic(auto, using(demangle_read_rows::proofs::RowLists::row_lists))]
fn waiting_suffixes(arena: &mut Arena, depth: Depth, text: Text<'_>, at: u32) -> Result<u32>
    ensures waited { Waited (view arena.old) (view arena.new) }
    ensures table { (F : ℕ → Core) → table F (view arena.new) ≡ table F (view arena.old) }
    ensures reads { ListsPart text.entry at result (view arena.old) (view arena.new)
        (λ s. all_at (cread depth.levels) depth.conversion Row.clone_suffix s) }
{
    let mut end = at;
    loop {
        let answer = clone_suffix(arena, depth, text, end);
        match passed(answer) {
            Ok(Ok(suffix)) => {
                if suffix.end <= end {
                    return Err(Error::OutOfMemory);
                }
                arena.wait(suffix.id)?;
                end = suffix.end;
            }
            Ok(Err(_)) => return Ok(end),
            Err(error) => return Err(error),
        }
    }
}

/// The parts of the name of a Java resource, of which there may be none. A part that can't be read ends the list.
#[tactic(auto, using(demangle_cells::proofs::Waits::gathers))]
pub fn resource_names(arena: &mut Arena, depth: Depth, text: Text<'_>, at: u32) -> Result<Part>
    ensures grown { Grown (view arena.old) (view arena.new) }
    ensures table { (F : ℕ → Core) → table F (view arena.new) ≡ table F (view arena.old) }
    ensures reads { ReadsPart text.entry at result (view arena.old) (view arena.new)
        (λ s. all_at (cread depth.levels) depth.conversion Row.resource_name s) }
{
    let from = arena.waiting();
    let answer = waiting_names(arena, depth, text, at);
    arena.gathered(from, ListOf::Node(Tag::Several), answer)
}

/// The same, where their trees wait.
#[tactic(auto, using(demangle_read_rows::proofs::RowLists::row_lists))]
fn waiting_names(arena: &mut Arena, depth: Depth, text: Text<'_>, at: u32) -> Result<u32>
    ensures waited { Waited (view arena.old) (view arena.new) }
    ensures table { (F : ℕ → Core) → table F (view arena.new) ≡ table F (view arena.old) }
    ensures reads { ListsPart text.entry at result (view arena.old) (view arena.new)
        (λ s. all_at (cread depth.levels) depth.conversion Row.resource_name s) }
{
    let mut end = at;
    loop {
        let answer = resource_name(arena, depth, text, end);
        match passed(answer) {
            Ok(Ok(name)) => {
                if name.end <= end {
                    return Err(Error::OutOfMemory);
                }
                arena.wait(name.id)?;
                end = name.end;
            }
            Ok(Err(_)) => return Ok(end),
            Err(error) => return Err(error),
        }
    }
}
