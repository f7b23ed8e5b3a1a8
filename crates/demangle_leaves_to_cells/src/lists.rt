//! Lists of trees that were put into the arena one behind the other.

ghost use Rattle.std.specs.Prelude.{◌≡◌, length};
ghost use Rattle.demangle_core.specs.Core.{Core, ◌⊕◌};
ghost use Rattle.demangle_cells.specs.Cells.{list_tree};
ghost use Rattle.demangle_cells.specs.View.{View, view};
ghost use Rattle.demangle_leaves_to_cells.specs.Put.{Put, Waits};

use demangle_cells::{Arena, ListOf};
use demangle_text::{Error, Result};

/// One index more that waits, behind those so far. Want of memory is its only refusal.
pub fn wait(arena: &mut Arena, so_far: Result<()>, part: Result<u32>) -> Result<()>
    ensures { (before middle : View) (x y : Core) → Waits before middle so_far x → Put middle (view arena.old) part y
        → Waits before (view arena.new) result (x ⊕ y) }
{
    match (so_far, part) {
        (Ok(()), Ok(part)) => arena.wait(part),
        _ => Err(Error::OutOfMemory),
    }
}

/// What becomes of the indexes that wait, from a place on; they wait no more. Want of memory is its only refusal.
pub fn gather(arena: &mut Arena, from: usize, list: ListOf, waited: Result<()>) -> Result<u32>
    ensures { (before : View) (x : Core) → from ≡ length before.waiting → Waits before (view arena.old) waited x
        → Put before (view arena.new) result (list_tree list x) }
{
    if from > arena.waiting() {
        return Err(Error::OutOfMemory);
    }
    match waited {
        Ok(()) => match arena.gathered(from, list, Ok(0)) {
            Ok(part) => Ok(part.id),
            Err(_) => Err(Error::OutOfMemory),
        },
        Err(error) => {
            let _ = arena.gathered(from, list, Err(error));
            Err(Error::OutOfMemory)
        }
    }
}
