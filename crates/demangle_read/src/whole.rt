//! Whole names.

ghost use Rattle.demangle_cells.specs.View.{view};
ghost use Rattle.demangle_read.specs.Reading.{reading, whole};
ghost use Rattle.demangle_read.specs.Found.{FindsFront, FindsWhole};

use crate::tie::mangled_name;
use demangle_cells::{Arena, Depth, Part, Text};
use demangle_text::{Error, ParseOptions, Result};

/// Reads the name at the front of the bytes into the arena, cleared before: the index of its tree, and where the bytes
/// behind it begin. The arena has its components. Each refusal is the reading's, or `OutOfMemory`, which 2^32 bytes or
/// more are always answered.
#[tactic(auto, using(crate::proofs::Fronts::fronts))]
pub fn read_front(arena: &mut Arena, bytes: &[u8], options: &ParseOptions) -> Result<Part>
    ensures { FindsFront (view arena.new) bytes.now (reading options.now bytes.now) result }
{
    arena.clear();
    let text = match Text::new(bytes) {
        Some(text) => text,
        None => return Err(Error::OutOfMemory),
    };
    let depth = Depth {
        levels: options.limit() - 1,
        conversion: false,
    };
    mangled_name(arena, depth, text, 0)
}

/// Reads a name that is all of the bytes into the arena, cleared before: the index of its tree. `UnexpectedText` comes
/// also where bytes are left behind it; the other refusals are those of `read_front`.
#[tactic(auto, using(crate::proofs::Fronts::wholes))]
pub fn read_whole(arena: &mut Arena, bytes: &[u8], options: &ParseOptions) -> Result<u32>
    ensures { FindsWhole (view arena.new) (whole (reading options.now bytes.now)) result }
{
    let name = read_front(arena, bytes, options)?;
    if (name.end as usize) < bytes.len() {
        return Err(Error::UnexpectedText);
    }
    Ok(name.id)
}
