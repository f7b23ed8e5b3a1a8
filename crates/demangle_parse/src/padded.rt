//! The text of an input that begins behind its index.

ghost use Rattle.std.specs.Prelude.{◌≡◌, ◌+◌, drop, length, MatchResult};
ghost use Rattle.demangle_text.specs.Spot.{spot};
ghost use Rattle.demangle_text.specs.declared.error.Error.TheVariants.{OutOfMemory};

use demangle_text::{IndexStr, Result};
use std::alloc::Global;

/// The bytes of the input at its index, behind as many bytes at which nobody looks: in an arena places count from the
/// begin of the text. `OutOfMemory` is its only refusal.
#[tactic(auto, using(crate::proofs::Behind::padding))]
pub fn padded(alloc: Global, input: IndexStr<'_>) -> Result<Vec<u8>>
    ensures { MatchResult result
        (λ v. (drop (spot input.entry).index v.items ≡ (spot input.entry).left)
        × (length v.items ≡ (spot input.entry).index + length (spot input.entry).left))
        (λ e. e ≡ OutOfMemory) }
{
    let mut bytes = Vec::from_elem(alloc, 0, input.index())?;
    bytes.extend_from_slice(input.as_slice())?;
    Ok(bytes)
}
