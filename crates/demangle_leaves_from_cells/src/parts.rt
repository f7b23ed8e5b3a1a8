//! Parts that are no nodes: numbers, flags, places.

ghost use Rattle.demangle_cells.specs.View.{Holds, view};
ghost use Rattle.demangle_core.specs.Core.{Core, end, flag, place};
ghost use Rattle.demangle_leaf_nodes.specs.TreeLeaves.{tree_of_number, tree_of_signed};
ghost use Rattle.demangle_text.specs.declared.error.Error.TheVariants.{OutOfMemory};
ghost use Rattle.std.specs.Prelude.{IfErr, IfOk, [], ℕ, ◌∷◌, ◌≡◌};

use demangle_cells::{Arena, Plain};
use demangle_text::{Error, Result};

/// A number that isn't below zero. Another cell is refused as `OutOfMemory`, the only refusal.
pub fn count_from(arena: &Arena, id: u32) -> Result<usize>
    ensures made { IfOk result (λ n. (F : ℕ → Core) → Holds F (view arena.now) → F id ≡ tree_of_number n) }
    ensures refused { IfErr result (λ e. e ≡ OutOfMemory) }
{
    match arena.cell(id) {
        Some(Plain::Counted(number)) => Ok(number),
        Some(Plain::Number(number)) => if number >= 0 {
            Ok(number as usize)
        } else {
            Err(Error::OutOfMemory)
        },
        _ => Err(Error::OutOfMemory),
    }
}

/// A number. Another cell is refused as `OutOfMemory`, the only refusal, and so is a number of 2^63 or more.
pub fn number_from(arena: &Arena, id: u32) -> Result<isize>
    ensures made { IfOk result (λ n. (F : ℕ → Core) → Holds F (view arena.now) → F id ≡ tree_of_signed n) }
    ensures refused { IfErr result (λ e. e ≡ OutOfMemory) }
{
    match arena.cell(id) {
        Some(Plain::Number(number)) => Ok(number),
        Some(Plain::Counted(number)) => if number <= isize::MAX as usize {
            Ok(number as isize)
        } else {
            Err(Error::OutOfMemory)
        },
        _ => Err(Error::OutOfMemory),
    }
}

/// A number below 256. Another cell is refused as `OutOfMemory`, the only refusal.
pub fn byte_from(arena: &Arena, id: u32) -> Result<u8>
    ensures made { IfOk result (λ n. (F : ℕ → Core) → Holds F (view arena.now) → F id ≡ tree_of_number n) }
    ensures refused { IfErr result (λ e. e ≡ OutOfMemory) }
{
    let number = count_from(arena, id)?;
    if number <= u8::MAX as usize {
        Ok(number as u8)
    } else {
        Err(Error::OutOfMemory)
    }
}

/// A flag. Another cell is refused as `OutOfMemory`, the only refusal.
pub fn flag_from(arena: &Arena, id: u32) -> Result<bool>
    ensures made { IfOk result (λ n. (F : ℕ → Core) → Holds F (view arena.now) → F id ≡ flag n end) }
    ensures refused { IfErr result (λ e. e ≡ OutOfMemory) }
{
    match arena.cell(id) {
        Some(Plain::Flag(set)) => Ok(set),
        _ => Err(Error::OutOfMemory),
    }
}

/// A place in the input: the index of its first byte, and the index behind its last byte. Another cell is refused as
/// `OutOfMemory`, the only refusal.
pub fn place_from(arena: &Arena, id: u32) -> Result<(usize, usize)>
    ensures made { IfOk result (λ n. (F : ℕ → Core) → Holds F (view arena.now) → F id ≡ place n.0 n.1 end) }
    ensures refused { IfErr result (λ e. e ≡ OutOfMemory) }
{
    match arena.cell(id) {
        Some(Plain::Place(start, end)) => Ok((start as usize, end as usize)),
        _ => Err(Error::OutOfMemory),
    }
}

/// The indexes of a list of four. Of another list it is `OutOfMemory`.
pub fn four_parts(ids: &[u32]) -> Result<(u32, u32, u32, u32)>
    ensures made { IfOk result (λ n. ids.now ≡ n.0 ∷ n.1 ∷ n.2 ∷ n.3 ∷ []) }
    ensures refused { IfErr result (λ e. e ≡ OutOfMemory) }
{
    match ids {
        [first, second, third, fourth] => Ok((*first, *second, *third, *fourth)),
        _ => Err(Error::OutOfMemory),
    }
}

/// The indexes of a list of six: of its first three, and of the others. Of another list it is `OutOfMemory`.
pub fn six_parts(ids: &[u32]) -> Result<((u32, u32, u32), (u32, u32, u32))>
    ensures made { IfOk result (λ n. ids.now ≡ n.0.0 ∷ n.0.1 ∷ n.0.2 ∷ n.1.0 ∷ n.1.1 ∷ n.1.2 ∷ []) }
    ensures refused { IfErr result (λ e. e ≡ OutOfMemory) }
{
    match ids {
        [a, b, c, d, e, f] => Ok(((*a, *b, *c), (*d, *e, *f))),
        _ => Err(Error::OutOfMemory),
    }
}
