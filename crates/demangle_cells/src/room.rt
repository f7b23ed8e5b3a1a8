//! Lists whose room stays.

ghost use Rattle.std.specs.Prelude.{◌≤◌, length};

use demangle_text::{Error, Result};
use std::alloc::Global;

/// A list of small values in a room that is filled once and then written by index: the first `count` of the room are
/// the list, and what stands behind them is left over.
#[derive(Drop)]
pub(crate) struct Room<T> {
    room: Vec<T>,
    count: usize,
    ghost fits: { count ≤ length room.items },
}

impl<T: Copy> Room<T> {
    ghost use Rattle.std.specs.Prelude.{◌≡◌, ◌<◌, ◌++◌, [], ◌∷◌, take, IfErr, IfOk, OnErr, OnOk, slice_get};
    ghost use Rattle.demangle_text.specs.declared.error.Error.TheVariants.{OutOfMemory};
    ghost use Rattle.demangle_cells.specs.Held.{held};

    /// An empty list. It takes no memory.
    #[tactic(auto, unfolding(crate::specs::Held::held))]
    pub fn new(alloc: Global) -> Room<T>
        ensures { held result ≡ [] }
    {
        Room {
            room: Vec::new(alloc),
            count: 0,
        }
    }

    /// How many there are.
    #[inline(always)]
    #[tactic(auto, unfolding(crate::specs::Held::held))]
    pub fn len(&self) -> usize
        ensures { result ≡ length (held self.now) }
    {
        self.count
    }

    /// All of them.
    #[inline(always)]
    #[tactic(auto, unfolding(crate::specs::Held::held))]
    pub fn items(&self) -> &[T]
        ensures { result.now ≡ held self.now }
    {
        &self.room[..self.count]
    }

    /// The one at a place.
    #[inline(always)]
    #[tactic(auto, using(crate::proofs::Held::gets), unfolding(crate::specs::Held::held))]
    pub fn get(&self, at: usize) -> Option<T>
        ensures { result ≡ slice_get (held self.now) at }
    {
        if at < self.count {
            Some(self.room[at])
        } else {
            None
        }
    }

    /// One more.
    #[inline(always)]
    #[tactic(auto, unfolding(crate::specs::Held::held))]
    pub fn push(&mut self, value: T) -> Result<()>
        ensures items { OnOk result (held self.new ≡ held self.old ++ value ∷ []) }
        ensures same { OnErr result (held self.new ≡ held self.old) }
        ensures refused { IfErr result (λ e. e ≡ OutOfMemory) }
    {
        if self.count == self.room.len() {
            self.widen(value)?;
        }
        self.room[self.count] = value;
        self.count += 1;
        Ok(())
    }

    /// Twice the room, filled with a value.
    #[inline(never)]
    #[tactic(auto, unfolding(crate::specs::Held::held))]
    fn widen(&mut self, value: T) -> Result<()>
        ensures same { held self.new ≡ held self.old }
        ensures room { OnOk result (self.new.count < length self.new.room.items) }
        ensures refused { IfErr result (λ e. e ≡ OutOfMemory) }
    {
        let wanted = self.room.len().saturating_mul(2).max(16);
        self.room.resize(wanted, value)?;
        Ok(())
    }

    /// So many more.
    #[tactic(auto, using(crate::proofs::Held::more))]
    pub fn extend(&mut self, more: &[T]) -> Result<()>
        ensures items { OnOk result (held self.new ≡ held self.old ++ more.now) }
        ensures same { OnErr result (held self.new ≡ held self.old) }
        ensures refused { IfErr result (λ e. e ≡ OutOfMemory) }
    {
        let count = self.len();
        let mut rest = more;
        while let [value, next @ ..] = rest {
            if let Err(error) = self.push(*value) {
                self.truncate(count);
                return Err(error);
            }
            rest = next;
        }
        Ok(())
    }

    /// A copy without room to spare.
    #[tactic(auto, unfolding(crate::specs::Held::held))]
    pub fn fitted(&self, alloc: Global) -> Result<Room<T>>
        ensures items { IfOk result (λ copy. held copy ≡ held self.now) }
        ensures refused { IfErr result (λ e. e ≡ OutOfMemory) }
    {
        let mut room = Vec::with_capacity(alloc, self.count)?;
        room.extend_from_slice(self.items())?;
        let count = room.len();
        Ok(Room { room, count })
    }

    /// No more than so many.
    #[inline(always)]
    #[tactic(auto, unfolding(crate::specs::Held::held))]
    pub fn truncate(&mut self, count: usize)
        ensures { held self.new ≡ take count (held self.old) }
    {
        if count < self.count {
            self.count = count;
        }
    }
}
