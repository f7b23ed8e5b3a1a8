//! Numbers of lists.

ghost use Rattle.std.specs.Prelude.{◌≡◌, ◌+◌, ◌-◌, ◌<◌, ◌++◌, [], ◌∷◌, length, take, slice_get, IfErr, IfSome};
ghost use Rattle.std.specs.Prelude.{OnErr, OnOk};
ghost use Rattle.demangle_cells.specs.Held.{held};
ghost use Rattle.demangle_cells.specs.Ledger.{ledger, stamp_at};

use crate::asked::Stamp;
use crate::entry::Entry;
use crate::room::Room;
use demangle_text::{Error, Result};
use std::alloc::Global;

/// Of a list that grows at its end and is cut there the stamps of its fronts: each tells by the log what is last in that
/// front, and the stamp of those before it. The log never shrinks, so a stamp tells the same list for ever.
#[derive(Drop)]
pub(crate) struct Ledger {
    log: Room<Stamp>,
    stamps: Room<u32>,
}

impl Ledger {
    /// Of an empty list. It takes no memory.
    pub fn new(alloc: Global) -> Ledger
        ensures { (ledger result).stamps ≡ [] }
    {
        Ledger {
            log: Room::new(alloc),
            stamps: Room::new(alloc),
        }
    }

    /// Of an empty list again, with nothing in the log; the room is kept.
    pub fn clear(&mut self)
        ensures { (ledger self.new).stamps ≡ [] }
    {
        self.log.truncate(0);
        self.stamps.truncate(0);
    }

    /// How many stamps there are.
    #[inline(always)]
    pub fn len(&self) -> usize
        ensures { result ≡ length (ledger self.now).stamps }
    {
        self.stamps.len()
    }

    /// The stamp of so many.
    #[tactic(auto, using(crate::proofs::Stamps::stamps))]
    pub fn stamp(&self, count: usize) -> u32
        ensures { result ≡ stamp_at count (ledger self.now).stamps }
    {
        if count == 0 {
            return 0;
        }
        match self.stamps.get(count - 1) {
            Some(stamp) => stamp,
            None => 0,
        }
    }

    /// What a stamp tells; none where there is no such stamp.
    pub fn told(&self, stamp: u32) -> Option<Stamp>
        ensures told { IfSome result (λ x. Some x ≡ slice_get (ledger self.now).log (stamp - 1)) }
        ensures positive { IfSome result (λ x. 0 < stamp) }
    {
        if stamp == 0 {
            return None;
        }
        self.log.get(stamp as usize - 1)
    }

    /// A new stamp, of those that have theirs and one more.
    pub fn note(&mut self, entry: Entry) -> Result<()>
        ensures log { OnOk result ((ledger self.new).log ≡ (ledger self.old).log ++ record {
          before = stamp_at (length (ledger self.old).stamps) (ledger self.old).stamps;
          numbered = entry.numbered;
          id = entry.id;
        } ∷ []) }
        ensures stamps { OnOk result ((ledger self.new).stamps
            ≡ (ledger self.old).stamps ++ (length (ledger self.old).log + 1) ∷ []) }
        ensures same { OnErr result (ledger self.new ≡ ledger self.old) }
    {
        let before = self.stamp(self.stamps.len());
        let number = self.log.len();
        if number >= u32::MAX as usize {
            return Err(Error::OutOfMemory);
        }
        self.log.push(Stamp {
            before,
            numbered: entry.numbered,
            id: entry.id,
        })?;
        match self.stamps.push(number as u32 + 1) {
            Ok(()) => Ok(()),
            Err(error) => {
                self.log.truncate(number);
                Err(error)
            }
        }
    }

    /// A stamp once more.
    pub fn push(&mut self, stamp: u32) -> Result<()>
        ensures log { (ledger self.new).log ≡ (ledger self.old).log }
        ensures stamps { OnOk result ((ledger self.new).stamps ≡ (ledger self.old).stamps ++ stamp ∷ []) }
        ensures same { OnErr result ((ledger self.new).stamps ≡ (ledger self.old).stamps) }
    {
        self.stamps.push(stamp)
    }

    /// The stamps of no more than so many.
    pub fn truncate(&mut self, count: usize)
        ensures log { (ledger self.new).log ≡ (ledger self.old).log }
        ensures stamps { (ledger self.new).stamps ≡ take count (ledger self.old).stamps }
    {
        self.stamps.truncate(count);
    }
}
