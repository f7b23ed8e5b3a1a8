//! What was read before, so that it needn't be read again.

ghost use Rattle.std.specs.Prelude.{◌≡◌, ◌-◌, ◌<◌, ◌≤◌, ◌++◌, ◌⊎◌, [], ◌∷◌, ℕ, length, true, slice_get, Some, IfSome};
ghost use Rattle.std.specs.Prelude.{OnErr, OnOk};

use crate::asked::{Key, Known, Outcome};
use crate::entry::Entry;
use crate::ledger::Ledger;
use crate::room::Room;
use demangle_text::{Error, Result};
use std::alloc::Global;

/// What is known of rows of a text. The first components have stamps, in the order in which they came, and so has what a
/// reading sees of them: the first tell which components stood before what was found, the others for which of them it
/// was refused. They get them late, once what rows answer is kept. For each `Known` there is in `links` the one before
/// it that has the same place in `heads`, which holds the last of them; both count from 1 on. `children` has the stamp
/// of an outline at the place of the one before it and of what is last in it.
#[derive(Drop)]
pub(crate) struct Memo {
    pub components: Ledger,
    pub outlines: Ledger,
    children: Vec<u32>,
    pub known: Room<Known>,
    pub text: Room<u8>,
    pub path: Room<u32>,
    heads: Vec<u32>,
    links: Vec<u32>,
    pub rows: usize,
}

/// Once so many rows a byte were entered, what they answer is kept.
const PATIENCE: usize = 64;

/// So many answers are kept at most, a byte of the text and in all: where more come, most are of no use again.
const MOST_A_BYTE: usize = 1024;

const MOST: usize = 1 << 22;

/// The room for places that a memo begins with.
const FIRST_HEADS: usize = 256;

impl Memo {
    ghost use Rattle.demangle_cells.specs.Held.{held};
    ghost use Rattle.demangle_cells.specs.Ledger.{NotesOnce, ledger, stamp_at};
    ghost use Rattle.demangle_cells.specs.Memo.{IsAmong, memory};
    ghost use Rattle.demangle_cells.specs.declared.asked.Known.{Known};
    ghost use Rattle.demangle_cells.specs.declared.asked.Outcome.TheVariants as of_outcome;

    /// A memo of nothing. It takes no memory.
    pub fn new(alloc: Global) -> Memo
        ensures components { (ledger result.components).stamps ≡ [] }
        ensures outlines { (ledger result.outlines).stamps ≡ [] }
        ensures known { held result.known ≡ [] }
    {
        Memo {
            components: Ledger::new(alloc),
            outlines: Ledger::new(alloc),
            children: Vec::new(alloc),
            known: Room::new(alloc),
            text: Room::new(alloc),
            path: Room::new(alloc),
            heads: Vec::new(alloc),
            links: Vec::new(alloc),
            rows: 0,
        }
    }

    /// Of nothing again; the room is kept.
    pub fn clear(&mut self)
        ensures components { (ledger self.new.components).stamps ≡ [] }
        ensures outlines { (ledger self.new.outlines).stamps ≡ [] }
        ensures known { held self.new.known ≡ [] }
    {
        self.components.clear();
        self.outlines.clear();
        self.children.clear();
        self.known.truncate(0);
        self.heads.clear();
        self.links.clear();
        self.rows = 0;
    }

    /// Counts a row that is entered. Whether it is one of so many that what they answer is kept.
    #[inline(always)]
    pub fn is_late(&mut self, length: usize) -> bool
        ensures { memory self.new ≡ memory self.old }
    {
        self.rows = self.rows.saturating_add(1);
        self.rows / PATIENCE > length
    }

    /// Where the stamp of an outline has its place that ends so behind another.
    fn place_of_child(before: u32, last: Entry) -> usize {
        let place = (before as usize).saturating_mul(4);
        let numbered = if last.numbered { 2 } else { 0 };
        let nestable = if last.id == 1 { 1 } else { 0 };
        place.saturating_add(numbered + nestable)
    }

    /// The stamp at a place, where it tells this behind that.
    fn child(&self, place: usize, before: u32, last: Entry) -> Option<u32>
        ensures positive { IfSome result (λ s. 0 < s) }
        ensures told { IfSome result (λ s. slice_get (memory self.now).outlines.log (s - 1) ≡ Some (record {
          before = before;
          numbered = last.numbered;
          id = last.id;
        })) }
    {
        let child = self.children.get(place).copied().unwrap_or(0);
        let told = self.outlines.told(child)?;
        if told.before == before && told.numbered == last.numbered && told.id == last.id {
            Some(child)
        } else {
            None
        }
    }

    /// Keeps a stamp at its place. Where there is no room it is never found again.
    fn keep_child(&mut self, place: usize, child: u32) -> Result<()>
        ensures { memory self.new ≡ memory self.old }
    {
        if place >= self.children.len() {
            self.children
                .resize(place.saturating_mul(2).max(FIRST_HEADS), 0)?;
        }
        if let Some(kept) = self.children.get_mut(place) {
            *kept = child;
        }
        Ok(())
    }

    /// What a reading sees of one component more gets the stamp that it had where it was seen before, or a new one.
    pub fn note_outline(&mut self, last: Entry) -> Result<()>
        ensures noted { OnOk result (NotesOnce (memory self.old).outlines (memory self.new).outlines last) }
        ensures same { OnErr result ((memory self.new).outlines ≡ (memory self.old).outlines) }
        ensures components { (memory self.new).components ≡ (memory self.old).components }
        ensures known { (memory self.new).known ≡ (memory self.old).known }
        ensures text { (memory self.new).text ≡ (memory self.old).text }
    {
        let before = self.outlines.stamp(self.outlines.len());
        let place = Self::place_of_child(before, last);
        if let Some(child) = self.child(place, before, last) {
            return self.outlines.push(child);
        }
        self.outlines.note(last)?;
        let child = self.outlines.stamp(self.outlines.len());
        let _kept = self.keep_child(place, child);
        Ok(())
    }

    /// Begins with these bytes where nothing is known yet; whether it is a memo of these bytes.
    pub fn is_for(&mut self, bytes: &[u8]) -> bool
        ensures components { (memory self.new).components ≡ (memory self.old).components }
        ensures outlines { (memory self.new).outlines ≡ (memory self.old).outlines }
        ensures known { (memory self.new).known ≡ (memory self.old).known }
        ensures text { ((memory self.new).text ≡ (memory self.old).text) ⊎ ((memory self.old).known ≡ []) }
        ensures bytes { result ≡ true → (memory self.new).text ≡ bytes.now }
    {
        if self.known.len() > 0 {
            return self.text.items() == bytes;
        }
        self.text.truncate(0);
        self.text.extend(bytes).is_ok()
    }

    /// Where a key has its place among so many.
    fn place_of(key: Key, count: usize) -> usize {
        let row = key.row as usize
            + if key.conversion { 8 } else { 0 }
            + if key.alike { 16 } else { 0 };
        let mixed = (key.at as usize)
            .wrapping_mul(32)
            .wrapping_add(row)
            .wrapping_mul(0x9e37_79b9_7f4a_7c15)
            .wrapping_add(key.before as usize)
            .wrapping_mul(0xff51_afd7_ed55_8ccd);
        if count == 0 { 0 } else { (mixed >> 20) % count }
    }

    /// What is known of a key with no more levels than these.
    #[inline(never)]
    pub fn find(&self, key: Key, levels: u32) -> Option<Known>
        ensures among { IfSome result (λ x. IsAmong x (memory self.now).known) }
        ensures key { IfSome result (λ x. x.key ≡ key) }
        ensures levels { IfSome result (λ x. x.levels ≤ levels) }
    {
        let place = Self::place_of(key, self.heads.len());
        let mut link = self.heads.get(place).copied().unwrap_or(0);
        while link > 0 {
            let known = self.known.get(link as usize - 1)?;
            if known.key == key && known.levels <= levels {
                return Some(known);
            }
            let next = self.links.get(link as usize - 1).copied().unwrap_or(0);
            if next >= link {
                return None;
            }
            link = next;
        }
        None
    }

    /// Why a row is refused, where that is what is known of a key with no more levels than these.
    pub fn refusal(&self, key: Key, levels: u32) -> Option<Error>
        ensures { IfSome result (λ e. (x : Known) × (IsAmong x (memory self.now).known × (x.key ≡ key)
            × (x.levels ≤ levels) × (x.outcome ≡ of_outcome.Refused e))) }
    {
        match self.find(key, levels)?.outcome {
            Outcome::Refused(error) => Some(error),
            _ => None,
        }
    }

    /// What comes behind something more that is known, where this was the last of its place. It isn't this where it has
    /// the same key: what is kept later of a key is kept for fewer levels.
    fn link_behind(&self, last: u32, key: Key) -> u32 {
        if last == 0 {
            return 0;
        }
        match self.known.get(last as usize - 1) {
            Some(known) if known.key == key => self
                .links
                .get(last as usize - 1)
                .copied()
                .unwrap_or(0),
            _ => last,
        }
    }

    /// Gives what is known its place. Where there is none it is never asked for.
    fn link(&mut self, key: Key, number: u32) -> Result<()>
        ensures { memory self.new ≡ memory self.old }
    {
        let place = Self::place_of(key, self.heads.len());
        let last = self.heads.get(place).copied().unwrap_or(0);
        let behind = self.link_behind(last, key);
        match self.heads.get_mut(place) {
            Some(head) => {
                *head = number;
                self.links.push(behind)?;
                Ok(())
            }
            None => Err(Error::OutOfMemory),
        }
    }

    /// Twice the places, with all that is known in them.
    #[inline(never)]
    fn widen(&mut self) -> Result<()>
        ensures { memory self.new ≡ memory self.old }
    {
        let wanted = self.heads.len().saturating_mul(2).max(FIRST_HEADS);
        self.heads.clear();
        self.links.clear();
        self.heads.resize(wanted, 0)?;
        for number in 0..self.known.len() {
            if let Some(known) = self.known.get(number)
                && let Ok(before) = u32::try_from(number)
            {
                self.link(known.key, before.wrapping_add(1))?;
            }
        }
        Ok(())
    }

    /// Something more that is known. Where there is no room, or much is known already, it isn't kept.
    #[inline(never)]
    pub fn put(&mut self, known: Known)
        ensures components { (memory self.new).components ≡ (memory self.old).components }
        ensures outlines { (memory self.new).outlines ≡ (memory self.old).outlines }
        ensures text { (memory self.new).text ≡ (memory self.old).text }
        ensures known { ((memory self.new).known ≡ (memory self.old).known)
            ⊎ ((memory self.new).known ≡ (memory self.old).known ++ known ∷ []) }
    {
        let number = self.known.len();
        if number >= MOST || number / MOST_A_BYTE > self.text.len() {
            return;
        }
        if number >= self.heads.len() && self.widen().is_err() {
            return;
        }
        if self.known.push(known).is_ok() {
            let _linked = self.link(known.key, number as u32 + 1);
        }
    }
}
