//! The arena: the trees of a name, and a memo of what was read before.

ghost use Rattle.std.specs.Prelude.{◌≡◌, ◌≤◌, ◌+◌, ◌-◌, ◌<◌, ◌++◌, [], ◌∷◌, true, false, length, take, drop, ℕ};
ghost use Rattle.std.specs.Prelude.{◌⊎◌, IfErr, IfOk, IfSome, List, MatchOption, OnErr, OnOk, nat_lt, option_map, slice_get};
ghost use Rattle.demangle_cells.specs.Stored.{stored};
ghost use Rattle.demangle_cells.specs.Memo.{IsMemo, memory};

use crate::asked::{Key, Known, Outcome, RowName};
use crate::bytes::{has_no_reference, is_of_bytes};
use crate::cell::{Cell, ListOf};
use crate::depth::Depth;
use crate::entry::{Entry, Mark};
use crate::memo::Memo;
use crate::nestable::seen_of;
use crate::path::follow;
use crate::plain::Plain;
use crate::store::Store;
use crate::text::{Part, Text};
use demangle_text::{Error, Result};
use std::alloc::Global;

/// The trees of a name, its components so far, the indexes that wait to become a list; and a memo of what was read
/// before, which changes no answer.
#[derive(Drop)]
pub struct Arena {
    store: Store,
    memo: Memo,
    ghost kept: { ∥ IsMemo (stored store) (memory memo) ∥₁ },
}

impl Arena {
    ghost use Rattle.demangle_text.specs.declared.error.Error.TheVariants.{OutOfMemory};
    ghost use Rattle.demangle_core.specs.Core.{Core, N, U};
    ghost use Rattle.demangle_core.specs.Table.{added, entry_at, size};
    ghost use Rattle.demangle_grammar.specs.Tree.{reference};
    ghost use Rattle.demangle_cells.specs.Behind.{is_behind, is_kept, is_known};
    ghost use Rattle.demangle_cells.specs.Cells.{list_tree, plain_tree, row, span, tree};
    ghost use Rattle.demangle_cells.specs.Fixed.{absent, first_cell};
    ghost use Rattle.demangle_cells.specs.Held.{held};
    ghost use Rattle.demangle_cells.specs.Ledger.{stamp_at};
    ghost use Rattle.demangle_cells.specs.Memo.{row_of};
    ghost use Rattle.demangle_cells.specs.Reads.{EndsRow, Gathers, ReadsRow};
    ghost use Rattle.demangle_grammar.specs.Fits.{AllOf};
    ghost use Rattle.std.specs.Prelude.{◌==◌, Err, Ok, not};
    ghost use Rattle.demangle_cells.specs.View.{FitsMark, Grown, Holds, IsCut, IsMark, KeepsTrees, View, table, view};
    ghost use Rattle.demangle_cells.specs.View.{which_of};

    /// An arena without cells. It takes no memory.
    #[tactic(auto, using(crate::proofs::Memos::memos), unfolding(crate::specs::View::view))]
    pub fn new(alloc: Global) -> Arena
        ensures cells { (view result).cells ≡ [] }
        ensures entries { (view result).entries ≡ [] }
        ensures waiting { (view result).waiting ≡ [] }
    {
        Arena {
            store: Store::new(alloc),
            memo: Memo::new(alloc),
        }
    }

    /// Without cells, components, waiting indexes and memo, for another name; the room is kept.
    #[tactic(auto, using(crate::proofs::Memos::memos), unfolding(crate::specs::View::view))]
    pub fn clear(&mut self)
        ensures cells { (view self.new).cells ≡ [] }
        ensures entries { (view self.new).entries ≡ [] }
        ensures waiting { (view self.new).waiting ≡ [] }
    {
        self.store.clear();
        self.memo.clear();
    }

    /// A copy without memo and without room to spare, in which no indexes wait. `OutOfMemory` is the one refusal.
    #[tactic(auto, using(crate::proofs::Memos::memos), unfolding(crate::specs::View::view))]
    pub fn fitted(&self, alloc: Global) -> Result<Arena>
        ensures cells { IfOk result (λ a. (view a).cells ≡ (view self.now).cells) }
        ensures list { IfOk result (λ a. (view a).list ≡ (view self.now).list) }
        ensures entries { IfOk result (λ a. (view a).entries ≡ (view self.now).entries) }
        ensures waiting { IfOk result (λ a. (view a).waiting ≡ []) }
        ensures refused { IfErr result (λ e. e ≡ OutOfMemory) }
    {
        Ok(Arena {
            store: self.store.fitted(alloc)?,
            memo: Memo::new(alloc),
        })
    }

    /// One tree more, and its index. Where the parts are no known indexes, or there are 2^30 cells, it is
    /// `OutOfMemory`.
    #[inline(always)]
    #[tactic(auto, using(crate::proofs::Memos::memos), unfolding(crate::specs::View::view))]
    pub fn push(&mut self, cell: Cell) -> Result<u32>
        ensures grown { Grown (view self.old) (view self.new) }
        ensures table { (F : ℕ → Core) → table F (view self.new) ≡ table F (view self.old) }
        ensures made { IfOk result (λ i. (F : ℕ → Core) → Holds F (view self.new)
            → F i ≡ tree F (view self.new).list cell) }
        ensures refused { IfErr result (λ e. e ≡ OutOfMemory) }
    {
        self.store.push(cell)
    }

    /// One component more, and the index of the reference to it.
    #[inline(always)]
    #[tactic(auto, using(crate::proofs::Memos::memos), unfolding(crate::specs::View::view))]
    pub fn add(&mut self, numbered: bool, id: u32) -> Result<u32>
        ensures grown { Grown (view self.old) (view self.new) }
        ensures reference { IfOk result (λ r. (F : ℕ → Core) → Holds F (view self.new)
            → F r ≡ reference (which_of numbered) (size (which_of numbered) (table F (view self.old)))) }
        ensures added { OnOk result ((F : ℕ → Core)
            → table F (view self.new) ≡ added (which_of numbered) (F id) (table F (view self.old))) }
        ensures refused { IfErr result (λ e. e ≡ OutOfMemory) }
    {
        self.store.add(numbered, id)
    }

    /// How many components there are.
    #[tactic(auto, unfolding(crate::specs::View::view))]
    pub fn mark(&self) -> Mark
        ensures { IsMark (view self.now) result }
    {
        self.store.mark()
    }

    /// The components, in the order in which they were completed.
    #[tactic(auto, unfolding(crate::specs::View::view))]
    pub fn entries(&self) -> &[Entry]
        ensures { result.now ≡ (view self.now).entries }
    {
        self.store.entries()
    }

    /// Cuts the components back to as many as there were.
    #[tactic(auto, using(crate::proofs::Memos::memos), unfolding(crate::specs::View::view))]
    pub fn cut_back(&mut self, mark: Mark)
        requires { FitsMark (view self.old) mark }
        ensures { IsCut mark (view self.old) (view self.new) }
    {
        self.memo.components.truncate(mark.entries);
        self.memo.outlines.truncate(mark.entries);
        self.store.cut_back(mark);
    }

    /// Whether there is a numbered component of this number.
    #[tactic(auto, unfolding(crate::specs::View::view))]
    pub fn has_numbered(&self, number: usize) -> bool
        ensures { (F : ℕ → Core) → result ≡ nat_lt number (size N (table F (view self.now))) }
    {
        self.store.has_numbered(number)
    }

    /// How many indexes wait.
    #[tactic(auto, unfolding(crate::specs::View::view))]
    pub fn waiting(&self) -> usize
        ensures { result ≡ length (view self.now).waiting }
    {
        self.store.waiting()
    }

    /// One index more that waits to become a list.
    #[tactic(auto, using(crate::proofs::Memos::memos), unfolding(crate::specs::View::view))]
    pub fn wait(&mut self, id: u32) -> Result<()>
        ensures kept { KeepsTrees (view self.old) (view self.new) }
        ensures waits { OnOk result ((view self.new).waiting ≡ (view self.old).waiting ++ id ∷ []) }
        ensures same { OnErr result ((view self.new).waiting ≡ (view self.old).waiting) }
        ensures refused { IfErr result (λ e. e ≡ OutOfMemory) }
    {
        self.store.wait(id)
    }

    /// The cell of an index; none exactly where no cell has it.
    #[inline(always)]
    #[tactic(auto, unfolding(crate::specs::View::view))]
    pub fn kept(&self, id: u32) -> Option<Plain>
        ensures cell { MatchOption result (is_kept (length (view self.now).cells) id ≡ false)
            (λ c. (F : ℕ → Core) → Holds F (view self.now) → F id ≡ plain_tree F (view self.now).list c) }
        ensures found { IfSome result (λ c. is_kept (length (view self.now).cells) id ≡ true) }
        ensures lower { IfSome result (λ c. is_behind id (view self.now).list c ≡ true) }
    {
        self.store.kept(id)
    }

    /// What an index is, one step deep. Where there is no such cell and it is no constant's, it is a part that is not
    /// there.
    #[inline(always)]
    #[tactic(auto, unfolding(crate::specs::View::view))]
    pub fn plain(&self, id: u32) -> Plain
        ensures cell { is_known (first_cell + length (view self.now).cells) id ≡ true
            → (F : ℕ → Core) → Holds F (view self.now) → F id ≡ plain_tree F (view self.now).list result }
        ensures none { is_known (first_cell + length (view self.now).cells) id ≡ false
            → (F : ℕ → Core) (list : List ℕ) → plain_tree F list result ≡ absent }
        ensures lower { is_behind id (view self.now).list result ≡ true }
    {
        self.store.plain(id)
    }

    /// The same, but none exactly where there is no such cell and it is no constant's.
    #[inline(always)]
    #[tactic(auto, unfolding(crate::specs::View::view))]
    pub fn cell(&self, id: u32) -> Option<Plain>
        ensures cell { MatchOption result (is_known (first_cell + length (view self.now).cells) id ≡ false)
            (λ c. (F : ℕ → Core) → Holds F (view self.now) → F id ≡ plain_tree F (view self.now).list c) }
        ensures lower { IfSome result (λ c. is_behind id (view self.now).list c ≡ true) }
    {
        self.store.cell(id)
    }

    /// So many indexes of the list, from a place on.
    #[tactic(auto, unfolding(crate::specs::View::view))]
    pub fn indexes(&self, start: u32, count: u32) -> &[u32]
        ensures { result.now ≡ span (view self.now).list start count }
    {
        self.store.indexes(start, count)
    }

    /// The tree of a numbered component; none exactly where there is none.
    #[inline(always)]
    #[tactic(auto, unfolding(crate::specs::View::view))]
    pub fn numbered(&self, number: u32) -> Option<u32>
        ensures { (F : ℕ → Core) → option_map F result ≡ entry_at N number (table F (view self.now)) }
    {
        self.store.numbered(number)
    }

    /// The tree of another component; none exactly where there is none.
    #[inline(always)]
    #[tactic(auto, unfolding(crate::specs::View::view))]
    pub fn other(&self, number: u32) -> Option<u32>
        ensures { (F : ℕ → Core) → option_map F result ≡ entry_at U number (table F (view self.now)) }
    {
        self.store.other(number)
    }

    /// The list of the indexes that wait, from a place on, where it was read; they wait no more.
    #[inline(always)]
    #[tactic(auto, using(crate::proofs::Memos::memos), unfolding(crate::specs::View::view))]
    pub fn gathered(&mut self, from: usize, list: ListOf, answer: Result<u32>) -> Result<Part>
        requires { from ≤ length (view self.old).waiting }
        ensures kept { KeepsTrees (view self.old) (view self.new) }
        ensures waiting { (view self.new).waiting ≡ take from (view self.old).waiting }
        ensures made { Gathers answer result (λ i. (F : ℕ → Core) → Holds F (view self.new)
            → F i ≡ list_tree list (row F (drop from (view self.old).waiting))) }
    {
        self.store.gathered(from, list, answer)
    }

    /// Whether so many rows were entered, this one among them, that what they answer is kept.
    #[inline(always)]
    #[tactic(auto, using(crate::proofs::Memos::memos), unfolding(crate::specs::View::view))]
    pub fn is_late(&mut self, text: Text<'_>) -> bool
        ensures { view self.new ≡ view self.old }
    {
        self.memo.is_late(text.bytes.len())
    }

    /// The first component that has no stamp gets one; whether it did.
    #[tactic(auto, using(crate::proofs::Memos::memos), unfolding(crate::specs::View::view))]
    fn stamp_next(&mut self) -> bool
        ensures same { view self.new ≡ view self.old }
        ensures text { (memory self.new.memo).text ≡ (memory self.old.memo).text }
        ensures more { result ≡ true → length (memory self.new.memo).components.stamps
            ≡ length (memory self.old.memo).components.stamps + 1 }
    {
        match self.store.entry(self.memo.components.len()) {
            None => false,
            Some(entry) => self.memo.components.note(entry).is_ok(),
        }
    }

    /// Each component that has no stamp gets one; whether all have theirs.
    #[tactic(auto, using(crate::proofs::Memos::memos), unfolding(crate::specs::View::view))]
    fn stamp_all(&mut self) -> bool
        ensures same { view self.new ≡ view self.old }
        ensures text { (memory self.new.memo).text ≡ (memory self.old.memo).text }
        ensures whole { result ≡ true
            → length (memory self.new.memo).components.stamps ≡ length (view self.new).entries }
    {
        while self.memo.components.len() < self.store.count() {
            if !self.stamp_next() {
                return false;
            }
        }
        self.memo.components.len() == self.store.count()
    }

    /// The first component of which it has no stamp what a reading sees gets one; whether it did.
    #[tactic(auto, using(crate::proofs::Memos::memos), unfolding(crate::specs::View::view))]
    fn outline_next(&mut self) -> bool
        ensures same { view self.new ≡ view self.old }
        ensures text { (memory self.new.memo).text ≡ (memory self.old.memo).text }
        ensures components { (memory self.new.memo).components ≡ (memory self.old.memo).components }
        ensures more { result ≡ true → length (memory self.new.memo).outlines.stamps
            ≡ length (memory self.old.memo).outlines.stamps + 1 }
    {
        let Some(entry) = self.store.entry(self.memo.outlines.len()) else {
            return false;
        };
        match seen_of(&self.store, entry) {
            None => false,
            Some(last) => self.memo.note_outline(last).is_ok(),
        }
    }

    /// What a reading sees of each component gets its stamp; whether all have theirs.
    #[tactic(auto, using(crate::proofs::Memos::memos), unfolding(crate::specs::View::view))]
    fn outline_all(&mut self) -> bool
        ensures same { view self.new ≡ view self.old }
        ensures text { (memory self.new.memo).text ≡ (memory self.old.memo).text }
        ensures components { (memory self.new.memo).components ≡ (memory self.old.memo).components }
        ensures whole { result ≡ true
            → length (memory self.new.memo).outlines.stamps ≡ length (view self.new).entries }
    {
        while self.memo.outlines.len() < self.store.count() {
            if !self.outline_next() {
                return false;
            }
        }
        self.memo.outlines.len() == self.store.count()
    }

    /// Begins with these bytes where nothing is known yet; whether it is a memo of these bytes in which all components
    /// have their stamps.
    #[tactic(auto, using(crate::proofs::Memos::memos), unfolding(crate::specs::View::view))]
    fn is_ready(&mut self, bytes: &[u8]) -> bool
        ensures same { view self.new ≡ view self.old }
        ensures text { result ≡ true → (memory self.new.memo).text ≡ bytes.now }
        ensures components { result ≡ true
            → length (memory self.new.memo).components.stamps ≡ length (view self.new).entries }
        ensures outlines { result ≡ true
            → length (memory self.new.memo).outlines.stamps ≡ length (view self.new).entries }
    {
        self.memo.is_for(bytes) && self.stamp_all() && self.outline_all()
    }

    /// The stamp of the components.
    #[tactic(auto, unfolding(crate::specs::View::view))]
    fn stamp(&self) -> u32
        ensures { result ≡ stamp_at (length (view self.now).entries) (memory self.now.memo).components.stamps }
    {
        self.memo.components.stamp(self.store.count())
    }

    /// The stamp of what a row that is read of these bytes sees of the first so many components: that of none where no
    /// `S` is among the bytes.
    #[tactic(auto, unfolding(crate::specs::View::view))]
    fn outline_before(&self, count: usize, bytes: &[u8]) -> u32
        ensures { ((result ≡ 0) × AllOf (λ b. not (b == 83)) bytes.now)
            ⊎ (result ≡ stamp_at count (memory self.now.memo).outlines.stamps) }
    {
        if has_no_reference(bytes) {
            0
        } else {
            self.memo.outlines.stamp(count)
        }
    }

    /// Adds a component of a stamp that tells it; whether it did.
    #[tactic(auto, using(crate::proofs::Memos::memos), unfolding(crate::specs::View::view))]
    fn add_stamped(&mut self, stamp: u32, numbered: bool, id: u32) -> bool
        requires whole { length (memory self.old.memo).components.stamps ≡ length (view self.old).entries }
        requires positive { 0 < stamp }
        requires told { slice_get (memory self.old.memo).components.log (stamp - 1) ≡ Some (record {
          before = stamp_at (length (view self.old).entries) (memory self.old.memo).components.stamps;
          numbered = numbered;
          id = id;
        }) }
        ensures grown { Grown (view self.old) (view self.new) }
        ensures log { (memory self.new.memo).components.log ≡ (memory self.old.memo).components.log }
        ensures whole { result ≡ true
            → length (memory self.new.memo).components.stamps ≡ length (view self.new).entries }
    {
        match self.store.add(numbered, id) {
            Err(_) => false,
            Ok(_) => self.memo.components.push(stamp).is_ok(),
        }
    }

    /// Adds a component once more by its stamp, where its log says that it came behind these.
    #[tactic(auto, using(crate::proofs::Memos::memos), unfolding(crate::specs::View::view))]
    fn put_back(&mut self, stamp: u32) -> bool
        requires { length (memory self.old.memo).components.stamps ≡ length (view self.old).entries }
        ensures grown { Grown (view self.old) (view self.new) }
        ensures log { (memory self.new.memo).components.log ≡ (memory self.old.memo).components.log }
        ensures whole { result ≡ true
            → length (memory self.new.memo).components.stamps ≡ length (view self.new).entries }
    {
        match self.memo.components.told(stamp) {
            Some(was) if was.before == self.stamp() => {
                self.add_stamped(stamp, was.numbered, was.id)
            }
            _ => false,
        }
    }

    /// Adds the components between these and those of a stamp once more; whether it did.
    #[tactic(auto, using(crate::proofs::Memos::memos), unfolding(crate::specs::View::view))]
    fn restore(&mut self, stamp: u32) -> bool
        requires { length (memory self.old.memo).components.stamps ≡ length (view self.old).entries }
        ensures grown { Grown (view self.old) (view self.new) }
        ensures log { (memory self.new.memo).components.log ≡ (memory self.old.memo).components.log }
        ensures whole { result ≡ true
            → length (memory self.new.memo).components.stamps ≡ length (view self.new).entries }
        ensures stamp { result ≡ true → stamp
            ≡ stamp_at (length (view self.new).entries) (memory self.new.memo).components.stamps }
    {
        let from = self.stamp();
        let mut left = match follow(&self.memo.components, &mut self.memo.path, stamp, from) {
            Ok(count) => count,
            Err(_) => return false,
        };
        while left > 0 {
            left -= 1;
            let next = self.memo.path.get(left).unwrap_or(0);
            if !self.put_back(next) {
                return false;
            }
        }
        self.stamp() == stamp
    }

    /// The answer to a row that was read before, at this place of this text, with no more levels, and with the same
    /// components, or, where it was refused, with any of which a reading sees the same; the components that came with it
    /// come once more. None where none is kept; nothing changes then. To be asked once rows are late.
    #[inline(never)]
    #[tactic(auto, using(crate::proofs::Memos::memos), unfolding(crate::specs::View::view))]
    pub fn recall(
        &mut self,
        row: RowName,
        depth: Depth,
        text: Text<'_>,
        at: u32,
    ) -> Option<Result<Part>>
        ensures grown { Grown (view self.old) (view self.new) }
        ensures answer { MatchOption result (view self.new ≡ view self.old)
            (λ answer. ReadsRow (row_of row) depth.levels depth.conversion text.entry at answer
            (view self.old) (view self.new)) }
    {
        if !self.is_ready(text.bytes) {
            return None;
        }
        match self.refused(row, depth, text, at) {
            Some(error) => Some(Err(error)),
            None => self.answered(row, depth, text, at),
        }
    }

    /// Why a row is refused with these components, as it was with others of which a reading sees the same.
    #[tactic(auto, unfolding(crate::specs::View::view))]
    fn refused(&self, row: RowName, depth: Depth, text: Text<'_>, at: u32) -> Option<Error>
        requires bytes { (memory self.now.memo).text ≡ text.bytes.now }
        requires whole { length (memory self.now.memo).outlines.stamps ≡ length (view self.now).entries }
        ensures { IfSome result (λ e. ReadsRow (row_of row) depth.levels depth.conversion text.entry at (Err e)
            (view self.now) (view self.now)) }
    {
        let key = Key {
            row,
            at,
            conversion: depth.conversion,
            before: self.outline_before(self.store.count(), text.rest(at)),
            alike: true,
        };
        match self.memo.refusal(key, depth.levels) {
            Some(error) => Some(error),
            None => None,
        }
    }

    /// What was found with these components.
    #[tactic(auto, using(crate::proofs::Memos::memos), unfolding(crate::specs::View::view))]
    fn answered(
        &mut self,
        row: RowName,
        depth: Depth,
        text: Text<'_>,
        at: u32,
    ) -> Option<Result<Part>>
        requires bytes { (memory self.old.memo).text ≡ text.bytes.now }
        requires whole { length (memory self.old.memo).components.stamps ≡ length (view self.old).entries }
        ensures grown { Grown (view self.old) (view self.new) }
        ensures answer { MatchOption result (view self.new ≡ view self.old)
            (λ answer. ReadsRow (row_of row) depth.levels depth.conversion text.entry at answer
            (view self.old) (view self.new)) }
    {
        let key = Key {
            row,
            at,
            conversion: depth.conversion,
            before: self.stamp(),
            alike: false,
        };
        let known = self.memo.find(key, depth.levels)?;
        match known.outcome {
            Outcome::Found(part, behind) => {
                if self.restore(behind) {
                    Some(Ok(part))
                } else {
                    Some(Err(Error::OutOfMemory))
                }
            }
            _ => None,
        }
    }

    /// Keeps the answer to a row that was read, with the mark of the components before it. To be told once rows are
    /// late.
    #[inline(never)]
    #[tactic(auto, using(crate::proofs::Memos::memos), unfolding(crate::specs::View::view))]
    pub fn remember(
        &mut self,
        row: RowName,
        mark: Mark,
        depth: Depth,
        text: Text<'_>,
        at: u32,
        answer: &Result<Part>,
    )
        requires { (before : View) × ((IsMark before mark) × (Grown before (view self.old))
            × (ReadsRow (row_of row) depth.levels depth.conversion text at answer.now before (view self.old))) }
        ensures { view self.new ≡ view self.old }
    {
        if self.is_ready(text.bytes) {
            match answer {
                Ok(part) => self.keep_part(row, mark, depth, text, at, *part),
                Err(error) => self.keep_refusal(row, mark, depth, text, at, *error),
            }
        }
    }

    /// Keeps what was found.
    #[tactic(auto, using(crate::proofs::Memos::memos), unfolding(crate::specs::View::view))]
    fn keep_part(
        &mut self,
        row: RowName,
        mark: Mark,
        depth: Depth,
        text: Text<'_>,
        at: u32,
        part: Part,
    )
        requires bytes { (memory self.old.memo).text ≡ text.bytes.now }
        requires whole { length (memory self.old.memo).components.stamps ≡ length (view self.old).entries }
        requires read { (before : View) × ((IsMark before mark) × (Grown before (view self.old))
            × (ReadsRow (row_of row) depth.levels depth.conversion text at (Ok part) before (view self.old))) }
        ensures { view self.new ≡ view self.old }
    {
        let key = Key {
            row,
            at,
            conversion: depth.conversion,
            before: self.memo.components.stamp(mark.entries),
            alike: false,
        };
        let behind = self.stamp();
        self.memo.put(Known {
            key,
            levels: depth.levels,
            outcome: Outcome::Found(part, behind),
        });
    }

    /// Keeps why nothing was found, unless no level was left or no memory.
    #[tactic(auto, using(crate::proofs::Memos::memos), unfolding(crate::specs::View::view))]
    fn keep_refusal(
        &mut self,
        row: RowName,
        mark: Mark,
        depth: Depth,
        text: Text<'_>,
        at: u32,
        error: Error,
    )
        requires bytes { (memory self.old.memo).text ≡ text.bytes.now }
        requires whole { length (memory self.old.memo).outlines.stamps ≡ length (view self.old).entries }
        requires read { (before : View) × ((IsMark before mark) × (Grown before (view self.old))
            × (ReadsRow (row_of row) depth.levels depth.conversion text at (Err error) before (view self.old))) }
        ensures { view self.new ≡ view self.old }
    {
        if !is_of_bytes(error) {
            return;
        }
        let key = Key {
            row,
            at,
            conversion: depth.conversion,
            before: self.outline_before(mark.entries, text.rest(at)),
            alike: true,
        };
        self.memo.put(Known {
            key,
            levels: depth.levels,
            outcome: Outcome::Refused(error),
        });
    }

    /// Where a row ends, or why it is refused, as it was before at this place of this text, with no more levels, and with
    /// any components of which a reading sees the same. None where that isn't kept. To be asked once rows are late.
    #[inline(never)]
    #[tactic(auto, using(crate::proofs::Memos::memos), unfolding(crate::specs::View::view))]
    pub fn recall_end(
        &mut self,
        row: RowName,
        depth: Depth,
        text: Text<'_>,
        at: u32,
    ) -> Option<Result<u32>>
        ensures same { view self.new ≡ view self.old }
        ensures end { IfSome result (λ end. EndsRow (row_of row) depth.levels depth.conversion text.entry at end
            (view self.new) (view self.new)) }
    {
        if self.is_ready(text.bytes) {
            self.ended(row, depth, text, at)
        } else {
            None
        }
    }

    /// Where a row ends with these components, or why it is refused.
    #[tactic(auto, unfolding(crate::specs::View::view))]
    fn ended(&self, row: RowName, depth: Depth, text: Text<'_>, at: u32) -> Option<Result<u32>>
        requires bytes { (memory self.now.memo).text ≡ text.bytes.now }
        requires whole { length (memory self.now.memo).outlines.stamps ≡ length (view self.now).entries }
        ensures { IfSome result (λ end. EndsRow (row_of row) depth.levels depth.conversion text.entry at end
            (view self.now) (view self.now)) }
    {
        let key = Key {
            row,
            at,
            conversion: depth.conversion,
            before: self.outline_before(self.store.count(), text.rest(at)),
            alike: true,
        };
        match self.memo.find(key, depth.levels)?.outcome {
            Outcome::Ended(end) => Some(Ok(end)),
            Outcome::Refused(error) => Some(Err(error)),
            Outcome::Found(_, _) => None,
        }
    }

    /// Keeps where a row ends that was read ahead with these components, or why it is refused. To be told once rows are
    /// late.
    #[inline(never)]
    #[tactic(auto, using(crate::proofs::Memos::memos), unfolding(crate::specs::View::view))]
    pub fn remember_end(
        &mut self,
        row: RowName,
        depth: Depth,
        text: Text<'_>,
        at: u32,
        end: &Result<u32>,
    )
        requires { EndsRow (row_of row) depth.levels depth.conversion text at end.now (view self.old) (view self.old) }
        ensures { view self.new ≡ view self.old }
    {
        if self.is_ready(text.bytes) {
            match end {
                Ok(end) => self.keep_end(row, depth, text, at, *end),
                Err(error) => self.keep_refusal(row, self.mark(), depth, text, at, *error),
            }
        }
    }

    /// Keeps where a row ends.
    #[tactic(auto, using(crate::proofs::Memos::memos), unfolding(crate::specs::View::view))]
    fn keep_end(&mut self, row: RowName, depth: Depth, text: Text<'_>, at: u32, end: u32)
        requires bytes { (memory self.old.memo).text ≡ text.bytes.now }
        requires whole { length (memory self.old.memo).outlines.stamps ≡ length (view self.old).entries }
        requires read { EndsRow (row_of row) depth.levels depth.conversion text at (Ok end)
            (view self.old) (view self.old) }
        ensures { view self.new ≡ view self.old }
    {
        let key = Key {
            row,
            at,
            conversion: depth.conversion,
            before: self.outline_before(self.store.count(), text.rest(at)),
            alike: true,
        };
        self.memo.put(Known {
            key,
            levels: depth.levels,
            outcome: Outcome::Ended(end),
        });
    }
}
