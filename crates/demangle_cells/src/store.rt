//! The trees of a name: cells, and what of the name is kept beside them.

ghost use Rattle.std.specs.Prelude.{◌≡◌, ◌≤◌, ◌+◌, ◌^◌, ◌<◌, [], ◌∷◌, true, false, length, take, drop, ℕ, IfOk, IfErr};
ghost use Rattle.std.specs.Prelude.{OnErr, OnOk, IfSome, slice_get};
ghost use Rattle.demangle_cells.specs.Fixed.{first_cell, first_reference};
ghost use Rattle.demangle_cells.specs.Behind.{all_behind};
ghost use Rattle.demangle_cells.specs.Entries.{ids_of};
ghost use Rattle.demangle_cells.specs.Held.{held};

use crate::cell::{Cell, ListOf};
use crate::constant_cells::beside_cells;
use crate::constants::empty_id;
use crate::entry::{Entry, Mark};
use crate::plain::Plain;
use crate::room::Room;
use crate::tag::Tag;
use crate::text::Part;
use demangle_text::{Error, Result};
use std::alloc::Global;

/// The index of the first cell; those below are constant trees.
pub const FIRST_CELL: u32 = 2304;

/// The index of the reference to the first numbered component.
pub const FIRST_REFERENCE: u32 = 1 << 30;

/// The index of the reference to the first of the other components.
pub const FIRST_OTHER: u32 = 1 << 31;

/// The trees of a name: cells that never change, and lists of indexes that they name; the components so far; and the
/// indexes that wait to become a list.
#[derive(Drop)]
pub(crate) struct Store {
    cells: Room<Plain>,
    list: Room<u32>,
    entries: Room<Entry>,
    numbered: Room<u32>,
    others: Room<u32>,
    waiting: Room<u32>,
    ghost few: { first_cell + length (held cells) ≤ first_reference },
    ghost short: { length (held list) < 2 ^ 32 },
    ghost behind: { all_behind first_cell (held list) (held cells) ≡ true },
    ghost those_numbered: { held numbered ≡ ids_of true (held entries) },
    ghost the_others: { held others ≡ ids_of false (held entries) },
}

impl Store {
    ghost use Rattle.demangle_text.specs.declared.error.Error.TheVariants.{OutOfMemory};
    ghost use Rattle.demangle_core.specs.Core.{Core, N, U, end, node, number, place};
    ghost use Rattle.demangle_core.specs.Table.{added, entry_at, size};
    ghost use Rattle.demangle_cells.specs.Behind.{is_known, is_kept, is_behind, all_known};
    ghost use Rattle.demangle_cells.specs.Reads.{Gathers};
    ghost use Rattle.std.specs.Prelude.{◌++◌, false, nat_lt, pos, List, MatchOption, option_map};
    ghost use Rattle.demangle_grammar.specs.Tree.{reference};
    ghost use Rattle.demangle_cells.specs.Stored.{stored, Holds, table, Grown, IsMark, FitsMark, IsCut, KeepsTrees};
    ghost use Rattle.demangle_cells.specs.Stored.{which_of};
    ghost use Rattle.demangle_cells.specs.Tags.{tag_of};
    ghost use Rattle.demangle_cells.specs.Fixed.{absent};
    ghost use Rattle.demangle_cells.specs.Cells.{tree, plain_tree, row, list_tree, span};

    /// An arena without cells. It takes no memory.
    #[tactic(auto, unfolding(crate::specs::Stored::stored))]
    pub fn new(alloc: Global) -> Store
        ensures cells { (stored result).cells ≡ [] }
        ensures entries { (stored result).entries ≡ [] }
        ensures waiting { (stored result).waiting ≡ [] }
    {
        Store {
            cells: Room::new(alloc),
            list: Room::new(alloc),
            entries: Room::new(alloc),
            numbered: Room::new(alloc),
            others: Room::new(alloc),
            waiting: Room::new(alloc),
        }
    }

    /// Without cells, components and waiting indexes, for another name; the room is kept.
    #[tactic(auto, unfolding(crate::specs::Stored::stored))]
    pub fn clear(&mut self)
        ensures cells { (stored self.new).cells ≡ [] }
        ensures entries { (stored self.new).entries ≡ [] }
        ensures waiting { (stored self.new).waiting ≡ [] }
    {
        self.cells.truncate(0);
        self.list.truncate(0);
        self.entries.truncate(0);
        self.numbered.truncate(0);
        self.others.truncate(0);
        self.waiting.truncate(0);
    }

    /// A copy without room to spare, in which no indexes wait.
    #[tactic(auto, unfolding(crate::specs::Stored::stored))]
    pub fn fitted(&self, alloc: Global) -> Result<Store>
        ensures cells { IfOk result (λ s. (stored s).cells ≡ (stored self.now).cells) }
        ensures list { IfOk result (λ s. (stored s).list ≡ (stored self.now).list) }
        ensures entries { IfOk result (λ s. (stored s).entries ≡ (stored self.now).entries) }
        ensures waiting { IfOk result (λ s. (stored s).waiting ≡ []) }
        ensures refused { IfErr result (λ e. e ≡ OutOfMemory) }
    {
        Ok(Store {
            cells: self.cells.fitted(alloc)?,
            list: self.list.fitted(alloc)?,
            entries: self.entries.fitted(alloc)?,
            numbered: self.numbered.fitted(alloc)?,
            others: self.others.fitted(alloc)?,
            waiting: Room::new(alloc),
        })
    }

    /// The index of the next cell.
    #[tactic(auto, unfolding(crate::specs::Stored::stored))]
    fn next(&self) -> u32
        ensures { result ≡ first_cell + length (held self.now.cells) }
    {
        FIRST_CELL + self.cells.len() as u32
    }

    /// Whether it is the index of a cell or of a constant tree.
    #[inline(always)]
    #[tactic(auto, unfolding(crate::specs::Stored::stored))]
    fn knows(&self, id: u32) -> bool
        ensures { result ≡ is_known (first_cell + length (held self.now.cells)) id }
    {
        id < self.next() || id >= FIRST_REFERENCE
    }

    /// Whether the parts of a cell are known.
    #[inline(always)]
    #[tactic(auto, unfolding(crate::specs::Stored::stored))]
    fn has_parts(&self, cell: Plain) -> bool
        ensures { result ≡ true
            → is_behind (first_cell + length (held self.now.cells)) (held self.now.list) cell ≡ true }
    {
        match cell {
            Plain::One(_, a) | Plain::Arguments(_, a) => self.knows(a),
            Plain::Two(_, a, b) => self.knows(a) && self.knows(b),
            Plain::Three(_, a, b, c) => self.knows(a) && self.knows(b) && self.knows(c),
            Plain::Many(_, _, _) => false,
            _ => true,
        }
    }

    /// One cell more, and its index. Where the parts are no known indexes, or there are 2^30 cells, it is
    /// `OutOfMemory`.
    #[inline(always)]
    #[tactic(auto, using(crate::proofs::Grows::pushes), unfolding(crate::specs::Stored::stored))]
    fn keep(&mut self, cell: Plain) -> Result<u32>
        ensures grown { Grown (stored self.old) (stored self.new) }
        ensures entries { (stored self.new).entries ≡ (stored self.old).entries }
        ensures made { IfOk result (λ i. (F : ℕ → Core) → Holds F (stored self.new)
            → F i ≡ plain_tree F (stored self.new).list cell) }
        ensures refused { IfErr result (λ e. e ≡ OutOfMemory) }
    {
        if self.next() >= FIRST_REFERENCE || !self.has_parts(cell) {
            return Err(Error::OutOfMemory);
        }
        let id = self.next();
        self.cells.push(cell)?;
        Ok(id)
    }

    /// A node that is a place in the input alone, and its index.
    #[inline(always)]
    #[tactic(auto, using(crate::proofs::Grows::grows))]
    fn keep_text(&mut self, tag: Tag, start: u32, stop: u32) -> Result<u32>
        ensures grown { Grown (stored self.old) (stored self.new) }
        ensures entries { (stored self.new).entries ≡ (stored self.old).entries }
        ensures made { IfOk result (λ i. (F : ℕ → Core) → Holds F (stored self.new)
            → F i ≡ node (tag_of tag) (place start stop end) end) }
        ensures refused { IfErr result (λ e. e ≡ OutOfMemory) }
    {
        let part = self.keep(Plain::Place(start, stop))?;
        self.keep(Plain::One(tag, part))
    }

    /// A node that is a number alone, and its index.
    #[inline(always)]
    #[tactic(auto, using(crate::proofs::Grows::grows))]
    fn keep_count(&mut self, tag: Tag, value: usize) -> Result<u32>
        ensures grown { Grown (stored self.old) (stored self.new) }
        ensures entries { (stored self.new).entries ≡ (stored self.old).entries }
        ensures made { IfOk result (λ i. (F : ℕ → Core) → Holds F (stored self.new)
            → F i ≡ node (tag_of tag) (number (pos value) end) end) }
        ensures refused { IfErr result (λ e. e ≡ OutOfMemory) }
    {
        let part = self.keep(Plain::Counted(value))?;
        self.keep(Plain::One(tag, part))
    }

    /// One tree more, and its index. Where the parts are no known indexes, or there are 2^30 cells, it is
    /// `OutOfMemory`.
    #[inline(always)]
    #[tactic(auto, using(crate::proofs::Grows::pushes))]
    pub fn push(&mut self, cell: Cell) -> Result<u32>
        ensures grown { Grown (stored self.old) (stored self.new) }
        ensures entries { (stored self.new).entries ≡ (stored self.old).entries }
        ensures made { IfOk result (λ i. (F : ℕ → Core) → Holds F (stored self.new)
            → F i ≡ tree F (stored self.new).list cell) }
        ensures refused { IfErr result (λ e. e ≡ OutOfMemory) }
    {
        match cell {
            Cell::Empty(tag) => self.keep(Plain::Empty(tag)),
            Cell::One(tag, a) => self.keep(Plain::One(tag, a)),
            Cell::Two(tag, a, b) => self.keep(Plain::Two(tag, a, b)),
            Cell::Three(tag, a, b, c) => self.keep(Plain::Three(tag, a, b, c)),
            Cell::Text(tag, start, stop) => self.keep_text(tag, start, stop),
            Cell::Count(tag, number) => self.keep_count(tag, number),
            Cell::Place(start, stop) => self.keep(Plain::Place(start, stop)),
            Cell::Number(number) => self.keep(Plain::Number(number)),
            Cell::Counted(number) => self.keep(Plain::Counted(number)),
            Cell::EmptyList(tag) => self.keep(Plain::One(tag, empty_id())),
        }
    }

    /// One component more, and the index of the reference to it.
    #[inline(always)]
    #[tactic(auto, unfolding(crate::specs::Stored::stored))]
    pub fn add(&mut self, numbered: bool, id: u32) -> Result<u32>
        ensures grown { Grown (stored self.old) (stored self.new) }
        ensures entries { OnOk result ((stored self.new).entries
            ≡ (stored self.old).entries ++ record { numbered = numbered; id = id } ∷ []) }
        ensures same { OnErr result ((stored self.new).entries ≡ (stored self.old).entries) }
        ensures reference { IfOk result (λ r. (F : ℕ → Core) → Holds F (stored self.new)
            → F r ≡ reference (which_of numbered) (size (which_of numbered) (table F (stored self.old)))) }
        ensures added { OnOk result ((F : ℕ → Core)
            → table F (stored self.new) ≡ added (which_of numbered) (F id) (table F (stored self.old))) }
        ensures refused { IfErr result (λ e. e ≡ OutOfMemory) }
    {
        if numbered {
            self.add_numbered(id)
        } else {
            self.add_other(id)
        }
    }

    /// A numbered component more.
    #[tactic(auto, using(crate::proofs::Grows::pushes, crate::proofs::Components::parts), unfolding(crate::specs::Stored::stored))]
    fn add_numbered(&mut self, id: u32) -> Result<u32>
        ensures grown { Grown (stored self.old) (stored self.new) }
        ensures entries { OnOk result ((stored self.new).entries
            ≡ (stored self.old).entries ++ record { numbered = true; id = id } ∷ []) }
        ensures same { OnErr result ((stored self.new).entries ≡ (stored self.old).entries) }
        ensures reference { IfOk result (λ r. (F : ℕ → Core) → Holds F (stored self.new)
            → F r ≡ reference N (size N (table F (stored self.old)))) }
        ensures added { OnOk result ((F : ℕ → Core)
            → table F (stored self.new) ≡ added N (F id) (table F (stored self.old))) }
        ensures refused { IfErr result (λ e. e ≡ OutOfMemory) }
    {
        let number = self.numbered.len();
        if number >= FIRST_REFERENCE as usize {
            return Err(Error::OutOfMemory);
        }
        let count = self.entries.len();
        self.entries.push(Entry { numbered: true, id })?;
        match self.numbered.push(id) {
            Ok(()) => Ok(FIRST_REFERENCE + number as u32),
            Err(_) => {
                self.entries.truncate(count);
                Err(Error::OutOfMemory)
            }
        }
    }

    /// Another component more.
    #[tactic(auto, using(crate::proofs::Grows::pushes, crate::proofs::Components::parts), unfolding(crate::specs::Stored::stored))]
    fn add_other(&mut self, id: u32) -> Result<u32>
        ensures grown { Grown (stored self.old) (stored self.new) }
        ensures entries { OnOk result ((stored self.new).entries
            ≡ (stored self.old).entries ++ record { numbered = false; id = id } ∷ []) }
        ensures same { OnErr result ((stored self.new).entries ≡ (stored self.old).entries) }
        ensures reference { IfOk result (λ r. (F : ℕ → Core) → Holds F (stored self.new)
            → F r ≡ reference U (size U (table F (stored self.old)))) }
        ensures added { OnOk result ((F : ℕ → Core)
            → table F (stored self.new) ≡ added U (F id) (table F (stored self.old))) }
        ensures refused { IfErr result (λ e. e ≡ OutOfMemory) }
    {
        let number = self.others.len();
        if number >= FIRST_REFERENCE as usize {
            return Err(Error::OutOfMemory);
        }
        let count = self.entries.len();
        self.entries.push(Entry {
            numbered: false,
            id,
        })?;
        match self.others.push(id) {
            Ok(()) => Ok(FIRST_OTHER + number as u32),
            Err(_) => {
                self.entries.truncate(count);
                Err(Error::OutOfMemory)
            }
        }
    }

    /// How many components there are.
    #[inline(always)]
    #[tactic(auto, unfolding(crate::specs::Stored::stored))]
    pub fn count(&self) -> usize
        ensures { result ≡ length (stored self.now).entries }
    {
        self.entries.len()
    }

    /// How many components there are, by their lists.
    #[tactic(auto, unfolding(crate::specs::Stored::stored))]
    pub fn mark(&self) -> Mark
        ensures { IsMark (stored self.now) result }
    {
        Mark {
            entries: self.entries.len(),
            numbered: self.numbered.len(),
            others: self.others.len(),
        }
    }

    /// The components, in the order in which they were completed.
    #[tactic(auto, unfolding(crate::specs::Stored::stored))]
    pub fn entries(&self) -> &[Entry]
        ensures { result.now ≡ (stored self.now).entries }
    {
        self.entries.items()
    }

    /// The component of this number, in that order; none exactly where there is none.
    #[tactic(auto, unfolding(crate::specs::Stored::stored))]
    pub fn entry(&self, number: usize) -> Option<Entry>
        ensures { result ≡ slice_get (stored self.now).entries number }
    {
        self.entries.get(number)
    }

    /// Cuts the components back to as many as there were.
    #[tactic(auto, using(crate::proofs::Components::ids_taken), unfolding(crate::specs::Stored::stored))]
    pub fn cut_back(&mut self, mark: Mark)
        requires { FitsMark (stored self.old) mark }
        ensures { IsCut mark (stored self.old) (stored self.new) }
    {
        self.entries.truncate(mark.entries);
        self.numbered.truncate(mark.numbered);
        self.others.truncate(mark.others);
    }

    /// Whether there is a numbered component of this number.
    #[tactic(auto, using(crate::proofs::Components::has_of_size), unfolding(crate::specs::Stored::stored))]
    pub fn has_numbered(&self, number: usize) -> bool
        ensures { (F : ℕ → Core) → result ≡ nat_lt number (size N (table F (stored self.now))) }
    {
        number < self.numbered.len()
    }

    /// How many indexes wait.
    #[tactic(auto, unfolding(crate::specs::Stored::stored))]
    pub fn waiting(&self) -> usize
        ensures { result ≡ length (stored self.now).waiting }
    {
        self.waiting.len()
    }

    /// One index more that waits to become a list.
    #[tactic(auto, using(crate::proofs::Grows::all_same), unfolding(crate::specs::Stored::stored))]
    pub fn wait(&mut self, id: u32) -> Result<()>
        ensures kept { KeepsTrees (stored self.old) (stored self.new) }
        ensures waits { OnOk result ((stored self.new).waiting ≡ (stored self.old).waiting ++ id ∷ []) }
        ensures same { OnErr result ((stored self.new).waiting ≡ (stored self.old).waiting) }
        ensures refused { IfErr result (λ e. e ≡ OutOfMemory) }
    {
        self.waiting.push(id)?;
        Ok(())
    }

    /// The cell of an index; none exactly where no cell has it.
    #[inline(always)]
    #[tactic(auto, unfolding(crate::specs::Stored::stored))]
    pub fn kept(&self, id: u32) -> Option<Plain>
        ensures cell { MatchOption result (is_kept (length (stored self.now).cells) id ≡ false)
            (λ c. (F : ℕ → Core) → Holds F (stored self.now) → F id ≡ plain_tree F (stored self.now).list c) }
        ensures found { IfSome result (λ c. is_kept (length (stored self.now).cells) id ≡ true) }
        ensures lower { IfSome result (λ c. is_behind id (stored self.now).list c ≡ true) }
    {
        self.cells.get(id.wrapping_sub(FIRST_CELL) as usize)
    }

    /// What an index is, one step deep. Where there is no such cell and it is no constant's, it is a part that is not
    /// there.
    #[inline(always)]
    #[tactic(auto, using(crate::proofs::Blocks::beside), unfolding(crate::specs::Stored::stored))]
    pub fn plain(&self, id: u32) -> Plain
        ensures cell { is_known (first_cell + length (stored self.now).cells) id ≡ true
            → (F : ℕ → Core) → Holds F (stored self.now) → F id ≡ plain_tree F (stored self.now).list result }
        ensures none { is_known (first_cell + length (stored self.now).cells) id ≡ false
            → (F : ℕ → Core) (list : List ℕ) → plain_tree F list result ≡ absent }
        ensures lower { is_behind id (stored self.now).list result ≡ true }
    {
        match self.kept(id) {
            Some(cell) => cell,
            None => {
                // (a value of its own: so what is read of a cell doesn't pass through memory)
                let beside = beside_cells(id);
                beside
            }
        }
    }

    /// The same, but none exactly where there is no such cell and it is no constant's.
    #[inline(always)]
    #[tactic(auto, unfolding(crate::specs::Stored::stored))]
    pub fn cell(&self, id: u32) -> Option<Plain>
        ensures cell { MatchOption result (is_known (first_cell + length (stored self.now).cells) id ≡ false)
            (λ c. (F : ℕ → Core) → Holds F (stored self.now) → F id ≡ plain_tree F (stored self.now).list c) }
        ensures lower { IfSome result (λ c. is_behind id (stored self.now).list c ≡ true) }
    {
        if self.knows(id) {
            Some(self.plain(id))
        } else {
            None
        }
    }

    /// So many indexes of the list, from a place on.
    #[tactic(auto, unfolding(crate::specs::Stored::stored))]
    pub fn indexes(&self, start: u32, count: u32) -> &[u32]
        ensures { result.now ≡ span (stored self.now).list start count }
    {
        let rest = match self.list.items().get(start as usize..) {
            Some(rest) => rest,
            None => return &[],
        };
        match rest.get(..count as usize) {
            Some(front) => front,
            None => rest,
        }
    }

    /// The tree of a numbered component; none exactly where there is none.
    #[inline(always)]
    #[tactic(auto, using(crate::proofs::Components::by_number), unfolding(crate::specs::Stored::stored))]
    pub fn numbered(&self, number: u32) -> Option<u32>
        ensures { (F : ℕ → Core) → option_map F result ≡ entry_at N number (table F (stored self.now)) }
    {
        self.numbered.get(number as usize)
    }

    /// The tree of another component; none exactly where there is none.
    #[inline(always)]
    #[tactic(auto, using(crate::proofs::Components::by_number), unfolding(crate::specs::Stored::stored))]
    pub fn other(&self, number: u32) -> Option<u32>
        ensures { (F : ℕ → Core) → option_map F result ≡ entry_at U number (table F (stored self.now)) }
    {
        self.others.get(number as usize)
    }

    /// Whether all are known.
    fn knows_all(&self, ids: &[u32]) -> bool
        ensures { result ≡ true → all_known (first_cell + length (held self.now.cells)) ids.now ≡ true }
    {
        let mut rest = ids;
        while let [id, next @ ..] = rest {
            if !self.knows(*id) {
                return false;
            }
            rest = next;
        }
        true
    }

    /// A node of the indexes that wait, from a place on.
    #[inline(always)]
    #[tactic(auto, using(crate::proofs::Grows::pushes), unfolding(crate::specs::Stored::stored))]
    fn keep_many(&mut self, from: usize, tag: Tag) -> Result<u32>
        requires { from ≤ length (stored self.old).waiting }
        ensures kept { KeepsTrees (stored self.old) (stored self.new) }
        ensures waiting { (stored self.new).waiting ≡ (stored self.old).waiting }
        ensures made { IfOk result (λ i. (F : ℕ → Core) → Holds F (stored self.new)
            → F i ≡ node (tag_of tag) (row F (drop from (stored self.old).waiting)) end) }
        ensures refused { IfErr result (λ e. e ≡ OutOfMemory) }
    {
        let start = self.list.len();
        let count = self.waiting.len() - from;
        if self.next() >= FIRST_REFERENCE || count >= (1 << 32) - start {
            return Err(Error::OutOfMemory);
        }
        if !self.knows_all(&self.waiting.items()[from..]) {
            return Err(Error::OutOfMemory);
        }
        self.list.extend(&self.waiting.items()[from..])?;
        let id = self.next();
        let cell = Plain::Many(tag, start as u32, count as u32);
        self.cells.push(cell)?;
        Ok(id)
    }

    /// What becomes of the indexes that wait, from a place on.
    #[tactic(auto, using(crate::proofs::Grows::grows, crate::proofs::Waits::nodes))]
    fn listed(&mut self, from: usize, list: ListOf) -> Result<u32>
        requires { from ≤ length (stored self.old).waiting }
        ensures kept { KeepsTrees (stored self.old) (stored self.new) }
        ensures waiting { (stored self.new).waiting ≡ (stored self.old).waiting }
        ensures made { IfOk result (λ i. (F : ℕ → Core) → Holds F (stored self.new)
            → F i ≡ list_tree list (row F (drop from (stored self.old).waiting))) }
        ensures refused { IfErr result (λ e. e ≡ OutOfMemory) }
    {
        match list {
            ListOf::Node(tag) => self.keep_many(from, tag),
            ListOf::Arguments(at) => {
                let members = self.keep_many(from, Tag::Several)?;
                self.keep(Plain::Arguments(at, members))
            }
        }
    }

    /// The list of the indexes that wait, from a place on, where it was read; they wait no more.
    #[inline(always)]
    #[tactic(auto, unfolding(crate::specs::Stored::stored))]
    pub fn gathered(&mut self, from: usize, list: ListOf, answer: Result<u32>) -> Result<Part>
        requires { from ≤ length (stored self.old).waiting }
        ensures kept { KeepsTrees (stored self.old) (stored self.new) }
        ensures waiting { (stored self.new).waiting ≡ take from (stored self.old).waiting }
        ensures made { Gathers answer result (λ i. (F : ℕ → Core) → Holds F (stored self.new)
            → F i ≡ list_tree list (row F (drop from (stored self.old).waiting))) }
    {
        let made = match answer {
            Ok(end) => self.listed(from, list).map(|id| Part { id, end }),
            Err(error) => Err(error),
        };
        self.waiting.truncate(from);
        made
    }
}
