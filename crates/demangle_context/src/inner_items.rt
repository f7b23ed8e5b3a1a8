//! The level of a printing and its inner items: one stack with a base that moves, and one of kept items.

ghost use Rattle.std.specs.Prelude.{◌≡◌, ◌+◌, ◌-◌, ◌<◌, ◌≤◌, ◌↔◌, false, IsTrue, IsOk, IfOk, OnOk, OnErr, option_map};
ghost use Rattle.std.specs.Prelude.{length, vec_len, vec_capacity};
ghost use Rattle.demangle_core.specs.Core.{Core};
ghost use Rattle.demangle_printing.specs.State.{is_own_item};
ghost use Rattle.demangle_printing.specs.World.{nth};
ghost use Rattle.demangle_context.specs.Room.{reserve};
ghost use Rattle.demangle_context.specs.Items.{no_items, HasRoom, one_deeper, one_less_deep, item_at, with_pushed_at};
ghost use Rattle.demangle_context.specs.Items.{without_top, without_top_if, with_top_kept, with_returned, set_aside};
ghost use Rattle.demangle_context.specs.Items.{brought_back};

use std::alloc::{AllocError, Global};
use std::marker::Model;

/// For how many items, at most, there is room from the beginning.
const MOST_ITEMS: u32 = 65_536;

/// A node that may wait as an inner item, mostly a reference. Contracts see its tree.
pub trait InnerNode: Copy {
    ghost tree: { Self → Core };
}

/// An item, and the level at which it was pushed.
#[derive(Clone, Copy)]
struct HeldItem<T: Copy> {
    item: T,
    level: u32,
}

/// The items that `barrier` set aside, for `restore`. In a contract it is how many had been set aside before.
#[derive(Drop)]
pub struct InnerBarrier {
    before: usize,
}

impl Model for InnerBarrier {
    ghost use Rattle.std.specs.Prelude.{ℕ};

    ghost Value = { ℕ };

    ghost view = { λ b. b.before };
}

/// The level of a printing, the inner items that wait, that are set aside below the base, and that are kept. Each of
/// the two stacks has room, from the beginning, for as many items as there are levels, but at most for 65,536.
#[derive(Drop)]
pub struct InnerItems<T: Copy> {
    items: Vec<HeldItem<T>>,
    base: usize,
    kept: Vec<HeldItem<T>>,
    level: u32,
    limit: u32,
    ghost below: { level < limit },
    ghost within: { base ≤ vec_len items },
    ghost room: { reserve limit ≤ vec_capacity items },
    ghost kept_room: { reserve limit ≤ vec_capacity kept },
}

#[tactic(auto, unfolding(crate::specs::ItemsOf::items_of))]
impl<T: InnerNode> InnerItems<T> {
    ghost use Rattle.demangle_context.specs.ItemsOf.{held, items_of};

    /// No items, at level 0 of so many levels. `OutOfMemory` is the one refusal.
    pub fn new(alloc: Global, limit: u32) -> Result<InnerItems<T>, AllocError>
        requires { 0 < limit }
        ensures { IfOk result (λ items. items_of T.tree items ≡ no_items limit) }
    {
        let count = limit.min(MOST_ITEMS) as usize;
        let items = Vec::with_capacity(alloc, count)?;
        let kept = Vec::with_capacity(alloc, count)?;
        Ok(InnerItems {
            items,
            base: 0,
            kept,
            level: 0,
            limit,
        })
    }

    /// No items again, at level 0 of as many levels. The stacks keep their room.
    pub(crate) fn clear(&mut self)
        ensures { items_of T.tree self.new ≡ no_items (items_of T.tree self.old).limit }
    {
        self.items.truncate(0);
        self.base = 0;
        self.kept.truncate(0);
        self.level = 0;
    }

    /// The level.
    pub(crate) fn level(&self) -> u32
        ensures value { result ≡ (items_of T.tree self.now).level }
        ensures below { result < (items_of T.tree self.now).limit }
    {
        self.level
    }

    /// How many levels there are.
    pub(crate) fn limit(&self) -> u32
        ensures { result ≡ (items_of T.tree self.now).limit }
    {
        self.limit
    }

    /// Enters a level, and tells whether there was one.
    pub(crate) fn enter(&mut self) -> bool
        ensures entered { IsTrue result → items_of T.tree self.new ≡ one_deeper (items_of T.tree self.old) }
        ensures unchanged { result ≡ false → items_of T.tree self.new ≡ items_of T.tree self.old }
        ensures exactly { (result ≡ false) ↔ ((items_of T.tree self.old).level + 1 ≡ (items_of T.tree self.old).limit) }
    {
        let level = self.level + 1;
        if level == self.limit {
            return false;
        }
        self.level = level;
        true
    }

    /// Leaves a level.
    pub(crate) fn leave(&mut self)
        requires { 0 < (items_of T.tree self.old).level }
        ensures { items_of T.tree self.new ≡ one_less_deep (items_of T.tree self.old) }
    {
        self.level -= 1;
    }

    /// How many items wait.
    pub(crate) fn len(&self) -> usize
        ensures { result ≡ length (items_of T.tree self.now).inner }
    {
        self.items.len() - self.base
    }

    /// How many items are kept.
    pub(crate) fn kept_len(&self) -> usize
        ensures { result ≡ length (items_of T.tree self.now).kept }
    {
        self.kept.len()
    }

    /// The item so many from the top, and its level.
    fn held_at(&self, from_top: usize) -> Option<HeldItem<T>>
        ensures { option_map (held T.tree) result ≡ nth from_top (items_of T.tree self.now).inner }
    {
        if from_top >= self.len() {
            return None;
        }
        Some(self.items[self.items.len() - 1 - from_top])
    }

    /// The item so many from the top; `None` exactly where fewer wait.
    pub(crate) fn at(&self, from_top: usize) -> Option<T>
        ensures { option_map T.tree result ≡ item_at from_top (items_of T.tree self.now).inner }
    {
        match self.held_at(from_top) {
            None => None,
            Some(held) => Some(held.item),
        }
    }

    /// Pushes an item at a level.
    pub(crate) fn push(&mut self, item: T, level: u32) -> Result<(), AllocError>
        ensures pushed { OnOk result (items_of T.tree self.new
            ≡ with_pushed_at level (T.tree item) (items_of T.tree self.old)) }
        ensures unchanged { OnErr result (items_of T.tree self.new ≡ items_of T.tree self.old) }
        ensures room { HasRoom (items_of T.tree self.old) → IsOk result }
    {
        match self.items.push(HeldItem { item, level }) {
            Ok(()) => Ok(()),
            Err(_) => Err(AllocError),
        }
    }

    /// The top item, taken out; `None` exactly where none waits.
    pub(crate) fn pop(&mut self) -> Option<T>
        ensures after { items_of T.tree self.new ≡ without_top (items_of T.tree self.old) }
        ensures value { option_map T.tree result ≡ item_at 0 (items_of T.tree self.old).inner }
    {
        if self.items.len() == self.base {
            return None;
        }
        Some(self.items.take_last().item)
    }

    /// Takes the top item out, where it was pushed at this level, and tells whether it was.
    pub(crate) fn pop_if(&mut self, level: u32) -> bool
        ensures value { result ≡ is_own_item level (items_of T.tree self.old).inner }
        ensures after { items_of T.tree self.new ≡ without_top_if result (items_of T.tree self.old) }
    {
        match self.held_at(0) {
            None => false,
            Some(top) => {
                if top.level != level {
                    return false;
                }
                let _ = self.pop();
                true
            }
        }
    }

    /// Keeps the top item, where there is one.
    pub(crate) fn keep(&mut self) -> Result<(), AllocError>
        ensures kept { OnOk result (items_of T.tree self.new ≡ with_top_kept (items_of T.tree self.old)) }
        ensures unchanged { OnErr result (items_of T.tree self.new ≡ items_of T.tree self.old) }
        ensures room { HasRoom (items_of T.tree self.old) → IsOk result }
    {
        match self.held_at(0) {
            None => Ok(()),
            Some(top) => match self.kept.push(top) {
                Ok(()) => {
                    let _ = self.pop();
                    Ok(())
                }
                Err(_) => Err(AllocError),
            },
        }
    }

    /// The last so many kept items wait again, the last one deepest; all of them, where there are fewer.
    pub(crate) fn return_kept(&mut self, count: usize) -> Result<(), AllocError>
        ensures returned { OnOk result (items_of T.tree self.new ≡ with_returned count (items_of T.tree self.old)) }
        ensures unchanged { OnErr result (items_of T.tree self.new ≡ items_of T.tree self.old) }
        ensures room { HasRoom (items_of T.tree self.old) → IsOk result }
    {
        let there = count.min(self.kept.len());
        match self.items.reserve(there) {
            Ok(()) => {
                self.move_back(there);
                Ok(())
            }
            Err(_) => Err(AllocError),
        }
    }

    /// The last so many kept items wait again.
    fn move_back(&mut self, count: usize)
        requires room { vec_len self.old.items + count ≤ vec_capacity self.old.items }
        requires there { count ≤ vec_len self.old.kept }
        ensures { items_of T.tree self.new ≡ with_returned count (items_of T.tree self.old) }
    {
        let mut left = count;
        while left > 0 {
            self.move_one_back();
            left -= 1;
        }
    }

    /// The last kept item waits again.
    fn move_one_back(&mut self)
        requires room { vec_len self.old.items < vec_capacity self.old.items }
        requires there { 0 < vec_len self.old.kept }
        ensures returned { items_of T.tree self.new ≡ with_returned 1 (items_of T.tree self.old) }
        ensures len { vec_len self.new.items ≡ vec_len self.old.items + 1 }
        ensures capacity { vec_capacity self.new.items ≡ vec_capacity self.old.items }
        ensures kept_len { vec_len self.new.kept + 1 ≡ vec_len self.old.kept }
    {
        let top = self.kept.take_last();
        self.items.push_reserved(top);
    }

    /// Sets the items aside that wait.
    pub(crate) fn barrier(&mut self) -> InnerBarrier
        ensures after { items_of T.tree self.new ≡ set_aside (items_of T.tree self.old) }
        ensures before { result ≡ length (items_of T.tree self.old).aside }
    {
        let before = self.base;
        self.base = self.items.len();
        InnerBarrier { before }
    }

    /// Lets those items wait again that were set aside behind so many; those that wait are dropped.
    pub(crate) fn restore(&mut self, saved: InnerBarrier)
        ensures { items_of T.tree self.new ≡ brought_back saved (items_of T.tree self.old) }
    {
        self.items.truncate(self.base);
        self.base = self.base.min(saved.before);
    }
}
