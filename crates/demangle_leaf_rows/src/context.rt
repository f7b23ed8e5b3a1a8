//! The context of reading: the limit on levels, the level, the conversion flag, and the deepest level.

ghost use Rattle.std.specs.Prelude.{◌≡◌, ◌+◌, ◌<◌, ◌≤◌, ℕ, suc, max, Bool, false, MatchResult, ◌↔◌, IsTrue, true};
ghost use Rattle.demangle_leaf_rows.specs.Context.{Context, levels_left, raised};
ghost use Rattle.demangle_text.specs.declared.error.Error.TheVariants.{TooMuchRecursion};

use crate::depth::Depth;
use demangle_text::{Error, ParseOptions, Result};
use std::marker::Model;

/// How deep a reading is, how deep it may go, and how deep it went. In a contract it is its limit, its level, its
/// flag and the deepest level; both levels are always below the limit.
#[derive(Clone, Debug, Drop)]
pub struct ParseContext {
    limit: u32,
    level: u32,
    conversion: bool,
    deepest: u32,
}

impl Model for ParseContext {
    ghost use Rattle.demangle_leaf_rows.specs.Context.{Context};
    ghost use Rattle.std.specs.Prelude.{◌<◌};

    ghost Value = { Context };

    ghost view = { λ c. record { limit = c.limit; level = c.level; conversion = c.conversion; deepest = c.deepest } };

    ghost invariant = { λ c. (c.level < c.limit) × (c.deepest < c.limit) };

    ghost inverse = { λ m. record { limit = m.limit; level = m.level; conversion = m.conversion; deepest = m.deepest } };
}

impl ParseContext {
    /// Level 0 under the limit of the options, the conversion flag off, and no deeper level.
    pub fn new(options: ParseOptions) -> ParseContext
        ensures { result ≡ record { limit = options; level = 0; conversion = false; deepest = 0 } }
    {
        ParseContext {
            limit: options.limit(),
            level: 0,
            conversion: false,
            deepest: 0,
        }
    }

    /// The limit on levels, with which the context was made.
    pub fn limit(&self) -> u32
        ensures { result ≡ self.now.limit }
    {
        self.limit
    }

    /// The level that was entered last, 0 at first.
    pub fn recursion_level(&self) -> u32
        ensures { result ≡ self.now.level }
    {
        self.level
    }

    /// Enters a level, and raises the deepest one to it where it is deeper. `TooMuchRecursion`, and the context as
    /// before, exactly where the level plus 1 is the limit.
    pub fn enter(&mut self) -> Result<()>
        ensures { let c = self.old in MatchResult result
            (λ x. (c.level + 1 < c.limit)
            × (self.new ≡ record {
              limit = c.limit;
              level = c.level + 1;
              conversion = c.conversion;
              deepest = max c.deepest (c.level + 1);
            }))
            (λ e. (e ≡ TooMuchRecursion) × (c.level + 1 ≡ c.limit) × (self.new ≡ c)) }
    {
        let next = self.level + 1;
        if next == self.limit {
            return Err(Error::TooMuchRecursion);
        }
        self.level = next;
        self.raise_deepest(next);
        Ok(())
    }

    /// Leaves the level that was entered last.
    pub fn leave(&mut self)
        requires { 0 < self.old.level }
        ensures level { self.new.level + 1 ≡ self.old.level }
        ensures limit { self.new.limit ≡ self.old.limit }
        ensures conversion { self.new.conversion ≡ self.old.conversion }
        ensures deepest { self.new.deepest ≡ self.old.deepest }
    {
        self.level -= 1;
    }

    /// The deepest level that was entered since the context was made, or since `reset_deepest`.
    pub fn deepest(&self) -> u32
        ensures { result ≡ self.now.deepest }
    {
        self.deepest
    }

    /// How many levels below the one that was entered last the deepest one is.
    pub fn levels_known(&self) -> u32
        ensures levels { self.now.level + result ≡ max self.now.level self.now.deepest }
        ensures left { result ≤ levels_left self.now }
    {
        self.deepest.saturating_sub(self.level)
    }

    /// Makes the level that was entered last the deepest one, and answers what the deepest one was.
    pub fn reset_deepest(&mut self) -> u32
        ensures old { result ≡ self.old.deepest }
        ensures new { let c = self.old in
            self.new ≡ record { limit = c.limit; level = c.level; conversion = c.conversion; deepest = c.level } }
    {
        let old = self.deepest;
        self.deepest = self.level;
        old
    }

    /// Raises the deepest level to a level, where that is deeper.
    pub fn raise_deepest(&mut self, to: u32)
        requires { to < self.old.limit }
        ensures { self.new ≡ raised to self.old }
    {
        if to > self.deepest {
            self.deepest = to;
        }
    }

    /// Raises the deepest level to so many levels below the one that was entered last, where that is deeper.
    pub fn raise_by(&mut self, levels: u32)
        requires { levels ≤ levels_left self.old }
        ensures { self.new ≡ raised (self.old.level + levels) self.old }
    {
        self.raise_deepest(self.level + levels);
    }

    /// Whether a conversion operator's type is being read.
    pub fn in_conversion(&self) -> bool
        ensures { result ≡ self.now.conversion }
    {
        self.conversion
    }

    /// Sets the conversion flag, and answers what it was.
    pub fn set_in_conversion(&mut self, on: bool) -> bool
        ensures old { result ≡ self.old.conversion }
        ensures new { let c = self.old in
            self.new ≡ record { limit = c.limit; level = c.level; conversion = on; deepest = c.deepest } }
    {
        let old = self.conversion;
        self.conversion = on;
        old
    }

    /// The levels that are left, and the flag, by value.
    pub fn depth(&self) -> Depth
        ensures levels { result.levels ≡ levels_left self.now }
        ensures conversion { result.conversion ≡ self.now.conversion }
    {
        Depth {
            levels: self.limit - self.level - 1,
            conversion: self.conversion,
        }
    }
}
