//! The text that is read, and places in it.

ghost use Rattle.std.specs.Prelude.{◌≡◌, ◌<◌, ◌≤◌, ◌^◌, length, MatchOption};

use demangle_text::{Error, IndexStr, Result};

/// The name that is read: its indexes fit 32 bits.
#[derive(Clone, Copy)]
pub struct Text<'a> {
    pub bytes: &'a [u8],
    pub ghost short: { length bytes.now < 2 ^ 32 },
}

/// What was read: the index of its tree, and where the text goes on.
#[derive(Clone, Copy)]
pub struct Part {
    pub id: u32,
    pub end: u32,
}

impl<'a> Text<'a> {
    ghost use Rattle.demangle_text.specs.Spot.{first_byte};
    ghost use Rattle.demangle_cells.specs.Reads.{spot_at};

    /// The text of these bytes; none exactly where they are 2^32 or more.
    pub fn new(bytes: &'a [u8]) -> Option<Text<'a>>
        ensures { MatchOption result (2 ^ 32 ≤ length bytes.now) (λ text. text.bytes.now ≡ bytes.now) }
    {
        if bytes.len() < 1 << 32 {
            Some(Text { bytes })
        } else {
            None
        }
    }

    /// The bytes from a place on, none behind the end.
    pub fn rest(self, at: u32) -> &'a [u8]
        ensures { result.now ≡ (spot_at self.entry at).left }
    {
        match self.bytes.get(at as usize..) {
            Some(rest) => rest,
            None => &[],
        }
    }

    /// The byte at a place.
    pub fn peek(self, at: u32) -> Option<u8>
        ensures { result ≡ first_byte (spot_at self.entry at).left }
    {
        self.bytes.get(at as usize).copied()
    }
}
