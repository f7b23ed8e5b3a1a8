//! Numbers in decimal, written into room of a fixed size, so without an allocator.
#![tactic(auto)]

ghost use Rattle.std.specs.Prelude.{◌≡◌};
ghost use Rattle.std.specs.Fmt.{decimal, signed_decimal};

mod digits;

use crate::digits::{ROOM, text_from, write_digits};

/// Room for one number. The text of a number borrows it until the next number is written.
#[derive(Clone, Copy)]
pub struct Decimal {
    bytes: [u8; ROOM],
}

impl Decimal {
    /// Room for a number.
    pub fn new() -> Decimal {
        Decimal {
            bytes: [b'0'; ROOM],
        }
    }

    /// A number that has no sign, as `{}` writes it.
    pub fn unsigned(&mut self, n: u128) -> &str
        ensures { result.now ≡ decimal n }
    {
        let start = write_digits(n, &mut self.bytes);
        text_from(&self.bytes, start)
    }

    /// A number that may have a sign, as `{}` writes it.
    pub fn signed(&mut self, n: isize) -> &str
        ensures { result.now ≡ signed_decimal n }
    {
        let start = write_digits(n.unsigned_abs() as u128, &mut self.bytes);
        if n >= 0 {
            return text_from(&self.bytes, start);
        }
        self.bytes[start - 1] = b'-';
        text_from(&self.bytes, start - 1)
    }
}
