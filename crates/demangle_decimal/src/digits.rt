//! The digits of a number, from the last to the first.

ghost use Rattle.std.specs.Prelude.{◌≡◌, ◌+◌, ◌≤◌, drop, length};
ghost use Rattle.std.specs.Fmt.{decimal};
ghost use Rattle.std.specs.Str.{IsAscii};

/// Room for the longest number of 128 bits, which has 39 digits, and a sign.
pub const ROOM: usize = 40;

/// Writes the digits of a number at the end of the room, and answers where they start.
pub fn write_digits(n: u128, bytes: &mut [u8; ROOM]) -> usize
    ensures start { result + length (decimal n) ≡ 40 }
    ensures digits { drop result bytes.new ≡ decimal n }
{
    let mut left = n;
    let mut at = ROOM;
    while left >= 10 {
        at -= 1;
        bytes[at] = b'0' + (left % 10) as u8;
        left /= 10;
    }
    at -= 1;
    bytes[at] = b'0' + left as u8;
    at
}

/// What stands in the room from an index on, as a text.
pub fn text_from(bytes: &[u8; ROOM], start: usize) -> &str
    requires room { start ≤ 40 }
    requires ascii { IsAscii (drop start bytes.now) }
    ensures { result.now ≡ drop start bytes.now }
{
    match std::str::from_utf8(&bytes[start..]) {
        Ok(text) => text,
        Err(_) => "",
    }
}
