//! Identifiers in UTF-8.

ghost use Rattle.std.specs.Prelude.{◌≡◌, ◌+◌, ◌≤◌, length, drop};
ghost use Rattle.demangle_text.specs.Bytes.{span};
ghost use Rattle.demangle_text.specs.Characters.{is_identifier_byte, sequence_len, identifier_len};

/// Whether an ASCII byte is a character of an identifier. Most are small letters, so these are tried first.
fn is_identifier_byte(byte: u8) -> bool
    ensures { result ≡ is_identifier_byte byte }
{
    if matches!(byte, b'a'..=b'z') {
        return true;
    }
    matches!(byte, b'0'..=b'9' | b'A'..=b'Z' | b'$' | b'_' | b'.')
}

/// How many bytes a character past U+007F takes at the front, and 0 where there is none (the Unicode Standard, table
/// 3-7).
#[tactic(auto, unfolding(crate::specs::Characters::sequence_len))]
fn sequence_len(bytes: &[u8]) -> usize
    ensures { result ≡ sequence_len bytes.now }
{
    match bytes {
        [0xC2..=0xDF, 0x80..=0xBF, ..] => 2,
        [0xE0, 0xA0..=0xBF, 0x80..=0xBF, ..] => 3,
        [0xE1..=0xEC, 0x80..=0xBF, 0x80..=0xBF, ..] => 3,
        [0xED, 0x80..=0x9F, 0x80..=0xBF, ..] => 3,
        [0xEE..=0xEF, 0x80..=0xBF, 0x80..=0xBF, ..] => 3,
        [0xF0, 0x90..=0xBF, 0x80..=0xBF, 0x80..=0xBF, ..] => 4,
        [0xF1..=0xF3, 0x80..=0xBF, 0x80..=0xBF, 0x80..=0xBF, ..] => 4,
        [0xF4, 0x80..=0x8F, 0x80..=0xBF, 0x80..=0xBF, ..] => 4,
        _ => 0,
    }
}

/// How many ASCII characters of an identifier stand at the front.
fn ascii_len(bytes: &[u8]) -> usize
    ensures value { result ≡ span is_identifier_byte bytes.now }
    ensures inside { result ≤ length bytes.now }
{
    for (i, byte) in bytes.iter().enumerate() {
        if !is_identifier_byte(*byte) {
            return i;
        }
    }
    bytes.len()
}

/// How many bytes the ASCII characters of an identifier take at the front; where there are none, those of one character
/// past U+007F.
#[tactic(auto, using(crate::proofs::Parts::parts))]
fn part_len(bytes: &[u8]) -> usize
    ensures goes_on { identifier_len bytes.now ≡ result + identifier_len (drop result bytes.now) }
    ensures ends { result ≡ 0 → identifier_len bytes.now ≡ 0 }
    ensures inside { result ≤ length bytes.now }
{
    match ascii_len(bytes) {
        0 => sequence_len(bytes),
        count => count,
    }
}

/// How many bytes the longest run of characters of an identifier takes at the front: ASCII letters, digits, `$`, `_`,
/// `.`, and characters past U+007F in well-formed UTF-8. It is one pass.
pub fn identifier_len(bytes: &[u8]) -> usize
    ensures value { result ≡ identifier_len bytes.now }
    ensures inside { result ≤ length bytes.now }
{
    let mut count = 0;
    while count < bytes.len() {
        let len = part_len(&bytes[count..]);
        if len == 0 {
            break;
        }
        count += len;
    }
    count
}
