//! Bytes that are read with no row.

ghost use Rattle.std.specs.Prelude.{◌≡◌, ◌+◌, ◌≤◌, ◌<◌, ◌^◌, ◌⊎◌, ◌∷◌, [], true, length, pos, IfOk, MatchOption};
ghost use Rattle.demangle_text.specs.Bytes.{span};
ghost use Rattle.demangle_text.specs.Kind.{Gives};
ghost use Rattle.demangle_text.specs.Number.{natural_at, natural_from, number_from};
ghost use Rattle.demangle_text.specs.Found.{took};
ghost use Rattle.demangle_text.specs.Word.{word_at};
ghost use Rattle.demangle_core.specs.Core.{end, number, place};
ghost use Rattle.demangle_grammar.specs.Code.{eat_at, taken_word};
ghost use Rattle.demangle_grammar.specs.Reading.{is_in};
ghost use Rattle.demangle_grammar.specs.Rule.{Eat};
ghost use Rattle.demangle_cells.specs.Reads.{spot_at};
ghost use Rattle.demangle_read_rows.specs.NameClass.{class_of};

use demangle_cells::Text;
use demangle_text::{Error, IndexStr, Result, identifier_len, parse_number, parse_unsigned};

/// The index so many bytes on.
#[inline(always)]
#[tactic(auto, using(crate::proofs::Places::places))]
pub fn behind(text: Text<'_>, at: u32, count: usize) -> u32
    requires { count ≤ length (spot_at text at).left }
    ensures { result ≡ at + count }
{
    at + count as u32
}

/// The same as `word`, for a word of one letter.
#[inline(always)]
#[tactic(auto, using(crate::proofs::Places::places), unfolding(demangle_text::specs::Word::word_at))]
fn letter(text: Text<'_>, at: u32, letter: u8) -> Result<u32>
    ensures { Gives (λ stop. spot_at text.entry stop) result (word_at (letter ∷ []) (spot_at text.entry at)) }
{
    match text.rest(at) {
        [] => Err(Error::UnexpectedEnd),
        [byte, ..] => {
            if *byte == letter {
                Ok(behind(text, at, 1))
            } else {
                Err(Error::UnexpectedText)
            }
        }
    }
}

/// The same for a word of any length.
#[inline(always)]
#[tactic(auto, using(crate::proofs::Places::places, demangle_text::proofs::Starts::words), unfolding(demangle_text::specs::Word::word_at))]
fn letters(text: Text<'_>, at: u32, word: &[u8]) -> Result<u32>
    ensures { Gives (λ stop. spot_at text.entry stop) result (word_at word.now (spot_at text.entry at)) }
{
    let rest = text.rest(at);
    if rest.len() < word.len() {
        return Err(Error::UnexpectedEnd);
    }
    if &rest[..word.len()] == word {
        Ok(behind(text, at, word.len()))
    } else {
        Err(Error::UnexpectedText)
    }
}

/// Where the text goes on behind a word. `UnexpectedEnd` exactly where fewer bytes are left than the word has, else
/// `UnexpectedText` exactly where they are others. Most words are of one letter, and written where they are asked for.
#[inline(always)]
pub fn word(text: Text<'_>, at: u32, word: &[u8]) -> Result<u32>
    ensures { Gives (λ stop. spot_at text.entry stop) result (word_at word.now (spot_at text.entry at)) }
{
    match word {
        [only] => letter(text, at, *only),
        _ => letters(text, at, word),
    }
}

/// Whether the word stands there, and where the text goes on behind it where it does.
#[inline(always)]
#[tactic(auto, unfolding(demangle_grammar::specs::Code::taken_word, demangle_text::specs::Word::word_at))]
pub fn optional_word(text: Text<'_>, at: u32, word: &[u8]) -> (bool, u32)
    ensures flag { result.0 ≡ (taken_word word.now (spot_at text.entry at)).0 }
    ensures rest { spot_at text.entry result.1 ≡ (taken_word word.now (spot_at text.entry at)).1 }
{
    match crate::bytes::word(text, at, word) {
        Ok(rest) => (true, rest),
        Err(_) => (false, at),
    }
}

/// The number of one or two decimal digits that stands at the front, and how many they are. Nothing where there are
/// more of them, or none, or where the bytes end with them.
#[inline(always)]
#[tactic(auto, using(crate::proofs::ShortNumbers::short_numbers))]
fn short_number(bytes: &[u8]) -> Option<(u8, u8)>
    ensures { MatchOption result (Unit {0}) (λ x. (natural_at 10 bytes.now ≡ took x.1 x.0) × (x.1 ≤ length bytes.now)) }
{
    match bytes {
        [first @ b'0'..=b'9', second, ..] if !second.is_ascii_digit() => Some((*first - b'0', 1)),
        [first @ b'1'..=b'9', second @ b'0'..=b'9', third, ..] if !third.is_ascii_digit() => {
            Some(((*first - b'0') * 10 + (*second - b'0'), 2))
        }
        _ => None,
    }
}

/// A number without a sign in base 10, and where the text goes on. Refused as by `unsigned`. Most numbers are short.
#[inline(always)]
#[tactic(auto, using(crate::proofs::Places::places), unfolding(demangle_text::specs::Number::natural_from))]
pub fn decimal(text: Text<'_>, at: u32) -> Result<(usize, u32)>
    ensures number { Gives (λ x. (x.0, spot_at text.entry x.1)) result (natural_from 10 (spot_at text.entry at)) }
    ensures small { IfOk result (λ x. x.0 < 2 ^ 63) }
{
    if let Some((value, count)) = short_number(text.rest(at)) {
        return Ok((value as usize, behind(text, at, count as usize)));
    }
    unsigned(text, at, 10)
}

/// A number without a sign in base 10 or 36, and where the text goes on. `UnexpectedEnd` where nothing is left,
/// `UnexpectedText` where no digit is next or where a `0` stands before another digit, `Overflow` where the value
/// passes 2^63 - 1.
#[tactic(auto, using(crate::proofs::Places::numbers))]
pub fn unsigned(text: Text<'_>, at: u32, base: u32) -> Result<(usize, u32)>
    requires { (base ≡ 10) ⊎ (base ≡ 36) }
    ensures number { Gives (λ x. (x.0, spot_at text.entry x.1)) result (natural_from base (spot_at text.entry at)) }
    ensures small { IfOk result (λ x. x.0 < 2 ^ 63) }
{
    let (value, rest) = parse_unsigned(base, IndexStr::new(text.rest(at)))?;
    Ok((value, behind(text, at, rest.index())))
}

/// A number in base 10, with `n` before it where it is negative, and where the text goes on. Refused as by `unsigned`;
/// nothing left behind `n` is `UnexpectedEnd`.
#[tactic(auto, using(crate::proofs::Places::signs))]
pub fn signed(text: Text<'_>, at: u32) -> Result<(isize, u32)>
    ensures { Gives (λ x. (x.0, spot_at text.entry x.1)) result (number_from 10 true (spot_at text.entry at)) }
{
    let (value, rest) = parse_number(10, true, IndexStr::new(text.rest(at)))?;
    Ok((value, behind(text, at, rest.index())))
}

/// The digit there, and where the text goes on. Nothing left is `UnexpectedEnd`, another byte `UnexpectedText`.
#[tactic(auto, using(crate::proofs::Places::places), unfolding(demangle_grammar::specs::Code::eat_at))]
pub fn digit(text: Text<'_>, at: u32) -> Result<(u8, u32)>
    ensures digit { Gives (λ x. (number (pos x.0) end, spot_at text.entry x.1)) result
        (eat_at Eat.digit (spot_at text.entry at)) }
    ensures small { IfOk result (λ x. x.0 < 10) }
{
    match text.rest(at) {
        [] => Err(Error::UnexpectedEnd),
        [byte, ..] => {
            if b'0' <= *byte && *byte <= b'9' {
                Ok((*byte - b'0', behind(text, at, 1)))
            } else {
                Err(Error::UnexpectedText)
            }
        }
    }
}

/// The names of which every byte is of a class.
#[derive(Clone, Copy)]
pub enum NameClass {
    /// The first word of a clone's suffix: ASCII letters, digits, `$` and `_`.
    CloneType,
    /// A component of a Java resource, up to its escape: every byte but `$`.
    Resource,
}

impl NameClass {
    /// Whether a byte can stand in such a name.
    fn has(self, byte: u8) -> bool
        ensures { result ≡ is_in (class_of self) byte }
    {
        match self {
            NameClass::CloneType => {
                matches!(byte, b'0'..=b'9' | b'A'..=b'Z' | b'a'..=b'z' | b'$' | b'_')
            }
            NameClass::Resource => byte != b'$',
        }
    }

    /// How many bytes of such a name stand at the front.
    fn length_at(self, bytes: &[u8]) -> usize
        ensures value { result ≡ span (is_in (class_of self)) bytes.now }
        ensures inside { result ≤ length bytes.now }
    {
        for (i, byte) in bytes.iter().enumerate() {
            if !self.has(*byte) {
                return i;
            }
        }
        bytes.len()
    }

    /// Where the name ends that stands there.
    #[tactic(auto, using(crate::proofs::Places::places), unfolding(demangle_grammar::specs::Code::eat_at))]
    pub fn name_end(self, text: Text<'_>, at: u32) -> Result<u32>
        ensures { Gives (λ stop. (place at stop end, spot_at text.entry stop)) result
            (eat_at (Eat.run (class_of self)) (spot_at text.entry at)) }
    {
        match text.rest(at) {
            [] => Err(Error::UnexpectedEnd),
            bytes => match self.length_at(bytes) {
                0 => Err(Error::UnexpectedText),
                count => Ok(behind(text, at, count)),
            },
        }
    }
}

/// Where the identifier ends that stands there.
#[tactic(auto, using(crate::proofs::Places::places), unfolding(demangle_grammar::specs::Code::eat_at))]
pub fn identifier_end(text: Text<'_>, at: u32) -> Result<u32>
    ensures { Gives (λ stop. (place at stop end, spot_at text.entry stop)) result
        (eat_at Eat.identifier (spot_at text.entry at)) }
{
    match text.rest(at) {
        [] => Err(Error::UnexpectedEnd),
        bytes => match identifier_len(bytes) {
            0 => Err(Error::UnexpectedText),
            count => Ok(behind(text, at, count)),
        },
    }
}
