//! Bytes that are read with no row.

ghost use Rattle.std.specs.Prelude.{◌≡◌, ◌≤◌, ◌<◌, length, pos, IfOk};
ghost use Rattle.demangle_text.specs.Kind.{Gives};
ghost use Rattle.demangle_text.specs.Found.{and_rest};
ghost use Rattle.demangle_text.specs.Spot.{spot};
ghost use Rattle.demangle_text.specs.Bytes.{span};
ghost use Rattle.demangle_core.specs.Core.{end, number};
ghost use Rattle.demangle_grammar.specs.Rule.{Eat};
ghost use Rattle.demangle_grammar.specs.Reading.{is_in, run_found};
ghost use Rattle.demangle_grammar.specs.Code.{eat_at, taken_word};
ghost use Rattle.demangle_leaf_rows.specs.NameClass.{class_of, name_place};

use demangle_text::{Error, IndexStr, Result, consume, identifier_len};

/// The names of which every byte is of a class.
#[derive(Clone, Copy)]
pub enum NameClass {
    /// The first word of a clone's suffix: ASCII letters, digits, `$` and `_`.
    CloneType,
    /// A component of a Java resource, up to its escape: every byte but `$`.
    Resource,
}

impl NameClass {
    /// Whether a byte can stand in such a name.
    fn has(self, byte: u8) -> bool
        ensures { result ≡ is_in (class_of self) byte }
    {
        match self {
            NameClass::CloneType => {
                matches!(byte, b'0'..=b'9' | b'A'..=b'Z' | b'a'..=b'z' | b'$' | b'_')
            }
            NameClass::Resource => byte != b'$',
        }
    }

    /// How many bytes of such a name stand at the front.
    fn length_at(self, bytes: &[u8]) -> usize
        ensures value { result ≡ span (is_in (class_of self)) bytes.now }
        ensures inside { result ≤ length bytes.now }
    {
        for (i, byte) in bytes.iter().enumerate() {
            if !self.has(*byte) {
                return i;
            }
        }
        bytes.len()
    }

    /// The index of the first byte of the name at the front, and the rest behind the name.
    #[tactic(auto, unfolding(demangle_grammar::specs::Code::eat_at))]
    pub fn name_at<'b>(self, input: IndexStr<'b>) -> Result<(usize, IndexStr<'b>)>
        ensures { Gives name_place result (eat_at (Eat.run (class_of self)) (spot input.entry)) }
    {
        match input.as_slice() {
            [] => Err(Error::UnexpectedEnd),
            bytes => named(self.length_at(bytes), input),
        }
    }
}

/// The index of the first byte of the identifier at the front, and the rest behind the identifier.
#[tactic(auto, unfolding(demangle_grammar::specs::Code::eat_at))]
pub fn identifier_at<'b>(input: IndexStr<'b>) -> Result<(usize, IndexStr<'b>)>
    ensures { Gives name_place result (eat_at Eat.identifier (spot input.entry)) }
{
    match input.as_slice() {
        [] => Err(Error::UnexpectedEnd),
        bytes => named(identifier_len(bytes), input),
    }
}

/// The index of the first byte of a name of so many bytes, one at least, and the rest behind the name.
fn named<'b>(count: usize, input: IndexStr<'b>) -> Result<(usize, IndexStr<'b>)>
    requires { count ≤ length (spot input).left }
    ensures { let p = spot input.entry in Gives name_place result (and_rest (run_found p.index count) p) }
{
    if count == 0 {
        return Err(Error::UnexpectedText);
    }
    Ok((input.index(), input.range_from(count..)))
}

/// The digit at the front.
#[tactic(auto, unfolding(demangle_grammar::specs::Code::eat_at))]
pub fn digit_at<'b>(input: IndexStr<'b>) -> Result<(u8, IndexStr<'b>)>
    ensures digit { Gives (λ x. (number (pos x.0) end, spot x.1)) result (eat_at Eat.digit (spot input.entry)) }
    ensures small { IfOk result (λ x. x.0 < 10) }
{
    match input.as_slice() {
        [] => Err(Error::UnexpectedEnd),
        [byte, ..] => {
            if b'0' <= *byte && *byte <= b'9' {
                Ok((*byte - b'0', input.range_from(1..)))
            } else {
                Err(Error::UnexpectedText)
            }
        }
    }
}

/// Whether the word stands at the front, and the rest behind it where it does.
#[tactic(auto, unfolding(demangle_grammar::specs::Code::taken_word, demangle_text::specs::Word::word_at))]
pub fn optional_word<'b>(word: &[u8], input: IndexStr<'b>) -> (bool, IndexStr<'b>)
    ensures flag { result.0 ≡ (taken_word word.now (spot input.entry)).0 }
    ensures rest { spot result.1 ≡ (taken_word word.now (spot input.entry)).1 }
{
    match consume(word, input) {
        Ok(rest) => (true, rest),
        Err(_) => (false, input),
    }
}
