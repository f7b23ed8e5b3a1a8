//! The ref-qualifiers (ABI section 5.1.5.3, <ref-qualifier>) and the mark of an explicit object parameter (ABI section
//! 5.1.2, <nested-name>).

ghost use Rattle.std.specs.Prelude.{◌≡◌, ◌≤◌, ◌+◌, ℕ, List, ◌∷◌, OnOk, IfOk, length};
ghost use Rattle.demangle_text.specs.Kind.{Gives};
ghost use Rattle.demangle_text.specs.Spot.{spot};
ghost use Rattle.demangle_vocab.specs.WordTable.{table_from, text_at, word_read, starts_some};
ghost use Rattle.demangle_vocab.specs.Qualifiers.{ref_qualifiers, ref_qualifier_words, number_of_ref_qualifier};
ghost use Rattle.demangle_vocab.specs.Qualifiers.{explicit_objects, explicit_object_words, number_of_explicit_object};

use demangle_text::{Error, IndexStr, Result};

/// The ref-qualifier of a member function.
#[derive(Clone, Copy, Debug, PartialEq, Eq)]
pub enum RefQualifier {
    /// `R`
    LValueRef,
    /// `O`
    RValueRef,
}

impl RefQualifier {
    /// The ref-qualifier at the front and the rest. Where no word of the table is there, `UnexpectedEnd` exactly where
    /// all bytes that are left are a proper prefix of a word, as no bytes are, and else `UnexpectedText`.
    #[tactic(auto, unfolding(crate::specs::WordTable::table_from, crate::specs::WordTable::word_read))]
    pub fn read_word<'a>(input: IndexStr<'a>) -> Result<(RefQualifier, IndexStr<'a>)>
        ensures { Gives (λ x. (number_of_ref_qualifier x.0, spot x.1)) result (table_from ref_qualifier_words
            (spot input.entry)) }
    {
        match input.next_or(Error::UnexpectedEnd)? {
            (b'R', rest) => Ok((RefQualifier::LValueRef, rest)),
            (b'O', rest) => Ok((RefQualifier::RValueRef, rest)),
            _ => Err(Error::UnexpectedText),
        }
    }

    /// The text that is printed for it.
    pub fn text(&self) -> &'static str
        ensures { result.now ≡ text_at ref_qualifiers (number_of_ref_qualifier self.now) }
    {
        match self {
            RefQualifier::LValueRef => "&",
            RefQualifier::RValueRef => "&&",
        }
    }

    /// Whether a word of the table begins with the byte.
    pub fn starts_with(byte: u8) -> bool
        ensures { result ≡ starts_some ref_qualifier_words byte }
    {
        match byte {
            b'R' | b'O' => true,
            _ => false,
        }
    }

    /// The number of its entry in the table, from 0.
    pub fn number(&self) -> u8
        ensures { result ≡ number_of_ref_qualifier self.now }
    {
        *self as u8
    }
}

/// The mark of a member function whose first parameter is the object.
#[derive(Clone, Copy, Debug, PartialEq, Eq)]
pub enum ExplicitObjectParameter {
    /// `H`
    ExplicitObjectParameter,
}

impl ExplicitObjectParameter {
    /// The mark at the front and the rest. Where no word of the table is there, `UnexpectedEnd` exactly where all bytes
    /// that are left are a proper prefix of a word, as no bytes are, and else `UnexpectedText`.
    #[tactic(auto, unfolding(crate::specs::WordTable::table_from, crate::specs::WordTable::word_read))]
    pub fn read_word<'a>(input: IndexStr<'a>) -> Result<(ExplicitObjectParameter, IndexStr<'a>)>
        ensures { Gives (λ x. (number_of_explicit_object x.0, spot x.1)) result (table_from explicit_object_words
            (spot input.entry)) }
    {
        match input.next_or(Error::UnexpectedEnd)? {
            (b'H', rest) => Ok((ExplicitObjectParameter::ExplicitObjectParameter, rest)),
            _ => Err(Error::UnexpectedText),
        }
    }

    /// The text that is printed for it.
    pub fn text(&self) -> &'static str
        ensures { result.now ≡ text_at explicit_objects (number_of_explicit_object self.now) }
    {
        match self {
            ExplicitObjectParameter::ExplicitObjectParameter => "this",
        }
    }

    /// Whether a word of the table begins with the byte.
    pub fn starts_with(byte: u8) -> bool
        ensures { result ≡ starts_some explicit_object_words byte }
    {
        match byte {
            b'H' => true,
            _ => false,
        }
    }

    /// The number of its entry in the table, from 0.
    pub fn number(&self) -> u8
        ensures { result ≡ number_of_explicit_object self.now }
    {
        *self as u8
    }
}
