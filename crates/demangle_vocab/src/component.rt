//! The abbreviated components (ABI section 5.1.10, <substitution>).

ghost use Rattle.std.specs.Prelude.{◌≡◌, ◌≤◌, ◌+◌, ℕ, List, ◌∷◌, OnOk, IfOk, length, Some, None, ◌≢◌};
ghost use Rattle.demangle_text.specs.Kind.{Gives};
ghost use Rattle.demangle_text.specs.Spot.{spot};
ghost use Rattle.demangle_vocab.specs.WordTable.{table_from, text_at, word_read, starts_some, more_at};
ghost use Rattle.demangle_vocab.specs.Components.{components, component_words, number_of_component};

use demangle_text::{Error, IndexStr, Result};

/// A component of the standard library that has a word of its own.
#[derive(Clone, Copy, Debug, PartialEq, Eq)]
pub enum WellKnownComponent {
    /// `St`
    Std,
    /// `Sa`
    StdAllocator,
    /// `Sb`
    StdString1,
    /// `Ss`
    StdString2,
    /// `Si`
    StdIstream,
    /// `So`
    StdOstream,
    /// `Sd`
    StdIostream,
}

impl WellKnownComponent {
    /// The component at the front and the rest. Where no word of the table is there, `UnexpectedEnd` exactly where all
    /// bytes that are left are a proper prefix of a word, as no bytes are, and else `UnexpectedText`.
    #[tactic(auto, unfolding(crate::specs::WordTable::table_from, crate::specs::WordTable::word_read))]
    pub fn read_word<'a>(input: IndexStr<'a>) -> Result<(WellKnownComponent, IndexStr<'a>)>
        ensures { Gives (λ x. (number_of_component x.0, spot x.1)) result (table_from component_words
            (spot input.entry)) }
    {
        let bytes = input.as_slice();
        let word = match bytes {
            [b'S', b't', ..] => WellKnownComponent::Std,
            [b'S', b'a', ..] => WellKnownComponent::StdAllocator,
            [b'S', b'b', ..] => WellKnownComponent::StdString1,
            [b'S', b's', ..] => WellKnownComponent::StdString2,
            [b'S', b'i', ..] => WellKnownComponent::StdIstream,
            [b'S', b'o', ..] => WellKnownComponent::StdOstream,
            [b'S', b'd', ..] => WellKnownComponent::StdIostream,
            [] | [b'S'] => return Err(Error::UnexpectedEnd),
            _ => return Err(Error::UnexpectedText),
        };
        Ok((word, input.range_from(2..)))
    }

    /// The text that is printed for it.
    pub fn text(&self) -> &'static str
        ensures { result.now ≡ text_at components (number_of_component self.now) }
    {
        match self {
            WellKnownComponent::Std => "std",
            WellKnownComponent::StdAllocator => "std::allocator",
            WellKnownComponent::StdString1 => "std::basic_string",
            WellKnownComponent::StdString2 => "std::string",
            WellKnownComponent::StdIstream => "std::basic_istream<char, std::char_traits<char> >",
            WellKnownComponent::StdOstream => "std::ostream",
            WellKnownComponent::StdIostream => "std::basic_iostream<char, std::char_traits<char> >",
        }
    }

    /// The name that a constructor or destructor of the component has.
    pub fn leaf_text(&self) -> &'static str
        requires { self.now ≢ WellKnownComponent.Std }
        ensures { Some result.now ≡ more_at None components (number_of_component self.now) }
    {
        match self {
            WellKnownComponent::Std => unreachable!(),
            WellKnownComponent::StdAllocator => "allocator",
            WellKnownComponent::StdString1 => "basic_string",
            WellKnownComponent::StdString2 => "string",
            WellKnownComponent::StdIstream => "basic_istream",
            WellKnownComponent::StdOstream => "ostream",
            WellKnownComponent::StdIostream => "basic_iostream",
        }
    }

    /// Whether a word of the table begins with the byte.
    pub fn starts_with(byte: u8) -> bool
        ensures { result ≡ starts_some component_words byte }
    {
        match byte {
            b'S' => true,
            _ => false,
        }
    }

    /// The number of its entry in the table, from 0.
    pub fn number(&self) -> u8
        ensures { result ≡ number_of_component self.now }
    {
        *self as u8
    }
}
