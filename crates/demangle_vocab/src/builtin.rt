//! The builtin types that are one word (ABI section 5.1.5.2, <builtin-type>).

ghost use Rattle.std.specs.Prelude.{◌≡◌, ◌≤◌, ◌+◌, ℕ, List, ◌∷◌, OnOk, IfOk, length};
ghost use Rattle.demangle_text.specs.Kind.{Gives};
ghost use Rattle.demangle_text.specs.Spot.{spot};
ghost use Rattle.demangle_vocab.specs.WordTable.{table_from, text_at, word_read, starts_some};
ghost use Rattle.demangle_vocab.specs.Builtins.{builtins, builtin_words, number_of_builtin};

use demangle_text::{Error, IndexStr, Result};

/// A builtin type whose name is one word.
#[derive(Clone, Copy, Debug, PartialEq, Eq)]
pub enum StandardBuiltinType {
    /// `v`
    Void,
    /// `w`
    Wchar,
    /// `b`
    Bool,
    /// `c`
    Char,
    /// `a`
    SignedChar,
    /// `h`
    UnsignedChar,
    /// `s`
    Short,
    /// `t`
    UnsignedShort,
    /// `i`
    Int,
    /// `j`
    UnsignedInt,
    /// `l`
    Long,
    /// `m`
    UnsignedLong,
    /// `x`
    LongLong,
    /// `y`
    UnsignedLongLong,
    /// `n`
    Int128,
    /// `o`
    Uint128,
    /// `f`
    Float,
    /// `d`
    Double,
    /// `e`
    LongDouble,
    /// `g`
    Float128,
    /// `z`
    Ellipsis,
    /// `Dd`
    DecimalFloat64,
    /// `De`
    DecimalFloat128,
    /// `Df`
    DecimalFloat32,
    /// `Dh`
    DecimalFloat16,
    /// `DF16b`
    BFloat16,
    /// `Di`
    Char32,
    /// `Ds`
    Char16,
    /// `Du`
    Char8,
    /// `Da`
    Auto,
    /// `Dc`
    Decltype,
    /// `Dn`
    Nullptr,
    /// `DAs`
    AccumShort,
    /// `DAt`
    AccumUShort,
    /// `DAi`
    Accum,
    /// `DAj`
    AccumUnsigned,
    /// `DAl`
    AccumLong,
    /// `DAm`
    AccumULong,
    /// `DRs`
    FractShort,
    /// `DRt`
    FractUShort,
    /// `DRi`
    Fract,
    /// `DRj`
    FractUnsigned,
    /// `DRl`
    FractLong,
    /// `DRm`
    FractULong,
    /// `DSDAs`
    SatAccumShort,
    /// `DSDAt`
    SatAccumUShort,
    /// `DSDAi`
    SatAccum,
    /// `DSDAj`
    SatAccumUnsigned,
    /// `DSDAl`
    SatAccumLong,
    /// `DSDAm`
    SatAccumULong,
    /// `DSDRs`
    SatFractShort,
    /// `DSDRt`
    SatFractUShort,
    /// `DSDRi`
    SatFract,
    /// `DSDRj`
    SatFractUnsigned,
    /// `DSDRl`
    SatFractLong,
    /// `DSDRm`
    SatFractULong,
}

impl StandardBuiltinType {
    /// The builtin type at the front and the rest. Where no word of the table is there, `UnexpectedEnd` exactly where
    /// all bytes that are left are a proper prefix of a word, as no bytes are, and else `UnexpectedText`.
    #[tactic(auto, unfolding(crate::specs::WordTable::table_from))]
    pub fn read_word<'a>(input: IndexStr<'a>) -> Result<(StandardBuiltinType, IndexStr<'a>)>
        ensures { Gives (λ x. (number_of_builtin x.0, spot x.1)) result (table_from builtin_words (spot input.entry)) }
    {
        let (word, length) = StandardBuiltinType::at_front(input.as_slice())?;
        Ok((word, input.range_from(length..)))
    }

    /// The builtin type at the front, and how many bytes its word has.
    #[tactic(auto, unfolding(crate::specs::WordTable::word_read))]
    fn at_front(bytes: &[u8]) -> Result<(StandardBuiltinType, usize)>
        ensures word { Gives (λ x. (number_of_builtin x.0, x.1)) result (word_read builtin_words bytes.now) }
        ensures fits { IfOk result (λ x. x.1 ≤ length bytes.now) }
    {
        let [first, rest @ ..] = bytes else {
            return Err(Error::UnexpectedEnd);
        };
        let word = match first {
            b'v' => StandardBuiltinType::Void,
            b'w' => StandardBuiltinType::Wchar,
            b'b' => StandardBuiltinType::Bool,
            b'c' => StandardBuiltinType::Char,
            b'a' => StandardBuiltinType::SignedChar,
            b'h' => StandardBuiltinType::UnsignedChar,
            b's' => StandardBuiltinType::Short,
            b't' => StandardBuiltinType::UnsignedShort,
            b'i' => StandardBuiltinType::Int,
            b'j' => StandardBuiltinType::UnsignedInt,
            b'l' => StandardBuiltinType::Long,
            b'm' => StandardBuiltinType::UnsignedLong,
            b'x' => StandardBuiltinType::LongLong,
            b'y' => StandardBuiltinType::UnsignedLongLong,
            b'n' => StandardBuiltinType::Int128,
            b'o' => StandardBuiltinType::Uint128,
            b'f' => StandardBuiltinType::Float,
            b'd' => StandardBuiltinType::Double,
            b'e' => StandardBuiltinType::LongDouble,
            b'g' => StandardBuiltinType::Float128,
            b'z' => StandardBuiltinType::Ellipsis,
            b'D' => return StandardBuiltinType::behind_d(rest),
            _ => return Err(Error::UnexpectedText),
        };
        Ok((word, 1))
    }

    /// The builtin type whose word is `D` and what is at the front.
    #[tactic(auto, unfolding(crate::specs::WordTable::word_read))]
    fn behind_d(bytes: &[u8]) -> Result<(StandardBuiltinType, usize)>
        ensures word { Gives (λ x. (number_of_builtin x.0, x.1)) result (word_read builtin_words (68 ∷ bytes.now)) }
        ensures fits { IfOk result (λ x. x.1 ≤ length bytes.now + 1) }
    {
        let [second, rest @ ..] = bytes else {
            return Err(Error::UnexpectedEnd);
        };
        let word = match second {
            b'd' => StandardBuiltinType::DecimalFloat64,
            b'e' => StandardBuiltinType::DecimalFloat128,
            b'f' => StandardBuiltinType::DecimalFloat32,
            b'h' => StandardBuiltinType::DecimalFloat16,
            b'i' => StandardBuiltinType::Char32,
            b's' => StandardBuiltinType::Char16,
            b'u' => StandardBuiltinType::Char8,
            b'a' => StandardBuiltinType::Auto,
            b'c' => StandardBuiltinType::Decltype,
            b'n' => StandardBuiltinType::Nullptr,
            b'F' => return StandardBuiltinType::behind_df(rest),
            b'A' => return StandardBuiltinType::behind_da(rest),
            b'R' => return StandardBuiltinType::behind_dr(rest),
            b'S' => return StandardBuiltinType::behind_ds(rest),
            _ => return Err(Error::UnexpectedText),
        };
        Ok((word, 2))
    }

    /// `std::bfloat16_t`, where `16b` is at the front.
    #[tactic(auto, unfolding(crate::specs::WordTable::word_read))]
    fn behind_df(bytes: &[u8]) -> Result<(StandardBuiltinType, usize)>
        ensures word { Gives (λ x. (number_of_builtin x.0, x.1)) result (word_read builtin_words
            (68 ∷ 70 ∷ bytes.now)) }
        ensures fits { IfOk result (λ x. x.1 ≤ length bytes.now + 2) }
    {
        match bytes {
            [] | [b'1'] | [b'1', b'6'] => Err(Error::UnexpectedEnd),
            [b'1', b'6', b'b', ..] => Ok((StandardBuiltinType::BFloat16, 5)),
            _ => Err(Error::UnexpectedText),
        }
    }

    /// An `_Accum` type, by the ending of its word at the front.
    #[tactic(auto, unfolding(crate::specs::WordTable::word_read))]
    fn behind_da(bytes: &[u8]) -> Result<(StandardBuiltinType, usize)>
        ensures word { Gives (λ x. (number_of_builtin x.0, x.1)) result (word_read builtin_words
            (68 ∷ 65 ∷ bytes.now)) }
        ensures fits { IfOk result (λ x. x.1 ≤ length bytes.now + 2) }
    {
        let [ending, ..] = bytes else {
            return Err(Error::UnexpectedEnd);
        };
        let word = match ending {
            b's' => StandardBuiltinType::AccumShort,
            b't' => StandardBuiltinType::AccumUShort,
            b'i' => StandardBuiltinType::Accum,
            b'j' => StandardBuiltinType::AccumUnsigned,
            b'l' => StandardBuiltinType::AccumLong,
            b'm' => StandardBuiltinType::AccumULong,
            _ => return Err(Error::UnexpectedText),
        };
        Ok((word, 3))
    }

    /// A `_Fract` type, by the ending of its word at the front.
    #[tactic(auto, unfolding(crate::specs::WordTable::word_read))]
    fn behind_dr(bytes: &[u8]) -> Result<(StandardBuiltinType, usize)>
        ensures word { Gives (λ x. (number_of_builtin x.0, x.1)) result (word_read builtin_words
            (68 ∷ 82 ∷ bytes.now)) }
        ensures fits { IfOk result (λ x. x.1 ≤ length bytes.now + 2) }
    {
        let [ending, ..] = bytes else {
            return Err(Error::UnexpectedEnd);
        };
        let word = match ending {
            b's' => StandardBuiltinType::FractShort,
            b't' => StandardBuiltinType::FractUShort,
            b'i' => StandardBuiltinType::Fract,
            b'j' => StandardBuiltinType::FractUnsigned,
            b'l' => StandardBuiltinType::FractLong,
            b'm' => StandardBuiltinType::FractULong,
            _ => return Err(Error::UnexpectedText),
        };
        Ok((word, 3))
    }

    /// A saturated `_Accum` type, by the ending of its word at the front.
    #[tactic(auto, unfolding(crate::specs::WordTable::word_read))]
    fn behind_dsda(bytes: &[u8]) -> Result<(StandardBuiltinType, usize)>
        ensures word { Gives (λ x. (number_of_builtin x.0, x.1)) result (word_read builtin_words
            (68 ∷ 83 ∷ 68 ∷ 65 ∷ bytes.now)) }
        ensures fits { IfOk result (λ x. x.1 ≤ length bytes.now + 4) }
    {
        let [ending, ..] = bytes else {
            return Err(Error::UnexpectedEnd);
        };
        let word = match ending {
            b's' => StandardBuiltinType::SatAccumShort,
            b't' => StandardBuiltinType::SatAccumUShort,
            b'i' => StandardBuiltinType::SatAccum,
            b'j' => StandardBuiltinType::SatAccumUnsigned,
            b'l' => StandardBuiltinType::SatAccumLong,
            b'm' => StandardBuiltinType::SatAccumULong,
            _ => return Err(Error::UnexpectedText),
        };
        Ok((word, 5))
    }

    /// A saturated `_Fract` type, by the ending of its word at the front.
    #[tactic(auto, unfolding(crate::specs::WordTable::word_read))]
    fn behind_dsdr(bytes: &[u8]) -> Result<(StandardBuiltinType, usize)>
        ensures word { Gives (λ x. (number_of_builtin x.0, x.1)) result (word_read builtin_words
            (68 ∷ 83 ∷ 68 ∷ 82 ∷ bytes.now)) }
        ensures fits { IfOk result (λ x. x.1 ≤ length bytes.now + 4) }
    {
        let [ending, ..] = bytes else {
            return Err(Error::UnexpectedEnd);
        };
        let word = match ending {
            b's' => StandardBuiltinType::SatFractShort,
            b't' => StandardBuiltinType::SatFractUShort,
            b'i' => StandardBuiltinType::SatFract,
            b'j' => StandardBuiltinType::SatFractUnsigned,
            b'l' => StandardBuiltinType::SatFractLong,
            b'm' => StandardBuiltinType::SatFractULong,
            _ => return Err(Error::UnexpectedText),
        };
        Ok((word, 5))
    }

    /// A saturated fixed-point type, where `DA` or `DR` and an ending are at the front.
    #[tactic(auto, unfolding(crate::specs::WordTable::word_read))]
    fn behind_ds(bytes: &[u8]) -> Result<(StandardBuiltinType, usize)>
        ensures word { Gives (λ x. (number_of_builtin x.0, x.1)) result (word_read builtin_words
            (68 ∷ 83 ∷ bytes.now)) }
        ensures fits { IfOk result (λ x. x.1 ≤ length bytes.now + 2) }
    {
        match bytes {
            [] | [b'D'] => Err(Error::UnexpectedEnd),
            [b'D', b'A', rest @ ..] => StandardBuiltinType::behind_dsda(rest),
            [b'D', b'R', rest @ ..] => StandardBuiltinType::behind_dsdr(rest),
            _ => Err(Error::UnexpectedText),
        }
    }

    /// The text that is printed for it.
    pub fn text(&self) -> &'static str
        ensures { result.now ≡ text_at builtins (number_of_builtin self.now) }
    {
        match self {
            StandardBuiltinType::Void => "void",
            StandardBuiltinType::Wchar => "wchar_t",
            StandardBuiltinType::Bool => "bool",
            StandardBuiltinType::Char => "char",
            StandardBuiltinType::SignedChar => "signed char",
            StandardBuiltinType::UnsignedChar => "unsigned char",
            StandardBuiltinType::Short => "short",
            StandardBuiltinType::UnsignedShort => "unsigned short",
            StandardBuiltinType::Int => "int",
            StandardBuiltinType::UnsignedInt => "unsigned int",
            StandardBuiltinType::Long => "long",
            StandardBuiltinType::UnsignedLong => "unsigned long",
            StandardBuiltinType::LongLong => "long long",
            StandardBuiltinType::UnsignedLongLong => "unsigned long long",
            StandardBuiltinType::Int128 => "__int128",
            StandardBuiltinType::Uint128 => "unsigned __int128",
            StandardBuiltinType::Float => "float",
            StandardBuiltinType::Double => "double",
            StandardBuiltinType::LongDouble => "long double",
            StandardBuiltinType::Float128 => "__float128",
            StandardBuiltinType::Ellipsis => "...",
            StandardBuiltinType::DecimalFloat64 => "decimal64",
            StandardBuiltinType::DecimalFloat128 => "decimal128",
            StandardBuiltinType::DecimalFloat32 => "decimal32",
            StandardBuiltinType::DecimalFloat16 => "half",
            StandardBuiltinType::BFloat16 => "std::bfloat16_t",
            StandardBuiltinType::Char32 => "char32_t",
            StandardBuiltinType::Char16 => "char16_t",
            StandardBuiltinType::Char8 => "char8_t",
            StandardBuiltinType::Auto => "auto",
            StandardBuiltinType::Decltype => "decltype(auto)",
            StandardBuiltinType::Nullptr => "std::nullptr_t",
            StandardBuiltinType::AccumShort => "short _Accum",
            StandardBuiltinType::AccumUShort => "unsigned short _Accum",
            StandardBuiltinType::Accum => "_Accum",
            StandardBuiltinType::AccumUnsigned => "unsigned _Accum",
            StandardBuiltinType::AccumLong => "long _Accum",
            StandardBuiltinType::AccumULong => "unsigned long _Accum",
            StandardBuiltinType::FractShort => "short _Fract",
            StandardBuiltinType::FractUShort => "unsigned short _Fract",
            StandardBuiltinType::Fract => "_Fract",
            StandardBuiltinType::FractUnsigned => "unsigned _Fract",
            StandardBuiltinType::FractLong => "long _Fract",
            StandardBuiltinType::FractULong => "unsigned long _Fract",
            StandardBuiltinType::SatAccumShort => "_Sat short _Accum",
            StandardBuiltinType::SatAccumUShort => "_Sat unsigned short _Accum",
            StandardBuiltinType::SatAccum => "_Sat _Accum",
            StandardBuiltinType::SatAccumUnsigned => "_Sat unsigned _Accum",
            StandardBuiltinType::SatAccumLong => "_Sat long _Accum",
            StandardBuiltinType::SatAccumULong => "_Sat unsigned long _Accum",
            StandardBuiltinType::SatFractShort => "_Sat short _Fract",
            StandardBuiltinType::SatFractUShort => "_Sat unsigned short _Fract",
            StandardBuiltinType::SatFract => "_Sat _Fract",
            StandardBuiltinType::SatFractUnsigned => "_Sat unsigned _Fract",
            StandardBuiltinType::SatFractLong => "_Sat long _Fract",
            StandardBuiltinType::SatFractULong => "_Sat unsigned long _Fract",
        }
    }

    /// Whether a word of the table begins with the byte.
    pub fn starts_with(byte: u8) -> bool
        ensures { result ≡ starts_some builtin_words byte }
    {
        match byte {
            b'v'
            | b'w'
            | b'b'
            | b'c'
            | b'a'
            | b'h'
            | b's'
            | b't'
            | b'i'
            | b'j'
            | b'l'
            | b'm'
            | b'x'
            | b'y'
            | b'n'
            | b'o'
            | b'f'
            | b'd'
            | b'e'
            | b'g'
            | b'z'
            | b'D' => true,
            _ => false,
        }
    }

    /// The number of its entry in the table, from 0.
    pub fn number(&self) -> u8
        ensures { result ≡ number_of_builtin self.now }
    {
        *self as u8
    }
}
