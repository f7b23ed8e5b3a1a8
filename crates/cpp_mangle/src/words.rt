//! The words of the builtin types.

ghost use Rattle.std.specs.Prelude.{◌≡◌};
ghost use Rattle.demangle_vocab.specs.WordTable.{words};
ghost use Rattle.demangle_vocab.specs.Builtins.{builtins, number_of_builtin};
ghost use Rattle.cpp_mangle.specs.Declarations.{word_of};

use demangle_vocab::StandardBuiltinType;

/// The word of a builtin type (ABI section 5.1.5.2).
pub(crate) fn word(builtin: StandardBuiltinType) -> &'static str
    ensures { result.now ≡ word_of (words builtins) (number_of_builtin builtin) }
{
    match builtin {
        StandardBuiltinType::Void => "v",
        StandardBuiltinType::Wchar => "w",
        StandardBuiltinType::Bool => "b",
        StandardBuiltinType::Char => "c",
        StandardBuiltinType::SignedChar => "a",
        StandardBuiltinType::UnsignedChar => "h",
        StandardBuiltinType::Short => "s",
        StandardBuiltinType::UnsignedShort => "t",
        StandardBuiltinType::Int => "i",
        StandardBuiltinType::UnsignedInt => "j",
        StandardBuiltinType::Long => "l",
        StandardBuiltinType::UnsignedLong => "m",
        StandardBuiltinType::LongLong => "x",
        StandardBuiltinType::UnsignedLongLong => "y",
        StandardBuiltinType::Int128 => "n",
        StandardBuiltinType::Uint128 => "o",
        StandardBuiltinType::Float => "f",
        StandardBuiltinType::Double => "d",
        StandardBuiltinType::LongDouble => "e",
        StandardBuiltinType::Float128 => "g",
        StandardBuiltinType::Ellipsis => "z",
        StandardBuiltinType::DecimalFloat64 => "Dd",
        StandardBuiltinType::DecimalFloat128 => "De",
        StandardBuiltinType::DecimalFloat32 => "Df",
        StandardBuiltinType::DecimalFloat16 => "Dh",
        StandardBuiltinType::BFloat16 => "DF16b",
        StandardBuiltinType::Char32 => "Di",
        StandardBuiltinType::Char16 => "Ds",
        StandardBuiltinType::Char8 => "Du",
        StandardBuiltinType::Auto => "Da",
        StandardBuiltinType::Decltype => "Dc",
        StandardBuiltinType::Nullptr => "Dn",
        StandardBuiltinType::AccumShort => "DAs",
        StandardBuiltinType::AccumUShort => "DAt",
        StandardBuiltinType::Accum => "DAi",
        StandardBuiltinType::AccumUnsigned => "DAj",
        StandardBuiltinType::AccumLong => "DAl",
        StandardBuiltinType::AccumULong => "DAm",
        StandardBuiltinType::FractShort => "DRs",
        StandardBuiltinType::FractUShort => "DRt",
        StandardBuiltinType::Fract => "DRi",
        StandardBuiltinType::FractUnsigned => "DRj",
        StandardBuiltinType::FractLong => "DRl",
        StandardBuiltinType::FractULong => "DRm",
        StandardBuiltinType::SatAccumShort => "DSDAs",
        StandardBuiltinType::SatAccumUShort => "DSDAt",
        StandardBuiltinType::SatAccum => "DSDAi",
        StandardBuiltinType::SatAccumUnsigned => "DSDAj",
        StandardBuiltinType::SatAccumLong => "DSDAl",
        StandardBuiltinType::SatAccumULong => "DSDAm",
        StandardBuiltinType::SatFractShort => "DSDRs",
        StandardBuiltinType::SatFractUShort => "DSDRt",
        StandardBuiltinType::SatFract => "DSDRi",
        StandardBuiltinType::SatFractUnsigned => "DSDRj",
        StandardBuiltinType::SatFractLong => "DSDRl",
        StandardBuiltinType::SatFractULong => "DSDRm",
    }
}
