//! The texts of words, by the numbers of their tables and their own.

ghost use Rattle.std.specs.Prelude.{◌≡◌};
ghost use Rattle.demangle_vocab.specs.Builtins.{builtins};
ghost use Rattle.demangle_vocab.specs.Components.{components};
ghost use Rattle.demangle_vocab.specs.Operators.{operators};
ghost use Rattle.demangle_vocab.specs.Qualifiers.{explicit_objects, ref_qualifiers};
ghost use Rattle.demangle_vocab.specs.WordTable.{text_at};
ghost use Rattle.demangle_printing.specs.Texts.{leaf_text, word_text};

/// The text of an operator.
fn operator_text(word: u8) -> &'static str
    ensures { result.now ≡ text_at operators word }
{
    match word {
        0 => "new",
        1 => "new[]",
        2 => "delete",
        3 => "delete[]",
        4 => "+",
        5 => "-",
        6 => "&",
        7 => "*",
        8 => "~",
        9 => "+",
        10 => "-",
        11 => "*",
        12 => "/",
        13 => "%",
        14 => "&",
        15 => "|",
        16 => "^",
        17 => "=",
        18 => "+=",
        19 => "-=",
        20 => "*=",
        21 => "/=",
        22 => "%=",
        23 => "&=",
        24 => "|=",
        25 => "^=",
        26 => "<<",
        27 => ">>",
        28 => "<<=",
        29 => ">>=",
        30 => "==",
        31 => "!=",
        32 => "<",
        33 => ">",
        34 => "<=",
        35 => ">=",
        36 => "!",
        37 => "&&",
        38 => "||",
        39 => "++",
        40 => "--",
        41 => ",",
        42 => "->*",
        43 => "->",
        44 => "()",
        45 => "[]",
        46 => "?:",
        47 => "<=>",
        48.. => "",
    }
}

/// The text of a builtin type.
fn builtin_text(word: u8) -> &'static str
    ensures { result.now ≡ text_at builtins word }
{
    match word {
        0 => "void",
        1 => "wchar_t",
        2 => "bool",
        3 => "char",
        4 => "signed char",
        5 => "unsigned char",
        6 => "short",
        7 => "unsigned short",
        8 => "int",
        9 => "unsigned int",
        10 => "long",
        11 => "unsigned long",
        12 => "long long",
        13 => "unsigned long long",
        14 => "__int128",
        15 => "unsigned __int128",
        16 => "float",
        17 => "double",
        18 => "long double",
        19 => "__float128",
        20 => "...",
        21 => "decimal64",
        22 => "decimal128",
        23 => "decimal32",
        24 => "half",
        25 => "std::bfloat16_t",
        26 => "char32_t",
        27 => "char16_t",
        28 => "char8_t",
        29 => "auto",
        30 => "decltype(auto)",
        31 => "std::nullptr_t",
        32 => "short _Accum",
        33 => "unsigned short _Accum",
        34 => "_Accum",
        35 => "unsigned _Accum",
        36 => "long _Accum",
        37 => "unsigned long _Accum",
        38 => "short _Fract",
        39 => "unsigned short _Fract",
        40 => "_Fract",
        41 => "unsigned _Fract",
        42 => "long _Fract",
        43 => "unsigned long _Fract",
        44 => "_Sat short _Accum",
        45 => "_Sat unsigned short _Accum",
        46 => "_Sat _Accum",
        47 => "_Sat unsigned _Accum",
        48 => "_Sat long _Accum",
        49 => "_Sat unsigned long _Accum",
        50 => "_Sat short _Fract",
        51 => "_Sat unsigned short _Fract",
        52 => "_Sat _Fract",
        53 => "_Sat unsigned _Fract",
        54 => "_Sat long _Fract",
        55 => "_Sat unsigned long _Fract",
        56.. => "",
    }
}

/// The text of an abbreviated component.
fn component_text(word: u8) -> &'static str
    ensures { result.now ≡ text_at components word }
{
    match word {
        0 => "std",
        1 => "std::allocator",
        2 => "std::basic_string",
        3 => "std::string",
        4 => "std::basic_istream<char, std::char_traits<char> >",
        5 => "std::ostream",
        6 => "std::basic_iostream<char, std::char_traits<char> >",
        7.. => "",
    }
}

/// The text of a ref-qualifier.
fn ref_qualifier_text(word: u8) -> &'static str
    ensures { result.now ≡ text_at ref_qualifiers word }
{
    match word {
        0 => "&",
        1 => "&&",
        2.. => "",
    }
}

/// The text of the mark of an explicit object parameter.
fn explicit_object_text(word: u8) -> &'static str
    ensures { result.now ≡ text_at explicit_objects word }
{
    match word {
        0 => "this",
        1.. => "",
    }
}

/// The leaf name of an abbreviated component.
pub(crate) fn component_leaf_text(word: u8) -> &'static str
    ensures { result.now ≡ leaf_text word }
{
    match word {
        0 => "",
        1 => "allocator",
        2 => "basic_string",
        3 => "string",
        4 => "basic_istream",
        5 => "ostream",
        6 => "basic_iostream",
        7.. => "",
    }
}

/// The text of a word.
pub(crate) fn text_of_word(table: u8, word: u8) -> &'static str
    ensures { result.now ≡ word_text table word }
{
    match table {
        0 => operator_text(word),
        1 => builtin_text(word),
        2 => component_text(word),
        3 => ref_qualifier_text(word),
        4.. => explicit_object_text(word),
    }
}
