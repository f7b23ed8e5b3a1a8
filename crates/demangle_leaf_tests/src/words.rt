//! Each word of each table against a second listing: the words of the ABI that the original reads, with its texts. And
//! what no clause says.

use crate::checks::{holds, same};
use demangle_text::{Error, IndexStr, Result};
use demangle_vocab::{
    ExplicitObjectParameter, RefQualifier, SimpleOperatorName, StandardBuiltinType,
    WellKnownComponent, no_word_is_a_prefix, the_word_at_the_front_is_read,
};
use std::test::Fail;

/// The operators of the ABI, section 5.1.3, that the original reads: word, text, number of operands.
static OPERATORS: [(&str, &str, u8); 48] = [
    ("nw", "new", 3),
    ("na", "new[]", 3),
    ("dl", "delete", 1),
    ("da", "delete[]", 1),
    ("ps", "+", 1),
    ("ng", "-", 1),
    ("ad", "&", 1),
    ("de", "*", 1),
    ("co", "~", 1),
    ("pl", "+", 2),
    ("mi", "-", 2),
    ("ml", "*", 2),
    ("dv", "/", 2),
    ("rm", "%", 2),
    ("an", "&", 2),
    ("or", "|", 2),
    ("eo", "^", 2),
    ("aS", "=", 2),
    ("pL", "+=", 2),
    ("mI", "-=", 2),
    ("mL", "*=", 2),
    ("dV", "/=", 2),
    ("rM", "%=", 2),
    ("aN", "&=", 2),
    ("oR", "|=", 2),
    ("eO", "^=", 2),
    ("ls", "<<", 2),
    ("rs", ">>", 2),
    ("lS", "<<=", 2),
    ("rS", ">>=", 2),
    ("eq", "==", 2),
    ("ne", "!=", 2),
    ("lt", "<", 2),
    ("gt", ">", 2),
    ("le", "<=", 2),
    ("ge", ">=", 2),
    ("ss", "<=>", 2),
    ("nt", "!", 1),
    ("aa", "&&", 2),
    ("oo", "||", 2),
    ("pp", "++", 1),
    ("mm", "--", 1),
    ("cm", ",", 2),
    ("pm", "->*", 2),
    ("pt", "->", 2),
    ("cl", "()", 2),
    ("ix", "[]", 2),
    ("qu", "?:", 3),
];

/// The builtin types of the ABI, section 5.1.5.2, that are one word and that the original reads: word, text. The ABI
/// has `DF16b` with `DF`, and the fixed-point types by their two parts.
static BUILTIN_TYPES: [(&str, &str); 56] = [
    ("v", "void"),
    ("w", "wchar_t"),
    ("b", "bool"),
    ("c", "char"),
    ("a", "signed char"),
    ("h", "unsigned char"),
    ("s", "short"),
    ("t", "unsigned short"),
    ("i", "int"),
    ("j", "unsigned int"),
    ("l", "long"),
    ("m", "unsigned long"),
    ("x", "long long"),
    ("y", "unsigned long long"),
    ("n", "__int128"),
    ("o", "unsigned __int128"),
    ("f", "float"),
    ("d", "double"),
    ("e", "long double"),
    ("g", "__float128"),
    ("z", "..."),
    ("Dd", "decimal64"),
    ("De", "decimal128"),
    ("Df", "decimal32"),
    ("Dh", "half"),
    ("DF16b", "std::bfloat16_t"),
    ("DAs", "short _Accum"),
    ("DAt", "unsigned short _Accum"),
    ("DAi", "_Accum"),
    ("DAj", "unsigned _Accum"),
    ("DAl", "long _Accum"),
    ("DAm", "unsigned long _Accum"),
    ("DRs", "short _Fract"),
    ("DRt", "unsigned short _Fract"),
    ("DRi", "_Fract"),
    ("DRj", "unsigned _Fract"),
    ("DRl", "long _Fract"),
    ("DRm", "unsigned long _Fract"),
    ("DSDAs", "_Sat short _Accum"),
    ("DSDAt", "_Sat unsigned short _Accum"),
    ("DSDAi", "_Sat _Accum"),
    ("DSDAj", "_Sat unsigned _Accum"),
    ("DSDAl", "_Sat long _Accum"),
    ("DSDAm", "_Sat unsigned long _Accum"),
    ("DSDRs", "_Sat short _Fract"),
    ("DSDRt", "_Sat unsigned short _Fract"),
    ("DSDRi", "_Sat _Fract"),
    ("DSDRj", "_Sat unsigned _Fract"),
    ("DSDRl", "_Sat long _Fract"),
    ("DSDRm", "_Sat unsigned long _Fract"),
    ("Di", "char32_t"),
    ("Ds", "char16_t"),
    ("Du", "char8_t"),
    ("Da", "auto"),
    ("Dc", "decltype(auto)"),
    ("Dn", "std::nullptr_t"),
];

/// The abbreviations of the ABI, section 5.1.10, that the original reads: word, text, and the constructors' name.
static COMPONENTS: [(&str, &str, Option<&str>); 7] = [
    ("St", "std", None),
    ("Sa", "std::allocator", Some("allocator")),
    ("Sb", "std::basic_string", Some("basic_string")),
    ("Ss", "std::string", Some("string")),
    (
        "Si",
        "std::basic_istream<char, std::char_traits<char> >",
        Some("basic_istream"),
    ),
    ("So", "std::ostream", Some("ostream")),
    (
        "Sd",
        "std::basic_iostream<char, std::char_traits<char> >",
        Some("basic_iostream"),
    ),
];

fn first(word: &str) -> Option<u8> {
    word.as_bytes().first().copied()
}

#[test]
fn operators_are_as_listed(rt: HostRuntime) -> std::result::Result<(), Fail> {
    for (word, text, arity) in &OPERATORS {
        let (operator, rest) = SimpleOperatorName::read_word(IndexStr::new(word.as_bytes()))?;
        let begins = first(*word).is_some_and(|byte| SimpleOperatorName::starts_with(byte));
        holds(&rt, *word, rest.is_empty() && begins);
        same(&rt, *word, operator.text(), *text);
        same(&rt, *word, operator.arity(), *arity);
    }
    same(&rt, "nw", SimpleOperatorName::New.number(), 0);
    same(&rt, "ss", SimpleOperatorName::Spaceship.number(), 47);
    Ok(())
}

#[test]
fn builtin_types_are_as_listed(rt: HostRuntime) -> std::result::Result<(), Fail> {
    for (word, text) in &BUILTIN_TYPES {
        let (builtin, rest) = StandardBuiltinType::read_word(IndexStr::new(word.as_bytes()))?;
        let begins = first(*word).is_some_and(|byte| StandardBuiltinType::starts_with(byte));
        holds(&rt, *word, rest.is_empty() && begins);
        same(&rt, *word, builtin.text(), *text);
    }
    same(&rt, "v", StandardBuiltinType::Void.number(), 0);
    same(
        &rt,
        "DSDRm",
        StandardBuiltinType::SatFractULong.number(),
        55,
    );
    Ok(())
}

// A component's leaf name, where it has one.
fn leaf_of(component: WellKnownComponent) -> Option<&'static str> {
    match component {
        WellKnownComponent::Std => None,
        _ => Some(component.leaf_text()),
    }
}

#[test]
fn components_are_as_listed(rt: HostRuntime) -> std::result::Result<(), Fail> {
    for (word, text, leaf) in &COMPONENTS {
        let (component, rest) = WellKnownComponent::read_word(IndexStr::new(word.as_bytes()))?;
        holds(&rt, *word, rest.is_empty());
        same(&rt, *word, component.text(), *text);
        same(&rt, *word, leaf_of(component), *leaf);
    }
    holds(&rt, "S", WellKnownComponent::starts_with(b'S'));
    same(&rt, "Sd", WellKnownComponent::StdIostream.number(), 6);
    Ok(())
}

#[test]
fn qualifiers_are_as_listed(rt: HostRuntime) -> std::result::Result<(), Fail> {
    let (lvalue, rest) = RefQualifier::read_word(IndexStr::new(b"RO"))?;
    let (rvalue, rest) = RefQualifier::read_word(rest)?;
    holds(&rt, "RO", rest.is_empty());
    same(&rt, "R", (lvalue.text(), lvalue.number()), ("&", 0));
    same(&rt, "O", (rvalue.text(), rvalue.number()), ("&&", 1));
    holds(&rt, "O", RefQualifier::starts_with(b'O'));
    let (explicit, rest) = ExplicitObjectParameter::read_word(IndexStr::new(b"H1a"))?;
    holds(&rt, "H1a", rest.eq_bytes(b"1a"));
    same(&rt, "H", (explicit.text(), explicit.number()), ("this", 0));
    holds(&rt, "H", ExplicitObjectParameter::starts_with(b'H'));
    no_word_is_a_prefix();
    the_word_at_the_front_is_read();
    Ok(())
}

/// Texts, and the builtin type at their front with what is behind it.
static REFUSED: [(&str, Result<(StandardBuiltinType, &str)>); 8] = [
    ("", Err(Error::UnexpectedEnd)),
    ("D", Err(Error::UnexpectedEnd)),
    ("DF1", Err(Error::UnexpectedEnd)),
    ("DSD", Err(Error::UnexpectedEnd)),
    ("DQ", Err(Error::UnexpectedText)),
    ("DF17", Err(Error::UnexpectedText)),
    ("q", Err(Error::UnexpectedText)),
    ("DF16bx", Ok((StandardBuiltinType::BFloat16, "x"))),
];

fn is_builtin_type(text: &str, want: Result<(StandardBuiltinType, &str)>) -> bool {
    let answer = StandardBuiltinType::read_word(IndexStr::new(text.as_bytes()));
    match (answer, want) {
        (Ok((builtin, rest)), Ok((wanted, left))) => {
            builtin == wanted && rest.eq_bytes(left.as_bytes())
        }
        (Err(error), Err(wanted)) => error == wanted,
        _ => false,
    }
}

#[test]
fn builtin_types_are_refused_as_the_grammar_says(rt: HostRuntime) {
    for (text, want) in &REFUSED {
        holds(&rt, *text, is_builtin_type(*text, *want));
    }
}
