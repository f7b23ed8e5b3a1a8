//! What no clause says: answers that come from outside, and that each call is met by some input.

use crate::checks::{holds, same};
use demangle_text::{
    Error, IndexStr, ParseOptions, Result, consume, identifier_len, parse_number, parse_unsigned,
};
use std::process::Abort;
use std::test::Fail;

/// The base, whether a sign is allowed, a text, and the number at its front with what is behind it.
static NUMBERS: [(u32, bool, &str, Result<(isize, &str)>); 18] = [
    (10, false, "0", Ok((0, ""))),
    (10, false, "00", Err(Error::UnexpectedText)),
    (10, false, "01", Err(Error::UnexpectedText)),
    (10, false, "0_", Ok((0, "_"))),
    (10, false, "", Err(Error::UnexpectedEnd)),
    (10, false, "x", Err(Error::UnexpectedText)),
    (10, false, "n5", Err(Error::UnexpectedText)),
    (10, false, "12A", Ok((12, "A"))),
    (10, true, "n5", Ok((-5, ""))),
    (10, true, "5", Ok((5, ""))),
    (10, true, "n", Err(Error::UnexpectedEnd)),
    (10, true, "nn5", Err(Error::UnexpectedText)),
    (10, true, "n9223372036854775808", Err(Error::Overflow)),
    (
        10,
        false,
        "9223372036854775807",
        Ok((9223372036854775807, "")),
    ),
    (10, false, "9223372036854775808", Err(Error::Overflow)),
    (36, false, "Z_", Ok((35, "_"))),
    (36, false, "1Z", Ok((71, ""))),
    (36, false, "z", Err(Error::UnexpectedText)),
];

// Whether the number is read in base 36, or else in base 10, as wanted.
fn is_number(base: u32, allow_signed: bool, text: &str, want: Result<(isize, &str)>) -> bool {
    let base = if base == 36 { 36 } else { 10 };
    let answer = parse_number(base, allow_signed, IndexStr::new(text.as_bytes()));
    match (answer, want) {
        (Ok((value, rest)), Ok((number, left))) => {
            value == number
                && rest.eq_bytes(left.as_bytes())
                && text.len().checked_sub(left.len()) == Some(rest.index())
        }
        (Err(error), Err(wanted)) => error == wanted,
        _ => false,
    }
}

#[test]
fn numbers_are_read_as_the_grammar_says(rt: HostRuntime) {
    for (base, allow_signed, text, want) in &NUMBERS {
        let is_right = is_number(*base, *allow_signed, *text, *want);
        holds(&rt, *text, is_right);
    }
}

#[test]
fn a_number_without_a_sign_is_a_usize(rt: HostRuntime) -> std::result::Result<(), Fail> {
    let (value, rest) = parse_unsigned(36, IndexStr::new(b"1Z_"))?;
    same(&rt, "1Z_", value, 71usize);
    holds(&rt, "1Z_", rest.eq_bytes(b"_"));
    Ok(())
}

#[test]
fn words_are_consumed(rt: HostRuntime) -> std::result::Result<(), Fail> {
    let rest = consume(b"_Z", IndexStr::new(b"_Z1f"))?;
    holds(&rt, "_Z1f", rest.eq_bytes(b"1f"));
    same(&rt, "_Z1f", rest.index(), 2usize);
    let end = Err(Error::UnexpectedEnd);
    same(&rt, "_", consume(b"_Z", IndexStr::new(b"_")), end);
    same(&rt, "X", consume(b"_Z", IndexStr::new(b"X")), end);
    let text = Err(Error::UnexpectedText);
    same(&rt, "_X", consume(b"_Z", IndexStr::new(b"_X")), text);
    Ok(())
}

/// Bytes, and how many at their front are an identifier.
static IDENTIFIERS: [(&[u8], usize); 22] = [
    (b"", 0),
    (b"-", 0),
    (b"a9Z$_.-b", 6),
    (b"\x7f", 0),
    (b"\x80", 0),
    (b"\xc3", 0),
    (b"\xc1\xbf", 0),
    (b"\xc2\x80", 2),
    (b"\xdf\xbf\xdf", 2),
    (b"a\xc3\xa9v(", 4),
    (b"\xe0\x9f\xbf", 0),
    (b"\xe0\xa0\x80", 3),
    (b"\xe2\x82", 0),
    (b"\xed\x9f\xbf", 3),
    (b"\xed\xa0\x80", 0),
    (b"\xee\x80\x80\xef\xbf\xbf", 6),
    (b"\xf0\x8f\xbf\xbf", 0),
    (b"\xf0\x90\x80\x80", 4),
    (b"\xf3\xbf\xbf", 0),
    (b"\xf4\x8f\xbf\xbf", 4),
    (b"\xf4\x90\x80\x80", 0),
    (b"\xf5\x80\x80\x80", 0),
];

#[test]
fn an_identifier_ends_before_what_is_no_character(rt: HostRuntime) {
    for (bytes, len) in &IDENTIFIERS {
        same(&rt, *bytes, identifier_len(*bytes), *len);
    }
}

// What is seen at the front of four bytes.
fn the_front_is_seen(rt: &impl Abort, input: IndexStr<'_>) {
    same(rt, "the input", input.len(), 4usize);
    holds(rt, "the input", !input.is_empty());
    same(rt, "the first", input.peek(), Some(b'a'));
    same(rt, "the second", input.peek_second(), Some(b'b'));
}

#[test]
fn slices_know_their_index(rt: HostRuntime) -> std::result::Result<(), Fail> {
    let input = IndexStr::new(b"abcd");
    the_front_is_seen(&rt, input);
    let (first, rest) = input.next_or(Error::UnexpectedEnd)?;
    same(&rt, "the first", first, b'a');
    same(&rt, "the rest", rest.index(), 1usize);
    same(&rt, "both", Some((first, rest)), input.next());
    same(&rt, "the input", input, IndexStr::from(b"abcd".as_slice()));
    same(&rt, "the rest", rest.as_slice(), b"bcd".as_slice());
    holds(&rt, "the rest", rest != IndexStr::new(b"bcd"));
    Ok(())
}

#[test]
fn slices_are_cut(rt: HostRuntime) -> std::result::Result<(), Fail> {
    let input = IndexStr::new(b"abcd");
    let (front, back) = input.split_at(1);
    holds(&rt, "the front", front.eq_bytes(b"a"));
    same(&rt, "the back", back.index(), 1usize);
    same(&rt, "both", input.try_split_at(1), Some((front, back)));
    same(&rt, "too much", input.try_split_at(5), None);
    let middle = input.range(1..3);
    holds(&rt, "the middle", middle.eq_bytes(b"bc"));
    same(&rt, "the middle", middle.index(), 1usize);
    same(&rt, "the back", input.range_from(1..), back);
    same(&rt, "the front", input.range_to(..1), front);
    Ok(())
}

/// Each error's text.
static TEXTS: [(Error, &str); 5] = [
    (Error::UnexpectedEnd, "mangled symbol ends abruptly"),
    (Error::UnexpectedText, "mangled symbol is not well-formed"),
    (
        Error::BadBackReference,
        "back reference that is out-of-bounds of the substitution table",
    ),
    (
        Error::TooMuchRecursion,
        "encountered too much recursion when demangling symbol",
    ),
    (Error::OutOfMemory, "out of memory"),
];

#[test]
fn errors_print_their_text(rt: HostRuntime) -> std::result::Result<(), Fail> {
    for (error, text) in &TEXTS {
        same(&rt, *error, error.text(), *text);
        let printed = format!(in rt.alloc(); "{error}")?;
        same(&rt, *error, printed.as_str(), *text);
    }
    Ok(())
}

#[test]
fn the_limit_is_96_where_none_was_set(rt: HostRuntime) {
    let options = ParseOptions::default();
    same(&rt, "none", options.limit(), 96);
    same(&rt, "one", options.recursion_limit(1024).limit(), 1024);
}
