//! Options, and limits on levels and on the text.

use crate::checks::holds;
use crate::printed::is_printed;
use demangle_scope::{DemangleError, DemangleOptions};
use demangle_text::Error;

/// Letters for options: no parameters, no result, no types of literals.
static OPTIONS: [(&str, &str, &str); 17] = [
    ("p", "_Z1fIiEvT_", "void f<int>"),
    ("r", "_Z1fIiEvT_", "f<int>(int)"),
    ("l", "_Z1fIiEvT_", "void f<int>(int)"),
    ("pr", "_Z1fIiEvT_", "f<int>"),
    ("p", "_Z1fv.clone.0", "f"),
    ("p", "_ZNKO1X1hEv", "X::h &&"),
    ("p", "_ZNH1iIiEEv", "void i<int>"),
    (
        "p",
        "_GLOBAL__I__Z2fnv",
        "global constructors keyed to fn()",
    ),
    (
        "p",
        "____Z1fv_block_invoke_2",
        "invocation function for block in f",
    ),
    ("p", "_ZZ1fvE1fIiEvT_", "void f()::f<int>"),
    ("r", "_ZZ1fvE1fIiEvT_", "f()::f<int>(int)"),
    ("p", "_Z1fIL_Z1gvEEvv", "void f<g()>"),
    ("r", "_ZNK1C1fIiEEPFivEv", "C::f<int>() const"),
    ("l", "_Z1fILm5EEvv", "void f<5>()"),
    ("l", "_Z1fILPv0EEvv", "void f<0>()"),
    ("l", "_Z1fILdEEvv", "void f<[]>()"),
    ("l", "_Z1fILb2EEvv", "void f<(bool)2>()"),
];

/// As many levels as a name needs, and one less.
static LEVELS: [(u32, &[u8], Result<&str, DemangleError>); 16] = [
    (3, b"i", Err(DemangleError::TooMuchRecursion)),
    (4, b"i", Ok("int")),
    (8, b"_ZN1a1bEv", Err(DemangleError::TooMuchRecursion)),
    (9, b"_ZN1a1bEv", Ok("a::b()")),
    (14, b"PFPN1a1bEvE", Err(DemangleError::TooMuchRecursion)),
    (15, b"PFPN1a1bEvE", Ok("a::b* (*)()")),
    (16, b"_Z1fIR1aEvROT_", Err(DemangleError::TooMuchRecursion)),
    (17, b"_Z1fIR1aEvROT_", Ok("void f<a&>(a&)")),
    (13, b"_Z1fPA3_FivE", Err(DemangleError::TooMuchRecursion)),
    (14, b"_Z1fPA3_FivE", Ok("f(int ( (*) [3])())")),
    (6, b"_ZC1v", Err(DemangleError::TooMuchRecursion)),
    (
        7,
        b"_ZC1v",
        Err(DemangleError::Reference(Error::BadLeafNameReference)),
    ),
    (6, b"_ZNT_C1Ev", Err(DemangleError::TooMuchRecursion)),
    (
        7,
        b"_ZNT_C1Ev",
        Err(DemangleError::Reference(Error::BadTemplateArgReference)),
    ),
    (8, b"_Z1fILi\xFFEEvv", Err(DemangleError::TooMuchRecursion)),
    (9, b"_Z1fILi\xFFEEvv", Err(DemangleError::NotUtf8)),
];

/// As many bytes as a text has, and one less; the text is judged before what it stands for.
static ROOMS: [(usize, &[u8], Result<&str, DemangleError>); 9] = [
    (0, b"i", Err(DemangleError::TooLong)),
    (2, b"_Z1fv", Err(DemangleError::TooLong)),
    (3, b"_Z1fv", Ok("f()")),
    (4, b"_Z3a\xC3\xA9v", Err(DemangleError::TooLong)),
    (5, b"_Z3a\xC3\xA9v", Ok("aé()")),
    (5, b"_Z1fIT_Evv", Err(DemangleError::TooLong)),
    (6, b"_Z1fIT_Evv", Err(DemangleError::TooLong)),
    (
        7,
        b"_Z1fIT_Evv",
        Err(DemangleError::Reference(Error::ForwardTemplateArgReference)),
    ),
    (
        0,
        b"_ZC1v",
        Err(DemangleError::Reference(Error::BadLeafNameReference)),
    ),
];

fn options_of(letters: &str) -> DemangleOptions {
    let mut options = DemangleOptions::new();
    for letter in letters.chars() {
        options = match letter {
            'p' => options.no_params(),
            'r' => options.no_return_type(),
            _ => options.hide_expression_literal_types(),
        };
    }
    options
}

#[test]
fn options_leave_their_part_out(rt: HostRuntime) {
    for (letters, name, text) in &OPTIONS {
        let options = options_of(*letters);
        let is_right = is_printed(rt.alloc(), name.as_bytes(), options, Ok(*text));
        holds(&rt, (*letters, *name), is_right);
    }
}

#[test]
fn levels_are_counted(rt: HostRuntime) {
    for (levels, name, answer) in &LEVELS {
        let options = DemangleOptions::new().recursion_limit((*levels).max(1));
        let is_right = is_printed(rt.alloc(), *name, options, *answer);
        holds(&rt, (*levels, *answer), is_right);
    }
}

#[test]
fn the_text_is_no_longer_than_its_limit(rt: HostRuntime) {
    for (bytes, name, answer) in &ROOMS {
        let options = DemangleOptions::new().output_limit(*bytes);
        let is_right = is_printed(rt.alloc(), *name, options, *answer);
        holds(&rt, (*bytes, *answer), is_right);
    }
}
