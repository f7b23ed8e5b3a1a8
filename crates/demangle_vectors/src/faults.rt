//! Bytes and names without a text, and why they have none.

use crate::checks::same;
use crate::texts::{becomes, demangled};
use cpp_demangle::error::{DemangleError, Error};
use cpp_demangle::{DemangleOptions, ParseOptions, SymbolFault, demangle_symbol};
use std::alloc::Global;
use std::test::Fail;

/// Bytes that aren't a name, and why. The last ends only where delete isn't read again as an operator.
static UNREAD: [(&[u8], Error); 16] = [
    (b"", Error::UnexpectedEnd),
    (b"_Z", Error::UnexpectedEnd),
    (b"Q", Error::UnexpectedEnd),
    (b"_Z3foo\xc3", Error::UnexpectedText),
    (b"QQ", Error::UnexpectedText),
    (b"_Z1fP1aS1_", Error::UnexpectedText),
    (b"_Z1fv ", Error::UnexpectedText),
    (b" _Z1fv", Error::UnexpectedText),
    (b"_Z03foov", Error::UnexpectedText),
    (b"_Z3123i", Error::UnexpectedText),
    (b"_Z2\xc0\xafv", Error::UnexpectedText),
    (b"_Z1\xc3v", Error::UnexpectedText),
    (b"_Z99999999999999999999f", Error::UnexpectedText),
    (b"_ZTC1a99999999999999999999_1b", Error::Overflow),
    (
        b"_ZN5space3fooEibc and some trailing junk",
        Error::UnexpectedText,
    ),
    (
        b"_Z1fIXdldldldldldldldldldldldldldldldldldldldldldldldldldldldldldldldldldldldldldldl",
        Error::UnexpectedText,
    ),
];

/// Names whose trees can't be printed, and why.
static UNPRINTED: [(&[u8], DemangleError); 4] = [
    (
        b"_ZC1v",
        DemangleError::Reference(Error::BadLeafNameReference),
    ),
    (
        b"_Z1fT_",
        DemangleError::Reference(Error::BadTemplateArgReference),
    ),
    (
        b"_Z1fIT_Evv",
        DemangleError::Reference(Error::ForwardTemplateArgReference),
    ),
    (b"_Z1fILi\xffEEvv", DemangleError::NotUtf8),
];

const TOO_DEEP_TO_READ: SymbolFault = SymbolFault::Read(Error::TooMuchRecursion);

const TOO_DEEP_TO_PRINT: SymbolFault = SymbolFault::Print(DemangleError::TooMuchRecursion);

const TOO_LONG: SymbolFault = SymbolFault::Print(DemangleError::TooLong);

const FORWARD: SymbolFault = SymbolFault::Print(DemangleError::Reference(
    Error::ForwardTemplateArgReference,
));

/// Names, limits on the levels of reading, the levels of printing and the bytes of the text, and what becomes of them.
static LIMITED: [(&[u8], u32, u32, usize, Result<&str, SymbolFault>); 18] = [
    (b"i", 4, 128, 99, Err(TOO_DEEP_TO_READ)),
    (b"i", 5, 128, 99, Ok("int")),
    (b"Pi", 9, 128, 99, Err(TOO_DEEP_TO_READ)),
    (b"Pi", 10, 128, 99, Ok("int*")),
    (b"_Z1fv", 11, 128, 99, Err(TOO_DEEP_TO_READ)),
    (b"_Z1fv", 12, 128, 99, Ok("f()")),
    (b"1a", 8, 128, 99, Err(TOO_DEEP_TO_READ)),
    (b"1a", 9, 128, 99, Ok("a")),
    (b"i", 96, 3, 99, Err(TOO_DEEP_TO_PRINT)),
    (b"i", 96, 4, 99, Ok("int")),
    (b"i", 96, 128, 0, Err(TOO_LONG)),
    (b"_Z1fv", 96, 128, 2, Err(TOO_LONG)),
    (b"_Z1fv", 96, 128, 3, Ok("f()")),
    (b"_Z3a\xc3\xa9v", 96, 128, 4, Err(TOO_LONG)),
    (b"_Z3a\xc3\xa9v", 96, 128, 5, Ok("aé()")),
    (b"_Z1fIT_Evv", 96, 128, 5, Err(TOO_LONG)),
    (b"_Z1fIT_Evv", 96, 128, 6, Err(TOO_LONG)),
    (b"_Z1fIT_Evv", 96, 128, 7, Err(FORWARD)),
];

#[test]
fn other_bytes_are_refused_by_their_cause(rt: HostRuntime) {
    for (name, error) in &UNREAD {
        let fault = demangled(rt.alloc(), *name).err();
        same(&rt, *name, fault, Some(SymbolFault::Read(*error)));
    }
    for (name, error) in &UNPRINTED {
        let fault = demangled(rt.alloc(), *name).err();
        same(&rt, *name, fault, Some(SymbolFault::Print(*error)));
    }
}

#[test]
fn a_limit_is_met_where_it_is_reached(rt: HostRuntime) {
    for (name, read_levels, print_levels, bytes, want) in &LIMITED {
        let parse = ParseOptions::default().recursion_limit((*read_levels).max(1));
        let print = DemangleOptions::new()
            .recursion_limit((*print_levels).max(1))
            .output_limit(*bytes);
        let answer = demangle_symbol(rt.alloc(), *name, &parse, &print);
        let case = (*name, *read_levels, *print_levels, *bytes);
        becomes(&rt, case, answer, *want);
    }
}

/// Faults of all kinds.
static FAULTS: [SymbolFault; 11] = [
    SymbolFault::Read(Error::UnexpectedEnd),
    SymbolFault::Read(Error::UnexpectedText),
    SymbolFault::Read(Error::Overflow),
    TOO_DEEP_TO_READ,
    SymbolFault::Print(DemangleError::Reference(Error::BadLeafNameReference)),
    SymbolFault::Print(DemangleError::Reference(Error::BadTemplateArgReference)),
    FORWARD,
    TOO_DEEP_TO_PRINT,
    SymbolFault::Print(DemangleError::NotUtf8),
    TOO_LONG,
    SymbolFault::OutOfMemory,
];

// The text of a name's fault.
fn told(alloc: Global, name: &[u8]) -> Option<&'static str> {
    demangled(alloc, name).err().map(|fault| fault.text())
}

#[test]
fn faults_are_shown_as_they_say(rt: HostRuntime) -> Result<(), Fail> {
    for fault in &FAULTS {
        let shown = format!(in rt.alloc(); "{fault}")?;
        same(&rt, *fault, shown.as_str(), fault.text());
    }
    for (name, error) in &UNREAD {
        same(&rt, *name, told(rt.alloc(), *name), Some(error.text()));
    }
    for (name, error) in &UNPRINTED {
        same(&rt, *name, told(rt.alloc(), *name), Some(error.text()));
    }
    Ok(())
}
