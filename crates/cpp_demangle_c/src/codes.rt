//! The codes that the calls answer.

ghost use Rattle.std.specs.Prelude.{◌≡◌, ◌<◌, true};
ghost use Rattle.demangler.specs.Answer.{may_come};
ghost use Rattle.cpp_demangle_c.specs.Codes.{code_of, fault_at};

use cpp_demangle::error::{DemangleError, Error};
use demangler::SymbolFault;

/// What was asked for was done.
pub const DONE: u32 = 0;
/// The name ends where the grammar wants more.
pub const UNEXPECTED_END: u32 = 1;
/// The name has bytes that the grammar doesn't have there.
pub const UNEXPECTED_TEXT: u32 = 2;
/// A number in the name is above 2^63 - 1.
pub const OVERFLOW: u32 = 3;
/// The limit on levels of the name was met.
pub const NAME_TOO_DEEP: u32 = 4;
/// A template parameter without an argument.
pub const BAD_TEMPLATE_ARG: u32 = 5;
/// A template parameter that stands for itself or a later argument.
pub const FORWARD_TEMPLATE_ARG: u32 = 6;
/// A constructor or destructor outside any class.
pub const BAD_LEAF_NAME: u32 = 7;
/// The limit on levels of the text was met.
pub const TEXT_TOO_DEEP: u32 = 8;
/// The bytes of a literal are no text.
pub const NOT_UTF8: u32 = 9;
/// The text is longer than the limit on it.
pub const TEXT_TOO_LONG: u32 = 10;
/// There was no memory.
pub const OUT_OF_MEMORY: u32 = 11;
/// The text is longer than the buffer.
pub const NO_ROOM: u32 = 12;
/// A limit on levels is 0.
pub const BAD_OPTION: u32 = 13;
/// A length is above 2^63 - 1. A slice has none such; a caller in C may tell it.
pub const BAD_LENGTH: u32 = 14;
/// The number is none of these codes.
pub const UNKNOWN_CODE: u32 = 15;

/// The code of what a name's reading meets.
fn code_of_reading(error: Error) -> u32
    requires { may_come (SymbolFault.Read error) ≡ true }
    ensures code { result ≡ code_of (SymbolFault.Read error) }
    ensures between { (DONE < result) × (result < NO_ROOM) }
{
    match error {
        Error::UnexpectedEnd => UNEXPECTED_END,
        Error::UnexpectedText => UNEXPECTED_TEXT,
        Error::Overflow => OVERFLOW,
        Error::TooMuchRecursion => NAME_TOO_DEEP,
        _ => unreachable!(),
    }
}

/// The code of what a reference in a name's tree comes to.
fn code_of_reference(error: Error) -> u32
    requires { may_come (SymbolFault.Print (DemangleError.Reference error)) ≡ true }
    ensures code { result ≡ code_of (SymbolFault.Print (DemangleError.Reference error)) }
    ensures between { (DONE < result) × (result < NO_ROOM) }
{
    match error {
        Error::BadTemplateArgReference => BAD_TEMPLATE_ARG,
        Error::ForwardTemplateArgReference => FORWARD_TEMPLATE_ARG,
        Error::BadLeafNameReference => BAD_LEAF_NAME,
        _ => unreachable!(),
    }
}

/// The code of what the printing of a name's tree meets.
fn code_of_printing(error: DemangleError) -> u32
    requires { may_come (SymbolFault.Print error) ≡ true }
    ensures code { result ≡ code_of (SymbolFault.Print error) }
    ensures between { (DONE < result) × (result < NO_ROOM) }
{
    match error {
        DemangleError::Reference(error) => code_of_reference(error),
        DemangleError::TooMuchRecursion => TEXT_TOO_DEEP,
        DemangleError::NotUtf8 => NOT_UTF8,
        DemangleError::TooLong => TEXT_TOO_LONG,
        _ => unreachable!(),
    }
}

/// The code of why a name has no text.
pub(crate) fn code_of(fault: SymbolFault) -> u32
    requires { may_come fault ≡ true }
    ensures code { result ≡ code_of fault }
    ensures between { (DONE < result) × (result < NO_ROOM) }
{
    match fault {
        SymbolFault::Read(error) => code_of_reading(error),
        SymbolFault::Print(error) => code_of_printing(error),
        SymbolFault::OutOfMemory => OUT_OF_MEMORY,
    }
}

/// Why a name has no text, by its code; `None` for other codes.
pub(crate) fn fault_at(code: u32) -> Option<SymbolFault>
    ensures { result ≡ fault_at code }
{
    match code {
        UNEXPECTED_END => Some(SymbolFault::Read(Error::UnexpectedEnd)),
        UNEXPECTED_TEXT => Some(SymbolFault::Read(Error::UnexpectedText)),
        OVERFLOW => Some(SymbolFault::Read(Error::Overflow)),
        NAME_TOO_DEEP => Some(SymbolFault::Read(Error::TooMuchRecursion)),
        BAD_TEMPLATE_ARG => Some(SymbolFault::Print(DemangleError::Reference(
            Error::BadTemplateArgReference,
        ))),
        FORWARD_TEMPLATE_ARG => Some(SymbolFault::Print(DemangleError::Reference(
            Error::ForwardTemplateArgReference,
        ))),
        BAD_LEAF_NAME => Some(SymbolFault::Print(DemangleError::Reference(
            Error::BadLeafNameReference,
        ))),
        TEXT_TOO_DEEP => Some(SymbolFault::Print(DemangleError::TooMuchRecursion)),
        NOT_UTF8 => Some(SymbolFault::Print(DemangleError::NotUtf8)),
        TEXT_TOO_LONG => Some(SymbolFault::Print(DemangleError::TooLong)),
        OUT_OF_MEMORY => Some(SymbolFault::OutOfMemory),
        _ => None,
    }
}
