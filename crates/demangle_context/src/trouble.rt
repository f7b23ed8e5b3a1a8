//! Why a printing stops.

ghost use Rattle.std.specs.Prelude.{◌≡◌, Some};
ghost use Rattle.demangle_printing.specs.State.{Fault};
ghost use Rattle.demangle_context.specs.Errors.{reference_fault};
ghost use Rattle.demangle_context.specs.TroubleOf.{error_in, fault_of, full_in, refusal_in};

use crate::error::DemangleError;
use demangle_text::Error;

/// Why a printing stops, but for what is lost.
#[derive(Clone, Copy, Debug, PartialEq, Eq)]
pub enum PrintFault {
    /// A template parameter that no list in scope has.
    BadTemplateArgReference,
    /// A template parameter that is the argument that is being printed, or a later one of its list.
    ForwardTemplateArgReference,
    /// A constructor or destructor outside any class.
    BadLeafNameReference,
    /// The limit on levels was met.
    TooMuchRecursion,
    /// The bytes of a literal are no text.
    NotUtf8,
    /// The text is longer than the options allow.
    TooLong,
}

/// The first trouble: a fault; the listener failed, or had no memory; a stack of items had no room.
#[derive(Clone, Copy, Debug, PartialEq, Eq)]
pub(crate) enum Trouble {
    Fault(PrintFault),
    Failed,
    Refused,
    Full,
}

impl PrintFault {
    /// The fault as an error of printing.
    pub(crate) fn error(self) -> DemangleError
        ensures { result ≡ error_in (Trouble.Fault self) }
    {
        match self {
            PrintFault::BadTemplateArgReference => {
                DemangleError::Reference(Error::BadTemplateArgReference)
            }
            PrintFault::ForwardTemplateArgReference => {
                DemangleError::Reference(Error::ForwardTemplateArgReference)
            }
            PrintFault::BadLeafNameReference => {
                DemangleError::Reference(Error::BadLeafNameReference)
            }
            PrintFault::TooMuchRecursion => DemangleError::TooMuchRecursion,
            PrintFault::NotUtf8 => DemangleError::NotUtf8,
            PrintFault::TooLong => DemangleError::TooLong,
        }
    }
}

impl Trouble {
    /// The trouble as an error of printing: want of memory is one, whoever had none.
    pub(crate) fn error(self) -> DemangleError
        ensures { result ≡ error_in self }
    {
        match self {
            Trouble::Fault(fault) => fault.error(),
            Trouble::Failed => DemangleError::Sink,
            Trouble::Refused => DemangleError::OutOfMemory,
            Trouble::Full => DemangleError::OutOfMemory,
        }
    }
}

/// Why a look-up failed; of an error of no look-up, any fault.
pub(crate) fn reference_fault_in(error: Error) -> PrintFault
    ensures { (f : Fault) → reference_fault error ≡ Some f → fault_of result ≡ f }
{
    match error {
        Error::BadTemplateArgReference => PrintFault::BadTemplateArgReference,
        Error::ForwardTemplateArgReference => PrintFault::ForwardTemplateArgReference,
        Error::UnexpectedEnd
        | Error::UnexpectedText
        | Error::BadBackReference
        | Error::BadFunctionArgReference
        | Error::BadLeafNameReference
        | Error::Overflow
        | Error::TooMuchRecursion
        | Error::OutOfMemory => PrintFault::BadLeafNameReference,
    }
}

/// Why a text was not written.
pub(crate) fn refusal_in(answer: Result<(), DemangleError>) -> Option<Trouble>
    ensures { result ≡ refusal_in answer }
{
    match answer {
        Ok(()) => None,
        Err(DemangleError::TooLong) => Some(Trouble::Fault(PrintFault::TooLong)),
        Err(DemangleError::Sink) => Some(Trouble::Failed),
        Err(_) => Some(Trouble::Refused),
    }
}

/// Why an item was not put on a stack.
pub(crate) fn full_in(answer: Result<(), DemangleError>) -> Option<Trouble>
    ensures { result ≡ full_in answer }
{
    match answer {
        Ok(()) => None,
        Err(_) => Some(Trouble::Full),
    }
}
