//! Why a listener refuses a piece of text, and why a printing stops.

ghost use Rattle.std.specs.Prelude.{◌≡◌};
ghost use Rattle.demangle_context.specs.declared.error.SinkFault.TheVariants as fault;
ghost use Rattle.demangle_context.specs.declared.error.DemangleError.TheVariants as error;
ghost use Rattle.demangle_context.specs.Errors.{error_of, printing_text};

use demangle_text::Error;
use std::alloc::{AllocError, AllocFailed};

/// Why a sink refused a piece.
#[derive(Clone, Copy, Debug, PartialEq, Eq)]
pub enum SinkFault {
    /// The sink failed, and counts it.
    Failed,
    /// There was no memory for the piece.
    OutOfMemory,
}

impl From<AllocError> for SinkFault {
    ghost from_gives = { λ _ refusal. refusal ≡ fault.OutOfMemory };

    fn from(_error: AllocError) -> SinkFault {
        SinkFault::OutOfMemory
    }
}

impl<T: Drop> From<AllocFailed<T>> for SinkFault {
    ghost from_gives = { λ _ refusal. refusal ≡ fault.OutOfMemory };

    fn from(_error: AllocFailed<T>) -> SinkFault {
        SinkFault::OutOfMemory
    }
}

/// Why a tree was not printed, or not to its end.
#[derive(Clone, Copy, Debug, PartialEq, Eq)]
pub enum DemangleError {
    /// A template parameter without an argument, or that stands for itself or a later argument; or a constructor or
    /// destructor outside any class. It holds no other error.
    Reference(Error),
    /// The limit on levels was met.
    TooMuchRecursion,
    /// The bytes of a literal are no text.
    NotUtf8,
    /// The text is longer than the options allow.
    TooLong,
    /// The listener refused a piece of the text, and counts it.
    Sink,
    /// There was no memory.
    OutOfMemory,
}

impl DemangleError {
    /// What the error says, in English.
    pub fn text(&self) -> &'static str
        ensures { result.now ≡ printing_text self.now }
    {
        match self {
            DemangleError::Reference(error) => error.text(),
            DemangleError::TooMuchRecursion => {
                "encountered too much recursion when printing symbol"
            }
            DemangleError::NotUtf8 => "literal is not valid UTF-8",
            DemangleError::TooLong => "text is longer than the limit",
            DemangleError::Sink => "sink refused a piece",
            DemangleError::OutOfMemory => "out of memory",
        }
    }
}

impl From<SinkFault> for DemangleError {
    ghost from_gives = { λ refusal e. e ≡ error_of refusal };

    fn from(refusal: SinkFault) -> DemangleError {
        match refusal {
            SinkFault::Failed => DemangleError::Sink,
            SinkFault::OutOfMemory => DemangleError::OutOfMemory,
        }
    }
}

impl From<AllocError> for DemangleError {
    ghost from_gives = { λ _ e. e ≡ error.OutOfMemory };

    fn from(_error: AllocError) -> DemangleError {
        DemangleError::OutOfMemory
    }
}
