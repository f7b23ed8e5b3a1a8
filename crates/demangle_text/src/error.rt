//! The errors of reading and printing.

ghost use Rattle.std.specs.Prelude.{◌≡◌};

use std::alloc::{AllocError, AllocFailed};
use std::fmt;

/// Why a mangled name couldn't be read, or its tree couldn't be printed.
#[derive(Clone, Copy, Debug, PartialEq, Eq, Hash)]
pub enum Error {
    /// The bytes end where the grammar wants more.
    UnexpectedEnd,
    /// The bytes are none that the grammar has here.
    UnexpectedText,
    /// A back reference to a component that isn't there.
    BadBackReference,
    /// A template parameter without an argument.
    BadTemplateArgReference,
    /// A template parameter that stands for itself or a later argument.
    ForwardTemplateArgReference,
    /// A function parameter that isn't there. No call answers it.
    BadFunctionArgReference,
    /// A constructor or destructor outside any class.
    BadLeafNameReference,
    /// A number above 2^63 - 1.
    Overflow,
    /// The limit on levels was met.
    TooMuchRecursion,
    /// An allocation was refused.
    OutOfMemory,
}

/// The result of a reading.
pub type Result<T> = std::result::Result<T, Error>;

impl Error {
    ghost use Rattle.demangle_text.specs.Texts.{error_text};

    /// What the error says, in English, as `{}` prints it.
    pub fn text(&self) -> &'static str
        ensures { result.now ≡ error_text self.now }
    {
        match self {
            Error::UnexpectedEnd => "mangled symbol ends abruptly",
            Error::UnexpectedText => "mangled symbol is not well-formed",
            Error::BadBackReference =>
                "back reference that is out-of-bounds of the substitution table",
            Error::BadTemplateArgReference => {
                "reference to a template arg that is either out-of-bounds, or in a context without template args"
            }
            Error::ForwardTemplateArgReference => {
                "reference to a template arg from itself or a later template arg"
            }
            Error::BadFunctionArgReference => {
                "reference to a function arg that is either out-of-bounds, or in a context without function args"
            }
            Error::BadLeafNameReference => {
                "reference to a leaf name in a context where there is no current leaf name"
            }
            Error::Overflow => {
                "an overflow or underflow would occur when parsing an integer in a mangled symbol"
            }
            Error::TooMuchRecursion => "encountered too much recursion when demangling symbol",
            Error::OutOfMemory => "out of memory",
        }
    }
}

impl fmt::Display for Error {
    ghost use Rattle.std.specs.Prelude.{Some};
    ghost use Rattle.demangle_text.specs.Texts.{error_text};

    ghost output = { λ e. Some (error_text e) };

    fn fmt<W: fmt::Write>(&self, f: &mut fmt::Formatter<W>) -> fmt::Result {
        f.write_str(self.text())
    }
}

impl std::error::Error for Error {}

impl From<AllocError> for Error {
    ghost use Rattle.demangle_text.specs.declared.error.Error.TheVariants.{OutOfMemory};

    ghost from_gives = { λ _ e. e ≡ OutOfMemory };

    fn from(_: AllocError) -> Error {
        Error::OutOfMemory
    }
}

impl<T: Drop> From<AllocFailed<T>> for Error {
    ghost use Rattle.demangle_text.specs.declared.error.Error.TheVariants.{OutOfMemory};

    ghost from_gives = { λ _ e. e ≡ OutOfMemory };

    fn from(_: AllocFailed<T>) -> Error {
        Error::OutOfMemory
    }
}
