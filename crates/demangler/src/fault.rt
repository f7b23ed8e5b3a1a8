//! Why a name has no text.

ghost use Rattle.std.specs.Prelude.{◌≡◌};
ghost use Rattle.demangler.specs.Answer.{fault_text, print_fault, read_fault};

use demangle_context::DemangleError;
use demangle_text::Error;

/// Why a name has no text.
#[derive(Clone, Copy, Debug, PartialEq, Eq, thiserror::Error)]
#[error("{}", self.text())]
pub enum SymbolFault {
    /// It couldn't be read. The error is never `OutOfMemory`.
    Read(Error),
    /// It was read, but its tree couldn't be printed. The error is never `OutOfMemory`.
    Print(DemangleError),
    /// There was no memory.
    OutOfMemory,
}

impl SymbolFault {
    /// What the fault says, in English, as `{}` prints it.
    pub fn text(&self) -> &'static str
        ensures { result.now ≡ fault_text self.now }
    {
        match self {
            SymbolFault::Read(error) => error.text(),
            SymbolFault::Print(error) => error.text(),
            SymbolFault::OutOfMemory => "out of memory",
        }
    }
}

/// What an error of reading is to a name's text.
pub(crate) fn read_fault(error: Error) -> SymbolFault
    ensures { result ≡ read_fault error }
{
    match error {
        Error::OutOfMemory => SymbolFault::OutOfMemory,
        _ => SymbolFault::Read(error),
    }
}

/// What an error of printing is to a name's text.
pub(crate) fn print_fault(error: DemangleError) -> SymbolFault
    ensures { result ≡ print_fault error }
{
    match error {
        DemangleError::OutOfMemory => SymbolFault::OutOfMemory,
        _ => SymbolFault::Print(error),
    }
}
