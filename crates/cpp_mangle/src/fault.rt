//! Why something is no declaration, or has no name.

ghost use Rattle.std.specs.Prelude.{◌≡◌};

use std::alloc::{AllocError, AllocFailed};

/// Why something isn't a part of a declaration, or why a declaration has no name.
#[derive(Clone, Copy, Debug, PartialEq, Eq, thiserror::Error)]
#[error("{}", self.text())]
pub enum MangleFault {
    /// Bytes that are no identifier.
    BadIdent,
    /// Parts that are no path of a class or a function.
    BadPath,
    /// Parameters that no declaration has.
    BadType,
    /// There was no memory.
    OutOfMemory,
}

impl MangleFault {
    ghost use Rattle.cpp_mangle.specs.Faults.{fault_text};

    /// What the fault says, in English, as `{}` prints it.
    pub fn text(&self) -> &'static str
        ensures { result.now ≡ fault_text self.now }
    {
        match self {
            MangleFault::BadIdent => "not an identifier",
            MangleFault::BadPath => "not a path of a class or function",
            MangleFault::BadType => "not a list of parameters",
            MangleFault::OutOfMemory => "out of memory",
        }
    }
}

impl From<AllocError> for MangleFault {
    ghost use Rattle.cpp_mangle.specs.declared.fault.MangleFault.TheVariants.{OutOfMemory};

    ghost from_gives = { λ _ e. e ≡ OutOfMemory };

    fn from(_: AllocError) -> MangleFault {
        MangleFault::OutOfMemory
    }
}

impl<T: Drop> From<AllocFailed<T>> for MangleFault {
    ghost use Rattle.cpp_mangle.specs.declared.fault.MangleFault.TheVariants.{OutOfMemory};

    ghost from_gives = { λ _ e. e ≡ OutOfMemory };

    fn from(_: AllocFailed<T>) -> MangleFault {
        MangleFault::OutOfMemory
    }
}
