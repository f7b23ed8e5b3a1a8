//! A demangler of C++ linker names (Itanium ABI).
#![tactic(auto)]

pub mod ast;
pub mod error;
mod kept;
mod raw;
mod reading;
mod symbol;

pub use demangle_scope::{DemangleNodeType, DemangleOptions, DemangleWrite, TextSink};
pub use demangle_text::ParseOptions;
pub use demangler::{Demangler, SymbolFault, demangle_symbol, structured_demangle_symbol};
pub use raw::RawBytes;
pub use symbol::{BorrowedSymbol, OwnedSymbol, Symbol};
