//! From a name's bytes to its text or to a listener, over the arena: no node type lies below.
#![tactic(auto)]

mod demangler;
mod fault;
mod filling;
mod listened;
mod rooms;
mod symbol;
mod told;

pub use demangler::Demangler;
pub use fault::SymbolFault;
pub use listened::structured_demangle_symbol;
pub use symbol::demangle_symbol;
pub use told::tell_tree;
