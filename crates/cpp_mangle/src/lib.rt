//! Linker names of functions (Itanium ABI) from their declarations: paths, builtin and class types, pointers,
//! references and `const`.
#![tactic(auto)]

mod decl;
mod decl_type;
mod entity;
mod fault;
mod ident;
mod laws;
mod mangling;
mod path;
mod words;
mod writer;

pub use decl::Decl;
pub use decl_type::DeclType;
pub use demangle_vocab::StandardBuiltinType;
pub use fault::MangleFault;
pub use ident::Ident;
pub use laws::{components_are_entities, names_are_shown};
pub use mangling::mangle;
pub use path::Path;
