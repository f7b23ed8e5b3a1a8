//! The substitution table: the components of a name in the order in which they were completed.
#![tactic(auto)]

mod table;

pub use demangle_components::CopyComponent;
pub use table::SubstitutionTable;
