//! Letting go of a name's tree and of its table.
#![tactic(auto)]

use demangle_discard::Discard;
use demangle_entries::MangledName;
use demangle_table::SubstitutionTable;

/// Drops a table with its components.
pub fn release_table(table: SubstitutionTable) {
    table.release();
}

/// Drops a name's tree and its table.
pub fn release(name: MangledName, table: SubstitutionTable) {
    name.discard();
    table.release();
}
