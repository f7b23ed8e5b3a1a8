//! What a line filter owes for its input: the lines, and what each of them becomes under the options. Nothing here is
//! run except the options' defaults: the definitions stand in specs/, what holds of them is in `laws`, and what proofs
//! cite in proofs/.
#![tactic(auto)]

pub mod laws;
mod options;

pub use options::FilterOptions;
