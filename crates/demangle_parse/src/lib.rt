//! The parser: every row of the grammar as a reader of its node. Rows that look at other rows are read over the arena,
//! and the node is made out of its cells.
#![tactic(auto)]

mod divided;
mod entries;
mod expressions;
mod leaves;
mod levels;
mod names;
mod padded;
mod parse;
mod parsed;
mod read_cells;
mod table;
mod types;
mod words;

pub use parse::Parse;
pub use parsed::taken_out;
pub use read_cells::ReadCells;
pub use table::arena_of;
