//! The ends of the program: what it reads from and writes to, as traits, with ends in memory and over the standard
//! streams; and writing what is due to a sink in few writes.
#![tactic(auto)]

pub mod ends;
pub mod faulty;
pub mod memory;
pub mod output;
pub mod standard;
