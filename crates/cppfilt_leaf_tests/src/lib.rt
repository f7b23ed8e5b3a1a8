//! Tests of the program's words and of its ends, which need no name.
#![tactic(auto)]

#[cfg(test)]
mod command;
#[cfg(test)]
mod ends;
