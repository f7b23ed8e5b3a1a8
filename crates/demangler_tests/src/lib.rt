//! Tests of the demangler over the arena: that one name after the other has the text that it has alone.
#![tactic(auto)]

#[cfg(test)]
mod one_by_one;
