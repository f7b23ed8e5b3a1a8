//! Tests of cpp_mangle on declarations from outside: that its definitions say what they are meant to, which no clause
//! can say, and that there is memory enough.
#![tactic(auto)]

#[cfg(test)]
mod declared;
#[cfg(test)]
mod names;
#[cfg(test)]
mod refusals;
#[cfg(test)]
mod rows;
