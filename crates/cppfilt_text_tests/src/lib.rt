//! Tests of names inside texts: streams that are fed a text in two pieces, and runs of the program `cppfilt_text` from
//! end to end.
#![tactic(auto)]

#[cfg(test)]
mod runs;
#[cfg(test)]
mod streams;
#[cfg(test)]
mod texts;
