//! Tests of the program's public calls: runs from end to end whose outputs come from outside, ends that move few bytes
//! or fail, and inputs beyond the limit.
#![tactic(auto)]

#[cfg(test)]
mod checks;
#[cfg(test)]
mod ends;
#[cfg(test)]
mod process;
#[cfg(test)]
mod runs;
#[cfg(test)]
mod words;
