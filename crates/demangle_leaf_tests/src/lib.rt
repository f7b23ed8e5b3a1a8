//! Tests of the crates below the nodes and beside them: text, words, leaf rows and the context of printing. They stand
//! apart, so that those crates are proved once, and not a second time with their tests.
#![tactic(auto)]

#[cfg(test)]
mod checks;
#[cfg(test)]
mod context;
#[cfg(test)]
mod rows;
#[cfg(test)]
mod text;
#[cfg(test)]
mod words;
