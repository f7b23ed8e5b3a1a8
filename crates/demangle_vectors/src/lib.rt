//! Tests of the library's public calls on names, faults and events that come from outside: that the definitions say what
//! they are meant to, which no clause can say, and that there is memory enough.
#![tactic(auto)]

#[cfg(test)]
mod checks;
#[cfg(test)]
mod faults;
#[cfg(test)]
mod hostile;
#[cfg(test)]
mod listener;
#[cfg(test)]
mod mangled;
#[cfg(test)]
mod symbols;
#[cfg(test)]
mod texts;
