//! Tests of demangle_parts on names from outside: that its definitions say what they are meant to, which no clause can
//! say, and that there is memory enough.
#![tactic(auto)]

#[cfg(test)]
mod indexed;
#[cfg(test)]
mod parts;
