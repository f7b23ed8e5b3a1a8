//! Names read into one arena, one after the other, with ample memory: where each ends, its root, and how many
//! components it has; or why it isn't read.
#![tactic(auto)]

#[cfg(test)]
mod answers;
#[cfg(test)]
mod checks;
#[cfg(test)]
mod names;
#[cfg(test)]
mod readings;
#[cfg(test)]
mod sizes;
