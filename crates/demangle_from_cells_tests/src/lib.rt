//! Names read into an arena, with ample memory: their whole trees and all their components are made out of their cells.
#![tactic(auto)]

#[cfg(test)]
mod checks;
#[cfg(test)]
mod made;
#[cfg(test)]
mod names;
#[cfg(test)]
mod tests;
