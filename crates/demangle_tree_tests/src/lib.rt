//! The syntax tree at worked examples, each call with ample memory: equality, texts, copies, the substitution table and
//! a long chain of its components, the look-ups through it, scopes and inner items.
#![tactic(auto)]

#[cfg(test)]
mod checks;
#[cfg(test)]
mod components;
#[cfg(test)]
mod items;
#[cfg(test)]
mod lookups;
#[cfg(test)]
mod reading;
#[cfg(test)]
mod rows;
#[cfg(test)]
mod scopes;
#[cfg(test)]
mod wholes;
#[cfg(test)]
mod worked;
