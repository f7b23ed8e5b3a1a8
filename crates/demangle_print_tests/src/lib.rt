//! Printings by `Demangle::demangle` and its kin: whole names of all kinds, options and limits, what a listener is
//! told, listeners that fail, inner items, and long lists and chains.
#![tactic(auto)]

#[cfg(test)]
mod casts;
#[cfg(test)]
mod checks;
#[cfg(test)]
mod events;
#[cfg(test)]
mod expressions;
#[cfg(test)]
mod faults;
#[cfg(test)]
mod items;
#[cfg(test)]
mod limits;
#[cfg(test)]
mod listener;
#[cfg(test)]
mod long;
#[cfg(test)]
mod names;
#[cfg(test)]
mod nodes;
#[cfg(test)]
mod printed;
#[cfg(test)]
mod special_names;
#[cfg(test)]
mod texts;
#[cfg(test)]
mod types;
