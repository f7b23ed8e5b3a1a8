//! The components of a name, of any type, in the order in which they were completed.
#![tactic(auto)]

mod component;
mod components;

pub use component::{Component, CopyComponent};
pub use components::Components;
