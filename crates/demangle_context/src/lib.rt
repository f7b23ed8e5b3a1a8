//! What printing code runs on, whatever the nodes are: the options of printing, the listener that is told the text, and
//! the context of a printing, with its level, its inner items and the room for its text.
#![tactic(auto)]

mod context;
mod error;
mod flag;
mod inner_items;
mod listener;
mod options;
mod steps;
mod text_sink;
mod trouble;

pub use context::{Context, DemangleFlags};
pub use error::{DemangleError, SinkFault};
pub use flag::PrintFlag;
pub use inner_items::{InnerBarrier, InnerItems, InnerNode};
pub use listener::{DemangleNodeType, DemangleWrite};
pub use options::DemangleOptions;
pub use steps::RefersTo;
pub use text_sink::TextSink;
pub use trouble::PrintFault;
