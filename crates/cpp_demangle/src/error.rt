//! The faults of the calls that read, print and write.

pub use demangle_scope::{DemangleError, SinkFault};
pub use demangle_text::{Error, Result};
