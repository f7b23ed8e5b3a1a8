//! The demangler for programs of C. include/cpp_demangle.h declares the exports with their promises, and has in C what
//! an export can't do.
#![tactic(auto)]

mod cause;
mod codes;
mod filling;
mod parts;
mod settings;
mod text;
mod version;

pub use cause::cpp_demangle_cause_text;
pub use parts::{Places, cpp_demangle_parts};
pub use settings::Settings;
pub use text::cpp_demangle_text;
pub use version::cpp_demangle_version;
