//! The options of a line filter.

use demangle_context::DemangleOptions;
use demangle_text::ParseOptions;

/// How lines are filtered: how names are read and printed, which lines are asked for their text, and whether the cause
/// is shown where one has none.
#[derive(Clone, Copy, Debug, Default)]
pub struct FilterOptions {
    /// How a name is read.
    pub parse: ParseOptions,
    /// How the tree of a name is printed.
    pub print: DemangleOptions,
    /// Whether every line is asked for its text, and not only one that begins as a linker name.
    pub types: bool,
    /// Whether a line that was asked and has no text is followed by a tab and the cause.
    pub why: bool,
}
