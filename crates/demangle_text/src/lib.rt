//! What every reader of a mangled name stands on: slices that know their index in the input, words and numbers of the
//! grammar, identifiers in UTF-8, the options of reading, and the errors.
#![tactic(auto)]

mod error;
mod identifier;
mod index_str;
mod laws;
mod number;
mod options;
mod word;

pub use error::{Error, Result};
pub use identifier::identifier_len;
pub use index_str::IndexStr;
pub use laws::{
    chars_are_text, equal_is_same, run_begins, run_is_chars, run_is_inside, run_is_longest,
    run_is_whole,
};
pub use number::{parse_number, parse_unsigned};
pub use options::ParseOptions;
pub use word::consume;
