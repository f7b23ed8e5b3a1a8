//! The words of the command line.

ghost use Rattle.std.specs.Prelude.{◌≡◌, drop};

use std::alloc::AllocError;
use std::env::{self, Env};
use std::io::ErrorKind;

/// Why the words of a process can't be had.
#[derive(Clone, Copy, Debug, PartialEq, Eq)]
pub enum NoWords {
    /// Some word isn't text.
    NoText,
    /// There was no memory for them.
    OutOfMemory,
}

impl From<AllocError> for NoWords {
    fn from(_error: AllocError) -> NoWords {
        NoWords::OutOfMemory
    }
}

/// The words after the program's name.
pub fn words(rt: &(impl Env + AllocGlobal)) -> Result<Vec<String>, NoWords> {
    match env::args(rt) {
        Ok(arguments) => Ok(words_of(arguments.collect(rt.alloc())?)),
        Err(error) => Err(match error.kind() {
            ErrorKind::OutOfMemory => NoWords::OutOfMemory,
            _ => NoWords::NoText,
        }),
    }
}

/// All but the first of a process's arguments, which is the program's name.
pub fn words_of(arguments: Vec<String>) -> Vec<String>
    ensures { result.items ≡ drop 1 arguments.items }
{
    let mut words = arguments;
    if !words.is_empty() {
        words.remove(0);
    }
    words
}
