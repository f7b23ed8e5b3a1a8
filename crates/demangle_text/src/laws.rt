//! What holds of identifiers and slices. Nothing here runs: each function is a law, and its contract is the statement.

ghost use Rattle.demangle_text.specs.Spot.{EqualSpots};
ghost use Rattle.demangle_text.specs.Characters.{RunIsInside, RunIsChars, RunIsLongest, RunIsWhole, RunBegins};
ghost use Rattle.demangle_text.specs.Characters.{CharsAreText};

/// `==` of two slices holds exactly where their indexes and their bytes are equal.
pub fn equal_is_same()
    ensures { EqualSpots }
{}

/// A run lies in the bytes.
pub fn run_is_inside()
    ensures { RunIsInside }
{}

/// A run is characters of an identifier.
pub fn run_is_chars()
    ensures { RunIsChars }
{}

/// A run goes on behind characters of an identifier: none of them ends a longer one.
pub fn run_is_longest()
    ensures { RunIsLongest }
{}

/// Bytes are characters of an identifier just where their run is the whole.
pub fn run_is_whole()
    ensures { RunIsWhole }
{}

/// A run begins with a byte with which a character of an identifier can begin.
pub fn run_begins()
    ensures { RunBegins }
{}

/// Characters of an identifier are UTF-8, so that their bytes can be taken as a `str`.
pub fn chars_are_text()
    ensures { CharsAreText }
{}
