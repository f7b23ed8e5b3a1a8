//! What holds of what is due, as contracts of functions that do nothing.

ghost use Rattle.cppfilt_lines.specs.Laws.{DueJoins, EndingsStay, LinesJoin, UnaskedLineStays, UnaskedStays};

/// The lines of an input, joined, are the input.
pub fn lines_join()
    ensures { LinesJoin }
{}

/// A line is its bytes and then its ending: nothing, a line feed, a carriage return, or both. What is due for it is
/// what its bytes become, and then that ending.
pub fn endings_stay()
    ensures { EndingsStay }
{}

/// What is due for a line that isn't asked is the line, and for an input without asked lines the input.
pub fn unasked_stays()
    ensures line { UnaskedLineStays }
    ensures input { UnaskedStays }
{}

/// What is due for two inputs, joined behind a line feed of the first, is what is due for each, joined.
pub fn due_joins()
    ensures { DueJoins }
{}
