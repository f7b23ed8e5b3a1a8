//! What a reading of a row can see of the components before it. Nothing here runs: each function is a law, and its
//! contract is the statement.
#![tactic(auto)]

ghost use Rattle.demangle_outline.specs.Outline.{SameRefusals, SameEnds, MoreLevels};

/// Where a row is refused, it is refused for the same with any table of the same outline, and where no `S` is left,
/// with any table at all.
pub fn same_refusals()
    ensures { SameRefusals }
{}

/// Where a row is found, one is found with any such table that ends at the same place, and the tables behind both
/// agree again.
pub fn same_ends()
    ensures { SameEnds }
{}

/// A reading that isn't refused for its depth is the same with more levels.
pub fn more_levels()
    ensures { MoreLevels }
{}
