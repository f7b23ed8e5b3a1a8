//! What holds of the nodes' trees. Nothing here runs: each function is a law, and its contract is the statement.

ghost use Rattle.demangle_nodes.specs.Laws.{EqualityLeavesPlacesOut, TreesKeepPlaces};

/// Argument lists that hold the same are equal wherever they stand.
pub fn equality_leaves_places_out()
    ensures { EqualityLeavesPlacesOut }
{}

/// Argument lists with the same tree stand at the same place. A copy has the tree of what is copied, and so its place.
pub fn trees_keep_places()
    ensures { TreesKeepPlaces }
{}
