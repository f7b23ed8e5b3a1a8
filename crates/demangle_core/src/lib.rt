//! Plain trees, of which the contracts of the syntax tree and the definitions of the grammar speak, and tables of them.
//! Nothing here runs: each function is a law, and its contract is the statement.
#![tactic(auto)]

ghost use Rattle.demangle_core.specs.Laws.{CutTakesBack, LookupsEnd};
ghost use Rattle.demangle_core.specs.Laws.{EqualityIsAnEquivalence, EqualityOfTablesIsAnEquivalence};

/// Equality of trees, which leaves the place of argument lists out, is reflexive and symmetric, and equal trees are
/// equal to the same trees.
pub fn equality_is_an_equivalence()
    ensures { EqualityIsAnEquivalence }
{}

/// So is equality of tables, which compares both lists and leaves out the order between them.
pub fn equality_of_tables_is_an_equivalence()
    ensures { EqualityOfTablesIsAnEquivalence }
{}

/// What was added to a table is taken back by a cut to the sizes before.
pub fn cut_takes_back()
    ensures { CutTakesBack }
{}

/// Where the references of a node and of its table are sound, each look-up ends by itself: after as many turns as the
/// table has entries there is no reference left to follow, and more turns change nothing. An addition to the original.
pub fn lookups_end()
    ensures { LookupsEnd }
{}
