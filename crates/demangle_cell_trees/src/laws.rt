//! What holds of every arena.

ghost use Rattle.demangle_cells.specs.View.{Holds, view};
ghost use Rattle.demangle_cell_trees.specs.ArenaTrees.{tree_at};

use demangle_cells::Arena;

/// The trees of nodes are what each index stands for.
#[tactic(auto, using(crate::proofs::Hold::trees_hold))]
pub fn each_arena_has_trees(arena: &Arena)
    ensures { Holds (tree_at arena.now) (view arena.now) }
{}
