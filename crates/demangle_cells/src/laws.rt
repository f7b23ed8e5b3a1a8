//! What holds of every arena.

ghost use Rattle.demangle_cells.specs.Model.{model};
ghost use Rattle.demangle_cells.specs.View.{Holds, view};

use crate::arena::Arena;

/// There is always one that says what each index stands for, so no contract that speaks of each such one is empty.
#[tactic(auto, using(crate::proofs::Exists::model_holds), unfolding(crate::specs::View::view))]
pub fn each_arena_has_a_model(arena: &Arena)
    ensures { Holds (model (view arena.now)) (view arena.now) }
{}
