//! The caller's table, put into an arena.

ghost use Rattle.std.specs.Prelude.{◌≡◌, [], ◌∷◌, map, MatchResult};
ghost use Rattle.demangle_text.specs.declared.error.Error.TheVariants.{OutOfMemory};
ghost use Rattle.demangle_core.specs.Core.{N};
ghost use Rattle.demangle_components.specs.View.{all_of};
ghost use Rattle.demangle_entries.specs.TreeEntries.{tree_of_substitutable};
ghost use Rattle.demangle_table.specs.TableOf.{table_of};
ghost use Rattle.demangle_cells.specs.View.{view, which_of};
ghost use Rattle.demangle_parse.specs.Adds.{Adds, HasTable};

use crate::divided::divided;
use demangle_cells::Arena;
use demangle_entries::Substitutable;
use demangle_nodes_to_cells::substitutable_to;
use demangle_table::SubstitutionTable;
use demangle_text::Result;
use std::alloc::Global;

/// A component more.
#[tactic(auto, using(crate::proofs::Adding::adding))]
fn put(arena: &mut Arena, numbered: bool, node: &Substitutable) -> Result<()>
    ensures { MatchResult result
        (λ _. Adds (view arena.old) (view arena.new)
        (record { which = which_of numbered; tree = tree_of_substitutable node.now } ∷ []))
        (λ e. e ≡ OutOfMemory) }
{
    let id = substitutable_to(arena, node)?;
    arena.add(numbered, id)?;
    Ok(())
}

/// Numbered components more.
#[tactic(auto, using(crate::proofs::Adding::adding))]
fn put_numbered(arena: &mut Arena, nodes: &[Substitutable]) -> Result<()>
    ensures { MatchResult result
        (λ _. Adds (view arena.old) (view arena.new) (all_of N (map tree_of_substitutable nodes.now)))
        (λ e. e ≡ OutOfMemory) }
{
    for node in nodes {
        put(arena, true, node)?;
    }
    Ok(())
}

/// A new arena that has the components of the table, in the order in which they were completed. `OutOfMemory` is its
/// only refusal.
pub fn arena_of(alloc: Global, subs: &SubstitutionTable) -> Result<Arena>
    ensures { MatchResult result (λ a. HasTable (view a) (table_of subs.now)) (λ e. e ≡ OutOfMemory) }
{
    let mut arena = Arena::new(alloc);
    let (mut numbered, mut others, mut before) = subs.lists();
    let mut done = 0;
    while let ([other, more @ ..], [count, counts @ ..]) = (others, before) {
        let (front, rest) = divided(numbered, count.saturating_sub(done));
        put_numbered(&mut arena, front)?;
        put(&mut arena, false, other)?;
        (numbered, others, before, done) = (rest, more, counts, *count);
    }
    put_numbered(&mut arena, numbered)?;
    Ok(arena)
}
