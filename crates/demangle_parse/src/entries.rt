//! Components of an arena, put into the caller's table.

ghost use Rattle.std.specs.Prelude.{◌≡◌, ◌++◌, ℕ, map, MatchResult};
ghost use Rattle.demangle_text.specs.declared.error.Error.TheVariants.{OutOfMemory};
ghost use Rattle.demangle_core.specs.Core.{Core};
ghost use Rattle.demangle_core.specs.Table.{added, cut, sizes};
ghost use Rattle.demangle_table.specs.TableOf.{table_of};
ghost use Rattle.demangle_cells.specs.View.{view, which_of, entry, Holds};

use demangle_cells::{Arena, Entry};
use demangle_discard::Discard;
use demangle_nodes_from_cells::substitutable_from;
use demangle_table::SubstitutionTable;
use demangle_text::{Error, Result};
use std::alloc::Global;

/// A component more.
#[tactic(auto, using(demangle_core::proofs::Cuts::cuts))]
fn take_entry(
    alloc: Global,
    arena: &Arena,
    component: Entry,
    subs: &mut SubstitutionTable,
) -> Result<()>
    ensures kept { cut (sizes (table_of subs.old)) (table_of subs.new) ≡ table_of subs.old }
    ensures added { MatchResult result
        (λ _. (F : ℕ → Core) → Holds F (view arena.now)
        → table_of subs.new ≡ added (which_of component.numbered) (F component.id) (table_of subs.old))
        (λ e. e ≡ OutOfMemory) }
{
    let node = substitutable_from(alloc, arena, component.id)?;
    let answer = if component.numbered {
        subs.insert(node)
    } else {
        subs.insert_non_substitution(node)
    };
    match answer {
        Ok(_) => Ok(()),
        Err(node) => {
            node.discard();
            Err(Error::OutOfMemory)
        }
    }
}

/// These components more. Where it fails the table may have some of them. `OutOfMemory` is its only refusal.
#[tactic(auto, using(demangle_core::proofs::Cuts::cuts))]
pub fn take_entries(
    alloc: Global,
    arena: &Arena,
    components: &[Entry],
    subs: &mut SubstitutionTable,
) -> Result<()>
    ensures kept { cut (sizes (table_of subs.old)) (table_of subs.new) ≡ table_of subs.old }
    ensures added { MatchResult result
        (λ _. (F : ℕ → Core) → Holds F (view arena.now)
        → table_of subs.new ≡ table_of subs.old ++ map (entry F) components.now)
        (λ e. e ≡ OutOfMemory) }
{
    for component in components {
        take_entry(alloc, arena, *component, subs)?;
    }
    Ok(())
}
