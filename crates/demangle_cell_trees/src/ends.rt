//! Where the look-ups of components end.

ghost use Rattle.std.specs.Prelude.{◌≡◌, ◌+◌, ◌<◌, ◌≤◌, ℕ, suc, false, IfSome, IfOk};
ghost use Rattle.demangle_core.specs.Core.{N, U};
ghost use Rattle.demangle_core.specs.Table.{size};
ghost use Rattle.demangle_cells.specs.declared.arena.Arena.{Arena};
ghost use Rattle.demangle_cell_trees.specs.ArenaTrees.{table_of};
ghost use Rattle.demangle_cell_trees.specs.Ends.{Kept, KeptAll, component_at, last_of, seat};
ghost use Rattle.demangle_cell_trees.specs.Steps.{component_in, step_of};
ghost use Rattle.demangle_cell_trees.specs.declared.roles.Sought.{Sought};

use crate::codes::low_half;
use crate::lookups::{after, refers};
use crate::roles::Sought;
use crate::turns::{FIRST_NUMBERED, FIRST_OTHER, PAST_STEPS};
use demangle_cells::Arena;
use std::alloc::{AllocError, Global};

/// Where the end of a component's look-up is kept: the numbered ones first, then the others.
fn slot_of(split: u32, step: u64) -> Option<usize>
    ensures { IfSome result (λ i. (a : Arena) → component_at split i ≡ step_of a step) }
{
    let number = low_half(step);
    if step >= FIRST_NUMBERED && step < FIRST_OTHER && number < split {
        return Some(number as usize);
    }
    if step >= FIRST_OTHER && step < PAST_STEPS {
        return Some(split as usize + number as usize);
    }
    None
}

/// The step to the component at which a look-up that has come to this one ends; 0 where that isn't known.
pub(crate) fn end_at(ends: &[u64], split: u32, step: u64) -> u64
    ensures { (s : Sought) (a : Arena) (m : ℕ) → Kept s a split m ends.now → 0 < result
        → seat (last_of (component_in s) (table_of a) m (step_of a step)) ≡ result }
{
    match slot_of(split, step) {
        None => 0,
        Some(slot) => match ends.get(slot) {
            None => 0,
            Some(end) => *end,
        },
    }
}

/// The same by its own step: the component itself where this is the last one.
fn end_of(sought: Sought, arena: &Arena, ends: &[u64], split: u32, step: u64) -> u64
    ensures { (m : ℕ) → Kept sought arena.now split m ends.now → 0 < result
        → seat (last_of (component_in sought) (table_of arena.now) (suc m) (step_of arena.now step)) ≡ result }
{
    if !refers(step) {
        return 0;
    }
    let next = after(sought, step, arena);
    if refers(next) {
        end_at(ends, split, next)
    } else {
        step
    }
}

/// Keeps the end of a component, and answers whether it is known.
fn keep(sought: Sought, arena: &Arena, ends: &mut [u64], split: u32, step: u64) -> bool
    ensures more { (m : ℕ) → Kept sought arena.now split m ends.old → Kept sought arena.now split (suc m) ends.new }
    ensures same { result ≡ false → ends.new ≡ ends.old }
{
    let end = end_of(sought, arena, ends, split, step);
    if end == 0 {
        return false;
    }
    if let Some(slot) = slot_of(split, step) {
        if slot < ends.len() {
            ends[slot] = end;
        }
    }
    true
}

/// Where the look-ups of so many components end. They come in the order in which they were completed, as far as they
/// refer to each other: a numbered one waits for others that it refers to. Where components refer to later ones, the
/// ends of some are not known.
pub(crate) fn ends_of(
    alloc: Global,
    sought: Sought,
    arena: &Arena,
    split: u32,
    total: usize,
) -> Result<Vec<u64>, AllocError>
    requires { total ≤ size N (table_of arena.now) + size U (table_of arena.now) }
    ensures { IfOk result (λ v. KeptAll sought arena.now split v.items) }
{
    let mut ends = vec![in alloc; 0; total]?;
    let mut numbered = FIRST_NUMBERED;
    let mut others = FIRST_OTHER;
    let behind = FIRST_NUMBERED + split as u64;
    for _round in 0..total {
        if numbered < behind && keep(sought, arena, &mut ends, split, numbered) {
            numbered += 1;
        } else {
            let _kept = keep(sought, arena, &mut ends, split, others);
            others = (others + 1).min(PAST_STEPS);
        }
    }
    Ok(ends)
}
