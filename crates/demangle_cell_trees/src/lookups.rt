//! What is looked up in names and types.

ghost use Rattle.std.specs.Prelude.{◌≡◌, ◌≤◌, ℕ, Option, option_map};
ghost use Rattle.demangle_core.specs.Lookups.{after, answer_of, refers, settled, step_from};
ghost use Rattle.demangle_cells.specs.Fixed.{first_reference};
ghost use Rattle.demangle_cells.specs.Tags.{tag_of};
ghost use Rattle.demangle_cells.specs.declared.arena.Arena.{Arena};
ghost use Rattle.demangle_cell_trees.specs.ArenaTrees.{table_of, tree_at};
ghost use Rattle.demangle_cell_trees.specs.Codes.{IsPart};
ghost use Rattle.demangle_cell_trees.specs.NodeTrees.{node_tree};
ghost use Rattle.demangle_cell_trees.specs.Steps.{arguments_in, component_in, holds_it};
ghost use Rattle.demangle_cell_trees.specs.Steps.{part_says, step_in, step_of};
ghost use Rattle.demangle_cell_trees.specs.declared.roles.Sought.{Sought};

use crate::cells::{FIRST_OTHER_REFERENCE, FIRST_REFERENCE, cell_at, entry_count, numbered, other};
use crate::codes::{FIRST_INSIDE, NONE, low_half};
use crate::node::Node;
use crate::roles::Sought;
use crate::rows::{index_in, row_tag};
use crate::turns::{
    ELSE_FIRST, FIRST_NUMBERED, FIRST_OTHER, PAST_STEPS, index_at, is_step, other_part, turn_at,
};
use demangle_cells::{Arena, Tag};

/// The step to the component of a reference.
#[inline(always)]
fn reference_step(id: u32) -> u64
    requires { first_reference ≤ id }
    ensures { (s : Sought) (a : Arena) → step_of a result ≡ step_in s (tree_at a id) }
{
    if id >= FIRST_OTHER_REFERENCE {
        return FIRST_OTHER + (id - FIRST_OTHER_REFERENCE) as u64;
    }
    FIRST_NUMBERED + (id - FIRST_REFERENCE) as u64
}

/// Where a look-up comes to in a tree.
pub(crate) fn node_step(sought: Sought, arena: &Arena, id: u32) -> u64
    ensures { step_of arena.now result ≡ step_in sought (tree_at arena.now id) }
{
    if id >= FIRST_REFERENCE {
        return reference_step(id);
    }
    let turn = turn_at(sought, arena, id);
    if is_step(turn) {
        return turn;
    }
    if turn < ELSE_FIRST {
        return node_step(sought, arena, low_half(turn));
    }
    let step = node_step(sought, arena, low_half(turn));
    if step < PAST_STEPS {
        return step;
    }
    let second = index_at(arena, id, other_part(turn));
    if second < FIRST_INSIDE {
        return node_step(sought, arena, second as u32);
    }
    NONE
}

/// Whether a component with this tag may hold what is looked up, in its one part.
fn holds_it(sought: Sought, tag: Tag) -> bool
    ensures { result ≡ holds_it sought (tag_of tag) }
{
    match sought {
        Sought::PrefixArguments => match tag {
            Tag::SubstitutablePrefix => true,
            _ => false,
        },
        Sought::TypeArguments => match tag {
            Tag::SubstitutableTypeNode => true,
            _ => false,
        },
        Sought::LeafName => false,
        Sought::Special => false,
    }
}

/// Where a look-up comes to in a part, if it is there.
fn part_step(sought: Sought, arena: &Arena, part: u64) -> u64
    ensures { (o : Option ℕ) → IsPart o part
        → step_of arena.now result ≡ part_says sought (option_map (tree_at arena.now) o) }
{
    if part < FIRST_INSIDE {
        return node_step(sought, arena, part as u32);
    }
    NONE
}

/// Where a look-up of template arguments comes to in a component.
fn arguments_step(sought: Sought, arena: &Arena, id: u32) -> u64
    ensures { step_of arena.now result ≡ arguments_in sought (tree_at arena.now id) }
{
    let cell = cell_at(arena, id);
    let Some(tag) = row_tag(cell) else {
        return NONE;
    };
    if holds_it(sought, tag) {
        part_step(sought, arena, index_in(arena, cell, 0))
    } else {
        NONE
    }
}

/// Where a look-up comes to in a component.
fn component_step(sought: Sought, arena: &Arena, id: u32) -> u64
    ensures { step_of arena.now result ≡ component_in sought (tree_at arena.now id) }
{
    match sought {
        Sought::LeafName => node_step(sought, arena, id),
        Sought::Special => node_step(sought, arena, id),
        Sought::PrefixArguments => arguments_step(sought, arena, id),
        Sought::TypeArguments => arguments_step(sought, arena, id),
    }
}

/// Where a look-up comes to in a component, if it is there.
fn found_step(sought: Sought, found: Option<u32>, subs: &Arena) -> u64
    ensures { step_of subs.now result ≡ step_from (component_in sought) (option_map (tree_at subs.now) found) }
{
    match found {
        None => NONE,
        Some(id) => component_step(sought, subs, id),
    }
}

/// One turn: a component gives way to where its own step comes to.
pub(crate) fn after(sought: Sought, step: u64, subs: &Arena) -> u64
    ensures { step_of subs.now result ≡ after (component_in sought) (table_of subs.now) (step_of subs.now step) }
{
    let number = low_half(step);
    match step / FIRST_INSIDE {
        1 => found_step(sought, numbered(subs, number), subs),
        2 => found_step(sought, other(subs, number), subs),
        _ => step,
    }
}

/// Whether it has come to a component.
#[inline(always)]
pub(crate) fn refers(step: u64) -> bool
    ensures { (a : Arena) → result ≡ refers (step_of a step) }
{
    step >= FIRST_NUMBERED && step < PAST_STEPS
}

/// The answer, where it has come to one.
#[inline(always)]
pub(crate) fn answer_of<'a>(arena: &'a Arena, step: u64) -> Option<Node<'a>>
    ensures { option_map node_tree result ≡ answer_of (step_of arena.now step) }
{
    if step < FIRST_NUMBERED {
        return Some(Node { arena, at: step });
    }
    None
}

/// What is looked up from the step to a component on. References are followed by a loop, at most as often as there are
/// components.
#[tactic(auto, using(demangle_core::proofs::Resolved::following))]
pub(crate) fn settled(sought: Sought, first: u64, subs: &Arena) -> u64
    ensures { answer_of (step_of subs.now result)
        ≡ settled (component_in sought) (table_of subs.now) (step_of subs.now first) }
{
    let mut step = first;
    let mut more = entry_count(subs);
    while more > 0 && refers(step) {
        step = after(sought, step, subs);
        more -= 1;
    }
    step
}
