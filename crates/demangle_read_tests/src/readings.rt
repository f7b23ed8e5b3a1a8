//! The tests.

use crate::answers::{first_wrong_crafted, first_wrong_front, first_wrong_whole};
use crate::checks::same;
use crate::names::{CRAFTED, FRONTS, WHOLES};
use demangle_cells::Arena;

#[test]
fn names_are_read_into_one_arena(rt: HostRuntime) {
    let alloc = rt.alloc();
    let mut arena = Arena::new(alloc);
    let wrong = first_wrong_front(alloc, &mut arena, &FRONTS);
    same(&rt, "fronts", wrong, None);
    let wrong = first_wrong_whole(alloc, &mut arena, &WHOLES);
    same(&rt, "wholes", wrong, None);
    // once more, in the room that the arena kept
    let wrong = first_wrong_front(alloc, &mut arena, &FRONTS);
    same(&rt, "fronts again", wrong, None);
}

#[test]
fn crafted_names_are_read(rt: HostRuntime) {
    let alloc = rt.alloc();
    let mut arena = Arena::new(alloc);
    let wrong = first_wrong_crafted(alloc, &mut arena, &CRAFTED);
    same(&rt, "crafted", wrong, None);
}
