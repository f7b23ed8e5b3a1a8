//! The tests.

use crate::checks::same;
use crate::made::first_not_made;
use crate::names::{FIRST, SECOND};
use demangle_cells::Arena;

#[test]
fn every_node_is_made_out_of_its_cells(rt: HostRuntime) {
    let alloc = rt.alloc();
    let mut arena = Arena::new(alloc);
    let wrong = first_not_made(alloc, &mut arena, &FIRST);
    same(&rt, "first", wrong, None);
    let wrong = first_not_made(alloc, &mut arena, &SECOND);
    same(&rt, "second", wrong, None);
}
