//! Whether the nodes of a name are made out of its cells.

use demangle_cells::Arena;
use demangle_discard::Discard;
use demangle_nodes_from_cells::{mangled_name_from, substitutable_from};
use demangle_read::read_whole;
use demangle_text::{ParseOptions, Result};
use std::alloc::Global;

/// More components than any name here has.
const MANY: u32 = 64;

/// Whether something was made; it is let go.
fn is_made<X: Discard>(answer: Result<X>) -> bool {
    match answer {
        Ok(node) => {
            node.discard();
            true
        }
        Err(_) => false,
    }
}

fn numbered_are_made(alloc: Global, arena: &Arena) -> bool {
    for number in 0..MANY {
        if let Some(id) = arena.numbered(number) {
            if !is_made(substitutable_from(alloc, arena, id)) {
                return false;
            }
        }
    }
    true
}

fn others_are_made(alloc: Global, arena: &Arena) -> bool {
    for number in 0..MANY {
        if let Some(id) = arena.other(number) {
            if !is_made(substitutable_from(alloc, arena, id)) {
                return false;
            }
        }
    }
    true
}

/// The number of the first name that isn't read, or of which a node isn't made.
pub(crate) fn first_not_made(alloc: Global, arena: &mut Arena, names: &[&[u8]]) -> Option<usize> {
    let options = ParseOptions::default();
    for (i, bytes) in names.iter().enumerate() {
        let Ok(id) = read_whole(arena, bytes, &options) else {
            return Some(i);
        };
        if !is_made(mangled_name_from(alloc, arena, id)) {
            return Some(i);
        }
        if !numbered_are_made(alloc, arena) || !others_are_made(alloc, arena) {
            return Some(i);
        }
    }
    None
}
