//! Listeners that refuse a piece of the text.

use crate::checks::{holds, same};
use crate::listener::Listener;
use crate::printed::print_name;
use demangle_scope::{DemangleError, DemangleOptions, SinkFault};
use std::alloc::Global;

/// More writes than any of the names has.
const MOST_WRITES: usize = 200;

/// Names with nodes in nodes, with items that wait and are kept, with numbers and operators.
static NAMES: [&str; 4] = [
    "_ZN1a1bEv",
    "_ZN1AcvT_IiEI1CEEv",
    "_Z1fM1aKFvN1b1cEE",
    "_Z1fIiEDTgsnwLi1ELi2E_T_piEET_",
];

/// How many writes a name has, where each that is refused ends the printing with this error: what was told is what had
/// been told before, and behind it come ends of nodes alone, no more than stood open.
fn writes(alloc: Global, name: &[u8], cause: SinkFault, wanted: DemangleError) -> Option<usize> {
    let mut whole = Listener::new(alloc);
    print_name(alloc, name, DemangleOptions::new(), &mut whole)?.ok()?;
    for write in 0..MOST_WRITES {
        let mut listener = Listener::refusing(alloc, write, cause);
        match print_name(alloc, name, DemangleOptions::new(), &mut listener)? {
            Ok(()) => return Some(write),
            Err(error) => {
                let is_front = whole
                    .told()
                    .as_bytes()
                    .starts_with(listener.told().as_bytes());
                if error != wanted || !is_front || !listener.is_in_order() {
                    return None;
                }
            }
        }
    }
    None
}

#[test]
fn a_refused_write_ends_the_printing(rt: HostRuntime) {
    for name in &NAMES {
        let bytes = name.as_bytes();
        let failed = writes(rt.alloc(), bytes, SinkFault::Failed, DemangleError::Sink);
        holds(&rt, *name, failed.unwrap_or(0) > 3);
        let refused = writes(
            rt.alloc(),
            bytes,
            SinkFault::OutOfMemory,
            DemangleError::OutOfMemory,
        );
        same(&rt, *name, refused, failed);
    }
}
