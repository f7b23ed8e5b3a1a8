//! What the recursion costs at run time.

use demangle_cells::{Arena, Depth, Part, Text};
use demangle_read_below::Tied;
use demangle_text::{Error, Result};
use std::mem::{size_of, size_of_val};

fn refused(_arena: &mut Arena, _depth: Depth, _text: Text<'_>, _at: u32) -> Result<Part> {
    Err(Error::OutOfMemory)
}

#[test]
fn functions_passed_by_name_hold_no_data(rt: HostRuntime) {
    let tied = Tied {
        most: Depth {
            levels: 0,
            conversion: false,
        },
        type_handle: refused,
        expression: refused,
        template_arg: refused,
        name: refused,
        encoding: refused,
        mangled_name: refused,
    };
    assert_eq!(rt; size_of_val(&tied), size_of::<Depth>());
}
