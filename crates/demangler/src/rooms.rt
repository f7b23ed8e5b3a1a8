//! Whether a name took so much room that it isn't kept for the next one.

use demangle_cells::Arena;

/// Room for more cells or indexes than these isn't kept, nor what a name of more bytes took.
const MOST_KEPT: u32 = 65_536;

/// The index of the first cell that isn't a constant.
const FIRST_CELL: u32 = 2304;

/// Whether the room that a name of so many bytes took is to be let go.
#[inline(always)]
pub(crate) fn is_giant(arena: &Arena, bytes: usize) -> bool {
    bytes > MOST_KEPT as usize
        || arena.cell(FIRST_CELL + MOST_KEPT).is_some()
        || !arena.indexes(MOST_KEPT, 1).is_empty()
}
