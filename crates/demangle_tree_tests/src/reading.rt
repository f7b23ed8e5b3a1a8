//! Nodes and tables that are read. They are let go by calls, since each other crate that drops one proves the drops of
//! all node types anew.

use demangle_discard::Discard;
use demangle_entries::{Substitutable, TypeHandle};
use demangle_leaf_rows::ParseContext;
use demangle_parse::Parse;
use demangle_release::release_table;
use demangle_table::SubstitutionTable;
use demangle_text::{IndexStr, ParseOptions};
use std::alloc::Global;

/// With so many levels each name here is read.
const READING_LEVELS: u32 = 1024;

/// The input without the blanks at its front: what is read then stands as far behind in it.
fn behind_blanks(bytes: &[u8]) -> IndexStr<'_> {
    let mut input = IndexStr::new(bytes);
    for _ in bytes {
        match input.next() {
            Some((b' ', rest)) => input = rest,
            _ => return input,
        }
    }
    input
}

/// The node that these bytes are; `None` where it isn't read, or bytes are left.
pub fn read<X: Parse + Discard>(
    alloc: Global,
    subs: &mut SubstitutionTable,
    bytes: &[u8],
) -> Option<X> {
    let mut ctx = ParseContext::new(ParseOptions::default().recursion_limit(READING_LEVELS));
    match X::parse(alloc, &mut ctx, subs, behind_blanks(bytes)) {
        Ok((node, rest)) => {
            if rest.is_empty() {
                return Some(node);
            }
            node.discard();
            None
        }
        Err(_) => None,
    }
}

/// The table of the type that these bytes are.
pub fn table_of(alloc: Global, bytes: &[u8]) -> Option<SubstitutionTable> {
    let mut subs = SubstitutionTable::new(alloc);
    if let Some(_) = read::<TypeHandle>(alloc, &mut subs, bytes) {
        return Some(subs);
    }
    release_table(subs);
    None
}

/// The component of this number, the others being counted behind the numbered ones.
pub fn component(subs: &SubstitutionTable, idx: usize) -> Option<&Substitutable> {
    match idx.checked_sub(subs.len()) {
        Some(other) => subs.get_non_substitution(other),
        None => subs.get(idx),
    }
}
