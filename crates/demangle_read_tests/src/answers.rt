//! What a reading answers, as one text.

use demangle_cells::{Arena, Plain, Tag};
use demangle_read::{read_front, read_whole};
use demangle_text::ParseOptions;
use std::alloc::{AllocError, Global};

/// The bytes, the limit on levels, and what the reading answers.
pub(crate) type Reading = (&'static [u8], u32, &'static str);

/// A front, a unit with how often it comes, what stands behind, the limit on levels, and what reading all of it
/// answers.
pub(crate) type Crafted = (
    &'static [u8],
    &'static [u8],
    usize,
    &'static [u8],
    u32,
    &'static str,
);

/// More components than any name here has.
const MANY: u32 = 64;

fn numbered(arena: &Arena) -> u32 {
    for number in 0..MANY {
        if arena.numbered(number).is_none() {
            return number;
        }
    }
    MANY
}

fn others(arena: &Arena) -> u32 {
    for number in 0..MANY {
        if arena.other(number).is_none() {
            return number;
        }
    }
    MANY
}

fn root(arena: &Arena, id: u32) -> &'static str {
    match arena.cell(id) {
        Some(Plain::Two(Tag::MangledNameEncoding, _, _)) => "encoding",
        Some(Plain::Two(Tag::MangledNameBlockInvoke, _, _)) => "block",
        Some(Plain::One(Tag::MangledNameTopLevelType, _)) => "type",
        Some(Plain::One(Tag::MangledNameGlobalCtorDtor, _)) => "global",
        _ => "none",
    }
}

fn front(alloc: Global, arena: &mut Arena, bytes: &[u8], limit: u32) -> Result<String, AllocError> {
    let options = ParseOptions::default().recursion_limit(limit.max(1));
    match read_front(arena, bytes, &options) {
        Ok(name) => {
            let (root, end) = (root(arena, name.id), name.end);
            let (numbered, others) = (numbered(arena), others(arena));
            format!(in alloc; "{root} {end}, components {numbered} {others}")
        }
        Err(error) => format!(in alloc; "{error:?}"),
    }
}

fn whole(alloc: Global, arena: &mut Arena, bytes: &[u8], limit: u32) -> Result<String, AllocError> {
    let options = ParseOptions::default().recursion_limit(limit.max(1));
    match read_whole(arena, bytes, &options) {
        Ok(id) => {
            let root = root(arena, id);
            let (numbered, others) = (numbered(arena), others(arena));
            format!(in alloc; "{root}, components {numbered} {others}")
        }
        Err(error) => format!(in alloc; "{error:?}"),
    }
}

fn is_text(answer: Result<String, AllocError>, wanted: &str) -> bool {
    match answer {
        Ok(text) => text.as_str() == wanted,
        Err(_) => false,
    }
}

/// The number of the first name whose front is read otherwise than its text says, all into this arena.
pub(crate) fn first_wrong_front(
    alloc: Global,
    arena: &mut Arena,
    readings: &[Reading],
) -> Option<usize> {
    for (i, reading) in readings.iter().enumerate() {
        let (bytes, limit, wanted) = *reading;
        let answer = front(alloc, arena, bytes, limit);
        if !is_text(answer, wanted) {
            return Some(i);
        }
    }
    None
}

/// The same, read whole.
pub(crate) fn first_wrong_whole(
    alloc: Global,
    arena: &mut Arena,
    readings: &[Reading],
) -> Option<usize> {
    for (i, reading) in readings.iter().enumerate() {
        let (bytes, limit, wanted) = *reading;
        let answer = whole(alloc, arena, bytes, limit);
        if !is_text(answer, wanted) {
            return Some(i);
        }
    }
    None
}

/// The bytes of a crafted name.
fn made(alloc: Global, crafted: &Crafted) -> Result<Vec<u8>, AllocError> {
    let (front, unit, times, behind, _, _) = *crafted;
    let mut bytes = Vec::new(alloc);
    bytes.extend_from_slice(front)?;
    for _ in 0..times {
        bytes.extend_from_slice(unit)?;
    }
    bytes.extend_from_slice(behind)?;
    Ok(bytes)
}

/// The number of the first crafted name that is read whole otherwise than its text says.
pub(crate) fn first_wrong_crafted(
    alloc: Global,
    arena: &mut Arena,
    names: &[Crafted],
) -> Option<usize> {
    for (i, name) in names.iter().enumerate() {
        let (_, _, _, _, limit, wanted) = *name;
        match made(alloc, name) {
            Ok(bytes) => if !is_text(whole(alloc, arena, &bytes, limit), wanted) {
                return Some(i);
            },
            Err(_) => return Some(i),
        }
    }
    None
}
