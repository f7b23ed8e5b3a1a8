//! The text of a name in a buffer of C.

ghost use Rattle.std.specs.Prelude.{◌≡◌, ◌≢◌, ◌≤◌, ◌<◌, ◌^◌, ◌↔◌, IsTrue, Ok, Err, length, IfSome};
ghost use Rattle.demangler.specs.declared.fault.SymbolFault.TheVariants.{OutOfMemory};
ghost use Rattle.cpp_demangle_c.specs.Asked.{IsInRange, answer};
ghost use Rattle.cpp_demangle_c.specs.Codes.{fault_at};
ghost use Rattle.cpp_demangle_c.specs.Told.{HoldsText, LacksRoom, code_due, put, room_due};

use crate::codes::{BAD_LENGTH, BAD_OPTION, DONE, NO_ROOM, OUT_OF_MEMORY, code_of};
use crate::filling::text_of;
use crate::settings::Settings;
use std::alloc::Global;

/// The most bytes that a name or a room has.
const MOST_BYTES: usize = isize::MAX as usize;

/// Whether a length is one that a slice may have: what C tells is tested.
pub(crate) fn is_length(bytes: usize) -> bool
    ensures { IsTrue result ↔ (bytes < 2 ^ 63) }
{
    bytes <= MOST_BYTES
}

/// Puts a text at the front of the room, with a zero behind it where there is room for one.
pub(crate) fn put(text: &[u8], room: &mut [u8])
    requires { length text.now ≤ length room.old }
    ensures { room.new ≡ put text.now room.old }
{
    let end = text.len();
    room[..end].copy_from_slice(text);
    if end < room.len() {
        room[end] = 0;
    }
}

/// Puts a text into the room, where it is long enough, and tells how many bytes the text has.
pub(crate) fn hand_out(text: &[u8], room: &mut [u8], text_len: &mut usize) -> u32
    ensures code { result ≡ code_due (Ok text.now) (length room.old) }
    ensures room { room.new ≡ room_due (Ok text.now) room.old }
    ensures text_len { text_len.new ≡ length text.now }
{
    *text_len = text.len();
    if room.len() < text.len() {
        return NO_ROOM;
    }
    put(text, room);
    DONE
}

/// Puts the text of a linker name, whole, at the front of the room.
///
/// `DONE`: the text stands there, and a zero behind it where there is room for one. `NO_ROOM`: the text is longer than
/// the room. In both cases `text_len` is how many bytes it has, and otherwise 0. `BAD_OPTION` comes exactly where a
/// limit on levels is 0, `OUT_OF_MEMORY` where there is no memory, and each other code exactly where the name has no
/// text for that cause. But for `DONE` the room stays as it was.
#[unsafe(no_mangle)]
pub extern "C" fn cpp_demangle_text(
    alloc: Global,
    name: &[u8],
    options: &Settings,
    room: &mut [u8],
    text_len: &mut usize,
) -> u32
    ensures option { (result ≡ BAD_OPTION) ↔ ¬ IsInRange options.now }
    ensures code { IsInRange options.now → result ≢ OUT_OF_MEMORY
        → result ≡ code_due (answer options.now name.now) (length room.old) }
    ensures cause { IfSome (fault_at result) (λ f. f ≢ OutOfMemory → answer options.now name.now ≡ Err f) }
    ensures text { result ≡ DONE → HoldsText (answer options.now name.now) text_len.new room.old room.new }
    ensures no_room { result ≡ NO_ROOM → LacksRoom (answer options.now name.now) text_len.new room.old }
    ensures kept { result ≢ DONE → room.new ≡ room.old }
    ensures no_text { result ≢ DONE → result ≢ NO_ROOM → text_len.new ≡ 0 }
{
    *text_len = 0;
    if !is_length(name.len()) || !is_length(room.len()) {
        return BAD_LENGTH;
    }
    if !options.is_in_range() {
        return BAD_OPTION;
    }
    match text_of(alloc, name, options) {
        Ok(text) => hand_out(text.as_slice(), room, text_len),
        Err(fault) => code_of(fault),
    }
}
