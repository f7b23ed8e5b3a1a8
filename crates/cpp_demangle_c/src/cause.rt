//! What a code says, in English.

ghost use Rattle.std.specs.Prelude.{◌≡◌, length, option_map};
ghost use Rattle.cpp_demangle_c.specs.Causes.{cause_code, cause_len, cause_room, cause_text};

use crate::codes::{BAD_LENGTH, BAD_OPTION, DONE, NO_ROOM, UNKNOWN_CODE, fault_at};
use crate::text::{hand_out, is_length};

/// What a code says; `None` for a number that is no code.
fn cause_text(code: u32) -> Option<&'static str>
    ensures { option_map (λ text. text.now) result ≡ cause_text code }
{
    match code {
        DONE => Some("done"),
        NO_ROOM => Some("text is longer than the buffer"),
        BAD_OPTION => Some("option is out of its range"),
        BAD_LENGTH => Some("length is out of its range"),
        UNKNOWN_CODE => Some("unknown code"),
        _ => match fault_at(code) {
            Some(fault) => Some(fault.text()),
            None => None,
        },
    }
}

/// Puts what a code says at the front of the room, as `cpp_demangle_text` does a name's text: `DONE` or `NO_ROOM`; and
/// `UNKNOWN_CODE` for a number that is no code.
#[unsafe(no_mangle)]
pub extern "C" fn cpp_demangle_cause_text(code: u32, room: &mut [u8], text_len: &mut usize) -> u32
    ensures code { result ≡ cause_code (cause_text code) (length room.old) }
    ensures room { room.new ≡ cause_room (cause_text code) room.old }
    ensures text_len { text_len.new ≡ cause_len (cause_text code) }
{
    *text_len = 0;
    if !is_length(room.len()) {
        return BAD_LENGTH;
    }
    match cause_text(code) {
        Some(text) => hand_out(text.as_bytes(), room, text_len),
        None => UNKNOWN_CODE,
    }
}
