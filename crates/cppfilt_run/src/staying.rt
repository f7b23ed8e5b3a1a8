//! Lines that stay as they are, found many at once: complete lines, none of which begins with the byte that linker
//! names begin with.

ghost use Rattle.std.specs.Prelude.{◌≡◌, ◌+◌, ◌<◌, ◌≤◌, true, not, length, take, MatchOption};
ghost use Rattle.cppfilt_run.specs.Staying.{begins_line, stays, stays_behind};

use crate::cutting::{CHUNK, LINE_FEED};

/// The byte that linker names begin with.
const UNDERSCORE: u8 = 95;

/// Whether a line begins at `at`, in bytes that begin with a new line.
fn begins_line(bytes: &[u8], at: usize) -> bool
    requires { at ≤ length bytes.now }
    ensures { result ≡ begins_line true (take at bytes.now) }
{
    at == 0 || bytes[at - 1] == LINE_FEED
}

/// Whether `_` stands just behind a line feed. Every byte is looked at, so that several can be tested at once.
fn has_underscore_line(bytes: &[u8]) -> bool
    ensures { result ≡ not (stays_behind bytes.now) }
{
    let mut seen = false;
    let mut i = 1;
    while i < bytes.len() {
        seen |= (bytes[i - 1] == LINE_FEED) & (bytes[i] == UNDERSCORE);
        i += 1;
    }
    seen
}

/// The index of a byte up to which, itself included, no line begins with `_`; found chunk by chunk.
fn staying_chunks(bytes: &[u8]) -> usize
    requires first { stays true (take 1 bytes.now) ≡ true }
    requires some { 0 < length bytes.now }
    ensures within { result < length bytes.now }
    ensures stays { stays true (take (result + 1) bytes.now) ≡ true }
{
    let mut at = 0;
    while bytes.len() - at > CHUNK && !has_underscore_line(&bytes[at..at + CHUNK + 1]) {
        at += CHUNK;
    }
    at
}

/// Where the first line behind the byte at `at` begins that begins with `_`; `None` where there is none.
fn underscore_behind(bytes: &[u8], at: usize) -> Option<usize>
    requires within { at < length bytes.now }
    requires stays { stays true (take (at + 1) bytes.now) ≡ true }
    ensures { MatchOption result (stays true bytes.now ≡ true) (λ at. (at ≤ length bytes.now)
        × (stays true (take at bytes.now) ≡ true) × (begins_line true (take at bytes.now) ≡ true)) }
{
    let mut i = at + 1;
    while i < bytes.len() {
        if bytes[i] == UNDERSCORE && begins_line(bytes, i) {
            return Some(i);
        }
        i += 1;
    }
    None
}

/// Where the first line begins that begins with `_`, in bytes that begin with a new line; `None` where there is none.
fn underscore_line(bytes: &[u8]) -> Option<usize>
    ensures { MatchOption result (stays true bytes.now ≡ true) (λ at. (at ≤ length bytes.now)
        × (stays true (take at bytes.now) ≡ true) × (begins_line true (take at bytes.now) ≡ true)) }
{
    if bytes.is_empty() {
        return None;
    }
    if bytes[0] == UNDERSCORE {
        return Some(0);
    }
    underscore_behind(bytes, staying_chunks(bytes))
}

/// How many bytes the complete lines have together, in bytes that begin with a new line.
fn complete_len(bytes: &[u8]) -> usize
    ensures within { result ≤ length bytes.now }
    ensures ends { begins_line true (take result bytes.now) ≡ true }
{
    let mut end = bytes.len();
    while !begins_line(bytes, end) {
        end -= 1;
    }
    end
}

/// How many bytes the complete lines have before the first line that begins with `_`, in bytes that begin with a new
/// line.
pub(crate) fn staying_len(bytes: &[u8]) -> usize
    ensures within { result ≤ length bytes.now }
    ensures stays { stays true (take result bytes.now) ≡ true }
    ensures ends { begins_line true (take result bytes.now) ≡ true }
{
    match underscore_line(bytes) {
        Some(at) => at,
        None => complete_len(bytes),
    }
}
