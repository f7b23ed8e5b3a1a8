//! Tests of the next bytes.

ghost use Rattle.std.specs.Prelude.{◌≡◌, [], ◌∷◌, codes, length, nat_le};
ghost use Rattle.demangle_grammar.specs.Reading.{any_starts, next_is};
ghost use Rattle.demangle_grammar.specs.Rule.{Class};
ghost use Rattle.demangle_cells.specs.Reads.{spot_at};

use demangle_cells::Text;

/// Whether this is the next byte.
#[inline(always)]
pub fn next_is(text: Text<'_>, at: u32, byte: u8) -> bool
    ensures { result ≡ next_is (Class.these (byte ∷ [])) (spot_at text.entry at).left }
{
    match text.rest(at) {
        [] => false,
        [next, ..] => byte == *next,
    }
}

/// Whether the next byte is a digit.
#[inline(always)]
pub fn next_is_digit(text: Text<'_>, at: u32) -> bool
    ensures { result ≡ next_is Class.digits (spot_at text.entry at).left }
{
    match text.rest(at) {
        [] => false,
        [next, ..] => next.is_ascii_digit(),
    }
}

/// Whether so many bytes are left at least.
pub fn has_more(text: Text<'_>, at: u32, count: usize) -> bool
    ensures { result ≡ nat_le count (length (spot_at text.entry at).left) }
{
    count <= text.rest(at).len()
}

/// Whether a function type stands there, whose qualifiers are its own.
pub fn begins_function(text: Text<'_>, at: u32) -> bool
    ensures { result ≡ any_starts (codes "F" ∷ codes "Do" ∷ codes "DO" ∷ codes "Dx" ∷ codes "Dw" ∷ [])
        (spot_at text.entry at).left }
{
    match text.rest(at) {
        [b'F', ..] | [b'D', b'o' | b'O' | b'x' | b'w', ..] => true,
        _ => false,
    }
}

/// Whether the offset of a thunk follows: `Th` or `Tv`.
pub fn begins_thunk(text: Text<'_>, at: u32) -> bool
    ensures { result ≡ any_starts (codes "Th" ∷ codes "Tv" ∷ []) (spot_at text.entry at).left }
{
    match text.rest(at) {
        [b'T', b'h' | b'v', ..] => true,
        _ => false,
    }
}
