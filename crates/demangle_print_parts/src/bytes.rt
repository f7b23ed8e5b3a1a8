//! Bytes of the input.

ghost use Rattle.std.specs.Prelude.{◌≡◌, false, true, MatchOption};
ghost use Rattle.std.specs.Str.{is_utf8};
ghost use Rattle.demangle_grammar.specs.Sound.{bytes_of};
ghost use Rattle.demangle_printing.specs.Reader.{input_text};
ghost use Rattle.demangle_meets.specs.Meets.{Meets};
ghost use Rattle.demangle_meets.specs.Place.{Place};
ghost use Rattle.demangle_print_below.specs.PageOf.{page};

use demangle_scope::{DemangleContext, DemangleWrite, PrintFault};

/// The bytes of the input from one index to another, as far as the input goes.
pub fn bytes_between(input: &[u8], start: usize, end: usize) -> &[u8]
    ensures { result.now ≡ bytes_of input.now start end }
{
    if start >= input.len() {
        return &[];
    }
    let behind = &input[start..];
    let count = end.saturating_sub(start);
    if count >= behind.len() {
        return behind;
    }
    &behind[..count]
}

/// These bytes as text; `None` where they aren't UTF-8.
pub fn text_of(bytes: &[u8]) -> Option<&str>
    ensures { MatchOption result (is_utf8 bytes.now ≡ false)
        (λ text. (text.now ≡ bytes.now) × (is_utf8 bytes.now ≡ true)) }
{
    match std::str::from_utf8(bytes) {
        Ok(text) => Some(text),
        Err(_) => None,
    }
}

/// Bytes as text. It is a fault where they aren't UTF-8.
pub fn bytes_text<'subs, W: DemangleWrite>(bytes: &[u8], ctx: &mut DemangleContext<'subs, '_, W>)
    ensures { (p : Place) → Meets p (page W.seen ctx.old) (page W.seen ctx.new) (input_text bytes.now) }
{
    match text_of(bytes) {
        Some(text) => ctx.text(text),
        None => ctx.fail(PrintFault::NotUtf8),
    }
}
