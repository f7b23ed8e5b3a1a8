//! What a memo asks of bytes and of refusals.

ghost use Rattle.std.specs.Prelude.{◌≡◌, ◌==◌, false, not, true};
ghost use Rattle.demangle_text.specs.Kind.{ends, kind};
ghost use Rattle.demangle_grammar.specs.Fits.{AllOf};

use demangle_text::Error;

/// Whether no `S` is among the bytes, so that no row that is read of them refers to a component before it.
pub(crate) fn has_no_reference(bytes: &[u8]) -> bool
    ensures { result ≡ true → AllOf (λ b. not (b == 83)) bytes.now }
{
    let mut rest = bytes;
    while let [byte, next @ ..] = rest {
        if *byte == b'S' {
            return false;
        }
        rest = next;
    }
    true
}

/// Whether it tells of the bytes, and not of levels or of memory.
pub(crate) fn is_of_bytes(error: Error) -> bool
    ensures { result ≡ true → ends (kind error) ≡ false }
{
    match error {
        Error::UnexpectedEnd | Error::UnexpectedText | Error::BadBackReference | Error::Overflow =>
            true,
        _ => false,
    }
}
