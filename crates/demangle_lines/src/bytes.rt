//! Bytes of the input, as texts.

ghost use Rattle.std.specs.Prelude.{◌≡◌, ◌<◌, bytes_eq, encode_utf8, false, length, option_map, true, MatchOption};
ghost use Rattle.std.specs.Str.{is_utf8};
ghost use Rattle.demangle_text.specs.Word.{starts};
ghost use Rattle.demangle_printing.specs.Act.{block, done, named};
ghost use Rattle.demangle_printing.specs.Reader.{input_text, texts};
ghost use Rattle.demangle_printing.specs.State.{written};
ghost use Rattle.demangle_printing.specs.Texts.{characters, escaped, is_anonymous, is_negative, without_sign};
ghost use Rattle.demangle_meets.specs.Calls.{Steps};
ghost use Rattle.demangle_meets.specs.Meets.{Meets, Remains};
ghost use Rattle.demangle_meets.specs.Place.{Place};
ghost use Rattle.demangle_context.specs.PageOf.{page};
ghost use Rattle.demangle_lines.specs.Pieces.{name_act, suffix_act};

use demangle_context::{Context, DemangleWrite, PrintFault, RefersTo};
use demangle_text::{IndexStr, consume};

/// These bytes as text; `None` where they aren't UTF-8.
pub(crate) fn text_of(bytes: &[u8]) -> Option<&str>
    ensures { MatchOption result (is_utf8 bytes.now ≡ false)
        (λ text. (text.now ≡ bytes.now) × (is_utf8 bytes.now ≡ true)) }
{
    match std::str::from_utf8(bytes) {
        Ok(text) => Some(text),
        Err(_) => None,
    }
}

/// Bytes as text. It is a fault where they aren't UTF-8.
pub(crate) fn bytes_text<'s, T: RefersTo<S>, S: 's, W: DemangleWrite>(
    bytes: &[u8],
    ctx: &mut Context<'s, '_, T, S, W>,
)
    ensures { (p : Place) → Meets p (page T.tree T.table W.seen ctx.old) (page T.tree T.table W.seen ctx.new)
        (input_text bytes.now) }
{
    match text_of(bytes) {
        Some(text) => ctx.text(text),
        None => ctx.fail(PrintFault::NotUtf8),
    }
}

/// Writes a name, and keeps it as the last source name.
pub(crate) fn write_name<'s, T: RefersTo<S>, S: 's, W: DemangleWrite>(
    bytes: &'s [u8],
    ctx: &mut Context<'s, '_, T, S, W>,
)
    ensures { (p : Place) → Meets p (page T.tree T.table W.seen ctx.old) (page T.tree T.table W.seen ctx.new)
        (name_act bytes.now) }
{
    match text_of(bytes) {
        Some(text) => {
            ctx.name(text);
            ctx.text(text);
        }
        None => ctx.fail(PrintFault::NotUtf8),
    }
}

/// A space, a dot and a word, which must be UTF-8 and is kept as the last source name.
pub(crate) fn write_suffix<'s, T: RefersTo<S>, S: 's, W: DemangleWrite>(
    bytes: &'s [u8],
    ctx: &mut Context<'s, '_, T, S, W>,
)
    ensures { (p : Place) → Meets p (page T.tree T.table W.seen ctx.old) (page T.tree T.table W.seen ctx.new)
        (suffix_act bytes.now) }
{
    match text_of(bytes) {
        Some(text) => {
            ctx.name(text);
            ctx.text(" .");
            ctx.text(text);
        }
        None => {
            ctx.text(" .");
            ctx.fail(PrintFault::NotUtf8);
        }
    }
}

/// Whether bytes begin with a word.
#[tactic(auto, unfolding(demangle_text::specs::Word::word_at))]
fn begins_with(word: &[u8], bytes: &[u8]) -> bool
    ensures { result ≡ starts word.now bytes.now }
{
    match consume(word, IndexStr::new(bytes)) {
        Ok(_) => true,
        Err(_) => false,
    }
}

/// Whether an identifier is one that compilers give to an anonymous namespace. Few begin with `_`.
pub(crate) fn is_anonymous(bytes: &[u8]) -> bool
    ensures { result ≡ is_anonymous bytes.now }
{
    match bytes {
        [b'_', ..] => is_global(bytes),
        _ => false,
    }
}

/// The same, for identifiers that begin with `_`.
fn is_global(bytes: &[u8]) -> bool
    ensures { result ≡ is_anonymous bytes.now }
{
    begins_with(b"_GLOBAL_.N", bytes)
        || begins_with(b"_GLOBAL__N", bytes)
        || begins_with(b"_GLOBAL_$N", bytes)
}

/// Whether bytes are these.
pub(crate) fn spells(word: &[u8], bytes: &[u8]) -> bool
    ensures { result ≡ bytes_eq word.now bytes.now }
{
    word == bytes
}

/// Whether a literal is below zero: `n` stands before its digits.
pub(crate) fn is_negative(bytes: &[u8]) -> bool
    ensures { result ≡ is_negative bytes.now }
{
    match bytes.split_first() {
        Some((first, _)) => b'n' == *first,
        None => false,
    }
}

/// The bytes of a literal without its sign.
pub(crate) fn without_sign(bytes: &[u8]) -> &[u8]
    ensures { result.now ≡ without_sign bytes.now }
{
    let Some((first, rest)) = bytes.split_first() else {
        return bytes;
    };
    if b'n' == *first { rest } else { bytes }
}

/// What an escape stands for: `$S` is `/`, `$_` is `.`, and `$$` is `$`.
fn escaped(first: u8, second: u8) -> Option<&'static str>
    ensures { option_map (λ x. x.now) result ≡ escaped first second }
{
    match (first, second) {
        (b'$', b'S') => Some("/"),
        (b'$', b'_') => Some("."),
        (b'$', b'$') => Some("$"),
        _ => None,
    }
}

/// The character whose number is this byte.
fn character<'s, T: RefersTo<S>, S: 's, W: DemangleWrite>(
    byte: u8,
    ctx: &mut Context<'s, '_, T, S, W>,
)
    ensures { Steps (page T.tree T.table W.seen ctx.old) (page T.tree T.table W.seen ctx.new)
        (written (encode_utf8 byte)) }
{
    let mut buffer = [0; 4];
    ctx.text((byte as char).encode_utf8(&mut buffer));
}

/// Prints the first character of bytes, which may be escaped, and gives the bytes behind it.
fn front_character<'b, 's, T: RefersTo<S>, S: 's, W: DemangleWrite>(
    bytes: &'b [u8],
    ctx: &mut Context<'s, '_, T, S, W>,
) -> &'b [u8]
    ensures left { (p : Place) → Remains p (page T.tree T.table W.seen ctx.old)
        (page T.tree T.table W.seen ctx.new) (texts (characters bytes.now)) (texts (characters result.now)) }
    ensures shorter { 0 < length bytes.now → length result.now < length bytes.now }
{
    let Some((first, rest)) = bytes.split_first() else {
        return bytes;
    };
    let Some((second, behind)) = rest.split_first() else {
        character(*first, ctx);
        return rest;
    };
    match escaped(*first, *second) {
        Some(text) => {
            ctx.text(text);
            behind
        }
        None => {
            character(*first, ctx);
            rest
        }
    }
}

/// The characters of a part of a resource's name.
pub(crate) fn characters<'s, T: RefersTo<S>, S: 's, W: DemangleWrite>(
    bytes: &[u8],
    ctx: &mut Context<'s, '_, T, S, W>,
)
    ensures { (p : Place) → Meets p (page T.tree T.table W.seen ctx.old) (page T.tree T.table W.seen ctx.new)
        (texts (characters bytes.now)) }
{
    let mut rest = bytes;
    while !rest.is_empty() {
        rest = front_character(rest, ctx);
    }
}
