//! What the bytes of a line become: their text where they are asked and have one.

ghost use Rattle.std.specs.Prelude.{◌≡◌, ℕ, List, ◌++◌, true};
ghost use Rattle.cppfilt_ends.specs.Moves.{Gives};
ghost use Rattle.cppfilt_run.specs.Refused.{IsRefused};
ghost use Rattle.cppfilt_lines.specs.Shown.{is_named, is_asked, refused, shown};

use cppfilt_ends::ends::Sink;
use cppfilt_ends::output::{emit, emit_both, relieve};
use cppfilt_lines::FilterOptions;
use demangle_context::SinkFault;
use demangle_gather::gather;
use demangler::{Demangler, SymbolFault};

/// A line with more bytes than this before its ending is never asked for its text.
const LINE_LIMIT: usize = 1_048_576;

/// Whether bytes begin as a linker name does. The first byte is tested first, so that most lines cost one test.
fn is_named(bytes: &[u8]) -> bool
    ensures { result ≡ is_named bytes.now }
{
    matches!(bytes, [b'_', ..])
        && (bytes.starts_with(b"_Z")
            || bytes.starts_with(b"__Z")
            || bytes.starts_with(b"___Z")
            || bytes.starts_with(b"____Z")
            || bytes.starts_with(b"_GLOBAL_"))
}

/// Whether these bytes of a line are asked for their text.
fn is_asked(options: &FilterOptions, bytes: &[u8]) -> bool
    ensures { result ≡ is_asked options.now bytes.now }
{
    bytes.len() <= LINE_LIMIT && (options.types || is_named(bytes))
}

/// Passes on bytes as they are shown.
pub(crate) fn emit_shown<W: Sink>(
    demangler: &mut Demangler,
    options: &FilterOptions,
    output: &mut W,
    pending: &mut Vec<u8>,
    bytes: &[u8],
) -> Result<(), SinkFault>
    ensures { Gives (W.written output.old) (W.written output.new) (W.faults output.old) (W.faults output.new) result
        (pending.old.items ++ shown options.now bytes.now) pending.new.items }
{
    if is_asked(options, bytes) {
        return emit_asked(demangler, options, output, pending, bytes);
    }
    emit(output, pending, bytes)
}

/// Passes on what becomes of bytes that are asked: their text, or else the bytes, with the cause where causes are
/// shown.
fn emit_asked<W: Sink>(
    demangler: &mut Demangler,
    options: &FilterOptions,
    output: &mut W,
    pending: &mut Vec<u8>,
    bytes: &[u8],
) -> Result<(), SinkFault>
    requires { is_asked options.now bytes.now ≡ true }
    ensures { Gives (W.written output.old) (W.written output.new) (W.faults output.old) (W.faults output.new) result
        (pending.old.items ++ shown options.now bytes.now) pending.new.items }
{
    match gather(demangler, bytes, &options.parse, &options.print, pending) {
        Ok(()) => relieve(output, pending),
        Err(fault) => emit_fault(options.why, output, pending, bytes, fault),
    }
}

/// Passes on bytes that have no text because of a fault. A lack of memory is returned instead.
fn emit_fault<W: Sink>(
    why: bool,
    output: &mut W,
    pending: &mut Vec<u8>,
    bytes: &[u8],
    fault: SymbolFault,
) -> Result<(), SinkFault>
    ensures { (whole : List ℕ) → IsRefused whole why bytes.now fault
        → Gives (W.written output.old) (W.written output.new) (W.faults output.old) (W.faults output.new) result
        (pending.old.items ++ whole) pending.new.items }
{
    match fault {
        SymbolFault::OutOfMemory => Err(SinkFault::OutOfMemory),
        _ => emit_refused(why, output, pending, bytes, fault.text()),
    }
}

/// Passes on bytes that have no text, with the cause where causes are shown.
fn emit_refused<W: Sink>(
    why: bool,
    output: &mut W,
    pending: &mut Vec<u8>,
    bytes: &[u8],
    cause: &str,
) -> Result<(), SinkFault>
    ensures { Gives (W.written output.old) (W.written output.new) (W.faults output.old) (W.faults output.new) result
        (pending.old.items ++ refused why bytes.now cause.now) pending.new.items }
{
    if !why {
        return emit(output, pending, bytes);
    }
    emit_both(output, pending, bytes, b"\t")?;
    emit(output, pending, cause.as_bytes())
}
