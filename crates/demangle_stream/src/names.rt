//! A whole text with its names replaced.

ghost use Rattle.std.specs.Prelude.{◌≡◌, ◌≢◌, ◌≤◌, length, OnOk};
ghost use Rattle.demangle_stream.specs.Appended.{Appended};
ghost use Rattle.demangle_stream.specs.Replaced.{replaced};
ghost use Rattle.demangle_stream.specs.Shown.{becomes, is_named, name_len};

use crate::runs::run_len;
use crate::staying::underscore_run;
use crate::stream::StreamFault;
use demangle_context::DemangleOptions;
use demangle_gather::gather;
use demangle_text::ParseOptions;
use demangler::{Demangler, SymbolFault};
use std::alloc::Global;

/// A longer run is never asked for its text.
pub(crate) const RUN_LIMIT: usize = 1_048_576;

/// Whether bytes begin as a linker name does. The first byte is tested first, so that most runs cost one test.
fn is_named(bytes: &[u8]) -> bool
    ensures { result ≡ is_named bytes.now }
{
    matches!(bytes, [b'_', ..])
        && (bytes.starts_with(b"_Z")
            || bytes.starts_with(b"__Z")
            || bytes.starts_with(b"___Z")
            || bytes.starts_with(b"____Z")
            || bytes.starts_with(b"_GLOBAL_"))
}

/// How many bytes a run has before the dots at its end.
fn name_len(run: &[u8]) -> usize
    ensures value { result ≡ name_len run.now }
    ensures within { result ≤ length run.now }
{
    let mut end = run.len();
    while end > 0 && run[end - 1] == b'.' {
        end -= 1;
    }
    end
}

/// Appends what a run becomes.
pub(crate) fn append_run(
    demangler: &mut Demangler,
    parse: &ParseOptions,
    print: &DemangleOptions,
    run: &[u8],
    out: &mut Vec<u8>,
) -> Result<(), StreamFault>
    ensures { Appended result out.old.items out.new.items (becomes parse.now print.now run.now) }
{
    let (name, dots) = run.split_at(name_len(run));
    if run.len() > RUN_LIMIT || !is_named(name) {
        out.extend_from_slice(run)?;
        return Ok(());
    }
    match gather(demangler, name, parse, print, out) {
        Ok(()) => {
            out.extend_from_slice(dots)?;
            Ok(())
        }
        Err(fault) => append_refused(fault, run, out),
    }
}

/// Appends a run that has no text because of a fault. A lack of memory is returned instead.
fn append_refused(fault: SymbolFault, run: &[u8], out: &mut Vec<u8>) -> Result<(), StreamFault>
    ensures appended { Appended result out.old.items out.new.items run.now }
    ensures other { OnOk result (fault ≢ SymbolFault.OutOfMemory) }
{
    match fault {
        SymbolFault::OutOfMemory => Err(StreamFault::OutOfMemory),
        _ => {
            out.extend_from_slice(run)?;
            Ok(())
        }
    }
}

/// Appends a text with its names replaced.
pub fn replace_names(
    alloc: Global,
    text: &[u8],
    parse: &ParseOptions,
    print: &DemangleOptions,
    out: &mut Vec<u8>,
) -> Result<(), StreamFault>
    ensures { Appended result out.old.items out.new.items (replaced parse.now print.now text.now) }
{
    let mut demangler = Demangler::new(alloc);
    append_replaced(&mut demangler, text, parse, print, out)
}

/// Appends a text with its names replaced, by this demangler.
pub(crate) fn append_replaced(
    demangler: &mut Demangler,
    text: &[u8],
    parse: &ParseOptions,
    print: &DemangleOptions,
    out: &mut Vec<u8>,
) -> Result<(), StreamFault>
    ensures { Appended result out.old.items out.new.items (replaced parse.now print.now text.now) }
{
    let mut behind = text;
    while let Some(at) = underscore_run(behind) {
        let (staying, named) = behind.split_at(at);
        let (run, after) = named.split_at(run_len(named));
        out.extend_from_slice(staying)?;
        append_run(demangler, parse, print, run, out)?;
        behind = after;
    }
    out.extend_from_slice(behind)?;
    Ok(())
}
