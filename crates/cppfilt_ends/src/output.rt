//! Writing what is due to a sink, in as few writes as the length allows.

ghost use Rattle.std.specs.Prelude.{◌≡◌, ◌++◌, [], OnOk};
ghost use Rattle.cppfilt_ends.specs.Moves.{Gives};

use crate::ends::Sink;
use demangle_context::SinkFault;

/// How many bytes are gathered before they are written.
pub const GATHERED: usize = 256 * 1024;

/// A piece of at least this many bytes is written as it is, and not gathered first.
const LONG: usize = 16 * 1024;

/// Writes all the bytes.
#[tactic(auto, using(crate::proofs::MoveLaws::move_laws))]
pub fn write_all<W: Sink>(output: &mut W, bytes: &[u8]) -> Result<(), SinkFault>
    ensures { Gives (W.written output.old) (W.written output.new) (W.faults output.old) (W.faults output.new) result
        bytes.now [] }
{
    let mut rest = bytes;
    while !rest.is_empty() {
        let count = output.write(rest)?;
        rest = &rest[count..];
    }
    Ok(())
}

/// Writes what is gathered, and begins to gather anew.
#[tactic(auto, using(crate::proofs::MoveLaws::move_laws))]
pub fn flush<W: Sink>(output: &mut W, pending: &mut Vec<u8>) -> Result<(), SinkFault>
    ensures gives { Gives (W.written output.old) (W.written output.new)
        (W.faults output.old) (W.faults output.new) result pending.old.items [] }
    ensures gathered { OnOk result (pending.new.items ≡ []) }
{
    write_all(output, pending.as_slice())?;
    pending.clear();
    Ok(())
}

/// Gathers these bytes behind the others where they are few, and writes them where they are many.
pub fn emit<W: Sink>(output: &mut W, pending: &mut Vec<u8>, bytes: &[u8]) -> Result<(), SinkFault>
    ensures { Gives (W.written output.old) (W.written output.new) (W.faults output.old) (W.faults output.new) result
        (pending.old.items ++ bytes.now) pending.new.items }
{
    if bytes.len() < LONG && bytes.len() <= GATHERED.saturating_sub(pending.len()) {
        pending.extend_from_slice(bytes)?;
        return Ok(());
    }
    emit_many(output, pending, bytes)
}

/// Writes what is gathered, and then these bytes where they are many, or gathers them.
fn emit_many<W: Sink>(output: &mut W, pending: &mut Vec<u8>, bytes: &[u8]) -> Result<(), SinkFault>
    ensures { Gives (W.written output.old) (W.written output.new) (W.faults output.old) (W.faults output.new) result
        (pending.old.items ++ bytes.now) pending.new.items }
{
    flush(output, pending)?;
    if bytes.len() < LONG {
        pending.extend_from_slice(bytes)?;
        return Ok(());
    }
    write_all(output, bytes)
}

/// Writes what is gathered, if it is more than may be gathered.
#[tactic(auto, using(crate::proofs::MoveLaws::move_laws))]
pub fn relieve<W: Sink>(output: &mut W, pending: &mut Vec<u8>) -> Result<(), SinkFault>
    ensures { Gives (W.written output.old) (W.written output.new) (W.faults output.old) (W.faults output.new) result
        pending.old.items pending.new.items }
{
    if pending.len() <= GATHERED {
        return Ok(());
    }
    flush(output, pending)
}

/// Passes on two pieces, one behind the other.
pub fn emit_both<W: Sink>(
    output: &mut W,
    pending: &mut Vec<u8>,
    first: &[u8],
    second: &[u8],
) -> Result<(), SinkFault>
    ensures { Gives (W.written output.old) (W.written output.new) (W.faults output.old) (W.faults output.new) result
        (pending.old.items ++ (first.now ++ second.now)) pending.new.items }
{
    emit(output, pending, first)?;
    emit(output, pending, second)
}
