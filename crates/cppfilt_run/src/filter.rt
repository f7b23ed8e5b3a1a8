//! From the input to the output, block by block.

ghost use Rattle.std.specs.Prelude.{◌≡◌, ◌⊎◌, ◌+◌, ◌-◌, ◌^◌, ◌<◌, ◌≤◌, [], length, take, IfSome};
ghost use Rattle.std.specs.Io.KnownBytes.{Appends, IsAtEnd};
ghost use Rattle.std.specs.List.{All};
ghost use Rattle.cppfilt_ends.specs.Causes.{Rose, NoFault};
ghost use Rattle.cppfilt_ends.specs.Moves.{Begins};
ghost use Rattle.cppfilt_lines.specs.Due.{due};
ghost use Rattle.cppfilt_lines.specs.Lines.{before_feed, complete};
ghost use Rattle.cppfilt_lines.specs.Named.{IsNamedWhenShown};
ghost use Rattle.cppfilt_lines.specs.Work.{candidates, lines};
ghost use Rattle.cppfilt_run.specs.Outcome.{OfTaken, KeepsUp, Stopped, Finished};
ghost use Rattle.cppfilt_run.specs.Owed.{ahead, block_limit};
ghost use Rattle.cppfilt_run.specs.Statuses.{refusal_status};

use crate::lines::LineFilter;
use crate::status::Status;
use cppfilt_ends::ends::{Failed, Sink, Source, read_front};
use cppfilt_lines::FilterOptions;
use demangle_context::SinkFault;
use std::alloc::Global;

/// How many bytes one read asks for.
const BLOCK: usize = 64 * 1024;

/// The status of a sink's refusal.
pub fn status_of(fault: SinkFault) -> Status
    ensures { result ≡ refusal_status fault }
{
    match fault {
        SinkFault::Failed => Status::WriteFault,
        SinkFault::OutOfMemory => Status::OutOfMemory,
    }
}

/// Writes what is due at the end of the input.
fn end_input<W: Sink>(filter: &mut LineFilter, options: &FilterOptions, output: &mut W) -> Status
    requires { before_feed filter.old.held.items ≡ length filter.old.held.items }
    ensures { Finished result (W.faults output.old) (W.faults output.new) (W.written output.old) (W.written output.new)
        (ahead options.now filter.old.pending.items filter.old.held.items []) }
{
    match filter.finish(options, output) {
        Ok(()) => Status::Done,
        Err(fault) => status_of(fault),
    }
}

/// Copies the input to the output, with each line that is asked and has a text replaced by that text, and filters at
/// most `limit` bytes.
///
/// Lines are cut after each line feed. A carriage return before it, or at the end of a last line without one, is part
/// of the line's ending. Complete lines are written before the next read; nothing is written of a line that isn't
/// complete. `ReadFault` and `WriteFault` come where an end failed; `InputTooLong` where `limit` bytes were taken and a
/// further read gave more; `OutOfMemory` where memory ran out; else `Done`.
pub fn filter_lines<R: Source, W: Sink>(
    alloc: Global,
    options: &FilterOptions,
    limit: u64,
    input: &mut R,
    output: &mut W,
) -> Status
    // Where the source tells its bytes, all of them were read, and all that is due for them was written.
    ensures done { result ≡ Status.Done → IsAtEnd (R.left input.new) × IfSome (R.left input.old)
        (λ bytes. Appends (W.written output.old) (W.written output.new) (due options.now bytes)) }
    // What is due for a line is its text where it is asked and is a linker name whose text is within the limits.
    ensures named { IfSome (R.left input.old) (λ bytes. All (IsNamedWhenShown options.now) (candidates lines bytes)) }
    // Whatever the status is, a front of what is due was written and nothing else,
    ensures front { IfSome (R.left input.old)
        (λ bytes. Begins (W.written output.old) (W.written output.new) (due options.now bytes)) }
    // and all that is due for the complete lines among the bytes that were taken before the last read, which gave at
    // most 2^16 bytes: so the lines that a block completes are written before the next read.
    ensures keeps_up { OfTaken (R.left input.old) (R.left input.new)
        (KeepsUp options.now (R.last input.new) (W.written output.old) (W.written output.new)) }
    // After a failed read it is just what is due for the complete lines among the bytes that were taken,
    ensures read_fault_written { result ≡ Status.ReadFault → OfTaken (R.left input.old) (R.left input.new)
        (λ taken. Appends (W.written output.old) (W.written output.new) (due options.now (complete taken))) }
    // and after too long an input that for the complete lines among the first bytes, up to the limit.
    ensures input_too_long_written { result ≡ Status.InputTooLong → IfSome (R.left input.old)
        (λ bytes. Appends (W.written output.old) (W.written output.new)
        (due options.now (complete (take limit bytes)))) }
    // With no fault, an input within the limit is filtered to its end, unless memory ran out,
    ensures complete { NoFault (R.faults input.old) (R.faults input.new)
        → NoFault (W.faults output.old) (W.faults output.new)
        → IfSome (R.left input.old)
        (λ bytes. length bytes ≤ limit → (result ≡ Status.Done) ⊎ (result ≡ Status.OutOfMemory)) }
    // and a longer one is refused.
    ensures refused { NoFault (R.faults input.old) (R.faults input.new)
        → NoFault (W.faults output.old) (W.faults output.new)
        → IfSome (R.left input.old)
        (λ bytes. limit < length bytes → (result ≡ Status.InputTooLong) ⊎ (result ≡ Status.OutOfMemory)) }
    ensures read_fault { result ≡ Status.ReadFault → Rose (R.faults input.old) (R.faults input.new) }
    ensures read_fault_told { R.faults input.old < R.faults input.new
        → (result ≡ Status.ReadFault) ⊎ (result ≡ Status.OutOfMemory) }
    ensures write_fault { result ≡ Status.WriteFault → Rose (W.faults output.old) (W.faults output.new) }
    ensures write_fault_told { W.faults output.old < W.faults output.new
        → (result ≡ Status.WriteFault) ⊎ (result ≡ Status.OutOfMemory) }
    ensures input_too_long { result ≡ Status.InputTooLong
        → (R.taken input.old + limit < R.taken input.new) ⊎ (2 ^ 64 - 1 ≤ R.taken input.new) }
    ensures input_too_long_told { R.taken input.old + limit < R.taken input.new
        → (result ≡ Status.InputTooLong) ⊎ (result ≡ Status.OutOfMemory) }
    // By the bytes, where they are told: `InputTooLong` comes only where one byte past the limit was taken,
    ensures input_too_long_bytes { result ≡ Status.InputTooLong → OfTaken (R.left input.old) (R.left input.new)
        (λ taken. length taken ≡ limit + 1) }
    // and no other status comes there.
    ensures input_too_long_bytes_told { OfTaken (R.left input.old) (R.left input.new)
        (λ taken. limit < length taken → (result ≡ Status.InputTooLong) ⊎ (result ≡ Status.OutOfMemory)) }
    // No source is asked for more.
    ensures at_most { R.taken input.new ≤ R.taken input.old + limit + 1 }
    // No other status comes.
    ensures status { (result ≡ Status.Help → ⊥) × (result ≡ Status.Usage → ⊥) }
{
    filtered(alloc, options, limit, input, output)
}

/// `filter_lines`, with one definition for all that its contract says.
pub(crate) fn filtered<R: Source, W: Sink>(
    alloc: Global,
    options: &FilterOptions,
    limit: u64,
    input: &mut R,
    output: &mut W,
) -> Status
    ensures { Stopped options.now result limit (R.faults input.old) (R.faults input.new)
        (W.faults output.old) (W.faults output.new) (R.taken input.old) (R.taken input.new) (R.last input.new)
        (R.left input.old) (R.left input.new) (W.written output.old) (W.written output.new) }
{
    let Ok(mut filter) = LineFilter::new(alloc) else {
        return Status::OutOfMemory;
    };
    let Ok(mut block) = Vec::from_elem(alloc, 0u8, BLOCK) else {
        return Status::OutOfMemory;
    };
    filter_blocks(
        options,
        limit,
        input,
        output,
        &mut filter,
        block.as_mut_slice(),
    )
}

/// Filters the input with room for one block, by a filter at the beginning of a line.
fn filter_blocks<R: Source, W: Sink>(
    options: &FilterOptions,
    limit: u64,
    input: &mut R,
    output: &mut W,
    filter: &mut LineFilter,
    block: &mut [u8],
) -> Status
    requires room { 0 < length block.old }
    requires small { length block.old ≤ block_limit }
    requires fresh { (filter.old.held.items ≡ []) × (filter.old.pending.items ≡ []) }
    ensures { Stopped options.now result limit (R.faults input.old) (R.faults input.new)
        (W.faults output.old) (W.faults output.new) (R.taken input.old) (R.taken input.new) (R.last input.new)
        (R.left input.old) (R.left input.new) (W.written output.old) (W.written output.new) }
{
    let mut taken: u64 = 0;
    while taken < limit {
        let most = block
            .len()
            .min(usize::try_from(limit - taken).unwrap_or(usize::MAX));
        match read_front(input, block, most) {
            Err(Failed) => return Status::ReadFault,
            Ok(0) => return end_input(filter, options, output),
            Ok(count) => {
                if let Err(fault) = filter.take_block(options, output, &block[..count]) {
                    return status_of(fault);
                }
                taken += count as u64;
            }
        }
    }
    match read_front(input, block, 1) {
        Err(Failed) => Status::ReadFault,
        Ok(0) => end_input(filter, options, output),
        Ok(_) => Status::InputTooLong,
    }
}
