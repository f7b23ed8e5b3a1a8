//! From the input to the output, block by block.

ghost use Rattle.std.specs.Prelude.{◌≡◌, ◌<◌, ◌≤◌, ◌++◌, [], List, ℕ, length, OnOk};
ghost use Rattle.cppfilt_ends.specs.Moves.{Gives};
ghost use Rattle.cppfilt_run.specs.Outcome.{Finished};
ghost use Rattle.cppfilt_run.specs.Owed.{block_limit};
ghost use Rattle.cppfilt_text_run.specs.Outcome.{Stopped};
ghost use Rattle.demangle_stream.specs.Fed.{Behind};
ghost use Rattle.demangle_stream.specs.Replaced.{replaced, rest};

use cppfilt_ends::ends::{Failed, Sink, Source, read_front};
use cppfilt_ends::output::{flush, relieve};
use cppfilt_run::filter::status_of;
use cppfilt_run::status::Status;
use demangle_context::{DemangleOptions, SinkFault};
use demangle_stream::{Stream, StreamFault};
use demangle_text::ParseOptions;
use std::alloc::Global;

/// How many bytes one read asks for.
const BLOCK: usize = 64 * 1024;

/// How many bytes are fed at once. The texts of the names that end in them are gathered before any is written, so few
/// bytes keep few texts in memory.
const PIECE: usize = 128;

/// Feeds a piece, and writes what is gathered if it is much.
fn take_piece<W: Sink>(
    stream: &mut Stream,
    output: &mut W,
    pending: &mut Vec<u8>,
    piece: &[u8],
) -> Result<(), SinkFault>
    ensures gives { (more : List ℕ) → Gives (W.written output.old) (W.written output.new)
        (W.faults output.old) (W.faults output.new) result
        (pending.old.items ++ rest stream.old (piece.now ++ more)) (pending.new.items ++ rest stream.new more) }
    ensures behind { OnOk result ((seen : List ℕ) → Behind stream.old seen → Behind stream.new (seen ++ piece.now)) }
    ensures options { OnOk result ((stream.new.parse ≡ stream.old.parse) × (stream.new.print ≡ stream.old.print)) }
{
    match stream.feed(piece, pending) {
        Ok(()) => relieve(output, pending),
        Err(StreamFault::OutOfMemory) => Err(SinkFault::OutOfMemory),
    }
}

/// Feeds a block piece by piece.
fn take_pieces<W: Sink>(
    stream: &mut Stream,
    output: &mut W,
    pending: &mut Vec<u8>,
    block: &[u8],
) -> Result<(), SinkFault>
    ensures gives { (more : List ℕ) → Gives (W.written output.old) (W.written output.new)
        (W.faults output.old) (W.faults output.new) result
        (pending.old.items ++ rest stream.old (block.now ++ more)) (pending.new.items ++ rest stream.new more) }
    ensures behind { OnOk result ((seen : List ℕ) → Behind stream.old seen → Behind stream.new (seen ++ block.now)) }
    ensures options { OnOk result ((stream.new.parse ≡ stream.old.parse) × (stream.new.print ≡ stream.old.print)) }
{
    let mut left = block;
    while !left.is_empty() {
        let (piece, behind) = left.split_at(left.len().min(PIECE));
        take_piece(stream, output, pending, piece)?;
        left = behind;
    }
    Ok(())
}

/// Writes what is settled once this block has come.
fn take_block<W: Sink>(
    stream: &mut Stream,
    output: &mut W,
    pending: &mut Vec<u8>,
    block: &[u8],
) -> Result<(), SinkFault>
    requires { pending.old.items ≡ [] }
    ensures gives { (more : List ℕ) → Gives (W.written output.old) (W.written output.new)
        (W.faults output.old) (W.faults output.new) result
        (rest stream.old (block.now ++ more)) (rest stream.new more) }
    ensures behind { OnOk result ((seen : List ℕ) → Behind stream.old seen → Behind stream.new (seen ++ block.now)) }
    ensures options { OnOk result ((stream.new.parse ≡ stream.old.parse) × (stream.new.print ≡ stream.old.print)) }
    ensures written { OnOk result (pending.new.items ≡ []) }
{
    take_pieces(stream, output, pending, block)?;
    flush(output, pending)
}

/// Writes what is due at the end of the input.
fn finish<W: Sink>(
    stream: &mut Stream,
    output: &mut W,
    pending: &mut Vec<u8>,
) -> Result<(), SinkFault>
    requires { pending.old.items ≡ [] }
    ensures { Gives (W.written output.old) (W.written output.new) (W.faults output.old) (W.faults output.new) result
        (rest stream.old []) [] }
{
    match stream.finish(pending) {
        Ok(()) => flush(output, pending),
        Err(StreamFault::OutOfMemory) => Err(SinkFault::OutOfMemory),
    }
}

/// Writes what is due at the end of the input, and tells how that went.
fn end_input<W: Sink>(stream: &mut Stream, output: &mut W, pending: &mut Vec<u8>) -> Status
    requires { pending.old.items ≡ [] }
    ensures { Finished result (W.faults output.old) (W.faults output.new) (W.written output.old) (W.written output.new)
        (rest stream.old []) }
{
    match finish(stream, output, pending) {
        Ok(()) => Status::Done,
        Err(fault) => status_of(fault),
    }
}

/// Copies the input to the output, with each linker name in it that has a text replaced by that text, and filters at
/// most `limit` bytes. What is settled is written before the next read: all but the front of a run that may be a name.
pub(crate) fn filter_text<R: Source, W: Sink>(
    alloc: Global,
    parse: ParseOptions,
    print: DemangleOptions,
    limit: u64,
    input: &mut R,
    output: &mut W,
) -> Status
    ensures { Stopped parse print result limit (R.faults input.old) (R.faults input.new)
        (W.faults output.old) (W.faults output.new) (R.taken input.old) (R.taken input.new)
        (R.last input.new) (R.left input.old) (R.left input.new) (W.written output.old) (W.written output.new) }
{
    let Ok(mut block) = Vec::from_elem(alloc, 0u8, BLOCK) else {
        return Status::OutOfMemory;
    };
    let mut stream = Stream::new(alloc, parse, print);
    let mut pending = Vec::new(alloc);
    filter_blocks(
        limit,
        input,
        output,
        &mut stream,
        &mut pending,
        block.as_mut_slice(),
    )
}

/// Filters the input with room for one block, by a stream at the beginning of a text.
fn filter_blocks<R: Source, W: Sink>(
    limit: u64,
    input: &mut R,
    output: &mut W,
    stream: &mut Stream,
    pending: &mut Vec<u8>,
    block: &mut [u8],
) -> Status
    requires room { 0 < length block.old }
    requires small { length block.old ≤ block_limit }
    requires begins { (more : List ℕ) → rest stream.old more ≡ replaced stream.old.parse stream.old.print more }
    requires behind { Behind stream.old [] }
    requires clear { pending.old.items ≡ [] }
    ensures { Stopped stream.old.parse stream.old.print result limit (R.faults input.old) (R.faults input.new)
        (W.faults output.old) (W.faults output.new) (R.taken input.old) (R.taken input.new)
        (R.last input.new) (R.left input.old) (R.left input.new) (W.written output.old) (W.written output.new) }
{
    let mut taken: u64 = 0;
    while taken < limit {
        let most = block
            .len()
            .min(usize::try_from(limit - taken).unwrap_or(usize::MAX));
        match read_front(input, block, most) {
            Err(Failed) => return Status::ReadFault,
            Ok(0) => return end_input(stream, output, pending),
            Ok(count) => {
                if let Err(fault) = take_block(stream, output, pending, &block[..count]) {
                    return status_of(fault);
                }
                taken += count as u64;
            }
        }
    }
    match read_front(input, block, 1) {
        Err(Failed) => Status::ReadFault,
        Ok(0) => end_input(stream, output, pending),
        Ok(_) => Status::InputTooLong,
    }
}
