//! The filter of lines: it passes on what is due for each line that is complete, and holds the front of one that isn't.

ghost use Rattle.std.specs.Prelude.{◌≡◌, ℕ, ◌+◌, ◌<◌, ◌≤◌, false, true, List, [], ◌++◌, length, take, OnOk, IfOk};
ghost use Rattle.cppfilt_ends.specs.Moves.{Gives};
ghost use Rattle.cppfilt_lines.specs.Due.{due, shown_line};
ghost use Rattle.cppfilt_lines.specs.Lines.{before_feed, unfinished};
ghost use Rattle.cppfilt_run.specs.Owed.{ahead};
ghost use Rattle.cppfilt_run.specs.Staying.{begins_line, stays};

use crate::cutting::{body_len, through_line_feed};
use crate::shown::emit_shown;
use crate::staying::staying_len;
use cppfilt_ends::ends::Sink;
use cppfilt_ends::output::{GATHERED, emit, flush};
use cppfilt_lines::FilterOptions;
use demangle_context::SinkFault;
use demangler::Demangler;
use std::alloc::{AllocError, Global};

/// Room for the front of a line, to begin with.
const HELD: usize = 64 * 1024;

/// Passes on what is due for a whole line, its ending included.
fn emit_line<W: Sink>(
    demangler: &mut Demangler,
    options: &FilterOptions,
    output: &mut W,
    pending: &mut Vec<u8>,
    line: &[u8],
) -> Result<(), SinkFault>
    ensures { Gives (W.written output.old) (W.written output.new) (W.faults output.old) (W.faults output.new) result
        (pending.old.items ++ shown_line options.now line.now) pending.new.items }
{
    let end = body_len(line);
    emit_shown(demangler, options, output, pending, &line[..end])?;
    emit(output, pending, &line[end..])
}

/// Passes on what is due for a last line without a line feed.
fn emit_last<W: Sink>(
    demangler: &mut Demangler,
    options: &FilterOptions,
    output: &mut W,
    pending: &mut Vec<u8>,
    held: &[u8],
) -> Result<(), SinkFault>
    requires free { before_feed held.now ≡ length held.now }
    ensures { Gives (W.written output.old) (W.written output.new) (W.faults output.old) (W.faults output.new) result
        (pending.old.items ++ due options.now held.now) pending.new.items }
{
    if held.is_empty() {
        return Ok(());
    }
    emit_line(demangler, options, output, pending, held)
}

/// What is kept of the input from one block to the next.
#[derive(Drop)]
pub(crate) struct LineFilter {
    demangler: Demangler,
    /// The front of a line that isn't complete. It has no line feed.
    held: Vec<u8>,
    /// What is due and not yet written.
    pending: Vec<u8>,
}

impl LineFilter {
    /// A filter at the beginning of a line, with room for lines of usual length.
    pub(crate) fn new(alloc: Global) -> Result<LineFilter, AllocError>
        ensures { IfOk result (λ filter. (filter.held.items ≡ []) × (filter.pending.items ≡ [])) }
    {
        Ok(LineFilter {
            demangler: Demangler::new(alloc),
            held: Vec::with_capacity(alloc, HELD)?,
            pending: Vec::with_capacity(alloc, GATHERED)?,
        })
    }

    /// Passes on what is due for the line that ends with these bytes, behind those that are held.
    fn complete<W: Sink>(
        &mut self,
        options: &FilterOptions,
        output: &mut W,
        line: &[u8],
    ) -> Result<(), SinkFault>
        requires free { before_feed self.old.held.items ≡ length self.old.held.items }
        requires ended { before_feed line.now + 1 ≡ length line.now }
        ensures gives { (more : List ℕ) → Gives (W.written output.old) (W.written output.new)
            (W.faults output.old) (W.faults output.new) result
            (ahead options.now self.old.pending.items self.old.held.items (line.now ++ more))
            (ahead options.now self.new.pending.items self.new.held.items more) }
        ensures held { OnOk result (self.new.held.items ≡ []) }
    {
        if self.held.is_empty() {
            return emit_line(
                &mut self.demangler,
                options,
                output,
                &mut self.pending,
                line,
            );
        }
        self.held.extend_from_slice(line)?;
        emit_line(
            &mut self.demangler,
            options,
            output,
            &mut self.pending,
            self.held.as_slice(),
        )?;
        self.held.clear();
        Ok(())
    }

    /// How many bytes the complete lines at the front have that stay as they are; none where the front of a line is
    /// held.
    fn staying_len(&self, options: &FilterOptions, bytes: &[u8]) -> usize
        ensures within { result ≤ length bytes.now }
        ensures clear { 0 < result → (self.now.held.items ≡ []) × (options.now.types ≡ false) }
        ensures stays { stays true (take result bytes.now) ≡ true }
        ensures ends { begins_line true (take result bytes.now) ≡ true }
    {
        if options.types || !self.held.is_empty() {
            return 0;
        }
        staying_len(bytes)
    }

    /// Passes on what is due for a block of input, and writes it.
    pub(crate) fn take_block<W: Sink>(
        &mut self,
        options: &FilterOptions,
        output: &mut W,
        block: &[u8],
    ) -> Result<(), SinkFault>
        requires free { before_feed self.old.held.items ≡ length self.old.held.items }
        ensures gives { (more : List ℕ) → Gives (W.written output.old) (W.written output.new)
            (W.faults output.old) (W.faults output.new) result
            (ahead options.now self.old.pending.items self.old.held.items (block.now ++ more))
            (ahead options.now self.new.pending.items self.new.held.items more) }
        ensures kept { OnOk result ((seen : List ℕ) → self.old.held.items ≡ unfinished seen
            → self.new.held.items ≡ unfinished (seen ++ block.now)) }
        ensures free { OnOk result (before_feed self.new.held.items ≡ length self.new.held.items) }
        ensures written { OnOk result (self.new.pending.items ≡ []) }
    {
        self.take_lines(options, output, block)?;
        flush(output, &mut self.pending)?;
        Ok(())
    }

    /// Passes on what is due for a block of input: line by line, and then the front of a line is held.
    fn take_lines<W: Sink>(
        &mut self,
        options: &FilterOptions,
        output: &mut W,
        block: &[u8],
    ) -> Result<(), SinkFault>
        requires free { before_feed self.old.held.items ≡ length self.old.held.items }
        ensures gives { (more : List ℕ) → Gives (W.written output.old) (W.written output.new)
            (W.faults output.old) (W.faults output.new) result
            (ahead options.now self.old.pending.items self.old.held.items (block.now ++ more))
            (ahead options.now self.new.pending.items self.new.held.items more) }
        ensures kept { OnOk result ((seen : List ℕ) → self.old.held.items ≡ unfinished seen
            → self.new.held.items ≡ unfinished (seen ++ block.now)) }
        ensures free { OnOk result (before_feed self.new.held.items ≡ length self.new.held.items) }
    {
        let mut rest = block;
        loop {
            let staying = self.staying_len(options, rest);
            if staying > 0 {
                let (lines, after) = rest.split_at(staying);
                emit(output, &mut self.pending, lines)?;
                rest = after;
                continue;
            }
            let Some(end) = through_line_feed(rest) else {
                break;
            };
            let (line, after) = rest.split_at(end);
            self.complete(options, output, line)?;
            rest = after;
        }
        self.held.extend_from_slice(rest)?;
        Ok(())
    }

    /// Writes what is due for a last line without a line feed.
    pub(crate) fn finish<W: Sink>(
        &mut self,
        options: &FilterOptions,
        output: &mut W,
    ) -> Result<(), SinkFault>
        requires free { before_feed self.old.held.items ≡ length self.old.held.items }
        ensures { Gives (W.written output.old) (W.written output.new) (W.faults output.old) (W.faults output.new) result
            (ahead options.now self.old.pending.items self.old.held.items []) [] }
    {
        emit_last(
            &mut self.demangler,
            options,
            output,
            &mut self.pending,
            self.held.as_slice(),
        )?;
        flush(output, &mut self.pending)
    }
}
