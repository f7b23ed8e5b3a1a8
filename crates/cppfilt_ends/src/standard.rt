//! Readers and writers of std as sources and sinks, the standard streams among them. They tell the bytes that the
//! reader or the writer tells, and count their faults; the standard streams tell none.

ghost use Rattle.std.specs.Prelude.{◌≡◌};

use crate::ends::{Failed, Sink, Source};
use demangle_context::SinkFault;
use std::io::{Read, Write};

/// A reader, as standard input, with the counts of its faults and of the bytes taken.
#[derive(Drop)]
pub struct StdSource<R> {
    inner: R,
    faults: u64,
    taken: u64,
    last: usize,
}

impl<R: Read> StdSource<R> {
    /// A source over a reader, with no fault so far and nothing taken.
    pub fn new(inner: R) -> StdSource<R>
        ensures left { ⟦<StdSource<R> as Source>⟧.left result ≡ R.remaining inner }
        ensures faults { ⟦<StdSource<R> as Source>⟧.faults result ≡ 0 }
        ensures taken { ⟦<StdSource<R> as Source>⟧.taken result ≡ 0 }
        ensures last { ⟦<StdSource<R> as Source>⟧.last result ≡ 0 }
    {
        StdSource {
            inner,
            faults: 0,
            taken: 0,
            last: 0,
        }
    }
}

impl<R: Read> Source for StdSource<R> {
    ghost left = { λ source. R.remaining source.inner };

    ghost faults = { λ source. source.faults };

    ghost taken = { λ source. source.taken };

    ghost last = { λ source. source.last };

    fn read(&mut self, buf: &mut [u8]) -> Result<usize, Failed> {
        match self.inner.read(buf) {
            Ok(count) => {
                self.taken = self.taken.saturating_add(count as u64);
                self.last = count;
                Ok(count)
            }
            Err(_) => {
                self.faults = self.faults.saturating_add(1);
                self.last = 0;
                Err(Failed)
            }
        }
    }
}

/// A writer, as standard output or standard error, with the count of its faults.
#[derive(Drop)]
pub struct StdSink<W> {
    inner: W,
    faults: u64,
}

impl<W: Write> StdSink<W> {
    /// A sink over a writer, with no fault so far.
    pub fn new(inner: W) -> StdSink<W>
        ensures written { ⟦<StdSink<W> as Sink>⟧.written result ≡ W.contents inner }
        ensures faults { ⟦<StdSink<W> as Sink>⟧.faults result ≡ 0 }
    {
        StdSink { inner, faults: 0 }
    }
}

impl<W: Write> Sink for StdSink<W> {
    ghost written = { λ sink. W.contents sink.inner };

    ghost faults = { λ sink. sink.faults };

    /// As the trait's; a write that takes nothing of a piece with bytes is a fault.
    fn write(&mut self, piece: &[u8]) -> Result<usize, SinkFault> {
        if let Ok(count) = self.inner.write(piece) {
            if count > 0 || piece.is_empty() {
                return Ok(count);
            }
        }
        self.faults = self.faults.saturating_add(1);
        Err(SinkFault::Failed)
    }
}
