//! A source and a sink in memory. They tell their bytes, and fail only for lack of memory.

ghost use Rattle.std.specs.Prelude.{◌≡◌, ◌≤◌, Some, [], drop, length};

use crate::ends::{Failed, Sink, Source};
use demangle_context::SinkFault;
use std::alloc::Global;

/// A source of given bytes.
#[derive(Drop)]
pub struct VecSource {
    bytes: Vec<u8>,
    taken: usize,
    last: usize,
    ghost within: { taken ≤ length bytes.items },
}

impl VecSource {
    /// A source whose bytes are these.
    pub fn new(bytes: Vec<u8>) -> VecSource
        ensures left { ⟦<VecSource as Source>⟧.left result ≡ Some bytes.items }
        ensures taken { ⟦<VecSource as Source>⟧.taken result ≡ 0 }
        ensures last { ⟦<VecSource as Source>⟧.last result ≡ 0 }
        ensures faults { ⟦<VecSource as Source>⟧.faults result ≡ 0 }
    {
        VecSource {
            bytes,
            taken: 0,
            last: 0,
        }
    }
}

impl Source for VecSource {
    ghost left = { λ source. Some (drop source.taken source.bytes.items) };

    ghost faults = { λ _. 0 };

    ghost taken = { λ source. source.taken };

    ghost last = { λ source. source.last };

    fn read(&mut self, buf: &mut [u8]) -> Result<usize, Failed> {
        let count = buf.len().min(self.bytes.len() - self.taken);
        let end = self.taken + count;
        buf[..count].copy_from_slice(&self.bytes[self.taken..end]);
        self.taken = end;
        self.last = count;
        Ok(count)
    }
}

/// A sink that keeps what it is given.
#[derive(Drop)]
pub struct VecSink {
    bytes: Vec<u8>,
}

impl VecSink {
    /// An empty sink.
    pub fn new(alloc: Global) -> VecSink
        ensures written { ⟦<VecSink as Sink>⟧.written result ≡ Some [] }
        ensures faults { ⟦<VecSink as Sink>⟧.faults result ≡ 0 }
    {
        VecSink {
            bytes: Vec::new(alloc),
        }
    }

    /// The bytes that were written.
    pub fn bytes(&self) -> &[u8]
        ensures { ⟦<VecSink as Sink>⟧.written self.now ≡ Some result.now }
    {
        self.bytes.as_slice()
    }
}

impl Sink for VecSink {
    ghost written = { λ sink. Some sink.bytes.items };

    ghost faults = { λ _. 0 };

    fn write(&mut self, piece: &[u8]) -> Result<usize, SinkFault> {
        self.bytes.extend_from_slice(piece)?;
        Ok(piece.len())
    }
}
