//! A source and a sink in memory that move few bytes a call, and fail at chosen calls. They tell their bytes.

ghost use Rattle.std.specs.Prelude.{◌≡◌, ◌+◌, ◌-◌, ◌^◌, ◌<◌, ◌≤◌, ◌↔◌, [], Contains, IfOk, IsErr, IsErrOf, Some};
ghost use Rattle.std.specs.Prelude.{length, min};
ghost use Rattle.std.specs.Io.{ReadsAtMost};
ghost use Rattle.std.specs.Io.KnownBytes.{ReadConsumes, WriteAppends};
ghost use Rattle.cppfilt_ends.specs.Causes.{SinkCause, SourceCause, TakenCount, given_by};

use crate::ends::{Failed, Sink, Source, read_front};
use crate::memory::VecSource;
use demangle_context::SinkFault;
use std::alloc::Global;

/// A source of given bytes.
#[derive(Drop)]
pub struct FaultySource {
    inner: VecSource,
    step: usize,
    fail_at: Vec<u64>,
    calls: u64,
    faults: u64,
    last: usize,
    ghost moves: { 0 < step },
}

impl FaultySource {
    ghost use Rattle.cppfilt_ends.specs.Faulty.{source_calls, source_fails_at, source_step};

    /// A source whose bytes are these, of which a call moves at most `step`. Calls are numbered from 0, and those whose
    /// numbers are listed fail. Each call after number 2^64 - 1 has that number too.
    pub fn new(bytes: Vec<u8>, step: usize, fail_at: Vec<u64>) -> FaultySource
        requires { 0 < step }
        ensures left { ⟦<FaultySource as Source>⟧.left result ≡ Some bytes.items }
        ensures taken { ⟦<FaultySource as Source>⟧.taken result ≡ 0 }
        ensures last { ⟦<FaultySource as Source>⟧.last result ≡ 0 }
        ensures faults { ⟦<FaultySource as Source>⟧.faults result ≡ 0 }
        ensures calls { source_calls result ≡ 0 }
        ensures step { source_step result ≡ step }
        ensures fails_at { source_fails_at result ≡ fail_at.items }
    {
        FaultySource {
            inner: VecSource::new(bytes),
            step,
            fail_at,
            calls: 0,
            faults: 0,
            last: 0,
        }
    }
}

impl Source for FaultySource {
    ghost use Rattle.cppfilt_ends.specs.Faulty.{source_calls, source_fails_at, source_step};

    ghost left = { λ source. ⟦<VecSource as Source>⟧.left source.inner };

    ghost faults = { λ source. source.faults };

    ghost taken = { λ source. ⟦<VecSource as Source>⟧.taken source.inner };

    ghost last = { λ source. source.last };

    /// As the trait's; `Failed` comes at the listed calls and no others.
    fn read(&mut self, buf: &mut [u8]) -> Result<usize, Failed>
        ensures bound { ReadsAtMost result buf.new }
        ensures bytes { ReadConsumes (⟦<FaultySource as Source>⟧.left self.old)
            (⟦<FaultySource as Source>⟧.left self.new) result buf.new }
        ensures count { TakenCount (⟦<FaultySource as Source>⟧.taken self.old)
            (⟦<FaultySource as Source>⟧.taken self.new) result }
        ensures last { ⟦<FaultySource as Source>⟧.last self.new ≡ given_by result }
        ensures cause { SourceCause (⟦<FaultySource as Source>⟧.faults self.old)
            (⟦<FaultySource as Source>⟧.faults self.new) result }
        ensures fails { IsErr result ↔ Contains (source_fails_at self.old) (source_calls self.old) }
        ensures step { IfOk result (λ n. n ≤ source_step self.old) }
        ensures calls { source_calls self.new ≡ min (source_calls self.old + 1) (2 ^ 64 - 1) }
        ensures kept { (source_step self.new ≡ source_step self.old)
            × (source_fails_at self.new ≡ source_fails_at self.old) }
    {
        let call = self.calls;
        self.calls = call.saturating_add(1);
        if self.fail_at.contains(&call) {
            self.faults = self.faults.saturating_add(1);
            self.last = 0;
            return Err(Failed);
        }
        let most = buf.len().min(self.step);
        let count = read_front(&mut self.inner, buf, most)?;
        self.last = count;
        Ok(count)
    }
}

/// A sink that keeps what it is given.
#[derive(Drop)]
pub struct FaultySink {
    bytes: Vec<u8>,
    step: usize,
    fail_at: Vec<u64>,
    calls: u64,
    faults: u64,
    ghost moves: { 0 < step },
}

impl FaultySink {
    ghost use Rattle.cppfilt_ends.specs.Faulty.{sink_calls, sink_fails_at, sink_step};

    /// An empty sink, which takes at most `step` bytes a call. Calls are numbered from 0, and those whose numbers are
    /// listed fail. Each call after number 2^64 - 1 has that number too.
    pub fn new(alloc: Global, step: usize, fail_at: Vec<u64>) -> FaultySink
        requires { 0 < step }
        ensures written { ⟦<FaultySink as Sink>⟧.written result ≡ Some [] }
        ensures faults { ⟦<FaultySink as Sink>⟧.faults result ≡ 0 }
        ensures calls { sink_calls result ≡ 0 }
        ensures step { sink_step result ≡ step }
        ensures fails_at { sink_fails_at result ≡ fail_at.items }
    {
        FaultySink {
            bytes: Vec::new(alloc),
            step,
            fail_at,
            calls: 0,
            faults: 0,
        }
    }

    /// The bytes that were written.
    pub fn bytes(&self) -> &[u8]
        ensures { ⟦<FaultySink as Sink>⟧.written self.now ≡ Some result.now }
    {
        self.bytes.as_slice()
    }
}

impl Sink for FaultySink {
    ghost use Rattle.cppfilt_ends.specs.Faulty.{sink_calls, sink_fails_at, sink_step};

    ghost written = { λ sink. Some sink.bytes.items };

    ghost faults = { λ sink. sink.faults };

    /// As the trait's; `Failed` comes at the listed calls and no others.
    fn write(&mut self, piece: &[u8]) -> Result<usize, SinkFault>
        ensures bound { IfOk result (λ n. n ≤ length piece.now) }
        ensures advances { IfOk result (λ n. 0 < length piece.now → 0 < n) }
        ensures bytes { WriteAppends (⟦<FaultySink as Sink>⟧.written self.old)
            (⟦<FaultySink as Sink>⟧.written self.new) result piece.now }
        ensures cause { SinkCause (⟦<FaultySink as Sink>⟧.faults self.old)
            (⟦<FaultySink as Sink>⟧.faults self.new) result }
        ensures fails { IsErrOf result SinkFault.Failed ↔ Contains (sink_fails_at self.old) (sink_calls self.old) }
        ensures step { IfOk result (λ n. n ≤ sink_step self.old) }
        ensures calls { sink_calls self.new ≡ min (sink_calls self.old + 1) (2 ^ 64 - 1) }
        ensures kept { (sink_step self.new ≡ sink_step self.old) × (sink_fails_at self.new ≡ sink_fails_at self.old) }
    {
        let call = self.calls;
        self.calls = call.saturating_add(1);
        if self.fail_at.contains(&call) {
            self.faults = self.faults.saturating_add(1);
            return Err(SinkFault::Failed);
        }
        let count = piece.len().min(self.step);
        self.bytes.extend_from_slice(&piece[..count])?;
        Ok(count)
    }
}
