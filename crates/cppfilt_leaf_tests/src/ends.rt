//! The ends over what lies outside of them, and what the faulty ends do call by call.

use cppfilt_ends::ends::{Failed, Sink, Source};
use cppfilt_ends::faulty::{FaultySink, FaultySource};
use cppfilt_ends::standard::{StdSink, StdSource};
use demangle_context::SinkFault;
use std::fmt::Debug;
use std::io::{self, ErrorKind, Read, Write};
use std::process::Abort;
use std::test::Fail;

/// A reader and a writer that fails.
#[derive(Drop)]
struct Broken;

impl Read for Broken {
    fn read(&mut self, _buf: &mut [u8]) -> io::Result<usize> {
        Err(io::Error::from(ErrorKind::Other))
    }
}

impl Write for Broken {
    fn write(&mut self, _buf: &[u8]) -> io::Result<usize> {
        Err(io::Error::from(ErrorKind::Other))
    }

    fn flush(&mut self) -> io::Result<()> {
        Ok(())
    }
}

/// Ends the test where what is found at a call is other than what is wanted there. It is written out once, since each
/// assertion is dear to prove where it stands.
fn same<X: PartialEq + Debug + Drop>(rt: &impl Abort, call: &str, found: X, wanted: X) {
    assert_eq!(rt; found, wanted, "at {call}");
}

#[test]
fn the_standard_ends_tell_their_faults(rt: HostRuntime) {
    let mut buf = [0u8; 4];
    let mut source = StdSource::new(b"abcdef".as_slice());
    same(&rt, "the first read", source.read(&mut buf), Ok(4usize));
    same(&rt, "the second read", source.read(&mut buf), Ok(2usize));
    same(&rt, "the last read", source.read(&mut buf), Ok(0usize));
    let refused = StdSource::new(Broken).read(&mut buf);
    same(&rt, "a broken read", refused, Err(Failed));
    let refused = StdSink::new(Broken).write(b"abc");
    same(&rt, "a broken write", refused, Err(SinkFault::Failed));
    let mut sink = StdSink::new(buf.as_mut_slice());
    same(&rt, "the first write", sink.write(b"abc"), Ok(3usize));
    same(&rt, "the second write", sink.write(b"def"), Ok(1usize));
    same(&rt, "an empty write", sink.write(b""), Ok(0usize));
    let refused = sink.write(b"ef");
    same(&rt, "the last write", refused, Err(SinkFault::Failed));
    same(&rt, "the end", buf.as_slice(), b"abcd".as_slice());
}

/// What the reads of a source that fails twice answer.
static READS: [Result<usize, Failed>; 5] = [Ok(3), Err(Failed), Ok(1), Err(Failed), Ok(0)];

/// What the writes of a sink that fails twice answer.
static WRITES: [Result<usize, SinkFault>; 4] = [
    Err(SinkFault::Failed),
    Ok(2),
    Err(SinkFault::Failed),
    Ok(2),
];

#[test]
fn the_faulty_ends_fail_at_the_listed_calls(rt: HostRuntime) -> Result<(), Fail> {
    let bytes = Vec::from_slice(rt.alloc(), b"abcd")?;
    let calls = Vec::from_slice(rt.alloc(), [1u64, 3].as_slice())?;
    let mut source = FaultySource::new(bytes, 3, calls);
    let mut buf = [0u8; 8];
    for wanted in &READS {
        same(&rt, "a read", source.read(&mut buf), *wanted);
    }
    let calls = Vec::from_slice(rt.alloc(), [0u64, 2].as_slice())?;
    let mut sink = FaultySink::new(rt.alloc(), 2, calls);
    for wanted in &WRITES {
        same(&rt, "a write", sink.write(b"abc"), *wanted);
    }
    same(&rt, "the end", sink.bytes(), b"abab".as_slice());
    Ok(())
}
