//! Streams that are fed a text in pieces.

use crate::texts::TEXTS;
use demangle_context::DemangleOptions;
use demangle_stream::{Stream, StreamFault};
use demangle_text::ParseOptions;
use std::alloc::Global;
use std::test::Fail;

/// A stream at the beginning of a text, under the default options.
fn fresh(alloc: Global) -> Stream {
    Stream::new(alloc, ParseOptions::default(), DemangleOptions::new())
}

/// What a stream gives for two pieces.
fn fed_in_two(alloc: Global, front: &[u8], back: &[u8]) -> Result<Vec<u8>, StreamFault> {
    let mut stream = fresh(alloc);
    let mut out = Vec::new(alloc);
    stream.feed(front, &mut out)?;
    stream.feed(back, &mut out)?;
    stream.finish(&mut out)?;
    Ok(out)
}

#[test]
fn a_text_becomes_the_same_however_it_is_cut(rt: HostRuntime) -> Result<(), Fail> {
    for (text, wanted) in &TEXTS {
        for cut in 0..=text.len() {
            let (front, back) = text.split_at(cut.min(text.len()));
            let out = fed_in_two(rt.alloc(), front, back)?;
            assert_eq!(rt; out.as_slice(), *wanted, "{text:?} at {cut}");
        }
    }
    Ok(())
}

#[test]
fn the_front_of_a_name_waits(rt: HostRuntime) -> Result<(), Fail> {
    let mut stream = fresh(rt.alloc());
    let mut out: Vec<u8> = Vec::new(rt.alloc());
    for (piece, held) in [(b"_Z1".as_slice(), 3usize), (b"f", 4), (b"v", 5)] {
        assert!(rt; stream.feed(piece, &mut out).is_ok());
        assert_eq!(rt; (stream.held(), out.len()), (held, 0));
    }
    assert!(rt; stream.finish(&mut out).is_ok());
    assert_eq!(rt; stream.held(), 0);
    assert_eq!(rt; out.as_slice(), b"f()".as_slice());
    Ok(())
}
