//! Runs of the program from end to end.

use crate::texts::TEXTS;
use cppfilt_ends::faulty::FaultySource;
use cppfilt_ends::memory::{VecSink, VecSource};
use cppfilt_run::status::Status;
use cppfilt_text_run::run::run;
use std::alloc::{AllocError, Global};
use std::test::Fail;

/// A word, a text, and what is written for it.
static WORDS: [(&str, &[u8], &[u8]); 6] = [
    ("-p", b"<_Z1fIiEvT_>", b"<void f<int>>"),
    ("-r", b"<_Z1fIiEvT_>", b"<f<int>(int)>"),
    ("-l", b"<_Z1fILm5EEvv>", b"<void f<5>()>"),
    ("--parse-limit=1", b"<_Z1fv>", b"<_Z1fv>"),
    ("--print-limit=1", b"<_Z1fv>", b"<_Z1fv>"),
    ("--max-output=2", b"<_Z1fv>", b"<_Z1fv>"),
];

/// Words that are refused, and what is told first.
static MISTAKES: [(&str, &str); 5] = [
    ("_Z1fv", "error: unexpected argument '_Z1fv' found"),
    ("--why", "error: unexpected argument '--why' found"),
    ("-t", "error: unexpected argument '-t' found"),
    ("--sample=1", "error: unexpected argument '--sample' found"),
    (
        "--parse-limit=0",
        "error: invalid value '0' for '--parse-limit <N>': not a number from 1 to 1024",
    ),
];

/// The words of a command line with this word, or without one.
fn words_of(alloc: Global, word: &str) -> Result<Vec<String>, AllocError> {
    let mut words = Vec::new(alloc);
    if !word.is_empty() {
        words.push(String::from_str(alloc, word)?)?;
    }
    Ok(words)
}

/// The status of a run over a word and bytes, with what it wrote to the output and to the errors.
fn run_over(alloc: Global, word: &str, input: &[u8]) -> Result<(Status, VecSink, VecSink), Fail> {
    let mut source = VecSource::new(Vec::from_slice(alloc, input)?);
    let mut output = VecSink::new(alloc);
    let mut errors = VecSink::new(alloc);
    let words = words_of(alloc, word)?;
    let status = run(alloc, words, &mut source, &mut output, &mut errors);
    Ok((status, output, errors))
}

#[test]
fn texts_are_filtered(rt: HostRuntime) -> Result<(), Fail> {
    for (text, wanted) in &TEXTS {
        let (status, output, errors) = run_over(rt.alloc(), "", text)?;
        assert_eq!(rt; status, Status::Done, "{text:?}");
        assert_eq!(rt; output.bytes(), *wanted);
        assert_eq!(rt; errors.bytes(), b"".as_slice());
    }
    for (word, text, wanted) in &WORDS {
        let (status, output, _errors) = run_over(rt.alloc(), word, text)?;
        assert_eq!(rt; status, Status::Done, "{word}");
        assert_eq!(rt; output.bytes(), *wanted, "{word}");
    }
    Ok(())
}

#[test]
fn wrong_words_are_refused(rt: HostRuntime) -> Result<(), Fail> {
    for (word, told) in &MISTAKES {
        let (status, output, errors) = run_over(rt.alloc(), word, b"_Z1fv")?;
        assert_eq!(rt; status, Status::Usage, "{word}");
        assert_eq!(rt; output.bytes(), b"".as_slice());
        assert!(rt; errors.bytes().starts_with(told.as_bytes()), "{word}");
    }
    let (status, output, _errors) = run_over(rt.alloc(), "-h", b"_Z1fv")?;
    assert_eq!(rt; status, Status::Help);
    assert!(rt;
        output
            .bytes()
            .starts_with(b"Show the C++ linker names inside a text")
    );
    Ok(())
}

/// What is written of a text whose source gives a byte a read and fails at one read.
static FRONTS: [(u64, &[u8]); 6] = [
    (0, b""),
    (3, b"to "),
    (4, b"to "),
    (8, b"to "),
    (9, b"to f() "),
    (12, b"to f() lo "),
];

#[test]
fn a_failed_read_leaves_what_is_settled(rt: HostRuntime) -> Result<(), Fail> {
    for (call, wanted) in &FRONTS {
        let bytes = Vec::from_slice(rt.alloc(), b"to _Z1fv lo _Z1gv")?;
        let calls = Vec::from_slice(rt.alloc(), [*call].as_slice())?;
        let mut source = FaultySource::new(bytes, 1, calls);
        let mut output = VecSink::new(rt.alloc());
        let mut errors = VecSink::new(rt.alloc());
        let words = Vec::new(rt.alloc());
        let status = run(rt.alloc(), words, &mut source, &mut output, &mut errors);
        assert_eq!(rt; status, Status::ReadFault, "{call}");
        assert_eq!(rt; output.bytes(), *wanted, "{call}");
        assert_eq!(rt; errors.bytes(), b"cppfilt: read fault\n".as_slice());
    }
    Ok(())
}
