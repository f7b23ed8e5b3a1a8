//! Runs of the program from end to end: lines, names, samples, help, wrong words.

use crate::checks::{holds, same};
use crate::words::{HELP, MISTAKES, RUNS};
use cppfilt_run::ends::Source;
use cppfilt_run::memory::{VecSink, VecSource};
use cppfilt_run::run::run;
use cppfilt_run::status::Status;
use std::alloc::{AllocError, Global};
use std::test::Fail;

/// A run's status, what it wrote, and what it left of its input.
#[derive(Drop)]
pub(crate) struct Ran {
    pub(crate) status: Status,
    pub(crate) output: VecSink,
    errors: VecSink,
    left: Vec<u8>,
}

/// The words of a line.
fn words_of(alloc: Global, line: &str) -> Result<Vec<String>, AllocError> {
    let mut words = Vec::new(alloc);
    for word in line.split(' ') {
        if !word.is_empty() {
            words.push(String::from_str(alloc, word)?)?;
        }
    }
    Ok(words)
}

/// A run over words and bytes.
pub(crate) fn run_over(alloc: Global, words: &str, input: &[u8]) -> Result<Ran, Fail> {
    let mut source = VecSource::new(Vec::from_slice(alloc, input)?);
    let mut output = VecSink::new(alloc);
    let mut errors = VecSink::new(alloc);
    let status = run(
        alloc,
        words_of(alloc, words)?,
        &mut source,
        &mut output,
        &mut errors,
    );
    let mut left = Vec::from_elem(alloc, 0u8, 64)?;
    let count = source.read(left.as_mut_slice()).unwrap_or(0);
    left.truncate(count);
    Ok(Ran {
        status,
        output,
        errors,
        left,
    })
}

#[test]
fn words_are_obeyed(rt: HostRuntime) -> Result<(), Fail> {
    for (words, input, output) in &RUNS {
        let case = (*words, *input);
        let ran = run_over(rt.alloc(), *words, *input)?;
        same(&rt, case, ran.status, Status::Done);
        same(&rt, case, ran.output.bytes(), *output);
        same(&rt, case, ran.errors.bytes(), b"".as_slice());
    }
    Ok(())
}

#[test]
fn wrong_words_are_refused(rt: HostRuntime) -> Result<(), Fail> {
    let last = b"\n\nFor more information, try '--help'.\n";
    for (words, told) in &MISTAKES {
        let ran = run_over(rt.alloc(), *words, b"_Z1fv\n")?;
        same(&rt, *words, ran.status, Status::Usage);
        same(&rt, *words, ran.output.bytes(), b"".as_slice());
        let errors = ran.errors.bytes();
        holds(&rt, *words, errors.starts_with(told.as_bytes()));
        holds(&rt, *words, errors.ends_with(last));
        same(&rt, *words, ran.left.as_slice(), b"_Z1fv\n".as_slice());
    }
    Ok(())
}

/// Words that ask for help.
static QUESTIONS: [&str; 4] = [
    "--help",
    "-h",
    "-p foo -h",
    "--parse-limit 0 --help --bogus",
];

#[test]
fn help_is_given(rt: HostRuntime) -> Result<(), Fail> {
    for words in &QUESTIONS {
        let ran = run_over(rt.alloc(), *words, b"_Z1fv\n")?;
        same(&rt, *words, ran.status, Status::Help);
        same(&rt, *words, ran.output.bytes(), HELP.as_bytes());
        same(&rt, *words, ran.errors.bytes(), b"".as_slice());
        same(&rt, *words, ran.left.as_slice(), b"_Z1fv\n".as_slice());
    }
    Ok(())
}

/// Each status, its code and its message.
static STATUSES: [(Status, u8, &[u8]); 7] = [
    (Status::Done, 0, b""),
    (Status::Help, 0, b""),
    (Status::Usage, 2, b""),
    (Status::ReadFault, 3, b"cppfilt: read fault\n"),
    (Status::WriteFault, 4, b"cppfilt: write fault\n"),
    (Status::InputTooLong, 5, b"cppfilt: input too long\n"),
    (Status::OutOfMemory, 6, b"cppfilt: out of memory\n"),
];

#[test]
fn statuses_have_their_codes(rt: HostRuntime) {
    for (status, code, message) in &STATUSES {
        same(&rt, *status, status.code(), *code);
        same(&rt, *status, status.message(), *message);
    }
}
