//! Runs over ends that move few bytes or fail, long lines, and inputs beyond the limit.

use crate::checks::{holds, same};
use crate::runs::run_over;
use cppfilt_run::FilterOptions;
use cppfilt_run::ends::{Sink, Source};
use cppfilt_run::faulty::{FaultySink, FaultySource};
use cppfilt_run::filter::filter_lines;
use cppfilt_run::memory::{VecSink, VecSource};
use cppfilt_run::run::run;
use cppfilt_run::status::Status;
use std::alloc::Global;
use std::process::Abort;
use std::test::Fail;

/// A run over two lines, whose source gives so many bytes a read and fails at one read.
fn read_with_fault(
    rt: &(impl AllocGlobal + Abort),
    step: usize,
    fail_at: u64,
    status: Status,
    output: &[u8],
) -> Result<(), Fail> {
    let bytes = Vec::from_slice(rt.alloc(), b"_Z1fv\n_Z1gv\n")?;
    let calls = Vec::from_slice(rt.alloc(), [fail_at].as_slice())?;
    let mut source = FaultySource::new(bytes, step.max(1), calls);
    let mut written = VecSink::new(rt.alloc());
    let mut errors = VecSink::new(rt.alloc());
    let words = Vec::new(rt.alloc());
    let answer = run(rt.alloc(), words, &mut source, &mut written, &mut errors);
    same(rt, fail_at, answer, status);
    same(rt, fail_at, written.bytes(), output);
    same(rt, fail_at, errors.bytes(), answer.message());
    Ok(())
}

#[test]
fn a_failed_read_leaves_the_complete_lines(rt: HostRuntime) -> Result<(), Fail> {
    read_with_fault(&rt, 6, 1, Status::ReadFault, b"f()\n")?;
    for call in 0..14u64 {
        let output: &[u8] = match call {
            0..6 => b"",
            6..12 => b"f()\n",
            _ => b"f()\ng()\n",
        };
        let status = if call < 13 {
            Status::ReadFault
        } else {
            Status::Done
        };
        read_with_fault(&rt, 1, call, status, output)?;
    }
    Ok(())
}

#[test]
fn a_failed_write_leaves_a_front(rt: HostRuntime) -> Result<(), Fail> {
    let due: &[u8] = b"f()\ng()\n";
    for call in 0..9usize {
        let bytes = Vec::from_slice(rt.alloc(), b"_Z1fv\n_Z1gv\n")?;
        let calls = Vec::from_slice(rt.alloc(), [call as u64].as_slice())?;
        let mut source = VecSource::new(bytes);
        let mut output = FaultySink::new(rt.alloc(), 1, calls);
        let mut errors = VecSink::new(rt.alloc());
        let words = Vec::new(rt.alloc());
        let answer = run(rt.alloc(), words, &mut source, &mut output, &mut errors);
        let status = if call < 8 {
            Status::WriteFault
        } else {
            Status::Done
        };
        same(&rt, call, answer, status);
        same(&rt, call, output.bytes(), &due[..call.min(due.len())]);
        same(&rt, call, errors.bytes(), answer.message());
    }
    Ok(())
}

/// Words, and the status of a run whose first read and first message fail.
static STATUSES: [(&str, Status); 3] = [
    ("--bogus", Status::Usage),
    ("--types", Status::ReadFault),
    ("--help", Status::Help),
];

#[test]
fn a_failed_message_changes_no_status(rt: HostRuntime) -> Result<(), Fail> {
    for (word, status) in &STATUSES {
        let mut words = Vec::new(rt.alloc());
        words.push(String::from_str(rt.alloc(), *word)?)?;
        let first_read = Vec::from_slice(rt.alloc(), [0u64].as_slice())?;
        let first_write = Vec::from_slice(rt.alloc(), [0u64].as_slice())?;
        let mut source = FaultySource::new(Vec::new(rt.alloc()), 1, first_read);
        let mut output = VecSink::new(rt.alloc());
        let mut errors = FaultySink::new(rt.alloc(), 1, first_write);
        let answer = run(rt.alloc(), words, &mut source, &mut output, &mut errors);
        same(&rt, *word, answer, *status);
        same(&rt, *word, errors.bytes(), b"".as_slice());
    }
    Ok(())
}

/// A name of so many bytes in all, of a function `a..a` of one `int`.
fn long_name(alloc: Global, letters: usize) -> Result<Vec<u8>, Fail> {
    let mut name = Vec::new(alloc);
    name.extend_from_slice(format!(in alloc; "_Z{letters}")?.as_bytes())?;
    name.extend_from_slice(Vec::from_elem(alloc, b'a', letters)?.as_slice())?;
    name.push(b'i')?;
    Ok(name)
}

/// A line of such a name.
fn long_line(alloc: Global, letters: usize, ending: &[u8]) -> Result<Vec<u8>, Fail> {
    let mut line = long_name(alloc, letters)?;
    line.extend_from_slice(ending)?;
    Ok(line)
}

/// The line that it becomes where it isn't too long.
fn long_text(alloc: Global, letters: usize, ending: &[u8]) -> Result<Vec<u8>, Fail> {
    let mut line = Vec::from_elem(alloc, b'a', letters)?;
    line.extend_from_slice(b"(int)")?;
    line.extend_from_slice(ending)?;
    Ok(line)
}

/// How many letters a name has, what ends its line, and whether it is taken for a name.
static LONG_LINES: [(usize, &[u8], bool); 3] = [
    (1_048_566, b"\r\n", true),
    (1_048_566, b"\r\r\n", false),
    (1_048_567, b"", false),
];

#[test]
fn long_lines_stay(rt: HostRuntime) -> Result<(), Fail> {
    for (letters, ending, is_name) in &LONG_LINES {
        let input = long_line(rt.alloc(), *letters, *ending)?;
        let ran = run_over(rt.alloc(), "-w", input.as_slice())?;
        same(&rt, *letters, ran.status, Status::Done);
        let text = long_text(rt.alloc(), *letters, *ending)?;
        let output = ran.output.bytes();
        let is_right = if *is_name {
            output == text.as_slice()
        } else {
            output == input.as_slice()
        };
        holds(&rt, *letters, is_right);
    }
    Ok(())
}

/// Limits, the status of a run over six bytes, and what is written.
static LIMITS: [(u64, Status, &[u8]); 5] = [
    (4, Status::InputTooLong, b"a\nb\n"),
    (5, Status::InputTooLong, b"a\nb\n"),
    (6, Status::Done, b"a\nb\nc\n"),
    (7, Status::Done, b"a\nb\nc\n"),
    (0, Status::InputTooLong, b""),
];

#[test]
fn an_input_beyond_the_limit_is_too_long(rt: HostRuntime) -> Result<(), Fail> {
    let options = FilterOptions::default();
    for (limit, status, written) in &LIMITS {
        let mut source = VecSource::new(Vec::from_slice(rt.alloc(), b"a\nb\nc\n")?);
        let mut output = VecSink::new(rt.alloc());
        let answer = filter_lines(rt.alloc(), &options, *limit, &mut source, &mut output);
        same(&rt, *limit, answer, *status);
        same(&rt, *limit, output.bytes(), *written);
    }
    Ok(())
}
