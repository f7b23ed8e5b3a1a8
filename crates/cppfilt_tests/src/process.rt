//! The program as a process runs it: its words, its streams, the code that it ends with.

use crate::checks::same;
use cppfilt_run::faulty::{FaultySink, FaultySource};
use cppfilt_run::memory::VecSink;
use cppfilt_run::program::start;
use std::env::{Env, FillError};
use std::process::{ExitCode, Termination};
use std::test::Fail;

/// An environment with these words, of which the first is the program's name, and nothing else.
#[derive(Drop)]
struct Words {
    all: &'static [&'static [u8]],
}

impl Env for Words {
    fn arg(&self, i: usize, buf: &mut [u8]) -> Result<usize, FillError> {
        let Some(word) = self.all.get(i) else {
            return Err(FillError::NotPresent);
        };
        if word.len() > buf.len() {
            return Err(FillError::TooLong);
        }
        buf[..word.len()].copy_from_slice(*word);
        Ok(word.len())
    }

    fn var(&self, _name: &str, _buf: &mut [u8]) -> Result<usize, FillError> {
        Err(FillError::NotPresent)
    }

    fn var_at(&self, _i: usize, _buf: &mut [u8]) -> Result<usize, FillError> {
        Err(FillError::NotPresent)
    }
}

/// A run of a process over the line `_Z1fv`.
struct Run {
    words: &'static [&'static [u8]],
    /// Which read fails, and which write.
    fails: (u64, u64),
    code: u8,
    output: &'static [u8],
    errors: &'static [u8],
}

const NEVER: u64 = 99;

static PROCESSES: [Run; 5] = [
    Run {
        words: &[b"cppfilt"],
        fails: (NEVER, NEVER),
        code: 0,
        output: b"f()\n",
        errors: b"",
    },
    Run {
        words: &[b"cppfilt", b"-p", b"_Z1fIiEvT_", b"foo"],
        fails: (0, NEVER),
        code: 0,
        output: b"void f<int>\nfoo\n",
        errors: b"",
    },
    Run {
        words: &[b"cppfilt", b"\xff"],
        fails: (0, 0),
        code: 2,
        output: b"",
        errors: b"error: a word is not valid UTF-8\n",
    },
    Run {
        words: &[b"cppfilt"],
        fails: (0, NEVER),
        code: 3,
        output: b"",
        errors: b"cppfilt: read fault\n",
    },
    Run {
        words: &[b"cppfilt"],
        fails: (NEVER, 0),
        code: 4,
        output: b"",
        errors: b"cppfilt: write fault\n",
    },
];

#[test]
fn a_process_ends_as_its_run_does(rt: HostRuntime) -> Result<(), Fail> {
    for run in &PROCESSES {
        let read = Vec::from_slice(rt.alloc(), [run.fails.0].as_slice())?;
        let write = Vec::from_slice(rt.alloc(), [run.fails.1].as_slice())?;
        let bytes = Vec::from_slice(rt.alloc(), b"_Z1fv\n")?;
        let mut input = FaultySource::new(bytes, 64, read);
        let mut output = FaultySink::new(rt.alloc(), 64, write);
        let mut errors = VecSink::new(rt.alloc());
        let words = (Words { all: run.words }, rt.alloc());
        let ended = start(&words, &mut input, &mut output, &mut errors);
        same(&rt, run.code, ended.report(&rt), ExitCode::from(run.code));
        same(&rt, run.code, output.bytes(), run.output);
        same(&rt, run.code, errors.bytes(), run.errors);
    }
    Ok(())
}
