//! The program with the words of a process, over the ends that it is handed.

ghost use Rattle.std.specs.Prelude.{◌≡◌, ◌≢◌};
ghost use Rattle.std.specs.Io.KnownBytes.{Appends};
ghost use Rattle.std.specs.Process.{exit_status};
ghost use Rattle.cppfilt_ends.specs.Causes.{NoFault};
ghost use Rattle.cppfilt_run.specs.StatusText.{code_of, message_of};
ghost use Rattle.cppfilt_text_run.specs.Process.{Started, status_in};

use crate::run::run_by_words;
use cppfilt_ends::ends::{Sink, Source};
use cppfilt_run::run::{refuse_words, report};
use cppfilt_run::status::Status;
use cppfilt_run::words::{NoWords, words};
use std::env::Env;
use std::io::Eprint;
use std::process::{ExitCode, Termination};

/// How the program ended. Only `start` makes one, so a `main` that returns it can't end the process in another way.
#[derive(Drop)]
pub struct Ended {
    status: Status,
}

impl Termination for Ended {
    /// The process ends with the status's code.
    fn report<R: Eprint>(self, _rt: &R) -> ExitCode
        ensures { exit_status result ≡ code_of (status_in self) }
    {
        self.status.exit_code()
    }
}

/// The whole program: `run` over the words of the process and these ends. Words that are no text are wrong words.
///
/// No contract tells what the words of a process are, so what is said is said for some words, or for none that are
/// text.
pub fn start<R: Source, W: Sink, E: Sink>(
    rt: &(impl Env + AllocGlobal),
    input: &mut R,
    output: &mut W,
    errors: &mut E,
) -> Ended
    // It reads, writes and ends as `run` does,
    ensures ran { Started (status_in result) (R.faults input.old) (R.faults input.new)
        (W.faults output.old) (W.faults output.new) (R.taken input.old) (R.taken input.new) (R.last input.new)
        (R.left input.old) (R.left input.new) (W.written output.old) (W.written output.new) }
    // and where `errors` had no fault, it was given the status's message and nothing else, but for wrong words.
    ensures message { NoFault (E.faults errors.old) (E.faults errors.new) → status_in result ≢ Status.OutOfMemory
        → status_in result ≢ Status.Usage
        → Appends (E.written errors.old) (E.written errors.new) (message_of (status_in result)) }
{
    let status = match words(rt) {
        Ok(words) => run_by_words(rt.alloc(), words, input, output, errors),
        Err(NoWords::NoText) => refuse_words(errors),
        Err(NoWords::OutOfMemory) => report(Status::OutOfMemory, errors),
    };
    Ended { status }
}
