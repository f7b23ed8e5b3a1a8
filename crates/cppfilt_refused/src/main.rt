//! The program `cppfilt` once more, for a run that is refused: one of its words is no text.
#![tactic(auto)]

use cppfilt_run::program::{Ended, start};
use cppfilt_run::standard::{StdSink, StdSource};

fn main(rt: HostRuntime) -> Ended {
    let mut input = StdSource::new(rt.stdin());
    let mut output = StdSink::new(rt.stdout());
    let mut errors = StdSink::new(rt.stderr());
    start(&rt, &mut input, &mut output, &mut errors)
}
