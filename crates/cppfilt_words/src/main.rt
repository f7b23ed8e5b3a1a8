//! The program `cppfilt` once more, for a further stored run: words with options and names, so that nothing is read.
#![tactic(auto)]

use cppfilt_run::program::{Ended, start};
use cppfilt_run::standard::{StdSink, StdSource};

fn main(rt: HostRuntime) -> Ended {
    let mut input = StdSource::new(rt.stdin());
    let mut output = StdSink::new(rt.stdout());
    let mut errors = StdSink::new(rt.stderr());
    start(&rt, &mut input, &mut output, &mut errors)
}
