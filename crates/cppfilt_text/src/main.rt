//! The program `cppfilt_text`: it writes its input again, each linker name inside it as its text.
#![tactic(auto)]

use cppfilt_text_run::program::{Ended, start};
use cppfilt_text_run::standard::{StdSink, StdSource};

fn main(rt: HostRuntime) -> Ended {
    let mut input = StdSource::new(rt.stdin());
    let mut output = StdSink::new(rt.stdout());
    let mut errors = StdSink::new(rt.stderr());
    start(&rt, &mut input, &mut output, &mut errors)
}
