//! What words ask for. Runs over words and bytes stand in cppfilt_tests.

use cppfilt_command::{Refusal, Task, judge};
use std::alloc::Global;
use std::test::Fail;

fn words_of(alloc: Global, words: &[&str]) -> Result<Vec<String>, Fail> {
    let mut all = Vec::new(alloc);
    for word in words {
        all.push(String::from_str(alloc, *word)?)?;
    }
    Ok(all)
}

/// Words of several kinds.
static WORDS: [&str; 7] = [
    "cppfilt",
    "-wp",
    "--print-limit",
    "7",
    "--max-output=9",
    "a",
    "b",
];

#[test]
fn words_ask_for_tasks(rt: HostRuntime) -> Result<(), Fail> {
    let words = words_of(rt.alloc(), &WORDS)?;
    let request = judge(rt.alloc(), words.as_slice())
        .ok()
        .ok_or("no request")?;
    let options = request.options;
    assert!(rt; options.why && !options.types);
    let levels = (options.parse.limit(), options.print.limit());
    assert_eq!(rt;
        (levels, options.print.output_bytes()),
        ((96, 7), Some(9usize))
    );
    match &request.task {
        Task::Names(names) => assert_eq!(rt; names.as_slice(), ["a", "b"].as_slice()),
        _ => assert!(rt; false, "other than names"),
    }
    Ok(())
}

#[test]
fn a_flag_has_no_value(rt: HostRuntime) -> Result<(), Fail> {
    let words = words_of(rt.alloc(), ["cppfilt", "--types=1"].as_slice())?;
    assert!(rt; matches!(judge(rt.alloc(), words.as_slice()), Err(Refusal::Usage(_))));
    Ok(())
}
