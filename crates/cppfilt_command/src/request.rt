//! What words ask for.

ghost use Rattle.std.specs.Prelude.{◌≡◌, map, true, IfOk, IfErr};
ghost use Rattle.std.specs.Prelude.{unwrap_or, codes, []};
ghost use Rattle.clap.specs.Words.{all_of, found_of, rows_of};
ghost use Rattle.cppfilt_command.specs.Asked.{has_good_numbers, options_in, work_by, work_in};
ghost use Rattle.cppfilt_command.specs.Refusals.{work_of};
ghost use Rattle.cppfilt_command.specs.Mistakes.{IsMistake};
ghost use Rattle.cppfilt_command.specs.declared.request.Mistake.TheVariants as mistake;

use crate::number::{BadNumber, number_of};
use crate::options::filter_options;
use clap::ArgMatches;
use cppfilt_lines::FilterOptions;
use std::alloc::{AllocError, Global};

/// The greatest limit on levels that may be given.
const LIMIT_MOST: usize = 1024;

/// The greatest number of bytes that may be given.
const OUTPUT_MOST: usize = 1_073_741_824;

/// The greatest sample.
const SAMPLE_MOST: usize = 100_000;

/// What the program is asked to do.
#[derive(Drop)]
pub enum Task<'a> {
    /// To filter the lines of the input.
    Lines,
    /// To show these names.
    Names(Vec<&'a str>),
    /// To demangle a sample of so many names.
    Sample(usize),
}

/// What the words ask for.
#[derive(Drop)]
pub struct Request<'a> {
    /// How names are shown.
    pub options: FilterOptions,
    /// What is to be done.
    pub task: Task<'a>,
}

/// Why what the command found isn't a request.
#[derive(Drop)]
pub(crate) enum Mistake<'a> {
    /// A value isn't a number in its range.
    Number(BadNumber<'a>),
    /// There was no memory.
    OutOfMemory,
}

impl<'a> From<BadNumber<'a>> for Mistake<'a> {
    ghost from_gives = { λ bad m. m ≡ mistake.Number bad };

    fn from(bad: BadNumber<'a>) -> Mistake<'a> {
        Mistake::Number(bad)
    }
}

impl<'a> From<AllocError> for Mistake<'a> {
    ghost from_gives = { λ _ m. m ≡ mistake.OutOfMemory };

    fn from(_error: AllocError) -> Mistake<'a> {
        Mistake::OutOfMemory
    }
}

/// The names that are given.
fn names_in<'a>(alloc: Global, matches: &ArgMatches<'a>) -> Result<Vec<&'a str>, AllocError>
    ensures { IfOk result (λ names. map (λ name. name.now) names.items
        ≡ unwrap_or (all_of (codes "names") (rows_of (found_of matches.now))) []) }
{
    match matches.get_strs("names") {
        Some(names) => Vec::from_slice(alloc, names),
        None => Ok(Vec::new(alloc)),
    }
}

/// What is asked for, by the sample and the names that are given.
fn task_of<'a>(sample: Option<usize>, names: Vec<&'a str>) -> Task<'a>
    ensures { work_of result ≡ work_by sample (map (λ name. name.now) names.entry.items) }
{
    match sample {
        Some(count) => Task::Sample(count),
        None if names.is_empty() => Task::Lines,
        None => Task::Names(names),
    }
}

/// What the words ask for, by what the command found in them.
pub(crate) fn request_in<'a>(
    alloc: Global,
    matches: &ArgMatches<'a>,
) -> Result<Request<'a>, Mistake<'a>>
    ensures good { IfOk result (λ r. (has_good_numbers (rows_of (found_of matches.now)) ≡ true)
        × (r.options ≡ options_in (rows_of (found_of matches.now)))
        × (work_of r.task ≡ work_in (rows_of (found_of matches.now)))) }
    ensures bad { IfErr result (IsMistake (rows_of (found_of matches.now))) }
{
    let parse_limit = number_of(matches, "parse-limit", LIMIT_MOST)?;
    let print_limit = number_of(matches, "print-limit", LIMIT_MOST)?;
    let max_output = number_of(matches, "max-output", OUTPUT_MOST)?;
    let sample = number_of(matches, "sample", SAMPLE_MOST)?;
    let options = filter_options(matches, parse_limit, print_limit, max_output);
    let task = task_of(sample, names_in(alloc, matches)?);
    Ok(Request { options, task })
}
