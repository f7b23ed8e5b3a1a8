//! Numbers among the words.

ghost use Rattle.std.specs.Prelude.{◌≡◌, ◌≤◌, true, false, IfOk, IfSome, OnErr};
ghost use Rattle.clap.specs.Words.{found_of, rows_of};
ghost use Rattle.cppfilt_command.specs.Asked.{is_good, number_in, number_upto};

use clap::ArgMatches;
use demangle_text::{IndexStr, parse_unsigned};

/// The value of an option that isn't a number in its range.
#[derive(Clone, Copy)]
pub(crate) struct BadNumber<'a> {
    pub(crate) option: &'static str,
    pub(crate) most: usize,
    pub(crate) text: &'a str,
}

/// The number from 1 to `most` that a word is: decimal digits and nothing else, without a leading zero.
fn number_upto(most: usize, text: &str) -> Option<usize>
    ensures value { result ≡ number_upto most text.now }
    ensures range { IfSome result (λ n. (1 ≤ n) × (n ≤ most)) }
{
    match parse_unsigned(10, IndexStr::new(text.as_bytes())) {
        Ok((n, rest)) if rest.is_empty() && 1 <= n && n <= most => Some(n),
        _ => None,
    }
}

/// The number of an option, where the option is given.
pub(crate) fn number_of<'a>(
    matches: &ArgMatches<'a>,
    option: &'static str,
    most: usize,
) -> Result<Option<usize>, BadNumber<'a>>
    ensures good { IfOk result (λ n. (is_good most option.now (rows_of (found_of matches.now)) ≡ true)
        × (n ≡ number_in most option.now (rows_of (found_of matches.now)))) }
    ensures bad { OnErr result (is_good most option.now (rows_of (found_of matches.now)) ≡ false) }
    ensures range { IfOk result (λ n. IfSome n (λ v. (1 ≤ v) × (v ≤ most))) }
{
    let Some(text) = matches.get_str(option) else {
        return Ok(None);
    };
    match number_upto(most, text) {
        Some(n) => Ok(Some(n)),
        None => Err(BadNumber { option, most, text }),
    }
}
