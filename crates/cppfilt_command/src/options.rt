//! The options of the filter by what the command found in the words.

ghost use Rattle.std.specs.Prelude.{◌≡◌, ◌<◌, ◌^◌, Some, IfSome, unwrap_or, is_some, if◌then◌else◌, true};
ghost use Rattle.clap.specs.Words.{found_of, rows_of};
ghost use Rattle.cppfilt_command.specs.Asked.{is_set, options_with, print_with};

use clap::ArgMatches;
use cppfilt_lines::FilterOptions;
use demangle_context::DemangleOptions;
use demangle_text::ParseOptions;

/// Whether a flag is set.
fn is_set(matches: &ArgMatches<'_>, flag: &str) -> bool
    ensures { result ≡ is_set flag.now (rows_of (found_of matches.now)) }
{
    matches.get_str(flag).is_some_and(|value| value == "true")
}

/// How names are read, under a limit where one is given.
fn parse_options(limit: Option<usize>) -> ParseOptions
    requires { IfSome limit (λ n. (0 < n) × (n < 2 ^ 32)) }
    ensures { result ≡ unwrap_or limit 96 }
{
    match limit {
        Some(limit) => ParseOptions::default().recursion_limit(limit as u32),
        None => ParseOptions::default(),
    }
}

/// The same options, under a limit on levels where one is given.
fn under_limit(options: DemangleOptions, limit: Option<usize>) -> DemangleOptions
    requires { IfSome limit (λ n. (0 < n) × (n < 2 ^ 32)) }
    ensures { result ≡ record options { limit = unwrap_or limit options.limit } }
{
    match limit {
        Some(limit) => options.recursion_limit(limit as u32),
        None => options,
    }
}

/// The same options, with a greatest number of bytes where one is given.
fn at_most(options: DemangleOptions, bytes: Option<usize>) -> DemangleOptions
    ensures { result ≡ record options { output_limit = if is_some bytes then bytes else options.output_limit } }
{
    match bytes {
        Some(bytes) => options.output_limit(bytes),
        None => options,
    }
}

/// The same options, without parameters where that is asked.
fn without_params(options: DemangleOptions, asked: bool) -> DemangleOptions
    ensures { result ≡ record options { no_params = if asked then true else options.no_params } }
{
    if asked { options.no_params() } else { options }
}

/// The same options, without result types where that is asked.
fn without_results(options: DemangleOptions, asked: bool) -> DemangleOptions
    ensures { result ≡ record options { no_return_type = if asked then true else options.no_return_type } }
{
    if asked {
        options.no_return_type()
    } else {
        options
    }
}

/// The same options, without the types of literals where that is asked.
fn without_literal_types(options: DemangleOptions, asked: bool) -> DemangleOptions
    ensures { result ≡ record options {
      hide_expression_literal_types = if asked then true else options.hide_expression_literal_types;
    } }
{
    if asked {
        options.hide_expression_literal_types()
    } else {
        options
    }
}

/// How names are printed.
fn print_options(
    matches: &ArgMatches<'_>,
    limit: Option<usize>,
    bytes: Option<usize>,
) -> DemangleOptions
    requires { IfSome limit (λ n. (0 < n) × (n < 2 ^ 32)) }
    ensures { result ≡ print_with limit bytes (rows_of (found_of matches.now)) }
{
    let limited = at_most(under_limit(DemangleOptions::new(), limit), bytes);
    let named = without_params(limited, is_set(matches, "no-params"));
    let called = without_results(named, is_set(matches, "no-return-type"));
    without_literal_types(called, is_set(matches, "hide-literal-types"))
}

/// The options of the filter, with the numbers that were read.
pub(crate) fn filter_options(
    matches: &ArgMatches<'_>,
    parse_limit: Option<usize>,
    print_limit: Option<usize>,
    bytes: Option<usize>,
) -> FilterOptions
    requires parse { IfSome parse_limit (λ n. (0 < n) × (n < 2 ^ 32)) }
    requires print { IfSome print_limit (λ n. (0 < n) × (n < 2 ^ 32)) }
    ensures { result ≡ options_with parse_limit print_limit bytes (rows_of (found_of matches.now)) }
{
    FilterOptions {
        parse: parse_options(parse_limit),
        print: print_options(matches, print_limit, bytes),
        types: is_set(matches, "types"),
        why: is_set(matches, "why"),
    }
}
