//! The command that takes the words: one simple command of `clap`.

ghost use Rattle.std.specs.Prelude.{◌≡◌, IfOk, false};
ghost use Rattle.clap.specs.Words.{app_of, rule_of};
ghost use Rattle.cppfilt_command.specs.Command.{command, flag, names, number, with_flags, with_limits};
ghost use Rattle.cppfilt_command.specs.Command.{with_numbers, with_printing_flags};

use clap::{Arg, ArgAction, Command};
use std::alloc::{AllocError, Global};

/// What stands above the usage.
const ABOUT: &str = "\
Show C++ linker names as the names in the source.

Standard input is copied to standard output, line by line. A line that consists
of one linker name of the Itanium C++ ABI, as GCC and Clang make them, becomes
its text. Any other line stays as it is.";

/// What stands below the options.
const AFTER: &str = "\
A line or NAME of at most 1048576 bytes is taken for a linker name where it
begins with _Z, __Z, ___Z, ____Z or _GLOBAL_; with --types each is. One that
can't be read or shown stays as it is. A crafted name may take very long, since
parts of a name that fail are read again, and its text may take all memory: for
names from strangers set a low --parse-limit, and --max-output.

Examples:
  Show a name:
      cppfilt _ZNSt6vectorIiSaIiEE9push_backERKi
  Show the symbols of an object file, and those that a library exports:
      nm -P main.o | sed 's/[ @].*//' | cppfilt
      nm -DP libmain.so | sed 's/[ @].*//' | cppfilt
  Show the names inside the lines of a trace, a log, a disassembly:
      cppfilt_text < trace
  Tell why some names have no text:
      cppfilt --why < names.txt

Exit status:
  0  done, or help was asked for
  2  wrong words
  3  a read failed
  4  a write failed
  5  the input has more than 2^40 bytes
  6  out of memory";

/// A flag by its name and its letter.
fn flag<'a>(alloc: Global, name: &'a str, letter: char, help: &'a str) -> Arg<'a>
    ensures rule { rule_of result ≡ flag name.entry.now letter }
    ensures local { result.global ≡ false }
{
    Arg::new(alloc, name)
        .long(name)
        .short(letter)
        .action(ArgAction::SetTrue)
        .help(help)
}

/// An option with a number.
fn number<'a>(alloc: Global, name: &'a str, help: &'a str) -> Arg<'a>
    ensures rule { rule_of result ≡ number name.entry.now }
    ensures local { result.global ≡ false }
{
    Arg::new(alloc, name).long(name).value_name("N").help(help)
}

/// The names, in any number.
fn names<'a>(alloc: Global) -> Arg<'a>
    ensures rule { rule_of result ≡ names }
    ensures local { result.global ≡ false }
{
    Arg::new(alloc, "names")
        .value_name("NAME")
        .action(ArgAction::Append)
        .help("Show these names, one a line, and leave standard input unread")
}

/// A command with the flags on how names are printed.
pub(crate) fn with_printing_flags<'a>(
    alloc: Global,
    command: Command<'a>,
) -> Result<Command<'a>, AllocError>
    ensures { IfOk result (λ c. app_of c ≡ with_printing_flags (app_of command.entry)) }
{
    command
        .arg(flag(
            alloc,
            "no-params",
            'p',
            "Leave out the parameters of functions",
        ))?
        .arg(flag(
            alloc,
            "no-return-type",
            'r',
            "Leave out the return types of function templates",
        ))?
        .arg(flag(
            alloc,
            "hide-literal-types",
            'l',
            "Leave out the types of literals",
        ))
}

/// A command with all flags.
fn with_flags<'a>(alloc: Global, command: Command<'a>) -> Result<Command<'a>, AllocError>
    ensures { IfOk result (λ c. app_of c ≡ with_flags (app_of command.entry)) }
{
    with_printing_flags(alloc, command)?
        .arg(flag(
            alloc,
            "types",
            't',
            "Take each line or NAME for a linker name, so that\n\
             encoded types are shown too",
        ))?
        .arg(flag(
            alloc,
            "why",
            'w',
            "Put a tab and the cause behind a name with no text",
        ))
}

/// A command with the options that bound names and their texts.
pub(crate) fn with_limits<'a>(
    alloc: Global,
    command: Command<'a>,
) -> Result<Command<'a>, AllocError>
    ensures { IfOk result (λ c. app_of c ≡ with_limits (app_of command.entry)) }
{
    command
        .arg(number(
            alloc,
            "parse-limit",
            "Levels of nesting a name may have, 1 to 1024\n\
             [default: 96]; raise it where cppfilt --why says\n\
             \"too much recursion when demangling\"",
        ))?
        .arg(number(
            alloc,
            "print-limit",
            "Levels of nesting its text may have, 1 to 1024\n\
             [default: 128]; raise it where cppfilt --why says\n\
             \"too much recursion when printing\"",
        ))?
        .arg(number(
            alloc,
            "max-output",
            "Bytes its text may have, 1 to 1073741824\n\
             [default: any number]",
        ))
}

/// A command with all options that have numbers.
fn with_numbers<'a>(alloc: Global, command: Command<'a>) -> Result<Command<'a>, AllocError>
    ensures { IfOk result (λ c. app_of c ≡ with_numbers (app_of command.entry)) }
{
    with_limits(alloc, command)?.arg(number(
        alloc,
        "sample",
        "Self-test: demangle N made-up names, 1 to 100000,\n\
         and write `names N read R bytes B`: R of them have\n\
         a text, and these texts have B bytes together",
    ))
}

/// The command.
pub(crate) fn command<'a>(alloc: Global) -> Result<Command<'a>, AllocError>
    ensures { IfOk result (λ c. app_of c ≡ command) }
{
    let bare = Command::new(alloc, "cppfilt")
        .about(ABOUT)
        .after_help(AFTER);
    with_numbers(alloc, with_flags(alloc, bare)?)?.arg(names(alloc))
}
