//! The command of the filter of texts: one simple command of `clap`.

ghost use Rattle.std.specs.Prelude.{◌≡◌, IfOk};
ghost use Rattle.clap.specs.Words.{app_of};
ghost use Rattle.cppfilt_command.specs.Command.{text_command};

use crate::command::{with_limits, with_printing_flags};
use clap::Command;
use std::alloc::{AllocError, Global};

/// What stands above the usage.
const ABOUT: &str = "\
Show the C++ linker names inside a text as the names in the source.

Standard input is copied to standard output. Each linker name of the Itanium C++
ABI in it, as GCC and Clang make them, becomes its text. All else stays as it is.";

/// What stands below the options.
const AFTER: &str = "\
A longest run of ASCII letters, digits, '_', '.' and '$' is taken for a linker
name where it begins with _Z, __Z, ___Z, ____Z or _GLOBAL_ and has at most
1048576 bytes; dots at its end are not part of the name. One that can't be read
or shown stays as it is; for a single name `cppfilt --why NAME` tells the cause.
A crafted name may take very long, since parts of a name that fail are read
again; a lower --parse-limit bounds this.

Examples:
  Show a trace of glibc's backtrace_symbols:
      cppfilt_text < trace
  Disassemble a program:
      objdump -d server | cppfilt_text
  Show what a library has:
      nm -D libserver.so | cppfilt_text
  Follow a log:
      tail -f log | cppfilt_text

Exit status:
  0  done, or help was asked for
  2  wrong words
  3  a read failed
  4  a write failed
  5  the input has more than 2^40 bytes
  6  out of memory";

/// The command.
pub(crate) fn text_command<'a>(alloc: Global) -> Result<Command<'a>, AllocError>
    ensures { IfOk result (λ c. app_of c ≡ text_command) }
{
    let bare = Command::new(alloc, "cppfilt_text")
        .about(ABOUT)
        .after_help(AFTER);
    with_limits(alloc, with_printing_flags(alloc, bare)?)
}
