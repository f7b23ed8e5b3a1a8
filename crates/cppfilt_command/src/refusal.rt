//! Why words don't ask for a task.

ghost use Rattle.std.specs.Prelude.{◌≡◌};
ghost use Rattle.clap.specs.Words.{kind_of};
ghost use Rattle.cppfilt_command.specs.Asked.{Mistaken};
ghost use Rattle.cppfilt_command.specs.Kinds.{IsOfKind};
ghost use Rattle.cppfilt_command.specs.Refusals.{IsRefusal};
ghost use Rattle.cppfilt_command.specs.declared.refusal.Refusal.TheVariants as refusal;

use crate::number::BadNumber;
use clap::error::ErrorKind;
use clap::{Command, Error};
use std::alloc::{AllocError, Global};

/// Why the words don't ask for a task, with what is to be written instead.
#[derive(Debug, Drop)]
pub enum Refusal {
    /// They ask for help, which is this text.
    Help(String),
    /// They are wrong, as this text says.
    Usage(String),
    /// There was no memory.
    OutOfMemory,
}

impl From<AllocError> for Refusal {
    ghost from_gives = { λ _ r. r ≡ refusal.OutOfMemory };

    fn from(_error: AllocError) -> Refusal {
        Refusal::OutOfMemory
    }
}

/// The refusal by what `clap` says of the words.
pub(crate) fn refusal_of(alloc: Global, error: &Error) -> Refusal
    ensures { IsOfKind (kind_of error.now) result }
{
    if error.kind() == ErrorKind::OutOfMemory {
        return Refusal::OutOfMemory;
    }
    let Ok(text) = format!(in alloc; "{error}") else {
        return Refusal::OutOfMemory;
    };
    if error.kind() == ErrorKind::DisplayHelp {
        return Refusal::Help(text);
    }
    Refusal::Usage(text)
}

/// The refusal of a value that isn't a number in its range.
pub(crate) fn number_refusal(
    alloc: Global,
    command: &mut Command<'_>,
    bad: BadNumber<'_>,
) -> Refusal
    ensures { IsRefusal Mistaken result }
{
    match number_text(alloc, command, bad) {
        Ok(text) => Refusal::Usage(text),
        Err(_) => Refusal::OutOfMemory,
    }
}

/// What is wrong with such a value, with the usage.
fn number_text(
    alloc: Global,
    command: &mut Command<'_>,
    bad: BadNumber<'_>,
) -> Result<String, AllocError> {
    let BadNumber { option, most, text } = bad;
    let message = format!(in alloc;
        "invalid value '{text}' for '--{option} <N>': not a number from 1 to {most}"
    )?;
    let error = command.error(ErrorKind::ValueValidation, message.as_str())?;
    format!(in alloc; "{error}")
}
