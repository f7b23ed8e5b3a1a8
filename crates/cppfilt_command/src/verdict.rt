//! The verdict on the words.

ghost use Rattle.std.specs.Prelude.{◌≡◌, map, string_bytes, IfOk, IfErr, [], true};
ghost use Rattle.clap.specs.Faults.{is_simple_and_free};
ghost use Rattle.clap.specs.Simple.{built, is_simple};
ghost use Rattle.clap.specs.Words.{app_of};
ghost use Rattle.cppfilt_command.specs.Asked.{Asks, judgement_by};
ghost use Rattle.cppfilt_command.specs.Command.{command, text_command};
ghost use Rattle.cppfilt_command.specs.Refusals.{IsRefusal, work_of};

use crate::command::command;
use crate::refusal::{Refusal, number_refusal, refusal_of};
use crate::request::{Mistake, Request, request_in};
use crate::text_command::text_command;
use clap::Command;
use std::alloc::Global;

/// What the words of a command line ask for, of which the first is the program's name.
///
/// `Help` comes exactly where they ask for help, with its text; `Usage` exactly where the command refuses them
/// otherwise, with the cause; `OutOfMemory` where there is no memory.
pub fn judge<'a>(alloc: Global, words: &'a [String]) -> Result<Request<'a>, Refusal>
    ensures asks { IfOk result (λ r. judgement_by command (map string_bytes words.entry.now)
        ≡ Asks r.options (work_of r.task)) }
    ensures refused { IfErr result (IsRefusal (judgement_by command (map string_bytes words.entry.now))) }
{
    judge_by(alloc, command(alloc)?, words)
}

/// What the words ask of the filter of texts, as `judge` tells it.
pub fn judge_text<'a>(alloc: Global, words: &'a [String]) -> Result<Request<'a>, Refusal>
    ensures asks { IfOk result (λ r. judgement_by text_command (map string_bytes words.entry.now)
        ≡ Asks r.options (work_of r.task)) }
    ensures refused { IfErr result (IsRefusal (judgement_by text_command (map string_bytes words.entry.now))) }
{
    judge_by(alloc, text_command(alloc)?, words)
}

/// What the words ask of a command without subcommands.
fn judge_by<'a>(
    alloc: Global,
    command: Command<'a>,
    words: &'a [String],
) -> Result<Request<'a>, Refusal>
    requires simple { is_simple (app_of command) ≡ true }
    requires free { is_simple_and_free (app_of command) ≡ true }
    requires leaves { (built (app_of command)).subs ≡ [] }
    requires leaf { (built (app_of command)).top.is_leaf ≡ true }
    ensures asks { IfOk result (λ r. judgement_by (app_of command.entry) (map string_bytes words.entry.now)
        ≡ Asks r.options (work_of r.task)) }
    ensures refused { IfErr result (IsRefusal (judgement_by (app_of command.entry)
        (map string_bytes words.entry.now))) }
{
    let mut command = command;
    match command.try_get_matches_from_mut(words) {
        Ok(matches) => match request_in(alloc, &matches) {
            Ok(request) => Ok(request),
            Err(Mistake::Number(bad)) => Err(number_refusal(alloc, &mut command, bad)),
            Err(Mistake::OutOfMemory) => Err(Refusal::OutOfMemory),
        },
        Err(error) => Err(refusal_of(alloc, &error)),
    }
}
