//! The program, over the ends that it is handed.

ghost use Rattle.std.specs.Prelude.{◌≡◌, ◌≢◌, ◌⊎◌, ◌+◌, ◌-◌, ◌^◌, ◌<◌, ◌≤◌, ◌∷◌, codes, false, length, map, take};
ghost use Rattle.std.specs.Prelude.{IfOk, IfSome, string_bytes};
ghost use Rattle.std.specs.Io.KnownBytes.{Appends, IsAtEnd};
ghost use Rattle.std.specs.List.{All};
ghost use Rattle.cppfilt_command.specs.Asked.{AsksHelp, Asks, Mistaken, judgement_by, text_verdict_on};
ghost use Rattle.cppfilt_command.specs.Command.{text_command};
ghost use Rattle.cppfilt_ends.specs.Causes.{Rose, NoFault};
ghost use Rattle.cppfilt_ends.specs.Moves.{Begins};
ghost use Rattle.cppfilt_lines.specs.Named.{IsNamedWhenShown};
ghost use Rattle.cppfilt_lines.specs.Work.{Work};
ghost use Rattle.cppfilt_lines.specs.declared.options.FilterOptions.{FilterOptions};
ghost use Rattle.cppfilt_run.specs.Outcome.{OfTaken};
ghost use Rattle.cppfilt_run.specs.Ran.{Unread};
ghost use Rattle.cppfilt_run.specs.StatusText.{message_of};
ghost use Rattle.cppfilt_text_run.specs.Outcome.{KeepsUp, Stopped};
ghost use Rattle.cppfilt_text_run.specs.Ran.{Ended, reads};
ghost use Rattle.demangle_stream.specs.Replaced.{replaced};
ghost use Rattle.demangle_stream.specs.Runs.{pieces};
ghost use Rattle.demangle_stream.specs.Settled.{settled};
ghost use Rattle.demangle_stream.specs.Shown.{name_of};

use crate::filter::filter_text;
use cppfilt_command::{Refusal, Request, judge_text};
use cppfilt_ends::ends::{Sink, Source};
use cppfilt_run::run::{report, show_help, show_usage};
use cppfilt_run::status::Status;
use std::alloc::{AllocError, Global};

/// How many bytes of input are taken at most: 2^40.
const INPUT_LIMIT: u64 = 1 << 40;

/// The program. It does what the words ask for: it copies the input, with each linker name in it that has a text
/// replaced by that text, or gives help.
///
/// A name is a longest run of ASCII letters, digits, `_`, `.` and `$`, without the dots at its end. What is due is
/// written before the next read, but for what the front of a run at the end makes wait.
///
/// `words` are the words after the program's name; they are judged before anything is read or written. `Usage` comes
/// exactly where they are wrong, with the cause on `errors`; `Help` where they ask for help, which goes to the output.
/// `ReadFault` and `WriteFault` come where an end failed; `InputTooLong` where 2^40 bytes were taken and a further read
/// gave more; `OutOfMemory` where memory ran out.
pub fn run<R: Source, W: Sink, E: Sink>(
    alloc: Global,
    words: Vec<String>,
    input: &mut R,
    output: &mut W,
    errors: &mut E,
) -> Status
    // Where the words ask for it, all of the input was read, and it was written with its names replaced.
    ensures done { (o : FilterOptions) (work : Work) → text_verdict_on words.items ≡ Asks o work
        → result ≡ Status.Done → IsAtEnd (R.left input.new) × IfSome (R.left input.old)
        (λ bytes. Appends (W.written output.old) (W.written output.new) (replaced o.parse o.print bytes)) }
    // A name with a text is one for which the ordered reading gives a tree whose text can be printed: the tree fits the
    // rows, spells the name, and its references name components by order of completion.
    ensures named { (o : FilterOptions) → IfSome (R.left input.old)
        (λ bytes. All (IsNamedWhenShown o) (map name_of (pieces bytes))) }
    // Whatever the status is, a front of what is due was written and nothing else,
    ensures front { (o : FilterOptions) (work : Work) → text_verdict_on words.items ≡ Asks o work
        → IfSome (R.left input.old)
        (λ bytes. Begins (W.written output.old) (W.written output.new) (replaced o.parse o.print bytes)) }
    // and all that is due for the settled part of the bytes that were taken before the last read, which gave at most
    // 2^16 bytes: so what a block settles, all but a run at its end that may be the front of a name, is written before
    // the next read.
    ensures keeps_up { (o : FilterOptions) (work : Work) → text_verdict_on words.items ≡ Asks o work
        → OfTaken (R.left input.old) (R.left input.new)
        (KeepsUp o.parse o.print (R.last input.new) (W.written output.old) (W.written output.new)) }
    // After a failed read it is just what is due for the settled part of the bytes that were taken,
    ensures read_fault_written { (o : FilterOptions) (work : Work) → text_verdict_on words.items ≡ Asks o work
        → result ≡ Status.ReadFault → OfTaken (R.left input.old) (R.left input.new)
        (λ taken. Appends (W.written output.old) (W.written output.new) (replaced o.parse o.print (settled taken))) }
    // and after too long an input that for the settled part of its first 2^40 bytes.
    ensures input_too_long_written { (o : FilterOptions) (work : Work) → text_verdict_on words.items ≡ Asks o work
        → result ≡ Status.InputTooLong → IfSome (R.left input.old)
        (λ bytes. Appends (W.written output.old) (W.written output.new)
        (replaced o.parse o.print (settled (take (2 ^ 40) bytes)))) }
    // With no fault, an input of at most 2^40 bytes is done, unless memory ran out,
    ensures complete { (o : FilterOptions) (work : Work) → text_verdict_on words.items ≡ Asks o work
        → NoFault (R.faults input.old) (R.faults input.new) → NoFault (W.faults output.old) (W.faults output.new)
        → IfSome (R.left input.old)
        (λ bytes. length bytes ≤ 2 ^ 40 → (result ≡ Status.Done) ⊎ (result ≡ Status.OutOfMemory)) }
    // and a longer one is refused.
    ensures refused { (o : FilterOptions) (work : Work) → text_verdict_on words.items ≡ Asks o work
        → NoFault (R.faults input.old) (R.faults input.new) → NoFault (W.faults output.old) (W.faults output.new)
        → IfSome (R.left input.old)
        (λ bytes. 2 ^ 40 < length bytes → (result ≡ Status.InputTooLong) ⊎ (result ≡ Status.OutOfMemory)) }
    // Wrong words are refused, and nothing else is done.
    ensures usage { result ≡ Status.Usage → text_verdict_on words.items ≡ Mistaken }
    ensures usage_told { text_verdict_on words.items ≡ Mistaken
        → ((result ≡ Status.Usage) ⊎ (result ≡ Status.OutOfMemory))
        × (W.written output.new ≡ W.written output.old) × (W.faults output.new ≡ W.faults output.old) }
    ensures help { result ≡ Status.Help → text_verdict_on words.items ≡ AsksHelp }
    ensures help_told { text_verdict_on words.items ≡ AsksHelp
        → (result ≡ Status.Help) ⊎ ((result ≡ Status.WriteFault) ⊎ (result ≡ Status.OutOfMemory)) }
    // Nothing is read then.
    ensures unread { reads (text_verdict_on words.items) ≡ false
        → Unread (R.faults input.old) (R.faults input.new) (R.taken input.old) (R.taken input.new)
        (R.left input.old) (R.left input.new) }
    ensures read_fault { result ≡ Status.ReadFault → Rose (R.faults input.old) (R.faults input.new) }
    ensures read_fault_told { R.faults input.old < R.faults input.new
        → (result ≡ Status.ReadFault) ⊎ (result ≡ Status.OutOfMemory) }
    ensures write_fault { result ≡ Status.WriteFault → Rose (W.faults output.old) (W.faults output.new) }
    ensures write_fault_told { W.faults output.old < W.faults output.new
        → (result ≡ Status.WriteFault) ⊎ (result ≡ Status.OutOfMemory) }
    ensures input_too_long { result ≡ Status.InputTooLong
        → (R.taken input.old + 2 ^ 40 < R.taken input.new) ⊎ (2 ^ 64 - 1 ≤ R.taken input.new) }
    ensures input_too_long_told { R.taken input.old + 2 ^ 40 < R.taken input.new
        → (result ≡ Status.InputTooLong) ⊎ (result ≡ Status.OutOfMemory) }
    // By the bytes, where they are told: `InputTooLong` comes only where one byte past the limit was taken,
    ensures input_too_long_bytes { result ≡ Status.InputTooLong → OfTaken (R.left input.old) (R.left input.new)
        (λ taken. length taken ≡ 2 ^ 40 + 1) }
    // and no other status comes there.
    ensures input_too_long_bytes_told { OfTaken (R.left input.old) (R.left input.new)
        (λ taken. 2 ^ 40 < length taken → (result ≡ Status.InputTooLong) ⊎ (result ≡ Status.OutOfMemory)) }
    // No source is asked for more.
    ensures at_most { R.taken input.new ≤ R.taken input.old + 2 ^ 40 + 1 }
    // Where `errors` had no fault, it was given the status's message and nothing else, but for wrong words.
    ensures message { NoFault (E.faults errors.old) (E.faults errors.new) → result ≢ Status.OutOfMemory
        → result ≢ Status.Usage → Appends (E.written errors.old) (E.written errors.new) (message_of result) }
{
    run_by_words(alloc, words, input, output, errors)
}

/// `run`, with one definition for all that its contract says but for the message.
pub(crate) fn run_by_words<R: Source, W: Sink, E: Sink>(
    alloc: Global,
    words: Vec<String>,
    input: &mut R,
    output: &mut W,
    errors: &mut E,
) -> Status
    ensures ended { Ended (text_verdict_on words.items) result (R.faults input.old) (R.faults input.new)
        (W.faults output.old) (W.faults output.new) (R.taken input.old) (R.taken input.new)
        (R.last input.new) (R.left input.old) (R.left input.new) (W.written output.old) (W.written output.new) }
    ensures message { NoFault (E.faults errors.old) (E.faults errors.new) → result ≢ Status.OutOfMemory
        → result ≢ Status.Usage → Appends (E.written errors.old) (E.written errors.new) (message_of result) }
{
    let Ok(all) = with_name(alloc, words) else {
        return report(Status::OutOfMemory, errors);
    };
    run_judged(alloc, all.as_slice(), input, output, errors)
}

/// The program over all the words, of which the first is its name.
fn run_judged<R: Source, W: Sink, E: Sink>(
    alloc: Global,
    all: &[String],
    input: &mut R,
    output: &mut W,
    errors: &mut E,
) -> Status
    ensures ended { Ended (judgement_by text_command (map string_bytes all.now)) result
        (R.faults input.old) (R.faults input.new)
        (W.faults output.old) (W.faults output.new) (R.taken input.old) (R.taken input.new)
        (R.last input.new) (R.left input.old) (R.left input.new) (W.written output.old) (W.written output.new) }
    ensures message { NoFault (E.faults errors.old) (E.faults errors.new) → result ≢ Status.OutOfMemory
        → result ≢ Status.Usage → Appends (E.written errors.old) (E.written errors.new) (message_of result) }
{
    match judge_text(alloc, all) {
        Ok(request) => report(perform(alloc, &request, input, output), errors),
        Err(Refusal::Help(text)) => report(show_help(text.as_str(), output), errors),
        Err(Refusal::Usage(text)) => show_usage(text.as_str(), errors),
        Err(Refusal::OutOfMemory) => report(Status::OutOfMemory, errors),
    }
}

/// The words with the program's name before them.
fn with_name(alloc: Global, words: Vec<String>) -> Result<Vec<String>, AllocError>
    ensures { IfOk result (λ all. map string_bytes all.items ≡ codes "cppfilt_text" ∷ map string_bytes words.items) }
{
    let mut all = words;
    all.insert(0, String::from_str(alloc, "cppfilt_text")?)?;
    Ok(all)
}

/// Does what is asked for.
fn perform<R: Source, W: Sink>(
    alloc: Global,
    request: &Request<'_>,
    input: &mut R,
    output: &mut W,
) -> Status
    ensures { Stopped request.now.options.parse request.now.options.print result (2 ^ 40)
        (R.faults input.old) (R.faults input.new) (W.faults output.old) (W.faults output.new)
        (R.taken input.old) (R.taken input.new)
        (R.last input.new) (R.left input.old) (R.left input.new) (W.written output.old) (W.written output.new) }
{
    let options = &request.options;
    filter_text(
        alloc,
        options.parse,
        options.print,
        INPUT_LIMIT,
        input,
        output,
    )
}
