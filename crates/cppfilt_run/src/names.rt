//! Names that are given as words.

ghost use Rattle.std.specs.Prelude.{◌≡◌, [], ◌∷◌, ◌++◌, map};
ghost use Rattle.cppfilt_ends.specs.Moves.{Gives};
ghost use Rattle.cppfilt_lines.specs.Due.{due_names};
ghost use Rattle.cppfilt_lines.specs.Shown.{shown};
ghost use Rattle.cppfilt_run.specs.Outcome.{Finished};

use crate::filter::status_of;
use crate::shown::emit_shown;
use crate::status::Status;
use cppfilt_ends::ends::Sink;
use cppfilt_ends::output::{emit, flush};
use cppfilt_lines::FilterOptions;
use demangle_context::SinkFault;
use demangler::Demangler;
use std::alloc::Global;

/// Writes what is due for names: each as it is shown, and a line feed.
pub(crate) fn show_names<W: Sink>(
    alloc: Global,
    options: &FilterOptions,
    names: &[&str],
    output: &mut W,
) -> Status
    ensures { Finished result (W.faults output.old) (W.faults output.new) (W.written output.old) (W.written output.new)
        (due_names options.now (map (λ name. name.now) names.now)) }
{
    let mut demangler = Demangler::new(alloc);
    let mut pending = Vec::new(alloc);
    match write_names(&mut demangler, options, names, output, &mut pending) {
        Ok(()) => Status::Done,
        Err(fault) => status_of(fault),
    }
}

/// Writes what is due for names, with nothing gathered before.
fn write_names<W: Sink>(
    demangler: &mut Demangler,
    options: &FilterOptions,
    names: &[&str],
    output: &mut W,
    pending: &mut Vec<u8>,
) -> Result<(), SinkFault>
    requires { pending.old.items ≡ [] }
    ensures { Gives (W.written output.old) (W.written output.new) (W.faults output.old) (W.faults output.new) result
        (due_names options.now (map (λ name. name.now) names.now)) [] }
{
    for name in names {
        emit_name(demangler, options, output, pending, name.as_bytes())?;
    }
    flush(output, pending)
}

/// Passes on a name as it is shown, and a line feed.
fn emit_name<W: Sink>(
    demangler: &mut Demangler,
    options: &FilterOptions,
    output: &mut W,
    pending: &mut Vec<u8>,
    name: &[u8],
) -> Result<(), SinkFault>
    ensures { Gives (W.written output.old) (W.written output.new) (W.faults output.old) (W.faults output.new) result
        (pending.old.items ++ (shown options.now name.now ++ 10 ∷ [])) pending.new.items }
{
    emit_shown(demangler, options, output, pending, name)?;
    emit(output, pending, b"\n")
}
