//! From a name's bytes to its text.

ghost use Rattle.std.specs.Prelude.{◌≡◌, true, IfOk, IfErr, string_bytes};
ghost use Rattle.demangle_printing.specs.Outcome.{outcome};
ghost use Rattle.demangler.specs.Answer.{answer_of, IsAnswer, may_come};
ghost use Rattle.demangler.specs.OneName.{HasText, SharesInvisibly, DeclaresPlain};

use crate::fault::SymbolFault;
use crate::told::told;
use demangle_cells::Arena;
use demangle_context::{DemangleOptions, TextSink};
use demangle_text::ParseOptions;
use std::alloc::Global;

/// The text of a linker name, or why it has none, over an arena that may hold anything before.
fn answer(
    alloc: Global,
    arena: &mut Arena,
    bytes: &[u8],
    parse: &ParseOptions,
    print: &DemangleOptions,
) -> Result<String, SymbolFault>
    ensures outcome { IsAnswer (answer_of (outcome parse.now print.now bytes.now)) result }
    ensures causes { IfErr result (λ e. may_come e ≡ true) }
{
    let mut sink = TextSink::new(alloc);
    match told(alloc, arena, bytes, &mut sink, parse, print) {
        Ok(()) => Ok(sink.into_string()),
        Err(fault) => Err(fault),
    }
}

/// The text of a linker name, whole.
///
/// `Read` comes exactly where the name isn't one, by what its reading meets, `Print` exactly where it is one and the
/// printing of its tree meets a fault, and `OutOfMemory` where there is no memory.
pub fn demangle_symbol(
    alloc: Global,
    bytes: &[u8],
    parse: &ParseOptions,
    print: &DemangleOptions,
) -> Result<String, SymbolFault>
    ensures outcome { IsAnswer (answer_of (outcome parse.now print.now bytes.now)) result }
    ensures causes { IfErr result (λ e. may_come e ≡ true) }
    ensures named { IfOk result (λ text. HasText parse.now print.now bytes.now (string_bytes text)) }
    ensures shared { SharesInvisibly parse.now print.now bytes.now result }
    ensures declared { DeclaresPlain parse.now bytes.now result }
{
    let mut arena = Arena::new(alloc);
    answer(alloc, &mut arena, bytes, parse, print)
}
