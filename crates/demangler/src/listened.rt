//! From a name's bytes to a listener.

ghost use Rattle.std.specs.Prelude.{◌≡◌, true, IfErr};
ghost use Rattle.demangle_printing.specs.Outcome.{outcome};
ghost use Rattle.demangler.specs.Answer.{answer_of};
ghost use Rattle.demangler.specs.NameTold.{IsToldAnswer, KeepsFaults, Lengthens, NameTold, may_be_told};

use crate::fault::SymbolFault;
use crate::told::told;
use demangle_cells::Arena;
use demangle_context::{DemangleOptions, DemangleWrite};
use demangle_text::ParseOptions;
use std::alloc::Global;

/// Tells a listener the text of a linker name, whole, as it is printed, and the nodes in it: `demangle_symbol` without
/// holding the text.
///
/// Errors are those of `demangle_symbol`, and `Print` of `Sink`, which comes only where the listener's count of faults
/// rose; where it rose, no other answer comes. Where the name isn't read the listener was told nothing. After another
/// error it was told the events before it, or a front of them, and then that nodes end, no more than stood open.
pub fn structured_demangle_symbol<W: DemangleWrite>(
    alloc: Global,
    bytes: &[u8],
    out: &mut W,
    parse: &ParseOptions,
    print: &DemangleOptions,
) -> Result<(), SymbolFault>
    ensures outcome { IsToldAnswer (answer_of (outcome parse.now print.now bytes.now))
        (W.seen out.old) (W.seen out.new) result }
    ensures told { NameTold (W.seen out.old) (W.seen out.new) parse.now print.now bytes.now result }
    ensures faults { KeepsFaults (W.seen out.old) (W.seen out.new) result }
    ensures lengthens { Lengthens (W.seen out.old).text (W.seen out.new).text }
    ensures causes { IfErr result (λ e. may_be_told e ≡ true) }
{
    let mut arena = Arena::new(alloc);
    told(alloc, &mut arena, bytes, out, parse, print)
}
