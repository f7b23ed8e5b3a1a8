//! The text of a name, in memory that is taken at once for most names.

ghost use Rattle.std.specs.Prelude.{◌≡◌, true, IfErr};
ghost use Rattle.demangler.specs.Answer.{may_come};
ghost use Rattle.cpp_demangle_c.specs.Asked.{IsInRange, IsTextOf, answer};

use crate::settings::Settings;
use demangle_context::{DemangleNodeType, DemangleWrite, SinkFault};
use demangler::{SymbolFault, structured_demangle_symbol};
use std::alloc::Global;

/// How many bytes a text has room for at first.
const FIRST_ROOM: usize = 512;

/// A listener that keeps the text, and nothing of the nodes. It fails only for lack of memory.
#[derive(Drop)]
struct Filling {
    text: Vec<u8>,
    refusals: u64,
}

impl DemangleWrite for Filling {
    ghost use Rattle.std.specs.Prelude.{Some, None};

    ghost seen = { λ s. record {
      text = Some s.text.items;
      calls = None;
      faults = 0;
      refusals = s.refusals;
    } };

    fn push_demangle_node(&mut self, _kind: DemangleNodeType) {}

    fn write_string(&mut self, s: &str) -> Result<(), SinkFault> {
        match self.text.extend_from_slice(s.as_bytes()) {
            Ok(()) => Ok(()),
            Err(_) => {
                self.refusals = self.refusals.saturating_add(1);
                Err(SinkFault::OutOfMemory)
            }
        }
    }

    fn pop_demangle_node(&mut self) {}
}

/// The text of a linker name, whole, under these options. Errors are those of `demangle_symbol`.
pub(crate) fn text_of(
    alloc: Global,
    name: &[u8],
    options: &Settings,
) -> Result<Vec<u8>, SymbolFault>
    requires { IsInRange options.now }
    ensures outcome { IsTextOf (answer options.now name.now) result }
    ensures causes { IfErr result (λ e. may_come e ≡ true) }
{
    let text = match Vec::with_capacity(alloc, FIRST_ROOM) {
        Ok(text) => text,
        Err(_) => return Err(SymbolFault::OutOfMemory),
    };
    let mut listener = Filling { text, refusals: 0 };
    let parse = options.parse();
    let print = options.print();
    match structured_demangle_symbol(alloc, name, &mut listener, &parse, &print) {
        Ok(()) => Ok(listener.text),
        Err(fault) => Err(fault),
    }
}
