//! A listener that gathers the text of a name behind other bytes.

ghost use Rattle.std.specs.Prelude.{◌≡◌, Some, None};
ghost use Rattle.demangle_printing.specs.Outcome.{outcome};
ghost use Rattle.demangler.specs.Answer.{answer_of};
ghost use Rattle.demangle_gather.specs.Gathered.{IsGathered};

use demangle_context::{DemangleNodeType, DemangleOptions, DemangleWrite, SinkFault};
use demangle_text::ParseOptions;
use demangler::{Demangler, SymbolFault};
use std::mem;

/// A listener that puts the text behind the bytes it was made with, and keeps nothing of the nodes. It fails only for
/// lack of memory.
#[derive(Drop)]
struct Gathering {
    gathered: Vec<u8>,
    refusals: u64,
}

impl Gathering {
    /// A listener that puts the text behind these bytes.
    fn behind(gathered: Vec<u8>) -> Gathering
        ensures { result.gathered.items ≡ gathered.items }
    {
        Gathering {
            gathered,
            refusals: 0,
        }
    }

    /// Takes out the bytes, with the text behind them.
    fn into_gathered(self) -> Vec<u8>
        ensures { result.items ≡ self.gathered.items }
    {
        self.gathered
    }
}

impl DemangleWrite for Gathering {
    ghost seen = { λ s. record {
      text = Some s.gathered.items;
      calls = None;
      faults = 0;
      refusals = s.refusals;
    } };

    fn push_demangle_node(&mut self, _kind: DemangleNodeType) {}

    #[inline(always)]
    fn write_string(&mut self, s: &str) -> Result<(), SinkFault> {
        match self.gathered.extend_from_slice(s.as_bytes()) {
            Ok(()) => Ok(()),
            Err(_) => {
                self.refusals = self.refusals.saturating_add(1);
                Err(SinkFault::OutOfMemory)
            }
        }
    }

    fn pop_demangle_node(&mut self) {}
}

/// Puts the text of a linker name behind what is gathered, while it is printed. Where the name has no text, what is
/// gathered is cut back to what it was. Errors are those of `demangle_symbol`.
pub fn gather(
    demangler: &mut Demangler,
    name: &[u8],
    parse: &ParseOptions,
    print: &DemangleOptions,
    gathered: &mut Vec<u8>,
) -> Result<(), SymbolFault>
    ensures { IsGathered (answer_of (outcome parse.now print.now name.now))
        gathered.old.items gathered.new.items result }
{
    let before = gathered.len();
    let alloc = *gathered.allocator();
    let mut listener = Gathering::behind(mem::replace(gathered, Vec::new(alloc)));
    let answer = demangler.structured_demangle(name, &mut listener, parse, print);
    *gathered = listener.into_gathered();
    match answer {
        Ok(()) => Ok(()),
        Err(fault) => {
            gathered.truncate(before);
            Err(fault)
        }
    }
}
