//! One name after the other, in the same room.

ghost use Rattle.std.specs.Prelude.{◌≡◌, true, IfErr, OnOk, string_bytes};
ghost use Rattle.demangle_printing.specs.Outcome.{outcome};
ghost use Rattle.demangler.specs.Answer.{answer_of, may_come};
ghost use Rattle.demangler.specs.NameTold.{IsToldAnswer, KeepsFaults, Lengthens, NameTold, may_be_told};
ghost use Rattle.demangler.specs.Filled.{IsFilled};
ghost use Rattle.demangler.specs.OneName.{HasText};

use crate::fault::SymbolFault;
use crate::filling::Filling;
use crate::rooms::is_giant;
use crate::told::told;
use demangle_cells::Arena;
use demangle_context::{DemangleOptions, DemangleWrite};
use demangle_text::ParseOptions;
use std::alloc::Global;
use std::mem;

/// Finds the texts of linker names, one after the other. What it keeps from name to name is room alone, so each call
/// answers the same whatever was called before. The room that a giant name took is let go behind it.
#[derive(Drop)]
pub struct Demangler {
    alloc: Global,
    arena: Arena,
}

impl Demangler {
    /// One that keeps no room yet.
    pub fn new(alloc: Global) -> Demangler {
        Demangler {
            alloc,
            arena: Arena::new(alloc),
        }
    }

    /// Puts the text of a linker name, whole, in the place of the text. Errors are those of `demangle_symbol`; where
    /// one comes the text is empty.
    pub fn demangle(
        &mut self,
        bytes: &[u8],
        text: &mut String,
        parse: &ParseOptions,
        print: &DemangleOptions,
    ) -> Result<(), SymbolFault>
        ensures outcome { IsFilled (answer_of (outcome parse.now print.now bytes.now)) (string_bytes text.new) result }
        ensures causes { IfErr result (λ e. may_come e ≡ true) }
        ensures named { OnOk result (HasText parse.now print.now bytes.now (string_bytes text.new)) }
    {
        text.clear();
        let mut listener = Filling::behind(mem::replace(text, String::new(self.alloc)));
        let answer = self.structured_demangle(bytes, &mut listener, parse, print);
        *text = listener.into_text();
        match answer {
            Ok(()) => Ok(()),
            Err(fault) => {
                text.clear();
                Err(fault)
            }
        }
    }

    /// Tells a listener the text of a linker name, whole, as it is printed, and the nodes in it: what
    /// `structured_demangle_symbol` does.
    pub fn structured_demangle<W: DemangleWrite>(
        &mut self,
        bytes: &[u8],
        out: &mut W,
        parse: &ParseOptions,
        print: &DemangleOptions,
    ) -> Result<(), SymbolFault>
        ensures outcome { IsToldAnswer (answer_of (outcome parse.now print.now bytes.now))
            (W.seen out.old) (W.seen out.new) result }
        ensures told { NameTold (W.seen out.old) (W.seen out.new) parse.now print.now bytes.now result }
        ensures faults { KeepsFaults (W.seen out.old) (W.seen out.new) result }
        ensures lengthens { Lengthens (W.seen out.old).text (W.seen out.new).text }
        ensures causes { IfErr result (λ e. may_be_told e ≡ true) }
    {
        let answer = told(self.alloc, &mut self.arena, bytes, out, parse, print);
        if is_giant(&self.arena, bytes.len()) {
            self.arena = Arena::new(self.alloc);
        }
        answer
    }
}
