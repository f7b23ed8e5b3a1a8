//! A listener that keeps what it is told.

ghost use Rattle.std.specs.Prelude.{None};

use cpp_demangle::error::SinkFault;
use cpp_demangle::{DemangleNodeType, DemangleWrite};
use std::alloc::Global;

/// A listener that keeps what it is told as one text, nodes as `<letter ..>`, and fails at one of the pieces.
#[derive(Drop)]
pub(crate) struct Noted {
    text: String,
    pieces: u64,
    fails_at: u64,
    faults: u64,
    refusals: u64,
}

impl Noted {
    /// One that fails at the piece of this number, counted from 0.
    pub(crate) fn failing_at(alloc: Global, piece: u64) -> Noted {
        Noted {
            text: String::new(alloc),
            pieces: 0,
            fails_at: piece,
            faults: 0,
            refusals: 0,
        }
    }

    /// What it was told.
    pub(crate) fn text(&self) -> &str {
        self.text.as_str()
    }
}

/// A letter for each kind of node.
fn letter(kind: DemangleNodeType) -> &'static str {
    match kind {
        DemangleNodeType::Prefix => "<P ",
        DemangleNodeType::TemplatePrefix => "<Q ",
        DemangleNodeType::TemplateArgs => "<A ",
        DemangleNodeType::UnqualifiedName => "<U ",
        DemangleNodeType::TemplateParam => "<T ",
        DemangleNodeType::Decltype => "<D ",
        DemangleNodeType::DataMemberPrefix => "<M ",
        DemangleNodeType::NestedName => "<N ",
        DemangleNodeType::VirtualTable => "<V ",
    }
}

impl DemangleWrite for Noted {
    ghost seen = { λ s. record { text = None; calls = None; faults = s.faults; refusals = s.refusals } };

    fn push_demangle_node(&mut self, kind: DemangleNodeType) {
        let _kept = self.text.push_str(letter(kind)).is_ok();
    }

    fn write_string(&mut self, s: &str) -> Result<(), SinkFault> {
        if self.pieces == self.fails_at {
            self.faults = self.faults.saturating_add(1);
            return Err(SinkFault::Failed);
        }
        self.pieces = self.pieces.saturating_add(1);
        match self.text.push_str(s) {
            Ok(()) => Ok(()),
            Err(_) => {
                self.refusals = self.refusals.saturating_add(1);
                Err(SinkFault::OutOfMemory)
            }
        }
    }

    fn pop_demangle_node(&mut self) {
        let _kept = self.text.push_str(">").is_ok();
    }
}
