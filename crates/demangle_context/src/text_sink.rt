//! A listener that keeps the text.

ghost use Rattle.std.specs.Prelude.{◌≡◌, Some, None, [], string_bytes};

use crate::error::SinkFault;
use crate::listener::{DemangleNodeType, DemangleWrite};
use std::alloc::Global;

/// A listener that keeps the text, and nothing of the nodes. It fails for no cause but memory. The original writes to
/// any `fmt::Write` in its place.
#[derive(Drop)]
pub struct TextSink {
    text: String,
    refusals: u64,
}

impl TextSink {
    /// An empty text.
    pub fn new(alloc: Global) -> TextSink
        ensures text { (⟦<TextSink as DemangleWrite>⟧.seen result).text ≡ Some [] }
        ensures faults { (⟦<TextSink as DemangleWrite>⟧.seen result).faults ≡ 0 }
        ensures refusals { (⟦<TextSink as DemangleWrite>⟧.seen result).refusals ≡ 0 }
    {
        TextSink {
            text: String::new(alloc),
            refusals: 0,
        }
    }

    /// The text.
    pub fn as_str(&self) -> &str
        ensures { (⟦<TextSink as DemangleWrite>⟧.seen self.now).text ≡ Some result.now }
    {
        self.text.as_str()
    }

    /// The text, taken out.
    pub fn into_string(self) -> String
        ensures { (⟦<TextSink as DemangleWrite>⟧.seen self).text ≡ Some (string_bytes result) }
    {
        self.text
    }
}

impl DemangleWrite for TextSink {
    ghost seen = { λ s. record {
      text = Some (string_bytes s.text);
      calls = None;
      faults = 0;
      refusals = s.refusals;
    } };

    fn push_demangle_node(&mut self, _kind: DemangleNodeType) {}

    #[inline(always)]
    fn write_string(&mut self, s: &str) -> Result<(), SinkFault> {
        match self.text.push_str(s) {
            Ok(()) => Ok(()),
            Err(_) => {
                self.refusals = self.refusals.saturating_add(1);
                Err(SinkFault::OutOfMemory)
            }
        }
    }

    fn pop_demangle_node(&mut self) {}
}
