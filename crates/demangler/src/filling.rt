//! A listener that writes the text into a string that was there before.

ghost use Rattle.std.specs.Prelude.{◌≡◌, Some, None, string_bytes};

use demangle_context::{DemangleNodeType, DemangleWrite, SinkFault};

/// A listener that puts the text behind the one that it was made with, and keeps nothing of the nodes. It fails only
/// for lack of memory.
#[derive(Drop)]
pub(crate) struct Filling {
    text: String,
    refusals: u64,
}

impl Filling {
    /// A listener that puts the text behind this one.
    pub(crate) fn behind(text: String) -> Filling
        ensures { string_bytes result.text ≡ string_bytes text }
    {
        Filling { text, refusals: 0 }
    }

    /// The text, taken out.
    pub(crate) fn into_text(self) -> String
        ensures { string_bytes result ≡ string_bytes self.text }
    {
        self.text
    }
}

impl DemangleWrite for Filling {
    ghost seen = { λ s. record {
      text = Some (string_bytes s.text);
      calls = None;
      faults = 0;
      refusals = s.refusals;
    } };

    fn push_demangle_node(&mut self, _kind: DemangleNodeType) {}

    #[inline(always)]
    fn write_string(&mut self, s: &str) -> Result<(), SinkFault> {
        match self.text.push_str(s) {
            Ok(()) => Ok(()),
            Err(_) => {
                self.refusals = self.refusals.saturating_add(1);
                Err(SinkFault::OutOfMemory)
            }
        }
    }

    fn pop_demangle_node(&mut self) {}
}
