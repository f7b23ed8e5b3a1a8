//! A listener that keeps all that it is told.

ghost use Rattle.std.specs.Prelude.{◌≡◌, Some, [], true, length, string_bytes};
ghost use Rattle.demangle_parts_text.specs.Heard.{sizes, told_calls};
ghost use Rattle.demangle_parts_text.specs.Marks.{begin_chars};

use crate::divide::divide_if;
use crate::divided::Divided;
use crate::front::Front;
use crate::mark::{Kept, Mark, keep};
use demangle_context::{DemangleNodeType, DemangleWrite, SinkFault};
use std::alloc::Global;

/// A listener that keeps the text and a mark for each call. Where there is no memory for a piece, it refuses the piece.
/// That a node begins or ends can't be refused: where there is no memory for such a mark, the calls are lost.
#[derive(Drop)]
pub struct Heard {
    kept: Kept,
    lost: bool,
    refusals: u64,
    ghost whole: { sizes kept.marks.items ≡ length (string_bytes kept.text) },
    ghost characters: { begin_chars true (string_bytes kept.text) kept.marks.items ≡ true },
}

#[tactic(auto, unfolding(crate::specs::Heard::sizes, crate::specs::Heard::calls, crate::specs::Marks::begin_chars))]
impl Heard {
    ghost use Rattle.demangle_parts_text.specs.Divided.{IsCutOf, IsWhole};

    /// A listener that heard nothing.
    pub fn new(alloc: Global) -> Heard
        ensures text { (⟦<Heard as DemangleWrite>⟧.seen result).text ≡ Some [] }
        ensures calls { (⟦<Heard as DemangleWrite>⟧.seen result).calls ≡ Some [] }
    {
        Heard {
            kept: Kept {
                text: String::new(alloc),
                marks: Vec::new(alloc),
            },
            lost: false,
            refusals: 0,
        }
    }

    /// The parts of the text that was heard, or the whole text as base, where it has no parts. `None` exactly where
    /// calls were lost for want of memory.
    pub fn divided(self, has_parts: bool) -> Option<Divided>
        requires { IsWhole (⟦<Heard as DemangleWrite>⟧.seen self).calls }
        ensures { IsCutOf has_parts (⟦<Heard as DemangleWrite>⟧.seen self).calls result }
    {
        if self.lost {
            return None;
        }
        let Kept { text, marks } = self.kept;
        let front = Front {
            text: text.as_str().as_bytes(),
            marks: marks.as_slice(),
        };
        let (scope, end) = divide_if(has_parts, front);
        drop(marks);
        Some(Divided { text, scope, end })
    }
}

impl DemangleWrite for Heard {
    ghost seen = { λ s. record {
      text = Some (string_bytes s.kept.text);
      calls = told_calls s.lost (string_bytes s.kept.text) s.kept.marks.items;
      faults = 0;
      refusals = s.refusals;
    } };

    fn push_demangle_node(&mut self, kind: DemangleNodeType) {
        if self.kept.marks.push(Mark::Begins(kind)).is_err() {
            self.lost = true;
        }
    }

    fn write_string(&mut self, s: &str) -> Result<(), SinkFault> {
        if keep(&mut self.kept, s) {
            return Ok(());
        }
        self.refusals = self.refusals.saturating_add(1);
        Err(SinkFault::OutOfMemory)
    }

    fn pop_demangle_node(&mut self) {
        if self.kept.marks.push(Mark::Ends).is_err() {
            self.lost = true;
        }
    }
}
