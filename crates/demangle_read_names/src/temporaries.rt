//! The numbers of temporaries, ABI section 5.1.4, <special-name>.

ghost use Rattle.std.specs.Prelude.{◌≡◌, ◌<◌, ◌+◌, ◌^◌, ℕ, pos, IfErr, IfOk};
ghost use Rattle.demangle_text.specs.declared.error.Error.TheVariants.{OutOfMemory};
ghost use Rattle.demangle_core.specs.Core.{Core, end, number};
ghost use Rattle.demangle_cells.specs.View.{view, Grown, Holds, table};
ghost use Rattle.demangle_read_names.specs.Temporaries.{ReadsNumber};

use demangle_cells::{Arena, Cell, Depth, Text};
use demangle_read_rows::unsigned;
use demangle_text::Result;

/// A number in base 36, and where the text goes on, ABI section 5.1.10, <seq-id>.
#[tactic(auto, unfolding(demangle_grammar::specs::Code::cread, demangle_grammar::specs::Rows::rule))]
pub fn sequence_number(depth: Depth, text: Text<'_>, at: u32) -> Result<(usize, u32)>
    ensures number { ReadsNumber text.entry at depth.levels depth.conversion result }
    ensures small { IfOk result (λ x. x.0 < 2 ^ 63) }
{
    let _depth = depth.enter()?;
    unsigned(text, at, 36)
}

/// The index of the number after this one. `OutOfMemory` is the one refusal.
pub fn add_number(arena: &mut Arena, before: usize) -> Result<u32>
    requires small { before < 2 ^ 63 }
    ensures grown { Grown (view arena.old) (view arena.new) }
    ensures table { (F : ℕ → Core) → table F (view arena.new) ≡ table F (view arena.old) }
    ensures made { IfOk result (λ i. (F : ℕ → Core) → Holds F (view arena.new)
        → F i ≡ number (pos (before + 1)) end) }
    ensures refused { IfErr result (λ e. e ≡ OutOfMemory) }
{
    arena.push(Cell::Counted(before + 1))
}
