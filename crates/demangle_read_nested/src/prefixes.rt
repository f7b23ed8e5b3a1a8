//! Prefixes of nested names, ABI section 5.1.2: a first turn, and turns behind it until one reads no byte. Each turn
//! enters a level of its own.

ghost use Rattle.std.specs.Prelude.{◌≡◌, ◌≤◌, ◌<◌};
ghost use Rattle.demangle_grammar.specs.Rule.{Row};
ghost use Rattle.demangle_grammar.specs.Code.{cread, turns_of};
ghost use Rattle.demangle_cells.specs.View.{view, Grown};
ghost use Rattle.demangle_cells.specs.Reads.{ReadsRow};
ghost use Rattle.demangle_read_nested.specs.Turns.{ReadsBehind};

use crate::held::restored;
use crate::turns::{first_prefix, prefix_turn};
use demangle_cells::{Arena, Depth, Part, Text};
use demangle_read_below::Below;
use demangle_text::Result;

/// A prefix, as the component that its last turn made. ABI section 5.1.2.
///
/// ```text
/// <prefix> ::= <unqualified-name> | <prefix> <unqualified-name> | <template-prefix> <template-args>
///          ::= <template-param> | <decltype> | <prefix> <data-member-prefix> | <substitution>
/// ```
#[tactic(auto, using(demangle_cells::proofs::Grows::grows, demangle_cells::proofs::Grows::cuts, crate::proofs::RowsRead::prefix_handle_is), unfolding(demangle_read_types::specs::RowsRead::row_read, demangle_grammar::specs::Rows::rule))]
pub fn prefix_handle<B: Below>(
    below: B,
    arena: &mut Arena,
    depth: Depth,
    text: Text<'_>,
    at: u32,
) -> Result<Part>
    requires can { B.can below }
    requires room { depth.levels ≤ B.most below }
    ensures grown { Grown (view arena.old) (view arena.new) }
    ensures reads { ReadsRow Row.prefix_handle depth.levels depth.conversion text.entry at result
        (view arena.old) (view arena.new) }
{
    let depth = depth.enter()?;
    let mark = arena.mark();
    let first = first_prefix(below, arena, depth, text, at)?;
    let answer = prefix_turns(below, arena, depth, text, first.end, first.id);
    restored(arena, mark, answer)
}

/// The turns behind the first.
#[tactic(auto, using(demangle_cells::proofs::Grows::grows, demangle_cells::proofs::Grows::cuts, crate::proofs::TurnSteps::turning))]
fn prefix_turns<B: Below>(
    below: B,
    arena: &mut Arena,
    depth: Depth,
    text: Text<'_>,
    at: u32,
    first: u32,
) -> Result<Part>
    requires can { B.can below }
    requires room { depth.levels < B.most below }
    ensures grown { Grown (view arena.old) (view arena.new) }
    ensures reads { ReadsBehind text.entry at first result (view arena.old) (view arena.new)
        (λ s acc. turns_of (cread depth.levels) depth.conversion Row.prefix_turn s acc) }
{
    let mark = arena.mark();
    let mut prefix = first;
    let mut at = at;
    loop {
        let next = match prefix_turn(below, arena, depth, text, at, prefix) {
            Ok(next) => next,
            Err(error) => {
                arena.cut_back(mark);
                return Err(error);
            }
        };
        if next.end <= at {
            return Ok(next);
        }
        prefix = next.id;
        at = next.end;
    }
}
