//! Functions, variables and what compilers make, ABI section 5.1.2.

ghost use Rattle.std.specs.Prelude.{◌≡◌, ◌≤◌};
ghost use Rattle.demangle_grammar.specs.Rule.{Row};
ghost use Rattle.demangle_cells.specs.View.{view, Grown};
ghost use Rattle.demangle_cells.specs.Reads.{ReadsRow};

use crate::special_names::special_name;
use demangle_cells::{Arena, Cell, Depth, Part, Tag, Text, passed};
use demangle_read_below::Below;
use demangle_read_nested::{made, restored};
use demangle_read_types::bare_function_type;
use demangle_text::Result;

/// A function, a variable or something that the compiler makes. ABI section 5.1.2.
///
/// ```text
/// <encoding> ::= <function name> <bare-function-type> | <data name> | <special-name>
/// ```
#[tactic(auto, using(demangle_cells::proofs::Grows::grows, demangle_cells::proofs::Grows::cuts), unfolding(demangle_grammar::specs::Code::cread, demangle_grammar::specs::Rows::rule))]
pub fn encoding_by<B: Below>(
    below: B,
    arena: &mut Arena,
    depth: Depth,
    text: Text<'_>,
    at: u32,
) -> Result<Part>
    requires can { B.can below }
    requires room { depth.levels ≤ B.most below }
    ensures grown { Grown (view arena.old) (view arena.new) }
    ensures reads { ReadsRow Row.encoding depth.levels depth.conversion text.entry at result
        (view arena.old) (view arena.new) }
{
    let depth = depth.enter()?;
    let mark = arena.mark();
    if let Ok(name) = passed(below.name(arena, depth, text, at))? {
        let answer = passed(bare_function_type(below, arena, depth, text, name.end));
        return match restored(arena, mark, answer)? {
            Ok(signature) => {
                let cell = Cell::Two(Tag::EncodingFunction, name.id, signature.id);
                made(arena, cell, signature.end)
            }
            Err(_) => made(arena, Cell::One(Tag::EncodingData, name.id), name.end),
        };
    }
    let special = special_name(below, arena, depth, text, at)?;
    made(
        arena,
        Cell::One(Tag::EncodingSpecial, special.id),
        special.end,
    )
}
