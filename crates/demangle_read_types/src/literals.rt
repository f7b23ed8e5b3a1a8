//! Literals and the names of entities in expressions, ABI section 5.1.6.

ghost use Rattle.std.specs.Prelude.{◌≤◌};
ghost use Rattle.demangle_grammar.specs.Rule.{Row};
ghost use Rattle.demangle_cells.specs.Reads.{ReadsRow};
ghost use Rattle.demangle_cells.specs.View.{Grown, view};

use crate::bytes::up_to_e;
use crate::made::{made_one, made_two, restored};
use demangle_cells::{Arena, Cell, Depth, Part, Tag, Text, passed};
use demangle_read_below::Below;
use demangle_read_rows::word;
use demangle_text::Result;

/// A literal, whose value is every byte up to the `E`, or the name of an entity. ABI section 5.1.6.
///
/// ```text
/// <expr-primary> ::= L <type> <value> E | L <mangled-name> E
/// ```
#[tactic(auto, using(demangle_cells::proofs::Grows::grows, demangle_cells::proofs::Grows::cuts), unfolding(demangle_grammar::specs::Code::cread, demangle_grammar::specs::Rows::rule))]
pub fn expr_primary<B: Below>(
    below: B,
    arena: &mut Arena,
    depth: Depth,
    text: Text<'_>,
    at: u32,
) -> Result<Part>
    requires can { B.can below }
    requires room { depth.levels ≤ B.most below }
    ensures grown { Grown (view arena.old) (view arena.new) }
    ensures reads { ReadsRow Row.expr_primary depth.levels depth.conversion text.entry at result
        (view arena.old) (view arena.new) }
{
    let depth = depth.enter()?;
    let mark = arena.mark();
    let rest = word(text, at, b"L")?;
    if let Ok(ty) = passed(below.type_handle(arena, depth, text, rest))? {
        let stop = up_to_e(text, ty.end);
        let end = restored(arena, mark, word(text, stop, b"E"))?;
        let value = arena.push(Cell::Place(ty.end, stop))?;
        return made_two(
            arena,
            Tag::ExprPrimaryLiteral,
            ty.id,
            Part { id: value, end },
        );
    }
    let name = below.mangled_name(arena, depth, text, rest)?;
    let end = restored(arena, mark, word(text, name.end, b"E"))?;
    made_one(arena, Tag::ExprPrimaryExternal, Part { id: name.id, end })
}
