//! Names inside classes or namespaces, ABI section 5.1.2.

ghost use Rattle.std.specs.Prelude.{◌≡◌, ◌≤◌};
ghost use Rattle.demangle_grammar.specs.Rule.{Row};
ghost use Rattle.demangle_cells.specs.View.{view, Grown};
ghost use Rattle.demangle_cells.specs.Reads.{ReadsRow};

use crate::held::restored;
use crate::prefixes::prefix_handle;
use crate::qualifiers::nested_qualifiers;
use crate::take_over::take_over;
use demangle_cells::{Arena, Depth, Part, Text};
use demangle_read_below::Below;
use demangle_read_rows::word;
use demangle_text::Result;

/// A name inside classes or namespaces. It is read as a prefix, whose entry it takes over: the last name, or the
/// template with its arguments. `H` stands in place of the qualifiers for an explicit object parameter. ABI
/// section 5.1.2.
///
/// ```text
/// <nested-name> ::= N [<CV-qualifiers>] [<ref-qualifier>] <prefix> <unqualified-name> E
///               ::= N [<CV-qualifiers>] [<ref-qualifier>] <template-prefix> <template-args> E
///               ::= N H <prefix> <unqualified-name> E | N H <template-prefix> <template-args> E
/// ```
#[tactic(auto, using(demangle_cells::proofs::Grows::grows, demangle_cells::proofs::Grows::cuts, demangle_forms::proofs::NameLaws::nested_name_row_is), unfolding(demangle_forms::specs::NameForms::nested_name_row))]
pub fn nested_name<B: Below>(
    below: B,
    arena: &mut Arena,
    depth: Depth,
    text: Text<'_>,
    at: u32,
) -> Result<Part>
    requires can { B.can below }
    requires room { depth.levels ≤ B.most below }
    ensures grown { Grown (view arena.old) (view arena.new) }
    ensures reads { ReadsRow Row.nested_name depth.levels depth.conversion text.entry at result
        (view arena.old) (view arena.new) }
{
    let depth = depth.enter()?;
    let mark = arena.mark();
    let at = word(text, at, b"N")?;
    let (qualifiers, at) = nested_qualifiers(arena, depth, text, at)?;
    let prefix = prefix_handle(below, arena, depth, text, at)?;
    let answer = word(text, prefix.end, b"E");
    let end = restored(arena, mark, answer)?;
    let answer = take_over(arena, qualifiers, prefix.id);
    let id = restored(arena, mark, answer)?;
    Ok(Part { id, end })
}
