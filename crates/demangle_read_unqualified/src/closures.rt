//! Closures, ABI section 5.1.8.

ghost use Rattle.std.specs.Prelude.{◌≡◌, ◌≤◌, ℕ, IfErr, IfOk};
ghost use Rattle.demangle_text.specs.declared.error.Error.TheVariants.{OutOfMemory};
ghost use Rattle.demangle_core.specs.Core.{Core};
ghost use Rattle.demangle_grammar.specs.Rule.{Row};
ghost use Rattle.demangle_forms.specs.WordForms.{optional_unsigned_at};
ghost use Rattle.demangle_cells.specs.Reads.{ReadsRow, spot_at};
ghost use Rattle.demangle_cells.specs.View.{Grown, Holds, table, view};

use demangle_cells::{Arena, Cell, Depth, Part, Tag, Text, absent_id};
use demangle_read_below::Below;
use demangle_read_rows::{unsigned, word};
use demangle_read_types::{made_one, made_two, restored, type_list};
use demangle_text::Result;

/// A closure: its parameter types, and its number where one is written. ABI section 5.1.8.
///
/// ```text
/// <closure-type-name> ::= Ul <lambda-sig> E [<non-negative number>] _
/// ```
#[tactic(auto, using(demangle_forms::proofs::UnqualifiedLaws::closure_type_name_row_is, demangle_cells::proofs::Grows::grows, demangle_cells::proofs::Grows::cuts), unfolding(demangle_forms::specs::UnqualifiedForms::closure_type_name_row))]
pub fn closure_type_name<B: Below>(
    below: B,
    arena: &mut Arena,
    depth: Depth,
    text: Text<'_>,
    at: u32,
) -> Result<Part>
    requires can { B.can below }
    requires room { depth.levels ≤ B.most below }
    ensures grown { Grown (view arena.old) (view arena.new) }
    ensures reads { ReadsRow Row.closure_type_name depth.levels depth.conversion text.entry at result
        (view arena.old) (view arena.new) }
{
    let depth = depth.enter()?;
    let mark = arena.mark();
    let rest = word(text, at, b"Ul")?;
    let signature = lambda_sig(below, arena, depth, text, rest)?;
    let rest = restored(arena, mark, word(text, signature.end, b"E"))?;
    let number = optional_unsigned(arena, text, rest)?;
    let end = restored(arena, mark, word(text, number.end, b"_"))?;
    made_two(
        arena,
        Tag::ClosureTypeName,
        signature.id,
        Part { id: number.id, end },
    )
}

/// A number without a sign, or none.
#[tactic(auto, using(demangle_cells::proofs::Grows::grows), unfolding(demangle_forms::specs::WordForms::optional_unsigned_at))]
fn optional_unsigned(arena: &mut Arena, text: Text<'_>, at: u32) -> Result<Part>
    ensures grown { Grown (view arena.old) (view arena.new) }
    ensures table { (F : ℕ → Core) → table F (view arena.new) ≡ table F (view arena.old) }
    ensures rest { IfOk result (λ x. spot_at text.entry x.end ≡ (optional_unsigned_at (spot_at text.entry at)).1) }
    ensures number { IfOk result (λ x. (F : ℕ → Core) → Holds F (view arena.new)
        → F x.id ≡ (optional_unsigned_at (spot_at text.entry at)).0) }
    ensures refused { IfErr result (λ e. e ≡ OutOfMemory) }
{
    match unsigned(text, at, 10) {
        Ok((number, end)) => {
            let id = arena.push(Cell::Count(Tag::Present, number))?;
            Ok(Part { id, end })
        }
        Err(_) => Ok(Part {
            id: absent_id(),
            end: at,
        }),
    }
}

/// The parameter types of a closure, `v` for none. ABI section 5.1.8.
///
/// ```text
/// <lambda-sig> ::= <parameter type>+ | v
/// ```
#[tactic(auto, using(demangle_forms::proofs::UnqualifiedLaws::lambda_sig_row_is, demangle_cells::proofs::Grows::grows), unfolding(demangle_forms::specs::UnqualifiedForms::lambda_sig_row))]
pub fn lambda_sig<B: Below>(
    below: B,
    arena: &mut Arena,
    depth: Depth,
    text: Text<'_>,
    at: u32,
) -> Result<Part>
    requires can { B.can below }
    requires room { depth.levels ≤ B.most below }
    ensures grown { Grown (view arena.old) (view arena.new) }
    ensures reads { ReadsRow Row.lambda_sig depth.levels depth.conversion text.entry at result
        (view arena.old) (view arena.new) }
{
    let depth = depth.enter()?;
    if let Ok(end) = word(text, at, b"v") {
        let id = arena.push(Cell::EmptyList(Tag::LambdaSig))?;
        return Ok(Part { id, end });
    }
    let types = type_list(below, arena, depth, text, at)?;
    made_one(arena, Tag::LambdaSig, types)
}
