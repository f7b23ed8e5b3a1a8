//! What compilers make besides functions and variables, ABI section 5.1.4.

ghost use Rattle.std.specs.Prelude.{◌≡◌, ◌≤◌, ◌<◌};
ghost use Rattle.demangle_grammar.specs.Rule.{Row};
ghost use Rattle.demangle_grammar.specs.Code.{cread};
ghost use Rattle.demangle_forms.specs.SpecialForms.{thunks_at, covariant_thunk_at, thunk_at, construction_vtable_at};
ghost use Rattle.demangle_forms.specs.SpecialForms.{of_names_at, compiler_additions_at, guard_temporary_at};
ghost use Rattle.demangle_forms.specs.SpecialForms.{transaction_clone_at};
ghost use Rattle.demangle_cells.specs.View.{view, Grown};
ghost use Rattle.demangle_cells.specs.Reads.{Reads, ReadsRow};

use crate::java_resources::java_resource;
use crate::special_words::{any_byte, name_word, table_word};
use crate::temporaries::{add_number, sequence_number};
use demangle_cells::{Arena, Cell, Depth, Part, Tag, Text, nought_id};
use demangle_read_below::Below;
use demangle_read_nested::{made, restored};
use demangle_read_rows::{begins_thunk, call_offset, has_more, unsigned, word};
use demangle_text::{Error, Result};

/// What the compiler makes besides functions and variables. ABI section 5.1.4; Java's resources, and the functions for
/// type information of old compilers, are additions of compilers.
///
/// ```text
/// <special-name> ::= TV <type> | TT <type> | TI <type> | TS <type> | TF <type>
///                ::= T <call-offset> <base encoding> | Tc <call-offset> <call-offset> <base encoding>
///                ::= TC <derived type> <offset number> _ <base type>
///                ::= TH <name> | TW <name> | GV <object name>
///                ::= GR <object name> _ | GR <object name> <seq-id> _
///                ::= Gr <length number> _ <resource-name>*
///                ::= GTn <encoding> | GT <any byte but n> <encoding>
/// ```
#[tactic(auto, using(demangle_cells::proofs::Grows::grows, demangle_forms::proofs::SpecialLaws::special_name_row_is), unfolding(demangle_forms::specs::SpecialForms::special_name_row))]
pub fn special_name<B: Below>(
    below: B,
    arena: &mut Arena,
    depth: Depth,
    text: Text<'_>,
    at: u32,
) -> Result<Part>
    requires can { B.can below }
    requires room { depth.levels ≤ B.most below }
    ensures grown { Grown (view arena.old) (view arena.new) }
    ensures reads { ReadsRow Row.special_name depth.levels depth.conversion text.entry at result
        (view arena.old) (view arena.new) }
{
    let depth = depth.enter()?;
    if !has_more(text, at, 2) {
        return Err(Error::UnexpectedEnd);
    }
    if let Ok((tag, at)) = table_word(text, at) {
        let ty = below.type_handle(arena, depth, text, at)?;
        return made(arena, Cell::One(tag, ty.id), ty.end);
    }
    thunk_or_vtable(below, arena, depth, text, at)
}

/// Thunks, construction tables, and the alternatives after them.
#[tactic(auto, using(demangle_cells::proofs::Grows::grows), unfolding(demangle_forms::specs::SpecialForms::thunks_at))]
fn thunk_or_vtable<B: Below>(
    below: B,
    arena: &mut Arena,
    depth: Depth,
    text: Text<'_>,
    at: u32,
) -> Result<Part>
    requires can { B.can below }
    requires room { depth.levels < B.most below }
    ensures grown { Grown (view arena.old) (view arena.new) }
    ensures reads { Reads text.entry at result (view arena.old) (view arena.new)
        (λ s. thunks_at (cread depth.levels) depth.conversion s) }
{
    if let Ok(at) = word(text, at, b"Tc") {
        return covariant_thunk(below, arena, depth, text, at);
    }
    if begins_thunk(text, at) {
        return thunk(below, arena, depth, text, at);
    }
    if let Ok(at) = word(text, at, b"TC") {
        return construction_vtable(below, arena, depth, text, at);
    }
    of_name_or_addition(below, arena, depth, text, at)
}

/// What is made for a name, and the alternatives after it.
#[tactic(auto, using(demangle_cells::proofs::Grows::grows), unfolding(demangle_forms::specs::SpecialForms::of_names_at))]
fn of_name_or_addition<B: Below>(
    below: B,
    arena: &mut Arena,
    depth: Depth,
    text: Text<'_>,
    at: u32,
) -> Result<Part>
    requires can { B.can below }
    requires room { depth.levels < B.most below }
    ensures grown { Grown (view arena.old) (view arena.new) }
    ensures reads { Reads text.entry at result (view arena.old) (view arena.new)
        (λ s. of_names_at (cread depth.levels) depth.conversion s) }
{
    if let Ok((tag, at)) = name_word(text, at) {
        let name = below.name(arena, depth, text, at)?;
        return made(arena, Cell::One(tag, name.id), name.end);
    }
    compiler_addition(below, arena, depth, text, at)
}

/// Temporaries, resources and clones, the last alternatives.
#[tactic(auto, using(demangle_cells::proofs::Grows::grows), unfolding(demangle_forms::specs::SpecialForms::compiler_additions_at))]
fn compiler_addition<B: Below>(
    below: B,
    arena: &mut Arena,
    depth: Depth,
    text: Text<'_>,
    at: u32,
) -> Result<Part>
    requires can { B.can below }
    requires room { depth.levels < B.most below }
    ensures grown { Grown (view arena.old) (view arena.new) }
    ensures reads { Reads text.entry at result (view arena.old) (view arena.new)
        (λ s. compiler_additions_at (cread depth.levels) depth.conversion s) }
{
    if let Ok(at) = word(text, at, b"GR") {
        return guard_temporary(below, arena, depth, text, at);
    }
    if let Ok(at) = word(text, at, b"Gr") {
        return java_resource(arena, depth, text, at);
    }
    if let Ok(at) = word(text, at, b"GT") {
        return transaction_clone(below, arena, depth, text, at);
    }
    Err(Error::UnexpectedText)
}

/// A thunk that also changes what the function returns, behind `Tc`: `<call-offset> <call-offset> <base encoding>`.
#[tactic(auto, using(demangle_cells::proofs::Grows::grows), unfolding(demangle_forms::specs::SpecialForms::covariant_thunk_at))]
fn covariant_thunk<B: Below>(
    below: B,
    arena: &mut Arena,
    depth: Depth,
    text: Text<'_>,
    at: u32,
) -> Result<Part>
    requires can { B.can below }
    requires room { depth.levels < B.most below }
    ensures grown { Grown (view arena.old) (view arena.new) }
    ensures reads { Reads text.entry at result (view arena.old) (view arena.new)
        (λ s. covariant_thunk_at (cread depth.levels) depth.conversion s) }
{
    let this = call_offset(arena, depth, text, at)?;
    let returned = call_offset(arena, depth, text, this.end)?;
    let encoding = below.encoding(arena, depth, text, returned.end)?;
    let cell = Cell::Three(
        Tag::SpecialNameVirtualOverrideThunkCovariant,
        this.id,
        returned.id,
        encoding.id,
    );
    made(arena, cell, encoding.end)
}

/// A thunk that changes `this`: `T <call-offset> <base encoding>`.
#[tactic(auto, using(demangle_cells::proofs::Grows::grows), unfolding(demangle_forms::specs::SpecialForms::thunk_at))]
fn thunk<B: Below>(
    below: B,
    arena: &mut Arena,
    depth: Depth,
    text: Text<'_>,
    at: u32,
) -> Result<Part>
    requires can { B.can below }
    requires room { depth.levels < B.most below }
    ensures grown { Grown (view arena.old) (view arena.new) }
    ensures reads { Reads text.entry at result (view arena.old) (view arena.new)
        (λ s. thunk_at (cread depth.levels) depth.conversion s) }
{
    let at = word(text, at, b"T")?;
    let offset = call_offset(arena, depth, text, at)?;
    let encoding = below.encoding(arena, depth, text, offset.end)?;
    let cell = Cell::Two(Tag::SpecialNameVirtualOverrideThunk, offset.id, encoding.id);
    made(arena, cell, encoding.end)
}

/// The virtual table of a base while it is constructed, behind `TC`: `<derived type> <offset number> _ <base type>`.
#[tactic(auto, using(demangle_cells::proofs::Grows::grows, demangle_cells::proofs::Grows::cuts), unfolding(demangle_forms::specs::SpecialForms::construction_vtable_at))]
fn construction_vtable<B: Below>(
    below: B,
    arena: &mut Arena,
    depth: Depth,
    text: Text<'_>,
    at: u32,
) -> Result<Part>
    requires can { B.can below }
    requires room { depth.levels < B.most below }
    ensures grown { Grown (view arena.old) (view arena.new) }
    ensures reads { Reads text.entry at result (view arena.old) (view arena.new)
        (λ s. construction_vtable_at (cread depth.levels) depth.conversion s) }
{
    let mark = arena.mark();
    let derived = below.type_handle(arena, depth, text, at)?;
    let answer = unsigned(text, derived.end, 10);
    let (offset, at) = restored(arena, mark, answer)?;
    let answer = word(text, at, b"_");
    let at = restored(arena, mark, answer)?;
    let answer = below.type_handle(arena, depth, text, at);
    let base = restored(arena, mark, answer)?;
    let offset = arena.push(Cell::Number(offset as isize))?;
    let cell = Cell::Three(
        Tag::SpecialNameConstructionVtable,
        derived.id,
        offset,
        base.id,
    );
    made(arena, cell, base.end)
}

/// A temporary that a reference is bound to, behind `GR`: `<object name> _ | <object name> <seq-id> _`.
#[tactic(auto, using(demangle_cells::proofs::Grows::grows, demangle_cells::proofs::Grows::cuts), unfolding(demangle_forms::specs::SpecialForms::guard_temporary_at))]
fn guard_temporary<B: Below>(
    below: B,
    arena: &mut Arena,
    depth: Depth,
    text: Text<'_>,
    at: u32,
) -> Result<Part>
    requires can { B.can below }
    requires room { depth.levels < B.most below }
    ensures grown { Grown (view arena.old) (view arena.new) }
    ensures reads { Reads text.entry at result (view arena.old) (view arena.new)
        (λ s. guard_temporary_at (cread depth.levels) depth.conversion s) }
{
    let mark = arena.mark();
    let name = below.name(arena, depth, text, at)?;
    if let Ok(end) = word(text, name.end, b"_") {
        let cell = Cell::Two(Tag::SpecialNameGuardTemporary, name.id, nought_id());
        return made(arena, cell, end);
    }
    let answer = sequence_number(depth, text, name.end);
    let (number, at) = restored(arena, mark, answer)?;
    let answer = word(text, at, b"_");
    let end = restored(arena, mark, answer)?;
    let number = add_number(arena, number)?;
    made(
        arena,
        Cell::Two(Tag::SpecialNameGuardTemporary, name.id, number),
        end,
    )
}

/// A copy of a function for transactions, behind `GT`: `n <encoding> | <any byte but n> <encoding>`.
#[tactic(auto, using(demangle_cells::proofs::Grows::grows), unfolding(demangle_forms::specs::SpecialForms::transaction_clone_at))]
fn transaction_clone<B: Below>(
    below: B,
    arena: &mut Arena,
    depth: Depth,
    text: Text<'_>,
    at: u32,
) -> Result<Part>
    requires can { B.can below }
    requires room { depth.levels < B.most below }
    ensures grown { Grown (view arena.old) (view arena.new) }
    ensures reads { Reads text.entry at result (view arena.old) (view arena.new)
        (λ s. transaction_clone_at (cread depth.levels) depth.conversion s) }
{
    if let Ok(at) = word(text, at, b"n") {
        let encoding = below.encoding(arena, depth, text, at)?;
        return made(
            arena,
            Cell::One(Tag::SpecialNameNonTransactionClone, encoding.id),
            encoding.end,
        );
    }
    let at = any_byte(text, at)?;
    let encoding = below.encoding(arena, depth, text, at)?;
    made(
        arena,
        Cell::One(Tag::SpecialNameTransactionClone, encoding.id),
        encoding.end,
    )
}
