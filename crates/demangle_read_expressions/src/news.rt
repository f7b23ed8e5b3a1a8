//! New and delete. Where levels enough are left, delete is read once: where what is deleted can't be read, the operand
//! of the operator of the same word can't either.

ghost use Rattle.std.specs.Prelude.{◌≡◌, ◌<◌};
ghost use Rattle.demangle_core.specs.Table.{Table};
ghost use Rattle.demangle_grammar.specs.Code.{cread, here};
ghost use Rattle.demangle_forms.specs.ExpressionForms.{allocation_at, delete_at, global_allocation_at, global_forms};
ghost use Rattle.demangle_forms.specs.ExpressionForms.{names_at, new_at, plain_forms};
ghost use Rattle.demangle_cells.specs.Reads.{ReadsPart, spot_at};
ghost use Rattle.demangle_cells.specs.Tags.{tag_of};
ghost use Rattle.demangle_cells.specs.View.{Grown, view};
ghost use Rattle.demangle_read_expressions.specs.Allocations.{names_by, tags_of};

use crate::calls::initializer;
use crate::lists::expression_list;
use demangle_cells::{Arena, Cell, Depth, Part, Tag, Text, absent_id, passed};
use demangle_read_below::Below;
use demangle_read_rows::{has_more, word};
use demangle_read_types::{made_one, restored};
use demangle_text::{Error, Result};

/// The most levels that an alternative between delete and operators enters before it fails.
const SHALLOW: u32 = 4;

/// The nodes of the four forms that may stand at one place.
#[derive(Clone, Copy)]
pub struct Allocations {
    /// That of `nw`.
    pub new_object: Tag,
    /// That of `na`.
    pub new_array: Tag,
    /// That of `dl`.
    pub delete_object: Tag,
    /// That of `da`.
    pub delete_array: Tag,
}

impl Allocations {
    /// Those with no `gs` before them.
    pub fn plain() -> Allocations
        ensures { tags_of result ≡ plain_forms }
    {
        Allocations {
            new_object: Tag::ExpressionNew,
            new_array: Tag::ExpressionNewArray,
            delete_object: Tag::ExpressionDelete,
            delete_array: Tag::ExpressionDeleteArray,
        }
    }

    /// Those behind `gs`.
    pub fn global() -> Allocations
        ensures { tags_of result ≡ global_forms }
    {
        Allocations {
            new_object: Tag::ExpressionGlobalNew,
            new_array: Tag::ExpressionGlobalNewArray,
            delete_object: Tag::ExpressionGlobalDelete,
            delete_array: Tag::ExpressionGlobalDeleteArray,
        }
    }
}

/// New or delete behind `gs`, ABI section 5.1.6.
#[tactic(auto, using(crate::proofs::MissingWords::word_missing, demangle_cells::proofs::Grows::grows), unfolding(demangle_forms::specs::ExpressionForms::global_allocation_at))]
pub fn global_allocation<B: Below>(
    below: B,
    arena: &mut Arena,
    depth: Depth,
    text: Text<'_>,
    at: u32,
) -> Result<Part>
    requires can { B.can below }
    requires room { depth.levels < B.most below }
    ensures grown { Grown (view arena.old) (view arena.new) }
    ensures reads { ReadsPart text.entry at result (view arena.old) (view arena.new)
        (λ s. global_allocation_at (cread depth.levels) depth.conversion s) }
{
    let rest = word(text, at, b"gs")?;
    let forms = Allocations::global();
    allocation(below, arena, depth, text, rest, forms)
}

/// New or delete, ABI section 5.1.6, in the global forms or in the plain ones. What fails here may still be an operator
/// of the same word with its operands.
///
/// ```text
/// <expression> ::= nw .. | na .. | dl <expression> | da <expression>
/// ```
#[tactic(auto, using(demangle_cells::proofs::Grows::grows), unfolding(demangle_forms::specs::ExpressionForms::allocation_at))]
pub fn allocation<B: Below>(
    below: B,
    arena: &mut Arena,
    depth: Depth,
    text: Text<'_>,
    at: u32,
    forms: Allocations,
) -> Result<Part>
    requires can { B.can below }
    requires room { depth.levels < B.most below }
    ensures grown { Grown (view arena.old) (view arena.new) }
    ensures reads { ReadsPart text.entry at result (view arena.old) (view arena.new)
        (λ s. allocation_at (tags_of forms) (cread depth.levels) depth.conversion s) }
{
    if !has_more(text, at, 2) {
        return Err(Error::UnexpectedEnd);
    }
    let tag = forms.new_object;
    if let Ok(found) = passed(new_of(below, arena, depth, text, at, b"nw", tag))? {
        return Ok(found);
    }
    let tag = forms.new_array;
    if let Ok(found) = passed(new_of(below, arena, depth, text, at, b"na", tag))? {
        return Ok(found);
    }
    let tag = forms.delete_object;
    if let Ok(found) = passed(delete_of(below, arena, depth, text, at, b"dl", tag))? {
        return Ok(found);
    }
    delete_of(below, arena, depth, text, at, b"da", forms.delete_array)
}

/// New with this word at its front: its placement, its type, and its initializer or none.
///
/// ```text
/// <new> ::= <word> <expression>* _ <type> E | <word> <expression>* _ <type> <initializer>
/// ```
#[tactic(auto, using(crate::proofs::MissingWords::word_missing, demangle_cells::proofs::Grows::grows, demangle_cells::proofs::Grows::cuts), unfolding(demangle_forms::specs::ExpressionForms::new_at))]
fn new_of<B: Below>(
    below: B,
    arena: &mut Arena,
    depth: Depth,
    text: Text<'_>,
    at: u32,
    begin: &[u8],
    tag: Tag,
) -> Result<Part>
    requires can { B.can below }
    requires room { depth.levels < B.most below }
    ensures grown { Grown (view arena.old) (view arena.new) }
    ensures reads { ReadsPart text.entry at result (view arena.old) (view arena.new)
        (λ s. new_at begin.now (tag_of tag) (cread depth.levels) depth.conversion s) }
{
    let rest = word(text, at, begin)?;
    let mark = arena.mark();
    let placement = expression_list(below, arena, depth, text, rest)?;
    let answer = word(text, placement.end, b"_");
    let rest = restored(arena, mark, answer)?;
    let answer = below.type_handle(arena, depth, text, rest);
    let ty = restored(arena, mark, answer)?;
    if let Ok(end) = word(text, ty.end, b"E") {
        let id = arena.push(Cell::Three(tag, placement.id, ty.id, absent_id()))?;
        return Ok(Part { id, end });
    }
    let answer = initializer(below, arena, depth, text, ty.end);
    let values = restored(arena, mark, answer)?;
    let present = made_one(arena, Tag::Present, values)?;
    let id = arena.push(Cell::Three(tag, placement.id, ty.id, present.id))?;
    Ok(Part {
        id,
        end: present.end,
    })
}

/// Delete with this word at its front.
#[tactic(auto, using(crate::proofs::MissingWords::word_missing, demangle_cells::proofs::Grows::grows), unfolding(demangle_forms::specs::ExpressionForms::delete_at))]
fn delete_of<B: Below>(
    below: B,
    arena: &mut Arena,
    depth: Depth,
    text: Text<'_>,
    at: u32,
    begin: &[u8],
    tag: Tag,
) -> Result<Part>
    requires can { B.can below }
    requires room { depth.levels < B.most below }
    ensures grown { Grown (view arena.old) (view arena.new) }
    ensures reads { ReadsPart text.entry at result (view arena.old) (view arena.new)
        (λ s. delete_at begin.now (tag_of tag) (cread depth.levels) depth.conversion s) }
{
    let rest = word(text, at, begin)?;
    let object = below.expression(arena, depth, text, rest)?;
    made_one(arena, tag, object)
}

/// The node of delete whose word stands there, and the place behind it, where levels enough are left for the
/// alternatives between it and an operator.
#[tactic(auto, using(crate::proofs::DeleteLaws::deletes, demangle_read_rows::proofs::Places::places))]
pub fn delete_word(depth: Depth, text: Text<'_>, at: u32) -> Option<(Tag, u32)>
    ensures { (table : Table) → names_at (cread depth.levels) depth.conversion (here (spot_at text.entry at) table)
        ≡ names_by text.entry result (cread depth.levels) depth.conversion (here (spot_at text.entry at) table) }
{
    if depth.levels < SHALLOW {
        return None;
    }
    match text.rest(at) {
        [b'd', b'l', ..] => Some((Tag::ExpressionDelete, at + 2)),
        [b'd', b'a', ..] => Some((Tag::ExpressionDeleteArray, at + 2)),
        _ => None,
    }
}
