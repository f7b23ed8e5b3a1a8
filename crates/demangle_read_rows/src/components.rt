//! New components, each of the kind that a row makes, and the references to them. `OutOfMemory` is the one refusal of
//! each.

ghost use Rattle.std.specs.Prelude.{◌≡◌, ℕ, IfOk, IfErr};
ghost use Rattle.demangle_text.specs.declared.error.Error.TheVariants.{OutOfMemory};
ghost use Rattle.demangle_core.specs.Core.{Core, N, U, Tag, node, end};
ghost use Rattle.demangle_core.specs.Table.{added, size};
ghost use Rattle.demangle_grammar.specs.Rule.{Mark};
ghost use Rattle.demangle_grammar.specs.Reading.{marks};
ghost use Rattle.demangle_grammar.specs.Tree.{reference};
ghost use Rattle.demangle_cells.specs.Cells.{tree};
ghost use Rattle.demangle_cells.specs.Tags.{tag_of};
ghost use Rattle.demangle_cells.specs.View.{view, which_of, Grown, Holds, table};
ghost use Rattle.demangle_cells.specs.Reads.{spot_at};
ghost use Rattle.demangle_read_rows.specs.Adds.{Adds};

use crate::next::next_is;
use demangle_cells::{Arena, Cell, Tag as CellTag, Text};
use demangle_text::Result;

/// A component of one node over a tree.
#[tactic(auto, using(demangle_cells::proofs::Grows::grows))]
#[inline(always)]
fn add_over(arena: &mut Arena, numbered: bool, tag: CellTag, part: u32) -> Result<u32>
    ensures grown { Grown (view arena.old) (view arena.new) }
    ensures reference { IfOk result (λ r. (F : ℕ → Core) → Holds F (view arena.new)
        → F r ≡ reference (which_of numbered) (size (which_of numbered) (table F (view arena.old)))) }
    ensures added { IfOk result (λ r. (F : ℕ → Core) → Holds F (view arena.new)
        → table F (view arena.new) ≡ added (which_of numbered) (node (tag_of tag) (F part) end)
        (table F (view arena.old))) }
    ensures refused { IfErr result (λ e. e ≡ OutOfMemory) }
{
    let entry = arena.push(Cell::One(tag, part))?;
    arena.add(numbered, entry)
}

/// A component of one node over a cell.
#[tactic(auto, using(demangle_cells::proofs::Grows::grows))]
#[inline(always)]
fn add_cell(arena: &mut Arena, numbered: bool, tag: CellTag, cell: Cell) -> Result<u32>
    ensures grown { Grown (view arena.old) (view arena.new) }
    ensures adds { Adds (which_of numbered) (λ F list. node (tag_of tag) (tree F list cell) end)
        result (view arena.old) (view arena.new) }
{
    let part = arena.push(cell)?;
    add_over(arena, numbered, tag, part)
}

/// A type, ABI section 5.1.5, <type>.
#[inline(always)]
#[tactic(auto, using(demangle_cells::proofs::Grows::grows))]
pub fn add_type(arena: &mut Arena, cell: Cell) -> Result<u32>
    ensures grown { Grown (view arena.old) (view arena.new) }
    ensures adds { Adds N (λ F list. node Tag.SubstitutableTypeNode (tree F list cell) end)
        result (view arena.old) (view arena.new) }
{
    add_cell(arena, true, CellTag::SubstitutableTypeNode, cell)
}

/// The name of a template outside of a nested name, by its node, ABI section 5.1.2, <unscoped-template-name>.
#[inline(always)]
#[tactic(auto, using(demangle_cells::proofs::Grows::grows))]
pub fn add_template_name(arena: &mut Arena, cell: Cell) -> Result<u32>
    ensures grown { Grown (view arena.old) (view arena.new) }
    ensures adds { Adds N (λ F list. node Tag.SubstitutableUnscopedTemplateName (tree F list cell) end)
        result (view arena.old) (view arena.new) }
{
    add_cell(
        arena,
        true,
        CellTag::SubstitutableUnscopedTemplateName,
        cell,
    )
}

/// A template parameter that has arguments, by its node, ABI section 5.1.5.8, <template-template-param>.
#[inline(always)]
#[tactic(auto, using(demangle_cells::proofs::Grows::grows))]
pub fn add_template_template_param(arena: &mut Arena, cell: Cell) -> Result<u32>
    ensures grown { Grown (view arena.old) (view arena.new) }
    ensures adds { Adds N (λ F list. node Tag.SubstitutableTemplateTemplateParam (tree F list cell) end)
        result (view arena.old) (view arena.new) }
{
    add_cell(
        arena,
        true,
        CellTag::SubstitutableTemplateTemplateParam,
        cell,
    )
}

/// The scope of an unresolved name, ABI section 5.1.6, <unresolved-type>.
#[inline(always)]
#[tactic(auto, using(demangle_cells::proofs::Grows::grows))]
pub fn add_unresolved_type(arena: &mut Arena, cell: Cell) -> Result<u32>
    ensures grown { Grown (view arena.old) (view arena.new) }
    ensures adds { Adds N (λ F list. node Tag.SubstitutableUnresolvedType (tree F list cell) end)
        result (view arena.old) (view arena.new) }
{
    add_cell(arena, true, CellTag::SubstitutableUnresolvedType, cell)
}

/// A prefix, ABI section 5.1.2, <prefix>. Where `E` is next the whole name ends with it, and it goes to the second
/// list.
#[inline(always)]
#[tactic(auto, using(demangle_cells::proofs::Grows::grows))]
pub fn add_prefix(arena: &mut Arena, text: Text<'_>, at: u32, cell: Cell) -> Result<u32>
    ensures grown { Grown (view arena.old) (view arena.new) }
    ensures adds { Adds (marks Mark.by_end (spot_at text.entry at).left)
        (λ F list. node Tag.SubstitutablePrefix (tree F list cell) end)
        result (view arena.old) (view arena.new) }
{
    if next_is(text, at, b'E') {
        return add_cell(arena, false, CellTag::SubstitutablePrefix, cell);
    }
    add_cell(arena, true, CellTag::SubstitutablePrefix, cell)
}

/// The name of a member template in an expression, by its unqualified name, which goes to the second list, ABI section
/// 5.1.6. Its arguments are read before it is added.
#[tactic(auto, using(demangle_cells::proofs::Grows::grows))]
pub fn add_member_template(arena: &mut Arena, name: u32) -> Result<u32>
    ensures grown { Grown (view arena.old) (view arena.new) }
    ensures reference { IfOk result (λ r. (F : ℕ → Core) → Holds F (view arena.new)
        → F r ≡ reference U (size U (table F (view arena.old)))) }
    ensures added { IfOk result (λ r. (F : ℕ → Core) → Holds F (view arena.new)
        → table F (view arena.new) ≡ added U (node Tag.SubstitutableUnscopedTemplateName
        (node Tag.UnscopedTemplateName (node Tag.UnscopedNameUnqualified (F name) end) end) end)
        (table F (view arena.old))) }
    ensures refused { IfErr result (λ e. e ≡ OutOfMemory) }
{
    let unscoped = arena.push(Cell::One(CellTag::UnscopedNameUnqualified, name))?;
    let template = arena.push(Cell::One(CellTag::UnscopedTemplateName, unscoped))?;
    let id = add_over(
        arena,
        false,
        CellTag::SubstitutableUnscopedTemplateName,
        template,
    )?;
    Ok(id)
}

/// The width of a `_BitInt` type, which goes to the second list, ABI section 5.1.5.2, <builtin-type>.
#[tactic(auto, using(demangle_cells::proofs::Grows::grows))]
pub fn add_expression(arena: &mut Arena, width: u32) -> Result<u32>
    ensures grown { Grown (view arena.old) (view arena.new) }
    ensures reference { IfOk result (λ r. (F : ℕ → Core) → Holds F (view arena.new)
        → F r ≡ reference U (size U (table F (view arena.old)))) }
    ensures added { IfOk result (λ r. (F : ℕ → Core) → Holds F (view arena.new) → table F (view arena.new)
        ≡ added U (node Tag.SubstitutableExpression (F width) end) (table F (view arena.old))) }
    ensures refused { IfErr result (λ e. e ≡ OutOfMemory) }
{
    add_over(arena, false, CellTag::SubstitutableExpression, width)
}
