//! Arguments of templates, and literals.

ghost use Rattle.demangle_cells.specs.View.{Holds, view};
ghost use Rattle.demangle_core.specs.Core.{Core};
ghost use Rattle.demangle_nodes.specs.TreeNodes.{tree_of_expr_primary, tree_of_template_arg, tree_of_template_args};
ghost use Rattle.demangle_text.specs.declared.error.Error.TheVariants.{OutOfMemory};
ghost use Rattle.std.specs.Prelude.{IfErr, IfOk, ℕ, ◌≡◌};

use crate::below::Below;
use crate::lists::template_arg_list_by;
use crate::parts::boxed;
use demangle_cells::{Arena, Plain, Tag};
use demangle_entries::{ExprPrimary, TemplateArg, TemplateArgs};
use demangle_leaves_from_cells::{place_from, type_handle_from};
use demangle_text::{Error, Result};
use std::alloc::Global;

/// A `TemplateArgs`, ABI section 5.1.2.
pub(crate) fn template_args_by<B: Below>(
    below: B,
    alloc: Global,
    arena: &Arena,
    id: u32,
) -> Result<TemplateArgs>
    requires can { B.can below }
    ensures made { IfOk result (λ n. (F : ℕ → Core) → Holds F (view arena.now) → F id ≡ tree_of_template_args n) }
    ensures refused { IfErr result (λ e. e ≡ OutOfMemory) }
{
    match arena.cell(id) {
        Some(Plain::Arguments(place, members)) => {
            let members = template_arg_list_by(below, alloc, arena, members)?;
            Ok(TemplateArgs(members, place as usize))
        }
        _ => Err(Error::OutOfMemory),
    }
}

/// A `TemplateArg`, ABI section 5.1.2.
#[tactic(auto, using(demangle_nodes::proofs::Parts::parts_template_arg))]
pub(crate) fn template_arg_by<B: Below>(
    below: B,
    alloc: Global,
    arena: &Arena,
    id: u32,
) -> Result<TemplateArg>
    requires can { B.can below }
    ensures made { IfOk result (λ n. (F : ℕ → Core) → Holds F (view arena.now) → F id ≡ tree_of_template_arg n) }
    ensures refused { IfErr result (λ e. e ≡ OutOfMemory) }
{
    match arena.cell(id) {
        Some(Plain::One(Tag::TemplateArgTypeArg, type_handle)) => Ok(TemplateArg::TypeArg(
            type_handle_from(arena, type_handle)?,
        )),
        Some(Plain::One(Tag::TemplateArgExpression, expression)) => Ok(TemplateArg::Expression(
            below.expression(alloc, arena, expression)?,
        )),
        Some(Plain::One(Tag::TemplateArgSimpleExpression, expr_primary)) => Ok(
            TemplateArg::SimpleExpression(expr_primary_by(below, alloc, arena, expr_primary)?),
        ),
        Some(Plain::One(Tag::TemplateArgArgPack, template_arg_list)) => Ok(TemplateArg::ArgPack(
            template_arg_list_by(below, alloc, arena, template_arg_list)?,
        )),
        _ => Err(Error::OutOfMemory),
    }
}

/// An `ExprPrimary`, ABI section 5.1.6.
#[tactic(auto, using(demangle_nodes::proofs::Parts::parts_expr_primary))]
pub(crate) fn expr_primary_by<B: Below>(
    below: B,
    alloc: Global,
    arena: &Arena,
    id: u32,
) -> Result<ExprPrimary>
    requires can { B.can below }
    ensures made { IfOk result (λ n. (F : ℕ → Core) → Holds F (view arena.now) → F id ≡ tree_of_expr_primary n) }
    ensures refused { IfErr result (λ e. e ≡ OutOfMemory) }
{
    match arena.cell(id) {
        Some(Plain::Two(Tag::ExprPrimaryLiteral, type_handle, place)) => {
            let type_handle = type_handle_from(arena, type_handle)?;
            let (start, end) = place_from(arena, place)?;
            Ok(ExprPrimary::Literal(type_handle, start, end))
        }
        Some(Plain::One(Tag::ExprPrimaryExternal, mangled_name)) => Ok(ExprPrimary::External(boxed(
            alloc,
            below.mangled_name(alloc, arena, mangled_name),
        )?)),
        _ => Err(Error::OutOfMemory),
    }
}
