//! Lines of nodes, by the numbers of their tags.

ghost use Rattle.std.specs.Prelude.{◌≡◌, ◌/◌};
ghost use Rattle.demangle_printing.specs.Lines.{line_steps};
ghost use Rattle.demangle_context.specs.PageOf.{page};
ghost use Rattle.demangle_lines.specs.Does.{Runs};
ghost use Rattle.demangle_lines.specs.ScopeOf.{lent_scope};
ghost use Rattle.demangle_lines_nodes.specs.Tags.{tag_at};

use demangle_context::{Context, DemangleWrite};
use demangle_lines::{Below, Scope, Tree, part};
use demangle_lines_arguments::function_param;
use demangle_lines_names::{clone_suffix, unnamed_type_name};
use demangle_lines_special::{call_offset_non_virtual, call_offset_virtual};
use demangle_lines_types::{cv_qualifiers, parametric_builtin_type_float_n, qualified_builtin};

/// The lines of the nodes whose tags have the numbers from 16 on.
#[inline(always)]
pub(crate) fn block_1<'s, T: Tree<S>, S: 's, W: DemangleWrite, B: Below<'s, T, S, W>>(
    below: B,
    number: u8,
    tree: T,
    scope: Option<&Scope<'_, T>>,
    ctx: &mut Context<'s, '_, T, S, W>,
)
    requires can { B.can below }
    requires block { number / 16 ≡ 1 }
    ensures { Runs (B.at below) (page T.tree T.table W.seen ctx.old) (page T.tree T.table W.seen ctx.new) (T.tree
        tree) (lent_scope T.tree scope.entry) (line_steps (tag_at number)) }
{
    match number {
        16 => clone_suffix(below, tree, scope, ctx),
        17 => cv_qualifiers(below, tree, scope, ctx),
        18 => {},
        19 => {},
        20 => call_offset_non_virtual(below, tree, scope, ctx),
        21 => call_offset_virtual(below, tree, scope, ctx),
        22 => function_param(below, tree, scope, ctx),
        23 => part(below, tree, 0, scope, ctx),
        24 => unnamed_type_name(below, tree, scope, ctx),
        25 => {},
        26 => {},
        27 => part(below, tree, 0, scope, ctx),
        28 => part(below, tree, 0, scope, ctx),
        29 => part(below, tree, 0, scope, ctx),
        30 => qualified_builtin(below, tree, scope, ctx),
        31 => parametric_builtin_type_float_n(below, tree, scope, ctx),
        _ => {}
    }
}
