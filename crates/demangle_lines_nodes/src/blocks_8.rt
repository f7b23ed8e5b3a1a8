//! Lines of nodes, by the numbers of their tags.

ghost use Rattle.std.specs.Prelude.{◌≡◌, ◌/◌};
ghost use Rattle.demangle_printing.specs.Lines.{line_steps};
ghost use Rattle.demangle_context.specs.PageOf.{page};
ghost use Rattle.demangle_lines.specs.Does.{Runs};
ghost use Rattle.demangle_lines.specs.ScopeOf.{lent_scope};
ghost use Rattle.demangle_lines_nodes.specs.Tags.{tag_at};

use demangle_context::{Context, DemangleWrite};
use demangle_lines::{Below, Scope, Tree, part};
use demangle_lines_expressions::{
    destructor_name_unresolved, expr_primary_literal, expression_rethrow, unresolved_name_global,
    unresolved_name_global_nested2, unresolved_name_nested1, unresolved_name_nested2,
};
use demangle_lines_types::type_node_template_template;

/// The lines of the nodes whose tags have the numbers from 128 on.
#[inline(always)]
pub(crate) fn block_8<'s, T: Tree<S>, S: 's, W: DemangleWrite, B: Below<'s, T, S, W>>(
    below: B,
    number: u8,
    tree: T,
    scope: Option<&Scope<'_, T>>,
    ctx: &mut Context<'s, '_, T, S, W>,
)
    requires can { B.can below }
    requires block { number / 16 ≡ 8 }
    ensures { Runs (B.at below) (page T.tree T.table W.seen ctx.old) (page T.tree T.table W.seen ctx.new) (T.tree
        tree) (lent_scope T.tree scope.entry) (line_steps (tag_at number)) }
{
    match number {
        128 => expression_rethrow(below, tree, scope, ctx),
        129 => part(below, tree, 0, scope, ctx),
        130 => part(below, tree, 0, scope, ctx),
        131 => part(below, tree, 0, scope, ctx),
        132 => unresolved_name_global(below, tree, scope, ctx),
        133 => unresolved_name_nested1(below, tree, scope, ctx),
        134 => unresolved_name_nested2(below, tree, scope, ctx),
        135 => unresolved_name_global_nested2(below, tree, scope, ctx),
        136 => part(below, tree, 0, scope, ctx),
        137 => type_node_template_template(below, tree, scope, ctx),
        138 => part(below, tree, 0, scope, ctx),
        139 => type_node_template_template(below, tree, scope, ctx),
        140 => part(below, tree, 0, scope, ctx),
        141 => destructor_name_unresolved(below, tree, scope, ctx),
        142 => destructor_name_unresolved(below, tree, scope, ctx),
        143 => expr_primary_literal(below, tree, scope, ctx),
        _ => {}
    }
}
