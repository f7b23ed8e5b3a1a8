//! Lines of nodes, by the numbers of their tags.

ghost use Rattle.std.specs.Prelude.{◌≡◌, ◌/◌};
ghost use Rattle.demangle_printing.specs.Lines.{line_steps};
ghost use Rattle.demangle_context.specs.PageOf.{page};
ghost use Rattle.demangle_lines.specs.Does.{Runs};
ghost use Rattle.demangle_lines.specs.ScopeOf.{lent_scope};
ghost use Rattle.demangle_lines_nodes.specs.Tags.{tag_at};

use demangle_context::{Context, DemangleWrite};
use demangle_lines::{Below, Scope, Tree};
use demangle_lines_expressions::{
    fold_expr_binary_left, fold_expr_unary_left, fold_expr_unary_right, subobject_expr,
};
use demangle_lines_names::{prefix_nested, prefix_template, prefix_unqualified};
use demangle_lines_special::{special_name_non_transaction_clone, special_name_transaction_clone};
use demangle_lines_types::{decltype_id_expression, type_node_qualified};

/// The lines of the nodes whose tags have the numbers from 160 on.
#[inline(always)]
pub(crate) fn block_10<'s, T: Tree<S>, S: 's, W: DemangleWrite, B: Below<'s, T, S, W>>(
    below: B,
    number: u8,
    tree: T,
    scope: Option<&Scope<'_, T>>,
    ctx: &mut Context<'s, '_, T, S, W>,
)
    requires can { B.can below }
    requires block { number / 16 ≡ 10 }
    ensures { Runs (B.at below) (page T.tree T.table W.seen ctx.old) (page T.tree T.table W.seen ctx.new) (T.tree
        tree) (lent_scope T.tree scope.entry) (line_steps (tag_at number)) }
{
    match number {
        160 => special_name_transaction_clone(below, tree, scope, ctx),
        161 => special_name_non_transaction_clone(below, tree, scope, ctx),
        162 => subobject_expr(below, tree, scope, ctx),
        163 => fold_expr_unary_left(below, tree, scope, ctx),
        164 => fold_expr_unary_right(below, tree, scope, ctx),
        165 => fold_expr_binary_left(below, tree, scope, ctx),
        166 => fold_expr_binary_left(below, tree, scope, ctx),
        167 => decltype_id_expression(below, tree, scope, ctx),
        168 => decltype_id_expression(below, tree, scope, ctx),
        169 => prefix_unqualified(below, tree, scope, ctx),
        170 => prefix_nested(below, tree, scope, ctx),
        171 => prefix_template(below, tree, scope, ctx),
        172 => prefix_unqualified(below, tree, scope, ctx),
        173 => prefix_unqualified(below, tree, scope, ctx),
        174 => prefix_nested(below, tree, scope, ctx),
        175 => type_node_qualified(below, tree, scope, ctx),
        _ => {}
    }
}
