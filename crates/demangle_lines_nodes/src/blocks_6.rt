//! Lines of nodes, by the numbers of their tags.

ghost use Rattle.std.specs.Prelude.{◌≡◌, ◌/◌};
ghost use Rattle.demangle_printing.specs.Lines.{line_steps};
ghost use Rattle.demangle_context.specs.PageOf.{page};
ghost use Rattle.demangle_lines.specs.Does.{Runs};
ghost use Rattle.demangle_lines.specs.ScopeOf.{lent_scope};
ghost use Rattle.demangle_lines_nodes.specs.Tags.{tag_at};

use demangle_context::{Context, DemangleWrite};
use demangle_lines::{Below, Scope, Tree};
use demangle_lines_expressions::{
    expression_braced_init_list, expression_const_cast, expression_delete, expression_delete_array,
    expression_dynamic_cast, expression_global_delete, expression_global_delete_array,
    expression_global_new, expression_global_new_array, expression_new, expression_new_array,
    expression_reinterpret_cast, expression_sizeof_type, expression_static_cast,
    expression_typeid_type,
};

/// The lines of the nodes whose tags have the numbers from 96 on.
#[inline(always)]
pub(crate) fn block_6<'s, T: Tree<S>, S: 's, W: DemangleWrite, B: Below<'s, T, S, W>>(
    below: B,
    number: u8,
    tree: T,
    scope: Option<&Scope<'_, T>>,
    ctx: &mut Context<'s, '_, T, S, W>,
)
    requires can { B.can below }
    requires block { number / 16 ≡ 6 }
    ensures { Runs (B.at below) (page T.tree T.table W.seen ctx.old) (page T.tree T.table W.seen ctx.new) (T.tree
        tree) (lent_scope T.tree scope.entry) (line_steps (tag_at number)) }
{
    match number {
        96 => expression_braced_init_list(below, tree, scope, ctx),
        97 => expression_new(below, tree, scope, ctx),
        98 => expression_global_new(below, tree, scope, ctx),
        99 => expression_new_array(below, tree, scope, ctx),
        100 => expression_global_new_array(below, tree, scope, ctx),
        101 => expression_delete(below, tree, scope, ctx),
        102 => expression_global_delete(below, tree, scope, ctx),
        103 => expression_delete_array(below, tree, scope, ctx),
        104 => expression_global_delete_array(below, tree, scope, ctx),
        105 => expression_dynamic_cast(below, tree, scope, ctx),
        106 => expression_static_cast(below, tree, scope, ctx),
        107 => expression_const_cast(below, tree, scope, ctx),
        108 => expression_reinterpret_cast(below, tree, scope, ctx),
        109 => expression_typeid_type(below, tree, scope, ctx),
        110 => expression_typeid_type(below, tree, scope, ctx),
        111 => expression_sizeof_type(below, tree, scope, ctx),
        _ => {}
    }
}
