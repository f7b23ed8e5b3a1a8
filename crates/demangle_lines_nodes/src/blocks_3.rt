//! Lines of nodes, by the numbers of their tags.

ghost use Rattle.std.specs.Prelude.{◌≡◌, ◌/◌};
ghost use Rattle.demangle_printing.specs.Lines.{line_steps};
ghost use Rattle.demangle_context.specs.PageOf.{page};
ghost use Rattle.demangle_lines.specs.Does.{Runs};
ghost use Rattle.demangle_lines.specs.ScopeOf.{lent_scope};
ghost use Rattle.demangle_lines_nodes.specs.Tags.{tag_at};

use demangle_context::{Context, DemangleWrite};
use demangle_lines::{Below, Scope, Tree, part};
use demangle_lines_functions::bare_function_type;
use demangle_lines_names::{
    closure_type_name, ctor_dtor_name_deleting_destructor, lambda_sig, nested_name_unqualified,
    unqualified_name_ctor_dtor, unqualified_name_local_source_name, unqualified_name_operator,
    unscoped_name_std,
};
use demangle_lines_types::type_node_qualified;

/// The lines of the nodes whose tags have the numbers from 48 on.
#[inline(always)]
pub(crate) fn block_3<'s, T: Tree<S>, S: 's, W: DemangleWrite, B: Below<'s, T, S, W>>(
    below: B,
    number: u8,
    tree: T,
    scope: Option<&Scope<'_, T>>,
    ctx: &mut Context<'s, '_, T, S, W>,
)
    requires can { B.can below }
    requires block { number / 16 ≡ 3 }
    ensures { Runs (B.at below) (page T.tree T.table W.seen ctx.old) (page T.tree T.table W.seen ctx.new) (T.tree
        tree) (lent_scope T.tree scope.entry) (line_steps (tag_at number)) }
{
    match number {
        48 => ctor_dtor_name_deleting_destructor(below, tree, scope, ctx),
        49 => ctor_dtor_name_deleting_destructor(below, tree, scope, ctx),
        50 => bare_function_type(below, tree, scope, ctx),
        51 => lambda_sig(below, tree, scope, ctx),
        52 => closure_type_name(below, tree, scope, ctx),
        53 => type_node_qualified(below, tree, scope, ctx),
        54 => unqualified_name_operator(below, tree, scope, ctx),
        55 => unqualified_name_ctor_dtor(below, tree, scope, ctx),
        56 => unqualified_name_ctor_dtor(below, tree, scope, ctx),
        57 => unqualified_name_local_source_name(below, tree, scope, ctx),
        58 => unqualified_name_ctor_dtor(below, tree, scope, ctx),
        59 => unqualified_name_ctor_dtor(below, tree, scope, ctx),
        60 => part(below, tree, 0, scope, ctx),
        61 => unscoped_name_std(below, tree, scope, ctx),
        62 => part(below, tree, 0, scope, ctx),
        63 => nested_name_unqualified(below, tree, scope, ctx),
        _ => {}
    }
}
