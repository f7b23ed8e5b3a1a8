//! Lines of nodes, by the numbers of their tags.

ghost use Rattle.std.specs.Prelude.{◌≡◌, ◌/◌};
ghost use Rattle.demangle_printing.specs.Lines.{line_steps};
ghost use Rattle.demangle_context.specs.PageOf.{page};
ghost use Rattle.demangle_lines.specs.Does.{Runs};
ghost use Rattle.demangle_lines.specs.ScopeOf.{lent_scope};
ghost use Rattle.demangle_lines_nodes.specs.Tags.{tag_at};

use demangle_context::{Context, DemangleWrite};
use demangle_lines::{Below, Scope, Tree};
use demangle_lines_names::{local_name_default, local_name_relative};
use demangle_lines_special::{
    special_name_construction_vtable, special_name_guard, special_name_guard_temporary,
    special_name_java_resource, special_name_tls_init, special_name_tls_wrapper,
    special_name_typeinfo, special_name_typeinfo_function, special_name_typeinfo_name,
    special_name_virtual_override_thunk, special_name_virtual_override_thunk_covariant,
    special_name_virtual_table, special_name_vtt,
};

/// The lines of the nodes whose tags have the numbers from 144 on.
#[inline(always)]
pub(crate) fn block_9<'s, T: Tree<S>, S: 's, W: DemangleWrite, B: Below<'s, T, S, W>>(
    below: B,
    number: u8,
    tree: T,
    scope: Option<&Scope<'_, T>>,
    ctx: &mut Context<'s, '_, T, S, W>,
)
    requires can { B.can below }
    requires block { number / 16 ≡ 9 }
    ensures { Runs (B.at below) (page T.tree T.table W.seen ctx.old) (page T.tree T.table W.seen ctx.new) (T.tree
        tree) (lent_scope T.tree scope.entry) (line_steps (tag_at number)) }
{
    match number {
        144 => local_name_default(below, tree, scope, ctx),
        145 => local_name_relative(below, tree, scope, ctx),
        146 => local_name_default(below, tree, scope, ctx),
        147 => special_name_virtual_table(below, tree, scope, ctx),
        148 => special_name_vtt(below, tree, scope, ctx),
        149 => special_name_typeinfo(below, tree, scope, ctx),
        150 => special_name_typeinfo_name(below, tree, scope, ctx),
        151 => special_name_virtual_override_thunk(below, tree, scope, ctx),
        152 => special_name_virtual_override_thunk_covariant(below, tree, scope, ctx),
        153 => special_name_guard(below, tree, scope, ctx),
        154 => special_name_guard_temporary(below, tree, scope, ctx),
        155 => special_name_construction_vtable(below, tree, scope, ctx),
        156 => special_name_typeinfo_function(below, tree, scope, ctx),
        157 => special_name_tls_init(below, tree, scope, ctx),
        158 => special_name_tls_wrapper(below, tree, scope, ctx),
        159 => special_name_java_resource(below, tree, scope, ctx),
        _ => {}
    }
}
