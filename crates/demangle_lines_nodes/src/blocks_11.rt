//! Lines of nodes, by the numbers of their tags.

ghost use Rattle.std.specs.Prelude.{◌≡◌, ◌/◌};
ghost use Rattle.demangle_printing.specs.Lines.{line_steps};
ghost use Rattle.demangle_context.specs.PageOf.{page};
ghost use Rattle.demangle_lines.specs.Does.{Runs};
ghost use Rattle.demangle_lines.specs.ScopeOf.{lent_scope};
ghost use Rattle.demangle_lines_nodes.specs.Tags.{tag_at};

use demangle_context::{Context, DemangleWrite};
use demangle_lines::{Below, Scope, Tree, part};
use demangle_lines_functions::{exception_spec_computed, exception_spec_no_except, function_type};
use demangle_lines_types::{
    class_enum_type_elaborated_enum, class_enum_type_elaborated_struct,
    class_enum_type_elaborated_union, type_node_pointer_to, type_node_qualified,
};

/// The lines of the nodes whose tags have the numbers from 176 on.
#[inline(always)]
pub(crate) fn block_11<'s, T: Tree<S>, S: 's, W: DemangleWrite, B: Below<'s, T, S, W>>(
    below: B,
    number: u8,
    tree: T,
    scope: Option<&Scope<'_, T>>,
    ctx: &mut Context<'s, '_, T, S, W>,
)
    requires can { B.can below }
    requires block { number / 16 ≡ 11 }
    ensures { Runs (B.at below) (page T.tree T.table W.seen ctx.old) (page T.tree T.table W.seen ctx.new) (T.tree
        tree) (lent_scope T.tree scope.entry) (line_steps (tag_at number)) }
{
    match number {
        176 => type_node_qualified(below, tree, scope, ctx),
        177 => type_node_pointer_to(below, tree, scope, ctx),
        178 => type_node_qualified(below, tree, scope, ctx),
        179 => type_node_qualified(below, tree, scope, ctx),
        180 => part(below, tree, 0, scope, ctx),
        181 => class_enum_type_elaborated_struct(below, tree, scope, ctx),
        182 => class_enum_type_elaborated_union(below, tree, scope, ctx),
        183 => class_enum_type_elaborated_enum(below, tree, scope, ctx),
        184 => exception_spec_no_except(below, tree, scope, ctx),
        185 => exception_spec_computed(below, tree, scope, ctx),
        186 => function_type(below, tree, scope, ctx),
        187 => part(below, tree, 0, scope, ctx),
        188 => part(below, tree, 0, scope, ctx),
        189 => part(below, tree, 0, scope, ctx),
        190 => part(below, tree, 0, scope, ctx),
        191 => part(below, tree, 0, scope, ctx),
        _ => {}
    }
}
