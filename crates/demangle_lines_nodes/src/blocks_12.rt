//! Lines of nodes, by the numbers of their tags.

ghost use Rattle.std.specs.Prelude.{◌≡◌, ◌/◌};
ghost use Rattle.demangle_printing.specs.Lines.{line_steps};
ghost use Rattle.demangle_context.specs.PageOf.{page};
ghost use Rattle.demangle_lines.specs.Does.{Runs};
ghost use Rattle.demangle_lines.specs.ScopeOf.{lent_scope};
ghost use Rattle.demangle_lines_nodes.specs.Tags.{tag_at};

use demangle_context::{Context, DemangleWrite};
use demangle_lines::{Below, Scope, Tree, part};
use demangle_lines_expressions::unresolved_type_template;
use demangle_lines_types::{
    type_node_complex, type_node_imaginary, type_node_pack_expansion, type_node_pointer_to,
    type_node_qualified, type_node_template_template, type_node_vendor_extension,
};

/// The lines of the nodes whose tags have the numbers from 192 on.
#[inline(always)]
pub(crate) fn block_12<'s, T: Tree<S>, S: 's, W: DemangleWrite, B: Below<'s, T, S, W>>(
    below: B,
    number: u8,
    tree: T,
    scope: Option<&Scope<'_, T>>,
    ctx: &mut Context<'s, '_, T, S, W>,
)
    requires can { B.can below }
    requires block { number / 16 ≡ 12 }
    ensures { Runs (B.at below) (page T.tree T.table W.seen ctx.old) (page T.tree T.table W.seen ctx.new) (T.tree
        tree) (lent_scope T.tree scope.entry) (line_steps (tag_at number)) }
{
    match number {
        192 => part(below, tree, 0, scope, ctx),
        193 => type_node_template_template(below, tree, scope, ctx),
        194 => part(below, tree, 0, scope, ctx),
        195 => type_node_qualified(below, tree, scope, ctx),
        196 => type_node_vendor_extension(below, tree, scope, ctx),
        197 => type_node_pointer_to(below, tree, scope, ctx),
        198 => type_node_pointer_to(below, tree, scope, ctx),
        199 => type_node_pointer_to(below, tree, scope, ctx),
        200 => type_node_complex(below, tree, scope, ctx),
        201 => type_node_imaginary(below, tree, scope, ctx),
        202 => type_node_pack_expansion(below, tree, scope, ctx),
        203 => unresolved_type_template(below, tree, scope, ctx),
        204 => part(below, tree, 0, scope, ctx),
        205 => {},
        206 => {},
        207 => {},
        _ => {}
    }
}
