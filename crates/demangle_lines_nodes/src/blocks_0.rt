//! Lines of nodes, by the numbers of their tags.

ghost use Rattle.std.specs.Prelude.{◌≡◌, ◌/◌};
ghost use Rattle.demangle_printing.specs.Lines.{line_steps};
ghost use Rattle.demangle_context.specs.PageOf.{page};
ghost use Rattle.demangle_lines.specs.Does.{Runs};
ghost use Rattle.demangle_lines.specs.ScopeOf.{lent_scope};
ghost use Rattle.demangle_lines_nodes.specs.Tags.{tag_at};

use demangle_context::{Context, DemangleWrite};
use demangle_lines::{Below, Scope, Tree, part};
use demangle_lines_arguments::template_param;
use demangle_lines_names::{
    abi_tag, abi_tags, clone_type_identifier, data_member_prefix, identifier,
};
use demangle_lines_special::resource_name;

/// The lines of the nodes whose tags have the numbers from 0 on.
#[inline(always)]
pub(crate) fn block_0<'s, T: Tree<S>, S: 's, W: DemangleWrite, B: Below<'s, T, S, W>>(
    below: B,
    number: u8,
    tree: T,
    scope: Option<&Scope<'_, T>>,
    ctx: &mut Context<'s, '_, T, S, W>,
)
    requires can { B.can below }
    requires block { number / 16 ≡ 0 }
    ensures { Runs (B.at below) (page T.tree T.table W.seen ctx.old) (page T.tree T.table W.seen ctx.new) (T.tree
        tree) (lent_scope T.tree scope.entry) (line_steps (tag_at number)) }
{
    match number {
        0 => {},
        1 => {},
        2 => {},
        3 => {},
        4 => {},
        5 => {},
        6 => {},
        7 => template_param(below, tree, scope, ctx),
        8 => {},
        9 => identifier(below, tree, scope, ctx),
        10 => clone_type_identifier(below, tree, scope, ctx),
        11 => resource_name(below, tree, scope, ctx),
        12 => part(below, tree, 0, scope, ctx),
        13 => abi_tag(below, tree, scope, ctx),
        14 => abi_tags(below, tree, scope, ctx),
        15 => data_member_prefix(below, tree, scope, ctx),
        _ => {}
    }
}
