//! Lines of nodes, by the numbers of their tags.

ghost use Rattle.std.specs.Prelude.{◌≡◌, ◌/◌};
ghost use Rattle.demangle_printing.specs.Lines.{line_steps};
ghost use Rattle.demangle_context.specs.PageOf.{page};
ghost use Rattle.demangle_lines.specs.Does.{Runs};
ghost use Rattle.demangle_lines.specs.ScopeOf.{lent_scope};
ghost use Rattle.demangle_lines_nodes.specs.Tags.{tag_at};

use demangle_context::{Context, DemangleWrite};
use demangle_lines::{Below, Scope, Tree, part};
use demangle_lines_expressions::{
    expression_alignof_type, expression_deref_member, expression_member, expression_noexcept,
    expression_pack_expansion, expression_pointer_to_member,
    expression_sizeof_captured_template_pack, expression_sizeof_template_pack,
    expression_sizeof_type, expression_throw,
};

/// The lines of the nodes whose tags have the numbers from 112 on.
#[inline(always)]
pub(crate) fn block_7<'s, T: Tree<S>, S: 's, W: DemangleWrite, B: Below<'s, T, S, W>>(
    below: B,
    number: u8,
    tree: T,
    scope: Option<&Scope<'_, T>>,
    ctx: &mut Context<'s, '_, T, S, W>,
)
    requires can { B.can below }
    requires block { number / 16 ≡ 7 }
    ensures { Runs (B.at below) (page T.tree T.table W.seen ctx.old) (page T.tree T.table W.seen ctx.new) (T.tree
        tree) (lent_scope T.tree scope.entry) (line_steps (tag_at number)) }
{
    match number {
        112 => expression_sizeof_type(below, tree, scope, ctx),
        113 => expression_alignof_type(below, tree, scope, ctx),
        114 => expression_alignof_type(below, tree, scope, ctx),
        115 => expression_noexcept(below, tree, scope, ctx),
        116 => part(below, tree, 0, scope, ctx),
        117 => part(below, tree, 0, scope, ctx),
        118 => part(below, tree, 0, scope, ctx),
        119 => expression_member(below, tree, scope, ctx),
        120 => expression_deref_member(below, tree, scope, ctx),
        121 => expression_pointer_to_member(below, tree, scope, ctx),
        122 => expression_sizeof_template_pack(below, tree, scope, ctx),
        123 => expression_sizeof_template_pack(below, tree, scope, ctx),
        124 => expression_sizeof_captured_template_pack(below, tree, scope, ctx),
        125 => expression_pack_expansion(below, tree, scope, ctx),
        126 => part(below, tree, 0, scope, ctx),
        127 => expression_throw(below, tree, scope, ctx),
        _ => {}
    }
}
