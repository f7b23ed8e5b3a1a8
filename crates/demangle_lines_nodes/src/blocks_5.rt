//! Lines of nodes, by the numbers of their tags.

ghost use Rattle.std.specs.Prelude.{◌≡◌, ◌/◌};
ghost use Rattle.demangle_printing.specs.Lines.{line_steps};
ghost use Rattle.demangle_context.specs.PageOf.{page};
ghost use Rattle.demangle_lines.specs.Does.{Runs};
ghost use Rattle.demangle_lines.specs.ScopeOf.{lent_scope};
ghost use Rattle.demangle_lines_nodes.specs.Tags.{tag_at};

use demangle_context::{Context, DemangleWrite};
use demangle_lines::{Below, Scope, Tree, part};
use demangle_lines_arguments::{template_arg_arg_pack, template_args};
use demangle_lines_expressions::{
    expression_binary, expression_call, expression_conversion_braced, expression_conversion_many,
    expression_conversion_one, expression_prefix_dec, expression_prefix_inc, expression_ternary,
    expression_unary, initializer, member_name,
};

/// The lines of the nodes whose tags have the numbers from 80 on.
#[inline(always)]
pub(crate) fn block_5<'s, T: Tree<S>, S: 's, W: DemangleWrite, B: Below<'s, T, S, W>>(
    below: B,
    number: u8,
    tree: T,
    scope: Option<&Scope<'_, T>>,
    ctx: &mut Context<'s, '_, T, S, W>,
)
    requires can { B.can below }
    requires block { number / 16 ≡ 5 }
    ensures { Runs (B.at below) (page T.tree T.table W.seen ctx.old) (page T.tree T.table W.seen ctx.new) (T.tree
        tree) (lent_scope T.tree scope.entry) (line_steps (tag_at number)) }
{
    match number {
        80 => template_args(below, tree, scope, ctx),
        81 => part(below, tree, 0, scope, ctx),
        82 => part(below, tree, 0, scope, ctx),
        83 => part(below, tree, 0, scope, ctx),
        84 => template_arg_arg_pack(below, tree, scope, ctx),
        85 => member_name(below, tree, scope, ctx),
        86 => initializer(below, tree, scope, ctx),
        87 => expression_unary(below, tree, scope, ctx),
        88 => expression_binary(below, tree, scope, ctx),
        89 => expression_ternary(below, tree, scope, ctx),
        90 => expression_prefix_inc(below, tree, scope, ctx),
        91 => expression_prefix_dec(below, tree, scope, ctx),
        92 => expression_call(below, tree, scope, ctx),
        93 => expression_conversion_one(below, tree, scope, ctx),
        94 => expression_conversion_many(below, tree, scope, ctx),
        95 => expression_conversion_braced(below, tree, scope, ctx),
        _ => {}
    }
}
