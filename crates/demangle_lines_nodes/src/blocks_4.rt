//! Lines of nodes, by the numbers of their tags.

ghost use Rattle.std.specs.Prelude.{◌≡◌, ◌/◌};
ghost use Rattle.demangle_printing.specs.Lines.{line_steps};
ghost use Rattle.demangle_context.specs.PageOf.{page};
ghost use Rattle.demangle_lines.specs.Does.{Runs};
ghost use Rattle.demangle_lines.specs.ScopeOf.{lent_scope};
ghost use Rattle.demangle_lines_nodes.specs.Tags.{tag_at};

use demangle_context::{Context, DemangleWrite};
use demangle_lines::{Below, Scope, Tree, part};
use demangle_lines_functions::{encoding_data, encoding_function};
use demangle_lines_names::{
    global_ctor_dtor_ctor, global_ctor_dtor_dtor, mangled_name_block_invoke, mangled_name_encoding,
    name_unscoped_template, nested_name_template, nested_name_template_explicit_object,
    nested_name_unqualified_explicit_object,
};

/// The lines of the nodes whose tags have the numbers from 64 on.
#[inline(always)]
pub(crate) fn block_4<'s, T: Tree<S>, S: 's, W: DemangleWrite, B: Below<'s, T, S, W>>(
    below: B,
    number: u8,
    tree: T,
    scope: Option<&Scope<'_, T>>,
    ctx: &mut Context<'s, '_, T, S, W>,
)
    requires can { B.can below }
    requires block { number / 16 ≡ 4 }
    ensures { Runs (B.at below) (page T.tree T.table W.seen ctx.old) (page T.tree T.table W.seen ctx.new) (T.tree
        tree) (lent_scope T.tree scope.entry) (line_steps (tag_at number)) }
{
    match number {
        64 => nested_name_template(below, tree, scope, ctx),
        65 => nested_name_unqualified_explicit_object(below, tree, scope, ctx),
        66 => nested_name_template_explicit_object(below, tree, scope, ctx),
        67 => mangled_name_encoding(below, tree, scope, ctx),
        68 => mangled_name_block_invoke(below, tree, scope, ctx),
        69 => part(below, tree, 0, scope, ctx),
        70 => part(below, tree, 0, scope, ctx),
        71 => encoding_function(below, tree, scope, ctx),
        72 => encoding_data(below, tree, scope, ctx),
        73 => encoding_data(below, tree, scope, ctx),
        74 => global_ctor_dtor_ctor(below, tree, scope, ctx),
        75 => global_ctor_dtor_dtor(below, tree, scope, ctx),
        76 => part(below, tree, 0, scope, ctx),
        77 => part(below, tree, 0, scope, ctx),
        78 => name_unscoped_template(below, tree, scope, ctx),
        79 => part(below, tree, 0, scope, ctx),
        _ => {}
    }
}
