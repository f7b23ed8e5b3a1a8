//! Lines of nodes, by the numbers of their tags.

ghost use Rattle.std.specs.Prelude.{◌≡◌, ◌/◌};
ghost use Rattle.demangle_printing.specs.Lines.{line_steps};
ghost use Rattle.demangle_context.specs.PageOf.{page};
ghost use Rattle.demangle_lines.specs.Does.{Runs};
ghost use Rattle.demangle_lines.specs.ScopeOf.{lent_scope};
ghost use Rattle.demangle_lines_nodes.specs.Tags.{tag_at};

use demangle_context::{Context, DemangleWrite};
use demangle_lines::{Below, Scope, Tree};
use demangle_lines_names::{
    ctor_dtor_name_complete_constructor, ctor_dtor_name_deleting_destructor, operator_name_cast,
    operator_name_literal, operator_name_simple, operator_name_vendor_extension,
};
use demangle_lines_types::{
    parametric_builtin_type_float_nx, parametric_builtin_type_signed_bit_int,
    parametric_builtin_type_signed_bit_int_expression, parametric_builtin_type_unsigned_bit_int,
    parametric_builtin_type_unsigned_bit_int_expression,
};

/// The lines of the nodes whose tags have the numbers from 32 on.
#[inline(always)]
pub(crate) fn block_2<'s, T: Tree<S>, S: 's, W: DemangleWrite, B: Below<'s, T, S, W>>(
    below: B,
    number: u8,
    tree: T,
    scope: Option<&Scope<'_, T>>,
    ctx: &mut Context<'s, '_, T, S, W>,
)
    requires can { B.can below }
    requires block { number / 16 ≡ 2 }
    ensures { Runs (B.at below) (page T.tree T.table W.seen ctx.old) (page T.tree T.table W.seen ctx.new) (T.tree
        tree) (lent_scope T.tree scope.entry) (line_steps (tag_at number)) }
{
    match number {
        32 => parametric_builtin_type_float_nx(below, tree, scope, ctx),
        33 => parametric_builtin_type_signed_bit_int(below, tree, scope, ctx),
        34 => parametric_builtin_type_unsigned_bit_int(below, tree, scope, ctx),
        35 => parametric_builtin_type_signed_bit_int_expression(below, tree, scope, ctx),
        36 => parametric_builtin_type_unsigned_bit_int_expression(below, tree, scope, ctx),
        37 => operator_name_simple(below, tree, scope, ctx),
        38 => operator_name_cast(below, tree, scope, ctx),
        39 => operator_name_cast(below, tree, scope, ctx),
        40 => operator_name_literal(below, tree, scope, ctx),
        41 => operator_name_vendor_extension(below, tree, scope, ctx),
        42 => ctor_dtor_name_complete_constructor(below, tree, scope, ctx),
        43 => ctor_dtor_name_complete_constructor(below, tree, scope, ctx),
        44 => ctor_dtor_name_complete_constructor(below, tree, scope, ctx),
        45 => ctor_dtor_name_complete_constructor(below, tree, scope, ctx),
        46 => ctor_dtor_name_deleting_destructor(below, tree, scope, ctx),
        47 => ctor_dtor_name_deleting_destructor(below, tree, scope, ctx),
        _ => {}
    }
}
