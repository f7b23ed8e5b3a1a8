//! What stands behind any item.

ghost use Rattle.demangle_meets.specs.Meets.{Inside};
ghost use Rattle.demangle_context.specs.PageOf.{page};
ghost use Rattle.demangle_lines.specs.ScopeOf.{lent_scope};

use demangle_context::{Context, DemangleWrite};
use demangle_lines::{Below, Scope, Tree, part};
use demangle_lines_inner::{
    array_type_dimension_expression_inside, array_type_dimension_number_inside,
    array_type_no_dimension_inside, bare_function_type_inside, function_inside,
    function_type_inside, pointer_to_member_type_inside, tag_of, type_node_lvalue_ref_inside,
    type_node_pointer_to_inside, type_node_rvalue_ref_inside,
    vector_type_dimension_expression_inside, vector_type_dimension_number_inside,
};
use demangle_lines_types::cv_qualifiers;

/// What of an item stands behind, its level entered.
pub fn item_inside<'s, T: Tree<S>, S: 's, W: DemangleWrite, B: Below<'s, T, S, W>>(
    below: B,
    item: T,
    scope: Option<&Scope<'_, T>>,
    ctx: &mut Context<'s, '_, T, S, W>,
)
    requires { B.can below }
    ensures { Inside (B.at below) (page T.tree T.table W.seen ctx.old) (page T.tree T.table W.seen ctx.new) (T.tree
        item) (lent_scope T.tree scope.entry) }
{
    let number = tag_of(below, item);
    match number {
        17 => cv_qualifiers(below, item, scope, ctx),
        50 => bare_function_type_inside(below, item, scope, ctx),
        53 => pointer_to_member_type_inside(below, item, scope, ctx),
        71 => function_inside(below, item, scope, ctx),
        175 => array_type_dimension_number_inside(below, item, scope, ctx),
        176 => array_type_dimension_expression_inside(below, item, scope, ctx),
        177 => array_type_no_dimension_inside(below, item, scope, ctx),
        178 => vector_type_dimension_number_inside(below, item, scope, ctx),
        179 => vector_type_dimension_expression_inside(below, item, scope, ctx),
        186 => function_type_inside(below, item, scope, ctx),
        195 => part(below, item, 0, scope, ctx),
        197 => type_node_pointer_to_inside(below, item, scope, ctx),
        198 => type_node_lvalue_ref_inside(below, item, scope, ctx),
        199 => type_node_rvalue_ref_inside(below, item, scope, ctx),
        _ => {}
    }
}
