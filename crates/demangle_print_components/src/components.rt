//! What components of the table hold.

ghost use Rattle.demangle_meets.specs.Meets.{Line};
ghost use Rattle.demangle_scope.specs.ScopeOf.{scope_of};
ghost use Rattle.demangle_print_components.specs.Held.{held_in};
ghost use Rattle.demangle_print_below.specs.PageOf.{page};

use crate::expressions::expression_steps;
use demangle_print_below::Below;
use demangle_print_names::{prefix_steps, unscoped_template_name_steps};
use demangle_print_primaries::{template_template_param_steps, unresolved_type_steps};
use demangle_print_types::type_node_steps;
use demangle_scope::{ArgScopeStack, DemangleContext, DemangleWrite};
use demangle_tree::Substitutable;

/// What a component holds, its level entered.
pub fn substitutable_steps<'subs, W: DemangleWrite, B: Below<'subs, W>>(
    below: B,
    node: &'subs Substitutable,
    scope: Option<ArgScopeStack<'_, 'subs>>,
    ctx: &mut DemangleContext<'subs, '_, W>,
)
    requires { B.can below }
    ensures { Line (B.at below) (page W.seen ctx.old) (page W.seen ctx.new) (held_in node.now)
        (scope_of scope.entry) }
{
    match node {
        Substitutable::UnscopedTemplateName(name) => {
            unscoped_template_name_steps(below, name, scope, ctx);
        }
        Substitutable::TypeNode(node) => type_node_steps(below, node, scope, ctx),
        Substitutable::TemplateTemplateParam(param) => {
            template_template_param_steps(below, param, scope, ctx);
        }
        Substitutable::UnresolvedType(node) => unresolved_type_steps(below, node, scope, ctx),
        Substitutable::Prefix(prefix) => prefix_steps(below, prefix, scope, ctx),
        Substitutable::Expression(node) => expression_steps(below, node, scope, ctx),
    }
}
