//! The type of an expression.

ghost use Rattle.demangle_nodes.specs.TreeNodes.{tree_of_expression};
ghost use Rattle.demangle_entries.specs.TreeEntries.{tree_of_decltype};
ghost use Rattle.demangle_meets.specs.Meets.{Meets, Prints};
ghost use Rattle.demangle_meets.specs.Place.{world_of};
ghost use Rattle.demangle_scope.specs.ScopeOf.{scope_of};
ghost use Rattle.demangle_print_below.specs.PageOf.{page};
ghost use Rattle.demangle_print_parts.specs.Decltypes.{type_of};

use demangle_print_below::Below;
use demangle_scope::{ArgScopeStack, DemangleContext, DemangleNodeType, DemangleWrite};
use demangle_tree::{Decltype, Expression};

/// `decltype (x)`, of which the listener is told as a node.
fn type_of<'subs, W: DemangleWrite, B: Below<'subs, W>>(
    below: B,
    node: &'subs Expression,
    scope: Option<ArgScopeStack<'_, 'subs>>,
    ctx: &mut DemangleContext<'subs, '_, W>,
)
    requires { B.can below }
    ensures { Meets (B.at below) (page W.seen ctx.old) (page W.seen ctx.new)
        (type_of (world_of (B.at below).refers) (tree_of_expression node.now) (scope_of scope.entry)) }
{
    let told = ctx.begin_node(DemangleNodeType::Decltype);
    ctx.text("decltype (");
    below.expression(node, scope, ctx);
    ctx.text(")");
    ctx.end_node(told);
}

/// The type of a name, or of any other expression.
pub fn decltype<'subs, W: DemangleWrite, B: Below<'subs, W>>(
    below: B,
    node: &'subs Decltype,
    scope: Option<ArgScopeStack<'_, 'subs>>,
    ctx: &mut DemangleContext<'subs, '_, W>,
)
    requires { B.can below }
    ensures { Prints (B.at below) (page W.seen ctx.old) (page W.seen ctx.new)
        (tree_of_decltype node.now) (scope_of scope.entry) }
{
    let Some(below) = below.enter(ctx) else {
        return;
    };
    match node {
        Decltype::IdExpression(expression) => type_of(below, expression, scope, ctx),
        Decltype::Expression(expression) => type_of(below, expression, scope, ctx),
    }
}
