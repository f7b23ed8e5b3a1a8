//! Folds over a parameter pack.

ghost use Rattle.demangle_leaf_nodes.specs.TreeLeaves.{tree_of_simple_operator_name};
ghost use Rattle.demangle_nodes.specs.TreeNodes.{tree_of_expression, tree_of_fold_expr};
ghost use Rattle.demangle_meets.specs.Meets.{Meets, Prints};
ghost use Rattle.demangle_meets.specs.Place.{world_of};
ghost use Rattle.demangle_scope.specs.ScopeOf.{scope_of};
ghost use Rattle.demangle_print_below.specs.PageOf.{page};
ghost use Rattle.demangle_print_expressions.specs.Shapes.{binary_fold};

use crate::shapes::operand;
use demangle_print_below::Below;
use demangle_print_parts::simple_operator_name;
use demangle_scope::{ArgScopeStack, DemangleContext, DemangleWrite};
use demangle_tree::{Expression, FoldExpr};
use demangle_vocab::SimpleOperatorName;

/// `({parm#1}+...+(0))`.
fn binary_fold<'subs, W: DemangleWrite, B: Below<'subs, W>>(
    below: B,
    operator: &SimpleOperatorName,
    left: &'subs Expression,
    right: &'subs Expression,
    scope: Option<ArgScopeStack<'_, 'subs>>,
    ctx: &mut DemangleContext<'subs, '_, W>,
)
    requires { B.can below }
    ensures { Meets (B.at below) (page W.seen ctx.old) (page W.seen ctx.new)
        (binary_fold (world_of (B.at below).refers) (scope_of scope.entry)
        (tree_of_simple_operator_name operator.now) (tree_of_expression left.now) (tree_of_expression right.now)) }
{
    ctx.text("(");
    operand(below, left, scope, ctx);
    simple_operator_name(below, operator, ctx);
    ctx.text("...");
    simple_operator_name(below, operator, ctx);
    operand(below, right, scope, ctx);
    ctx.text(")");
}

/// `(...+(g))`, `((g)+...)`, `((g)+...+(h))`.
pub fn fold_expr<'subs, W: DemangleWrite, B: Below<'subs, W>>(
    below: B,
    node: &'subs FoldExpr,
    scope: Option<ArgScopeStack<'_, 'subs>>,
    ctx: &mut DemangleContext<'subs, '_, W>,
)
    requires { B.can below }
    ensures { Prints (B.at below) (page W.seen ctx.old) (page W.seen ctx.new) (tree_of_fold_expr node.now)
        (scope_of scope.entry) }
{
    let Some(below) = below.enter(ctx) else {
        return;
    };
    match node {
        FoldExpr::UnaryLeft(operator, pack) => {
            ctx.text("(...");
            simple_operator_name(below, operator, ctx);
            operand(below, pack, scope, ctx);
            ctx.text(")");
        }
        FoldExpr::UnaryRight(operator, pack) => {
            ctx.text("(");
            operand(below, pack, scope, ctx);
            simple_operator_name(below, operator, ctx);
            ctx.text("...)");
        }
        FoldExpr::BinaryLeft(operator, left, right) => {
            binary_fold(below, operator, left, right, scope, ctx);
        }
        FoldExpr::BinaryRight(operator, left, right) => {
            binary_fold(below, operator, left, right, scope, ctx);
        }
    }
}
