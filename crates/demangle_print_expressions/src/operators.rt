//! Operators and their operands.

ghost use Rattle.std.specs.Prelude.{◌≡◌, ◌||◌, Some, [], ◌∷◌};
ghost use Rattle.demangle_core.specs.Core.{◌⊕◌, Tag};
ghost use Rattle.demangle_vocab.specs.Operators.{number_of_operator};
ghost use Rattle.demangle_leaf_nodes.specs.TreeLeaves.{tree_of_operator_name};
ghost use Rattle.demangle_nodes.specs.TreeNodes.{tree_of_expression};
ghost use Rattle.demangle_printing.specs.Rules.{is_seen_word};
ghost use Rattle.demangle_printing.specs.World.{find, see};
ghost use Rattle.demangle_meets.specs.Meets.{Line};
ghost use Rattle.demangle_meets.specs.Place.{Refers, world_of};
ghost use Rattle.demangle_scope.specs.ScopeOf.{scope_of};
ghost use Rattle.demangle_print_below.specs.PageOf.{page};
ghost use Rattle.demangle_print_primaries.specs.Made.{made};

use crate::shapes::operand;
use demangle_print_below::Below;
use demangle_print_parts::operator_name;
use demangle_scope::{ArgScopeStack, DemangleContext, DemangleWrite};
use demangle_tree::{Expression, OperatorName};
use demangle_vocab::SimpleOperatorName;

/// Whether an operator is just this word.
fn is_operator(operator: &OperatorName, word: SimpleOperatorName) -> bool
    ensures { (r : Refers) → result ≡ is_seen_word 0 (number_of_operator word)
        (see (world_of r) (find (world_of r) (Some (tree_of_operator_name operator.now)) (0 ∷ []))) }
{
    match operator {
        OperatorName::Simple(simple) => word.number() == simple.number(),
        _ => false,
    }
}

/// Whether an operator stands behind its operand: `++` and `--` do.
fn stands_behind(operator: &OperatorName) -> bool
    ensures { (r : Refers) → result ≡ (is_seen_word 0 (number_of_operator SimpleOperatorName.PostInc)
        (see (world_of r) (find (world_of r) (Some (tree_of_operator_name operator.now)) (0 ∷ [])))
        || is_seen_word 0 (number_of_operator SimpleOperatorName.PostDec)
        (see (world_of r) (find (world_of r) (Some (tree_of_operator_name operator.now)) (0 ∷ [])))) }
{
    is_operator(operator, SimpleOperatorName::PostInc)
        || is_operator(operator, SimpleOperatorName::PostDec)
}

/// An operator with one operand. `++` and `--` stand behind theirs: the prefix forms are other nodes.
pub fn unary<'subs, W: DemangleWrite, B: Below<'subs, W>>(
    below: B,
    operator: &'subs OperatorName,
    node: &'subs Expression,
    scope: Option<ArgScopeStack<'_, 'subs>>,
    ctx: &mut DemangleContext<'subs, '_, W>,
)
    requires { B.can below }
    ensures { Line (B.at below) (page W.seen ctx.old) (page W.seen ctx.new)
        (made Tag.ExpressionUnary (tree_of_operator_name operator.now ⊕ tree_of_expression node.now))
        (scope_of scope.entry) }
{
    if stands_behind(operator) {
        operand(below, node, scope, ctx);
        operator_name(below, operator, scope, ctx);
    } else {
        operator_name(below, operator, scope, ctx);
        operand(below, node, scope, ctx);
    }
}

/// An operator with two operands. Parentheses keep `>` from ending template arguments.
pub fn binary<'subs, W: DemangleWrite, B: Below<'subs, W>>(
    below: B,
    operator: &'subs OperatorName,
    left: &'subs Expression,
    right: &'subs Expression,
    scope: Option<ArgScopeStack<'_, 'subs>>,
    ctx: &mut DemangleContext<'subs, '_, W>,
)
    requires { B.can below }
    ensures { Line (B.at below) (page W.seen ctx.old) (page W.seen ctx.new)
        (made Tag.ExpressionBinary (tree_of_operator_name operator.now
        ⊕ (tree_of_expression left.now ⊕ tree_of_expression right.now)))
        (scope_of scope.entry) }
{
    if is_operator(operator, SimpleOperatorName::Greater) {
        ctx.text("((");
        below.expression(left, scope, ctx);
        ctx.text(")>(");
        below.expression(right, scope, ctx);
        ctx.text("))");
    } else {
        operand(below, left, scope, ctx);
        operator_name(below, operator, scope, ctx);
        operand(below, right, scope, ctx);
    }
}

/// An operator with three operands: `(g)?(1) : (2)`, and any other than `?` as a call.
pub fn ternary<'subs, W: DemangleWrite, B: Below<'subs, W>>(
    below: B,
    operator: &'subs OperatorName,
    first: &'subs Expression,
    second: &'subs Expression,
    third: &'subs Expression,
    scope: Option<ArgScopeStack<'_, 'subs>>,
    ctx: &mut DemangleContext<'subs, '_, W>,
)
    requires { B.can below }
    ensures { Line (B.at below) (page W.seen ctx.old) (page W.seen ctx.new)
        (made Tag.ExpressionTernary (tree_of_operator_name operator.now
        ⊕ (tree_of_expression first.now ⊕ (tree_of_expression second.now ⊕ tree_of_expression third.now))))
        (scope_of scope.entry) }
{
    if is_operator(operator, SimpleOperatorName::Question) {
        operand(below, first, scope, ctx);
        ctx.text("?");
        operand(below, second, scope, ctx);
        ctx.text(" : ");
        operand(below, third, scope, ctx);
    } else {
        operator_name(below, operator, scope, ctx);
        ctx.text("(");
        below.expression(first, scope, ctx);
        ctx.text(", ");
        below.expression(second, scope, ctx);
        ctx.text(", ");
        below.expression(third, scope, ctx);
        ctx.text(")");
    }
}
