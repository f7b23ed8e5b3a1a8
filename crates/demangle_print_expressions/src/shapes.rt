//! Lines of one shape, whatever their words are.

ghost use Rattle.std.specs.Prelude.{◌≡◌, Some};
ghost use Rattle.demangle_leaf_nodes.specs.TreeLeaves.{tree_of_type_handle};
ghost use Rattle.demangle_nodes.specs.TreeNodes.{tree_of_expr_primary, tree_of_expression};
ghost use Rattle.demangle_printing.specs.Act.{block, done};
ghost use Rattle.demangle_printing.specs.Reader.{is_bare, is_external};
ghost use Rattle.demangle_printing.specs.Rules.{quoted, tag};
ghost use Rattle.demangle_meets.specs.Meets.{Meets};
ghost use Rattle.demangle_meets.specs.Place.{Refers, world_of};
ghost use Rattle.demangle_scope.specs.ScopeOf.{scope_of};
ghost use Rattle.demangle_print_below.specs.PageOf.{page};
ghost use Rattle.demangle_print_expressions.specs.Shapes.{cast, enclosed, led, operand_act};

use demangle_print_below::Below;
use demangle_print_parts::type_handle;
use demangle_scope::{ArgScopeStack, DemangleContext, DemangleWrite};
use demangle_tree::{ExprPrimary, Expression, TypeHandle};

/// Whether it is the name of an entity.
fn is_external(node: &ExprPrimary) -> bool
    ensures { (r : Refers) → result ≡ is_external (tag (world_of r) (tree_of_expr_primary node.now)) }
{
    match node {
        ExprPrimary::External(_) => true,
        ExprPrimary::Literal(..) => false,
    }
}

/// Whether an operand stands without parentheses: a parameter of the function does, and the name of an entity.
fn is_bare(node: &Expression) -> bool
    ensures { (r : Refers) → result ≡ is_bare (world_of r) (Some (tree_of_expression node.now)) }
{
    match node {
        Expression::FunctionParam(_) => true,
        Expression::Primary(primary) => is_external(primary),
        _ => false,
    }
}

/// An operand, in parentheses unless it is a parameter of the function or the name of an entity.
pub(crate) fn operand<'subs, W: DemangleWrite, B: Below<'subs, W>>(
    below: B,
    node: &'subs Expression,
    scope: Option<ArgScopeStack<'_, 'subs>>,
    ctx: &mut DemangleContext<'subs, '_, W>,
)
    requires { B.can below }
    ensures { Meets (B.at below) (page W.seen ctx.old) (page W.seen ctx.new)
        (operand_act (world_of (B.at below).refers) (scope_of scope.entry) (tree_of_expression node.now)) }
{
    if is_bare(node) {
        below.expression(node, scope, ctx);
    } else {
        ctx.text("(");
        below.expression(node, scope, ctx);
        ctx.text(")");
    }
}

/// A word, and an expression behind it.
pub fn led<'subs, W: DemangleWrite, B: Below<'subs, W>>(
    below: B,
    word: &str,
    node: &'subs Expression,
    scope: Option<ArgScopeStack<'_, 'subs>>,
    ctx: &mut DemangleContext<'subs, '_, W>,
)
    requires { B.can below }
    ensures { Meets (B.at below) (page W.seen ctx.old) (page W.seen ctx.new)
        (led (world_of (B.at below).refers) (scope_of scope.entry) word.now (tree_of_expression node.now)) }
{
    ctx.text(word);
    below.expression(node, scope, ctx);
}

/// A word that opens a parenthesis, an expression, and the closing parenthesis.
pub fn enclosed<'subs, W: DemangleWrite, B: Below<'subs, W>>(
    below: B,
    word: &str,
    node: &'subs Expression,
    scope: Option<ArgScopeStack<'_, 'subs>>,
    ctx: &mut DemangleContext<'subs, '_, W>,
)
    requires { B.can below }
    ensures { Meets (B.at below) (page W.seen ctx.old) (page W.seen ctx.new)
        (enclosed (world_of (B.at below).refers) (scope_of scope.entry) word.now (tree_of_expression node.now)) }
{
    ctx.text(word);
    below.expression(node, scope, ctx);
    ctx.text(")");
}

/// A word that opens a parenthesis, a type, and the closing parenthesis.
pub fn enclosed_type<'subs, W: DemangleWrite, B: Below<'subs, W>>(
    below: B,
    word: &str,
    handle: &'subs TypeHandle,
    scope: Option<ArgScopeStack<'_, 'subs>>,
    ctx: &mut DemangleContext<'subs, '_, W>,
)
    requires { B.can below }
    ensures { Meets (B.at below) (page W.seen ctx.old) (page W.seen ctx.new)
        (enclosed (world_of (B.at below).refers) (scope_of scope.entry) word.now (tree_of_type_handle handle.now)) }
{
    ctx.text(word);
    type_handle(below, handle, scope, ctx);
    ctx.text(")");
}

/// `static_cast<T>(g)`, with the word that opens it, as `static_cast<`.
pub fn cast<'subs, W: DemangleWrite, B: Below<'subs, W>>(
    below: B,
    word: &str,
    handle: &'subs TypeHandle,
    node: &'subs Expression,
    scope: Option<ArgScopeStack<'_, 'subs>>,
    ctx: &mut DemangleContext<'subs, '_, W>,
)
    requires { B.can below }
    ensures { Meets (B.at below) (page W.seen ctx.old) (page W.seen ctx.new)
        (cast (world_of (B.at below).refers) (scope_of scope.entry) word.now (tree_of_type_handle handle.now)
        (tree_of_expression node.now)) }
{
    ctx.text(word);
    type_handle(below, handle, scope, ctx);
    ctx.text(">(");
    below.expression(node, scope, ctx);
    ctx.text(")");
}

/// `(g)...`.
pub fn pack_expansion<'subs, W: DemangleWrite, B: Below<'subs, W>>(
    below: B,
    node: &'subs Expression,
    scope: Option<ArgScopeStack<'_, 'subs>>,
    ctx: &mut DemangleContext<'subs, '_, W>,
)
    requires { B.can below }
    ensures { Meets (B.at below) (page W.seen ctx.old) (page W.seen ctx.new)
        (block (operand_act (world_of (B.at below).refers) (scope_of scope.entry) (tree_of_expression node.now))
        (quoted "..." done)) }
{
    operand(below, node, scope, ctx);
    ctx.text("...");
}
