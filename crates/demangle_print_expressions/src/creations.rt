//! `new` and `delete`.

ghost use Rattle.std.specs.Prelude.{codes};
ghost use Rattle.demangle_leaf_nodes.specs.TreeLeaves.{tree_of_option, tree_of_type_handle};
ghost use Rattle.demangle_nodes.specs.TreeNodes.{tree_of_expression, tree_of_initializer};
ghost use Rattle.demangle_printing.specs.Act.{text};
ghost use Rattle.demangle_meets.specs.Meets.{Meets, Prints};
ghost use Rattle.demangle_meets.specs.Place.{world_of};
ghost use Rattle.demangle_scope.specs.ScopeOf.{scope_of};
ghost use Rattle.demangle_print_below.specs.PageOf.{page};
ghost use Rattle.demangle_print_primaries.specs.Made.{expressions};
ghost use Rattle.demangle_print_expressions.specs.Shapes.{creation, led};

use crate::calls::initializer;
use crate::shapes::led;
use demangle_print_below::Below;
use demangle_print_parts::{expression_list, type_handle};
use demangle_scope::{ArgScopeStack, DemangleContext, DemangleWrite};
use demangle_tree::{Expression, Initializer, TypeHandle};

/// An initializer, where there is one.
fn optional_initializer<'subs, W: DemangleWrite, B: Below<'subs, W>>(
    below: B,
    node: &'subs Option<Initializer>,
    scope: Option<ArgScopeStack<'_, 'subs>>,
    ctx: &mut DemangleContext<'subs, '_, W>,
)
    requires { B.can below }
    ensures { Prints (B.at below) (page W.seen ctx.old) (page W.seen ctx.new)
        (tree_of_option tree_of_initializer node.now) (scope_of scope.entry) }
{
    if let Some(node) = node {
        initializer(below, node, scope, ctx);
    }
}

/// `new (g) int(1)`, with the word that opens it, as `new (`.
pub fn creation<'subs, W: DemangleWrite, B: Below<'subs, W>>(
    below: B,
    word: &str,
    placement: &'subs [Expression],
    handle: &'subs TypeHandle,
    node: &'subs Option<Initializer>,
    scope: Option<ArgScopeStack<'_, 'subs>>,
    ctx: &mut DemangleContext<'subs, '_, W>,
)
    requires { B.can below }
    ensures { Meets (B.at below) (page W.seen ctx.old) (page W.seen ctx.new)
        (creation (world_of (B.at below).refers) (scope_of scope.entry) word.now
        (expressions placement.now) (tree_of_type_handle handle.now)
        (tree_of_option tree_of_initializer node.now)) }
{
    ctx.text(word);
    expression_list(below, placement, scope, ctx);
    ctx.text(") ");
    type_handle(below, handle, scope, ctx);
    optional_initializer(below, node, scope, ctx);
}

/// `::new (g) int(1)`, with the word behind `::`.
pub fn global_creation<'subs, W: DemangleWrite, B: Below<'subs, W>>(
    below: B,
    word: &str,
    placement: &'subs [Expression],
    handle: &'subs TypeHandle,
    node: &'subs Option<Initializer>,
    scope: Option<ArgScopeStack<'_, 'subs>>,
    ctx: &mut DemangleContext<'subs, '_, W>,
)
    requires { B.can below }
    ensures { Meets (B.at below) (page W.seen ctx.old) (page W.seen ctx.new)
        (text (codes "::") (creation (world_of (B.at below).refers) (scope_of scope.entry) word.now
        (expressions placement.now) (tree_of_type_handle handle.now)
        (tree_of_option tree_of_initializer node.now))) }
{
    ctx.text("::");
    creation(below, word, placement, handle, node, scope, ctx);
}

/// `::delete g`, with the word behind `::`.
pub fn global_led<'subs, W: DemangleWrite, B: Below<'subs, W>>(
    below: B,
    word: &str,
    node: &'subs Expression,
    scope: Option<ArgScopeStack<'_, 'subs>>,
    ctx: &mut DemangleContext<'subs, '_, W>,
)
    requires { B.can below }
    ensures { Meets (B.at below) (page W.seen ctx.old) (page W.seen ctx.new)
        (text (codes "::") (led (world_of (B.at below).refers) (scope_of scope.entry) word.now
        (tree_of_expression node.now))) }
{
    ctx.text("::");
    led(below, word, node, scope, ctx);
}
