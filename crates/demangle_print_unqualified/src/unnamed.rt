//! Types without a name, and closures.

ghost use Rattle.demangle_core.specs.Core.{Core};
ghost use Rattle.demangle_leaf_nodes.specs.TreeLeaves.{tree_of_closure_type_name, tree_of_lambda_sig};
ghost use Rattle.demangle_leaf_nodes.specs.TreeLeaves.{tree_of_unnamed_type_name};
ghost use Rattle.demangle_printing.specs.Act.{call, done, leaf, line};
ghost use Rattle.demangle_printing.specs.Print.{body};
ghost use Rattle.demangle_printing.specs.Scope.{Scope};
ghost use Rattle.demangle_meets.specs.Meets.{Meets, Prints};
ghost use Rattle.demangle_meets.specs.Place.{Place, world_of};
ghost use Rattle.demangle_scope.specs.ScopeOf.{scope_of};
ghost use Rattle.demangle_print_below.specs.PageOf.{page};

use demangle_print_below::Below;
use demangle_print_parts::{optional_ordinal, type_list};
use demangle_scope::{ArgScopeStack, DemangleContext, DemangleWrite, PrintFlag};
use demangle_tree::{ClosureTypeName, LambdaSig, UnnamedTypeName};

/// A type without a name, its level entered.
fn unnamed_type_steps<'subs, W: DemangleWrite>(
    node: &UnnamedTypeName,
    ctx: &mut DemangleContext<'subs, '_, W>,
)
    ensures { (p : Place) (sc : Scope Core) → Meets p (page W.seen ctx.old) (page W.seen ctx.new)
        (body (world_of p.refers) (line (tree_of_unnamed_type_name node.now)) sc) }
{
    ctx.text("{unnamed type#");
    optional_ordinal(node.0, 1, 1, ctx);
    ctx.text("}");
}

/// `{unnamed type#1}`.
pub fn unnamed_type_name<'subs, W: DemangleWrite, B: Below<'subs, W>>(
    below: B,
    node: &UnnamedTypeName,
    ctx: &mut DemangleContext<'subs, '_, W>,
)
    requires { B.can below }
    ensures { (sc : Scope Core) → Prints (B.at below) (page W.seen ctx.old) (page W.seen ctx.new)
        (tree_of_unnamed_type_name node.now) sc }
{
    let Some(_below) = below.enter(ctx) else {
        return;
    };
    unnamed_type_steps(node, ctx);
}

/// A type without a name as a leaf name: the last source name, where there is one.
pub fn unnamed_leaf<'subs, W: DemangleWrite, B: Below<'subs, W>>(
    below: B,
    node: &UnnamedTypeName,
    ctx: &mut DemangleContext<'subs, '_, W>,
)
    requires { B.can below }
    ensures { (sc : Scope Core) → Meets (B.at below) (page W.seen ctx.old) (page W.seen ctx.new)
        (call (leaf (tree_of_unnamed_type_name node.now)) sc done) }
{
    let Some(_below) = below.enter(ctx) else {
        return;
    };
    match ctx.source_name() {
        Some(name) => ctx.text(name),
        None => unnamed_type_steps(node, ctx),
    }
}

/// The parameters of a closure. A template parameter among them is `auto:1`.
pub fn lambda_sig<'subs, W: DemangleWrite, B: Below<'subs, W>>(
    below: B,
    node: &'subs LambdaSig,
    scope: Option<ArgScopeStack<'_, 'subs>>,
    ctx: &mut DemangleContext<'subs, '_, W>,
)
    requires { B.can below }
    ensures { Prints (B.at below) (page W.seen ctx.old) (page W.seen ctx.new) (tree_of_lambda_sig node.now)
        (scope_of scope.entry) }
{
    let Some(below) = below.enter(ctx) else {
        return;
    };
    ctx.turn(PrintFlag::Lambda, true);
    type_list(below, node.0.as_slice(), scope, ctx);
    ctx.turn(PrintFlag::Lambda, false);
}

/// `{lambda(int)#1}`. Closures are counted from 1; the second of a function has the number 0.
pub fn closure_type_name<'subs, W: DemangleWrite, B: Below<'subs, W>>(
    below: B,
    node: &'subs ClosureTypeName,
    scope: Option<ArgScopeStack<'_, 'subs>>,
    ctx: &mut DemangleContext<'subs, '_, W>,
)
    requires { B.can below }
    ensures { Prints (B.at below) (page W.seen ctx.old) (page W.seen ctx.new) (tree_of_closure_type_name node.now)
        (scope_of scope.entry) }
{
    let Some(below) = below.enter(ctx) else {
        return;
    };
    ctx.text("{lambda(");
    lambda_sig(below, &node.0, scope, ctx);
    ctx.text(")#");
    optional_ordinal(node.1, 1, 2, ctx);
    ctx.text("}");
}
