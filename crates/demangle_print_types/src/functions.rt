//! Lines of the types of functions.

ghost use Rattle.std.specs.Prelude.{map, Some};
ghost use Rattle.demangle_leaf_nodes.specs.TreeLeaves.{tree_of_bare_function_type, tree_of_option};
ghost use Rattle.demangle_leaf_nodes.specs.TreeLeaves.{tree_of_type_handle};
ghost use Rattle.demangle_entries.specs.TreeEntries.{tree_of_exception_spec, tree_of_function_type};
ghost use Rattle.demangle_printing.specs.Act.{block, done, space};
ghost use Rattle.demangle_printing.specs.Rules.{inner_of, line_of};
ghost use Rattle.demangle_meets.specs.Meets.{Closes, Meets, Prints};
ghost use Rattle.demangle_meets.specs.Place.{world_of};
ghost use Rattle.demangle_scope.specs.ItemTree.{item_tree};
ghost use Rattle.demangle_scope.specs.ScopeOf.{scope_of};
ghost use Rattle.demangle_print_below.specs.PageOf.{page};
ghost use Rattle.demangle_print_parts.specs.Pieces.{when_there};
ghost use Rattle.demangle_print_types.specs.Pieces.{first_line};

use demangle_print_below::{Below, close};
use demangle_print_parts::type_handle;
use demangle_scope::{ArgScopeStack, DemangleContext, DemangleWrite, InnerItem};
use demangle_tree::{BareFunctionType, ExceptionSpec, FunctionType, TypeHandle};

/// A space and what of an item stands behind, where the item that was pushed at this level is still on top.
fn close_spaced<'subs, W: DemangleWrite, B: Below<'subs, W>>(
    below: B,
    item: InnerItem<'subs>,
    scope: Option<ArgScopeStack<'_, 'subs>>,
    ctx: &mut DemangleContext<'subs, '_, W>,
)
    requires { B.can below }
    ensures { Closes (B.at below) (page W.seen ctx.old) (page W.seen ctx.new)
        (space (inner_of (world_of (B.at below).refers) (item_tree item.entry) (scope_of scope.entry) done)) }
{
    if ctx.take_own(below.level()) {
        ctx.space();
        below.inner(item, scope, ctx);
    }
}

/// The first of some types, where there is one.
fn first_type<'subs, W: DemangleWrite, B: Below<'subs, W>>(
    below: B,
    types: &'subs [TypeHandle],
    scope: Option<ArgScopeStack<'_, 'subs>>,
    ctx: &mut DemangleContext<'subs, '_, W>,
)
    requires { B.can below }
    ensures { Meets (B.at below) (page W.seen ctx.old) (page W.seen ctx.new)
        (first_line (world_of (B.at below).refers) (map tree_of_type_handle types.now) (scope_of scope.entry)) }
{
    let Some((first, _)) = types.split_first() else {
        return;
    };
    type_handle(below, first, scope, ctx);
}

/// The types of a function: the result, and behind it the parameters.
pub fn bare_function_type<'subs, W: DemangleWrite, B: Below<'subs, W>>(
    below: B,
    node: &'subs BareFunctionType,
    scope: Option<ArgScopeStack<'_, 'subs>>,
    ctx: &mut DemangleContext<'subs, '_, W>,
)
    requires { B.can below }
    ensures { Prints (B.at below) (page W.seen ctx.old) (page W.seen ctx.new)
        (tree_of_bare_function_type node.now) (scope_of scope.entry) }
{
    let Some(below) = below.enter(ctx) else {
        return;
    };
    let item = InnerItem::Bare(node);
    ctx.hold(item, below.level());
    first_type(below, node.0.as_slice(), scope, ctx);
    close_spaced(below, item, scope, ctx);
}

/// The exception specification of a function's type.
pub fn exception_spec<'subs, W: DemangleWrite, B: Below<'subs, W>>(
    below: B,
    node: &'subs ExceptionSpec,
    scope: Option<ArgScopeStack<'_, 'subs>>,
    ctx: &mut DemangleContext<'subs, '_, W>,
)
    requires { B.can below }
    ensures { Prints (B.at below) (page W.seen ctx.old) (page W.seen ctx.new)
        (tree_of_exception_spec node.now) (scope_of scope.entry) }
{
    let Some(below) = below.enter(ctx) else {
        return;
    };
    match node {
        ExceptionSpec::NoExcept => ctx.text("noexcept"),
        ExceptionSpec::Computed(condition) => {
            ctx.text("noexcept(");
            below.expression(condition, scope, ctx);
            ctx.text(")");
        }
    }
}

/// An exception specification with a space before it, where there is one.
fn exception<'subs, W: DemangleWrite, B: Below<'subs, W>>(
    below: B,
    node: &'subs Option<ExceptionSpec>,
    scope: Option<ArgScopeStack<'_, 'subs>>,
    ctx: &mut DemangleContext<'subs, '_, W>,
)
    requires { B.can below }
    ensures { Meets (B.at below) (page W.seen ctx.old) (page W.seen ctx.new)
        (when_there (world_of (B.at below).refers) (tree_of_option tree_of_exception_spec node.now)
        (space (block (line_of (world_of (B.at below).refers)
        (Some (tree_of_option tree_of_exception_spec node.now)) (scope_of scope.entry)) done))) }
{
    if let Some(spec) = node {
        ctx.space();
        exception_spec(below, spec, scope, ctx);
    }
}

/// The type of a function.
pub fn function_type<'subs, W: DemangleWrite, B: Below<'subs, W>>(
    below: B,
    node: &'subs FunctionType,
    scope: Option<ArgScopeStack<'_, 'subs>>,
    ctx: &mut DemangleContext<'subs, '_, W>,
)
    requires { B.can below }
    ensures { Prints (B.at below) (page W.seen ctx.old) (page W.seen ctx.new) (tree_of_function_type node.now)
        (scope_of scope.entry) }
{
    let Some(below) = below.enter(ctx) else {
        return;
    };
    let item = InnerItem::Function(node);
    ctx.hold(item, below.level());
    bare_function_type(below, &node.bare, scope, ctx);
    close(below, item, scope, ctx);
    exception(below, &node.exception_spec, scope, ctx);
}
