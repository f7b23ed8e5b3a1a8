//! What of an array stands behind its elements: the other items, and its bounds.

ghost use Rattle.std.specs.Prelude.{◌≡◌, length, true, Some};
ghost use Rattle.demangle_core.specs.Core.{Core};
ghost use Rattle.demangle_leaf_nodes.specs.TreeLeaves.{tree_of_type_handle};
ghost use Rattle.demangle_entries.specs.TreeEntries.{tree_of_array_type};
ghost use Rattle.demangle_printing.specs.Act.{Act};
ghost use Rattle.demangle_printing.specs.Arrays.{array_turns, before_bounds, is_array_tree, qualified_turn};
ghost use Rattle.demangle_printing.specs.Rules.{of_handle};
ghost use Rattle.demangle_meets.specs.Meets.{Inside, Meets, Remains};
ghost use Rattle.demangle_meets.specs.Place.{Place, world_of};
ghost use Rattle.demangle_scope.specs.ItemTree.{item_tree};
ghost use Rattle.demangle_scope.specs.ScopeOf.{scope_of};
ghost use Rattle.demangle_print_below.specs.PageOf.{page};
ghost use Rattle.demangle_print_inner.specs.Behind.{all_in_parentheses, bound_of, others_before_bounds};
ghost use Rattle.demangle_print_inner.specs.Behind.{others_in_parentheses};
ghost use Rattle.demangle_print_inner.specs.Kinds.{is_array_component, is_array_node, item_turn, node_turn, turn_of};

use crate::waiting::{all_waiting, take_top};
use demangle_print_below::Below;
use demangle_print_parts::unsigned;
use demangle_scope::{ArgScopeStack, DemangleContext, DemangleWrite, InnerItem};
use demangle_tree::{ArrayType, Substitutable, TypeHandle, TypeNode};

/// What an item is to the array that it stands around.
#[derive(Clone, Copy, Debug)]
pub(crate) enum ArrayTurn {
    /// An array of arrays.
    Array,
    /// A qualified array.
    Elements,
    /// Another qualified type.
    Qualified,
    /// Any other.
    Other,
}

fn is_array_node(node: &TypeNode) -> bool
    ensures { result ≡ is_array_node node.now }
{
    match node {
        TypeNode::Array(_) => true,
        _ => false,
    }
}

fn is_array_component(component: &Substitutable) -> bool
    ensures { result ≡ is_array_component component.now }
{
    match component {
        Substitutable::TypeNode(node) => is_array_node(node),
        _ => false,
    }
}

/// Whether a handle refers to an array.
fn is_array<'subs, W: DemangleWrite, B: Below<'subs, W>>(below: B, handle: &TypeHandle) -> bool
    ensures { result ≡ is_array_tree (world_of (B.at below).refers)
        (of_handle (world_of (B.at below).refers) (Some (tree_of_type_handle handle.now))) }
{
    let subs = below.subs();
    match handle {
        TypeHandle::BackReference(idx) => match subs.get(*idx) {
            None => false,
            Some(component) => is_array_component(component),
        },
        _ => false,
    }
}

fn qualified_turn(is_array: bool) -> ArrayTurn
    ensures { turn_of result ≡ qualified_turn is_array }
{
    if is_array {
        return ArrayTurn::Elements;
    }
    ArrayTurn::Qualified
}

fn node_turn<'subs, W: DemangleWrite, B: Below<'subs, W>>(below: B, node: &TypeNode) -> ArrayTurn
    ensures { turn_of result ≡ node_turn (world_of (B.at below).refers) node.now }
{
    match node {
        TypeNode::Qualified(_, handle) => qualified_turn(is_array(below, handle)),
        _ => ArrayTurn::Other,
    }
}

/// What an item is to the array.
fn item_turn<'subs, W: DemangleWrite, B: Below<'subs, W>>(
    below: B,
    item: InnerItem<'subs>,
) -> ArrayTurn
    ensures { turn_of result ≡ item_turn (world_of (B.at below).refers) item.entry }
{
    match item {
        InnerItem::Array(_) => ArrayTurn::Array,
        InnerItem::Node(node) => node_turn(below, node),
        _ => ArrayTurn::Other,
    }
}

/// The space before the bounds, unless other bounds stand before them.
fn space_before<'subs, W: DemangleWrite>(is_spaced: bool, ctx: &mut DemangleContext<'subs, '_, W>)
    ensures { (p : Place) → Meets p (page W.seen ctx.old) (page W.seen ctx.new)
        (before_bounds (world_of p.refers) is_spaced) }
{
    if is_spaced {
        ctx.space();
    }
}

/// The items that wait, a closing parenthesis, and the space before the bounds.
fn others_before_bounds<'subs, W: DemangleWrite, B: Below<'subs, W>>(
    below: B,
    is_spaced: bool,
    scope: Option<ArgScopeStack<'_, 'subs>>,
    ctx: &mut DemangleContext<'subs, '_, W>,
)
    requires { B.can below }
    ensures { Meets (B.at below) (page W.seen ctx.old) (page W.seen ctx.new)
        (others_before_bounds (world_of (B.at below).refers) (scope_of scope.entry) is_spaced) }
{
    all_waiting(below, scope, ctx);
    ctx.text(")");
    space_before(is_spaced, ctx);
}

/// The qualifiers on top, and then the other items in parentheses.
fn others_in_parentheses<'subs, W: DemangleWrite, B: Below<'subs, W>>(
    below: B,
    item: InnerItem<'subs>,
    is_spaced: bool,
    scope: Option<ArgScopeStack<'_, 'subs>>,
    ctx: &mut DemangleContext<'subs, '_, W>,
)
    requires { B.can below }
    ensures { Meets (B.at below) (page W.seen ctx.old) (page W.seen ctx.new)
        (others_in_parentheses (world_of (B.at below).refers) (item_tree item.entry) (scope_of scope.entry)
        is_spaced) }
{
    ctx.space();
    take_top(below, item, scope, ctx);
    ctx.space();
    ctx.text("(");
    others_before_bounds(below, is_spaced, scope, ctx);
}

/// All items in parentheses, this one on top.
fn all_in_parentheses<'subs, W: DemangleWrite, B: Below<'subs, W>>(
    below: B,
    item: InnerItem<'subs>,
    is_spaced: bool,
    scope: Option<ArgScopeStack<'_, 'subs>>,
    ctx: &mut DemangleContext<'subs, '_, W>,
)
    requires { B.can below }
    ensures { Meets (B.at below) (page W.seen ctx.old) (page W.seen ctx.new)
        (all_in_parentheses (world_of (B.at below).refers) (item_tree item.entry) (scope_of scope.entry)
        is_spaced) }
{
    ctx.space();
    ctx.text("(");
    take_top(below, item, scope, ctx);
    others_before_bounds(below, is_spaced, scope, ctx);
}

/// What stands before the bounds: other arrays as they are, and the rest of the items in parentheses.
fn before_bounds<'subs, W: DemangleWrite, B: Below<'subs, W>>(
    below: B,
    scope: Option<ArgScopeStack<'_, 'subs>>,
    ctx: &mut DemangleContext<'subs, '_, W>,
)
    requires { B.can below }
    ensures { Meets (B.at below) (page W.seen ctx.old) (page W.seen ctx.new)
        (array_turns (world_of (B.at below).refers) (length (page W.seen ctx.old).inner) (scope_of scope.entry)
        true) }
{
    let mut is_spaced = true;
    for _turn in 0..ctx.waiting() {
        let Some(item) = ctx.item(0) else {
            space_before(is_spaced, ctx);
            return;
        };
        match item_turn(below, item) {
            ArrayTurn::Array => {
                take_top(below, item, scope, ctx);
                is_spaced = false;
                continue;
            }
            ArrayTurn::Elements => {
                take_top(below, item, scope, ctx);
                continue;
            }
            ArrayTurn::Qualified => {
                others_in_parentheses(below, item, is_spaced, scope, ctx);
                return;
            }
            ArrayTurn::Other => {
                all_in_parentheses(below, item, is_spaced, scope, ctx);
                return;
            }
        }
    }
    space_before(is_spaced, ctx);
}

/// The bound of an array, where it has one.
fn bound<'subs, W: DemangleWrite, B: Below<'subs, W>>(
    below: B,
    node: &'subs ArrayType,
    scope: Option<ArgScopeStack<'_, 'subs>>,
    ctx: &mut DemangleContext<'subs, '_, W>,
)
    requires { B.can below }
    ensures { (k : Act Core) → Remains (B.at below) (page W.seen ctx.old) (page W.seen ctx.new)
        (bound_of (world_of (B.at below).refers) node.now (scope_of scope.entry) k) k }
{
    match node {
        ArrayType::DimensionNumber(length, _) => unsigned(*length, ctx),
        ArrayType::DimensionExpression(length, _) => below.expression(length, scope, ctx),
        ArrayType::NoDimension(_) => {}
    }
}

/// Behind the elements of an array: the items that stand around it, and its bounds.
pub(crate) fn array_inside<'subs, W: DemangleWrite, B: Below<'subs, W>>(
    below: B,
    node: &'subs ArrayType,
    scope: Option<ArgScopeStack<'_, 'subs>>,
    ctx: &mut DemangleContext<'subs, '_, W>,
)
    requires { B.can below }
    ensures { Inside (B.at below) (page W.seen ctx.old) (page W.seen ctx.new) (tree_of_array_type node.now)
        (scope_of scope.entry) }
{
    before_bounds(below, scope, ctx);
    ctx.text("[");
    bound(below, node, scope, ctx);
    ctx.text("]");
}
