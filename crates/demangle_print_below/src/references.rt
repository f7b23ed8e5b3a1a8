//! Adjacent references, which are written as one.

ghost use Rattle.std.specs.Prelude.{◌≡◌, length};
ghost use Rattle.demangle_printing.specs.Act.{done, text};
ghost use Rattle.demangle_printing.specs.Rules.{is_lvalue_top, joined, rvalues};
ghost use Rattle.demangle_meets.specs.Meets.{Meets};
ghost use Rattle.demangle_meets.specs.Place.{Place, Refers, world_of};
ghost use Rattle.demangle_print_below.specs.PageOf.{page};
ghost use Rattle.demangle_print_below.specs.References.{is_lvalue_item, is_lvalue_node, is_rvalue_item};
ghost use Rattle.demangle_print_below.specs.References.{is_rvalue_node, is_rvalue_top};

use demangle_entries::TypeNode;
use demangle_scope::{DemangleContext, DemangleWrite, InnerItem};

fn is_rvalue_node(node: &TypeNode) -> bool
    ensures { result ≡ is_rvalue_node node.now }
{
    match node {
        TypeNode::RvalueRef(_) => true,
        _ => false,
    }
}

fn is_lvalue_node(node: &TypeNode) -> bool
    ensures { result ≡ is_lvalue_node node.now }
{
    match node {
        TypeNode::LvalueRef(_) => true,
        _ => false,
    }
}

fn is_rvalue_item(item: InnerItem<'_>) -> bool
    ensures { result ≡ is_rvalue_item item.entry }
{
    match item {
        InnerItem::Node(node) => is_rvalue_node(node),
        _ => false,
    }
}

fn is_lvalue_item(item: InnerItem<'_>) -> bool
    ensures { result ≡ is_lvalue_item item.entry }
{
    match item {
        InnerItem::Node(node) => is_lvalue_node(node),
        _ => false,
    }
}

/// Whether an rvalue reference is on top.
fn is_rvalue_top<'subs, W: DemangleWrite>(ctx: &DemangleContext<'subs, '_, W>) -> bool
    ensures { (r : Refers) → result ≡ is_rvalue_top (world_of r) (page W.seen ctx.now).inner }
{
    match ctx.item(0) {
        None => false,
        Some(item) => is_rvalue_item(item),
    }
}

/// Whether an lvalue reference is on top.
fn is_lvalue_top<'subs, W: DemangleWrite>(ctx: &DemangleContext<'subs, '_, W>) -> bool
    ensures { (r : Refers) → result ≡ is_lvalue_top (world_of r) (page W.seen ctx.now).inner }
{
    match ctx.item(0) {
        None => false,
        Some(item) => is_lvalue_item(item),
    }
}

/// Takes rvalue references from the top.
fn take_rvalues<'subs, W: DemangleWrite>(ctx: &mut DemangleContext<'subs, '_, W>)
    ensures { (p : Place) → Meets p (page W.seen ctx.old) (page W.seen ctx.new)
        (rvalues (world_of p.refers) (length (page W.seen ctx.old).inner)) }
{
    while is_rvalue_top(ctx) {
        ctx.pop();
    }
}

/// One mark for adjacent references: this one, unless an lvalue reference waits, whose mark is printed later.
pub fn joined<'subs, W: DemangleWrite>(mark: &str, ctx: &mut DemangleContext<'subs, '_, W>)
    ensures { (p : Place) → Meets p (page W.seen ctx.old) (page W.seen ctx.new)
        (joined (world_of p.refers) (text mark.now done) done) }
{
    take_rvalues(ctx);
    if !is_lvalue_top(ctx) {
        ctx.text(mark);
    }
}
