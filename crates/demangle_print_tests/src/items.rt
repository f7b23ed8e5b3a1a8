//! Inner items: what of them stands behind, and what they make of the items that wait.

use crate::checks::same;
use crate::printed::{int, read_type};
use demangle_print::{Demangle, demangle_args, demangle_inner};
use demangle_release::release_table;
use demangle_scope::{DemangleContext, DemangleError, DemangleOptions, InnerItem, TextSink};
use demangle_tree::{SubstitutionTable, TypeHandle, TypeNode};
use std::alloc::Global;

/// An item of a type of `int`, or of a function without parameters and with qualifiers.
#[derive(Clone, Copy)]
enum Item {
    Pointer,
    Left,
    Right,
    Constant,
    Array,
    Member,
    Vector,
    Function,
    Signature,
    Qualifiers,
}

/// A call of printing: what of an item stands behind, the parameters of a function, or a type.
#[derive(Clone, Copy)]
enum Call {
    Inner(Item),
    Args,
    Type,
}

/// A call, the items that wait, the newest last, the text, and how many items wait behind it.
type Case = (Call, &'static [Item], &'static str, usize);

/// Of adjacent references there is one mark, that of the left one where there is one.
static REFERENCES: [Case; 5] = [
    (Call::Inner(Item::Right), &[], "&&", 0),
    (Call::Inner(Item::Left), &[], "&", 0),
    (
        Call::Inner(Item::Right),
        &[Item::Pointer, Item::Right, Item::Right],
        "&&",
        1,
    ),
    (
        Call::Inner(Item::Right),
        &[Item::Pointer, Item::Left, Item::Right],
        "",
        2,
    ),
    (Call::Inner(Item::Left), &[Item::Right, Item::Left], "", 2),
];

/// Arrays and parameters take what waits, a type and other items leave it.
static OTHERS: [Case; 16] = [
    (Call::Inner(Item::Pointer), &[Item::Array], "*", 1),
    (Call::Inner(Item::Constant), &[Item::Pointer], " const", 1),
    (Call::Inner(Item::Member), &[Item::Pointer], " int::*", 1),
    (
        Call::Inner(Item::Vector),
        &[Item::Pointer],
        " __vector(4)",
        1,
    ),
    (Call::Inner(Item::Function), &[Item::Pointer], " const", 1),
    (Call::Inner(Item::Qualifiers), &[Item::Pointer], " const", 1),
    (Call::Inner(Item::Signature), &[], "()", 0),
    (Call::Inner(Item::Signature), &[Item::Pointer], " (*)()", 0),
    (Call::Inner(Item::Array), &[], " [3]", 0),
    (Call::Inner(Item::Array), &[Item::Pointer], " (*) [3]", 0),
    (
        Call::Inner(Item::Array),
        &[Item::Pointer, Item::Constant],
        " const (*) [3]",
        0,
    ),
    (Call::Args, &[], "(int)", 0),
    (Call::Args, &[Item::Pointer], " (*)(int)", 0),
    (
        Call::Args,
        &[Item::Pointer, Item::Member],
        " (int::**)(int)",
        0,
    ),
    (
        Call::Args,
        &[Item::Pointer, Item::Function],
        " (*)(int) const",
        0,
    ),
    (Call::Type, &[Item::Pointer, Item::Member], "int", 2),
];

/// A type of which the first components are the nodes of these items, in their order.
const ITEMS: &[u8] = b"FvPiRiOiKiA3_iMiiDv4_iKFivEE";

fn node_of<'a>(subs: &'a SubstitutionTable, item: Item) -> Option<&'a TypeNode> {
    let place = match item {
        Item::Pointer => 0,
        Item::Left => 1,
        Item::Right => 2,
        Item::Constant => 3,
        Item::Array => 4,
        Item::Member => 5,
        Item::Vector => 6,
        _ => 7,
    };
    subs.get_type(&TypeHandle::BackReference(place))
}

fn inner_item<'a>(subs: &'a SubstitutionTable, item: Item) -> Option<InnerItem<'a>> {
    Some(match (node_of(subs, item)?, item) {
        (TypeNode::Array(array), _) => InnerItem::Array(array),
        (TypeNode::Vector(vector), _) => InnerItem::Vector(vector),
        (TypeNode::PointerToMember(member), _) => InnerItem::Member(member),
        (TypeNode::Function(function), Item::Signature) => InnerItem::Bare(&function.bare),
        (TypeNode::Function(function), Item::Qualifiers) => InnerItem::Qualifiers(
            &function.cv_qualifiers,
        ),
        (TypeNode::Function(function), _) => InnerItem::Function(function),
        (node, _) => InnerItem::Node(node),
    })
}

fn done<'a>(
    call: Call,
    subs: &'a SubstitutionTable,
    types: &'a [TypeHandle; 1],
    ctx: &mut DemangleContext<'a, '_, TextSink>,
) -> Result<(), DemangleError> {
    match call {
        Call::Inner(item) => match inner_item(subs, item) {
            Some(item) => demangle_inner(item, ctx, None),
            None => Err(DemangleError::Sink),
        },
        Call::Args => demangle_args(types, ctx, None),
        Call::Type => types[0].demangle(ctx, None),
    }
}

/// How many items wait behind a call, and the level. The items that waited have a level each.
fn left_behind<'a>(
    alloc: Global,
    (call, waiting): (Call, &[Item]),
    subs: &'a SubstitutionTable,
    types: &'a [TypeHandle; 1],
    sink: &mut TextSink,
) -> Result<(usize, usize), DemangleError> {
    let mut ctx = DemangleContext::new(alloc, subs, b"", DemangleOptions::new(), sink)?;
    for item in waiting {
        if let Some(item) = inner_item(subs, *item) {
            ctx.push_inner(item)?;
        }
        ctx.enter()?;
    }
    done(call, subs, types, &mut ctx)?;
    Ok((ctx.inner_len(), ctx.recursion_level() as usize))
}

/// The number of the first case that comes out otherwise.
fn first_other(alloc: Global, subs: &SubstitutionTable, cases: &[Case]) -> Option<usize> {
    let types = [int()];
    for (i, (call, waiting, text, left)) in cases.iter().enumerate() {
        let mut sink = TextSink::new(alloc);
        if left_behind(alloc, (*call, *waiting), subs, &types, &mut sink)
            != Ok((*left, waiting.len()))
            || sink.as_str() != *text
        {
            return Some(i);
        }
    }
    None
}

/// The first cases of both tables that come out otherwise.
fn others(alloc: Global) -> Option<(Option<usize>, Option<usize>)> {
    let (_function, subs) = read_type(alloc, ITEMS)?;
    let found = (
        first_other(alloc, &subs, &REFERENCES),
        first_other(alloc, &subs, &OTHERS),
    );
    release_table(subs);
    Some(found)
}

#[test]
fn items_wait_for_what_takes_them(rt: HostRuntime) {
    same(&rt, "both", others(rt.alloc()), Some((None, None)));
}
