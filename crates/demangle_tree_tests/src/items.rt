//! Inner items: what node each borrows.

use crate::checks::same;
use crate::reading::table_of;
use demangle_entries::{ClassEnumType, LocalName, Name, TypeHandle, TypeNode};
use demangle_release::release_table;
use demangle_scope::InnerItem;
use std::alloc::Global;

/// Whether an item is a type, a function's type, an array, a pointer to a member, and qualified.
type Kinds = [bool; 5];

/// A type whose first components are of all kinds.
const TYPES: &[u8] = b"FvPiKiA3_iMiiDv4_iKFivEFYivEZ1fvE1aE";

/// A component, the kinds of it, and those of what it holds.
static CASES: [(usize, Kinds, Kinds); 8] = [
    (
        0,
        [true, false, false, false, false],
        [true, false, false, false, false],
    ),
    (
        1,
        [true, false, false, false, true],
        [false, false, false, false, false],
    ),
    (
        2,
        [true, false, true, false, false],
        [false, false, true, false, false],
    ),
    (
        3,
        [true, false, false, true, false],
        [false, false, false, true, false],
    ),
    (
        4,
        [true, false, false, false, false],
        [false, false, false, false, false],
    ),
    (
        5,
        [true, true, false, false, false],
        [false, true, false, false, false],
    ),
    (
        6,
        [true, true, false, false, false],
        [false, false, false, false, false],
    ),
    (
        7,
        [true, false, false, false, false],
        [false, false, false, false, false],
    ),
];

fn kinds(item: InnerItem<'_>) -> Kinds {
    [
        item.downcast_to_type().is_some(),
        item.downcast_to_function_type().is_some(),
        item.downcast_to_array_type().is_some(),
        item.downcast_to_pointer_to_member().is_some(),
        item.is_qualified(),
    ]
}

/// What the type holds: of a function of C its parameters, of a local class the function that it is in; itself where it
/// holds no node that may be an item.
fn inside(node: &TypeNode) -> InnerItem<'_> {
    match node {
        TypeNode::Function(function) if function.extern_c => InnerItem::Bare(&function.bare),
        TypeNode::Function(function) => InnerItem::Function(function),
        TypeNode::Array(array) => InnerItem::Array(array),
        TypeNode::Vector(vector) => InnerItem::Vector(vector),
        TypeNode::PointerToMember(member) => InnerItem::Member(member),
        TypeNode::Qualified(qualifiers, _) => InnerItem::Qualifiers(qualifiers),
        TypeNode::ClassEnum(ClassEnumType::Named(name)) => match &**name {
            Name::Local(LocalName::Relative(encoding, _, _)) => InnerItem::Encoding(encoding),
            _ => InnerItem::Node(node),
        },
        _ => InnerItem::Node(node),
    }
}

/// The number of a case that comes out otherwise.
fn wrong(alloc: Global) -> Option<Option<usize>> {
    let subs = table_of(alloc, TYPES)?;
    let mut wrong = None;
    for (i, (idx, own, held)) in CASES.iter().enumerate() {
        let found = match subs.get_type(&TypeHandle::BackReference(*idx)) {
            Some(node) => Some((kinds(InnerItem::Node(node)), kinds(inside(node)))),
            None => None,
        };
        if found != Some((*own, *held)) {
            wrong = Some(i);
        }
    }
    release_table(subs);
    Some(wrong)
}

#[test]
fn an_item_answers_for_its_node(rt: HostRuntime) {
    same(&rt, "all", wrong(rt.alloc()), Some(None));
}
