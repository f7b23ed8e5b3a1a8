//! Of which kind a node is.

use crate::checks::same;
use crate::printed::read_type;
use demangle_print::DemangleAsInner;
use demangle_release::release_table;
use demangle_scope::TextSink;
use demangle_tree::TypeNode;
use std::alloc::Global;

/// Whether a node is a type, a function's type, an array, a pointer to a member, and qualified.
type Kinds = [bool; 5];

/// Types, of which kinds each is, and of which kinds what it holds.
static CASES: [(&[u8], Kinds, Kinds); 6] = [
    (
        b"Pi",
        [true, false, false, false, false],
        [true, false, false, false, false],
    ),
    (
        b"Ki",
        [true, false, false, false, true],
        [false, false, false, false, false],
    ),
    (
        b"FivE",
        [true, true, false, false, false],
        [false, true, false, false, false],
    ),
    (
        b"A3_i",
        [true, false, true, false, false],
        [false, false, true, false, false],
    ),
    (
        b"M1ai",
        [true, false, false, true, false],
        [false, false, false, true, false],
    ),
    (
        b"Dv4_f",
        [true, false, false, false, false],
        [false, false, false, false, false],
    ),
];

fn kinds<'a, X: DemangleAsInner<'a, TextSink>>(node: &'a X) -> Kinds {
    [
        node.downcast_to_type().is_some(),
        node.downcast_to_function_type().is_some(),
        node.downcast_to_array_type().is_some(),
        node.downcast_to_pointer_to_member().is_some(),
        node.is_qualified(),
    ]
}

/// The kinds of what a type holds; its own where it holds no node that is printed behind others.
fn kinds_inside<'a>(node: &'a TypeNode) -> Kinds {
    match node {
        TypeNode::Function(function) => kinds(function),
        TypeNode::Array(array) => kinds(array),
        TypeNode::PointerToMember(member) => kinds(member),
        TypeNode::Vector(vector) => kinds(vector),
        TypeNode::Qualified(qualifiers, _) => kinds(qualifiers),
        other => kinds(other),
    }
}

fn kinds_of(alloc: Global, bytes: &[u8]) -> Option<(Kinds, Kinds)> {
    let (handle, subs) = read_type(alloc, bytes)?;
    let found = match subs.get_type(&handle) {
        Some(node) => Some((kinds(node), kinds_inside(node))),
        None => None,
    };
    release_table(subs);
    found
}

#[test]
fn a_node_tells_its_kind(rt: HostRuntime) {
    for (bytes, own, inside) in &CASES {
        let found = kinds_of(rt.alloc(), *bytes);
        same(&rt, *bytes, found, Some((*own, *inside)));
    }
}
