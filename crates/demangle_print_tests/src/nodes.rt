//! Single nodes: what stands behind them, leaf names, flags, components.

use crate::checks::same;
use crate::printed::{constant, int, read_type};
use demangle_print::{Demangle, DemangleAsInner, DemangleAsLeaf, demangle_args, demangle_inner};
use demangle_release::release_table;
use demangle_scope::{DemangleContext, DemangleError, DemangleOptions, InnerItem, TextSink};
use demangle_text::Error;
use demangle_tree::{
    BuiltinType, LeafName, NonSubstitution, OperatorName, QualifiedBuiltin, SubstitutionTable,
    TemplateParam, TypeHandle, TypeNode, UnnamedTypeName,
};
use demangle_vocab::{StandardBuiltinType, WellKnownComponent};
use std::alloc::Global;

/// What is printed, and with which flag: of the first component of a type, of the first of its second list, or of nodes
/// that reading doesn't make.
#[derive(Clone, Copy)]
enum Call {
    AsInner,
    Inner,
    Args,
    Leaf,
    LeafOfComponent,
    LeafOfUnnamed,
    ArgsWithObject,
    Parameter,
    ParameterOfClosure,
    PackInPack,
    QualifiedBuiltin,
    Cast,
    Component,
    OtherComponent,
}

/// A call, the type, and what it writes or answers.
type Case = (Call, &'static [u8], Result<&'static str, DemangleError>);

static CASES: [Case; 19] = [
    (Call::AsInner, b"Pi", Ok("*")),
    (Call::Inner, b"Pi", Ok("*")),
    (Call::Args, b"i", Ok("(int)")),
    (Call::ArgsWithObject, b"i", Ok("(this int)")),
    (Call::Leaf, b"i", Ok("string")),
    (Call::LeafOfComponent, b"i", Ok("string")),
    (Call::LeafOfUnnamed, b"i", Ok("{unnamed type#4}")),
    (
        Call::Parameter,
        b"i",
        Err(DemangleError::Reference(Error::BadTemplateArgReference)),
    ),
    (Call::ParameterOfClosure, b"i", Ok("auto:5")),
    (Call::PackInPack, b"Dpi", Ok("int")),
    (Call::QualifiedBuiltin, b"i", Ok("int const")),
    (Call::Cast, b"i", Ok(" int")),
    (Call::OtherComponent, b"N1a1bE", Ok("a::b")),
    (Call::Component, b"Pi", Ok("int*")),
    (Call::Component, b"Dpi", Ok("int...")),
    (Call::Component, b"NT3_1aE", Ok("auto:5")),
    (Call::Component, b"DTsrT3_1aE", Ok("auto:5")),
    (Call::Component, b"T3_IiE", Ok("auto:5")),
    (Call::Component, b"1aIiE", Ok("a")),
];

/// Nodes that own no other.
#[derive(Clone, Copy)]
struct Leaves {
    types: [TypeHandle; 1],
    word: WellKnownComponent,
    unnamed: UnnamedTypeName,
    parameter: TemplateParam,
    qualified: QualifiedBuiltin,
    cast: OperatorName,
    other: NonSubstitution,
}

fn sample_leaves() -> Leaves {
    Leaves {
        types: [int()],
        word: WellKnownComponent::StdString2,
        unnamed: UnnamedTypeName(Some(3)),
        parameter: TemplateParam(4),
        qualified: QualifiedBuiltin(constant(), BuiltinType::Standard(StandardBuiltinType::Int)),
        cast: OperatorName::Cast(int()),
        other: NonSubstitution(0),
    }
}

fn first_type(nodes: &SubstitutionTable) -> Option<&TypeNode> {
    nodes.get_type(&TypeHandle::BackReference(0))
}

fn done<'a>(
    call: Call,
    nodes: &'a SubstitutionTable,
    leaves: &'a Leaves,
    ctx: &mut DemangleContext<'a, '_, TextSink>,
) -> Option<Result<(), DemangleError>> {
    Some(match call {
        Call::AsInner => first_type(nodes)?.demangle_as_inner(ctx, None),
        Call::Inner => demangle_inner(InnerItem::Node(first_type(nodes)?), ctx, None),
        Call::Args | Call::ArgsWithObject => demangle_args(&leaves.types, ctx, None),
        Call::Leaf => LeafName::WellKnownComponent(&leaves.word).demangle_as_leaf(ctx),
        Call::LeafOfComponent => leaves.word.demangle_as_leaf(ctx),
        Call::LeafOfUnnamed => leaves.unnamed.demangle_as_leaf(ctx),
        Call::Parameter | Call::ParameterOfClosure => leaves.parameter.demangle(ctx, None),
        Call::PackInPack => first_type(nodes)?.demangle(ctx, None),
        Call::QualifiedBuiltin => leaves.qualified.demangle(ctx, None),
        Call::Cast => leaves.cast.demangle(ctx, None),
        Call::Component => nodes.get(0)?.demangle(ctx, None),
        Call::OtherComponent => leaves.other.demangle(ctx, None),
    })
}

fn turn_on(call: Call, ctx: &mut DemangleContext<'_, '_, TextSink>) {
    match call {
        Call::ArgsWithObject => ctx.flags.object = true,
        Call::ParameterOfClosure | Call::Component => ctx.flags.lambda = true,
        Call::PackInPack => ctx.flags.pack = true,
        _ => {}
    }
}

/// Whether a call is over the table of the type, and not over an empty one.
fn has_table(call: Call) -> bool {
    match call {
        Call::Component | Call::OtherComponent => true,
        _ => false,
    }
}

/// What a call answers in a new context, with no scope.
fn answer<'a>(
    alloc: Global,
    (call, bytes): (Call, &'a [u8]),
    nodes: &'a SubstitutionTable,
    empty: &'a SubstitutionTable,
    leaves: &'a Leaves,
    sink: &mut TextSink,
) -> Option<Result<(), DemangleError>> {
    let subs = if has_table(call) { nodes } else { empty };
    let mut ctx = DemangleContext::new(alloc, subs, bytes, DemangleOptions::new(), sink).ok()?;
    turn_on(call, &mut ctx);
    done(call, nodes, leaves, &mut ctx)
}

fn is_answer(alloc: Global, case: Case) -> Option<bool> {
    let (call, bytes, wanted) = case;
    let (_type, nodes) = read_type(alloc, bytes)?;
    let empty = SubstitutionTable::new(alloc);
    let leaves = sample_leaves();
    let mut sink = TextSink::new(alloc);
    let answer = answer(alloc, (call, bytes), &nodes, &empty, &leaves, &mut sink);
    release_table(nodes);
    release_table(empty);
    Some(match wanted {
        Ok(text) => answer == Some(Ok(())) && sink.as_str() == text,
        Err(error) => answer == Some(Err(error)),
    })
}

#[test]
fn a_node_is_printed_by_itself(rt: HostRuntime) {
    for (i, case) in CASES.iter().enumerate() {
        same(&rt, i, is_answer(rt.alloc(), *case), Some(true));
    }
}
