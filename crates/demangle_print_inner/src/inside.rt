//! What of an inner item stands behind what is printed before it.

ghost use Rattle.std.specs.Prelude.{◌≡◌, drop, not, Some};
ghost use Rattle.demangle_core.specs.Core.{Core};
ghost use Rattle.demangle_leaf_nodes.specs.TreeLeaves.{tree_of_bare_function_type, tree_of_cv_qualifiers};
ghost use Rattle.demangle_leaf_nodes.specs.TreeLeaves.{tree_of_pointer_to_member_type};
ghost use Rattle.demangle_nodes.specs.TreeNodes.{tree_of_encoding};
ghost use Rattle.demangle_nodes.specs.declared.nodes.Encoding.TheVariants as of_encoding;
ghost use Rattle.demangle_entries.specs.TreeEntries.{tree_of_function_type, tree_of_type_node};
ghost use Rattle.demangle_entries.specs.TreeEntries.{tree_of_vector_type};
ghost use Rattle.demangle_printing.specs.Act.{done, space};
ghost use Rattle.demangle_printing.specs.Reader.{chosen};
ghost use Rattle.demangle_printing.specs.Scope.{Scope};
ghost use Rattle.demangle_printing.specs.State.{is_byte};
ghost use Rattle.demangle_meets.specs.Meets.{Inside, Meets};
ghost use Rattle.demangle_meets.specs.Place.{Place, world_of};
ghost use Rattle.demangle_scope.specs.ItemTree.{item_tree};
ghost use Rattle.demangle_scope.specs.ScopeOf.{scope_of};
ghost use Rattle.demangle_print_below.specs.PageOf.{page};
ghost use Rattle.demangle_print_inner.specs.Behind.{qualifiers_behind};

use crate::arrays::array_inside;
use crate::parameter_lists::{parameters, parameters_steps};
use demangle_print_below::{Below, joined};
use demangle_print_parts::{
    cv_qualifiers, is_qualified, qualifier_words, reference_mark, type_handle, unsigned,
};
use demangle_scope::{
    ArgScopeStack, DemangleContext, DemangleWrite, InnerItem, ScopeItem, scope_push,
};
use demangle_tree::{
    BareFunctionType, CvQualifiers, Encoding, FunctionType, GetTemplateArgs, Name,
    PointerToMemberType, TypeHandle, TypeNode, VectorType,
};

/// All types but the first, which is the result.
fn behind_result(types: &[TypeHandle]) -> &[TypeHandle]
    ensures { result.now ≡ drop 1 types.now }
{
    match types.split_first() {
        None => types,
        Some((_, parameters)) => parameters,
    }
}

/// Behind a function: its parameters. Where its name has template arguments, these are in scope, and the first type is
/// the result.
fn function_inside<'subs, W: DemangleWrite, B: Below<'subs, W>>(
    below: B,
    node: &Encoding,
    name: &'subs Name,
    types: &'subs BareFunctionType,
    scope: Option<ArgScopeStack<'_, 'subs>>,
    ctx: &mut DemangleContext<'subs, '_, W>,
)
    requires can { B.can below }
    requires is { node.now ≡ of_encoding.Function name.now types.now }
    ensures { Inside (B.at below) (page W.seen ctx.old) (page W.seen ctx.new) (tree_of_encoding node.now)
        (scope_of scope.entry) }
{
    // Only the contract speaks of the node.
    let _node = node;
    match name.get_template_args(below.subs()) {
        None => parameters_steps(below, types.0.as_slice(), scope, ctx),
        Some(args) => {
            let inner = scope_push(&scope, ScopeItem::Args(args));
            parameters_steps(below, behind_result(types.0.as_slice()), inner, ctx);
        }
    }
}

/// Behind a function: its parameters. Behind an object: nothing.
fn encoding_inside<'subs, W: DemangleWrite, B: Below<'subs, W>>(
    below: B,
    node: &'subs Encoding,
    scope: Option<ArgScopeStack<'_, 'subs>>,
    ctx: &mut DemangleContext<'subs, '_, W>,
)
    requires { B.can below }
    ensures { Inside (B.at below) (page W.seen ctx.old) (page W.seen ctx.new) (tree_of_encoding node.now)
        (scope_of scope.entry) }
{
    match node {
        Encoding::Function(name, types) => function_inside(below, node, name, types, scope, ctx),
        Encoding::Data(_) => {}
        Encoding::Special(_) => {}
    }
}

/// Behind a qualified type: its qualifiers. Behind a pointer or a reference: its mark.
fn type_inside<'subs, W: DemangleWrite, B: Below<'subs, W>>(
    below: B,
    node: &TypeNode,
    ctx: &mut DemangleContext<'subs, '_, W>,
)
    requires { B.can below }
    ensures { (sc : Scope Core) → Inside (B.at below) (page W.seen ctx.old) (page W.seen ctx.new)
        (tree_of_type_node node.now) sc }
{
    match node {
        TypeNode::Qualified(qualifiers, _) => cv_qualifiers(below, qualifiers, ctx),
        TypeNode::PointerTo(_) => ctx.text("*"),
        TypeNode::LvalueRef(_) => joined("&", ctx),
        TypeNode::RvalueRef(_) => joined("&&", ctx),
        _ => {}
    }
}

/// Qualifiers, where there are any.
fn qualifiers_if<'subs, W: DemangleWrite, B: Below<'subs, W>>(
    below: B,
    node: &CvQualifiers,
    ctx: &mut DemangleContext<'subs, '_, W>,
)
    requires { B.can below }
    ensures { (sc : Scope Core) → Meets (B.at below) (page W.seen ctx.old) (page W.seen ctx.new)
        (qualifiers_behind (world_of (B.at below).refers) (tree_of_cv_qualifiers node.now) sc) }
{
    if is_qualified(node) {
        cv_qualifiers(below, node, ctx);
    }
}

/// Behind the type of a function: its qualifiers, and `&` or `&&`.
fn function_type_inside<'subs, W: DemangleWrite, B: Below<'subs, W>>(
    below: B,
    node: &FunctionType,
    ctx: &mut DemangleContext<'subs, '_, W>,
)
    requires { B.can below }
    ensures { (sc : Scope Core) → Inside (B.at below) (page W.seen ctx.old) (page W.seen ctx.new)
        (tree_of_function_type node.now) sc }
{
    qualifiers_if(below, &node.cv_qualifiers, ctx);
    reference_mark(below, &node.ref_qualifier, ctx);
}

/// Behind the types of a function: its parameters, which are all of them but the result.
fn bare_inside<'subs, W: DemangleWrite, B: Below<'subs, W>>(
    below: B,
    node: &'subs BareFunctionType,
    scope: Option<ArgScopeStack<'_, 'subs>>,
    ctx: &mut DemangleContext<'subs, '_, W>,
)
    requires { B.can below }
    ensures { Inside (B.at below) (page W.seen ctx.old) (page W.seen ctx.new) (tree_of_bare_function_type node.now)
        (scope_of scope.entry) }
{
    parameters(below, behind_result(node.0.as_slice()), scope, ctx);
}

/// Behind a vector: its length.
fn vector_inside<'subs, W: DemangleWrite, B: Below<'subs, W>>(
    below: B,
    node: &'subs VectorType,
    scope: Option<ArgScopeStack<'_, 'subs>>,
    ctx: &mut DemangleContext<'subs, '_, W>,
)
    requires { B.can below }
    ensures { Inside (B.at below) (page W.seen ctx.old) (page W.seen ctx.new) (tree_of_vector_type node.now)
        (scope_of scope.entry) }
{
    match node {
        VectorType::DimensionNumber(length, _) => {
            ctx.text(" __vector(");
            unsigned(*length, ctx);
            ctx.text(")");
        }
        VectorType::DimensionExpression(length, _) => {
            ctx.text(" __vector(");
            below.expression(length, scope, ctx);
            ctx.text(")");
        }
    }
}

/// A space, unless `(` stands there.
fn space_unless_open<'subs, W: DemangleWrite>(ctx: &mut DemangleContext<'subs, '_, W>)
    ensures { (p : Place) → Meets p (page W.seen ctx.old) (page W.seen ctx.new)
        (chosen (not (is_byte 40 (page W.seen ctx.old).last)) (space done) done) }
{
    if !ctx.last_is('(') {
        ctx.space();
    }
}

/// Behind the type of a member: its class and `::*`.
fn member_inside<'subs, W: DemangleWrite, B: Below<'subs, W>>(
    below: B,
    node: &'subs PointerToMemberType,
    scope: Option<ArgScopeStack<'_, 'subs>>,
    ctx: &mut DemangleContext<'subs, '_, W>,
)
    requires { B.can below }
    ensures { Inside (B.at below) (page W.seen ctx.old) (page W.seen ctx.new)
        (tree_of_pointer_to_member_type node.now) (scope_of scope.entry) }
{
    space_unless_open(ctx);
    type_handle(below, &node.0, scope, ctx);
    ctx.text("::*");
}

/// Behind a builtin type: its qualifiers.
fn qualifiers_inside<'subs, W: DemangleWrite, B: Below<'subs, W>>(
    below: B,
    node: &CvQualifiers,
    ctx: &mut DemangleContext<'subs, '_, W>,
)
    requires { B.can below }
    ensures { (sc : Scope Core) → Inside (B.at below) (page W.seen ctx.old) (page W.seen ctx.new)
        (tree_of_cv_qualifiers node.now) sc }
{
    // Only the contract speaks of the place: qualifiers have no parts.
    let _below = below;
    qualifier_words(node, ctx);
}

/// What of an item stands behind, its level entered.
pub fn inner_steps<'subs, W: DemangleWrite, B: Below<'subs, W>>(
    below: B,
    item: InnerItem<'subs>,
    scope: Option<ArgScopeStack<'_, 'subs>>,
    ctx: &mut DemangleContext<'subs, '_, W>,
)
    requires { B.can below }
    ensures { Inside (B.at below) (page W.seen ctx.old) (page W.seen ctx.new) (item_tree item.entry)
        (scope_of scope.entry) }
{
    match item {
        InnerItem::Encoding(node) => encoding_inside(below, node, scope, ctx),
        InnerItem::Node(node) => type_inside(below, node, ctx),
        InnerItem::Function(node) => function_type_inside(below, node, ctx),
        InnerItem::Bare(node) => bare_inside(below, node, scope, ctx),
        InnerItem::Array(node) => array_inside(below, node, scope, ctx),
        InnerItem::Vector(node) => vector_inside(below, node, scope, ctx),
        InnerItem::Member(node) => member_inside(below, node, scope, ctx),
        InnerItem::Qualifiers(node) => qualifiers_inside(below, node, ctx),
    }
}
