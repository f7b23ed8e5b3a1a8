//! Lines of types.

ghost use Rattle.std.specs.Prelude.{Some};
ghost use Rattle.demangle_leaf_nodes.specs.TreeLeaves.{tree_of_option, tree_of_pointer_to_member_type};
ghost use Rattle.demangle_leaf_nodes.specs.TreeLeaves.{tree_of_source_name, tree_of_template_template_param_handle};
ghost use Rattle.demangle_leaf_nodes.specs.TreeLeaves.{tree_of_type_handle};
ghost use Rattle.demangle_nodes.specs.TreeNodes.{tree_of_name, tree_of_template_args};
ghost use Rattle.demangle_entries.specs.TreeEntries.{tree_of_array_type, tree_of_class_enum_type, tree_of_type_node};
ghost use Rattle.demangle_entries.specs.TreeEntries.{tree_of_vector_type};
ghost use Rattle.demangle_meets.specs.Meets.{Line, Meets, Prints};
ghost use Rattle.demangle_meets.specs.Place.{world_of};
ghost use Rattle.demangle_scope.specs.ItemTree.{item_tree};
ghost use Rattle.demangle_scope.specs.ScopeOf.{scope_of};
ghost use Rattle.demangle_print_below.specs.PageOf.{page};
ghost use Rattle.demangle_print_types.specs.Pieces.{expansion, extended, in_midst, part_and_word, two_parts};
ghost use Rattle.demangle_print_types.specs.Pieces.{word_and_part};

use crate::functions::function_type;
use demangle_print_below::{Below, close};
use demangle_print_parts::{
    decltype, optional_template_args, source_name, template_args, template_param,
    template_template_param_handle, type_handle,
};
use demangle_scope::{ArgScopeStack, DemangleContext, DemangleWrite, InnerItem, PrintFlag};
use demangle_tree::{
    ArrayType, ClassEnumType, Name, PointerToMemberType, SourceName, TemplateArgs,
    TemplateTemplateParamHandle, TypeHandle, TypeNode, VectorType,
};

/// A type in the midst of an item, and what of the item stands behind it, unless something within printed that already.
fn around<'subs, W: DemangleWrite, B: Below<'subs, W>>(
    below: B,
    item: InnerItem<'subs>,
    handle: &'subs TypeHandle,
    scope: Option<ArgScopeStack<'_, 'subs>>,
    ctx: &mut DemangleContext<'subs, '_, W>,
)
    requires { B.can below }
    ensures { Meets (B.at below) (page W.seen ctx.old) (page W.seen ctx.new)
        (in_midst (world_of (B.at below).refers) (item_tree item.entry) (tree_of_type_handle handle.now)
        (scope_of scope.entry)) }
{
    ctx.hold(item, below.level());
    type_handle(below, handle, scope, ctx);
    close(below, item, scope, ctx);
}

/// A type and a word behind it.
fn with_word<'subs, W: DemangleWrite, B: Below<'subs, W>>(
    below: B,
    handle: &'subs TypeHandle,
    word: &str,
    scope: Option<ArgScopeStack<'_, 'subs>>,
    ctx: &mut DemangleContext<'subs, '_, W>,
)
    requires { B.can below }
    ensures { Meets (B.at below) (page W.seen ctx.old) (page W.seen ctx.new)
        (part_and_word (world_of (B.at below).refers) (tree_of_type_handle handle.now) word.now
        (scope_of scope.entry)) }
{
    type_handle(below, handle, scope, ctx);
    ctx.text(word);
}

/// A template template parameter and its arguments.
fn template_template<'subs, W: DemangleWrite, B: Below<'subs, W>>(
    below: B,
    handle: &'subs TemplateTemplateParamHandle,
    args: &'subs TemplateArgs,
    scope: Option<ArgScopeStack<'_, 'subs>>,
    ctx: &mut DemangleContext<'subs, '_, W>,
)
    requires { B.can below }
    ensures { Meets (B.at below) (page W.seen ctx.old) (page W.seen ctx.new)
        (two_parts (world_of (B.at below).refers) (tree_of_template_template_param_handle handle.now)
        (tree_of_template_args args.now) (scope_of scope.entry)) }
{
    template_template_param_handle(below, handle, scope, ctx);
    template_args(below, args, scope, ctx);
}

/// A type, and behind it a vendor's qualifier with its template arguments.
fn vendor_extension<'subs, W: DemangleWrite, B: Below<'subs, W>>(
    below: B,
    name: &SourceName,
    args: &'subs Option<TemplateArgs>,
    handle: &'subs TypeHandle,
    scope: Option<ArgScopeStack<'_, 'subs>>,
    ctx: &mut DemangleContext<'subs, '_, W>,
)
    requires { B.can below }
    ensures { Meets (B.at below) (page W.seen ctx.old) (page W.seen ctx.new)
        (extended (world_of (B.at below).refers) (tree_of_type_handle handle.now) (tree_of_source_name name.now)
        (tree_of_option tree_of_template_args args.now) (scope_of scope.entry)) }
{
    type_handle(below, handle, scope, ctx);
    ctx.text(" ");
    source_name(below, name, ctx);
    optional_template_args(below, args, scope, ctx);
}

/// The pattern of a pack, with dots behind it unless a pack was printed member by member.
fn pack_expansion<'subs, W: DemangleWrite, B: Below<'subs, W>>(
    below: B,
    handle: &'subs TypeHandle,
    scope: Option<ArgScopeStack<'_, 'subs>>,
    ctx: &mut DemangleContext<'subs, '_, W>,
)
    requires { B.can below }
    ensures { Meets (B.at below) (page W.seen ctx.old) (page W.seen ctx.new)
        (expansion (world_of (B.at below).refers) (tree_of_type_handle handle.now) (scope_of scope.entry)) }
{
    type_handle(below, handle, scope, ctx);
    if !ctx.is_on(PrintFlag::Pack) {
        ctx.text("...");
    }
}

/// A type of the table, its level entered.
pub fn type_node_steps<'subs, W: DemangleWrite, B: Below<'subs, W>>(
    below: B,
    node: &'subs TypeNode,
    scope: Option<ArgScopeStack<'_, 'subs>>,
    ctx: &mut DemangleContext<'subs, '_, W>,
)
    requires { B.can below }
    ensures { Line (B.at below) (page W.seen ctx.old) (page W.seen ctx.new) (tree_of_type_node node.now)
        (scope_of scope.entry) }
{
    match node {
        TypeNode::Function(function) => function_type(below, function, scope, ctx),
        TypeNode::ClassEnum(class) => class_enum_type(below, class, scope, ctx),
        TypeNode::Array(array) => array_type(below, array, scope, ctx),
        TypeNode::Vector(vector) => vector_type(below, vector, scope, ctx),
        TypeNode::PointerToMember(member) => pointer_to_member_type(below, member, scope, ctx),
        TypeNode::TemplateParam(param) => template_param(below, param, scope, ctx),
        TypeNode::TemplateTemplate(ty, args) => template_template(below, ty, args, scope, ctx),
        TypeNode::Decltype(ty) => decltype(below, ty, scope, ctx),
        TypeNode::Qualified(_, ty) => around(below, InnerItem::Node(node), ty, scope, ctx),
        TypeNode::VendorExtension(name, args, ty) => {
            vendor_extension(below, name, args, ty, scope, ctx);
        }
        TypeNode::PointerTo(ty) => around(below, InnerItem::Node(node), ty, scope, ctx),
        TypeNode::LvalueRef(ty) => around(below, InnerItem::Node(node), ty, scope, ctx),
        TypeNode::RvalueRef(ty) => around(below, InnerItem::Node(node), ty, scope, ctx),
        TypeNode::Complex(ty) => with_word(below, ty, " complex", scope, ctx),
        TypeNode::Imaginary(ty) => with_word(below, ty, " imaginary", scope, ctx),
        TypeNode::PackExpansion(ty) => pack_expansion(below, ty, scope, ctx),
    }
}

/// A type of the table.
pub fn type_node<'subs, W: DemangleWrite, B: Below<'subs, W>>(
    below: B,
    node: &'subs TypeNode,
    scope: Option<ArgScopeStack<'_, 'subs>>,
    ctx: &mut DemangleContext<'subs, '_, W>,
)
    requires { B.can below }
    ensures { Prints (B.at below) (page W.seen ctx.old) (page W.seen ctx.new) (tree_of_type_node node.now)
        (scope_of scope.entry) }
{
    let Some(below) = below.enter(ctx) else {
        return;
    };
    type_node_steps(below, node, scope, ctx);
}

/// A name with its keyword before it.
fn elaborated<'subs, W: DemangleWrite, B: Below<'subs, W>>(
    below: B,
    keyword: &str,
    name: &'subs Name,
    scope: Option<ArgScopeStack<'_, 'subs>>,
    ctx: &mut DemangleContext<'subs, '_, W>,
)
    requires { B.can below }
    ensures { Meets (B.at below) (page W.seen ctx.old) (page W.seen ctx.new)
        (word_and_part (world_of (B.at below).refers) keyword.now (tree_of_name name.now) (scope_of scope.entry)) }
{
    ctx.text(keyword);
    below.name(name, scope, ctx);
}

/// A class, a union or an enumeration.
pub fn class_enum_type<'subs, W: DemangleWrite, B: Below<'subs, W>>(
    below: B,
    node: &'subs ClassEnumType,
    scope: Option<ArgScopeStack<'_, 'subs>>,
    ctx: &mut DemangleContext<'subs, '_, W>,
)
    requires { B.can below }
    ensures { Prints (B.at below) (page W.seen ctx.old) (page W.seen ctx.new) (tree_of_class_enum_type node.now)
        (scope_of scope.entry) }
{
    let Some(below) = below.enter(ctx) else {
        return;
    };
    match node {
        ClassEnumType::Named(name) => below.name(name, scope, ctx),
        ClassEnumType::ElaboratedStruct(name) => elaborated(below, "class ", name, scope, ctx),
        ClassEnumType::ElaboratedUnion(name) => elaborated(below, "union ", name, scope, ctx),
        ClassEnumType::ElaboratedEnum(name) => elaborated(below, "enum ", name, scope, ctx),
    }
}

/// An array: its bounds stand behind its elements.
pub fn array_type<'subs, W: DemangleWrite, B: Below<'subs, W>>(
    below: B,
    node: &'subs ArrayType,
    scope: Option<ArgScopeStack<'_, 'subs>>,
    ctx: &mut DemangleContext<'subs, '_, W>,
)
    requires { B.can below }
    ensures { Prints (B.at below) (page W.seen ctx.old) (page W.seen ctx.new) (tree_of_array_type node.now)
        (scope_of scope.entry) }
{
    let Some(below) = below.enter(ctx) else {
        return;
    };
    let item = InnerItem::Array(node);
    match node {
        ArrayType::DimensionNumber(_, ty) => around(below, item, ty, scope, ctx),
        ArrayType::DimensionExpression(_, ty) => around(below, item, ty, scope, ctx),
        ArrayType::NoDimension(ty) => around(below, item, ty, scope, ctx),
    }
}

/// A vector: its length stands behind its elements.
pub fn vector_type<'subs, W: DemangleWrite, B: Below<'subs, W>>(
    below: B,
    node: &'subs VectorType,
    scope: Option<ArgScopeStack<'_, 'subs>>,
    ctx: &mut DemangleContext<'subs, '_, W>,
)
    requires { B.can below }
    ensures { Prints (B.at below) (page W.seen ctx.old) (page W.seen ctx.new) (tree_of_vector_type node.now)
        (scope_of scope.entry) }
{
    let Some(below) = below.enter(ctx) else {
        return;
    };
    let item = InnerItem::Vector(node);
    match node {
        VectorType::DimensionNumber(_, ty) => around(below, item, ty, scope, ctx),
        VectorType::DimensionExpression(_, ty) => around(below, item, ty, scope, ctx),
    }
}

/// A pointer to a member: its class and its mark stand behind the member's type.
pub fn pointer_to_member_type<'subs, W: DemangleWrite, B: Below<'subs, W>>(
    below: B,
    node: &'subs PointerToMemberType,
    scope: Option<ArgScopeStack<'_, 'subs>>,
    ctx: &mut DemangleContext<'subs, '_, W>,
)
    requires { B.can below }
    ensures { Prints (B.at below) (page W.seen ctx.old) (page W.seen ctx.new)
        (tree_of_pointer_to_member_type node.now) (scope_of scope.entry) }
{
    let Some(below) = below.enter(ctx) else {
        return;
    };
    around(below, InnerItem::Member(node), &node.1, scope, ctx);
}
