//! Inner items: nodes of which a part stands behind what is printed next.

ghost use Rattle.std.specs.Prelude.{◌≡◌, option_map};
ghost use Rattle.demangle_scope.specs.ItemTree.{array_type_in, array_type_of, function_type_in, function_type_of};
ghost use Rattle.demangle_scope.specs.ItemTree.{is_qualified_in, is_qualified_node, member_type_in, member_type_of};
ghost use Rattle.demangle_scope.specs.ItemTree.{item_tree, type_in};
ghost use Rattle.demangle_table.specs.TableOf.{table_of};

use demangle_context::{InnerNode, RefersTo};
use demangle_entries::{
    ArrayType, BareFunctionType, CvQualifiers, Encoding, FunctionType, PointerToMemberType,
    TypeNode, VectorType,
};
use demangle_table::SubstitutionTable;

/// A node of which a part stands behind what is printed next, as the parameters of a function behind its name, or the
/// `*` of a pointer behind the type that it points to. Contracts see it as the node's tree. The original's trait object
/// `DemangleAsInner`.
#[derive(Clone, Copy)]
pub enum InnerItem<'subs> {
    /// A function, `Encoding::Function`: its parameters.
    Encoding(&'subs Encoding),
    /// A pointer, a reference or a qualified type: its mark or its qualifiers.
    Node(&'subs TypeNode),
    /// A function's type: the qualifiers behind its parameters.
    Function(&'subs FunctionType),
    /// The signature of a function's type: its parameters.
    Bare(&'subs BareFunctionType),
    /// An array: its bounds.
    Array(&'subs ArrayType),
    /// A vector: its bounds.
    Vector(&'subs VectorType),
    /// A pointer to a member: its class and mark.
    Member(&'subs PointerToMemberType),
    /// The qualifiers of a builtin type.
    Qualifiers(&'subs CvQualifiers),
}

fn function_type<'subs>(node: &'subs TypeNode) -> Option<&'subs FunctionType>
    ensures { option_map (λ x. x.now) result ≡ function_type_of node.now }
{
    match node {
        TypeNode::Function(function) => Some(function),
        _ => None,
    }
}

fn array_type<'subs>(node: &'subs TypeNode) -> Option<&'subs ArrayType>
    ensures { option_map (λ x. x.now) result ≡ array_type_of node.now }
{
    match node {
        TypeNode::Array(array) => Some(array),
        _ => None,
    }
}

fn pointer_to_member<'subs>(node: &'subs TypeNode) -> Option<&'subs PointerToMemberType>
    ensures { option_map (λ x. x.now) result ≡ member_type_of node.now }
{
    match node {
        TypeNode::PointerToMember(member) => Some(member),
        _ => None,
    }
}

fn is_qualified_type(node: &TypeNode) -> bool
    ensures { result ≡ is_qualified_node node.now }
{
    match node {
        TypeNode::Qualified(_, _) => true,
        _ => false,
    }
}

impl<'subs> InnerItem<'subs> {
    /// The type, where it is one of `TypeNode`. The original's method of this name.
    pub fn downcast_to_type(&self) -> Option<&'subs TypeNode>
        ensures { option_map (λ x. x.now) result ≡ type_in self.now }
    {
        match *self {
            InnerItem::Node(node) => Some(node),
            _ => None,
        }
    }

    /// The function's type, also where a `TypeNode` holds it. The original's method of this name.
    pub fn downcast_to_function_type(&self) -> Option<&'subs FunctionType>
        ensures { option_map (λ x. x.now) result ≡ function_type_in self.now }
    {
        match *self {
            InnerItem::Node(node) => function_type(node),
            InnerItem::Function(function) => Some(function),
            _ => None,
        }
    }

    /// The array, also where a `TypeNode` holds it. The original's method of this name.
    pub fn downcast_to_array_type(&self) -> Option<&'subs ArrayType>
        ensures { option_map (λ x. x.now) result ≡ array_type_in self.now }
    {
        match *self {
            InnerItem::Node(node) => array_type(node),
            InnerItem::Array(array) => Some(array),
            _ => None,
        }
    }

    /// The pointer to a member, also where a `TypeNode` holds it. The original's method of this name.
    pub fn downcast_to_pointer_to_member(&self) -> Option<&'subs PointerToMemberType>
        ensures { option_map (λ x. x.now) result ≡ member_type_in self.now }
    {
        match *self {
            InnerItem::Node(node) => pointer_to_member(node),
            InnerItem::Member(member) => Some(member),
            _ => None,
        }
    }

    /// Whether it is a qualified type. The original's method of this name.
    pub fn is_qualified(&self) -> bool
        ensures { result ≡ is_qualified_in self.now }
    {
        match *self {
            InnerItem::Node(node) => is_qualified_type(node),
            _ => false,
        }
    }
}

impl<'subs> InnerNode for InnerItem<'subs> {
    ghost tree = { item_tree };
}

impl<'subs> RefersTo<SubstitutionTable> for InnerItem<'subs> {
    ghost table = { table_of };
}
