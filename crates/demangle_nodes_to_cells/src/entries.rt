//! Types, prefixes, entries of the table.

ghost use Rattle.demangle_cells.specs.View.{view};
ghost use Rattle.demangle_core.specs.Core.{node};
ghost use Rattle.demangle_entries.specs.TreeEntries.{tree_of_array_type, tree_of_class_enum_type, tree_of_decltype};
ghost use Rattle.demangle_entries.specs.TreeEntries.{tree_of_exception_spec, tree_of_function_type, tree_of_prefix};
ghost use Rattle.demangle_entries.specs.TreeEntries.{tree_of_substitutable, tree_of_type_node};
ghost use Rattle.demangle_entries.specs.TreeEntries.{tree_of_unresolved_type, tree_of_vector_type};
ghost use Rattle.demangle_leaf_nodes.specs.TreeLeaves.{tree_of_option};
ghost use Rattle.demangle_leaves_to_cells.specs.Put.{Put};

use crate::nodes::{expression_to, name_to, optional_template_args_to, template_args_to};
use demangle_cells::{Arena, ListOf, Tag, absent_id};
use demangle_entries::{
    ArrayType, ClassEnumType, Decltype, ExceptionSpec, FunctionType, Prefix, Substitutable,
    TypeNode, UnresolvedType, VectorType,
};
use demangle_leaf_nodes::{TemplateParam, TemplateTemplateParam, UnscopedTemplateName};
use demangle_leaves_to_cells::{
    bare_function_type_to, cv_qualifiers_to, data_member_prefix_to, empty, flag_to, gather,
    number_to, one, optional_ref_qualifier_to, pointer_to_member_type_to, prefix_handle_to,
    source_name_to, template_param_to, template_template_param_handle_to,
    template_template_param_to, three, two, type_handle_to, unqualified_name_to,
    unscoped_template_name_to, wait,
};
use demangle_nodes::Expression;
use demangle_text::Result;

/// Puts the node into the arena: the index of its tree. `OutOfMemory` is its only refusal.
pub fn decltype_to(arena: &mut Arena, node: &Decltype) -> Result<u32>
    ensures { Put (view arena.old) (view arena.new) result (tree_of_decltype node.now) }
{
    match node {
        Decltype::IdExpression(first) => {
            let first = expression_to(arena, first);
            one(arena, Tag::DecltypeIdExpression, first)
        }
        Decltype::Expression(first) => {
            let first = expression_to(arena, first);
            one(arena, Tag::DecltypeExpression, first)
        }
    }
}

/// Puts the node into the arena: the index of its tree. `OutOfMemory` is its only refusal.
pub fn prefix_to(arena: &mut Arena, node: &Prefix) -> Result<u32>
    ensures { Put (view arena.old) (view arena.new) result (tree_of_prefix node.now) }
{
    match node {
        Prefix::Unqualified(first) => {
            let first = unqualified_name_to(arena, first);
            one(arena, Tag::PrefixUnqualified, first)
        }
        Prefix::Nested(first, second) => {
            let first = prefix_handle_to(arena, first);
            let second = unqualified_name_to(arena, second);
            two(arena, Tag::PrefixNested, first, second)
        }
        Prefix::Template(first, second) => {
            let first = prefix_handle_to(arena, first);
            let second = template_args_to(arena, second);
            two(arena, Tag::PrefixTemplate, first, second)
        }
        Prefix::TemplateParam(first) => {
            let first = template_param_to(arena, first);
            one(arena, Tag::PrefixTemplateParam, first)
        }
        Prefix::Decltype(first) => {
            let first = decltype_to(arena, first);
            one(arena, Tag::PrefixDecltype, first)
        }
        Prefix::DataMember(first, second) => {
            let first = prefix_handle_to(arena, first);
            let second = data_member_prefix_to(arena, second);
            two(arena, Tag::PrefixDataMember, first, second)
        }
    }
}

/// Puts the node into the arena: the index of its tree. `OutOfMemory` is its only refusal.
pub fn array_type_to(arena: &mut Arena, node: &ArrayType) -> Result<u32>
    ensures { Put (view arena.old) (view arena.new) result (tree_of_array_type node.now) }
{
    match node {
        ArrayType::DimensionNumber(first, second) => {
            let first = number_to(arena, *first);
            let second = type_handle_to(arena, second);
            two(arena, Tag::ArrayTypeDimensionNumber, first, second)
        }
        ArrayType::DimensionExpression(first, second) => {
            let first = expression_to(arena, first);
            let second = type_handle_to(arena, second);
            two(arena, Tag::ArrayTypeDimensionExpression, first, second)
        }
        ArrayType::NoDimension(first) => {
            let first = type_handle_to(arena, first);
            one(arena, Tag::ArrayTypeNoDimension, first)
        }
    }
}

/// Puts the node into the arena: the index of its tree. `OutOfMemory` is its only refusal.
pub fn vector_type_to(arena: &mut Arena, node: &VectorType) -> Result<u32>
    ensures { Put (view arena.old) (view arena.new) result (tree_of_vector_type node.now) }
{
    match node {
        VectorType::DimensionNumber(first, second) => {
            let first = number_to(arena, *first);
            let second = type_handle_to(arena, second);
            two(arena, Tag::VectorTypeDimensionNumber, first, second)
        }
        VectorType::DimensionExpression(first, second) => {
            let first = expression_to(arena, first);
            let second = type_handle_to(arena, second);
            two(arena, Tag::VectorTypeDimensionExpression, first, second)
        }
    }
}

/// Puts the node into the arena: the index of its tree. `OutOfMemory` is its only refusal.
pub fn class_enum_type_to(arena: &mut Arena, node: &ClassEnumType) -> Result<u32>
    ensures { Put (view arena.old) (view arena.new) result (tree_of_class_enum_type node.now) }
{
    match node {
        ClassEnumType::Named(first) => {
            let first = name_to(arena, first);
            one(arena, Tag::ClassEnumTypeNamed, first)
        }
        ClassEnumType::ElaboratedStruct(first) => {
            let first = name_to(arena, first);
            one(arena, Tag::ClassEnumTypeElaboratedStruct, first)
        }
        ClassEnumType::ElaboratedUnion(first) => {
            let first = name_to(arena, first);
            one(arena, Tag::ClassEnumTypeElaboratedUnion, first)
        }
        ClassEnumType::ElaboratedEnum(first) => {
            let first = name_to(arena, first);
            one(arena, Tag::ClassEnumTypeElaboratedEnum, first)
        }
    }
}

/// Puts the node into the arena: the index of its tree. `OutOfMemory` is its only refusal.
pub fn exception_spec_to(arena: &mut Arena, node: &ExceptionSpec) -> Result<u32>
    ensures { Put (view arena.old) (view arena.new) result (tree_of_exception_spec node.now) }
{
    match node {
        ExceptionSpec::NoExcept => empty(arena, Tag::ExceptionSpecNoExcept),
        ExceptionSpec::Computed(first) => {
            let first = expression_to(arena, first);
            one(arena, Tag::ExceptionSpecComputed, first)
        }
    }
}

/// Puts the node into the arena: the index of its tree. `OutOfMemory` is its only refusal.
pub fn function_type_to(arena: &mut Arena, node: &FunctionType) -> Result<u32>
    ensures { Put (view arena.old) (view arena.new) result (tree_of_function_type node.now) }
{
    let from = arena.waiting();
    let cv_qualifiers = cv_qualifiers_to(arena, &node.cv_qualifiers);
    let until_cv_qualifiers = wait(arena, Ok(()), cv_qualifiers);
    let exception_spec = optional_exception_spec_to(arena, &node.exception_spec);
    let until_exception_spec = wait(arena, until_cv_qualifiers, exception_spec);
    let transaction_safe = flag_to(arena, node.transaction_safe);
    let until_transaction_safe = wait(arena, until_exception_spec, transaction_safe);
    let extern_c = flag_to(arena, node.extern_c);
    let until_extern_c = wait(arena, until_transaction_safe, extern_c);
    let bare = bare_function_type_to(arena, &node.bare);
    let until_bare = wait(arena, until_extern_c, bare);
    let ref_qualifier = optional_ref_qualifier_to(arena, &node.ref_qualifier);
    let until_ref_qualifier = wait(arena, until_bare, ref_qualifier);
    gather(
        arena,
        from,
        ListOf::Node(Tag::FunctionType),
        until_ref_qualifier,
    )
}

/// Puts the node into the arena: the index of its tree. `OutOfMemory` is its only refusal.
pub fn type_node_to(arena: &mut Arena, node: &TypeNode) -> Result<u32>
    ensures { Put (view arena.old) (view arena.new) result (tree_of_type_node node.now) }
{
    match node {
        TypeNode::Function(first) => {
            let first = function_type_to(arena, first);
            one(arena, Tag::TypeNodeFunction, first)
        }
        TypeNode::ClassEnum(first) => {
            let first = class_enum_type_to(arena, first);
            one(arena, Tag::TypeNodeClassEnum, first)
        }
        TypeNode::Array(first) => {
            let first = array_type_to(arena, first);
            one(arena, Tag::TypeNodeArray, first)
        }
        TypeNode::Vector(first) => {
            let first = vector_type_to(arena, first);
            one(arena, Tag::TypeNodeVector, first)
        }
        TypeNode::PointerToMember(first) => {
            let first = pointer_to_member_type_to(arena, first);
            one(arena, Tag::TypeNodePointerToMember, first)
        }
        TypeNode::TemplateParam(first) => {
            let first = template_param_to(arena, first);
            one(arena, Tag::TypeNodeTemplateParam, first)
        }
        TypeNode::TemplateTemplate(first, second) => {
            let first = template_template_param_handle_to(arena, first);
            let second = template_args_to(arena, second);
            two(arena, Tag::TypeNodeTemplateTemplate, first, second)
        }
        TypeNode::Decltype(first) => {
            let first = decltype_to(arena, first);
            one(arena, Tag::TypeNodeDecltype, first)
        }
        TypeNode::Qualified(first, second) => {
            let first = cv_qualifiers_to(arena, first);
            let second = type_handle_to(arena, second);
            two(arena, Tag::TypeNodeQualified, first, second)
        }
        TypeNode::VendorExtension(first, second, third) => {
            let first = source_name_to(arena, first);
            let second = optional_template_args_to(arena, second);
            let third = type_handle_to(arena, third);
            three(arena, Tag::TypeNodeVendorExtension, first, second, third)
        }
        TypeNode::PointerTo(first) => {
            let first = type_handle_to(arena, first);
            one(arena, Tag::TypeNodePointerTo, first)
        }
        TypeNode::LvalueRef(first) => {
            let first = type_handle_to(arena, first);
            one(arena, Tag::TypeNodeLvalueRef, first)
        }
        TypeNode::RvalueRef(first) => {
            let first = type_handle_to(arena, first);
            one(arena, Tag::TypeNodeRvalueRef, first)
        }
        TypeNode::Complex(first) => {
            let first = type_handle_to(arena, first);
            one(arena, Tag::TypeNodeComplex, first)
        }
        TypeNode::Imaginary(first) => {
            let first = type_handle_to(arena, first);
            one(arena, Tag::TypeNodeImaginary, first)
        }
        TypeNode::PackExpansion(first) => {
            let first = type_handle_to(arena, first);
            one(arena, Tag::TypeNodePackExpansion, first)
        }
    }
}

/// Puts the node into the arena: the index of its tree. `OutOfMemory` is its only refusal.
pub fn unresolved_type_to(arena: &mut Arena, node: &UnresolvedType) -> Result<u32>
    ensures { Put (view arena.old) (view arena.new) result (tree_of_unresolved_type node.now) }
{
    match node {
        UnresolvedType::Template(first, second) => {
            let first = template_param_to(arena, first);
            let second = optional_template_args_to(arena, second);
            two(arena, Tag::UnresolvedTypeTemplate, first, second)
        }
        UnresolvedType::Decltype(first) => {
            let first = decltype_to(arena, first);
            one(arena, Tag::UnresolvedTypeDecltype, first)
        }
    }
}

/// Puts the node into the arena: the index of its tree. `OutOfMemory` is its only refusal.
pub fn substitutable_to(arena: &mut Arena, node: &Substitutable) -> Result<u32>
    ensures { Put (view arena.old) (view arena.new) result (tree_of_substitutable node.now) }
{
    match node {
        Substitutable::UnscopedTemplateName(first) => {
            let first = unscoped_template_name_to(arena, first);
            one(arena, Tag::SubstitutableUnscopedTemplateName, first)
        }
        Substitutable::TypeNode(first) => {
            let first = type_node_to(arena, first);
            one(arena, Tag::SubstitutableTypeNode, first)
        }
        Substitutable::TemplateTemplateParam(first) => {
            let first = template_template_param_to(arena, first);
            one(arena, Tag::SubstitutableTemplateTemplateParam, first)
        }
        Substitutable::UnresolvedType(first) => {
            let first = unresolved_type_to(arena, first);
            one(arena, Tag::SubstitutableUnresolvedType, first)
        }
        Substitutable::Prefix(first) => {
            let first = prefix_to(arena, first);
            one(arena, Tag::SubstitutablePrefix, first)
        }
        Substitutable::Expression(first) => {
            let first = expression_to(arena, first);
            one(arena, Tag::SubstitutableExpression, first)
        }
    }
}

/// The same of a part that may not be there.
pub fn optional_exception_spec_to(arena: &mut Arena, node: &Option<ExceptionSpec>) -> Result<u32>
    ensures { Put (view arena.old) (view arena.new) result (tree_of_option tree_of_exception_spec node.now) }
{
    match node {
        None => Ok(absent_id()),
        Some(part) => {
            let part = exception_spec_to(arena, part);
            one(arena, Tag::Present, part)
        }
    }
}
