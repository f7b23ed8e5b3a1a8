//! Types, prefixes, entries of the table.

ghost use Rattle.demangle_cells.specs.View.{Holds, view};
ghost use Rattle.demangle_core.specs.Core.{Core};
ghost use Rattle.demangle_entries.specs.TreeEntries.{tree_of_array_type, tree_of_class_enum_type, tree_of_decltype};
ghost use Rattle.demangle_entries.specs.TreeEntries.{tree_of_exception_spec, tree_of_function_type, tree_of_prefix};
ghost use Rattle.demangle_entries.specs.TreeEntries.{tree_of_substitutable, tree_of_type_node};
ghost use Rattle.demangle_entries.specs.TreeEntries.{tree_of_unresolved_type, tree_of_vector_type};
ghost use Rattle.demangle_leaf_nodes.specs.TreeLeaves.{tree_of_option};
ghost use Rattle.demangle_nodes.specs.TreeNodes.{tree_of_template_args};
ghost use Rattle.demangle_text.specs.declared.error.Error.TheVariants.{OutOfMemory};
ghost use Rattle.std.specs.Prelude.{IfErr, IfOk, ℕ, ◌≡◌};

use crate::nodes::template_args_from;
use crate::parts::{boxed, kept};
use crate::tie::{expression_from, name_from};
use demangle_cells::{Arena, Plain, Tag};
use demangle_entries::{
    ArrayType, ClassEnumType, Decltype, ExceptionSpec, FunctionType, Prefix, Substitutable,
    TemplateArgs, TypeNode, UnresolvedType, VectorType,
};
use demangle_leaves_from_cells::{
    bare_function_type_from, count_from, cv_qualifiers_from, data_member_prefix_from, flag_from,
    optional_ref_qualifier_from, pointer_to_member_type_from, prefix_handle_from, six_parts,
    source_name_from, template_param_from, template_template_param_from,
    template_template_param_handle_from, type_handle_from, unqualified_name_from,
    unscoped_template_name_from,
};
use demangle_text::{Error, Result};
use std::alloc::Global;

/// A `TemplateArgs` that may be missing. Another cell is refused as `OutOfMemory`, the only refusal.
pub fn optional_template_args_from(
    alloc: Global,
    arena: &Arena,
    id: u32,
) -> Result<Option<TemplateArgs>>
    ensures made { IfOk result (λ n. (F : ℕ → Core) → Holds F (view arena.now)
        → F id ≡ tree_of_option tree_of_template_args n) }
    ensures refused { IfErr result (λ e. e ≡ OutOfMemory) }
{
    match arena.cell(id) {
        Some(Plain::Empty(Tag::Absent)) => Ok(None),
        Some(Plain::One(Tag::Present, part)) => Ok(Some(template_args_from(alloc, arena, part)?)),
        _ => Err(Error::OutOfMemory),
    }
}

/// An `ExceptionSpec` that may be missing. Another cell is refused as `OutOfMemory`, the only refusal.
pub fn optional_exception_spec_from(
    alloc: Global,
    arena: &Arena,
    id: u32,
) -> Result<Option<ExceptionSpec>>
    ensures made { IfOk result (λ n. (F : ℕ → Core) → Holds F (view arena.now)
        → F id ≡ tree_of_option tree_of_exception_spec n) }
    ensures refused { IfErr result (λ e. e ≡ OutOfMemory) }
{
    match arena.cell(id) {
        Some(Plain::Empty(Tag::Absent)) => Ok(None),
        Some(Plain::One(Tag::Present, part)) => Ok(Some(exception_spec_from(alloc, arena, part)?)),
        _ => Err(Error::OutOfMemory),
    }
}

/// A `Decltype` out of its cell. Another cell is refused as `OutOfMemory`, the only refusal. ABI section 5.1.5.
pub fn decltype_from(alloc: Global, arena: &Arena, id: u32) -> Result<Decltype>
    ensures made { IfOk result (λ n. (F : ℕ → Core) → Holds F (view arena.now) → F id ≡ tree_of_decltype n) }
    ensures refused { IfErr result (λ e. e ≡ OutOfMemory) }
{
    match arena.cell(id) {
        Some(Plain::One(Tag::DecltypeIdExpression, expression)) => Ok(Decltype::IdExpression(boxed(
            alloc,
            expression_from(alloc, arena, expression),
        )?)),
        Some(Plain::One(Tag::DecltypeExpression, expression)) => Ok(Decltype::Expression(boxed(
            alloc,
            expression_from(alloc, arena, expression),
        )?)),
        _ => Err(Error::OutOfMemory),
    }
}

/// A `Prefix` out of its cell. Another cell is refused as `OutOfMemory`, the only refusal. ABI section 5.1.2.
pub fn prefix_from(alloc: Global, arena: &Arena, id: u32) -> Result<Prefix>
    ensures made { IfOk result (λ n. (F : ℕ → Core) → Holds F (view arena.now) → F id ≡ tree_of_prefix n) }
    ensures refused { IfErr result (λ e. e ≡ OutOfMemory) }
{
    match arena.cell(id) {
        Some(Plain::One(Tag::PrefixUnqualified, unqualified_name)) => Ok(Prefix::Unqualified(
            unqualified_name_from(alloc, arena, unqualified_name)?,
        )),
        Some(Plain::Two(Tag::PrefixNested, prefix_handle, unqualified_name)) => {
            let prefix_handle = prefix_handle_from(arena, prefix_handle)?;
            let unqualified_name = unqualified_name_from(alloc, arena, unqualified_name)?;
            Ok(Prefix::Nested(prefix_handle, unqualified_name))
        }
        Some(Plain::Two(Tag::PrefixTemplate, prefix_handle, template_args)) => {
            let prefix_handle = prefix_handle_from(arena, prefix_handle)?;
            let template_args = template_args_from(alloc, arena, template_args)?;
            Ok(Prefix::Template(prefix_handle, template_args))
        }
        Some(Plain::One(Tag::PrefixTemplateParam, template_param)) => Ok(Prefix::TemplateParam(
            template_param_from(arena, template_param)?,
        )),
        Some(Plain::One(Tag::PrefixDecltype, decltype)) => Ok(Prefix::Decltype(decltype_from(
            alloc, arena, decltype,
        )?)),
        Some(Plain::Two(Tag::PrefixDataMember, prefix_handle, data_member_prefix)) => {
            let prefix_handle = prefix_handle_from(arena, prefix_handle)?;
            let data_member_prefix = data_member_prefix_from(arena, data_member_prefix)?;
            Ok(Prefix::DataMember(prefix_handle, data_member_prefix))
        }
        _ => Err(Error::OutOfMemory),
    }
}

/// An `ArrayType` out of its cell. Another cell is refused as `OutOfMemory`, the only refusal. ABI section 5.1.5.5.
pub fn array_type_from(alloc: Global, arena: &Arena, id: u32) -> Result<ArrayType>
    ensures made { IfOk result (λ n. (F : ℕ → Core) → Holds F (view arena.now) → F id ≡ tree_of_array_type n) }
    ensures refused { IfErr result (λ e. e ≡ OutOfMemory) }
{
    match arena.cell(id) {
        Some(Plain::Two(Tag::ArrayTypeDimensionNumber, count, type_handle)) => {
            let count = count_from(arena, count)?;
            let type_handle = type_handle_from(arena, type_handle)?;
            Ok(ArrayType::DimensionNumber(count, type_handle))
        }
        Some(Plain::Two(Tag::ArrayTypeDimensionExpression, expression, type_handle)) => {
            let type_handle = type_handle_from(arena, type_handle)?;
            let expression = boxed(alloc, expression_from(alloc, arena, expression))?;
            Ok(ArrayType::DimensionExpression(expression, type_handle))
        }
        Some(Plain::One(Tag::ArrayTypeNoDimension, type_handle)) => Ok(ArrayType::NoDimension(
            type_handle_from(arena, type_handle)?,
        )),
        _ => Err(Error::OutOfMemory),
    }
}

/// A `VectorType` out of its cell. Another cell is refused as `OutOfMemory`, the only refusal. ABI section 5.1.5.
pub fn vector_type_from(alloc: Global, arena: &Arena, id: u32) -> Result<VectorType>
    ensures made { IfOk result (λ n. (F : ℕ → Core) → Holds F (view arena.now) → F id ≡ tree_of_vector_type n) }
    ensures refused { IfErr result (λ e. e ≡ OutOfMemory) }
{
    match arena.cell(id) {
        Some(Plain::Two(Tag::VectorTypeDimensionNumber, count, type_handle)) => {
            let count = count_from(arena, count)?;
            let type_handle = type_handle_from(arena, type_handle)?;
            Ok(VectorType::DimensionNumber(count, type_handle))
        }
        Some(Plain::Two(Tag::VectorTypeDimensionExpression, expression, type_handle)) => {
            let type_handle = type_handle_from(arena, type_handle)?;
            let expression = boxed(alloc, expression_from(alloc, arena, expression))?;
            Ok(VectorType::DimensionExpression(expression, type_handle))
        }
        _ => Err(Error::OutOfMemory),
    }
}

/// A `ClassEnumType` out of its cell. Another cell is refused as `OutOfMemory`, the only refusal. ABI section 5.1.5.4.
pub fn class_enum_type_from(alloc: Global, arena: &Arena, id: u32) -> Result<ClassEnumType>
    ensures made { IfOk result (λ n. (F : ℕ → Core) → Holds F (view arena.now) → F id ≡ tree_of_class_enum_type n) }
    ensures refused { IfErr result (λ e. e ≡ OutOfMemory) }
{
    match arena.cell(id) {
        Some(Plain::One(Tag::ClassEnumTypeNamed, name)) => Ok(ClassEnumType::Named(boxed(
            alloc,
            name_from(alloc, arena, name),
        )?)),
        Some(Plain::One(Tag::ClassEnumTypeElaboratedStruct, name)) => Ok(
            ClassEnumType::ElaboratedStruct(boxed(alloc, name_from(alloc, arena, name))?),
        ),
        Some(Plain::One(Tag::ClassEnumTypeElaboratedUnion, name)) => Ok(
            ClassEnumType::ElaboratedUnion(boxed(alloc, name_from(alloc, arena, name))?),
        ),
        Some(Plain::One(Tag::ClassEnumTypeElaboratedEnum, name)) => Ok(
            ClassEnumType::ElaboratedEnum(boxed(alloc, name_from(alloc, arena, name))?),
        ),
        _ => Err(Error::OutOfMemory),
    }
}

/// An `ExceptionSpec` out of its cell. Another cell is refused as `OutOfMemory`, the only refusal. ABI section 5.1.5.3.
pub fn exception_spec_from(alloc: Global, arena: &Arena, id: u32) -> Result<ExceptionSpec>
    ensures made { IfOk result (λ n. (F : ℕ → Core) → Holds F (view arena.now) → F id ≡ tree_of_exception_spec n) }
    ensures refused { IfErr result (λ e. e ≡ OutOfMemory) }
{
    match arena.cell(id) {
        Some(Plain::Empty(Tag::ExceptionSpecNoExcept)) => Ok(ExceptionSpec::NoExcept),
        Some(Plain::One(Tag::ExceptionSpecComputed, expression)) => Ok(ExceptionSpec::Computed(
            boxed(alloc, expression_from(alloc, arena, expression))?,
        )),
        _ => Err(Error::OutOfMemory),
    }
}

/// A `FunctionType` out of its cell. Another cell is refused as `OutOfMemory`, the only refusal. ABI section 5.1.5.3.
pub fn function_type_from(alloc: Global, arena: &Arena, id: u32) -> Result<FunctionType>
    ensures made { IfOk result (λ n. (F : ℕ → Core) → Holds F (view arena.now) → F id ≡ tree_of_function_type n) }
    ensures refused { IfErr result (λ e. e ≡ OutOfMemory) }
{
    match arena.cell(id) {
        Some(Plain::Many(Tag::FunctionType, start, count)) => {
            let (
                (cv_qualifiers, exception_spec, transaction_safe),
                (extern_c, bare, ref_qualifier),
            ) = six_parts(arena.indexes(start, count))?;
            let cv_qualifiers = cv_qualifiers_from(arena, cv_qualifiers)?;
            let transaction_safe = flag_from(arena, transaction_safe)?;
            let extern_c = flag_from(arena, extern_c)?;
            let ref_qualifier = optional_ref_qualifier_from(arena, ref_qualifier)?;
            let exception_spec = optional_exception_spec_from(alloc, arena, exception_spec)?;
            let (exception_spec, bare) = kept(
                exception_spec,
                bare_function_type_from(alloc, arena, bare),
            )?;
            Ok(FunctionType {
                cv_qualifiers,
                exception_spec,
                transaction_safe,
                extern_c,
                bare,
                ref_qualifier,
            })
        }
        _ => Err(Error::OutOfMemory),
    }
}

/// A `TypeNode` out of its cell. Another cell is refused as `OutOfMemory`, the only refusal. ABI section 5.1.5.
pub fn type_node_from(alloc: Global, arena: &Arena, id: u32) -> Result<TypeNode>
    ensures made { IfOk result (λ n. (F : ℕ → Core) → Holds F (view arena.now) → F id ≡ tree_of_type_node n) }
    ensures refused { IfErr result (λ e. e ≡ OutOfMemory) }
{
    match arena.cell(id) {
        Some(Plain::One(Tag::TypeNodeFunction, function_type)) => Ok(TypeNode::Function(
            function_type_from(alloc, arena, function_type)?,
        )),
        Some(Plain::One(Tag::TypeNodeClassEnum, class_enum_type)) => Ok(TypeNode::ClassEnum(
            class_enum_type_from(alloc, arena, class_enum_type)?,
        )),
        Some(Plain::One(Tag::TypeNodeArray, array_type)) => Ok(TypeNode::Array(array_type_from(
            alloc, arena, array_type,
        )?)),
        Some(Plain::One(Tag::TypeNodeVector, vector_type)) => Ok(TypeNode::Vector(vector_type_from(
            alloc,
            arena,
            vector_type,
        )?)),
        Some(Plain::One(Tag::TypeNodePointerToMember, pointer_to_member_type)) => Ok(
            TypeNode::PointerToMember(pointer_to_member_type_from(arena, pointer_to_member_type)?),
        ),
        Some(Plain::One(Tag::TypeNodeTemplateParam, template_param)) => Ok(TypeNode::TemplateParam(
            template_param_from(arena, template_param)?,
        )),
        Some(
            Plain::Two(
                Tag::TypeNodeTemplateTemplate,
                template_template_param_handle,
                template_args,
            ),
        ) => {
            let template_template_param_handle = template_template_param_handle_from(
                arena,
                template_template_param_handle,
            )?;
            let template_args = template_args_from(alloc, arena, template_args)?;
            Ok(TypeNode::TemplateTemplate(template_template_param_handle, template_args))
        }
        Some(Plain::One(Tag::TypeNodeDecltype, decltype)) => Ok(TypeNode::Decltype(decltype_from(
            alloc, arena, decltype,
        )?)),
        Some(Plain::Two(Tag::TypeNodeQualified, cv_qualifiers, type_handle)) => {
            let cv_qualifiers = cv_qualifiers_from(arena, cv_qualifiers)?;
            let type_handle = type_handle_from(arena, type_handle)?;
            Ok(TypeNode::Qualified(cv_qualifiers, type_handle))
        }
        Some(Plain::Three(Tag::TypeNodeVendorExtension, source_name, template_args, type_handle)) =>
            {
                let source_name = source_name_from(arena, source_name)?;
                let type_handle = type_handle_from(arena, type_handle)?;
                let template_args = optional_template_args_from(alloc, arena, template_args)?;
                Ok(TypeNode::VendorExtension(source_name, template_args, type_handle))
            }
        Some(Plain::One(Tag::TypeNodePointerTo, type_handle)) => Ok(TypeNode::PointerTo(
            type_handle_from(arena, type_handle)?,
        )),
        Some(Plain::One(Tag::TypeNodeLvalueRef, type_handle)) => Ok(TypeNode::LvalueRef(
            type_handle_from(arena, type_handle)?,
        )),
        Some(Plain::One(Tag::TypeNodeRvalueRef, type_handle)) => Ok(TypeNode::RvalueRef(
            type_handle_from(arena, type_handle)?,
        )),
        Some(Plain::One(Tag::TypeNodeComplex, type_handle)) => Ok(TypeNode::Complex(
            type_handle_from(arena, type_handle)?,
        )),
        Some(Plain::One(Tag::TypeNodeImaginary, type_handle)) => Ok(TypeNode::Imaginary(
            type_handle_from(arena, type_handle)?,
        )),
        Some(Plain::One(Tag::TypeNodePackExpansion, type_handle)) => Ok(TypeNode::PackExpansion(
            type_handle_from(arena, type_handle)?,
        )),
        _ => Err(Error::OutOfMemory),
    }
}

/// An `UnresolvedType` out of its cell. Another cell is refused as `OutOfMemory`, the only refusal. ABI section 5.1.6.
pub fn unresolved_type_from(alloc: Global, arena: &Arena, id: u32) -> Result<UnresolvedType>
    ensures made { IfOk result (λ n. (F : ℕ → Core) → Holds F (view arena.now) → F id ≡ tree_of_unresolved_type n) }
    ensures refused { IfErr result (λ e. e ≡ OutOfMemory) }
{
    match arena.cell(id) {
        Some(Plain::Two(Tag::UnresolvedTypeTemplate, template_param, template_args)) => {
            let template_param = template_param_from(arena, template_param)?;
            let template_args = optional_template_args_from(alloc, arena, template_args)?;
            Ok(UnresolvedType::Template(template_param, template_args))
        }
        Some(Plain::One(Tag::UnresolvedTypeDecltype, decltype)) => Ok(UnresolvedType::Decltype(
            decltype_from(alloc, arena, decltype)?,
        )),
        _ => Err(Error::OutOfMemory),
    }
}

/// A `Substitutable` out of its cell. Another cell is refused as `OutOfMemory`, the only refusal. ABI section 5.1.10.
pub fn substitutable_from(alloc: Global, arena: &Arena, id: u32) -> Result<Substitutable>
    ensures made { IfOk result (λ n. (F : ℕ → Core) → Holds F (view arena.now) → F id ≡ tree_of_substitutable n) }
    ensures refused { IfErr result (λ e. e ≡ OutOfMemory) }
{
    match arena.cell(id) {
        Some(Plain::One(Tag::SubstitutableUnscopedTemplateName, unscoped_template_name)) => Ok(
            Substitutable::UnscopedTemplateName(unscoped_template_name_from(
                alloc,
                arena,
                unscoped_template_name,
            )?),
        ),
        Some(Plain::One(Tag::SubstitutableTypeNode, type_node)) => Ok(Substitutable::TypeNode(
            type_node_from(alloc, arena, type_node)?,
        )),
        Some(Plain::One(Tag::SubstitutableTemplateTemplateParam, template_template_param)) => Ok(
            Substitutable::TemplateTemplateParam(template_template_param_from(
                arena,
                template_template_param,
            )?),
        ),
        Some(Plain::One(Tag::SubstitutableUnresolvedType, unresolved_type)) => Ok(
            Substitutable::UnresolvedType(unresolved_type_from(alloc, arena, unresolved_type)?),
        ),
        Some(Plain::One(Tag::SubstitutablePrefix, prefix)) => Ok(Substitutable::Prefix(prefix_from(
            alloc, arena, prefix,
        )?)),
        Some(Plain::One(Tag::SubstitutableExpression, expression)) => Ok(Substitutable::Expression(
            boxed(alloc, expression_from(alloc, arena, expression))?,
        )),
        _ => Err(Error::OutOfMemory),
    }
}
