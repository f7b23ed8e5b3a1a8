//! Node types that hold no name, type or expression by value.

ghost use Rattle.demangle_cells.specs.View.{view};
ghost use Rattle.demangle_core.specs.Core.{node};
ghost use Rattle.demangle_leaf_nodes.specs.TreeLeaves.{tree_of_abi_tag, tree_of_abi_tags};
ghost use Rattle.demangle_leaf_nodes.specs.TreeLeaves.{tree_of_bare_function_type, tree_of_builtin_type};
ghost use Rattle.demangle_leaf_nodes.specs.TreeLeaves.{tree_of_call_offset, tree_of_clone_suffix};
ghost use Rattle.demangle_leaf_nodes.specs.TreeLeaves.{tree_of_clone_type_identifier, tree_of_closure_type_name};
ghost use Rattle.demangle_leaf_nodes.specs.TreeLeaves.{tree_of_ctor_dtor_name, tree_of_cv_qualifiers};
ghost use Rattle.demangle_leaf_nodes.specs.TreeLeaves.{tree_of_data_member_prefix, tree_of_discriminator};
ghost use Rattle.demangle_leaf_nodes.specs.TreeLeaves.{tree_of_explicit_object_parameter, tree_of_function_param};
ghost use Rattle.demangle_leaf_nodes.specs.TreeLeaves.{tree_of_identifier, tree_of_lambda_sig, tree_of_nested_name};
ghost use Rattle.demangle_leaf_nodes.specs.TreeLeaves.{tree_of_non_substitution, tree_of_nv_offset};
ghost use Rattle.demangle_leaf_nodes.specs.TreeLeaves.{tree_of_operator_name, tree_of_parametric_builtin_type};
ghost use Rattle.demangle_leaf_nodes.specs.TreeLeaves.{tree_of_pointer_to_member_type, tree_of_prefix_handle};
ghost use Rattle.demangle_leaf_nodes.specs.TreeLeaves.{tree_of_qualified_builtin, tree_of_ref_qualifier};
ghost use Rattle.demangle_leaf_nodes.specs.TreeLeaves.{tree_of_resource_name, tree_of_seq_id};
ghost use Rattle.demangle_leaf_nodes.specs.TreeLeaves.{tree_of_simple_operator_name, tree_of_source_name};
ghost use Rattle.demangle_leaf_nodes.specs.TreeLeaves.{tree_of_standard_builtin_type, tree_of_substitution};
ghost use Rattle.demangle_leaf_nodes.specs.TreeLeaves.{tree_of_template_param, tree_of_template_template_param};
ghost use Rattle.demangle_leaf_nodes.specs.TreeLeaves.{tree_of_template_template_param_handle, tree_of_type_handle};
ghost use Rattle.demangle_leaf_nodes.specs.TreeLeaves.{tree_of_unnamed_type_name, tree_of_unqualified_name};
ghost use Rattle.demangle_leaf_nodes.specs.TreeLeaves.{tree_of_unresolved_type_handle, tree_of_unscoped_name};
ghost use Rattle.demangle_leaf_nodes.specs.TreeLeaves.{tree_of_unscoped_template_name};
ghost use Rattle.demangle_leaf_nodes.specs.TreeLeaves.{tree_of_unscoped_template_name_handle, tree_of_v_offset};
ghost use Rattle.demangle_leaf_nodes.specs.TreeLeaves.{tree_of_well_known_component};
ghost use Rattle.demangle_leaves_to_cells.specs.Put.{Put};

use crate::lists::{gather, wait};
use crate::made::{empty, number_to, one, place_to, reference_to, signed_to, three, two};
use crate::parts::{
    abi_tag_list_to, optional_discriminator_to, optional_number_to, optional_prefix_handle_to,
    optional_ref_qualifier_to, optional_type_handle_to, signed_list_to, type_handle_list_to,
};
use demangle_cells::{Arena, ListOf, Tag, WordTable, qualifiers_id, word_id};
use demangle_leaf_nodes::{
    AbiTag, AbiTags, BareFunctionType, BuiltinType, CallOffset, CloneSuffix, CloneTypeIdentifier,
    ClosureTypeName, CtorDtorName, CvQualifiers, DataMemberPrefix, Discriminator, FunctionParam,
    Identifier, LambdaSig, NestedName, NonSubstitution, NvOffset, OperatorName,
    ParametricBuiltinType, PointerToMemberType, PrefixHandle, QualifiedBuiltin, ResourceName,
    SeqId, SourceName, Substitution, TemplateParam, TemplateTemplateParam,
    TemplateTemplateParamHandle, TypeHandle, UnnamedTypeName, UnqualifiedName,
    UnresolvedTypeHandle, UnscopedName, UnscopedTemplateName, UnscopedTemplateNameHandle, VOffset,
};
use demangle_text::Result;
use demangle_vocab::{
    ExplicitObjectParameter, RefQualifier, SimpleOperatorName, StandardBuiltinType,
    WellKnownComponent,
};

/// Puts the node into the arena: the index of its tree. `OutOfMemory` is its only refusal.
pub fn simple_operator_name_to(arena: &mut Arena, node: &SimpleOperatorName) -> Result<u32>
    ensures { Put (view arena.old) (view arena.new) result (tree_of_simple_operator_name node.now) }
{
    Ok(word_id(WordTable::Operators, node.number()))
}

/// Puts the node into the arena: the index of its tree. `OutOfMemory` is its only refusal.
pub fn standard_builtin_type_to(arena: &mut Arena, node: &StandardBuiltinType) -> Result<u32>
    ensures { Put (view arena.old) (view arena.new) result (tree_of_standard_builtin_type node.now) }
{
    Ok(word_id(WordTable::Builtins, node.number()))
}

/// Puts the node into the arena: the index of its tree. `OutOfMemory` is its only refusal.
pub fn well_known_component_to(arena: &mut Arena, node: &WellKnownComponent) -> Result<u32>
    ensures { Put (view arena.old) (view arena.new) result (tree_of_well_known_component node.now) }
{
    Ok(word_id(WordTable::Components, node.number()))
}

/// Puts the node into the arena: the index of its tree. `OutOfMemory` is its only refusal.
pub fn ref_qualifier_to(arena: &mut Arena, node: &RefQualifier) -> Result<u32>
    ensures { Put (view arena.old) (view arena.new) result (tree_of_ref_qualifier node.now) }
{
    Ok(word_id(WordTable::RefQualifiers, node.number()))
}

/// Puts the node into the arena: the index of its tree. `OutOfMemory` is its only refusal.
pub fn explicit_object_parameter_to(
    arena: &mut Arena,
    node: &ExplicitObjectParameter,
) -> Result<u32>
    ensures { Put (view arena.old) (view arena.new) result (tree_of_explicit_object_parameter node.now) }
{
    Ok(word_id(WordTable::ExplicitObjects, node.number()))
}

/// Puts the node into the arena: the index of its tree. `OutOfMemory` is its only refusal.
pub fn non_substitution_to(arena: &mut Arena, node: &NonSubstitution) -> Result<u32>
    ensures { Put (view arena.old) (view arena.new) result (tree_of_non_substitution node.now) }
{
    reference_to(arena, false, node.0)
}

/// Puts the node into the arena: the index of its tree. `OutOfMemory` is its only refusal.
pub fn seq_id_to(arena: &mut Arena, node: &SeqId) -> Result<u32>
    ensures { Put (view arena.old) (view arena.new) result (tree_of_seq_id node.now) }
{
    let first = number_to(arena, node.0);
    one(arena, Tag::SeqId, first)
}

/// Puts the node into the arena: the index of its tree. `OutOfMemory` is its only refusal.
pub fn template_param_to(arena: &mut Arena, node: &TemplateParam) -> Result<u32>
    ensures { Put (view arena.old) (view arena.new) result (tree_of_template_param node.now) }
{
    let first = number_to(arena, node.0);
    one(arena, Tag::TemplateParam, first)
}

/// Puts the node into the arena: the index of its tree. `OutOfMemory` is its only refusal.
pub fn discriminator_to(arena: &mut Arena, node: &Discriminator) -> Result<u32>
    ensures { Put (view arena.old) (view arena.new) result (tree_of_discriminator node.now) }
{
    let first = number_to(arena, node.0);
    one(arena, Tag::Discriminator, first)
}

/// Puts the node into the arena: the index of its tree. `OutOfMemory` is its only refusal.
pub fn identifier_to(arena: &mut Arena, node: &Identifier) -> Result<u32>
    ensures { Put (view arena.old) (view arena.new) result (tree_of_identifier node.now) }
{
    let place = place_to(arena, node.start, node.end);
    one(arena, Tag::Identifier, place)
}

/// Puts the node into the arena: the index of its tree. `OutOfMemory` is its only refusal.
pub fn clone_type_identifier_to(arena: &mut Arena, node: &CloneTypeIdentifier) -> Result<u32>
    ensures { Put (view arena.old) (view arena.new) result (tree_of_clone_type_identifier node.now) }
{
    let place = place_to(arena, node.start, node.end);
    one(arena, Tag::CloneTypeIdentifier, place)
}

/// Puts the node into the arena: the index of its tree. `OutOfMemory` is its only refusal.
pub fn resource_name_to(arena: &mut Arena, node: &ResourceName) -> Result<u32>
    ensures { Put (view arena.old) (view arena.new) result (tree_of_resource_name node.now) }
{
    let place = place_to(arena, node.start, node.end);
    one(arena, Tag::ResourceName, place)
}

/// Puts the node into the arena: the index of its tree. `OutOfMemory` is its only refusal.
pub fn source_name_to(arena: &mut Arena, node: &SourceName) -> Result<u32>
    ensures { Put (view arena.old) (view arena.new) result (tree_of_source_name node.now) }
{
    let first = identifier_to(arena, &node.0);
    one(arena, Tag::SourceName, first)
}

/// Puts the node into the arena: the index of its tree. `OutOfMemory` is its only refusal.
pub fn abi_tag_to(arena: &mut Arena, node: &AbiTag) -> Result<u32>
    ensures { Put (view arena.old) (view arena.new) result (tree_of_abi_tag node.now) }
{
    let first = source_name_to(arena, &node.0);
    one(arena, Tag::AbiTag, first)
}

/// Puts the node into the arena: the index of its tree. `OutOfMemory` is its only refusal.
pub fn abi_tags_to(arena: &mut Arena, node: &AbiTags) -> Result<u32>
    ensures { Put (view arena.old) (view arena.new) result (tree_of_abi_tags node.now) }
{
    let first = abi_tag_list_to(arena, &node.0, ListOf::Node(Tag::Several));
    one(arena, Tag::AbiTags, first)
}

/// Puts the node into the arena: the index of its tree. `OutOfMemory` is its only refusal.
pub fn data_member_prefix_to(arena: &mut Arena, node: &DataMemberPrefix) -> Result<u32>
    ensures { Put (view arena.old) (view arena.new) result (tree_of_data_member_prefix node.now) }
{
    let first = source_name_to(arena, &node.0);
    one(arena, Tag::DataMemberPrefix, first)
}

/// Puts the node into the arena: the index of its tree. `OutOfMemory` is its only refusal.
pub fn clone_suffix_to(arena: &mut Arena, node: &CloneSuffix) -> Result<u32>
    ensures { Put (view arena.old) (view arena.new) result (tree_of_clone_suffix node.now) }
{
    let first = clone_type_identifier_to(arena, &node.0);
    let second = signed_list_to(arena, &node.1, ListOf::Node(Tag::Several));
    two(arena, Tag::CloneSuffix, first, second)
}

/// Puts the node into the arena: the index of its tree. `OutOfMemory` is its only refusal.
pub fn cv_qualifiers_to(arena: &mut Arena, node: &CvQualifiers) -> Result<u32>
    ensures { Put (view arena.old) (view arena.new) result (tree_of_cv_qualifiers node.now) }
{
    Ok(qualifiers_id(node.restrict, node.volatile, node.const_))
}

/// Puts the node into the arena: the index of its tree. `OutOfMemory` is its only refusal.
pub fn nv_offset_to(arena: &mut Arena, node: &NvOffset) -> Result<u32>
    ensures { Put (view arena.old) (view arena.new) result (tree_of_nv_offset node.now) }
{
    let first = signed_to(arena, &node.0);
    one(arena, Tag::NvOffset, first)
}

/// Puts the node into the arena: the index of its tree. `OutOfMemory` is its only refusal.
pub fn v_offset_to(arena: &mut Arena, node: &VOffset) -> Result<u32>
    ensures { Put (view arena.old) (view arena.new) result (tree_of_v_offset node.now) }
{
    let first = signed_to(arena, &node.0);
    let second = signed_to(arena, &node.1);
    two(arena, Tag::VOffset, first, second)
}

/// Puts the node into the arena: the index of its tree. `OutOfMemory` is its only refusal.
pub fn call_offset_to(arena: &mut Arena, node: &CallOffset) -> Result<u32>
    ensures { Put (view arena.old) (view arena.new) result (tree_of_call_offset node.now) }
{
    match node {
        CallOffset::NonVirtual(first) => {
            let first = nv_offset_to(arena, first);
            one(arena, Tag::CallOffsetNonVirtual, first)
        }
        CallOffset::Virtual(first) => {
            let first = v_offset_to(arena, first);
            one(arena, Tag::CallOffsetVirtual, first)
        }
    }
}

/// Puts the node into the arena: the index of its tree. `OutOfMemory` is its only refusal.
pub fn function_param_to(arena: &mut Arena, node: &FunctionParam) -> Result<u32>
    ensures { Put (view arena.old) (view arena.new) result (tree_of_function_param node.now) }
{
    let first = number_to(arena, node.0);
    let second = cv_qualifiers_to(arena, &node.1);
    let third = optional_number_to(arena, &node.2);
    three(arena, Tag::FunctionParam, first, second, third)
}

/// Puts the node into the arena: the index of its tree. `OutOfMemory` is its only refusal.
pub fn template_template_param_to(arena: &mut Arena, node: &TemplateTemplateParam) -> Result<u32>
    ensures { Put (view arena.old) (view arena.new) result (tree_of_template_template_param node.now) }
{
    let first = template_param_to(arena, &node.0);
    one(arena, Tag::TemplateTemplateParam, first)
}

/// Puts the node into the arena: the index of its tree. `OutOfMemory` is its only refusal.
pub fn unnamed_type_name_to(arena: &mut Arena, node: &UnnamedTypeName) -> Result<u32>
    ensures { Put (view arena.old) (view arena.new) result (tree_of_unnamed_type_name node.now) }
{
    let first = optional_number_to(arena, &node.0);
    one(arena, Tag::UnnamedTypeName, first)
}

/// Puts the node into the arena: the index of its tree. `OutOfMemory` is its only refusal.
pub fn substitution_to(arena: &mut Arena, node: &Substitution) -> Result<u32>
    ensures { Put (view arena.old) (view arena.new) result (tree_of_substitution node.now) }
{
    match node {
        Substitution::BackReference(first) => reference_to(arena, true, *first),
        Substitution::WellKnown(first) => {
            let first = well_known_component_to(arena, first);
            one(arena, Tag::WellKnown, first)
        }
    }
}

/// Puts the node into the arena: the index of its tree. `OutOfMemory` is its only refusal.
pub fn prefix_handle_to(arena: &mut Arena, node: &PrefixHandle) -> Result<u32>
    ensures { Put (view arena.old) (view arena.new) result (tree_of_prefix_handle node.now) }
{
    match node {
        PrefixHandle::WellKnown(first) => {
            let first = well_known_component_to(arena, first);
            one(arena, Tag::WellKnown, first)
        }
        PrefixHandle::BackReference(first) => reference_to(arena, true, *first),
        PrefixHandle::NonSubstitution(first) => non_substitution_to(arena, first),
    }
}

/// Puts the node into the arena: the index of its tree. `OutOfMemory` is its only refusal.
pub fn unscoped_template_name_handle_to(
    arena: &mut Arena,
    node: &UnscopedTemplateNameHandle,
) -> Result<u32>
    ensures { Put (view arena.old) (view arena.new) result (tree_of_unscoped_template_name_handle node.now) }
{
    match node {
        UnscopedTemplateNameHandle::WellKnown(first) => {
            let first = well_known_component_to(arena, first);
            one(arena, Tag::WellKnown, first)
        }
        UnscopedTemplateNameHandle::BackReference(first) => reference_to(arena, true, *first),
        UnscopedTemplateNameHandle::NonSubstitution(first) => non_substitution_to(arena, first),
    }
}

/// Puts the node into the arena: the index of its tree. `OutOfMemory` is its only refusal.
pub fn template_template_param_handle_to(
    arena: &mut Arena,
    node: &TemplateTemplateParamHandle,
) -> Result<u32>
    ensures { Put (view arena.old) (view arena.new) result (tree_of_template_template_param_handle node.now) }
{
    match node {
        TemplateTemplateParamHandle::WellKnown(first) => {
            let first = well_known_component_to(arena, first);
            one(arena, Tag::WellKnown, first)
        }
        TemplateTemplateParamHandle::BackReference(first) => reference_to(arena, true, *first),
    }
}

/// Puts the node into the arena: the index of its tree. `OutOfMemory` is its only refusal.
pub fn unresolved_type_handle_to(arena: &mut Arena, node: &UnresolvedTypeHandle) -> Result<u32>
    ensures { Put (view arena.old) (view arena.new) result (tree_of_unresolved_type_handle node.now) }
{
    match node {
        UnresolvedTypeHandle::WellKnown(first) => {
            let first = well_known_component_to(arena, first);
            one(arena, Tag::WellKnown, first)
        }
        UnresolvedTypeHandle::BackReference(first) => reference_to(arena, true, *first),
    }
}

/// Puts the node into the arena: the index of its tree. `OutOfMemory` is its only refusal.
pub fn type_handle_to(arena: &mut Arena, node: &TypeHandle) -> Result<u32>
    ensures { Put (view arena.old) (view arena.new) result (tree_of_type_handle node.now) }
{
    match node {
        TypeHandle::WellKnown(first) => {
            let first = well_known_component_to(arena, first);
            one(arena, Tag::WellKnown, first)
        }
        TypeHandle::BackReference(first) => reference_to(arena, true, *first),
        TypeHandle::Builtin(first) => {
            let first = builtin_type_to(arena, first);
            one(arena, Tag::TypeHandleBuiltin, first)
        }
        TypeHandle::QualifiedBuiltin(first) => {
            let first = qualified_builtin_to(arena, first);
            one(arena, Tag::TypeHandleQualifiedBuiltin, first)
        }
    }
}

/// Puts the node into the arena: the index of its tree. `OutOfMemory` is its only refusal.
pub fn builtin_type_to(arena: &mut Arena, node: &BuiltinType) -> Result<u32>
    ensures { Put (view arena.old) (view arena.new) result (tree_of_builtin_type node.now) }
{
    match node {
        BuiltinType::Standard(first) => {
            let first = standard_builtin_type_to(arena, first);
            one(arena, Tag::BuiltinTypeStandard, first)
        }
        BuiltinType::Parametric(first) => {
            let first = parametric_builtin_type_to(arena, first);
            one(arena, Tag::BuiltinTypeParametric, first)
        }
        BuiltinType::Extension(first) => {
            let first = source_name_to(arena, first);
            one(arena, Tag::BuiltinTypeExtension, first)
        }
    }
}

/// Puts the node into the arena: the index of its tree. `OutOfMemory` is its only refusal.
pub fn qualified_builtin_to(arena: &mut Arena, node: &QualifiedBuiltin) -> Result<u32>
    ensures { Put (view arena.old) (view arena.new) result (tree_of_qualified_builtin node.now) }
{
    let first = cv_qualifiers_to(arena, &node.0);
    let second = builtin_type_to(arena, &node.1);
    two(arena, Tag::QualifiedBuiltin, first, second)
}

/// Puts the node into the arena: the index of its tree. `OutOfMemory` is its only refusal.
pub fn parametric_builtin_type_to(arena: &mut Arena, node: &ParametricBuiltinType) -> Result<u32>
    ensures { Put (view arena.old) (view arena.new) result (tree_of_parametric_builtin_type node.now) }
{
    match node {
        ParametricBuiltinType::FloatN(first) => {
            let first = signed_to(arena, first);
            one(arena, Tag::ParametricBuiltinTypeFloatN, first)
        }
        ParametricBuiltinType::FloatNx(first) => {
            let first = signed_to(arena, first);
            one(arena, Tag::ParametricBuiltinTypeFloatNx, first)
        }
        ParametricBuiltinType::SignedBitInt(first) => {
            let first = signed_to(arena, first);
            one(arena, Tag::ParametricBuiltinTypeSignedBitInt, first)
        }
        ParametricBuiltinType::UnsignedBitInt(first) => {
            let first = signed_to(arena, first);
            one(arena, Tag::ParametricBuiltinTypeUnsignedBitInt, first)
        }
        ParametricBuiltinType::SignedBitIntExpression(first) => {
            let first = non_substitution_to(arena, first);
            one(
                arena,
                Tag::ParametricBuiltinTypeSignedBitIntExpression,
                first,
            )
        }
        ParametricBuiltinType::UnsignedBitIntExpression(first) => {
            let first = non_substitution_to(arena, first);
            one(
                arena,
                Tag::ParametricBuiltinTypeUnsignedBitIntExpression,
                first,
            )
        }
    }
}

/// Puts the node into the arena: the index of its tree. `OutOfMemory` is its only refusal.
pub fn operator_name_to(arena: &mut Arena, node: &OperatorName) -> Result<u32>
    ensures { Put (view arena.old) (view arena.new) result (tree_of_operator_name node.now) }
{
    match node {
        OperatorName::Simple(first) => {
            let first = simple_operator_name_to(arena, first);
            one(arena, Tag::OperatorNameSimple, first)
        }
        OperatorName::Cast(first) => {
            let first = type_handle_to(arena, first);
            one(arena, Tag::OperatorNameCast, first)
        }
        OperatorName::Conversion(first) => {
            let first = type_handle_to(arena, first);
            one(arena, Tag::OperatorNameConversion, first)
        }
        OperatorName::Literal(first) => {
            let first = source_name_to(arena, first);
            one(arena, Tag::OperatorNameLiteral, first)
        }
        OperatorName::VendorExtension(first, second) => {
            let first = number_to(arena, *first as usize);
            let second = source_name_to(arena, second);
            two(arena, Tag::OperatorNameVendorExtension, first, second)
        }
    }
}

/// Puts the node into the arena: the index of its tree. `OutOfMemory` is its only refusal.
pub fn ctor_dtor_name_to(arena: &mut Arena, node: &CtorDtorName) -> Result<u32>
    ensures { Put (view arena.old) (view arena.new) result (tree_of_ctor_dtor_name node.now) }
{
    match node {
        CtorDtorName::CompleteConstructor(first) => {
            let first = optional_type_handle_to(arena, first);
            one(arena, Tag::CtorDtorNameCompleteConstructor, first)
        }
        CtorDtorName::BaseConstructor(first) => {
            let first = optional_type_handle_to(arena, first);
            one(arena, Tag::CtorDtorNameBaseConstructor, first)
        }
        CtorDtorName::CompleteAllocatingConstructor(first) => {
            let first = optional_type_handle_to(arena, first);
            one(arena, Tag::CtorDtorNameCompleteAllocatingConstructor, first)
        }
        CtorDtorName::MaybeInChargeConstructor(first) => {
            let first = optional_type_handle_to(arena, first);
            one(arena, Tag::CtorDtorNameMaybeInChargeConstructor, first)
        }
        CtorDtorName::DeletingDestructor => empty(arena, Tag::CtorDtorNameDeletingDestructor),
        CtorDtorName::CompleteDestructor => empty(arena, Tag::CtorDtorNameCompleteDestructor),
        CtorDtorName::BaseDestructor => empty(arena, Tag::CtorDtorNameBaseDestructor),
        CtorDtorName::MaybeInChargeDestructor => empty(
            arena,
            Tag::CtorDtorNameMaybeInChargeDestructor,
        ),
    }
}

/// Puts the node into the arena: the index of its tree. `OutOfMemory` is its only refusal.
pub fn bare_function_type_to(arena: &mut Arena, node: &BareFunctionType) -> Result<u32>
    ensures { Put (view arena.old) (view arena.new) result (tree_of_bare_function_type node.now) }
{
    let first = type_handle_list_to(arena, &node.0, ListOf::Node(Tag::Several));
    one(arena, Tag::BareFunctionType, first)
}

/// Puts the node into the arena: the index of its tree. `OutOfMemory` is its only refusal.
pub fn lambda_sig_to(arena: &mut Arena, node: &LambdaSig) -> Result<u32>
    ensures { Put (view arena.old) (view arena.new) result (tree_of_lambda_sig node.now) }
{
    let first = type_handle_list_to(arena, &node.0, ListOf::Node(Tag::Several));
    one(arena, Tag::LambdaSig, first)
}

/// Puts the node into the arena: the index of its tree. `OutOfMemory` is its only refusal.
pub fn closure_type_name_to(arena: &mut Arena, node: &ClosureTypeName) -> Result<u32>
    ensures { Put (view arena.old) (view arena.new) result (tree_of_closure_type_name node.now) }
{
    let first = lambda_sig_to(arena, &node.0);
    let second = optional_number_to(arena, &node.1);
    two(arena, Tag::ClosureTypeName, first, second)
}

/// Puts the node into the arena: the index of its tree. `OutOfMemory` is its only refusal.
pub fn pointer_to_member_type_to(arena: &mut Arena, node: &PointerToMemberType) -> Result<u32>
    ensures { Put (view arena.old) (view arena.new) result (tree_of_pointer_to_member_type node.now) }
{
    let first = type_handle_to(arena, &node.0);
    let second = type_handle_to(arena, &node.1);
    two(arena, Tag::PointerToMemberType, first, second)
}

/// Puts the node into the arena: the index of its tree. `OutOfMemory` is its only refusal.
pub fn unqualified_name_to(arena: &mut Arena, node: &UnqualifiedName) -> Result<u32>
    ensures { Put (view arena.old) (view arena.new) result (tree_of_unqualified_name node.now) }
{
    match node {
        UnqualifiedName::Operator(first, second) => {
            let first = operator_name_to(arena, first);
            let second = abi_tags_to(arena, second);
            two(arena, Tag::UnqualifiedNameOperator, first, second)
        }
        UnqualifiedName::CtorDtor(first, second) => {
            let first = ctor_dtor_name_to(arena, first);
            let second = abi_tags_to(arena, second);
            two(arena, Tag::UnqualifiedNameCtorDtor, first, second)
        }
        UnqualifiedName::Source(first, second) => {
            let first = source_name_to(arena, first);
            let second = abi_tags_to(arena, second);
            two(arena, Tag::UnqualifiedNameSource, first, second)
        }
        UnqualifiedName::LocalSourceName(first, second, third) => {
            let first = source_name_to(arena, first);
            let second = optional_discriminator_to(arena, second);
            let third = abi_tags_to(arena, third);
            three(
                arena,
                Tag::UnqualifiedNameLocalSourceName,
                first,
                second,
                third,
            )
        }
        UnqualifiedName::UnnamedType(first, second) => {
            let first = unnamed_type_name_to(arena, first);
            let second = abi_tags_to(arena, second);
            two(arena, Tag::UnqualifiedNameUnnamedType, first, second)
        }
        UnqualifiedName::ClosureType(first, second) => {
            let first = closure_type_name_to(arena, first);
            let second = abi_tags_to(arena, second);
            two(arena, Tag::UnqualifiedNameClosureType, first, second)
        }
    }
}

/// Puts the node into the arena: the index of its tree. `OutOfMemory` is its only refusal.
pub fn unscoped_name_to(arena: &mut Arena, node: &UnscopedName) -> Result<u32>
    ensures { Put (view arena.old) (view arena.new) result (tree_of_unscoped_name node.now) }
{
    match node {
        UnscopedName::Unqualified(first) => {
            let first = unqualified_name_to(arena, first);
            one(arena, Tag::UnscopedNameUnqualified, first)
        }
        UnscopedName::Std(first) => {
            let first = unqualified_name_to(arena, first);
            one(arena, Tag::UnscopedNameStd, first)
        }
    }
}

/// Puts the node into the arena: the index of its tree. `OutOfMemory` is its only refusal.
pub fn unscoped_template_name_to(arena: &mut Arena, node: &UnscopedTemplateName) -> Result<u32>
    ensures { Put (view arena.old) (view arena.new) result (tree_of_unscoped_template_name node.now) }
{
    let first = unscoped_name_to(arena, &node.0);
    one(arena, Tag::UnscopedTemplateName, first)
}

/// Puts the node into the arena: the index of its tree. `OutOfMemory` is its only refusal.
pub fn nested_name_to(arena: &mut Arena, node: &NestedName) -> Result<u32>
    ensures { Put (view arena.old) (view arena.new) result (tree_of_nested_name node.now) }
{
    match node {
        NestedName::Unqualified(first, second, third, fourth) => {
            let from = arena.waiting();
            let first = cv_qualifiers_to(arena, first);
            let until_first = wait(arena, Ok(()), first);
            let second = optional_ref_qualifier_to(arena, second);
            let until_second = wait(arena, until_first, second);
            let third = optional_prefix_handle_to(arena, third);
            let until_third = wait(arena, until_second, third);
            let fourth = unqualified_name_to(arena, fourth);
            let until_fourth = wait(arena, until_third, fourth);
            gather(
                arena,
                from,
                ListOf::Node(Tag::NestedNameUnqualified),
                until_fourth,
            )
        }
        NestedName::Template(first, second, third) => {
            let first = cv_qualifiers_to(arena, first);
            let second = optional_ref_qualifier_to(arena, second);
            let third = prefix_handle_to(arena, third);
            three(arena, Tag::NestedNameTemplate, first, second, third)
        }
        NestedName::UnqualifiedExplicitObject(first, second, third) => {
            let first = optional_prefix_handle_to(arena, first);
            let second = unqualified_name_to(arena, second);
            let third = explicit_object_parameter_to(arena, third);
            three(
                arena,
                Tag::NestedNameUnqualifiedExplicitObject,
                first,
                second,
                third,
            )
        }
        NestedName::TemplateExplicitObject(first, second) => {
            let first = prefix_handle_to(arena, first);
            let second = explicit_object_parameter_to(arena, second);
            two(arena, Tag::NestedNameTemplateExplicitObject, first, second)
        }
    }
}
