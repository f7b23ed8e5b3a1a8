//! References, builtin types, operators, constructors, pointers to members.

ghost use Rattle.demangle_cells.specs.View.{Holds, view};
ghost use Rattle.demangle_core.specs.Core.{Core};
ghost use Rattle.demangle_leaf_nodes.specs.TreeLeaves.{tree_of_builtin_type, tree_of_ctor_dtor_name};
ghost use Rattle.demangle_leaf_nodes.specs.TreeLeaves.{tree_of_operator_name, tree_of_parametric_builtin_type};
ghost use Rattle.demangle_leaf_nodes.specs.TreeLeaves.{tree_of_pointer_to_member_type, tree_of_prefix_handle};
ghost use Rattle.demangle_leaf_nodes.specs.TreeLeaves.{tree_of_qualified_builtin, tree_of_substitution};
ghost use Rattle.demangle_leaf_nodes.specs.TreeLeaves.{tree_of_template_template_param_handle, tree_of_type_handle};
ghost use Rattle.demangle_leaf_nodes.specs.TreeLeaves.{tree_of_unresolved_type_handle};
ghost use Rattle.demangle_leaf_nodes.specs.TreeLeaves.{tree_of_unscoped_template_name_handle};
ghost use Rattle.demangle_text.specs.declared.error.Error.TheVariants.{OutOfMemory};
ghost use Rattle.std.specs.Prelude.{IfErr, IfOk, ℕ, ◌≡◌};

use crate::leaves::{cv_qualifiers_from, non_substitution_from, source_name_from};
use crate::options::optional_type_handle_from;
use crate::parts::{byte_from, number_from};
use crate::words::{
    simple_operator_name_from, standard_builtin_type_from, well_known_component_from,
};
use demangle_cells::{Arena, Plain, Tag};
use demangle_leaf_nodes::{
    BuiltinType, CtorDtorName, NonSubstitution, OperatorName, ParametricBuiltinType,
    PointerToMemberType, PrefixHandle, QualifiedBuiltin, Substitution, TemplateTemplateParamHandle,
    TypeHandle, UnresolvedTypeHandle, UnscopedTemplateNameHandle,
};
use demangle_text::{Error, Result};

/// A `Substitution` out of its cell. Another cell is refused as `OutOfMemory`, the only refusal. ABI section 5.1.10.
pub fn substitution_from(arena: &Arena, id: u32) -> Result<Substitution>
    ensures made { IfOk result (λ n. (F : ℕ → Core) → Holds F (view arena.now) → F id ≡ tree_of_substitution n) }
    ensures refused { IfErr result (λ e. e ≡ OutOfMemory) }
{
    match arena.cell(id) {
        Some(Plain::Reference(number)) => Ok(Substitution::BackReference(number as usize)),
        Some(Plain::One(Tag::WellKnown, well_known_component)) => Ok(Substitution::WellKnown(
            well_known_component_from(arena, well_known_component)?,
        )),
        _ => Err(Error::OutOfMemory),
    }
}

/// A `PrefixHandle` out of its cell. Another cell is refused as `OutOfMemory`, the only refusal. ABI section 5.1.2.
pub fn prefix_handle_from(arena: &Arena, id: u32) -> Result<PrefixHandle>
    ensures made { IfOk result (λ n. (F : ℕ → Core) → Holds F (view arena.now) → F id ≡ tree_of_prefix_handle n) }
    ensures refused { IfErr result (λ e. e ≡ OutOfMemory) }
{
    match arena.cell(id) {
        Some(Plain::One(Tag::WellKnown, well_known_component)) => Ok(PrefixHandle::WellKnown(
            well_known_component_from(arena, well_known_component)?,
        )),
        Some(Plain::Reference(number)) => Ok(PrefixHandle::BackReference(number as usize)),
        Some(Plain::Other(number)) => Ok(PrefixHandle::NonSubstitution(NonSubstitution(
            number as usize,
        ))),
        _ => Err(Error::OutOfMemory),
    }
}

/// An `UnscopedTemplateNameHandle` out of its cell. Another cell is refused as `OutOfMemory`, the only refusal. ABI
/// section 5.1.2.
pub fn unscoped_template_name_handle_from(
    arena: &Arena,
    id: u32,
) -> Result<UnscopedTemplateNameHandle>
    ensures made { IfOk result (λ n. (F : ℕ → Core) → Holds F (view arena.now)
        → F id ≡ tree_of_unscoped_template_name_handle n) }
    ensures refused { IfErr result (λ e. e ≡ OutOfMemory) }
{
    match arena.cell(id) {
        Some(Plain::One(Tag::WellKnown, well_known_component)) => Ok(
            UnscopedTemplateNameHandle::WellKnown(well_known_component_from(
                arena,
                well_known_component,
            )?),
        ),
        Some(Plain::Reference(number)) => Ok(UnscopedTemplateNameHandle::BackReference(
            number as usize,
        )),
        Some(Plain::Other(number)) => Ok(UnscopedTemplateNameHandle::NonSubstitution(
            NonSubstitution(number as usize),
        )),
        _ => Err(Error::OutOfMemory),
    }
}

/// A `TemplateTemplateParamHandle` out of its cell. Another cell is refused as `OutOfMemory`, the only refusal. ABI
/// section 5.1.5.8.
pub fn template_template_param_handle_from(
    arena: &Arena,
    id: u32,
) -> Result<TemplateTemplateParamHandle>
    ensures made { IfOk result (λ n. (F : ℕ → Core) → Holds F (view arena.now)
        → F id ≡ tree_of_template_template_param_handle n) }
    ensures refused { IfErr result (λ e. e ≡ OutOfMemory) }
{
    match arena.cell(id) {
        Some(Plain::One(Tag::WellKnown, well_known_component)) => Ok(
            TemplateTemplateParamHandle::WellKnown(well_known_component_from(
                arena,
                well_known_component,
            )?),
        ),
        Some(Plain::Reference(number)) => Ok(TemplateTemplateParamHandle::BackReference(
            number as usize,
        )),
        _ => Err(Error::OutOfMemory),
    }
}

/// An `UnresolvedTypeHandle` out of its cell. Another cell is refused as `OutOfMemory`, the only refusal. ABI section
/// 5.1.6.
pub fn unresolved_type_handle_from(arena: &Arena, id: u32) -> Result<UnresolvedTypeHandle>
    ensures made { IfOk result (λ n. (F : ℕ → Core) → Holds F (view arena.now)
        → F id ≡ tree_of_unresolved_type_handle n) }
    ensures refused { IfErr result (λ e. e ≡ OutOfMemory) }
{
    match arena.cell(id) {
        Some(Plain::One(Tag::WellKnown, well_known_component)) => Ok(
            UnresolvedTypeHandle::WellKnown(well_known_component_from(
                arena,
                well_known_component,
            )?),
        ),
        Some(Plain::Reference(number)) => Ok(UnresolvedTypeHandle::BackReference(number as usize)),
        _ => Err(Error::OutOfMemory),
    }
}

/// A `TypeHandle` out of its cell. Another cell is refused as `OutOfMemory`, the only refusal. ABI section 5.1.5.
pub fn type_handle_from(arena: &Arena, id: u32) -> Result<TypeHandle>
    ensures made { IfOk result (λ n. (F : ℕ → Core) → Holds F (view arena.now) → F id ≡ tree_of_type_handle n) }
    ensures refused { IfErr result (λ e. e ≡ OutOfMemory) }
{
    match arena.cell(id) {
        Some(Plain::One(Tag::WellKnown, well_known_component)) => Ok(TypeHandle::WellKnown(
            well_known_component_from(arena, well_known_component)?,
        )),
        Some(Plain::Reference(number)) => Ok(TypeHandle::BackReference(number as usize)),
        Some(Plain::One(Tag::TypeHandleBuiltin, builtin_type)) => Ok(TypeHandle::Builtin(
            builtin_type_from(arena, builtin_type)?,
        )),
        Some(Plain::One(Tag::TypeHandleQualifiedBuiltin, qualified_builtin)) => Ok(
            TypeHandle::QualifiedBuiltin(qualified_builtin_from(arena, qualified_builtin)?),
        ),
        _ => Err(Error::OutOfMemory),
    }
}

/// A `BuiltinType` out of its cell. Another cell is refused as `OutOfMemory`, the only refusal. ABI section 5.1.5.2.
pub fn builtin_type_from(arena: &Arena, id: u32) -> Result<BuiltinType>
    ensures made { IfOk result (λ n. (F : ℕ → Core) → Holds F (view arena.now) → F id ≡ tree_of_builtin_type n) }
    ensures refused { IfErr result (λ e. e ≡ OutOfMemory) }
{
    match arena.cell(id) {
        Some(Plain::One(Tag::BuiltinTypeStandard, standard_builtin_type)) => Ok(
            BuiltinType::Standard(standard_builtin_type_from(arena, standard_builtin_type)?),
        ),
        Some(Plain::One(Tag::BuiltinTypeParametric, parametric_builtin_type)) => Ok(
            BuiltinType::Parametric(parametric_builtin_type_from(arena, parametric_builtin_type)?),
        ),
        Some(Plain::One(Tag::BuiltinTypeExtension, source_name)) => Ok(BuiltinType::Extension(
            source_name_from(arena, source_name)?,
        )),
        _ => Err(Error::OutOfMemory),
    }
}

/// A `QualifiedBuiltin` out of its cell. Another cell is refused as `OutOfMemory`, the only refusal.
pub fn qualified_builtin_from(arena: &Arena, id: u32) -> Result<QualifiedBuiltin>
    ensures made { IfOk result (λ n. (F : ℕ → Core) → Holds F (view arena.now) → F id ≡ tree_of_qualified_builtin n) }
    ensures refused { IfErr result (λ e. e ≡ OutOfMemory) }
{
    match arena.cell(id) {
        Some(Plain::Two(Tag::QualifiedBuiltin, cv_qualifiers, builtin_type)) => Ok(
            QualifiedBuiltin(
                cv_qualifiers_from(arena, cv_qualifiers)?,
                builtin_type_from(arena, builtin_type)?,
            ),
        ),
        _ => Err(Error::OutOfMemory),
    }
}

/// A `ParametricBuiltinType` out of its cell. Another cell is refused as `OutOfMemory`, the only refusal. ABI section
/// 5.1.5.2.
pub fn parametric_builtin_type_from(arena: &Arena, id: u32) -> Result<ParametricBuiltinType>
    ensures made { IfOk result (λ n. (F : ℕ → Core) → Holds F (view arena.now)
        → F id ≡ tree_of_parametric_builtin_type n) }
    ensures refused { IfErr result (λ e. e ≡ OutOfMemory) }
{
    match arena.cell(id) {
        Some(Plain::One(Tag::ParametricBuiltinTypeFloatN, number)) => Ok(
            ParametricBuiltinType::FloatN(number_from(arena, number)?),
        ),
        Some(Plain::One(Tag::ParametricBuiltinTypeFloatNx, number)) => Ok(
            ParametricBuiltinType::FloatNx(number_from(arena, number)?),
        ),
        Some(Plain::One(Tag::ParametricBuiltinTypeSignedBitInt, number)) => Ok(
            ParametricBuiltinType::SignedBitInt(number_from(arena, number)?),
        ),
        Some(Plain::One(Tag::ParametricBuiltinTypeUnsignedBitInt, number)) => Ok(
            ParametricBuiltinType::UnsignedBitInt(number_from(arena, number)?),
        ),
        Some(Plain::One(Tag::ParametricBuiltinTypeSignedBitIntExpression, non_substitution)) => Ok(
            ParametricBuiltinType::SignedBitIntExpression(non_substitution_from(
                arena,
                non_substitution,
            )?),
        ),
        Some(Plain::One(Tag::ParametricBuiltinTypeUnsignedBitIntExpression, non_substitution)) =>
            Ok(ParametricBuiltinType::UnsignedBitIntExpression(non_substitution_from(
                arena,
                non_substitution,
            )?)),
        _ => Err(Error::OutOfMemory),
    }
}

/// An `OperatorName` out of its cell. Another cell is refused as `OutOfMemory`, the only refusal. ABI section 5.1.3.
pub fn operator_name_from(arena: &Arena, id: u32) -> Result<OperatorName>
    ensures made { IfOk result (λ n. (F : ℕ → Core) → Holds F (view arena.now) → F id ≡ tree_of_operator_name n) }
    ensures refused { IfErr result (λ e. e ≡ OutOfMemory) }
{
    match arena.cell(id) {
        Some(Plain::One(Tag::OperatorNameSimple, simple_operator_name)) => Ok(OperatorName::Simple(
            simple_operator_name_from(arena, simple_operator_name)?,
        )),
        Some(Plain::One(Tag::OperatorNameCast, type_handle)) => Ok(OperatorName::Cast(
            type_handle_from(arena, type_handle)?,
        )),
        Some(Plain::One(Tag::OperatorNameConversion, type_handle)) => Ok(OperatorName::Conversion(
            type_handle_from(arena, type_handle)?,
        )),
        Some(Plain::One(Tag::OperatorNameLiteral, source_name)) => Ok(OperatorName::Literal(
            source_name_from(arena, source_name)?,
        )),
        Some(Plain::Two(Tag::OperatorNameVendorExtension, byte, source_name)) => Ok(
            OperatorName::VendorExtension(
                byte_from(arena, byte)?,
                source_name_from(arena, source_name)?,
            ),
        ),
        _ => Err(Error::OutOfMemory),
    }
}

/// A `CtorDtorName` out of its cell. Another cell is refused as `OutOfMemory`, the only refusal. ABI section 5.1.4.3.
pub fn ctor_dtor_name_from(arena: &Arena, id: u32) -> Result<CtorDtorName>
    ensures made { IfOk result (λ n. (F : ℕ → Core) → Holds F (view arena.now) → F id ≡ tree_of_ctor_dtor_name n) }
    ensures refused { IfErr result (λ e. e ≡ OutOfMemory) }
{
    match arena.cell(id) {
        Some(Plain::One(Tag::CtorDtorNameCompleteConstructor, type_handle)) => Ok(
            CtorDtorName::CompleteConstructor(optional_type_handle_from(arena, type_handle)?),
        ),
        Some(Plain::One(Tag::CtorDtorNameBaseConstructor, type_handle)) => Ok(
            CtorDtorName::BaseConstructor(optional_type_handle_from(arena, type_handle)?),
        ),
        Some(Plain::One(Tag::CtorDtorNameCompleteAllocatingConstructor, type_handle)) => Ok(
            CtorDtorName::CompleteAllocatingConstructor(optional_type_handle_from(
                arena,
                type_handle,
            )?),
        ),
        Some(Plain::One(Tag::CtorDtorNameMaybeInChargeConstructor, type_handle)) => Ok(
            CtorDtorName::MaybeInChargeConstructor(optional_type_handle_from(arena, type_handle)?),
        ),
        Some(Plain::Empty(Tag::CtorDtorNameDeletingDestructor)) => Ok(
            CtorDtorName::DeletingDestructor,
        ),
        Some(Plain::Empty(Tag::CtorDtorNameCompleteDestructor)) => Ok(
            CtorDtorName::CompleteDestructor,
        ),
        Some(Plain::Empty(Tag::CtorDtorNameBaseDestructor)) => Ok(CtorDtorName::BaseDestructor),
        Some(Plain::Empty(Tag::CtorDtorNameMaybeInChargeDestructor)) => Ok(
            CtorDtorName::MaybeInChargeDestructor,
        ),
        _ => Err(Error::OutOfMemory),
    }
}

/// A `PointerToMemberType` out of its cell. Another cell is refused as `OutOfMemory`, the only refusal. ABI section
/// 5.1.5.6.
pub fn pointer_to_member_type_from(arena: &Arena, id: u32) -> Result<PointerToMemberType>
    ensures made { IfOk result (λ n. (F : ℕ → Core) → Holds F (view arena.now)
        → F id ≡ tree_of_pointer_to_member_type n) }
    ensures refused { IfErr result (λ e. e ≡ OutOfMemory) }
{
    match arena.cell(id) {
        Some(Plain::Two(Tag::PointerToMemberType, first_type_handle, second_type_handle)) => Ok(
            PointerToMemberType(
                type_handle_from(arena, first_type_handle)?,
                type_handle_from(arena, second_type_handle)?,
            ),
        ),
        _ => Err(Error::OutOfMemory),
    }
}
