//! Equality of the node types of `leaves` below signatures and names: that of their trees.

ghost use Rattle.std.specs.Cmp.{on_per, on_equiv, partial_equiv_from_equiv};
ghost use Rattle.demangle_core.specs.Core.{same};
ghost use Rattle.demangle_core.specs.Same.{same_equiv};
ghost use Rattle.demangle_leaf_nodes.specs.TreeLeaves.{tree_of_non_substitution, tree_of_seq_id};
ghost use Rattle.demangle_leaf_nodes.specs.TreeLeaves.{tree_of_template_param, tree_of_discriminator};
ghost use Rattle.demangle_leaf_nodes.specs.TreeLeaves.{tree_of_identifier, tree_of_clone_type_identifier};
ghost use Rattle.demangle_leaf_nodes.specs.TreeLeaves.{tree_of_resource_name, tree_of_source_name, tree_of_abi_tag};
ghost use Rattle.demangle_leaf_nodes.specs.TreeLeaves.{tree_of_abi_tags, tree_of_data_member_prefix};
ghost use Rattle.demangle_leaf_nodes.specs.TreeLeaves.{tree_of_clone_suffix, tree_of_cv_qualifiers, tree_of_nv_offset};
ghost use Rattle.demangle_leaf_nodes.specs.TreeLeaves.{tree_of_v_offset, tree_of_call_offset, tree_of_function_param};
ghost use Rattle.demangle_leaf_nodes.specs.TreeLeaves.{tree_of_template_template_param, tree_of_unnamed_type_name};
ghost use Rattle.demangle_leaf_nodes.specs.TreeLeaves.{tree_of_substitution, tree_of_prefix_handle};
ghost use Rattle.demangle_leaf_nodes.specs.TreeLeaves.{tree_of_unscoped_template_name_handle};
ghost use Rattle.demangle_leaf_nodes.specs.TreeLeaves.{tree_of_template_template_param_handle};
ghost use Rattle.demangle_leaf_nodes.specs.TreeLeaves.{tree_of_unresolved_type_handle, tree_of_type_handle};
ghost use Rattle.demangle_leaf_nodes.specs.TreeLeaves.{tree_of_builtin_type, tree_of_qualified_builtin};
ghost use Rattle.demangle_leaf_nodes.specs.TreeLeaves.{tree_of_parametric_builtin_type, tree_of_operator_name};
ghost use Rattle.demangle_leaf_nodes.specs.TreeLeaves.{tree_of_ctor_dtor_name};

use crate::leaves::{
    AbiTag, AbiTags, BuiltinType, CallOffset, CloneSuffix, CloneTypeIdentifier, CtorDtorName,
    CvQualifiers, DataMemberPrefix, Discriminator, FunctionParam, Identifier, NonSubstitution,
    NvOffset, OperatorName, ParametricBuiltinType, PrefixHandle, QualifiedBuiltin, ResourceName,
    SeqId, SourceName, Substitution, TemplateParam, TemplateTemplateParam,
    TemplateTemplateParamHandle, TypeHandle, UnnamedTypeName, UnresolvedTypeHandle,
    UnscopedTemplateNameHandle, VOffset,
};

impl PartialEq for NonSubstitution {
    ghost eq = { λ a b. same (tree_of_non_substitution a) (tree_of_non_substitution b) };

    ghost laws = { on_per tree_of_non_substitution (partial_equiv_from_equiv same_equiv) };

    #[tactic(auto, using(crate::proofs::Same::rows))]
    fn eq(&self, other: &NonSubstitution) -> bool {
        self.0 == other.0
    }
}

impl Eq for NonSubstitution {
    ghost laws = { on_equiv tree_of_non_substitution same_equiv };
}

impl PartialEq for SeqId {
    ghost eq = { λ a b. same (tree_of_seq_id a) (tree_of_seq_id b) };

    ghost laws = { on_per tree_of_seq_id (partial_equiv_from_equiv same_equiv) };

    #[tactic(auto, using(crate::proofs::Same::rows))]
    fn eq(&self, other: &SeqId) -> bool {
        self.0 == other.0
    }
}

impl Eq for SeqId {
    ghost laws = { on_equiv tree_of_seq_id same_equiv };
}

impl PartialEq for TemplateParam {
    ghost eq = { λ a b. same (tree_of_template_param a) (tree_of_template_param b) };

    ghost laws = { on_per tree_of_template_param (partial_equiv_from_equiv same_equiv) };

    #[tactic(auto, using(crate::proofs::Same::rows))]
    fn eq(&self, other: &TemplateParam) -> bool {
        self.0 == other.0
    }
}

impl Eq for TemplateParam {
    ghost laws = { on_equiv tree_of_template_param same_equiv };
}

impl PartialEq for Discriminator {
    ghost eq = { λ a b. same (tree_of_discriminator a) (tree_of_discriminator b) };

    ghost laws = { on_per tree_of_discriminator (partial_equiv_from_equiv same_equiv) };

    #[tactic(auto, using(crate::proofs::Same::rows))]
    fn eq(&self, other: &Discriminator) -> bool {
        self.0 == other.0
    }
}

impl Eq for Discriminator {
    ghost laws = { on_equiv tree_of_discriminator same_equiv };
}

impl PartialEq for Identifier {
    ghost eq = { λ a b. same (tree_of_identifier a) (tree_of_identifier b) };

    ghost laws = { on_per tree_of_identifier (partial_equiv_from_equiv same_equiv) };

    #[tactic(auto, using(crate::proofs::Same::rows))]
    fn eq(&self, other: &Identifier) -> bool {
        self.start == other.start && self.end == other.end
    }
}

impl Eq for Identifier {
    ghost laws = { on_equiv tree_of_identifier same_equiv };
}

impl PartialEq for CloneTypeIdentifier {
    ghost eq = { λ a b. same (tree_of_clone_type_identifier a) (tree_of_clone_type_identifier b) };

    ghost laws = { on_per tree_of_clone_type_identifier (partial_equiv_from_equiv same_equiv) };

    #[tactic(auto, using(crate::proofs::Same::rows))]
    fn eq(&self, other: &CloneTypeIdentifier) -> bool {
        self.start == other.start && self.end == other.end
    }
}

impl Eq for CloneTypeIdentifier {
    ghost laws = { on_equiv tree_of_clone_type_identifier same_equiv };
}

impl PartialEq for ResourceName {
    ghost eq = { λ a b. same (tree_of_resource_name a) (tree_of_resource_name b) };

    ghost laws = { on_per tree_of_resource_name (partial_equiv_from_equiv same_equiv) };

    #[tactic(auto, using(crate::proofs::Same::rows))]
    fn eq(&self, other: &ResourceName) -> bool {
        self.start == other.start && self.end == other.end
    }
}

impl Eq for ResourceName {
    ghost laws = { on_equiv tree_of_resource_name same_equiv };
}

impl PartialEq for SourceName {
    ghost eq = { λ a b. same (tree_of_source_name a) (tree_of_source_name b) };

    ghost laws = { on_per tree_of_source_name (partial_equiv_from_equiv same_equiv) };

    #[tactic(auto, using(crate::proofs::Same::rows))]
    fn eq(&self, other: &SourceName) -> bool {
        self.0 == other.0
    }
}

impl Eq for SourceName {
    ghost laws = { on_equiv tree_of_source_name same_equiv };
}

impl PartialEq for AbiTag {
    ghost eq = { λ a b. same (tree_of_abi_tag a) (tree_of_abi_tag b) };

    ghost laws = { on_per tree_of_abi_tag (partial_equiv_from_equiv same_equiv) };

    #[tactic(auto, using(crate::proofs::Same::rows))]
    fn eq(&self, other: &AbiTag) -> bool {
        self.0 == other.0
    }
}

impl Eq for AbiTag {
    ghost laws = { on_equiv tree_of_abi_tag same_equiv };
}

impl PartialEq for AbiTags {
    ghost eq = { λ a b. same (tree_of_abi_tags a) (tree_of_abi_tags b) };

    ghost laws = { on_per tree_of_abi_tags (partial_equiv_from_equiv same_equiv) };

    #[tactic(auto, using(crate::proofs::Same::rows))]
    fn eq(&self, other: &AbiTags) -> bool {
        self.0 == other.0
    }
}

impl Eq for AbiTags {
    ghost laws = { on_equiv tree_of_abi_tags same_equiv };
}

impl PartialEq for DataMemberPrefix {
    ghost eq = { λ a b. same (tree_of_data_member_prefix a) (tree_of_data_member_prefix b) };

    ghost laws = { on_per tree_of_data_member_prefix (partial_equiv_from_equiv same_equiv) };

    #[tactic(auto, using(crate::proofs::Same::rows))]
    fn eq(&self, other: &DataMemberPrefix) -> bool {
        self.0 == other.0
    }
}

impl Eq for DataMemberPrefix {
    ghost laws = { on_equiv tree_of_data_member_prefix same_equiv };
}

impl PartialEq for CloneSuffix {
    ghost eq = { λ a b. same (tree_of_clone_suffix a) (tree_of_clone_suffix b) };

    ghost laws = { on_per tree_of_clone_suffix (partial_equiv_from_equiv same_equiv) };

    #[tactic(auto, using(crate::proofs::Same::rows))]
    fn eq(&self, other: &CloneSuffix) -> bool {
        self.0 == other.0 && self.1 == other.1
    }
}

impl Eq for CloneSuffix {
    ghost laws = { on_equiv tree_of_clone_suffix same_equiv };
}

impl PartialEq for CvQualifiers {
    ghost eq = { λ a b. same (tree_of_cv_qualifiers a) (tree_of_cv_qualifiers b) };

    ghost laws = { on_per tree_of_cv_qualifiers (partial_equiv_from_equiv same_equiv) };

    #[tactic(auto, using(crate::proofs::Same::rows))]
    fn eq(&self, other: &CvQualifiers) -> bool {
        self.restrict == other.restrict
            && self.volatile == other.volatile
            && self.const_ == other.const_
    }
}

impl Eq for CvQualifiers {
    ghost laws = { on_equiv tree_of_cv_qualifiers same_equiv };
}

impl PartialEq for NvOffset {
    ghost eq = { λ a b. same (tree_of_nv_offset a) (tree_of_nv_offset b) };

    ghost laws = { on_per tree_of_nv_offset (partial_equiv_from_equiv same_equiv) };

    #[tactic(auto, using(crate::proofs::Same::rows))]
    fn eq(&self, other: &NvOffset) -> bool {
        self.0 == other.0
    }
}

impl Eq for NvOffset {
    ghost laws = { on_equiv tree_of_nv_offset same_equiv };
}

impl PartialEq for VOffset {
    ghost eq = { λ a b. same (tree_of_v_offset a) (tree_of_v_offset b) };

    ghost laws = { on_per tree_of_v_offset (partial_equiv_from_equiv same_equiv) };

    #[tactic(auto, using(crate::proofs::Same::rows))]
    fn eq(&self, other: &VOffset) -> bool {
        self.0 == other.0 && self.1 == other.1
    }
}

impl Eq for VOffset {
    ghost laws = { on_equiv tree_of_v_offset same_equiv };
}

impl PartialEq for CallOffset {
    ghost eq = { λ a b. same (tree_of_call_offset a) (tree_of_call_offset b) };

    ghost laws = { on_per tree_of_call_offset (partial_equiv_from_equiv same_equiv) };

    #[tactic(auto, using(crate::proofs::Same::rows))]
    fn eq(&self, other: &CallOffset) -> bool {
        match self {
            CallOffset::NonVirtual(a) => match other {
                CallOffset::NonVirtual(other_a) => a == other_a,
                _ => false,
            },
            CallOffset::Virtual(a) => match other {
                CallOffset::Virtual(other_a) => a == other_a,
                _ => false,
            },
        }
    }
}

impl Eq for CallOffset {
    ghost laws = { on_equiv tree_of_call_offset same_equiv };
}

impl PartialEq for FunctionParam {
    ghost eq = { λ a b. same (tree_of_function_param a) (tree_of_function_param b) };

    ghost laws = { on_per tree_of_function_param (partial_equiv_from_equiv same_equiv) };

    #[tactic(auto, using(crate::proofs::Same::rows))]
    fn eq(&self, other: &FunctionParam) -> bool {
        self.0 == other.0 && self.1 == other.1 && self.2 == other.2
    }
}

impl Eq for FunctionParam {
    ghost laws = { on_equiv tree_of_function_param same_equiv };
}

impl PartialEq for TemplateTemplateParam {
    ghost eq = { λ a b. same (tree_of_template_template_param a) (tree_of_template_template_param b) };

    ghost laws = { on_per tree_of_template_template_param (partial_equiv_from_equiv same_equiv) };

    #[tactic(auto, using(crate::proofs::Same::rows))]
    fn eq(&self, other: &TemplateTemplateParam) -> bool {
        self.0 == other.0
    }
}

impl Eq for TemplateTemplateParam {
    ghost laws = { on_equiv tree_of_template_template_param same_equiv };
}

impl PartialEq for UnnamedTypeName {
    ghost eq = { λ a b. same (tree_of_unnamed_type_name a) (tree_of_unnamed_type_name b) };

    ghost laws = { on_per tree_of_unnamed_type_name (partial_equiv_from_equiv same_equiv) };

    #[tactic(auto, using(crate::proofs::Same::rows))]
    fn eq(&self, other: &UnnamedTypeName) -> bool {
        self.0 == other.0
    }
}

impl Eq for UnnamedTypeName {
    ghost laws = { on_equiv tree_of_unnamed_type_name same_equiv };
}

impl PartialEq for Substitution {
    ghost eq = { λ a b. same (tree_of_substitution a) (tree_of_substitution b) };

    ghost laws = { on_per tree_of_substitution (partial_equiv_from_equiv same_equiv) };

    #[tactic(auto, using(crate::proofs::Same::rows))]
    fn eq(&self, other: &Substitution) -> bool {
        match self {
            Substitution::BackReference(a) => match other {
                Substitution::BackReference(other_a) => a == other_a,
                _ => false,
            },
            Substitution::WellKnown(a) => match other {
                Substitution::WellKnown(other_a) => a.number() == other_a.number(),
                _ => false,
            },
        }
    }
}

impl Eq for Substitution {
    ghost laws = { on_equiv tree_of_substitution same_equiv };
}

impl PartialEq for PrefixHandle {
    ghost eq = { λ a b. same (tree_of_prefix_handle a) (tree_of_prefix_handle b) };

    ghost laws = { on_per tree_of_prefix_handle (partial_equiv_from_equiv same_equiv) };

    #[tactic(auto, using(crate::proofs::Same::rows))]
    fn eq(&self, other: &PrefixHandle) -> bool {
        match self {
            PrefixHandle::WellKnown(a) => match other {
                PrefixHandle::WellKnown(other_a) => a.number() == other_a.number(),
                _ => false,
            },
            PrefixHandle::BackReference(a) => match other {
                PrefixHandle::BackReference(other_a) => a == other_a,
                _ => false,
            },
            PrefixHandle::NonSubstitution(a) => match other {
                PrefixHandle::NonSubstitution(other_a) => a == other_a,
                _ => false,
            },
        }
    }
}

impl Eq for PrefixHandle {
    ghost laws = { on_equiv tree_of_prefix_handle same_equiv };
}

impl PartialEq for UnscopedTemplateNameHandle {
    ghost eq = { λ a b. same (tree_of_unscoped_template_name_handle a) (tree_of_unscoped_template_name_handle b) };

    ghost laws = { on_per tree_of_unscoped_template_name_handle (partial_equiv_from_equiv same_equiv) };

    #[tactic(auto, using(crate::proofs::Same::rows))]
    fn eq(&self, other: &UnscopedTemplateNameHandle) -> bool {
        match self {
            UnscopedTemplateNameHandle::WellKnown(a) => match other {
                UnscopedTemplateNameHandle::WellKnown(other_a) => a.number() == other_a.number(),
                _ => false,
            },
            UnscopedTemplateNameHandle::BackReference(a) => match other {
                UnscopedTemplateNameHandle::BackReference(other_a) => a == other_a,
                _ => false,
            },
            UnscopedTemplateNameHandle::NonSubstitution(a) => match other {
                UnscopedTemplateNameHandle::NonSubstitution(other_a) => a == other_a,
                _ => false,
            },
        }
    }
}

impl Eq for UnscopedTemplateNameHandle {
    ghost laws = { on_equiv tree_of_unscoped_template_name_handle same_equiv };
}

impl PartialEq for TemplateTemplateParamHandle {
    ghost eq = { λ a b. same (tree_of_template_template_param_handle a) (tree_of_template_template_param_handle b) };

    ghost laws = { on_per tree_of_template_template_param_handle (partial_equiv_from_equiv same_equiv) };

    #[tactic(auto, using(crate::proofs::Same::rows))]
    fn eq(&self, other: &TemplateTemplateParamHandle) -> bool {
        match self {
            TemplateTemplateParamHandle::WellKnown(a) => match other {
                TemplateTemplateParamHandle::WellKnown(other_a) => a.number() == other_a.number(),
                _ => false,
            },
            TemplateTemplateParamHandle::BackReference(a) => match other {
                TemplateTemplateParamHandle::BackReference(other_a) => a == other_a,
                _ => false,
            },
        }
    }
}

impl Eq for TemplateTemplateParamHandle {
    ghost laws = { on_equiv tree_of_template_template_param_handle same_equiv };
}

impl PartialEq for UnresolvedTypeHandle {
    ghost eq = { λ a b. same (tree_of_unresolved_type_handle a) (tree_of_unresolved_type_handle b) };

    ghost laws = { on_per tree_of_unresolved_type_handle (partial_equiv_from_equiv same_equiv) };

    #[tactic(auto, using(crate::proofs::Same::rows))]
    fn eq(&self, other: &UnresolvedTypeHandle) -> bool {
        match self {
            UnresolvedTypeHandle::WellKnown(a) => match other {
                UnresolvedTypeHandle::WellKnown(other_a) => a.number() == other_a.number(),
                _ => false,
            },
            UnresolvedTypeHandle::BackReference(a) => match other {
                UnresolvedTypeHandle::BackReference(other_a) => a == other_a,
                _ => false,
            },
        }
    }
}

impl Eq for UnresolvedTypeHandle {
    ghost laws = { on_equiv tree_of_unresolved_type_handle same_equiv };
}

impl PartialEq for TypeHandle {
    ghost eq = { λ a b. same (tree_of_type_handle a) (tree_of_type_handle b) };

    ghost laws = { on_per tree_of_type_handle (partial_equiv_from_equiv same_equiv) };

    #[tactic(auto, using(crate::proofs::Same::rows))]
    fn eq(&self, other: &TypeHandle) -> bool {
        match self {
            TypeHandle::WellKnown(a) => match other {
                TypeHandle::WellKnown(other_a) => a.number() == other_a.number(),
                _ => false,
            },
            TypeHandle::BackReference(a) => match other {
                TypeHandle::BackReference(other_a) => a == other_a,
                _ => false,
            },
            TypeHandle::Builtin(a) => match other {
                TypeHandle::Builtin(other_a) => a == other_a,
                _ => false,
            },
            TypeHandle::QualifiedBuiltin(a) => match other {
                TypeHandle::QualifiedBuiltin(other_a) => a == other_a,
                _ => false,
            },
        }
    }
}

impl Eq for TypeHandle {
    ghost laws = { on_equiv tree_of_type_handle same_equiv };
}

impl PartialEq for BuiltinType {
    ghost eq = { λ a b. same (tree_of_builtin_type a) (tree_of_builtin_type b) };

    ghost laws = { on_per tree_of_builtin_type (partial_equiv_from_equiv same_equiv) };

    #[tactic(auto, using(crate::proofs::Same::rows))]
    fn eq(&self, other: &BuiltinType) -> bool {
        match self {
            BuiltinType::Standard(a) => match other {
                BuiltinType::Standard(other_a) => a.number() == other_a.number(),
                _ => false,
            },
            BuiltinType::Parametric(a) => match other {
                BuiltinType::Parametric(other_a) => a == other_a,
                _ => false,
            },
            BuiltinType::Extension(a) => match other {
                BuiltinType::Extension(other_a) => a == other_a,
                _ => false,
            },
        }
    }
}

impl Eq for BuiltinType {
    ghost laws = { on_equiv tree_of_builtin_type same_equiv };
}

impl PartialEq for QualifiedBuiltin {
    ghost eq = { λ a b. same (tree_of_qualified_builtin a) (tree_of_qualified_builtin b) };

    ghost laws = { on_per tree_of_qualified_builtin (partial_equiv_from_equiv same_equiv) };

    #[tactic(auto, using(crate::proofs::Same::rows))]
    fn eq(&self, other: &QualifiedBuiltin) -> bool {
        self.0 == other.0 && self.1 == other.1
    }
}

impl Eq for QualifiedBuiltin {
    ghost laws = { on_equiv tree_of_qualified_builtin same_equiv };
}

impl PartialEq for ParametricBuiltinType {
    ghost eq = { λ a b. same (tree_of_parametric_builtin_type a) (tree_of_parametric_builtin_type b) };

    ghost laws = { on_per tree_of_parametric_builtin_type (partial_equiv_from_equiv same_equiv) };

    #[tactic(auto, using(crate::proofs::Same::rows))]
    fn eq(&self, other: &ParametricBuiltinType) -> bool {
        match self {
            ParametricBuiltinType::FloatN(a) => match other {
                ParametricBuiltinType::FloatN(other_a) => a == other_a,
                _ => false,
            },
            ParametricBuiltinType::FloatNx(a) => match other {
                ParametricBuiltinType::FloatNx(other_a) => a == other_a,
                _ => false,
            },
            ParametricBuiltinType::SignedBitInt(a) => match other {
                ParametricBuiltinType::SignedBitInt(other_a) => a == other_a,
                _ => false,
            },
            ParametricBuiltinType::UnsignedBitInt(a) => match other {
                ParametricBuiltinType::UnsignedBitInt(other_a) => a == other_a,
                _ => false,
            },
            ParametricBuiltinType::SignedBitIntExpression(a) => match other {
                ParametricBuiltinType::SignedBitIntExpression(other_a) => a == other_a,
                _ => false,
            },
            ParametricBuiltinType::UnsignedBitIntExpression(a) => match other {
                ParametricBuiltinType::UnsignedBitIntExpression(other_a) => a == other_a,
                _ => false,
            },
        }
    }
}

impl Eq for ParametricBuiltinType {
    ghost laws = { on_equiv tree_of_parametric_builtin_type same_equiv };
}

impl PartialEq for OperatorName {
    ghost eq = { λ a b. same (tree_of_operator_name a) (tree_of_operator_name b) };

    ghost laws = { on_per tree_of_operator_name (partial_equiv_from_equiv same_equiv) };

    #[tactic(auto, using(crate::proofs::Same::rows))]
    fn eq(&self, other: &OperatorName) -> bool {
        match self {
            OperatorName::Simple(a) => match other {
                OperatorName::Simple(other_a) => a.number() == other_a.number(),
                _ => false,
            },
            OperatorName::Cast(a) => match other {
                OperatorName::Cast(other_a) => a == other_a,
                _ => false,
            },
            OperatorName::Conversion(a) => match other {
                OperatorName::Conversion(other_a) => a == other_a,
                _ => false,
            },
            OperatorName::Literal(a) => match other {
                OperatorName::Literal(other_a) => a == other_a,
                _ => false,
            },
            OperatorName::VendorExtension(a, b) => match other {
                OperatorName::VendorExtension(other_a, other_b) => a == other_a && b == other_b,
                _ => false,
            },
        }
    }
}

impl Eq for OperatorName {
    ghost laws = { on_equiv tree_of_operator_name same_equiv };
}

impl PartialEq for CtorDtorName {
    ghost eq = { λ a b. same (tree_of_ctor_dtor_name a) (tree_of_ctor_dtor_name b) };

    ghost laws = { on_per tree_of_ctor_dtor_name (partial_equiv_from_equiv same_equiv) };

    #[tactic(auto, using(crate::proofs::Same::rows))]
    fn eq(&self, other: &CtorDtorName) -> bool {
        match self {
            CtorDtorName::CompleteConstructor(a) => match other {
                CtorDtorName::CompleteConstructor(other_a) => a == other_a,
                _ => false,
            },
            CtorDtorName::BaseConstructor(a) => match other {
                CtorDtorName::BaseConstructor(other_a) => a == other_a,
                _ => false,
            },
            CtorDtorName::CompleteAllocatingConstructor(a) => match other {
                CtorDtorName::CompleteAllocatingConstructor(other_a) => a == other_a,
                _ => false,
            },
            CtorDtorName::MaybeInChargeConstructor(a) => match other {
                CtorDtorName::MaybeInChargeConstructor(other_a) => a == other_a,
                _ => false,
            },
            CtorDtorName::DeletingDestructor => match other {
                CtorDtorName::DeletingDestructor => true,
                _ => false,
            },
            CtorDtorName::CompleteDestructor => match other {
                CtorDtorName::CompleteDestructor => true,
                _ => false,
            },
            CtorDtorName::BaseDestructor => match other {
                CtorDtorName::BaseDestructor => true,
                _ => false,
            },
            CtorDtorName::MaybeInChargeDestructor => match other {
                CtorDtorName::MaybeInChargeDestructor => true,
                _ => false,
            },
        }
    }
}

impl Eq for CtorDtorName {
    ghost laws = { on_equiv tree_of_ctor_dtor_name same_equiv };
}
