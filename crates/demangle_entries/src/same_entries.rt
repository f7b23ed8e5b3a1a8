//! Equality of the node types of `entries`: that of their trees.

ghost use Rattle.std.specs.Prelude.{◌≡◌};
ghost use Rattle.std.specs.Cmp.{on_per, on_equiv, partial_equiv_from_equiv};
ghost use Rattle.demangle_core.specs.Core.{same};
ghost use Rattle.demangle_core.specs.Same.{same_equiv};
ghost use Rattle.demangle_leaf_nodes.specs.TreeLeaves.{tree_of_option, tree_of_ref_qualifier};
ghost use Rattle.demangle_entries.specs.TreeEntries.{tree_of_decltype, tree_of_prefix, tree_of_array_type};
ghost use Rattle.demangle_entries.specs.TreeEntries.{tree_of_vector_type, tree_of_class_enum_type};
ghost use Rattle.demangle_entries.specs.TreeEntries.{tree_of_exception_spec, tree_of_function_type, tree_of_type_node};
ghost use Rattle.demangle_entries.specs.TreeEntries.{tree_of_unresolved_type, tree_of_substitutable};

use crate::entries::{
    ArrayType, ClassEnumType, Decltype, ExceptionSpec, FunctionType, Prefix, Substitutable,
    TypeNode, UnresolvedType, VectorType,
};
use demangle_vocab::RefQualifier;

impl PartialEq for Decltype {
    ghost eq = { λ a b. same (tree_of_decltype a) (tree_of_decltype b) };

    ghost laws = { on_per tree_of_decltype (partial_equiv_from_equiv same_equiv) };

    #[tactic(auto, using(demangle_leaf_nodes::proofs::Same::rows))]
    fn eq(&self, other: &Decltype) -> bool {
        match self {
            Decltype::IdExpression(a) => match other {
                Decltype::IdExpression(other_a) => a == other_a,
                _ => false,
            },
            Decltype::Expression(a) => match other {
                Decltype::Expression(other_a) => a == other_a,
                _ => false,
            },
        }
    }
}

impl Eq for Decltype {
    ghost laws = { on_equiv tree_of_decltype same_equiv };
}

impl PartialEq for Prefix {
    ghost eq = { λ a b. same (tree_of_prefix a) (tree_of_prefix b) };

    ghost laws = { on_per tree_of_prefix (partial_equiv_from_equiv same_equiv) };

    #[tactic(auto, using(demangle_leaf_nodes::proofs::Same::rows))]
    fn eq(&self, other: &Prefix) -> bool {
        match self {
            Prefix::Unqualified(a) => match other {
                Prefix::Unqualified(other_a) => a == other_a,
                _ => false,
            },
            Prefix::Nested(a, b) => match other {
                Prefix::Nested(other_a, other_b) => a == other_a && b == other_b,
                _ => false,
            },
            Prefix::Template(a, b) => match other {
                Prefix::Template(other_a, other_b) => a == other_a && b == other_b,
                _ => false,
            },
            Prefix::TemplateParam(a) => match other {
                Prefix::TemplateParam(other_a) => a == other_a,
                _ => false,
            },
            Prefix::Decltype(a) => match other {
                Prefix::Decltype(other_a) => a == other_a,
                _ => false,
            },
            Prefix::DataMember(a, b) => match other {
                Prefix::DataMember(other_a, other_b) => a == other_a && b == other_b,
                _ => false,
            },
        }
    }
}

impl Eq for Prefix {
    ghost laws = { on_equiv tree_of_prefix same_equiv };
}

impl PartialEq for ArrayType {
    ghost eq = { λ a b. same (tree_of_array_type a) (tree_of_array_type b) };

    ghost laws = { on_per tree_of_array_type (partial_equiv_from_equiv same_equiv) };

    #[tactic(auto, using(demangle_leaf_nodes::proofs::Same::rows))]
    fn eq(&self, other: &ArrayType) -> bool {
        match self {
            ArrayType::DimensionNumber(a, b) => match other {
                ArrayType::DimensionNumber(other_a, other_b) => a == other_a && b == other_b,
                _ => false,
            },
            ArrayType::DimensionExpression(a, b) => match other {
                ArrayType::DimensionExpression(other_a, other_b) => a == other_a && b == other_b,
                _ => false,
            },
            ArrayType::NoDimension(a) => match other {
                ArrayType::NoDimension(other_a) => a == other_a,
                _ => false,
            },
        }
    }
}

impl Eq for ArrayType {
    ghost laws = { on_equiv tree_of_array_type same_equiv };
}

impl PartialEq for VectorType {
    ghost eq = { λ a b. same (tree_of_vector_type a) (tree_of_vector_type b) };

    ghost laws = { on_per tree_of_vector_type (partial_equiv_from_equiv same_equiv) };

    #[tactic(auto, using(demangle_leaf_nodes::proofs::Same::rows))]
    fn eq(&self, other: &VectorType) -> bool {
        match self {
            VectorType::DimensionNumber(a, b) => match other {
                VectorType::DimensionNumber(other_a, other_b) => a == other_a && b == other_b,
                _ => false,
            },
            VectorType::DimensionExpression(a, b) => match other {
                VectorType::DimensionExpression(other_a, other_b) => a == other_a && b == other_b,
                _ => false,
            },
        }
    }
}

impl Eq for VectorType {
    ghost laws = { on_equiv tree_of_vector_type same_equiv };
}

impl PartialEq for ClassEnumType {
    ghost eq = { λ a b. same (tree_of_class_enum_type a) (tree_of_class_enum_type b) };

    ghost laws = { on_per tree_of_class_enum_type (partial_equiv_from_equiv same_equiv) };

    #[tactic(auto, using(demangle_leaf_nodes::proofs::Same::rows))]
    fn eq(&self, other: &ClassEnumType) -> bool {
        match self {
            ClassEnumType::Named(a) => match other {
                ClassEnumType::Named(other_a) => a == other_a,
                _ => false,
            },
            ClassEnumType::ElaboratedStruct(a) => match other {
                ClassEnumType::ElaboratedStruct(other_a) => a == other_a,
                _ => false,
            },
            ClassEnumType::ElaboratedUnion(a) => match other {
                ClassEnumType::ElaboratedUnion(other_a) => a == other_a,
                _ => false,
            },
            ClassEnumType::ElaboratedEnum(a) => match other {
                ClassEnumType::ElaboratedEnum(other_a) => a == other_a,
                _ => false,
            },
        }
    }
}

impl Eq for ClassEnumType {
    ghost laws = { on_equiv tree_of_class_enum_type same_equiv };
}

impl PartialEq for ExceptionSpec {
    ghost eq = { λ a b. same (tree_of_exception_spec a) (tree_of_exception_spec b) };

    ghost laws = { on_per tree_of_exception_spec (partial_equiv_from_equiv same_equiv) };

    #[tactic(auto, using(demangle_leaf_nodes::proofs::Same::rows))]
    fn eq(&self, other: &ExceptionSpec) -> bool {
        match self {
            ExceptionSpec::NoExcept => match other {
                ExceptionSpec::NoExcept => true,
                _ => false,
            },
            ExceptionSpec::Computed(a) => match other {
                ExceptionSpec::Computed(other_a) => a == other_a,
                _ => false,
            },
        }
    }
}

impl Eq for ExceptionSpec {
    ghost laws = { on_equiv tree_of_exception_spec same_equiv };
}

impl PartialEq for FunctionType {
    ghost eq = { λ a b. same (tree_of_function_type a) (tree_of_function_type b) };

    ghost laws = { on_per tree_of_function_type (partial_equiv_from_equiv same_equiv) };

    #[tactic(auto, using(demangle_leaf_nodes::proofs::Same::rows))]
    fn eq(&self, other: &FunctionType) -> bool {
        self.cv_qualifiers == other.cv_qualifiers
            && (self.exception_spec == other.exception_spec
                && (self.transaction_safe == other.transaction_safe
                    && (self.extern_c == other.extern_c
                        && (self.bare == other.bare
                            && same_ref_qualifier(&self.ref_qualifier, &other.ref_qualifier)))))
    }
}

// Whether two fields hold the same ref-qualifier, or both none.
#[tactic(auto, using(demangle_leaf_nodes::proofs::Same::rows))]
fn same_ref_qualifier(one: &Option<RefQualifier>, other: &Option<RefQualifier>) -> bool
    ensures { result ≡ same (tree_of_option tree_of_ref_qualifier one.now)
        (tree_of_option tree_of_ref_qualifier other.now) }
{
    match one {
        Some(a) => match other {
            Some(b) => a.number() == b.number(),
            None => false,
        },
        None => other.is_none(),
    }
}

impl Eq for FunctionType {
    ghost laws = { on_equiv tree_of_function_type same_equiv };
}

impl PartialEq for TypeNode {
    ghost eq = { λ a b. same (tree_of_type_node a) (tree_of_type_node b) };

    ghost laws = { on_per tree_of_type_node (partial_equiv_from_equiv same_equiv) };

    #[tactic(auto, using(demangle_leaf_nodes::proofs::Same::rows))]
    fn eq(&self, other: &TypeNode) -> bool {
        match self {
            TypeNode::Function(a) => match other {
                TypeNode::Function(other_a) => a == other_a,
                _ => false,
            },
            TypeNode::ClassEnum(a) => match other {
                TypeNode::ClassEnum(other_a) => a == other_a,
                _ => false,
            },
            TypeNode::Array(a) => match other {
                TypeNode::Array(other_a) => a == other_a,
                _ => false,
            },
            TypeNode::Vector(a) => match other {
                TypeNode::Vector(other_a) => a == other_a,
                _ => false,
            },
            TypeNode::PointerToMember(a) => match other {
                TypeNode::PointerToMember(other_a) => a == other_a,
                _ => false,
            },
            TypeNode::TemplateParam(a) => match other {
                TypeNode::TemplateParam(other_a) => a == other_a,
                _ => false,
            },
            TypeNode::TemplateTemplate(a, b) => match other {
                TypeNode::TemplateTemplate(other_a, other_b) => a == other_a && b == other_b,
                _ => false,
            },
            TypeNode::Decltype(a) => match other {
                TypeNode::Decltype(other_a) => a == other_a,
                _ => false,
            },
            TypeNode::Qualified(a, b) => match other {
                TypeNode::Qualified(other_a, other_b) => a == other_a && b == other_b,
                _ => false,
            },
            TypeNode::VendorExtension(a, b, c) => match other {
                TypeNode::VendorExtension(other_a, other_b, other_c) => a == other_a
                    && (b == other_b && c == other_c),
                _ => false,
            },
            TypeNode::PointerTo(a) => match other {
                TypeNode::PointerTo(other_a) => a == other_a,
                _ => false,
            },
            TypeNode::LvalueRef(a) => match other {
                TypeNode::LvalueRef(other_a) => a == other_a,
                _ => false,
            },
            TypeNode::RvalueRef(a) => match other {
                TypeNode::RvalueRef(other_a) => a == other_a,
                _ => false,
            },
            TypeNode::Complex(a) => match other {
                TypeNode::Complex(other_a) => a == other_a,
                _ => false,
            },
            TypeNode::Imaginary(a) => match other {
                TypeNode::Imaginary(other_a) => a == other_a,
                _ => false,
            },
            TypeNode::PackExpansion(a) => match other {
                TypeNode::PackExpansion(other_a) => a == other_a,
                _ => false,
            },
        }
    }
}

impl Eq for TypeNode {
    ghost laws = { on_equiv tree_of_type_node same_equiv };
}

impl PartialEq for UnresolvedType {
    ghost eq = { λ a b. same (tree_of_unresolved_type a) (tree_of_unresolved_type b) };

    ghost laws = { on_per tree_of_unresolved_type (partial_equiv_from_equiv same_equiv) };

    #[tactic(auto, using(demangle_leaf_nodes::proofs::Same::rows))]
    fn eq(&self, other: &UnresolvedType) -> bool {
        match self {
            UnresolvedType::Template(a, b) => match other {
                UnresolvedType::Template(other_a, other_b) => a == other_a && b == other_b,
                _ => false,
            },
            UnresolvedType::Decltype(a) => match other {
                UnresolvedType::Decltype(other_a) => a == other_a,
                _ => false,
            },
        }
    }
}

impl Eq for UnresolvedType {
    ghost laws = { on_equiv tree_of_unresolved_type same_equiv };
}

impl PartialEq for Substitutable {
    ghost eq = { λ a b. same (tree_of_substitutable a) (tree_of_substitutable b) };

    ghost laws = { on_per tree_of_substitutable (partial_equiv_from_equiv same_equiv) };

    #[tactic(auto, using(demangle_leaf_nodes::proofs::Same::rows))]
    fn eq(&self, other: &Substitutable) -> bool {
        match self {
            Substitutable::UnscopedTemplateName(a) => match other {
                Substitutable::UnscopedTemplateName(other_a) => a == other_a,
                _ => false,
            },
            Substitutable::TypeNode(a) => match other {
                Substitutable::TypeNode(other_a) => a == other_a,
                _ => false,
            },
            Substitutable::TemplateTemplateParam(a) => match other {
                Substitutable::TemplateTemplateParam(other_a) => a == other_a,
                _ => false,
            },
            Substitutable::UnresolvedType(a) => match other {
                Substitutable::UnresolvedType(other_a) => a == other_a,
                _ => false,
            },
            Substitutable::Prefix(a) => match other {
                Substitutable::Prefix(other_a) => a == other_a,
                _ => false,
            },
            Substitutable::Expression(a) => match other {
                Substitutable::Expression(other_a) => a == other_a,
                _ => false,
            },
        }
    }
}

impl Eq for Substitutable {
    ghost laws = { on_equiv tree_of_substitutable same_equiv };
}
