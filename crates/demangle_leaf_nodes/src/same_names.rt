//! Equality of signatures and names of `leaves`: that of their trees.

ghost use Rattle.std.specs.Prelude.{◌≡◌};
ghost use Rattle.std.specs.Cmp.{on_per, on_equiv, partial_equiv_from_equiv};
ghost use Rattle.demangle_core.specs.Core.{same};
ghost use Rattle.demangle_core.specs.Same.{same_equiv};
ghost use Rattle.demangle_leaf_nodes.specs.TreeLeaves.{tree_of_option, tree_of_ref_qualifier};
ghost use Rattle.demangle_leaf_nodes.specs.TreeLeaves.{tree_of_bare_function_type, tree_of_lambda_sig};
ghost use Rattle.demangle_leaf_nodes.specs.TreeLeaves.{tree_of_closure_type_name, tree_of_pointer_to_member_type};
ghost use Rattle.demangle_leaf_nodes.specs.TreeLeaves.{tree_of_unqualified_name, tree_of_unscoped_name};
ghost use Rattle.demangle_leaf_nodes.specs.TreeLeaves.{tree_of_unscoped_template_name, tree_of_nested_name};

use crate::leaves::{
    BareFunctionType, ClosureTypeName, LambdaSig, NestedName, PointerToMemberType, UnqualifiedName,
    UnscopedName, UnscopedTemplateName,
};
use demangle_vocab::RefQualifier;

impl PartialEq for BareFunctionType {
    ghost eq = { λ a b. same (tree_of_bare_function_type a) (tree_of_bare_function_type b) };

    ghost laws = { on_per tree_of_bare_function_type (partial_equiv_from_equiv same_equiv) };

    #[tactic(auto, using(crate::proofs::Same::rows))]
    fn eq(&self, other: &BareFunctionType) -> bool {
        self.0 == other.0
    }
}

impl Eq for BareFunctionType {
    ghost laws = { on_equiv tree_of_bare_function_type same_equiv };
}

impl PartialEq for LambdaSig {
    ghost eq = { λ a b. same (tree_of_lambda_sig a) (tree_of_lambda_sig b) };

    ghost laws = { on_per tree_of_lambda_sig (partial_equiv_from_equiv same_equiv) };

    #[tactic(auto, using(crate::proofs::Same::rows))]
    fn eq(&self, other: &LambdaSig) -> bool {
        self.0 == other.0
    }
}

impl Eq for LambdaSig {
    ghost laws = { on_equiv tree_of_lambda_sig same_equiv };
}

impl PartialEq for ClosureTypeName {
    ghost eq = { λ a b. same (tree_of_closure_type_name a) (tree_of_closure_type_name b) };

    ghost laws = { on_per tree_of_closure_type_name (partial_equiv_from_equiv same_equiv) };

    #[tactic(auto, using(crate::proofs::Same::rows))]
    fn eq(&self, other: &ClosureTypeName) -> bool {
        self.0 == other.0 && self.1 == other.1
    }
}

impl Eq for ClosureTypeName {
    ghost laws = { on_equiv tree_of_closure_type_name same_equiv };
}

impl PartialEq for PointerToMemberType {
    ghost eq = { λ a b. same (tree_of_pointer_to_member_type a) (tree_of_pointer_to_member_type b) };

    ghost laws = { on_per tree_of_pointer_to_member_type (partial_equiv_from_equiv same_equiv) };

    #[tactic(auto, using(crate::proofs::Same::rows))]
    fn eq(&self, other: &PointerToMemberType) -> bool {
        self.0 == other.0 && self.1 == other.1
    }
}

impl Eq for PointerToMemberType {
    ghost laws = { on_equiv tree_of_pointer_to_member_type same_equiv };
}

impl PartialEq for UnqualifiedName {
    ghost eq = { λ a b. same (tree_of_unqualified_name a) (tree_of_unqualified_name b) };

    ghost laws = { on_per tree_of_unqualified_name (partial_equiv_from_equiv same_equiv) };

    #[tactic(auto, using(crate::proofs::Same::rows))]
    fn eq(&self, other: &UnqualifiedName) -> bool {
        match self {
            UnqualifiedName::Operator(a, b) => match other {
                UnqualifiedName::Operator(other_a, other_b) => a == other_a && b == other_b,
                _ => false,
            },
            UnqualifiedName::CtorDtor(a, b) => match other {
                UnqualifiedName::CtorDtor(other_a, other_b) => a == other_a && b == other_b,
                _ => false,
            },
            UnqualifiedName::Source(a, b) => match other {
                UnqualifiedName::Source(other_a, other_b) => a == other_a && b == other_b,
                _ => false,
            },
            UnqualifiedName::LocalSourceName(a, b, c) => match other {
                UnqualifiedName::LocalSourceName(other_a, other_b, other_c) => a == other_a
                    && b == other_b
                    && c == other_c,
                _ => false,
            },
            UnqualifiedName::UnnamedType(a, b) => match other {
                UnqualifiedName::UnnamedType(other_a, other_b) => a == other_a && b == other_b,
                _ => false,
            },
            UnqualifiedName::ClosureType(a, b) => match other {
                UnqualifiedName::ClosureType(other_a, other_b) => a == other_a && b == other_b,
                _ => false,
            },
        }
    }
}

impl Eq for UnqualifiedName {
    ghost laws = { on_equiv tree_of_unqualified_name same_equiv };
}

impl PartialEq for UnscopedName {
    ghost eq = { λ a b. same (tree_of_unscoped_name a) (tree_of_unscoped_name b) };

    ghost laws = { on_per tree_of_unscoped_name (partial_equiv_from_equiv same_equiv) };

    #[tactic(auto, using(crate::proofs::Same::rows))]
    fn eq(&self, other: &UnscopedName) -> bool {
        match self {
            UnscopedName::Unqualified(a) => match other {
                UnscopedName::Unqualified(other_a) => a == other_a,
                _ => false,
            },
            UnscopedName::Std(a) => match other {
                UnscopedName::Std(other_a) => a == other_a,
                _ => false,
            },
        }
    }
}

impl Eq for UnscopedName {
    ghost laws = { on_equiv tree_of_unscoped_name same_equiv };
}

impl PartialEq for UnscopedTemplateName {
    ghost eq = { λ a b. same (tree_of_unscoped_template_name a) (tree_of_unscoped_template_name b) };

    ghost laws = { on_per tree_of_unscoped_template_name (partial_equiv_from_equiv same_equiv) };

    #[tactic(auto, using(crate::proofs::Same::rows))]
    fn eq(&self, other: &UnscopedTemplateName) -> bool {
        self.0 == other.0
    }
}

impl Eq for UnscopedTemplateName {
    ghost laws = { on_equiv tree_of_unscoped_template_name same_equiv };
}

impl PartialEq for NestedName {
    ghost eq = { λ a b. same (tree_of_nested_name a) (tree_of_nested_name b) };

    ghost laws = { on_per tree_of_nested_name (partial_equiv_from_equiv same_equiv) };

    #[tactic(auto, using(crate::proofs::Same::rows))]
    fn eq(&self, other: &NestedName) -> bool {
        match self {
            NestedName::Unqualified(a, b, c, d) => match other {
                NestedName::Unqualified(other_a, other_b, other_c, other_d) => a == other_a
                    && same_ref_qualifier(b, other_b)
                    && c == other_c
                    && d == other_d,
                _ => false,
            },
            NestedName::Template(a, b, c) => match other {
                NestedName::Template(other_a, other_b, other_c) => a == other_a
                    && same_ref_qualifier(b, other_b)
                    && c == other_c,
                _ => false,
            },
            NestedName::UnqualifiedExplicitObject(a, b, c) => match other {
                NestedName::UnqualifiedExplicitObject(other_a, other_b, other_c) => a == other_a
                    && b == other_b
                    && c.number() == other_c.number(),
                _ => false,
            },
            NestedName::TemplateExplicitObject(a, b) => match other {
                NestedName::TemplateExplicitObject(other_a, other_b) => a == other_a
                    && b.number() == other_b.number(),
                _ => false,
            },
        }
    }
}

impl Eq for NestedName {
    ghost laws = { on_equiv tree_of_nested_name same_equiv };
}

// Whether two fields hold the same ref-qualifier, or both none.
#[tactic(auto, using(crate::proofs::Same::rows))]
fn same_ref_qualifier(one: &Option<RefQualifier>, other: &Option<RefQualifier>) -> bool
    ensures { result ≡ same (tree_of_option tree_of_ref_qualifier one.now)
        (tree_of_option tree_of_ref_qualifier other.now) }
{
    match one {
        Some(a) => match other {
            Some(b) => a.number() == b.number(),
            None => false,
        },
        None => other.is_none(),
    }
}
