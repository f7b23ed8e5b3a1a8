//! Equality of the node types of `nodes`: that of their trees.

ghost use Rattle.std.specs.Cmp.{on_per, on_equiv, partial_equiv_from_equiv};
ghost use Rattle.demangle_core.specs.Core.{same};
ghost use Rattle.demangle_core.specs.Same.{same_equiv};
ghost use Rattle.demangle_nodes.specs.TreeNodes.{tree_of_mangled_name, tree_of_encoding, tree_of_global_ctor_dtor};
ghost use Rattle.demangle_nodes.specs.TreeNodes.{tree_of_name, tree_of_template_args, tree_of_template_arg};
ghost use Rattle.demangle_nodes.specs.TreeNodes.{tree_of_member_name, tree_of_initializer, tree_of_expression};
ghost use Rattle.demangle_nodes.specs.TreeNodes.{tree_of_unresolved_name, tree_of_unresolved_qualifier_level};
ghost use Rattle.demangle_nodes.specs.TreeNodes.{tree_of_simple_id, tree_of_base_unresolved_name};
ghost use Rattle.demangle_nodes.specs.TreeNodes.{tree_of_destructor_name, tree_of_expr_primary, tree_of_local_name};
ghost use Rattle.demangle_nodes.specs.TreeNodes.{tree_of_special_name, tree_of_subobject_expr, tree_of_fold_expr};

use crate::nodes::{
    BaseUnresolvedName, DestructorName, Encoding, ExprPrimary, Expression, FoldExpr,
    GlobalCtorDtor, Initializer, LocalName, MangledName, MemberName, Name, SimpleId, SpecialName,
    SubobjectExpr, TemplateArg, TemplateArgs, UnresolvedName, UnresolvedQualifierLevel,
};
use crate::same_parts::{
    same_base_unresolved_name, same_destructor_name, same_encoding, same_expr_primary,
    same_expression, same_fold_expr, same_global_ctor_dtor, same_initializer, same_local_name,
    same_mangled_name, same_member_name, same_name, same_simple_id, same_special_name,
    same_subobject_expr, same_template_arg, same_template_args, same_unresolved_name,
    same_unresolved_qualifier_level,
};

impl PartialEq for MangledName {
    ghost eq = { λ a b. same (tree_of_mangled_name a) (tree_of_mangled_name b) };

    ghost laws = { on_per tree_of_mangled_name (partial_equiv_from_equiv same_equiv) };

    #[tactic(auto, using(demangle_leaf_nodes::proofs::Same::and_true))]
    fn eq(&self, other: &MangledName) -> bool {
        same_mangled_name(self, other)
    }
}

impl Eq for MangledName {
    ghost laws = { on_equiv tree_of_mangled_name same_equiv };
}

impl PartialEq for Encoding {
    ghost eq = { λ a b. same (tree_of_encoding a) (tree_of_encoding b) };

    ghost laws = { on_per tree_of_encoding (partial_equiv_from_equiv same_equiv) };

    #[tactic(auto, using(demangle_leaf_nodes::proofs::Same::and_true))]
    fn eq(&self, other: &Encoding) -> bool {
        same_encoding(self, other)
    }
}

impl Eq for Encoding {
    ghost laws = { on_equiv tree_of_encoding same_equiv };
}

impl PartialEq for GlobalCtorDtor {
    ghost eq = { λ a b. same (tree_of_global_ctor_dtor a) (tree_of_global_ctor_dtor b) };

    ghost laws = { on_per tree_of_global_ctor_dtor (partial_equiv_from_equiv same_equiv) };

    #[tactic(auto, using(demangle_leaf_nodes::proofs::Same::and_true))]
    fn eq(&self, other: &GlobalCtorDtor) -> bool {
        same_global_ctor_dtor(self, other)
    }
}

impl Eq for GlobalCtorDtor {
    ghost laws = { on_equiv tree_of_global_ctor_dtor same_equiv };
}

impl PartialEq for Name {
    ghost eq = { λ a b. same (tree_of_name a) (tree_of_name b) };

    ghost laws = { on_per tree_of_name (partial_equiv_from_equiv same_equiv) };

    #[tactic(auto, using(demangle_leaf_nodes::proofs::Same::and_true))]
    fn eq(&self, other: &Name) -> bool {
        same_name(self, other)
    }
}

impl Eq for Name {
    ghost laws = { on_equiv tree_of_name same_equiv };
}

impl PartialEq for TemplateArgs {
    ghost eq = { λ a b. same (tree_of_template_args a) (tree_of_template_args b) };

    ghost laws = { on_per tree_of_template_args (partial_equiv_from_equiv same_equiv) };

    #[tactic(auto, using(demangle_leaf_nodes::proofs::Same::and_true))]
    fn eq(&self, other: &TemplateArgs) -> bool {
        same_template_args(self, other)
    }
}

impl Eq for TemplateArgs {
    ghost laws = { on_equiv tree_of_template_args same_equiv };
}

impl PartialEq for TemplateArg {
    ghost eq = { λ a b. same (tree_of_template_arg a) (tree_of_template_arg b) };

    ghost laws = { on_per tree_of_template_arg (partial_equiv_from_equiv same_equiv) };

    #[tactic(auto, using(demangle_leaf_nodes::proofs::Same::and_true))]
    fn eq(&self, other: &TemplateArg) -> bool {
        same_template_arg(self, other)
    }
}

impl Eq for TemplateArg {
    ghost laws = { on_equiv tree_of_template_arg same_equiv };
}

impl PartialEq for MemberName {
    ghost eq = { λ a b. same (tree_of_member_name a) (tree_of_member_name b) };

    ghost laws = { on_per tree_of_member_name (partial_equiv_from_equiv same_equiv) };

    #[tactic(auto, using(demangle_leaf_nodes::proofs::Same::and_true))]
    fn eq(&self, other: &MemberName) -> bool {
        same_member_name(self, other)
    }
}

impl Eq for MemberName {
    ghost laws = { on_equiv tree_of_member_name same_equiv };
}

impl PartialEq for Initializer {
    ghost eq = { λ a b. same (tree_of_initializer a) (tree_of_initializer b) };

    ghost laws = { on_per tree_of_initializer (partial_equiv_from_equiv same_equiv) };

    #[tactic(auto, using(demangle_leaf_nodes::proofs::Same::and_true))]
    fn eq(&self, other: &Initializer) -> bool {
        same_initializer(self, other)
    }
}

impl Eq for Initializer {
    ghost laws = { on_equiv tree_of_initializer same_equiv };
}

impl PartialEq for Expression {
    ghost eq = { λ a b. same (tree_of_expression a) (tree_of_expression b) };

    ghost laws = { on_per tree_of_expression (partial_equiv_from_equiv same_equiv) };

    #[tactic(auto, using(demangle_leaf_nodes::proofs::Same::and_true))]
    fn eq(&self, other: &Expression) -> bool {
        same_expression(self, other)
    }
}

impl Eq for Expression {
    ghost laws = { on_equiv tree_of_expression same_equiv };
}

impl PartialEq for UnresolvedName {
    ghost eq = { λ a b. same (tree_of_unresolved_name a) (tree_of_unresolved_name b) };

    ghost laws = { on_per tree_of_unresolved_name (partial_equiv_from_equiv same_equiv) };

    #[tactic(auto, using(demangle_leaf_nodes::proofs::Same::and_true))]
    fn eq(&self, other: &UnresolvedName) -> bool {
        same_unresolved_name(self, other)
    }
}

impl Eq for UnresolvedName {
    ghost laws = { on_equiv tree_of_unresolved_name same_equiv };
}

impl PartialEq for UnresolvedQualifierLevel {
    ghost eq = { λ a b. same (tree_of_unresolved_qualifier_level a) (tree_of_unresolved_qualifier_level b) };

    ghost laws = { on_per tree_of_unresolved_qualifier_level (partial_equiv_from_equiv same_equiv) };

    #[tactic(auto, using(demangle_leaf_nodes::proofs::Same::and_true))]
    fn eq(&self, other: &UnresolvedQualifierLevel) -> bool {
        same_unresolved_qualifier_level(self, other)
    }
}

impl Eq for UnresolvedQualifierLevel {
    ghost laws = { on_equiv tree_of_unresolved_qualifier_level same_equiv };
}

impl PartialEq for SimpleId {
    ghost eq = { λ a b. same (tree_of_simple_id a) (tree_of_simple_id b) };

    ghost laws = { on_per tree_of_simple_id (partial_equiv_from_equiv same_equiv) };

    #[tactic(auto, using(demangle_leaf_nodes::proofs::Same::and_true))]
    fn eq(&self, other: &SimpleId) -> bool {
        same_simple_id(self, other)
    }
}

impl Eq for SimpleId {
    ghost laws = { on_equiv tree_of_simple_id same_equiv };
}

impl PartialEq for BaseUnresolvedName {
    ghost eq = { λ a b. same (tree_of_base_unresolved_name a) (tree_of_base_unresolved_name b) };

    ghost laws = { on_per tree_of_base_unresolved_name (partial_equiv_from_equiv same_equiv) };

    #[tactic(auto, using(demangle_leaf_nodes::proofs::Same::and_true))]
    fn eq(&self, other: &BaseUnresolvedName) -> bool {
        same_base_unresolved_name(self, other)
    }
}

impl Eq for BaseUnresolvedName {
    ghost laws = { on_equiv tree_of_base_unresolved_name same_equiv };
}

impl PartialEq for DestructorName {
    ghost eq = { λ a b. same (tree_of_destructor_name a) (tree_of_destructor_name b) };

    ghost laws = { on_per tree_of_destructor_name (partial_equiv_from_equiv same_equiv) };

    #[tactic(auto, using(demangle_leaf_nodes::proofs::Same::and_true))]
    fn eq(&self, other: &DestructorName) -> bool {
        same_destructor_name(self, other)
    }
}

impl Eq for DestructorName {
    ghost laws = { on_equiv tree_of_destructor_name same_equiv };
}

impl PartialEq for ExprPrimary {
    ghost eq = { λ a b. same (tree_of_expr_primary a) (tree_of_expr_primary b) };

    ghost laws = { on_per tree_of_expr_primary (partial_equiv_from_equiv same_equiv) };

    #[tactic(auto, using(demangle_leaf_nodes::proofs::Same::and_true))]
    fn eq(&self, other: &ExprPrimary) -> bool {
        same_expr_primary(self, other)
    }
}

impl Eq for ExprPrimary {
    ghost laws = { on_equiv tree_of_expr_primary same_equiv };
}

impl PartialEq for LocalName {
    ghost eq = { λ a b. same (tree_of_local_name a) (tree_of_local_name b) };

    ghost laws = { on_per tree_of_local_name (partial_equiv_from_equiv same_equiv) };

    #[tactic(auto, using(demangle_leaf_nodes::proofs::Same::and_true))]
    fn eq(&self, other: &LocalName) -> bool {
        same_local_name(self, other)
    }
}

impl Eq for LocalName {
    ghost laws = { on_equiv tree_of_local_name same_equiv };
}

impl PartialEq for SpecialName {
    ghost eq = { λ a b. same (tree_of_special_name a) (tree_of_special_name b) };

    ghost laws = { on_per tree_of_special_name (partial_equiv_from_equiv same_equiv) };

    #[tactic(auto, using(demangle_leaf_nodes::proofs::Same::and_true))]
    fn eq(&self, other: &SpecialName) -> bool {
        same_special_name(self, other)
    }
}

impl Eq for SpecialName {
    ghost laws = { on_equiv tree_of_special_name same_equiv };
}

impl PartialEq for SubobjectExpr {
    ghost eq = { λ a b. same (tree_of_subobject_expr a) (tree_of_subobject_expr b) };

    ghost laws = { on_per tree_of_subobject_expr (partial_equiv_from_equiv same_equiv) };

    #[tactic(auto, using(demangle_leaf_nodes::proofs::Same::and_true))]
    fn eq(&self, other: &SubobjectExpr) -> bool {
        same_subobject_expr(self, other)
    }
}

impl Eq for SubobjectExpr {
    ghost laws = { on_equiv tree_of_subobject_expr same_equiv };
}

impl PartialEq for FoldExpr {
    ghost eq = { λ a b. same (tree_of_fold_expr a) (tree_of_fold_expr b) };

    ghost laws = { on_per tree_of_fold_expr (partial_equiv_from_equiv same_equiv) };

    #[tactic(auto, using(demangle_leaf_nodes::proofs::Same::and_true))]
    fn eq(&self, other: &FoldExpr) -> bool {
        same_fold_expr(self, other)
    }
}

impl Eq for FoldExpr {
    ghost laws = { on_equiv tree_of_fold_expr same_equiv };
}
