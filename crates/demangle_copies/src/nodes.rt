//! Copies of the types that hold each other: names, expressions, encodings and their parts.

ghost use Rattle.std.specs.Prelude.{◌≡◌};
ghost use Rattle.demangle_nodes.specs.TreeNodes.{
  tree_of_base_unresolved_name,
  tree_of_destructor_name,
  tree_of_encoding,
  tree_of_expr_primary,
  tree_of_expression,
  tree_of_fold_expr,
  tree_of_global_ctor_dtor,
  tree_of_initializer,
  tree_of_local_name,
  tree_of_mangled_name,
  tree_of_member_name,
  tree_of_name,
  tree_of_simple_id,
  tree_of_special_name,
  tree_of_subobject_expr,
  tree_of_template_arg,
  tree_of_template_args,
  tree_of_unresolved_name,
  tree_of_unresolved_qualifier_level,
};

use crate::in_cells::{InCells, copied};
use crate::try_clone::TryClone;
use demangle_cells::Arena;
use demangle_entries::{
    BaseUnresolvedName, DestructorName, Encoding, ExprPrimary, Expression, FoldExpr,
    GlobalCtorDtor, Initializer, LocalName, MangledName, MemberName, Name, SimpleId, SpecialName,
    SubobjectExpr, TemplateArg, TemplateArgs, UnresolvedName, UnresolvedQualifierLevel,
};
use demangle_nodes_from_cells::{
    base_unresolved_name_from, destructor_name_from, encoding_from, expr_primary_from,
    expression_from, fold_expr_from, global_ctor_dtor_from, initializer_from, local_name_from,
    mangled_name_from, member_name_from, name_from, simple_id_from, special_name_from,
    subobject_expr_from, template_arg_from, template_args_from, unresolved_name_from,
    unresolved_qualifier_level_from,
};
use demangle_nodes_to_cells::{
    base_unresolved_name_to, destructor_name_to, encoding_to, expr_primary_to, expression_to,
    fold_expr_to, global_ctor_dtor_to, initializer_to, local_name_to, mangled_name_to,
    member_name_to, name_to, simple_id_to, special_name_to, subobject_expr_to, template_arg_to,
    template_args_to, unresolved_name_to, unresolved_qualifier_level_to,
};
use demangle_text::Result;
use std::alloc::Global;

impl InCells for MangledName {
    ghost tree = { tree_of_mangled_name };

    fn put(&self, arena: &mut Arena) -> Result<u32> {
        mangled_name_to(arena, self)
    }

    fn made(alloc: Global, arena: &Arena, id: u32) -> Result<MangledName> {
        mangled_name_from(alloc, arena, id)
    }
}

impl TryClone for MangledName {
    ghost IsCopy = { λ a b. tree_of_mangled_name b ≡ tree_of_mangled_name a };

    fn try_clone(&self, alloc: Global) -> Result<MangledName> {
        copied(alloc, self)
    }
}

impl InCells for Encoding {
    ghost tree = { tree_of_encoding };

    fn put(&self, arena: &mut Arena) -> Result<u32> {
        encoding_to(arena, self)
    }

    fn made(alloc: Global, arena: &Arena, id: u32) -> Result<Encoding> {
        encoding_from(alloc, arena, id)
    }
}

impl TryClone for Encoding {
    ghost IsCopy = { λ a b. tree_of_encoding b ≡ tree_of_encoding a };

    fn try_clone(&self, alloc: Global) -> Result<Encoding> {
        copied(alloc, self)
    }
}

impl InCells for GlobalCtorDtor {
    ghost tree = { tree_of_global_ctor_dtor };

    fn put(&self, arena: &mut Arena) -> Result<u32> {
        global_ctor_dtor_to(arena, self)
    }

    fn made(alloc: Global, arena: &Arena, id: u32) -> Result<GlobalCtorDtor> {
        global_ctor_dtor_from(alloc, arena, id)
    }
}

impl TryClone for GlobalCtorDtor {
    ghost IsCopy = { λ a b. tree_of_global_ctor_dtor b ≡ tree_of_global_ctor_dtor a };

    fn try_clone(&self, alloc: Global) -> Result<GlobalCtorDtor> {
        copied(alloc, self)
    }
}

impl InCells for Name {
    ghost tree = { tree_of_name };

    fn put(&self, arena: &mut Arena) -> Result<u32> {
        name_to(arena, self)
    }

    fn made(alloc: Global, arena: &Arena, id: u32) -> Result<Name> {
        name_from(alloc, arena, id)
    }
}

impl TryClone for Name {
    ghost IsCopy = { λ a b. tree_of_name b ≡ tree_of_name a };

    fn try_clone(&self, alloc: Global) -> Result<Name> {
        copied(alloc, self)
    }
}

impl InCells for TemplateArgs {
    ghost tree = { tree_of_template_args };

    fn put(&self, arena: &mut Arena) -> Result<u32> {
        template_args_to(arena, self)
    }

    fn made(alloc: Global, arena: &Arena, id: u32) -> Result<TemplateArgs> {
        template_args_from(alloc, arena, id)
    }
}

impl TryClone for TemplateArgs {
    ghost IsCopy = { λ a b. tree_of_template_args b ≡ tree_of_template_args a };

    fn try_clone(&self, alloc: Global) -> Result<TemplateArgs> {
        copied(alloc, self)
    }
}

impl InCells for TemplateArg {
    ghost tree = { tree_of_template_arg };

    fn put(&self, arena: &mut Arena) -> Result<u32> {
        template_arg_to(arena, self)
    }

    fn made(alloc: Global, arena: &Arena, id: u32) -> Result<TemplateArg> {
        template_arg_from(alloc, arena, id)
    }
}

impl TryClone for TemplateArg {
    ghost IsCopy = { λ a b. tree_of_template_arg b ≡ tree_of_template_arg a };

    fn try_clone(&self, alloc: Global) -> Result<TemplateArg> {
        copied(alloc, self)
    }
}

impl InCells for MemberName {
    ghost tree = { tree_of_member_name };

    fn put(&self, arena: &mut Arena) -> Result<u32> {
        member_name_to(arena, self)
    }

    fn made(alloc: Global, arena: &Arena, id: u32) -> Result<MemberName> {
        member_name_from(alloc, arena, id)
    }
}

impl TryClone for MemberName {
    ghost IsCopy = { λ a b. tree_of_member_name b ≡ tree_of_member_name a };

    fn try_clone(&self, alloc: Global) -> Result<MemberName> {
        copied(alloc, self)
    }
}

impl InCells for Initializer {
    ghost tree = { tree_of_initializer };

    fn put(&self, arena: &mut Arena) -> Result<u32> {
        initializer_to(arena, self)
    }

    fn made(alloc: Global, arena: &Arena, id: u32) -> Result<Initializer> {
        initializer_from(alloc, arena, id)
    }
}

impl TryClone for Initializer {
    ghost IsCopy = { λ a b. tree_of_initializer b ≡ tree_of_initializer a };

    fn try_clone(&self, alloc: Global) -> Result<Initializer> {
        copied(alloc, self)
    }
}

impl InCells for Expression {
    ghost tree = { tree_of_expression };

    fn put(&self, arena: &mut Arena) -> Result<u32> {
        expression_to(arena, self)
    }

    fn made(alloc: Global, arena: &Arena, id: u32) -> Result<Expression> {
        expression_from(alloc, arena, id)
    }
}

impl TryClone for Expression {
    ghost IsCopy = { λ a b. tree_of_expression b ≡ tree_of_expression a };

    fn try_clone(&self, alloc: Global) -> Result<Expression> {
        copied(alloc, self)
    }
}

impl InCells for UnresolvedName {
    ghost tree = { tree_of_unresolved_name };

    fn put(&self, arena: &mut Arena) -> Result<u32> {
        unresolved_name_to(arena, self)
    }

    fn made(alloc: Global, arena: &Arena, id: u32) -> Result<UnresolvedName> {
        unresolved_name_from(alloc, arena, id)
    }
}

impl TryClone for UnresolvedName {
    ghost IsCopy = { λ a b. tree_of_unresolved_name b ≡ tree_of_unresolved_name a };

    fn try_clone(&self, alloc: Global) -> Result<UnresolvedName> {
        copied(alloc, self)
    }
}

impl InCells for UnresolvedQualifierLevel {
    ghost tree = { tree_of_unresolved_qualifier_level };

    fn put(&self, arena: &mut Arena) -> Result<u32> {
        unresolved_qualifier_level_to(arena, self)
    }

    fn made(alloc: Global, arena: &Arena, id: u32) -> Result<UnresolvedQualifierLevel> {
        unresolved_qualifier_level_from(alloc, arena, id)
    }
}

impl TryClone for UnresolvedQualifierLevel {
    ghost IsCopy = { λ a b. tree_of_unresolved_qualifier_level b ≡ tree_of_unresolved_qualifier_level a };

    fn try_clone(&self, alloc: Global) -> Result<UnresolvedQualifierLevel> {
        copied(alloc, self)
    }
}

impl InCells for SimpleId {
    ghost tree = { tree_of_simple_id };

    fn put(&self, arena: &mut Arena) -> Result<u32> {
        simple_id_to(arena, self)
    }

    fn made(alloc: Global, arena: &Arena, id: u32) -> Result<SimpleId> {
        simple_id_from(alloc, arena, id)
    }
}

impl TryClone for SimpleId {
    ghost IsCopy = { λ a b. tree_of_simple_id b ≡ tree_of_simple_id a };

    fn try_clone(&self, alloc: Global) -> Result<SimpleId> {
        copied(alloc, self)
    }
}

impl InCells for BaseUnresolvedName {
    ghost tree = { tree_of_base_unresolved_name };

    fn put(&self, arena: &mut Arena) -> Result<u32> {
        base_unresolved_name_to(arena, self)
    }

    fn made(alloc: Global, arena: &Arena, id: u32) -> Result<BaseUnresolvedName> {
        base_unresolved_name_from(alloc, arena, id)
    }
}

impl TryClone for BaseUnresolvedName {
    ghost IsCopy = { λ a b. tree_of_base_unresolved_name b ≡ tree_of_base_unresolved_name a };

    fn try_clone(&self, alloc: Global) -> Result<BaseUnresolvedName> {
        copied(alloc, self)
    }
}

impl InCells for DestructorName {
    ghost tree = { tree_of_destructor_name };

    fn put(&self, arena: &mut Arena) -> Result<u32> {
        destructor_name_to(arena, self)
    }

    fn made(alloc: Global, arena: &Arena, id: u32) -> Result<DestructorName> {
        destructor_name_from(alloc, arena, id)
    }
}

impl TryClone for DestructorName {
    ghost IsCopy = { λ a b. tree_of_destructor_name b ≡ tree_of_destructor_name a };

    fn try_clone(&self, alloc: Global) -> Result<DestructorName> {
        copied(alloc, self)
    }
}

impl InCells for ExprPrimary {
    ghost tree = { tree_of_expr_primary };

    fn put(&self, arena: &mut Arena) -> Result<u32> {
        expr_primary_to(arena, self)
    }

    fn made(alloc: Global, arena: &Arena, id: u32) -> Result<ExprPrimary> {
        expr_primary_from(alloc, arena, id)
    }
}

impl TryClone for ExprPrimary {
    ghost IsCopy = { λ a b. tree_of_expr_primary b ≡ tree_of_expr_primary a };

    fn try_clone(&self, alloc: Global) -> Result<ExprPrimary> {
        copied(alloc, self)
    }
}

impl InCells for LocalName {
    ghost tree = { tree_of_local_name };

    fn put(&self, arena: &mut Arena) -> Result<u32> {
        local_name_to(arena, self)
    }

    fn made(alloc: Global, arena: &Arena, id: u32) -> Result<LocalName> {
        local_name_from(alloc, arena, id)
    }
}

impl TryClone for LocalName {
    ghost IsCopy = { λ a b. tree_of_local_name b ≡ tree_of_local_name a };

    fn try_clone(&self, alloc: Global) -> Result<LocalName> {
        copied(alloc, self)
    }
}

impl InCells for SpecialName {
    ghost tree = { tree_of_special_name };

    fn put(&self, arena: &mut Arena) -> Result<u32> {
        special_name_to(arena, self)
    }

    fn made(alloc: Global, arena: &Arena, id: u32) -> Result<SpecialName> {
        special_name_from(alloc, arena, id)
    }
}

impl TryClone for SpecialName {
    ghost IsCopy = { λ a b. tree_of_special_name b ≡ tree_of_special_name a };

    fn try_clone(&self, alloc: Global) -> Result<SpecialName> {
        copied(alloc, self)
    }
}

impl InCells for SubobjectExpr {
    ghost tree = { tree_of_subobject_expr };

    fn put(&self, arena: &mut Arena) -> Result<u32> {
        subobject_expr_to(arena, self)
    }

    fn made(alloc: Global, arena: &Arena, id: u32) -> Result<SubobjectExpr> {
        subobject_expr_from(alloc, arena, id)
    }
}

impl TryClone for SubobjectExpr {
    ghost IsCopy = { λ a b. tree_of_subobject_expr b ≡ tree_of_subobject_expr a };

    fn try_clone(&self, alloc: Global) -> Result<SubobjectExpr> {
        copied(alloc, self)
    }
}

impl InCells for FoldExpr {
    ghost tree = { tree_of_fold_expr };

    fn put(&self, arena: &mut Arena) -> Result<u32> {
        fold_expr_to(arena, self)
    }

    fn made(alloc: Global, arena: &Arena, id: u32) -> Result<FoldExpr> {
        fold_expr_from(alloc, arena, id)
    }
}

impl TryClone for FoldExpr {
    ghost IsCopy = { λ a b. tree_of_fold_expr b ≡ tree_of_fold_expr a };

    fn try_clone(&self, alloc: Global) -> Result<FoldExpr> {
        copied(alloc, self)
    }
}
