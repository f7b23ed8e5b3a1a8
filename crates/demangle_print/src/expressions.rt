//! Printing of nodes: expressions, and the names in them that are not resolved.

ghost use Rattle.demangle_leaf_nodes.specs.TreeLeaves.{tree_of_unresolved_type_handle};
ghost use Rattle.demangle_nodes.specs.TreeNodes.{tree_of_base_unresolved_name, tree_of_destructor_name};
ghost use Rattle.demangle_nodes.specs.TreeNodes.{tree_of_expr_primary, tree_of_expression, tree_of_fold_expr};
ghost use Rattle.demangle_nodes.specs.TreeNodes.{tree_of_initializer, tree_of_member_name, tree_of_simple_id};
ghost use Rattle.demangle_nodes.specs.TreeNodes.{tree_of_subobject_expr, tree_of_unresolved_name};
ghost use Rattle.demangle_nodes.specs.TreeNodes.{tree_of_unresolved_qualifier_level};
ghost use Rattle.demangle_entries.specs.TreeEntries.{tree_of_unresolved_type};

use crate::demangle::Demangle;
use crate::printer::begin;
use demangle_print_below::Below;
use demangle_print_expressions::{fold_expr, initializer, member_name, subobject_expr};
use demangle_print_parts::unresolved_type_handle;
use demangle_print_primaries::{
    base_unresolved_name, destructor_name, expr_primary, simple_id, unresolved_name,
    unresolved_qualifier_level, unresolved_type,
};
use demangle_scope::{ArgScopeStack, DemangleContext, DemangleError, DemangleWrite};
use demangle_tree::{
    BaseUnresolvedName, DestructorName, ExprPrimary, Expression, FoldExpr, Initializer, MemberName,
    SimpleId, SubobjectExpr, UnresolvedName, UnresolvedQualifierLevel, UnresolvedType,
    UnresolvedTypeHandle,
};

impl<'subs, W: 'subs + DemangleWrite> Demangle<'subs, W> for Expression {
    ghost tree = { tree_of_expression };

    fn demangle<'prev>(
        &'subs self,
        ctx: &mut DemangleContext<'subs, '_, W>,
        scope: Option<ArgScopeStack<'prev, 'subs>>,
    ) -> Result<(), DemangleError> {
        let printer = begin(ctx);
        printer.expression(self, scope, ctx);
        ctx.answer()
    }
}

impl<'subs, W: 'subs + DemangleWrite> Demangle<'subs, W> for FoldExpr {
    ghost tree = { tree_of_fold_expr };

    fn demangle<'prev>(
        &'subs self,
        ctx: &mut DemangleContext<'subs, '_, W>,
        scope: Option<ArgScopeStack<'prev, 'subs>>,
    ) -> Result<(), DemangleError> {
        let printer = begin(ctx);
        fold_expr(printer, self, scope, ctx);
        ctx.answer()
    }
}

impl<'subs, W: 'subs + DemangleWrite> Demangle<'subs, W> for SubobjectExpr {
    ghost tree = { tree_of_subobject_expr };

    fn demangle<'prev>(
        &'subs self,
        ctx: &mut DemangleContext<'subs, '_, W>,
        scope: Option<ArgScopeStack<'prev, 'subs>>,
    ) -> Result<(), DemangleError> {
        let printer = begin(ctx);
        subobject_expr(printer, self, scope, ctx);
        ctx.answer()
    }
}

impl<'subs, W: 'subs + DemangleWrite> Demangle<'subs, W> for MemberName {
    ghost tree = { tree_of_member_name };

    fn demangle<'prev>(
        &'subs self,
        ctx: &mut DemangleContext<'subs, '_, W>,
        scope: Option<ArgScopeStack<'prev, 'subs>>,
    ) -> Result<(), DemangleError> {
        let printer = begin(ctx);
        member_name(printer, self, scope, ctx);
        ctx.answer()
    }
}

impl<'subs, W: 'subs + DemangleWrite> Demangle<'subs, W> for Initializer {
    ghost tree = { tree_of_initializer };

    fn demangle<'prev>(
        &'subs self,
        ctx: &mut DemangleContext<'subs, '_, W>,
        scope: Option<ArgScopeStack<'prev, 'subs>>,
    ) -> Result<(), DemangleError> {
        let printer = begin(ctx);
        initializer(printer, self, scope, ctx);
        ctx.answer()
    }
}

impl<'subs, W: 'subs + DemangleWrite> Demangle<'subs, W> for ExprPrimary {
    ghost tree = { tree_of_expr_primary };

    fn demangle<'prev>(
        &'subs self,
        ctx: &mut DemangleContext<'subs, '_, W>,
        scope: Option<ArgScopeStack<'prev, 'subs>>,
    ) -> Result<(), DemangleError> {
        let printer = begin(ctx);
        expr_primary(printer, self, scope, ctx);
        ctx.answer()
    }
}

impl<'subs, W: 'subs + DemangleWrite> Demangle<'subs, W> for UnresolvedName {
    ghost tree = { tree_of_unresolved_name };

    fn demangle<'prev>(
        &'subs self,
        ctx: &mut DemangleContext<'subs, '_, W>,
        scope: Option<ArgScopeStack<'prev, 'subs>>,
    ) -> Result<(), DemangleError> {
        let printer = begin(ctx);
        unresolved_name(printer, self, scope, ctx);
        ctx.answer()
    }
}

impl<'subs, W: 'subs + DemangleWrite> Demangle<'subs, W> for UnresolvedType {
    ghost tree = { tree_of_unresolved_type };

    fn demangle<'prev>(
        &'subs self,
        ctx: &mut DemangleContext<'subs, '_, W>,
        scope: Option<ArgScopeStack<'prev, 'subs>>,
    ) -> Result<(), DemangleError> {
        let printer = begin(ctx);
        unresolved_type(printer, self, scope, ctx);
        ctx.answer()
    }
}

impl<'subs, W: 'subs + DemangleWrite> Demangle<'subs, W> for UnresolvedTypeHandle {
    ghost tree = { tree_of_unresolved_type_handle };

    fn demangle<'prev>(
        &'subs self,
        ctx: &mut DemangleContext<'subs, '_, W>,
        scope: Option<ArgScopeStack<'prev, 'subs>>,
    ) -> Result<(), DemangleError> {
        let printer = begin(ctx);
        unresolved_type_handle(printer, self, scope, ctx);
        ctx.answer()
    }
}

impl<'subs, W: 'subs + DemangleWrite> Demangle<'subs, W> for UnresolvedQualifierLevel {
    ghost tree = { tree_of_unresolved_qualifier_level };

    fn demangle<'prev>(
        &'subs self,
        ctx: &mut DemangleContext<'subs, '_, W>,
        scope: Option<ArgScopeStack<'prev, 'subs>>,
    ) -> Result<(), DemangleError> {
        let printer = begin(ctx);
        unresolved_qualifier_level(printer, self, scope, ctx);
        ctx.answer()
    }
}

impl<'subs, W: 'subs + DemangleWrite> Demangle<'subs, W> for SimpleId {
    ghost tree = { tree_of_simple_id };

    fn demangle<'prev>(
        &'subs self,
        ctx: &mut DemangleContext<'subs, '_, W>,
        scope: Option<ArgScopeStack<'prev, 'subs>>,
    ) -> Result<(), DemangleError> {
        let printer = begin(ctx);
        simple_id(printer, self, scope, ctx);
        ctx.answer()
    }
}

impl<'subs, W: 'subs + DemangleWrite> Demangle<'subs, W> for BaseUnresolvedName {
    ghost tree = { tree_of_base_unresolved_name };

    fn demangle<'prev>(
        &'subs self,
        ctx: &mut DemangleContext<'subs, '_, W>,
        scope: Option<ArgScopeStack<'prev, 'subs>>,
    ) -> Result<(), DemangleError> {
        let printer = begin(ctx);
        base_unresolved_name(printer, self, scope, ctx);
        ctx.answer()
    }
}

impl<'subs, W: 'subs + DemangleWrite> Demangle<'subs, W> for DestructorName {
    ghost tree = { tree_of_destructor_name };

    fn demangle<'prev>(
        &'subs self,
        ctx: &mut DemangleContext<'subs, '_, W>,
        scope: Option<ArgScopeStack<'prev, 'subs>>,
    ) -> Result<(), DemangleError> {
        let printer = begin(ctx);
        destructor_name(printer, self, scope, ctx);
        ctx.answer()
    }
}
