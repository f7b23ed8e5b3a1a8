//! Printing of nodes: names without a scope, and what is in them.

ghost use Rattle.demangle_leaf_nodes.specs.TreeLeaves.{tree_of_abi_tag, tree_of_abi_tags, tree_of_closure_type_name};
ghost use Rattle.demangle_leaf_nodes.specs.TreeLeaves.{tree_of_ctor_dtor_name, tree_of_identifier, tree_of_lambda_sig};
ghost use Rattle.demangle_leaf_nodes.specs.TreeLeaves.{tree_of_operator_name, tree_of_source_name};
ghost use Rattle.demangle_leaf_nodes.specs.TreeLeaves.{tree_of_unnamed_type_name, tree_of_unqualified_name};

use crate::demangle::Demangle;
use crate::printer::begin;
use demangle_print_parts::{identifier, operator_name, source_name};
use demangle_print_unqualified::{
    abi_tag, abi_tags, closure_type_name, ctor_dtor_name, lambda_sig, unnamed_type_name,
    unqualified_name,
};
use demangle_scope::{ArgScopeStack, DemangleContext, DemangleError, DemangleWrite};
use demangle_tree::{
    AbiTag, AbiTags, ClosureTypeName, CtorDtorName, Identifier, LambdaSig, OperatorName,
    SourceName, UnnamedTypeName, UnqualifiedName,
};

impl<'subs, W: 'subs + DemangleWrite> Demangle<'subs, W> for UnqualifiedName {
    ghost tree = { tree_of_unqualified_name };

    fn demangle<'prev>(
        &'subs self,
        ctx: &mut DemangleContext<'subs, '_, W>,
        scope: Option<ArgScopeStack<'prev, 'subs>>,
    ) -> Result<(), DemangleError> {
        let printer = begin(ctx);
        unqualified_name(printer, self, scope, ctx);
        ctx.answer()
    }
}

impl<'subs, W: 'subs + DemangleWrite> Demangle<'subs, W> for SourceName {
    ghost tree = { tree_of_source_name };

    fn demangle<'prev>(
        &'subs self,
        ctx: &mut DemangleContext<'subs, '_, W>,
        _scope: Option<ArgScopeStack<'prev, 'subs>>,
    ) -> Result<(), DemangleError> {
        let printer = begin(ctx);
        source_name(printer, self, ctx);
        ctx.answer()
    }
}

impl<'subs, W: 'subs + DemangleWrite> Demangle<'subs, W> for Identifier {
    ghost tree = { tree_of_identifier };

    fn demangle<'prev>(
        &'subs self,
        ctx: &mut DemangleContext<'subs, '_, W>,
        _scope: Option<ArgScopeStack<'prev, 'subs>>,
    ) -> Result<(), DemangleError> {
        let printer = begin(ctx);
        identifier(printer, self, ctx);
        ctx.answer()
    }
}

impl<'subs, W: 'subs + DemangleWrite> Demangle<'subs, W> for AbiTag {
    ghost tree = { tree_of_abi_tag };

    fn demangle<'prev>(
        &'subs self,
        ctx: &mut DemangleContext<'subs, '_, W>,
        _scope: Option<ArgScopeStack<'prev, 'subs>>,
    ) -> Result<(), DemangleError> {
        let printer = begin(ctx);
        abi_tag(printer, self, ctx);
        ctx.answer()
    }
}

impl<'subs, W: 'subs + DemangleWrite> Demangle<'subs, W> for AbiTags {
    ghost tree = { tree_of_abi_tags };

    fn demangle<'prev>(
        &'subs self,
        ctx: &mut DemangleContext<'subs, '_, W>,
        _scope: Option<ArgScopeStack<'prev, 'subs>>,
    ) -> Result<(), DemangleError> {
        let printer = begin(ctx);
        abi_tags(printer, self, ctx);
        ctx.answer()
    }
}

impl<'subs, W: 'subs + DemangleWrite> Demangle<'subs, W> for UnnamedTypeName {
    ghost tree = { tree_of_unnamed_type_name };

    fn demangle<'prev>(
        &'subs self,
        ctx: &mut DemangleContext<'subs, '_, W>,
        _scope: Option<ArgScopeStack<'prev, 'subs>>,
    ) -> Result<(), DemangleError> {
        let printer = begin(ctx);
        unnamed_type_name(printer, self, ctx);
        ctx.answer()
    }
}

impl<'subs, W: 'subs + DemangleWrite> Demangle<'subs, W> for ClosureTypeName {
    ghost tree = { tree_of_closure_type_name };

    fn demangle<'prev>(
        &'subs self,
        ctx: &mut DemangleContext<'subs, '_, W>,
        scope: Option<ArgScopeStack<'prev, 'subs>>,
    ) -> Result<(), DemangleError> {
        let printer = begin(ctx);
        closure_type_name(printer, self, scope, ctx);
        ctx.answer()
    }
}

impl<'subs, W: 'subs + DemangleWrite> Demangle<'subs, W> for LambdaSig {
    ghost tree = { tree_of_lambda_sig };

    fn demangle<'prev>(
        &'subs self,
        ctx: &mut DemangleContext<'subs, '_, W>,
        scope: Option<ArgScopeStack<'prev, 'subs>>,
    ) -> Result<(), DemangleError> {
        let printer = begin(ctx);
        lambda_sig(printer, self, scope, ctx);
        ctx.answer()
    }
}

impl<'subs, W: 'subs + DemangleWrite> Demangle<'subs, W> for OperatorName {
    ghost tree = { tree_of_operator_name };

    fn demangle<'prev>(
        &'subs self,
        ctx: &mut DemangleContext<'subs, '_, W>,
        scope: Option<ArgScopeStack<'prev, 'subs>>,
    ) -> Result<(), DemangleError> {
        let printer = begin(ctx);
        operator_name(printer, self, scope, ctx);
        ctx.answer()
    }
}

impl<'subs, W: 'subs + DemangleWrite> Demangle<'subs, W> for CtorDtorName {
    ghost tree = { tree_of_ctor_dtor_name };

    fn demangle<'prev>(
        &'subs self,
        ctx: &mut DemangleContext<'subs, '_, W>,
        scope: Option<ArgScopeStack<'prev, 'subs>>,
    ) -> Result<(), DemangleError> {
        let printer = begin(ctx);
        ctor_dtor_name(printer, self, scope, ctx);
        ctx.answer()
    }
}
