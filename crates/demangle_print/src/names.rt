//! Printing of nodes: whole names and names, with and without a scope.

ghost use Rattle.demangle_leaf_nodes.specs.TreeLeaves.{tree_of_clone_suffix, tree_of_clone_type_identifier};
ghost use Rattle.demangle_leaf_nodes.specs.TreeLeaves.{tree_of_data_member_prefix, tree_of_nested_name};
ghost use Rattle.demangle_leaf_nodes.specs.TreeLeaves.{tree_of_non_substitution, tree_of_prefix_handle};
ghost use Rattle.demangle_leaf_nodes.specs.TreeLeaves.{tree_of_unscoped_name, tree_of_unscoped_template_name};
ghost use Rattle.demangle_leaf_nodes.specs.TreeLeaves.{tree_of_unscoped_template_name_handle};
ghost use Rattle.demangle_nodes.specs.TreeNodes.{tree_of_global_ctor_dtor, tree_of_local_name, tree_of_mangled_name};
ghost use Rattle.demangle_nodes.specs.TreeNodes.{tree_of_name};
ghost use Rattle.demangle_entries.specs.TreeEntries.{tree_of_prefix};

use crate::demangle::Demangle;
use crate::printer::begin;
use demangle_print_below::{Below, non_substitution};
use demangle_print_names::{
    data_member_prefix, global_ctor_dtor, local_name, nested_name, prefix, unscoped_name,
    unscoped_template_name,
};
use demangle_print_parts::{prefix_handle, unscoped_template_name_handle};
use demangle_print_unqualified::{clone_suffix, clone_type_identifier};
use demangle_scope::{ArgScopeStack, DemangleContext, DemangleError, DemangleWrite};
use demangle_tree::{
    CloneSuffix, CloneTypeIdentifier, DataMemberPrefix, GlobalCtorDtor, LocalName, MangledName,
    Name, NestedName, NonSubstitution, Prefix, PrefixHandle, UnscopedName, UnscopedTemplateName,
    UnscopedTemplateNameHandle,
};

impl<'subs, W: 'subs + DemangleWrite> Demangle<'subs, W> for MangledName {
    ghost tree = { tree_of_mangled_name };

    fn demangle<'prev>(
        &'subs self,
        ctx: &mut DemangleContext<'subs, '_, W>,
        scope: Option<ArgScopeStack<'prev, 'subs>>,
    ) -> Result<(), DemangleError> {
        let printer = begin(ctx);
        printer.mangled_name(self, scope, ctx);
        ctx.answer()
    }
}

impl<'subs, W: 'subs + DemangleWrite> Demangle<'subs, W> for GlobalCtorDtor {
    ghost tree = { tree_of_global_ctor_dtor };

    fn demangle<'prev>(
        &'subs self,
        ctx: &mut DemangleContext<'subs, '_, W>,
        scope: Option<ArgScopeStack<'prev, 'subs>>,
    ) -> Result<(), DemangleError> {
        let printer = begin(ctx);
        global_ctor_dtor(printer, self, scope, ctx);
        ctx.answer()
    }
}

impl<'subs, W: 'subs + DemangleWrite> Demangle<'subs, W> for CloneSuffix {
    ghost tree = { tree_of_clone_suffix };

    fn demangle<'prev>(
        &'subs self,
        ctx: &mut DemangleContext<'subs, '_, W>,
        _scope: Option<ArgScopeStack<'prev, 'subs>>,
    ) -> Result<(), DemangleError> {
        let printer = begin(ctx);
        clone_suffix(printer, self, ctx);
        ctx.answer()
    }
}

impl<'subs, W: 'subs + DemangleWrite> Demangle<'subs, W> for CloneTypeIdentifier {
    ghost tree = { tree_of_clone_type_identifier };

    fn demangle<'prev>(
        &'subs self,
        ctx: &mut DemangleContext<'subs, '_, W>,
        _scope: Option<ArgScopeStack<'prev, 'subs>>,
    ) -> Result<(), DemangleError> {
        let printer = begin(ctx);
        clone_type_identifier(printer, self, ctx);
        ctx.answer()
    }
}

impl<'subs, W: 'subs + DemangleWrite> Demangle<'subs, W> for Name {
    ghost tree = { tree_of_name };

    fn demangle<'prev>(
        &'subs self,
        ctx: &mut DemangleContext<'subs, '_, W>,
        scope: Option<ArgScopeStack<'prev, 'subs>>,
    ) -> Result<(), DemangleError> {
        let printer = begin(ctx);
        printer.name(self, scope, ctx);
        ctx.answer()
    }
}

impl<'subs, W: 'subs + DemangleWrite> Demangle<'subs, W> for UnscopedName {
    ghost tree = { tree_of_unscoped_name };

    fn demangle<'prev>(
        &'subs self,
        ctx: &mut DemangleContext<'subs, '_, W>,
        scope: Option<ArgScopeStack<'prev, 'subs>>,
    ) -> Result<(), DemangleError> {
        let printer = begin(ctx);
        unscoped_name(printer, self, scope, ctx);
        ctx.answer()
    }
}

impl<'subs, W: 'subs + DemangleWrite> Demangle<'subs, W> for UnscopedTemplateName {
    ghost tree = { tree_of_unscoped_template_name };

    fn demangle<'prev>(
        &'subs self,
        ctx: &mut DemangleContext<'subs, '_, W>,
        scope: Option<ArgScopeStack<'prev, 'subs>>,
    ) -> Result<(), DemangleError> {
        let printer = begin(ctx);
        unscoped_template_name(printer, self, scope, ctx);
        ctx.answer()
    }
}

impl<'subs, W: 'subs + DemangleWrite> Demangle<'subs, W> for UnscopedTemplateNameHandle {
    ghost tree = { tree_of_unscoped_template_name_handle };

    fn demangle<'prev>(
        &'subs self,
        ctx: &mut DemangleContext<'subs, '_, W>,
        scope: Option<ArgScopeStack<'prev, 'subs>>,
    ) -> Result<(), DemangleError> {
        let printer = begin(ctx);
        unscoped_template_name_handle(printer, self, scope, ctx);
        ctx.answer()
    }
}

impl<'subs, W: 'subs + DemangleWrite> Demangle<'subs, W> for NestedName {
    ghost tree = { tree_of_nested_name };

    fn demangle<'prev>(
        &'subs self,
        ctx: &mut DemangleContext<'subs, '_, W>,
        scope: Option<ArgScopeStack<'prev, 'subs>>,
    ) -> Result<(), DemangleError> {
        let printer = begin(ctx);
        nested_name(printer, self, scope, ctx);
        ctx.answer()
    }
}

impl<'subs, W: 'subs + DemangleWrite> Demangle<'subs, W> for LocalName {
    ghost tree = { tree_of_local_name };

    fn demangle<'prev>(
        &'subs self,
        ctx: &mut DemangleContext<'subs, '_, W>,
        scope: Option<ArgScopeStack<'prev, 'subs>>,
    ) -> Result<(), DemangleError> {
        let printer = begin(ctx);
        local_name(printer, self, scope, ctx);
        ctx.answer()
    }
}

impl<'subs, W: 'subs + DemangleWrite> Demangle<'subs, W> for Prefix {
    ghost tree = { tree_of_prefix };

    fn demangle<'prev>(
        &'subs self,
        ctx: &mut DemangleContext<'subs, '_, W>,
        scope: Option<ArgScopeStack<'prev, 'subs>>,
    ) -> Result<(), DemangleError> {
        let printer = begin(ctx);
        prefix(printer, self, scope, ctx);
        ctx.answer()
    }
}

impl<'subs, W: 'subs + DemangleWrite> Demangle<'subs, W> for PrefixHandle {
    ghost tree = { tree_of_prefix_handle };

    fn demangle<'prev>(
        &'subs self,
        ctx: &mut DemangleContext<'subs, '_, W>,
        scope: Option<ArgScopeStack<'prev, 'subs>>,
    ) -> Result<(), DemangleError> {
        let printer = begin(ctx);
        prefix_handle(printer, self, scope, ctx);
        ctx.answer()
    }
}

impl<'subs, W: 'subs + DemangleWrite> Demangle<'subs, W> for NonSubstitution {
    ghost tree = { tree_of_non_substitution };

    fn demangle<'prev>(
        &'subs self,
        ctx: &mut DemangleContext<'subs, '_, W>,
        scope: Option<ArgScopeStack<'prev, 'subs>>,
    ) -> Result<(), DemangleError> {
        let printer = begin(ctx);
        non_substitution(printer, self, scope, ctx);
        ctx.answer()
    }
}

impl<'subs, W: 'subs + DemangleWrite> Demangle<'subs, W> for DataMemberPrefix {
    ghost tree = { tree_of_data_member_prefix };

    fn demangle<'prev>(
        &'subs self,
        ctx: &mut DemangleContext<'subs, '_, W>,
        _scope: Option<ArgScopeStack<'prev, 'subs>>,
    ) -> Result<(), DemangleError> {
        let printer = begin(ctx);
        data_member_prefix(printer, self, ctx);
        ctx.answer()
    }
}
