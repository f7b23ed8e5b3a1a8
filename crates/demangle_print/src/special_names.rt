//! Printing of nodes: special names.

ghost use Rattle.demangle_leaf_nodes.specs.TreeLeaves.{tree_of_call_offset, tree_of_resource_name};
ghost use Rattle.demangle_nodes.specs.TreeNodes.{tree_of_special_name};

use crate::demangle::Demangle;
use crate::printer::begin;
use demangle_print_special::{call_offset, resource_name, special_name};
use demangle_scope::{ArgScopeStack, DemangleContext, DemangleError, DemangleWrite};
use demangle_tree::{CallOffset, ResourceName, SpecialName};

impl<'subs, W: 'subs + DemangleWrite> Demangle<'subs, W> for SpecialName {
    ghost tree = { tree_of_special_name };

    fn demangle<'prev>(
        &'subs self,
        ctx: &mut DemangleContext<'subs, '_, W>,
        scope: Option<ArgScopeStack<'prev, 'subs>>,
    ) -> Result<(), DemangleError> {
        let printer = begin(ctx);
        special_name(printer, self, scope, ctx);
        ctx.answer()
    }
}

impl<'subs, W: 'subs + DemangleWrite> Demangle<'subs, W> for CallOffset {
    ghost tree = { tree_of_call_offset };

    fn demangle<'prev>(
        &'subs self,
        ctx: &mut DemangleContext<'subs, '_, W>,
        _scope: Option<ArgScopeStack<'prev, 'subs>>,
    ) -> Result<(), DemangleError> {
        let printer = begin(ctx);
        call_offset(printer, self, ctx);
        ctx.answer()
    }
}

impl<'subs, W: 'subs + DemangleWrite> Demangle<'subs, W> for ResourceName {
    ghost tree = { tree_of_resource_name };

    fn demangle<'prev>(
        &'subs self,
        ctx: &mut DemangleContext<'subs, '_, W>,
        _scope: Option<ArgScopeStack<'prev, 'subs>>,
    ) -> Result<(), DemangleError> {
        let printer = begin(ctx);
        resource_name(printer, self, ctx);
        ctx.answer()
    }
}
