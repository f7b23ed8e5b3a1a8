//! Printing of nodes: functions and their types.

ghost use Rattle.demangle_leaf_nodes.specs.TreeLeaves.{tree_of_bare_function_type};
ghost use Rattle.demangle_nodes.specs.TreeNodes.{tree_of_encoding};
ghost use Rattle.demangle_entries.specs.TreeEntries.{tree_of_exception_spec, tree_of_function_type};

use crate::demangle::Demangle;
use crate::printer::begin;
use demangle_print_below::Below;
use demangle_print_types::{bare_function_type, exception_spec, function_type};
use demangle_scope::{ArgScopeStack, DemangleContext, DemangleError, DemangleWrite};
use demangle_tree::{BareFunctionType, Encoding, ExceptionSpec, FunctionType};

impl<'subs, W: 'subs + DemangleWrite> Demangle<'subs, W> for Encoding {
    ghost tree = { tree_of_encoding };

    fn demangle<'prev>(
        &'subs self,
        ctx: &mut DemangleContext<'subs, '_, W>,
        scope: Option<ArgScopeStack<'prev, 'subs>>,
    ) -> Result<(), DemangleError> {
        let printer = begin(ctx);
        printer.encoding(self, scope, ctx);
        ctx.answer()
    }
}

impl<'subs, W: 'subs + DemangleWrite> Demangle<'subs, W> for FunctionType {
    ghost tree = { tree_of_function_type };

    fn demangle<'prev>(
        &'subs self,
        ctx: &mut DemangleContext<'subs, '_, W>,
        scope: Option<ArgScopeStack<'prev, 'subs>>,
    ) -> Result<(), DemangleError> {
        let printer = begin(ctx);
        function_type(printer, self, scope, ctx);
        ctx.answer()
    }
}

impl<'subs, W: 'subs + DemangleWrite> Demangle<'subs, W> for BareFunctionType {
    ghost tree = { tree_of_bare_function_type };

    fn demangle<'prev>(
        &'subs self,
        ctx: &mut DemangleContext<'subs, '_, W>,
        scope: Option<ArgScopeStack<'prev, 'subs>>,
    ) -> Result<(), DemangleError> {
        let printer = begin(ctx);
        bare_function_type(printer, self, scope, ctx);
        ctx.answer()
    }
}

impl<'subs, W: 'subs + DemangleWrite> Demangle<'subs, W> for ExceptionSpec {
    ghost tree = { tree_of_exception_spec };

    fn demangle<'prev>(
        &'subs self,
        ctx: &mut DemangleContext<'subs, '_, W>,
        scope: Option<ArgScopeStack<'prev, 'subs>>,
    ) -> Result<(), DemangleError> {
        let printer = begin(ctx);
        exception_spec(printer, self, scope, ctx);
        ctx.answer()
    }
}
