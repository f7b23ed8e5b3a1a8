//! Printing of nodes: template parameters and arguments, and parameters of functions.

ghost use Rattle.demangle_leaf_nodes.specs.TreeLeaves.{tree_of_function_param, tree_of_template_param};
ghost use Rattle.demangle_leaf_nodes.specs.TreeLeaves.{tree_of_template_template_param};
ghost use Rattle.demangle_leaf_nodes.specs.TreeLeaves.{tree_of_template_template_param_handle};
ghost use Rattle.demangle_nodes.specs.TreeNodes.{tree_of_template_arg, tree_of_template_args};

use crate::demangle::Demangle;
use crate::printer::begin;
use demangle_print_below::Below;
use demangle_print_parts::{template_args, template_param, template_template_param_handle};
use demangle_print_primaries::{function_param, template_template_param};
use demangle_scope::{ArgScopeStack, DemangleContext, DemangleError, DemangleWrite};
use demangle_tree::{
    FunctionParam, TemplateArg, TemplateArgs, TemplateParam, TemplateTemplateParam,
    TemplateTemplateParamHandle,
};

impl<'subs, W: 'subs + DemangleWrite> Demangle<'subs, W> for TemplateParam {
    ghost tree = { tree_of_template_param };

    fn demangle<'prev>(
        &'subs self,
        ctx: &mut DemangleContext<'subs, '_, W>,
        scope: Option<ArgScopeStack<'prev, 'subs>>,
    ) -> Result<(), DemangleError> {
        let printer = begin(ctx);
        template_param(printer, self, scope, ctx);
        ctx.answer()
    }
}

impl<'subs, W: 'subs + DemangleWrite> Demangle<'subs, W> for TemplateTemplateParam {
    ghost tree = { tree_of_template_template_param };

    fn demangle<'prev>(
        &'subs self,
        ctx: &mut DemangleContext<'subs, '_, W>,
        scope: Option<ArgScopeStack<'prev, 'subs>>,
    ) -> Result<(), DemangleError> {
        let printer = begin(ctx);
        template_template_param(printer, self, scope, ctx);
        ctx.answer()
    }
}

impl<'subs, W: 'subs + DemangleWrite> Demangle<'subs, W> for TemplateTemplateParamHandle {
    ghost tree = { tree_of_template_template_param_handle };

    fn demangle<'prev>(
        &'subs self,
        ctx: &mut DemangleContext<'subs, '_, W>,
        scope: Option<ArgScopeStack<'prev, 'subs>>,
    ) -> Result<(), DemangleError> {
        let printer = begin(ctx);
        template_template_param_handle(printer, self, scope, ctx);
        ctx.answer()
    }
}

impl<'subs, W: 'subs + DemangleWrite> Demangle<'subs, W> for FunctionParam {
    ghost tree = { tree_of_function_param };

    fn demangle<'prev>(
        &'subs self,
        ctx: &mut DemangleContext<'subs, '_, W>,
        _scope: Option<ArgScopeStack<'prev, 'subs>>,
    ) -> Result<(), DemangleError> {
        let printer = begin(ctx);
        function_param(printer, self, ctx);
        ctx.answer()
    }
}

impl<'subs, W: 'subs + DemangleWrite> Demangle<'subs, W> for TemplateArgs {
    ghost tree = { tree_of_template_args };

    fn demangle<'prev>(
        &'subs self,
        ctx: &mut DemangleContext<'subs, '_, W>,
        scope: Option<ArgScopeStack<'prev, 'subs>>,
    ) -> Result<(), DemangleError> {
        let printer = begin(ctx);
        template_args(printer, self, scope, ctx);
        ctx.answer()
    }
}

impl<'subs, W: 'subs + DemangleWrite> Demangle<'subs, W> for TemplateArg {
    ghost tree = { tree_of_template_arg };

    fn demangle<'prev>(
        &'subs self,
        ctx: &mut DemangleContext<'subs, '_, W>,
        scope: Option<ArgScopeStack<'prev, 'subs>>,
    ) -> Result<(), DemangleError> {
        let printer = begin(ctx);
        printer.template_arg(self, scope, ctx);
        ctx.answer()
    }
}
