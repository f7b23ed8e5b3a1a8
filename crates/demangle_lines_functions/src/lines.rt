//! Lines of functions and their types.

ghost use Rattle.demangle_core.specs.Core.{Tag};
ghost use Rattle.demangle_printing.specs.Lines.{line_steps};
ghost use Rattle.demangle_context.specs.PageOf.{page};
ghost use Rattle.demangle_lines.specs.Does.{Runs};
ghost use Rattle.demangle_lines.specs.ScopeOf.{lent_scope};

use crate::choices::{choice_3, under_1};
use demangle_context::{Context, DemangleWrite};
use demangle_lines::{
    Below, Scope, Tree, close, close_spaced, hold, inner_part, part, with_leaf_name,
};

/// The line of `EncodingFunction`: a function with its types, `f(int)`: `1fi`. ABI section 5.1.2.
pub fn encoding_function<'s, T: Tree<S>, S: 's, W: DemangleWrite, B: Below<'s, T, S, W>>(
    below: B,
    tree: T,
    scope: Option<&Scope<'_, T>>,
    ctx: &mut Context<'s, '_, T, S, W>,
)
    requires { B.can below }
    ensures { Runs (B.at below) (page T.tree T.table W.seen ctx.old) (page T.tree T.table W.seen ctx.new) (T.tree
        tree) (lent_scope T.tree scope.entry) (line_steps Tag.EncodingFunction) }
{
    let items = ctx.fence();
    let inner = with_leaf_name(below, tree, 0, scope);
    under_1(below, tree, Some(&inner), ctx);
    ctx.unfence(items);
}

/// The line of `EncodingData`: a variable, `A::x`: `N1A1xE`. ABI section 5.1.2.
pub fn encoding_data<'s, T: Tree<S>, S: 's, W: DemangleWrite, B: Below<'s, T, S, W>>(
    below: B,
    tree: T,
    scope: Option<&Scope<'_, T>>,
    ctx: &mut Context<'s, '_, T, S, W>,
)
    requires { B.can below }
    ensures { Runs (B.at below) (page T.tree T.table W.seen ctx.old) (page T.tree T.table W.seen ctx.new) (T.tree
        tree) (lent_scope T.tree scope.entry) (line_steps Tag.EncodingData) }
{
    let items = ctx.fence();
    part(below, tree, 0, scope, ctx);
    ctx.unfence(items);
}

/// The line of `FunctionType`: the type of a function, `int (char)`: `FicE`. ABI section 5.1.5.3.
pub fn function_type<'s, T: Tree<S>, S: 's, W: DemangleWrite, B: Below<'s, T, S, W>>(
    below: B,
    tree: T,
    scope: Option<&Scope<'_, T>>,
    ctx: &mut Context<'s, '_, T, S, W>,
)
    requires { B.can below }
    ensures { Runs (B.at below) (page T.tree T.table W.seen ctx.old) (page T.tree T.table W.seen ctx.new) (T.tree
        tree) (lent_scope T.tree scope.entry) (line_steps Tag.FunctionType) }
{
    hold(below, tree, ctx);
    part(below, tree, 4, scope, ctx);
    close(below, tree, scope, ctx);
    choice_3(below, tree, scope, ctx);
}

/// The line of `BareFunctionType`: the types of a signature, the first of them the result where one is written, `int
/// (char)`: `ic`. ABI section 5.1.5.3.
pub fn bare_function_type<'s, T: Tree<S>, S: 's, W: DemangleWrite, B: Below<'s, T, S, W>>(
    below: B,
    tree: T,
    scope: Option<&Scope<'_, T>>,
    ctx: &mut Context<'s, '_, T, S, W>,
)
    requires { B.can below }
    ensures { Runs (B.at below) (page T.tree T.table W.seen ctx.old) (page T.tree T.table W.seen ctx.new) (T.tree
        tree) (lent_scope T.tree scope.entry) (line_steps Tag.BareFunctionType) }
{
    hold(below, tree, ctx);
    inner_part(below, tree, 0, 0, scope, ctx);
    close_spaced(below, tree, scope, ctx);
}

/// The line of `ExceptionSpecNoExcept`: `noexcept`: `Do`. ABI section 5.1.5.3.
pub fn exception_spec_no_except<'s, T: Tree<S>, S: 's, W: DemangleWrite, B: Below<'s, T, S, W>>(
    below: B,
    tree: T,
    scope: Option<&Scope<'_, T>>,
    ctx: &mut Context<'s, '_, T, S, W>,
)
    requires { B.can below }
    ensures { Runs (B.at below) (page T.tree T.table W.seen ctx.old) (page T.tree T.table W.seen ctx.new) (T.tree
        tree) (lent_scope T.tree scope.entry) (line_steps Tag.ExceptionSpecNoExcept) }
{
    ctx.text("noexcept");
}

/// The line of `ExceptionSpecComputed`: a condition that depends on template arguments, `noexcept(T)`: `DOT_E`. ABI
/// section 5.1.5.3.
pub fn exception_spec_computed<'s, T: Tree<S>, S: 's, W: DemangleWrite, B: Below<'s, T, S, W>>(
    below: B,
    tree: T,
    scope: Option<&Scope<'_, T>>,
    ctx: &mut Context<'s, '_, T, S, W>,
)
    requires { B.can below }
    ensures { Runs (B.at below) (page T.tree T.table W.seen ctx.old) (page T.tree T.table W.seen ctx.new) (T.tree
        tree) (lent_scope T.tree scope.entry) (line_steps Tag.ExceptionSpecComputed) }
{
    ctx.text("noexcept(");
    part(below, tree, 0, scope, ctx);
    ctx.text(")");
}
