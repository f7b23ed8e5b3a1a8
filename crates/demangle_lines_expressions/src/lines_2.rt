//! Lines of expressions.

ghost use Rattle.demangle_core.specs.Core.{Tag};
ghost use Rattle.demangle_printing.specs.Lines.{line_steps};
ghost use Rattle.demangle_context.specs.PageOf.{page};
ghost use Rattle.demangle_lines.specs.Does.{Runs};
ghost use Rattle.demangle_lines.specs.ScopeOf.{lent_scope};

use crate::choices::{choice_5, choice_14, each_1};
use demangle_context::{Context, DemangleWrite, PrintFlag};
use demangle_lines::{Below, Scope, Tree, operand, part, part_at, spelled};

/// The line of `SubobjectExpr`: a part of an object as a template argument: its type, the object, and its offset
/// there. ABI section 5.1.6.
pub fn subobject_expr<'s, T: Tree<S>, S: 's, W: DemangleWrite, B: Below<'s, T, S, W>>(
    below: B,
    tree: T,
    scope: Option<&Scope<'_, T>>,
    ctx: &mut Context<'s, '_, T, S, W>,
)
    requires { B.can below }
    ensures { Runs (B.at below) (page T.tree T.table W.seen ctx.old) (page T.tree T.table W.seen ctx.new) (T.tree
        tree) (lent_scope T.tree scope.entry) (line_steps Tag.SubobjectExpr) }
{
    part(below, tree, 1, scope, ctx);
    ctx.text(".<");
    part(below, tree, 0, scope, ctx);
    ctx.text(" at offset ");
    spelled(below, tree, 2, ctx);
    ctx.text(">");
}

/// The line of `ExpressionPackExpansion`: a pattern that is repeated for each element of a pack, `fp...`: `spfp_`.
/// ABI section 5.1.6.
pub fn expression_pack_expansion<'s, T: Tree<S>, S: 's, W: DemangleWrite, B: Below<'s, T, S, W>>(
    below: B,
    tree: T,
    scope: Option<&Scope<'_, T>>,
    ctx: &mut Context<'s, '_, T, S, W>,
)
    requires { B.can below }
    ensures { Runs (B.at below) (page T.tree T.table W.seen ctx.old) (page T.tree T.table W.seen ctx.new) (T.tree
        tree) (lent_scope T.tree scope.entry) (line_steps Tag.ExpressionPackExpansion) }
{
    operand(below, tree, 0, scope, ctx);
    ctx.text("...");
}

/// The line of `ExpressionThrow`: `throw g`: `tw1g`. ABI section 5.1.6.
pub fn expression_throw<'s, T: Tree<S>, S: 's, W: DemangleWrite, B: Below<'s, T, S, W>>(
    below: B,
    tree: T,
    scope: Option<&Scope<'_, T>>,
    ctx: &mut Context<'s, '_, T, S, W>,
)
    requires { B.can below }
    ensures { Runs (B.at below) (page T.tree T.table W.seen ctx.old) (page T.tree T.table W.seen ctx.new) (T.tree
        tree) (lent_scope T.tree scope.entry) (line_steps Tag.ExpressionThrow) }
{
    ctx.text("throw ");
    part(below, tree, 0, scope, ctx);
}

/// The line of `ExpressionRethrow`: `throw` with no operand: `tr`. ABI section 5.1.6.
pub fn expression_rethrow<'s, T: Tree<S>, S: 's, W: DemangleWrite, B: Below<'s, T, S, W>>(
    below: B,
    tree: T,
    scope: Option<&Scope<'_, T>>,
    ctx: &mut Context<'s, '_, T, S, W>,
)
    requires { B.can below }
    ensures { Runs (B.at below) (page T.tree T.table W.seen ctx.old) (page T.tree T.table W.seen ctx.new) (T.tree
        tree) (lent_scope T.tree scope.entry) (line_steps Tag.ExpressionRethrow) }
{
    ctx.text("throw");
}

/// The line of `ExprPrimaryLiteral`: `-5`: `Lin5E`; `true`: `Lb1E`. ABI section 5.1.6.
pub fn expr_primary_literal<'s, T: Tree<S>, S: 's, W: DemangleWrite, B: Below<'s, T, S, W>>(
    below: B,
    tree: T,
    scope: Option<&Scope<'_, T>>,
    ctx: &mut Context<'s, '_, T, S, W>,
)
    requires { B.can below }
    ensures { Runs (B.at below) (page T.tree T.table W.seen ctx.old) (page T.tree T.table W.seen ctx.new) (T.tree
        tree) (lent_scope T.tree scope.entry) (line_steps Tag.ExprPrimaryLiteral) }
{
    choice_5(below, tree, scope, ctx);
}

/// The line of `ExprPrimaryExternal`: the variable or function `g`: `L_Z1gE`. ABI section 5.1.6.
pub fn expr_primary_external<'s, T: Tree<S>, S: 's, W: DemangleWrite, B: Below<'s, T, S, W>>(
    below: B,
    tree: T,
    scope: Option<&Scope<'_, T>>,
    ctx: &mut Context<'s, '_, T, S, W>,
)
    requires { B.can below }
    ensures { Runs (B.at below) (page T.tree T.table W.seen ctx.old) (page T.tree T.table W.seen ctx.new) (T.tree
        tree) (lent_scope T.tree scope.entry) (line_steps Tag.ExprPrimaryExternal) }
{
    let before = ctx.is_on(PrintFlag::Params);
    ctx.turn(PrintFlag::Params, true);
    part(below, tree, 0, scope, ctx);
    ctx.turn(PrintFlag::Params, before);
}

/// The line of `UnresolvedNameGlobal`: `::x`: `gs1x`. ABI section 5.1.6.
pub fn unresolved_name_global<'s, T: Tree<S>, S: 's, W: DemangleWrite, B: Below<'s, T, S, W>>(
    below: B,
    tree: T,
    scope: Option<&Scope<'_, T>>,
    ctx: &mut Context<'s, '_, T, S, W>,
)
    requires { B.can below }
    ensures { Runs (B.at below) (page T.tree T.table W.seen ctx.old) (page T.tree T.table W.seen ctx.new) (T.tree
        tree) (lent_scope T.tree scope.entry) (line_steps Tag.UnresolvedNameGlobal) }
{
    ctx.text("::");
    part(below, tree, 0, scope, ctx);
}

/// The line of `UnresolvedNameNested1`: a name in a type, `T::x`: `srT_1x`; with scopes between, `T::A::x`:
/// `srNT_1AE1x`. ABI section 5.1.6.
pub fn unresolved_name_nested1<'s, T: Tree<S>, S: 's, W: DemangleWrite, B: Below<'s, T, S, W>>(
    below: B,
    tree: T,
    scope: Option<&Scope<'_, T>>,
    ctx: &mut Context<'s, '_, T, S, W>,
)
    requires { B.can below }
    ensures { Runs (B.at below) (page T.tree T.table W.seen ctx.old) (page T.tree T.table W.seen ctx.new) (T.tree
        tree) (lent_scope T.tree scope.entry) (line_steps Tag.UnresolvedNameNested1) }
{
    part(below, tree, 0, scope, ctx);
    ctx.text("::");
    each_1(below, part_at(below, tree, 1), scope, ctx);
    part(below, tree, 2, scope, ctx);
}

/// The line of `UnresolvedNameNested2`: a name in scopes alone, `A::x`: `sr1AE1x`. ABI section 5.1.6.
pub fn unresolved_name_nested2<'s, T: Tree<S>, S: 's, W: DemangleWrite, B: Below<'s, T, S, W>>(
    below: B,
    tree: T,
    scope: Option<&Scope<'_, T>>,
    ctx: &mut Context<'s, '_, T, S, W>,
)
    requires { B.can below }
    ensures { Runs (B.at below) (page T.tree T.table W.seen ctx.old) (page T.tree T.table W.seen ctx.new) (T.tree
        tree) (lent_scope T.tree scope.entry) (line_steps Tag.UnresolvedNameNested2) }
{
    each_1(below, part_at(below, tree, 0), scope, ctx);
    part(below, tree, 1, scope, ctx);
}

/// The line of `UnresolvedNameGlobalNested2`: `::A::x`: `gssr1AE1x`. ABI section 5.1.6.
pub fn unresolved_name_global_nested2<
    's,
    T: Tree<S>,
    S: 's,
    W: DemangleWrite,
    B: Below<'s, T, S, W>,
>(below: B, tree: T, scope: Option<&Scope<'_, T>>, ctx: &mut Context<'s, '_, T, S, W>)
    requires { B.can below }
    ensures { Runs (B.at below) (page T.tree T.table W.seen ctx.old) (page T.tree T.table W.seen ctx.new) (T.tree
        tree) (lent_scope T.tree scope.entry) (line_steps Tag.UnresolvedNameGlobalNested2) }
{
    ctx.text("::");
    each_1(below, part_at(below, tree, 0), scope, ctx);
    part(below, tree, 1, scope, ctx);
}

/// The line of `UnresolvedTypeTemplate`: `T`, and `T<int>`: `T_` and `T_IiE`. ABI section 5.1.6.
pub fn unresolved_type_template<'s, T: Tree<S>, S: 's, W: DemangleWrite, B: Below<'s, T, S, W>>(
    below: B,
    tree: T,
    scope: Option<&Scope<'_, T>>,
    ctx: &mut Context<'s, '_, T, S, W>,
)
    requires { B.can below }
    ensures { Runs (B.at below) (page T.tree T.table W.seen ctx.old) (page T.tree T.table W.seen ctx.new) (T.tree
        tree) (lent_scope T.tree scope.entry) (line_steps Tag.UnresolvedTypeTemplate) }
{
    choice_14(below, tree, scope, ctx);
}

/// The line of `SimpleId`: an identifier with its template arguments, `A<int>`: `1AIiE`. ABI section 5.1.6.
pub fn simple_id<'s, T: Tree<S>, S: 's, W: DemangleWrite, B: Below<'s, T, S, W>>(
    below: B,
    tree: T,
    scope: Option<&Scope<'_, T>>,
    ctx: &mut Context<'s, '_, T, S, W>,
)
    requires { B.can below }
    ensures { Runs (B.at below) (page T.tree T.table W.seen ctx.old) (page T.tree T.table W.seen ctx.new) (T.tree
        tree) (lent_scope T.tree scope.entry) (line_steps Tag.SimpleId) }
{
    part(below, tree, 0, scope, ctx);
    part(below, tree, 1, scope, ctx);
}

/// The line of `DestructorNameUnresolved`: `T` of `~T`: `T_`. ABI section 5.1.6.
pub fn destructor_name_unresolved<'s, T: Tree<S>, S: 's, W: DemangleWrite, B: Below<'s, T, S, W>>(
    below: B,
    tree: T,
    scope: Option<&Scope<'_, T>>,
    ctx: &mut Context<'s, '_, T, S, W>,
)
    requires { B.can below }
    ensures { Runs (B.at below) (page T.tree T.table W.seen ctx.old) (page T.tree T.table W.seen ctx.new) (T.tree
        tree) (lent_scope T.tree scope.entry) (line_steps Tag.DestructorNameUnresolved) }
{
    ctx.text("~");
    part(below, tree, 0, scope, ctx);
}
