//! Lines of expressions.

ghost use Rattle.demangle_core.specs.Core.{Tag};
ghost use Rattle.demangle_printing.specs.Lines.{line_steps};
ghost use Rattle.demangle_context.specs.PageOf.{page};
ghost use Rattle.demangle_lines.specs.Does.{Runs};
ghost use Rattle.demangle_lines.specs.ScopeOf.{lent_scope};

use crate::choices::{choice_1, choice_2, choice_3, choice_4};
use demangle_context::{Context, DemangleWrite};
use demangle_lines::{Below, Scope, Tree, list, operand, part};

/// The line of `ExpressionUnary`: an operator with one operand, `-g`: `ng1g`; `++` and `--` stand behind theirs,
/// `g++`: `pp1g`. ABI section 5.1.6.
pub fn expression_unary<'s, T: Tree<S>, S: 's, W: DemangleWrite, B: Below<'s, T, S, W>>(
    below: B,
    tree: T,
    scope: Option<&Scope<'_, T>>,
    ctx: &mut Context<'s, '_, T, S, W>,
)
    requires { B.can below }
    ensures { Runs (B.at below) (page T.tree T.table W.seen ctx.old) (page T.tree T.table W.seen ctx.new) (T.tree
        tree) (lent_scope T.tree scope.entry) (line_steps Tag.ExpressionUnary) }
{
    choice_1(below, tree, scope, ctx);
}

/// The line of `ExpressionBinary`: an operator with two operands, `g + 1`: `pl1gLi1E`. ABI section 5.1.6.
pub fn expression_binary<'s, T: Tree<S>, S: 's, W: DemangleWrite, B: Below<'s, T, S, W>>(
    below: B,
    tree: T,
    scope: Option<&Scope<'_, T>>,
    ctx: &mut Context<'s, '_, T, S, W>,
)
    requires { B.can below }
    ensures { Runs (B.at below) (page T.tree T.table W.seen ctx.old) (page T.tree T.table W.seen ctx.new) (T.tree
        tree) (lent_scope T.tree scope.entry) (line_steps Tag.ExpressionBinary) }
{
    choice_2(below, tree, scope, ctx);
}

/// The line of `ExpressionTernary`: an operator with three operands, `g ? 1 : 2`: `qu1gLi1ELi2E`. ABI section 5.1.6.
pub fn expression_ternary<'s, T: Tree<S>, S: 's, W: DemangleWrite, B: Below<'s, T, S, W>>(
    below: B,
    tree: T,
    scope: Option<&Scope<'_, T>>,
    ctx: &mut Context<'s, '_, T, S, W>,
)
    requires { B.can below }
    ensures { Runs (B.at below) (page T.tree T.table W.seen ctx.old) (page T.tree T.table W.seen ctx.new) (T.tree
        tree) (lent_scope T.tree scope.entry) (line_steps Tag.ExpressionTernary) }
{
    choice_3(below, tree, scope, ctx);
}

/// The line of `ExpressionPrefixInc`: `++g`: `pp_1g`. ABI section 5.1.6.
pub fn expression_prefix_inc<'s, T: Tree<S>, S: 's, W: DemangleWrite, B: Below<'s, T, S, W>>(
    below: B,
    tree: T,
    scope: Option<&Scope<'_, T>>,
    ctx: &mut Context<'s, '_, T, S, W>,
)
    requires { B.can below }
    ensures { Runs (B.at below) (page T.tree T.table W.seen ctx.old) (page T.tree T.table W.seen ctx.new) (T.tree
        tree) (lent_scope T.tree scope.entry) (line_steps Tag.ExpressionPrefixInc) }
{
    ctx.text("++");
    part(below, tree, 0, scope, ctx);
}

/// The line of `ExpressionPrefixDec`: `--g`: `mm_1g`. ABI section 5.1.6.
pub fn expression_prefix_dec<'s, T: Tree<S>, S: 's, W: DemangleWrite, B: Below<'s, T, S, W>>(
    below: B,
    tree: T,
    scope: Option<&Scope<'_, T>>,
    ctx: &mut Context<'s, '_, T, S, W>,
)
    requires { B.can below }
    ensures { Runs (B.at below) (page T.tree T.table W.seen ctx.old) (page T.tree T.table W.seen ctx.new) (T.tree
        tree) (lent_scope T.tree scope.entry) (line_steps Tag.ExpressionPrefixDec) }
{
    ctx.text("--");
    part(below, tree, 0, scope, ctx);
}

/// The line of `FoldExprUnaryLeft`: `(... + fp)`: `flplfp_`. ABI section 5.1.6.
pub fn fold_expr_unary_left<'s, T: Tree<S>, S: 's, W: DemangleWrite, B: Below<'s, T, S, W>>(
    below: B,
    tree: T,
    scope: Option<&Scope<'_, T>>,
    ctx: &mut Context<'s, '_, T, S, W>,
)
    requires { B.can below }
    ensures { Runs (B.at below) (page T.tree T.table W.seen ctx.old) (page T.tree T.table W.seen ctx.new) (T.tree
        tree) (lent_scope T.tree scope.entry) (line_steps Tag.FoldExprUnaryLeft) }
{
    ctx.text("(...");
    part(below, tree, 0, scope, ctx);
    operand(below, tree, 1, scope, ctx);
    ctx.text(")");
}

/// The line of `FoldExprUnaryRight`: `(fp + ...)`: `frplfp_`. ABI section 5.1.6.
pub fn fold_expr_unary_right<'s, T: Tree<S>, S: 's, W: DemangleWrite, B: Below<'s, T, S, W>>(
    below: B,
    tree: T,
    scope: Option<&Scope<'_, T>>,
    ctx: &mut Context<'s, '_, T, S, W>,
)
    requires { B.can below }
    ensures { Runs (B.at below) (page T.tree T.table W.seen ctx.old) (page T.tree T.table W.seen ctx.new) (T.tree
        tree) (lent_scope T.tree scope.entry) (line_steps Tag.FoldExprUnaryRight) }
{
    ctx.text("(");
    operand(below, tree, 1, scope, ctx);
    part(below, tree, 0, scope, ctx);
    ctx.text("...)");
}

/// The line of `FoldExprBinaryLeft`: `(1 + ... + fp)`: `fLplLi1Efp_`. ABI section 5.1.6.
pub fn fold_expr_binary_left<'s, T: Tree<S>, S: 's, W: DemangleWrite, B: Below<'s, T, S, W>>(
    below: B,
    tree: T,
    scope: Option<&Scope<'_, T>>,
    ctx: &mut Context<'s, '_, T, S, W>,
)
    requires { B.can below }
    ensures { Runs (B.at below) (page T.tree T.table W.seen ctx.old) (page T.tree T.table W.seen ctx.new) (T.tree
        tree) (lent_scope T.tree scope.entry) (line_steps Tag.FoldExprBinaryLeft) }
{
    ctx.text("(");
    operand(below, tree, 1, scope, ctx);
    part(below, tree, 0, scope, ctx);
    ctx.text("...");
    part(below, tree, 0, scope, ctx);
    operand(below, tree, 2, scope, ctx);
    ctx.text(")");
}

/// The line of `ExpressionCall`: a call, `g(1)`: `cl1gLi1EE`. ABI section 5.1.6.
pub fn expression_call<'s, T: Tree<S>, S: 's, W: DemangleWrite, B: Below<'s, T, S, W>>(
    below: B,
    tree: T,
    scope: Option<&Scope<'_, T>>,
    ctx: &mut Context<'s, '_, T, S, W>,
)
    requires { B.can below }
    ensures { Runs (B.at below) (page T.tree T.table W.seen ctx.old) (page T.tree T.table W.seen ctx.new) (T.tree
        tree) (lent_scope T.tree scope.entry) (line_steps Tag.ExpressionCall) }
{
    operand(below, tree, 0, scope, ctx);
    ctx.text("(");
    list(below, tree, 1, scope, ctx);
    ctx.text(")");
}

/// The line of `ExpressionConversionOne`: a conversion of one value, `int(g)`: `cvi1g`. ABI section 5.1.6.
pub fn expression_conversion_one<'s, T: Tree<S>, S: 's, W: DemangleWrite, B: Below<'s, T, S, W>>(
    below: B,
    tree: T,
    scope: Option<&Scope<'_, T>>,
    ctx: &mut Context<'s, '_, T, S, W>,
)
    requires { B.can below }
    ensures { Runs (B.at below) (page T.tree T.table W.seen ctx.old) (page T.tree T.table W.seen ctx.new) (T.tree
        tree) (lent_scope T.tree scope.entry) (line_steps Tag.ExpressionConversionOne) }
{
    ctx.text("(");
    part(below, tree, 0, scope, ctx);
    ctx.text(")(");
    part(below, tree, 1, scope, ctx);
    ctx.text(")");
}

/// The line of `ExpressionConversionMany`: a conversion of no value or of several, `T(1, 2)`: `cvT__Li1ELi2EE`. ABI
/// section 5.1.6.
pub fn expression_conversion_many<'s, T: Tree<S>, S: 's, W: DemangleWrite, B: Below<'s, T, S, W>>(
    below: B,
    tree: T,
    scope: Option<&Scope<'_, T>>,
    ctx: &mut Context<'s, '_, T, S, W>,
)
    requires { B.can below }
    ensures { Runs (B.at below) (page T.tree T.table W.seen ctx.old) (page T.tree T.table W.seen ctx.new) (T.tree
        tree) (lent_scope T.tree scope.entry) (line_steps Tag.ExpressionConversionMany) }
{
    part(below, tree, 0, scope, ctx);
    ctx.text("(");
    list(below, tree, 1, scope, ctx);
    ctx.text(")");
}

/// The line of `ExpressionConversionBraced`: a conversion of a list in braces, `T{1}`: `tlT_Li1EE`. ABI section
/// 5.1.6.
pub fn expression_conversion_braced<'s, T: Tree<S>, S: 's, W: DemangleWrite, B: Below<'s, T, S, W>>(
    below: B,
    tree: T,
    scope: Option<&Scope<'_, T>>,
    ctx: &mut Context<'s, '_, T, S, W>,
)
    requires { B.can below }
    ensures { Runs (B.at below) (page T.tree T.table W.seen ctx.old) (page T.tree T.table W.seen ctx.new) (T.tree
        tree) (lent_scope T.tree scope.entry) (line_steps Tag.ExpressionConversionBraced) }
{
    part(below, tree, 0, scope, ctx);
    ctx.text("{");
    list(below, tree, 1, scope, ctx);
    ctx.text("}");
}

/// The line of `ExpressionBracedInitList`: a list in braces, `{1, 2}`: `ilLi1ELi2EE`. ABI section 5.1.6.
pub fn expression_braced_init_list<'s, T: Tree<S>, S: 's, W: DemangleWrite, B: Below<'s, T, S, W>>(
    below: B,
    tree: T,
    scope: Option<&Scope<'_, T>>,
    ctx: &mut Context<'s, '_, T, S, W>,
)
    requires { B.can below }
    ensures { Runs (B.at below) (page T.tree T.table W.seen ctx.old) (page T.tree T.table W.seen ctx.new) (T.tree
        tree) (lent_scope T.tree scope.entry) (line_steps Tag.ExpressionBracedInitList) }
{
    ctx.text("{");
    list(below, tree, 0, scope, ctx);
    ctx.text("}");
}

/// The line of `ExpressionDynamicCast`: `dynamic_cast<T>(g)`: `dcT_1g`. ABI section 5.1.6.
pub fn expression_dynamic_cast<'s, T: Tree<S>, S: 's, W: DemangleWrite, B: Below<'s, T, S, W>>(
    below: B,
    tree: T,
    scope: Option<&Scope<'_, T>>,
    ctx: &mut Context<'s, '_, T, S, W>,
)
    requires { B.can below }
    ensures { Runs (B.at below) (page T.tree T.table W.seen ctx.old) (page T.tree T.table W.seen ctx.new) (T.tree
        tree) (lent_scope T.tree scope.entry) (line_steps Tag.ExpressionDynamicCast) }
{
    ctx.text("dynamic_cast<");
    part(below, tree, 0, scope, ctx);
    ctx.text(">(");
    part(below, tree, 1, scope, ctx);
    ctx.text(")");
}

/// The line of `ExpressionStaticCast`: `static_cast<T>(g)`: `scT_1g`. ABI section 5.1.6.
pub fn expression_static_cast<'s, T: Tree<S>, S: 's, W: DemangleWrite, B: Below<'s, T, S, W>>(
    below: B,
    tree: T,
    scope: Option<&Scope<'_, T>>,
    ctx: &mut Context<'s, '_, T, S, W>,
)
    requires { B.can below }
    ensures { Runs (B.at below) (page T.tree T.table W.seen ctx.old) (page T.tree T.table W.seen ctx.new) (T.tree
        tree) (lent_scope T.tree scope.entry) (line_steps Tag.ExpressionStaticCast) }
{
    ctx.text("static_cast<");
    part(below, tree, 0, scope, ctx);
    ctx.text(">(");
    part(below, tree, 1, scope, ctx);
    ctx.text(")");
}

/// The line of `ExpressionConstCast`: `const_cast<T>(g)`: `ccT_1g`. ABI section 5.1.6.
pub fn expression_const_cast<'s, T: Tree<S>, S: 's, W: DemangleWrite, B: Below<'s, T, S, W>>(
    below: B,
    tree: T,
    scope: Option<&Scope<'_, T>>,
    ctx: &mut Context<'s, '_, T, S, W>,
)
    requires { B.can below }
    ensures { Runs (B.at below) (page T.tree T.table W.seen ctx.old) (page T.tree T.table W.seen ctx.new) (T.tree
        tree) (lent_scope T.tree scope.entry) (line_steps Tag.ExpressionConstCast) }
{
    ctx.text("const_cast<");
    part(below, tree, 0, scope, ctx);
    ctx.text(">(");
    part(below, tree, 1, scope, ctx);
    ctx.text(")");
}

/// The line of `ExpressionReinterpretCast`: `reinterpret_cast<T>(g)`: `rcT_1g`. ABI section 5.1.6.
pub fn expression_reinterpret_cast<'s, T: Tree<S>, S: 's, W: DemangleWrite, B: Below<'s, T, S, W>>(
    below: B,
    tree: T,
    scope: Option<&Scope<'_, T>>,
    ctx: &mut Context<'s, '_, T, S, W>,
)
    requires { B.can below }
    ensures { Runs (B.at below) (page T.tree T.table W.seen ctx.old) (page T.tree T.table W.seen ctx.new) (T.tree
        tree) (lent_scope T.tree scope.entry) (line_steps Tag.ExpressionReinterpretCast) }
{
    ctx.text("reinterpret_cast<");
    part(below, tree, 0, scope, ctx);
    ctx.text(">(");
    part(below, tree, 1, scope, ctx);
    ctx.text(")");
}

/// The line of `ExpressionNew`: `new int(1)`: `nw_ipiLi1EE`; with a placement argument, `new (g) int`: `nw1g_iE`. ABI
/// section 5.1.6.
pub fn expression_new<'s, T: Tree<S>, S: 's, W: DemangleWrite, B: Below<'s, T, S, W>>(
    below: B,
    tree: T,
    scope: Option<&Scope<'_, T>>,
    ctx: &mut Context<'s, '_, T, S, W>,
)
    requires { B.can below }
    ensures { Runs (B.at below) (page T.tree T.table W.seen ctx.old) (page T.tree T.table W.seen ctx.new) (T.tree
        tree) (lent_scope T.tree scope.entry) (line_steps Tag.ExpressionNew) }
{
    ctx.text("new (");
    list(below, tree, 0, scope, ctx);
    ctx.text(") ");
    part(below, tree, 1, scope, ctx);
    part(below, tree, 2, scope, ctx);
}

/// The line of `ExpressionNewArray`: `new int[3]`: `na_A3_iE`. ABI section 5.1.6.
pub fn expression_new_array<'s, T: Tree<S>, S: 's, W: DemangleWrite, B: Below<'s, T, S, W>>(
    below: B,
    tree: T,
    scope: Option<&Scope<'_, T>>,
    ctx: &mut Context<'s, '_, T, S, W>,
)
    requires { B.can below }
    ensures { Runs (B.at below) (page T.tree T.table W.seen ctx.old) (page T.tree T.table W.seen ctx.new) (T.tree
        tree) (lent_scope T.tree scope.entry) (line_steps Tag.ExpressionNewArray) }
{
    ctx.text("new[] (");
    list(below, tree, 0, scope, ctx);
    ctx.text(") ");
    part(below, tree, 1, scope, ctx);
    part(below, tree, 2, scope, ctx);
}

/// The line of `ExpressionGlobalNew`: `::new int`: `gsnw_iE`. ABI section 5.1.6.
pub fn expression_global_new<'s, T: Tree<S>, S: 's, W: DemangleWrite, B: Below<'s, T, S, W>>(
    below: B,
    tree: T,
    scope: Option<&Scope<'_, T>>,
    ctx: &mut Context<'s, '_, T, S, W>,
)
    requires { B.can below }
    ensures { Runs (B.at below) (page T.tree T.table W.seen ctx.old) (page T.tree T.table W.seen ctx.new) (T.tree
        tree) (lent_scope T.tree scope.entry) (line_steps Tag.ExpressionGlobalNew) }
{
    ctx.text("::");
    ctx.text("new (");
    list(below, tree, 0, scope, ctx);
    ctx.text(") ");
    part(below, tree, 1, scope, ctx);
    part(below, tree, 2, scope, ctx);
}

/// The line of `ExpressionGlobalNewArray`: `::new int[3]`: `gsna_A3_iE`. ABI section 5.1.6.
pub fn expression_global_new_array<'s, T: Tree<S>, S: 's, W: DemangleWrite, B: Below<'s, T, S, W>>(
    below: B,
    tree: T,
    scope: Option<&Scope<'_, T>>,
    ctx: &mut Context<'s, '_, T, S, W>,
)
    requires { B.can below }
    ensures { Runs (B.at below) (page T.tree T.table W.seen ctx.old) (page T.tree T.table W.seen ctx.new) (T.tree
        tree) (lent_scope T.tree scope.entry) (line_steps Tag.ExpressionGlobalNewArray) }
{
    ctx.text("::");
    ctx.text("new[] (");
    list(below, tree, 0, scope, ctx);
    ctx.text(") ");
    part(below, tree, 1, scope, ctx);
    part(below, tree, 2, scope, ctx);
}

/// The line of `Initializer`: the arguments in parentheses behind a `new` expression, `(1)`: `piLi1EE`. ABI section
/// 5.1.6.
pub fn initializer<'s, T: Tree<S>, S: 's, W: DemangleWrite, B: Below<'s, T, S, W>>(
    below: B,
    tree: T,
    scope: Option<&Scope<'_, T>>,
    ctx: &mut Context<'s, '_, T, S, W>,
)
    requires { B.can below }
    ensures { Runs (B.at below) (page T.tree T.table W.seen ctx.old) (page T.tree T.table W.seen ctx.new) (T.tree
        tree) (lent_scope T.tree scope.entry) (line_steps Tag.Initializer) }
{
    ctx.text("(");
    list(below, tree, 0, scope, ctx);
    ctx.text(")");
}

/// The line of `ExpressionDelete`: `delete g`: `dl1g`. ABI section 5.1.6.
pub fn expression_delete<'s, T: Tree<S>, S: 's, W: DemangleWrite, B: Below<'s, T, S, W>>(
    below: B,
    tree: T,
    scope: Option<&Scope<'_, T>>,
    ctx: &mut Context<'s, '_, T, S, W>,
)
    requires { B.can below }
    ensures { Runs (B.at below) (page T.tree T.table W.seen ctx.old) (page T.tree T.table W.seen ctx.new) (T.tree
        tree) (lent_scope T.tree scope.entry) (line_steps Tag.ExpressionDelete) }
{
    ctx.text("delete ");
    part(below, tree, 0, scope, ctx);
}

/// The line of `ExpressionDeleteArray`: `delete[] g`: `da1g`. ABI section 5.1.6.
pub fn expression_delete_array<'s, T: Tree<S>, S: 's, W: DemangleWrite, B: Below<'s, T, S, W>>(
    below: B,
    tree: T,
    scope: Option<&Scope<'_, T>>,
    ctx: &mut Context<'s, '_, T, S, W>,
)
    requires { B.can below }
    ensures { Runs (B.at below) (page T.tree T.table W.seen ctx.old) (page T.tree T.table W.seen ctx.new) (T.tree
        tree) (lent_scope T.tree scope.entry) (line_steps Tag.ExpressionDeleteArray) }
{
    ctx.text("delete[] ");
    part(below, tree, 0, scope, ctx);
}

/// The line of `ExpressionGlobalDelete`: `::delete g`: `gsdl1g`. ABI section 5.1.6.
pub fn expression_global_delete<'s, T: Tree<S>, S: 's, W: DemangleWrite, B: Below<'s, T, S, W>>(
    below: B,
    tree: T,
    scope: Option<&Scope<'_, T>>,
    ctx: &mut Context<'s, '_, T, S, W>,
)
    requires { B.can below }
    ensures { Runs (B.at below) (page T.tree T.table W.seen ctx.old) (page T.tree T.table W.seen ctx.new) (T.tree
        tree) (lent_scope T.tree scope.entry) (line_steps Tag.ExpressionGlobalDelete) }
{
    ctx.text("::");
    ctx.text("delete ");
    part(below, tree, 0, scope, ctx);
}

/// The line of `ExpressionGlobalDeleteArray`: `::delete[] g`: `gsda1g`. ABI section 5.1.6.
pub fn expression_global_delete_array<
    's,
    T: Tree<S>,
    S: 's,
    W: DemangleWrite,
    B: Below<'s, T, S, W>,
>(below: B, tree: T, scope: Option<&Scope<'_, T>>, ctx: &mut Context<'s, '_, T, S, W>)
    requires { B.can below }
    ensures { Runs (B.at below) (page T.tree T.table W.seen ctx.old) (page T.tree T.table W.seen ctx.new) (T.tree
        tree) (lent_scope T.tree scope.entry) (line_steps Tag.ExpressionGlobalDeleteArray) }
{
    ctx.text("::");
    ctx.text("delete[] ");
    part(below, tree, 0, scope, ctx);
}

/// The line of `ExpressionTypeidType`: `typeid(T)`: `tiT_`. ABI section 5.1.6.
pub fn expression_typeid_type<'s, T: Tree<S>, S: 's, W: DemangleWrite, B: Below<'s, T, S, W>>(
    below: B,
    tree: T,
    scope: Option<&Scope<'_, T>>,
    ctx: &mut Context<'s, '_, T, S, W>,
)
    requires { B.can below }
    ensures { Runs (B.at below) (page T.tree T.table W.seen ctx.old) (page T.tree T.table W.seen ctx.new) (T.tree
        tree) (lent_scope T.tree scope.entry) (line_steps Tag.ExpressionTypeidType) }
{
    ctx.text("typeid (");
    part(below, tree, 0, scope, ctx);
    ctx.text(")");
}

/// The line of `ExpressionSizeofType`: `sizeof(T)`: `stT_`. ABI section 5.1.6.
pub fn expression_sizeof_type<'s, T: Tree<S>, S: 's, W: DemangleWrite, B: Below<'s, T, S, W>>(
    below: B,
    tree: T,
    scope: Option<&Scope<'_, T>>,
    ctx: &mut Context<'s, '_, T, S, W>,
)
    requires { B.can below }
    ensures { Runs (B.at below) (page T.tree T.table W.seen ctx.old) (page T.tree T.table W.seen ctx.new) (T.tree
        tree) (lent_scope T.tree scope.entry) (line_steps Tag.ExpressionSizeofType) }
{
    ctx.text("sizeof (");
    part(below, tree, 0, scope, ctx);
    ctx.text(")");
}

/// The line of `ExpressionAlignofType`: `alignof(T)`: `atT_`. ABI section 5.1.6.
pub fn expression_alignof_type<'s, T: Tree<S>, S: 's, W: DemangleWrite, B: Below<'s, T, S, W>>(
    below: B,
    tree: T,
    scope: Option<&Scope<'_, T>>,
    ctx: &mut Context<'s, '_, T, S, W>,
)
    requires { B.can below }
    ensures { Runs (B.at below) (page T.tree T.table W.seen ctx.old) (page T.tree T.table W.seen ctx.new) (T.tree
        tree) (lent_scope T.tree scope.entry) (line_steps Tag.ExpressionAlignofType) }
{
    ctx.text("alignof (");
    part(below, tree, 0, scope, ctx);
    ctx.text(")");
}

/// The line of `ExpressionNoexcept`: the operator of this name, `noexcept(g)`: `nx1g`. ABI section 5.1.6.
pub fn expression_noexcept<'s, T: Tree<S>, S: 's, W: DemangleWrite, B: Below<'s, T, S, W>>(
    below: B,
    tree: T,
    scope: Option<&Scope<'_, T>>,
    ctx: &mut Context<'s, '_, T, S, W>,
)
    requires { B.can below }
    ensures { Runs (B.at below) (page T.tree T.table W.seen ctx.old) (page T.tree T.table W.seen ctx.new) (T.tree
        tree) (lent_scope T.tree scope.entry) (line_steps Tag.ExpressionNoexcept) }
{
    ctx.text("noexcept (");
    part(below, tree, 0, scope, ctx);
    ctx.text(")");
}

/// The line of `ExpressionSizeofTemplatePack`: how many arguments a pack of template parameters has, `sizeof...(T)`:
/// `sZT_`. ABI section 5.1.6.
pub fn expression_sizeof_template_pack<
    's,
    T: Tree<S>,
    S: 's,
    W: DemangleWrite,
    B: Below<'s, T, S, W>,
>(below: B, tree: T, scope: Option<&Scope<'_, T>>, ctx: &mut Context<'s, '_, T, S, W>)
    requires { B.can below }
    ensures { Runs (B.at below) (page T.tree T.table W.seen ctx.old) (page T.tree T.table W.seen ctx.new) (T.tree
        tree) (lent_scope T.tree scope.entry) (line_steps Tag.ExpressionSizeofTemplatePack) }
{
    ctx.text("sizeof...(");
    part(below, tree, 0, scope, ctx);
    ctx.text(")");
}

/// The line of `ExpressionSizeofCapturedTemplatePack`: how many arguments a pack has that was handed to an alias
/// template, `sizeof...(int, char)`: `sPicE`. ABI section 5.1.6.
pub fn expression_sizeof_captured_template_pack<
    's,
    T: Tree<S>,
    S: 's,
    W: DemangleWrite,
    B: Below<'s, T, S, W>,
>(below: B, tree: T, scope: Option<&Scope<'_, T>>, ctx: &mut Context<'s, '_, T, S, W>)
    requires { B.can below }
    ensures { Runs (B.at below) (page T.tree T.table W.seen ctx.old) (page T.tree T.table W.seen ctx.new) (T.tree
        tree) (lent_scope T.tree scope.entry) (line_steps Tag.ExpressionSizeofCapturedTemplatePack) }
{
    ctx.text("sizeof...(");
    list(below, tree, 0, scope, ctx);
    ctx.text(")");
}

/// The line of `ExpressionMember`: a member of an object, `g.x`: `dt1g1x`. ABI section 5.1.6.
pub fn expression_member<'s, T: Tree<S>, S: 's, W: DemangleWrite, B: Below<'s, T, S, W>>(
    below: B,
    tree: T,
    scope: Option<&Scope<'_, T>>,
    ctx: &mut Context<'s, '_, T, S, W>,
)
    requires { B.can below }
    ensures { Runs (B.at below) (page T.tree T.table W.seen ctx.old) (page T.tree T.table W.seen ctx.new) (T.tree
        tree) (lent_scope T.tree scope.entry) (line_steps Tag.ExpressionMember) }
{
    operand(below, tree, 0, scope, ctx);
    ctx.text(".");
    part(below, tree, 1, scope, ctx);
}

/// The line of `ExpressionDerefMember`: a member behind a pointer, `g->x`: `pt1g1x`. ABI section 5.1.6.
pub fn expression_deref_member<'s, T: Tree<S>, S: 's, W: DemangleWrite, B: Below<'s, T, S, W>>(
    below: B,
    tree: T,
    scope: Option<&Scope<'_, T>>,
    ctx: &mut Context<'s, '_, T, S, W>,
)
    requires { B.can below }
    ensures { Runs (B.at below) (page T.tree T.table W.seen ctx.old) (page T.tree T.table W.seen ctx.new) (T.tree
        tree) (lent_scope T.tree scope.entry) (line_steps Tag.ExpressionDerefMember) }
{
    part(below, tree, 0, scope, ctx);
    ctx.text("->");
    part(below, tree, 1, scope, ctx);
}

/// The line of `ExpressionPointerToMember`: the member of an object that a pointer to a member selects, `g.*h`:
/// `ds1g1h`. ABI section 5.1.6.
pub fn expression_pointer_to_member<'s, T: Tree<S>, S: 's, W: DemangleWrite, B: Below<'s, T, S, W>>(
    below: B,
    tree: T,
    scope: Option<&Scope<'_, T>>,
    ctx: &mut Context<'s, '_, T, S, W>,
)
    requires { B.can below }
    ensures { Runs (B.at below) (page T.tree T.table W.seen ctx.old) (page T.tree T.table W.seen ctx.new) (T.tree
        tree) (lent_scope T.tree scope.entry) (line_steps Tag.ExpressionPointerToMember) }
{
    part(below, tree, 0, scope, ctx);
    ctx.text(".*");
    part(below, tree, 1, scope, ctx);
}

/// The line of `MemberName`: the name of a member in a member access, `x` of `g.x`: `1x`. ABI section 5.1.6.
pub fn member_name<'s, T: Tree<S>, S: 's, W: DemangleWrite, B: Below<'s, T, S, W>>(
    below: B,
    tree: T,
    scope: Option<&Scope<'_, T>>,
    ctx: &mut Context<'s, '_, T, S, W>,
)
    requires { B.can below }
    ensures { Runs (B.at below) (page T.tree T.table W.seen ctx.old) (page T.tree T.table W.seen ctx.new) (T.tree
        tree) (lent_scope T.tree scope.entry) (line_steps Tag.MemberName) }
{
    choice_4(below, tree, scope, ctx);
}
