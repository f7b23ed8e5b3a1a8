//! Lines of what of inner items stands behind what is printed before it.

ghost use Rattle.demangle_core.specs.Core.{Tag};
ghost use Rattle.demangle_printing.specs.Lines.{inside_steps};
ghost use Rattle.demangle_context.specs.PageOf.{page};
ghost use Rattle.demangle_lines.specs.Does.{Runs};
ghost use Rattle.demangle_lines.specs.ScopeOf.{lent_scope};

use crate::arrays::before_bounds;
use crate::choices::{choice_1, choice_2, choice_3};
use crate::parameters::parameters_behind;
use crate::references::joined;
use demangle_context::{Context, DemangleWrite};
use demangle_lines::{Below, Scope, Tree, part, spelled};

/// What stands behind `TypeNodePointerTo`: `int*`: `Pi`. ABI section 5.1.5.
pub fn type_node_pointer_to_inside<'s, T: Tree<S>, S: 's, W: DemangleWrite, B: Below<'s, T, S, W>>(
    below: B,
    tree: T,
    scope: Option<&Scope<'_, T>>,
    ctx: &mut Context<'s, '_, T, S, W>,
)
    requires { B.can below }
    ensures { Runs (B.at below) (page T.tree T.table W.seen ctx.old) (page T.tree T.table W.seen ctx.new) (T.tree
        tree) (lent_scope T.tree scope.entry) (inside_steps Tag.TypeNodePointerTo) }
{
    ctx.text("*");
}

/// What stands behind `TypeNodeLvalueRef`: `int&`: `Ri`. ABI section 5.1.5.
pub fn type_node_lvalue_ref_inside<'s, T: Tree<S>, S: 's, W: DemangleWrite, B: Below<'s, T, S, W>>(
    below: B,
    tree: T,
    scope: Option<&Scope<'_, T>>,
    ctx: &mut Context<'s, '_, T, S, W>,
)
    requires { B.can below }
    ensures { Runs (B.at below) (page T.tree T.table W.seen ctx.old) (page T.tree T.table W.seen ctx.new) (T.tree
        tree) (lent_scope T.tree scope.entry) (inside_steps Tag.TypeNodeLvalueRef) }
{
    joined(below, "&", ctx);
}

/// What stands behind `TypeNodeRvalueRef`: `int&&`: `Oi`. ABI section 5.1.5.
pub fn type_node_rvalue_ref_inside<'s, T: Tree<S>, S: 's, W: DemangleWrite, B: Below<'s, T, S, W>>(
    below: B,
    tree: T,
    scope: Option<&Scope<'_, T>>,
    ctx: &mut Context<'s, '_, T, S, W>,
)
    requires { B.can below }
    ensures { Runs (B.at below) (page T.tree T.table W.seen ctx.old) (page T.tree T.table W.seen ctx.new) (T.tree
        tree) (lent_scope T.tree scope.entry) (inside_steps Tag.TypeNodeRvalueRef) }
{
    joined(below, "&&", ctx);
}

/// What stands behind `BareFunctionType`: the types of a signature, the first of them the result where one is
/// written, `int (char)`: `ic`. ABI section 5.1.5.3.
pub fn bare_function_type_inside<'s, T: Tree<S>, S: 's, W: DemangleWrite, B: Below<'s, T, S, W>>(
    below: B,
    tree: T,
    scope: Option<&Scope<'_, T>>,
    ctx: &mut Context<'s, '_, T, S, W>,
)
    requires { B.can below }
    ensures { Runs (B.at below) (page T.tree T.table W.seen ctx.old) (page T.tree T.table W.seen ctx.new) (T.tree
        tree) (lent_scope T.tree scope.entry) (inside_steps Tag.BareFunctionType) }
{
    parameters_behind(below, tree, 0, 1, scope, ctx);
}

/// What stands behind `FunctionType`: the type of a function, `int (char)`: `FicE`. ABI section 5.1.5.3.
pub fn function_type_inside<'s, T: Tree<S>, S: 's, W: DemangleWrite, B: Below<'s, T, S, W>>(
    below: B,
    tree: T,
    scope: Option<&Scope<'_, T>>,
    ctx: &mut Context<'s, '_, T, S, W>,
)
    requires { B.can below }
    ensures { Runs (B.at below) (page T.tree T.table W.seen ctx.old) (page T.tree T.table W.seen ctx.new) (T.tree
        tree) (lent_scope T.tree scope.entry) (inside_steps Tag.FunctionType) }
{
    choice_1(below, tree, scope, ctx);
    choice_2(below, tree, scope, ctx);
}

/// What stands behind `ArrayTypeDimensionNumber`: `int [3]`: `A3_i`. ABI section 5.1.5.5.
pub fn array_type_dimension_number_inside<
    's,
    T: Tree<S>,
    S: 's,
    W: DemangleWrite,
    B: Below<'s, T, S, W>,
>(below: B, tree: T, scope: Option<&Scope<'_, T>>, ctx: &mut Context<'s, '_, T, S, W>)
    requires { B.can below }
    ensures { Runs (B.at below) (page T.tree T.table W.seen ctx.old) (page T.tree T.table W.seen ctx.new) (T.tree
        tree) (lent_scope T.tree scope.entry) (inside_steps Tag.ArrayTypeDimensionNumber) }
{
    before_bounds(below, scope, ctx);
    ctx.text("[");
    spelled(below, tree, 0, ctx);
    ctx.text("]");
}

/// What stands behind `ArrayTypeDimensionExpression`: a length that depends on template arguments, `int [T]`:
/// `AT__i`. ABI section 5.1.5.5.
pub fn array_type_dimension_expression_inside<
    's,
    T: Tree<S>,
    S: 's,
    W: DemangleWrite,
    B: Below<'s, T, S, W>,
>(below: B, tree: T, scope: Option<&Scope<'_, T>>, ctx: &mut Context<'s, '_, T, S, W>)
    requires { B.can below }
    ensures { Runs (B.at below) (page T.tree T.table W.seen ctx.old) (page T.tree T.table W.seen ctx.new) (T.tree
        tree) (lent_scope T.tree scope.entry) (inside_steps Tag.ArrayTypeDimensionExpression) }
{
    before_bounds(below, scope, ctx);
    ctx.text("[");
    part(below, tree, 0, scope, ctx);
    ctx.text("]");
}

/// What stands behind `ArrayTypeNoDimension`: `int []`: `A_i`. ABI section 5.1.5.5.
pub fn array_type_no_dimension_inside<
    's,
    T: Tree<S>,
    S: 's,
    W: DemangleWrite,
    B: Below<'s, T, S, W>,
>(below: B, tree: T, scope: Option<&Scope<'_, T>>, ctx: &mut Context<'s, '_, T, S, W>)
    requires { B.can below }
    ensures { Runs (B.at below) (page T.tree T.table W.seen ctx.old) (page T.tree T.table W.seen ctx.new) (T.tree
        tree) (lent_scope T.tree scope.entry) (inside_steps Tag.ArrayTypeNoDimension) }
{
    before_bounds(below, scope, ctx);
    ctx.text("[");
    ctx.text("]");
}

/// What stands behind `VectorTypeDimensionNumber`: `float __vector(4)`: `Dv4_f`. ABI section 5.1.5.
pub fn vector_type_dimension_number_inside<
    's,
    T: Tree<S>,
    S: 's,
    W: DemangleWrite,
    B: Below<'s, T, S, W>,
>(below: B, tree: T, scope: Option<&Scope<'_, T>>, ctx: &mut Context<'s, '_, T, S, W>)
    requires { B.can below }
    ensures { Runs (B.at below) (page T.tree T.table W.seen ctx.old) (page T.tree T.table W.seen ctx.new) (T.tree
        tree) (lent_scope T.tree scope.entry) (inside_steps Tag.VectorTypeDimensionNumber) }
{
    ctx.text(" __vector(");
    spelled(below, tree, 0, ctx);
    ctx.text(")");
}

/// What stands behind `VectorTypeDimensionExpression`: a length that depends on template arguments, `float
/// __vector(T)`: `DvT__f`. ABI section 5.1.5.
pub fn vector_type_dimension_expression_inside<
    's,
    T: Tree<S>,
    S: 's,
    W: DemangleWrite,
    B: Below<'s, T, S, W>,
>(below: B, tree: T, scope: Option<&Scope<'_, T>>, ctx: &mut Context<'s, '_, T, S, W>)
    requires { B.can below }
    ensures { Runs (B.at below) (page T.tree T.table W.seen ctx.old) (page T.tree T.table W.seen ctx.new) (T.tree
        tree) (lent_scope T.tree scope.entry) (inside_steps Tag.VectorTypeDimensionExpression) }
{
    ctx.text(" __vector(");
    part(below, tree, 0, scope, ctx);
    ctx.text(")");
}

/// What stands behind `PointerToMemberType`: a pointer to a member: the class, and the type of the member, `int
/// A::*`: `M1Ai`. ABI section 5.1.5.6.
pub fn pointer_to_member_type_inside<
    's,
    T: Tree<S>,
    S: 's,
    W: DemangleWrite,
    B: Below<'s, T, S, W>,
>(below: B, tree: T, scope: Option<&Scope<'_, T>>, ctx: &mut Context<'s, '_, T, S, W>)
    requires { B.can below }
    ensures { Runs (B.at below) (page T.tree T.table W.seen ctx.old) (page T.tree T.table W.seen ctx.new) (T.tree
        tree) (lent_scope T.tree scope.entry) (inside_steps Tag.PointerToMemberType) }
{
    choice_3(below, tree, scope, ctx);
    part(below, tree, 0, scope, ctx);
    ctx.text("::*");
}
