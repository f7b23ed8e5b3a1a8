//! Lines of types.

ghost use Rattle.demangle_core.specs.Core.{Tag};
ghost use Rattle.demangle_printing.specs.Lines.{line_steps};
ghost use Rattle.demangle_context.specs.PageOf.{page};
ghost use Rattle.demangle_lines.specs.Does.{Runs};
ghost use Rattle.demangle_lines.specs.ScopeOf.{lent_scope};

use crate::choices::{choice_1, choice_2, choice_3, choice_4};
use demangle_context::{Context, DemangleNodeType, DemangleWrite};
use demangle_lines::{Below, Scope, Tree, close, hold, part, part_at, spelled};

/// The line of `ParametricBuiltinTypeFloatN`: `_Float64`: `DF64_`. ABI section 5.1.5.2.
pub fn parametric_builtin_type_float_n<
    's,
    T: Tree<S>,
    S: 's,
    W: DemangleWrite,
    B: Below<'s, T, S, W>,
>(below: B, tree: T, scope: Option<&Scope<'_, T>>, ctx: &mut Context<'s, '_, T, S, W>)
    requires { B.can below }
    ensures { Runs (B.at below) (page T.tree T.table W.seen ctx.old) (page T.tree T.table W.seen ctx.new) (T.tree
        tree) (lent_scope T.tree scope.entry) (line_steps Tag.ParametricBuiltinTypeFloatN) }
{
    ctx.text("_Float");
    spelled(below, tree, 0, ctx);
}

/// The line of `ParametricBuiltinTypeFloatNx`: `_Float64x`: `DF64x`. ABI section 5.1.5.2.
pub fn parametric_builtin_type_float_nx<
    's,
    T: Tree<S>,
    S: 's,
    W: DemangleWrite,
    B: Below<'s, T, S, W>,
>(below: B, tree: T, scope: Option<&Scope<'_, T>>, ctx: &mut Context<'s, '_, T, S, W>)
    requires { B.can below }
    ensures { Runs (B.at below) (page T.tree T.table W.seen ctx.old) (page T.tree T.table W.seen ctx.new) (T.tree
        tree) (lent_scope T.tree scope.entry) (line_steps Tag.ParametricBuiltinTypeFloatNx) }
{
    ctx.text("_Float");
    spelled(below, tree, 0, ctx);
    ctx.text("x");
}

/// The line of `ParametricBuiltinTypeSignedBitInt`: `signed _BitInt(9)`: `DB9_`. ABI section 5.1.5.2.
pub fn parametric_builtin_type_signed_bit_int<
    's,
    T: Tree<S>,
    S: 's,
    W: DemangleWrite,
    B: Below<'s, T, S, W>,
>(below: B, tree: T, scope: Option<&Scope<'_, T>>, ctx: &mut Context<'s, '_, T, S, W>)
    requires { B.can below }
    ensures { Runs (B.at below) (page T.tree T.table W.seen ctx.old) (page T.tree T.table W.seen ctx.new) (T.tree
        tree) (lent_scope T.tree scope.entry) (line_steps Tag.ParametricBuiltinTypeSignedBitInt) }
{
    ctx.text("signed _BitInt(");
    spelled(below, tree, 0, ctx);
    ctx.text(")");
}

/// The line of `ParametricBuiltinTypeUnsignedBitInt`: `unsigned _BitInt(9)`: `DU9_`. ABI section 5.1.5.2.
pub fn parametric_builtin_type_unsigned_bit_int<
    's,
    T: Tree<S>,
    S: 's,
    W: DemangleWrite,
    B: Below<'s, T, S, W>,
>(below: B, tree: T, scope: Option<&Scope<'_, T>>, ctx: &mut Context<'s, '_, T, S, W>)
    requires { B.can below }
    ensures { Runs (B.at below) (page T.tree T.table W.seen ctx.old) (page T.tree T.table W.seen ctx.new) (T.tree
        tree) (lent_scope T.tree scope.entry) (line_steps Tag.ParametricBuiltinTypeUnsignedBitInt) }
{
    ctx.text("unsigned _BitInt(");
    spelled(below, tree, 0, ctx);
    ctx.text(")");
}

/// The line of `ParametricBuiltinTypeSignedBitIntExpression`: `signed _BitInt(N)`, of a template parameter: `DBT__`.
/// ABI section 5.1.5.2.
pub fn parametric_builtin_type_signed_bit_int_expression<
    's,
    T: Tree<S>,
    S: 's,
    W: DemangleWrite,
    B: Below<'s, T, S, W>,
>(below: B, tree: T, scope: Option<&Scope<'_, T>>, ctx: &mut Context<'s, '_, T, S, W>)
    requires { B.can below }
    ensures { Runs (B.at below) (page T.tree T.table W.seen ctx.old) (page T.tree T.table W.seen ctx.new) (T.tree
        tree) (lent_scope T.tree scope.entry) (line_steps Tag.ParametricBuiltinTypeSignedBitIntExpression) }
{
    ctx.text("signed _BitInt(");
    part(below, tree, 0, scope, ctx);
    ctx.text(")");
}

/// The line of `ParametricBuiltinTypeUnsignedBitIntExpression`: `unsigned _BitInt(N)`, of a template parameter:
/// `DUT__`. ABI section 5.1.5.2.
pub fn parametric_builtin_type_unsigned_bit_int_expression<
    's,
    T: Tree<S>,
    S: 's,
    W: DemangleWrite,
    B: Below<'s, T, S, W>,
>(below: B, tree: T, scope: Option<&Scope<'_, T>>, ctx: &mut Context<'s, '_, T, S, W>)
    requires { B.can below }
    ensures { Runs (B.at below) (page T.tree T.table W.seen ctx.old) (page T.tree T.table W.seen ctx.new) (T.tree
        tree) (lent_scope T.tree scope.entry) (line_steps Tag.ParametricBuiltinTypeUnsignedBitIntExpression) }
{
    ctx.text("unsigned _BitInt(");
    part(below, tree, 0, scope, ctx);
    ctx.text(")");
}

/// The line of `QualifiedBuiltin`: a builtin type under qualifiers.
pub fn qualified_builtin<'s, T: Tree<S>, S: 's, W: DemangleWrite, B: Below<'s, T, S, W>>(
    below: B,
    tree: T,
    scope: Option<&Scope<'_, T>>,
    ctx: &mut Context<'s, '_, T, S, W>,
)
    requires { B.can below }
    ensures { Runs (B.at below) (page T.tree T.table W.seen ctx.old) (page T.tree T.table W.seen ctx.new) (T.tree
        tree) (lent_scope T.tree scope.entry) (line_steps Tag.QualifiedBuiltin) }
{
    match part_at(below, tree, 0) {
        None => {
            part(below, tree, 1, scope, ctx);
        }
        Some(item) => {
            hold(below, item, ctx);
            part(below, tree, 1, scope, ctx);
            close(below, item, scope, ctx);
        }
    }
}

/// The line of `CvQualifiers`: `restrict`, `volatile` and `const`: `rVK`. ABI section 5.1.5.1.
pub fn cv_qualifiers<'s, T: Tree<S>, S: 's, W: DemangleWrite, B: Below<'s, T, S, W>>(
    below: B,
    tree: T,
    scope: Option<&Scope<'_, T>>,
    ctx: &mut Context<'s, '_, T, S, W>,
)
    requires { B.can below }
    ensures { Runs (B.at below) (page T.tree T.table W.seen ctx.old) (page T.tree T.table W.seen ctx.new) (T.tree
        tree) (lent_scope T.tree scope.entry) (line_steps Tag.CvQualifiers) }
{
    choice_1(below, tree, scope, ctx);
    choice_2(below, tree, scope, ctx);
    choice_3(below, tree, scope, ctx);
}

/// The line of `TypeNodeQualified`: `const int`: `Ki`. ABI section 5.1.5.
pub fn type_node_qualified<'s, T: Tree<S>, S: 's, W: DemangleWrite, B: Below<'s, T, S, W>>(
    below: B,
    tree: T,
    scope: Option<&Scope<'_, T>>,
    ctx: &mut Context<'s, '_, T, S, W>,
)
    requires { B.can below }
    ensures { Runs (B.at below) (page T.tree T.table W.seen ctx.old) (page T.tree T.table W.seen ctx.new) (T.tree
        tree) (lent_scope T.tree scope.entry) (line_steps Tag.TypeNodeQualified) }
{
    hold(below, tree, ctx);
    part(below, tree, 1, scope, ctx);
    close(below, tree, scope, ctx);
}

/// The line of `TypeNodePointerTo`: `int*`: `Pi`. ABI section 5.1.5.
pub fn type_node_pointer_to<'s, T: Tree<S>, S: 's, W: DemangleWrite, B: Below<'s, T, S, W>>(
    below: B,
    tree: T,
    scope: Option<&Scope<'_, T>>,
    ctx: &mut Context<'s, '_, T, S, W>,
)
    requires { B.can below }
    ensures { Runs (B.at below) (page T.tree T.table W.seen ctx.old) (page T.tree T.table W.seen ctx.new) (T.tree
        tree) (lent_scope T.tree scope.entry) (line_steps Tag.TypeNodePointerTo) }
{
    hold(below, tree, ctx);
    part(below, tree, 0, scope, ctx);
    close(below, tree, scope, ctx);
}

/// The line of `TypeNodeTemplateTemplate`: a template parameter with arguments, `T<int>`: `T_IiE`. ABI section 5.1.5.
pub fn type_node_template_template<'s, T: Tree<S>, S: 's, W: DemangleWrite, B: Below<'s, T, S, W>>(
    below: B,
    tree: T,
    scope: Option<&Scope<'_, T>>,
    ctx: &mut Context<'s, '_, T, S, W>,
)
    requires { B.can below }
    ensures { Runs (B.at below) (page T.tree T.table W.seen ctx.old) (page T.tree T.table W.seen ctx.new) (T.tree
        tree) (lent_scope T.tree scope.entry) (line_steps Tag.TypeNodeTemplateTemplate) }
{
    part(below, tree, 0, scope, ctx);
    part(below, tree, 1, scope, ctx);
}

/// The line of `TypeNodeVendorExtension`: a type with a compiler's own qualifier, `char AS1`: `U3AS1c`. ABI section
/// 5.1.5.
pub fn type_node_vendor_extension<'s, T: Tree<S>, S: 's, W: DemangleWrite, B: Below<'s, T, S, W>>(
    below: B,
    tree: T,
    scope: Option<&Scope<'_, T>>,
    ctx: &mut Context<'s, '_, T, S, W>,
)
    requires { B.can below }
    ensures { Runs (B.at below) (page T.tree T.table W.seen ctx.old) (page T.tree T.table W.seen ctx.new) (T.tree
        tree) (lent_scope T.tree scope.entry) (line_steps Tag.TypeNodeVendorExtension) }
{
    part(below, tree, 2, scope, ctx);
    ctx.text(" ");
    part(below, tree, 0, scope, ctx);
    part(below, tree, 1, scope, ctx);
}

/// The line of `TypeNodeComplex`: a complex number in C, `float _Complex`: `Cf`. ABI section 5.1.5.
pub fn type_node_complex<'s, T: Tree<S>, S: 's, W: DemangleWrite, B: Below<'s, T, S, W>>(
    below: B,
    tree: T,
    scope: Option<&Scope<'_, T>>,
    ctx: &mut Context<'s, '_, T, S, W>,
)
    requires { B.can below }
    ensures { Runs (B.at below) (page T.tree T.table W.seen ctx.old) (page T.tree T.table W.seen ctx.new) (T.tree
        tree) (lent_scope T.tree scope.entry) (line_steps Tag.TypeNodeComplex) }
{
    part(below, tree, 0, scope, ctx);
    ctx.text(" complex");
}

/// The line of `TypeNodeImaginary`: an imaginary number in C, `float _Imaginary`: `Gf`. ABI section 5.1.5.
pub fn type_node_imaginary<'s, T: Tree<S>, S: 's, W: DemangleWrite, B: Below<'s, T, S, W>>(
    below: B,
    tree: T,
    scope: Option<&Scope<'_, T>>,
    ctx: &mut Context<'s, '_, T, S, W>,
)
    requires { B.can below }
    ensures { Runs (B.at below) (page T.tree T.table W.seen ctx.old) (page T.tree T.table W.seen ctx.new) (T.tree
        tree) (lent_scope T.tree scope.entry) (line_steps Tag.TypeNodeImaginary) }
{
    part(below, tree, 0, scope, ctx);
    ctx.text(" imaginary");
}

/// The line of `TypeNodePackExpansion`: a pattern that is repeated for each element of a pack, `T...`: `DpT_`. ABI
/// section 5.1.5.
pub fn type_node_pack_expansion<'s, T: Tree<S>, S: 's, W: DemangleWrite, B: Below<'s, T, S, W>>(
    below: B,
    tree: T,
    scope: Option<&Scope<'_, T>>,
    ctx: &mut Context<'s, '_, T, S, W>,
)
    requires { B.can below }
    ensures { Runs (B.at below) (page T.tree T.table W.seen ctx.old) (page T.tree T.table W.seen ctx.new) (T.tree
        tree) (lent_scope T.tree scope.entry) (line_steps Tag.TypeNodePackExpansion) }
{
    part(below, tree, 0, scope, ctx);
    choice_4(below, tree, scope, ctx);
}

/// The line of `ClassEnumTypeElaboratedStruct`: `struct A`, or `class A`: `Ts1A`. ABI section 5.1.5.4.
pub fn class_enum_type_elaborated_struct<
    's,
    T: Tree<S>,
    S: 's,
    W: DemangleWrite,
    B: Below<'s, T, S, W>,
>(below: B, tree: T, scope: Option<&Scope<'_, T>>, ctx: &mut Context<'s, '_, T, S, W>)
    requires { B.can below }
    ensures { Runs (B.at below) (page T.tree T.table W.seen ctx.old) (page T.tree T.table W.seen ctx.new) (T.tree
        tree) (lent_scope T.tree scope.entry) (line_steps Tag.ClassEnumTypeElaboratedStruct) }
{
    ctx.text("class ");
    part(below, tree, 0, scope, ctx);
}

/// The line of `ClassEnumTypeElaboratedUnion`: `union A`: `Tu1A`. ABI section 5.1.5.4.
pub fn class_enum_type_elaborated_union<
    's,
    T: Tree<S>,
    S: 's,
    W: DemangleWrite,
    B: Below<'s, T, S, W>,
>(below: B, tree: T, scope: Option<&Scope<'_, T>>, ctx: &mut Context<'s, '_, T, S, W>)
    requires { B.can below }
    ensures { Runs (B.at below) (page T.tree T.table W.seen ctx.old) (page T.tree T.table W.seen ctx.new) (T.tree
        tree) (lent_scope T.tree scope.entry) (line_steps Tag.ClassEnumTypeElaboratedUnion) }
{
    ctx.text("union ");
    part(below, tree, 0, scope, ctx);
}

/// The line of `ClassEnumTypeElaboratedEnum`: `enum A`: `Te1A`. ABI section 5.1.5.4.
pub fn class_enum_type_elaborated_enum<
    's,
    T: Tree<S>,
    S: 's,
    W: DemangleWrite,
    B: Below<'s, T, S, W>,
>(below: B, tree: T, scope: Option<&Scope<'_, T>>, ctx: &mut Context<'s, '_, T, S, W>)
    requires { B.can below }
    ensures { Runs (B.at below) (page T.tree T.table W.seen ctx.old) (page T.tree T.table W.seen ctx.new) (T.tree
        tree) (lent_scope T.tree scope.entry) (line_steps Tag.ClassEnumTypeElaboratedEnum) }
{
    ctx.text("enum ");
    part(below, tree, 0, scope, ctx);
}

/// The line of `DecltypeIdExpression`: of a name or a member access: the type that it was declared with,
/// `decltype(g)`: `Dt1gE`. ABI section 5.1.5.
pub fn decltype_id_expression<'s, T: Tree<S>, S: 's, W: DemangleWrite, B: Below<'s, T, S, W>>(
    below: B,
    tree: T,
    scope: Option<&Scope<'_, T>>,
    ctx: &mut Context<'s, '_, T, S, W>,
)
    requires { B.can below }
    ensures { Runs (B.at below) (page T.tree T.table W.seen ctx.old) (page T.tree T.table W.seen ctx.new) (T.tree
        tree) (lent_scope T.tree scope.entry) (line_steps Tag.DecltypeIdExpression) }
{
    let told = ctx.begin_node(DemangleNodeType::Decltype);
    ctx.text("decltype (");
    part(below, tree, 0, scope, ctx);
    ctx.text(")");
    ctx.end_node(told);
}
