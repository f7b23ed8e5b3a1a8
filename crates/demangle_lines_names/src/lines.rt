//! Lines of names.

ghost use Rattle.demangle_core.specs.Core.{Tag};
ghost use Rattle.demangle_printing.specs.Lines.{line_steps};
ghost use Rattle.demangle_context.specs.PageOf.{page};
ghost use Rattle.demangle_lines.specs.Does.{Runs};
ghost use Rattle.demangle_lines.specs.ScopeOf.{lent_scope};

use crate::choices::{
    choice_1, choice_2, choice_3, choice_4, choice_5, choice_6, choice_7, choice_9, choice_11,
    choice_13, choice_14, choice_15, each_1, each_2,
};
use demangle_context::{Context, DemangleNodeType, DemangleWrite, PrintFlag};
use demangle_lines::{
    Below, Scope, Tree, inner_ordinal, leaf, list, name_part, need_leaf, part_at, spelled, suffix,
    taken, with_these, with_type_arguments,
};

/// The line of `MangledNameEncoding`: a function, a variable or what the compiler makes of one, `f()`: `_Z1fv`; its
/// copy, `f() [clone .cold]`: `_Z1fv.cold`. ABI section 5.1.2.
pub fn mangled_name_encoding<'s, T: Tree<S>, S: 's, W: DemangleWrite, B: Below<'s, T, S, W>>(
    below: B,
    tree: T,
    scope: Option<&Scope<'_, T>>,
    ctx: &mut Context<'s, '_, T, S, W>,
)
    requires { B.can below }
    ensures { Runs (B.at below) (page T.tree T.table W.seen ctx.old) (page T.tree T.table W.seen ctx.new) (T.tree
        tree) (lent_scope T.tree scope.entry) (line_steps Tag.MangledNameEncoding) }
{
    name_part(below, tree, 0, scope, ctx);
    choice_1(below, tree, scope, ctx);
}

/// The line of `MangledNameBlockInvoke`: the function that one of Apple's blocks is compiled to, that of the block in
/// `f()`: `___Z1fv_block_invoke`. ABI section 5.1.2.
pub fn mangled_name_block_invoke<'s, T: Tree<S>, S: 's, W: DemangleWrite, B: Below<'s, T, S, W>>(
    below: B,
    tree: T,
    scope: Option<&Scope<'_, T>>,
    ctx: &mut Context<'s, '_, T, S, W>,
)
    requires { B.can below }
    ensures { Runs (B.at below) (page T.tree T.table W.seen ctx.old) (page T.tree T.table W.seen ctx.new) (T.tree
        tree) (lent_scope T.tree scope.entry) (line_steps Tag.MangledNameBlockInvoke) }
{
    ctx.text("invocation function for block in ");
    name_part(below, tree, 0, scope, ctx);
}

/// The line of `CloneSuffix`: what a compiler appends to the name of a copy of a function: a word and numbers, `
/// [clone .part.0]`: `.part.0`.
pub fn clone_suffix<'s, T: Tree<S>, S: 's, W: DemangleWrite, B: Below<'s, T, S, W>>(
    below: B,
    tree: T,
    scope: Option<&Scope<'_, T>>,
    ctx: &mut Context<'s, '_, T, S, W>,
)
    requires { B.can below }
    ensures { Runs (B.at below) (page T.tree T.table W.seen ctx.old) (page T.tree T.table W.seen ctx.new) (T.tree
        tree) (lent_scope T.tree scope.entry) (line_steps Tag.CloneSuffix) }
{
    ctx.text(" [clone");
    name_part(below, tree, 0, scope, ctx);
    each_2(below, part_at(below, tree, 1), scope, ctx);
    ctx.text("]");
}

/// The line of `CloneTypeIdentifier`: the place of the word after the first `.` of a clone suffix, as compilers
/// append it: `cold` of `_Z1fv.cold`.
pub fn clone_type_identifier<'s, T: Tree<S>, S: 's, W: DemangleWrite, B: Below<'s, T, S, W>>(
    below: B,
    tree: T,
    scope: Option<&Scope<'_, T>>,
    ctx: &mut Context<'s, '_, T, S, W>,
)
    requires { B.can below }
    ensures { Runs (B.at below) (page T.tree T.table W.seen ctx.old) (page T.tree T.table W.seen ctx.new) (T.tree
        tree) (lent_scope T.tree scope.entry) (line_steps Tag.CloneTypeIdentifier) }
{
    suffix(below, tree, 0, ctx);
}

/// The line of `GlobalCtorDtorCtor`: `global constructors keyed to f()`: `_I__Z1fv`.
pub fn global_ctor_dtor_ctor<'s, T: Tree<S>, S: 's, W: DemangleWrite, B: Below<'s, T, S, W>>(
    below: B,
    tree: T,
    scope: Option<&Scope<'_, T>>,
    ctx: &mut Context<'s, '_, T, S, W>,
)
    requires { B.can below }
    ensures { Runs (B.at below) (page T.tree T.table W.seen ctx.old) (page T.tree T.table W.seen ctx.new) (T.tree
        tree) (lent_scope T.tree scope.entry) (line_steps Tag.GlobalCtorDtorCtor) }
{
    let items = ctx.fence();
    let before = ctx.is_on(PrintFlag::Params);
    ctx.turn(PrintFlag::Params, true);
    ctx.text("global constructors keyed to ");
    name_part(below, tree, 0, scope, ctx);
    ctx.turn(PrintFlag::Params, before);
    ctx.unfence(items);
}

/// The line of `GlobalCtorDtorDtor`: `global destructors keyed to f()`: `_D__Z1fv`.
pub fn global_ctor_dtor_dtor<'s, T: Tree<S>, S: 's, W: DemangleWrite, B: Below<'s, T, S, W>>(
    below: B,
    tree: T,
    scope: Option<&Scope<'_, T>>,
    ctx: &mut Context<'s, '_, T, S, W>,
)
    requires { B.can below }
    ensures { Runs (B.at below) (page T.tree T.table W.seen ctx.old) (page T.tree T.table W.seen ctx.new) (T.tree
        tree) (lent_scope T.tree scope.entry) (line_steps Tag.GlobalCtorDtorDtor) }
{
    let items = ctx.fence();
    let before = ctx.is_on(PrintFlag::Params);
    ctx.turn(PrintFlag::Params, true);
    ctx.text("global destructors keyed to ");
    name_part(below, tree, 0, scope, ctx);
    ctx.turn(PrintFlag::Params, before);
    ctx.unfence(items);
}

/// The line of `NameUnscopedTemplate`: `f<int>`: `1fIiE`. ABI section 5.1.2.
pub fn name_unscoped_template<'s, T: Tree<S>, S: 's, W: DemangleWrite, B: Below<'s, T, S, W>>(
    below: B,
    tree: T,
    scope: Option<&Scope<'_, T>>,
    ctx: &mut Context<'s, '_, T, S, W>,
)
    requires { B.can below }
    ensures { Runs (B.at below) (page T.tree T.table W.seen ctx.old) (page T.tree T.table W.seen ctx.new) (T.tree
        tree) (lent_scope T.tree scope.entry) (line_steps Tag.NameUnscopedTemplate) }
{
    let inner = with_these(below, tree, 1, scope);
    name_part(below, tree, 0, Some(&inner), ctx);
    name_part(below, tree, 1, scope, ctx);
}

/// The line of `UnscopedNameStd`: `std::foo`: `St3foo`. ABI section 5.1.2.
pub fn unscoped_name_std<'s, T: Tree<S>, S: 's, W: DemangleWrite, B: Below<'s, T, S, W>>(
    below: B,
    tree: T,
    scope: Option<&Scope<'_, T>>,
    ctx: &mut Context<'s, '_, T, S, W>,
)
    requires { B.can below }
    ensures { Runs (B.at below) (page T.tree T.table W.seen ctx.old) (page T.tree T.table W.seen ctx.new) (T.tree
        tree) (lent_scope T.tree scope.entry) (line_steps Tag.UnscopedNameStd) }
{
    ctx.text("std::");
    name_part(below, tree, 0, scope, ctx);
}

/// The line of `NestedNameUnqualified`: `A::f`: `N1A1fE`; of a member function that is `const`: `NK1A1fE`. ABI
/// section 5.1.2.
pub fn nested_name_unqualified<'s, T: Tree<S>, S: 's, W: DemangleWrite, B: Below<'s, T, S, W>>(
    below: B,
    tree: T,
    scope: Option<&Scope<'_, T>>,
    ctx: &mut Context<'s, '_, T, S, W>,
)
    requires { B.can below }
    ensures { Runs (B.at below) (page T.tree T.table W.seen ctx.old) (page T.tree T.table W.seen ctx.new) (T.tree
        tree) (lent_scope T.tree scope.entry) (line_steps Tag.NestedNameUnqualified) }
{
    let items = ctx.fence();
    let told = ctx.begin_node(DemangleNodeType::NestedName);
    choice_2(below, tree, scope, ctx);
    name_part(below, tree, 3, scope, ctx);
    ctx.end_node(told);
    ctx.unfence(items);
    taken(below, scope, ctx);
    choice_3(below, tree, scope, ctx);
    choice_4(below, tree, scope, ctx);
}

/// The line of `NestedNameTemplate`: `A::f<int>`: `N1A1fIiEE`. ABI section 5.1.2.
pub fn nested_name_template<'s, T: Tree<S>, S: 's, W: DemangleWrite, B: Below<'s, T, S, W>>(
    below: B,
    tree: T,
    scope: Option<&Scope<'_, T>>,
    ctx: &mut Context<'s, '_, T, S, W>,
)
    requires { B.can below }
    ensures { Runs (B.at below) (page T.tree T.table W.seen ctx.old) (page T.tree T.table W.seen ctx.new) (T.tree
        tree) (lent_scope T.tree scope.entry) (line_steps Tag.NestedNameTemplate) }
{
    ctx.turn(PrintFlag::NestedPrefix, true);
    let items = ctx.fence();
    name_part(below, tree, 2, scope, ctx);
    ctx.unfence(items);
    ctx.turn(PrintFlag::NestedPrefix, false);
    taken(below, scope, ctx);
    choice_3(below, tree, scope, ctx);
    choice_4(below, tree, scope, ctx);
}

/// The line of `NestedNameUnqualifiedExplicitObject`: `A::f` of `f(this A)`: `NH1A1fE`. ABI section 5.1.2.
pub fn nested_name_unqualified_explicit_object<
    's,
    T: Tree<S>,
    S: 's,
    W: DemangleWrite,
    B: Below<'s, T, S, W>,
>(below: B, tree: T, scope: Option<&Scope<'_, T>>, ctx: &mut Context<'s, '_, T, S, W>)
    requires { B.can below }
    ensures { Runs (B.at below) (page T.tree T.table W.seen ctx.old) (page T.tree T.table W.seen ctx.new) (T.tree
        tree) (lent_scope T.tree scope.entry) (line_steps Tag.NestedNameUnqualifiedExplicitObject) }
{
    let items = ctx.fence();
    let told = ctx.begin_node(DemangleNodeType::NestedName);
    choice_5(below, tree, scope, ctx);
    name_part(below, tree, 1, scope, ctx);
    ctx.end_node(told);
    ctx.unfence(items);
    ctx.turn(PrintFlag::Object, true);
    taken(below, scope, ctx);
}

/// The line of `NestedNameTemplateExplicitObject`: `A::f<int>` of `f(this A)`: `NH1A1fIiEE`. ABI section 5.1.2.
pub fn nested_name_template_explicit_object<
    's,
    T: Tree<S>,
    S: 's,
    W: DemangleWrite,
    B: Below<'s, T, S, W>,
>(below: B, tree: T, scope: Option<&Scope<'_, T>>, ctx: &mut Context<'s, '_, T, S, W>)
    requires { B.can below }
    ensures { Runs (B.at below) (page T.tree T.table W.seen ctx.old) (page T.tree T.table W.seen ctx.new) (T.tree
        tree) (lent_scope T.tree scope.entry) (line_steps Tag.NestedNameTemplateExplicitObject) }
{
    ctx.turn(PrintFlag::NestedPrefix, true);
    let items = ctx.fence();
    name_part(below, tree, 0, scope, ctx);
    ctx.unfence(items);
    ctx.turn(PrintFlag::NestedPrefix, false);
    ctx.turn(PrintFlag::Object, true);
    taken(below, scope, ctx);
}

/// The line of `LocalNameRelative`: `x` of `f()`: `Z1fvE1x`; a string literal of it: `Z1fvEs`. ABI section 5.1.7.
pub fn local_name_relative<'s, T: Tree<S>, S: 's, W: DemangleWrite, B: Below<'s, T, S, W>>(
    below: B,
    tree: T,
    scope: Option<&Scope<'_, T>>,
    ctx: &mut Context<'s, '_, T, S, W>,
)
    requires { B.can below }
    ensures { Runs (B.at below) (page T.tree T.table W.seen ctx.old) (page T.tree T.table W.seen ctx.new) (T.tree
        tree) (lent_scope T.tree scope.entry) (line_steps Tag.LocalNameRelative) }
{
    let before = ctx.is_on(PrintFlag::Params);
    ctx.turn(PrintFlag::Params, true);
    name_part(below, tree, 0, scope, ctx);
    choice_6(below, tree, scope, ctx);
    ctx.turn(PrintFlag::Params, before);
}

/// The line of `LocalNameDefault`: an entity in the default argument of a parameter, of the last one where no number
/// is written: `Z1fiEd_UlvE_`. ABI section 5.1.7.
pub fn local_name_default<'s, T: Tree<S>, S: 's, W: DemangleWrite, B: Below<'s, T, S, W>>(
    below: B,
    tree: T,
    scope: Option<&Scope<'_, T>>,
    ctx: &mut Context<'s, '_, T, S, W>,
)
    requires { B.can below }
    ensures { Runs (B.at below) (page T.tree T.table W.seen ctx.old) (page T.tree T.table W.seen ctx.new) (T.tree
        tree) (lent_scope T.tree scope.entry) (line_steps Tag.LocalNameDefault) }
{
    let before = ctx.is_on(PrintFlag::Params);
    ctx.turn(PrintFlag::Params, true);
    name_part(below, tree, 0, scope, ctx);
    ctx.turn(PrintFlag::Params, before);
}

/// The line of `PrefixUnqualified`: `a` of `a::b::f`: `1a`. ABI section 5.1.2.
pub fn prefix_unqualified<'s, T: Tree<S>, S: 's, W: DemangleWrite, B: Below<'s, T, S, W>>(
    below: B,
    tree: T,
    scope: Option<&Scope<'_, T>>,
    ctx: &mut Context<'s, '_, T, S, W>,
)
    requires { B.can below }
    ensures { Runs (B.at below) (page T.tree T.table W.seen ctx.old) (page T.tree T.table W.seen ctx.new) (T.tree
        tree) (lent_scope T.tree scope.entry) (line_steps Tag.PrefixUnqualified) }
{
    choice_7(below, tree, scope, ctx);
}

/// The line of `PrefixNested`: `a::b` of `a::b::f`: `1a1b`. ABI section 5.1.2.
pub fn prefix_nested<'s, T: Tree<S>, S: 's, W: DemangleWrite, B: Below<'s, T, S, W>>(
    below: B,
    tree: T,
    scope: Option<&Scope<'_, T>>,
    ctx: &mut Context<'s, '_, T, S, W>,
)
    requires { B.can below }
    ensures { Runs (B.at below) (page T.tree T.table W.seen ctx.old) (page T.tree T.table W.seen ctx.new) (T.tree
        tree) (lent_scope T.tree scope.entry) (line_steps Tag.PrefixNested) }
{
    choice_9(below, tree, scope, ctx);
}

/// The line of `PrefixTemplate`: `a<int>` of `a<int>::f`: `1aIiE`. ABI section 5.1.2.
pub fn prefix_template<'s, T: Tree<S>, S: 's, W: DemangleWrite, B: Below<'s, T, S, W>>(
    below: B,
    tree: T,
    scope: Option<&Scope<'_, T>>,
    ctx: &mut Context<'s, '_, T, S, W>,
)
    requires { B.can below }
    ensures { Runs (B.at below) (page T.tree T.table W.seen ctx.old) (page T.tree T.table W.seen ctx.new) (T.tree
        tree) (lent_scope T.tree scope.entry) (line_steps Tag.PrefixTemplate) }
{
    choice_11(below, tree, scope, ctx);
}

/// The line of `DataMemberPrefix`: the member whose initializer is the scope of a closure. ABI section 5.1.7.
pub fn data_member_prefix<'s, T: Tree<S>, S: 's, W: DemangleWrite, B: Below<'s, T, S, W>>(
    below: B,
    tree: T,
    scope: Option<&Scope<'_, T>>,
    ctx: &mut Context<'s, '_, T, S, W>,
)
    requires { B.can below }
    ensures { Runs (B.at below) (page T.tree T.table W.seen ctx.old) (page T.tree T.table W.seen ctx.new) (T.tree
        tree) (lent_scope T.tree scope.entry) (line_steps Tag.DataMemberPrefix) }
{
    let told = ctx.begin_node(DemangleNodeType::DataMemberPrefix);
    name_part(below, tree, 0, scope, ctx);
    ctx.end_node(told);
}

/// The line of `UnqualifiedNameOperator`: `operator+`: `pl`. ABI section 5.1.2.
pub fn unqualified_name_operator<'s, T: Tree<S>, S: 's, W: DemangleWrite, B: Below<'s, T, S, W>>(
    below: B,
    tree: T,
    scope: Option<&Scope<'_, T>>,
    ctx: &mut Context<'s, '_, T, S, W>,
)
    requires { B.can below }
    ensures { Runs (B.at below) (page T.tree T.table W.seen ctx.old) (page T.tree T.table W.seen ctx.new) (T.tree
        tree) (lent_scope T.tree scope.entry) (line_steps Tag.UnqualifiedNameOperator) }
{
    let told = ctx.begin_node(DemangleNodeType::UnqualifiedName);
    ctx.text("operator");
    name_part(below, tree, 0, scope, ctx);
    name_part(below, tree, 1, scope, ctx);
    ctx.end_node(told);
}

/// The line of `UnqualifiedNameCtorDtor`: a constructor: `C1`. ABI section 5.1.2.
pub fn unqualified_name_ctor_dtor<'s, T: Tree<S>, S: 's, W: DemangleWrite, B: Below<'s, T, S, W>>(
    below: B,
    tree: T,
    scope: Option<&Scope<'_, T>>,
    ctx: &mut Context<'s, '_, T, S, W>,
)
    requires { B.can below }
    ensures { Runs (B.at below) (page T.tree T.table W.seen ctx.old) (page T.tree T.table W.seen ctx.new) (T.tree
        tree) (lent_scope T.tree scope.entry) (line_steps Tag.UnqualifiedNameCtorDtor) }
{
    let told = ctx.begin_node(DemangleNodeType::UnqualifiedName);
    name_part(below, tree, 0, scope, ctx);
    name_part(below, tree, 1, scope, ctx);
    ctx.end_node(told);
}

/// The line of `UnqualifiedNameLocalSourceName`: a name that only its own file sees, `static int x;`: `L1x`. ABI
/// section 5.1.2.
pub fn unqualified_name_local_source_name<
    's,
    T: Tree<S>,
    S: 's,
    W: DemangleWrite,
    B: Below<'s, T, S, W>,
>(below: B, tree: T, scope: Option<&Scope<'_, T>>, ctx: &mut Context<'s, '_, T, S, W>)
    requires { B.can below }
    ensures { Runs (B.at below) (page T.tree T.table W.seen ctx.old) (page T.tree T.table W.seen ctx.new) (T.tree
        tree) (lent_scope T.tree scope.entry) (line_steps Tag.UnqualifiedNameLocalSourceName) }
{
    let told = ctx.begin_node(DemangleNodeType::UnqualifiedName);
    name_part(below, tree, 0, scope, ctx);
    name_part(below, tree, 2, scope, ctx);
    ctx.end_node(told);
}

/// The line of `AbiTags`: the ABI tags of a name, in the order in which they are written, `[abi:a][abi:b]`: `B1aB1b`.
/// ABI section 5.1.2.
pub fn abi_tags<'s, T: Tree<S>, S: 's, W: DemangleWrite, B: Below<'s, T, S, W>>(
    below: B,
    tree: T,
    scope: Option<&Scope<'_, T>>,
    ctx: &mut Context<'s, '_, T, S, W>,
)
    requires { B.can below }
    ensures { Runs (B.at below) (page T.tree T.table W.seen ctx.old) (page T.tree T.table W.seen ctx.new) (T.tree
        tree) (lent_scope T.tree scope.entry) (line_steps Tag.AbiTags) }
{
    each_1(below, part_at(below, tree, 0), scope, ctx);
}

/// The line of `AbiTag`: one ABI tag, `[abi:cxx11]`: `B5cxx11`. ABI section 5.1.2.
pub fn abi_tag<'s, T: Tree<S>, S: 's, W: DemangleWrite, B: Below<'s, T, S, W>>(
    below: B,
    tree: T,
    scope: Option<&Scope<'_, T>>,
    ctx: &mut Context<'s, '_, T, S, W>,
)
    requires { B.can below }
    ensures { Runs (B.at below) (page T.tree T.table W.seen ctx.old) (page T.tree T.table W.seen ctx.new) (T.tree
        tree) (lent_scope T.tree scope.entry) (line_steps Tag.AbiTag) }
{
    ctx.text("[abi:");
    name_part(below, tree, 0, scope, ctx);
    ctx.text("]");
}

/// The line of `Identifier`: the place of an identifier. ABI section 5.1.2.
pub fn identifier<'s, T: Tree<S>, S: 's, W: DemangleWrite, B: Below<'s, T, S, W>>(
    below: B,
    tree: T,
    scope: Option<&Scope<'_, T>>,
    ctx: &mut Context<'s, '_, T, S, W>,
)
    requires { B.can below }
    ensures { Runs (B.at below) (page T.tree T.table W.seen ctx.old) (page T.tree T.table W.seen ctx.new) (T.tree
        tree) (lent_scope T.tree scope.entry) (line_steps Tag.Identifier) }
{
    choice_13(below, tree, scope, ctx);
}

/// The line of `UnnamedTypeName`: a type without a name, and its number where one is written. ABI section 5.1.7.
pub fn unnamed_type_name<'s, T: Tree<S>, S: 's, W: DemangleWrite, B: Below<'s, T, S, W>>(
    below: B,
    tree: T,
    scope: Option<&Scope<'_, T>>,
    ctx: &mut Context<'s, '_, T, S, W>,
)
    requires { B.can below }
    ensures { Runs (B.at below) (page T.tree T.table W.seen ctx.old) (page T.tree T.table W.seen ctx.new) (T.tree
        tree) (lent_scope T.tree scope.entry) (line_steps Tag.UnnamedTypeName) }
{
    ctx.text("{unnamed type#");
    inner_ordinal(below, tree, 0, 0, 1, 1, ctx);
    ctx.text("}");
}

/// The line of `ClosureTypeName`: a closure: its parameter types, and its number where one is written,
/// `{lambda(int)#1}`: `UliE_`. ABI section 5.1.8.
pub fn closure_type_name<'s, T: Tree<S>, S: 's, W: DemangleWrite, B: Below<'s, T, S, W>>(
    below: B,
    tree: T,
    scope: Option<&Scope<'_, T>>,
    ctx: &mut Context<'s, '_, T, S, W>,
)
    requires { B.can below }
    ensures { Runs (B.at below) (page T.tree T.table W.seen ctx.old) (page T.tree T.table W.seen ctx.new) (T.tree
        tree) (lent_scope T.tree scope.entry) (line_steps Tag.ClosureTypeName) }
{
    ctx.text("{lambda(");
    name_part(below, tree, 0, scope, ctx);
    ctx.text(")#");
    inner_ordinal(below, tree, 1, 0, 1, 2, ctx);
    ctx.text("}");
}

/// The line of `LambdaSig`: the parameter types of a closure, none for `v`. ABI section 5.1.8.
pub fn lambda_sig<'s, T: Tree<S>, S: 's, W: DemangleWrite, B: Below<'s, T, S, W>>(
    below: B,
    tree: T,
    scope: Option<&Scope<'_, T>>,
    ctx: &mut Context<'s, '_, T, S, W>,
)
    requires { B.can below }
    ensures { Runs (B.at below) (page T.tree T.table W.seen ctx.old) (page T.tree T.table W.seen ctx.new) (T.tree
        tree) (lent_scope T.tree scope.entry) (line_steps Tag.LambdaSig) }
{
    ctx.turn(PrintFlag::Lambda, true);
    list(below, tree, 0, scope, ctx);
    ctx.turn(PrintFlag::Lambda, false);
}

/// The line of `OperatorNameSimple`: a word of the table of operators, `operator+`: `pl`. ABI section 5.1.3.
pub fn operator_name_simple<'s, T: Tree<S>, S: 's, W: DemangleWrite, B: Below<'s, T, S, W>>(
    below: B,
    tree: T,
    scope: Option<&Scope<'_, T>>,
    ctx: &mut Context<'s, '_, T, S, W>,
)
    requires { B.can below }
    ensures { Runs (B.at below) (page T.tree T.table W.seen ctx.old) (page T.tree T.table W.seen ctx.new) (T.tree
        tree) (lent_scope T.tree scope.entry) (line_steps Tag.OperatorNameSimple) }
{
    choice_14(below, tree, scope, ctx);
    name_part(below, tree, 0, scope, ctx);
}

/// The line of `OperatorNameCast`: a cast in an expression. ABI section 5.1.3.
pub fn operator_name_cast<'s, T: Tree<S>, S: 's, W: DemangleWrite, B: Below<'s, T, S, W>>(
    below: B,
    tree: T,
    scope: Option<&Scope<'_, T>>,
    ctx: &mut Context<'s, '_, T, S, W>,
)
    requires { B.can below }
    ensures { Runs (B.at below) (page T.tree T.table W.seen ctx.old) (page T.tree T.table W.seen ctx.new) (T.tree
        tree) (lent_scope T.tree scope.entry) (line_steps Tag.OperatorNameCast) }
{
    let items = ctx.fence();
    ctx.space();
    let inner = with_type_arguments(below, tree, 0, scope);
    name_part(below, tree, 0, Some(&inner), ctx);
    ctx.unfence(items);
}

/// The line of `OperatorNameLiteral`: the suffix of a literal, `operator ""_w`: `li2_w`. ABI section 5.1.3.
pub fn operator_name_literal<'s, T: Tree<S>, S: 's, W: DemangleWrite, B: Below<'s, T, S, W>>(
    below: B,
    tree: T,
    scope: Option<&Scope<'_, T>>,
    ctx: &mut Context<'s, '_, T, S, W>,
)
    requires { B.can below }
    ensures { Runs (B.at below) (page T.tree T.table W.seen ctx.old) (page T.tree T.table W.seen ctx.new) (T.tree
        tree) (lent_scope T.tree scope.entry) (line_steps Tag.OperatorNameLiteral) }
{
    name_part(below, tree, 0, scope, ctx);
    ctx.text("::operator \"\"");
}

/// The line of `OperatorNameVendorExtension`: a compiler's own operator, with the number of its operands, from 0 to
/// 9, `operator foo`: `v23foo`. ABI section 5.1.3.
pub fn operator_name_vendor_extension<
    's,
    T: Tree<S>,
    S: 's,
    W: DemangleWrite,
    B: Below<'s, T, S, W>,
>(below: B, tree: T, scope: Option<&Scope<'_, T>>, ctx: &mut Context<'s, '_, T, S, W>)
    requires { B.can below }
    ensures { Runs (B.at below) (page T.tree T.table W.seen ctx.old) (page T.tree T.table W.seen ctx.new) (T.tree
        tree) (lent_scope T.tree scope.entry) (line_steps Tag.OperatorNameVendorExtension) }
{
    name_part(below, tree, 1, scope, ctx);
    ctx.text("::operator ");
    spelled(below, tree, 0, ctx);
}

/// The line of `CtorDtorNameCompleteConstructor`: constructs a whole object: `C1`; inherited from `B`: `CI11B`. ABI
/// section 5.1.4.3.
pub fn ctor_dtor_name_complete_constructor<
    's,
    T: Tree<S>,
    S: 's,
    W: DemangleWrite,
    B: Below<'s, T, S, W>,
>(below: B, tree: T, scope: Option<&Scope<'_, T>>, ctx: &mut Context<'s, '_, T, S, W>)
    requires { B.can below }
    ensures { Runs (B.at below) (page T.tree T.table W.seen ctx.old) (page T.tree T.table W.seen ctx.new) (T.tree
        tree) (lent_scope T.tree scope.entry) (line_steps Tag.CtorDtorNameCompleteConstructor) }
{
    need_leaf(below, scope, ctx);
    choice_15(below, tree, scope, ctx);
}

/// The line of `CtorDtorNameDeletingDestructor`: destroys a whole object and frees it: `D0`. ABI section 5.1.4.3.
pub fn ctor_dtor_name_deleting_destructor<
    's,
    T: Tree<S>,
    S: 's,
    W: DemangleWrite,
    B: Below<'s, T, S, W>,
>(below: B, tree: T, scope: Option<&Scope<'_, T>>, ctx: &mut Context<'s, '_, T, S, W>)
    requires { B.can below }
    ensures { Runs (B.at below) (page T.tree T.table W.seen ctx.old) (page T.tree T.table W.seen ctx.new) (T.tree
        tree) (lent_scope T.tree scope.entry) (line_steps Tag.CtorDtorNameDeletingDestructor) }
{
    need_leaf(below, scope, ctx);
    ctx.text("~");
    leaf(below, scope, ctx);
}
