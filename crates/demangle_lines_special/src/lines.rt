//! Lines of special names.

ghost use Rattle.demangle_core.specs.Core.{Tag};
ghost use Rattle.demangle_printing.specs.Lines.{line_steps};
ghost use Rattle.demangle_context.specs.PageOf.{page};
ghost use Rattle.demangle_lines.specs.Does.{Runs};
ghost use Rattle.demangle_lines.specs.ScopeOf.{lent_scope};

use crate::choices::each_1;
use demangle_context::{Context, DemangleNodeType, DemangleWrite};
use demangle_lines::{Below, Scope, Tree, inner_spelled, part, part_at, resource, spelled};

/// The line of `SpecialNameVirtualTable`: the virtual table of the class `A`: `TV1A`. ABI section 5.1.4.
pub fn special_name_virtual_table<'s, T: Tree<S>, S: 's, W: DemangleWrite, B: Below<'s, T, S, W>>(
    below: B,
    tree: T,
    scope: Option<&Scope<'_, T>>,
    ctx: &mut Context<'s, '_, T, S, W>,
)
    requires { B.can below }
    ensures { Runs (B.at below) (page T.tree T.table W.seen ctx.old) (page T.tree T.table W.seen ctx.new) (T.tree
        tree) (lent_scope T.tree scope.entry) (line_steps Tag.SpecialNameVirtualTable) }
{
    ctx.text("{vtable(");
    let told = ctx.begin_node(DemangleNodeType::VirtualTable);
    part(below, tree, 0, scope, ctx);
    ctx.end_node(told);
    ctx.text(")}");
}

/// The line of `SpecialNameVtt`: the table of the virtual tables that the constructors of `A` use: `TT1A`. ABI
/// section 5.1.4.
pub fn special_name_vtt<'s, T: Tree<S>, S: 's, W: DemangleWrite, B: Below<'s, T, S, W>>(
    below: B,
    tree: T,
    scope: Option<&Scope<'_, T>>,
    ctx: &mut Context<'s, '_, T, S, W>,
)
    requires { B.can below }
    ensures { Runs (B.at below) (page T.tree T.table W.seen ctx.old) (page T.tree T.table W.seen ctx.new) (T.tree
        tree) (lent_scope T.tree scope.entry) (line_steps Tag.SpecialNameVtt) }
{
    ctx.text("{vtt(");
    part(below, tree, 0, scope, ctx);
    ctx.text(")}");
}

/// The line of `SpecialNameTypeinfo`: what `typeid(A)` refers to: `TI1A`. ABI section 5.1.4.
pub fn special_name_typeinfo<'s, T: Tree<S>, S: 's, W: DemangleWrite, B: Below<'s, T, S, W>>(
    below: B,
    tree: T,
    scope: Option<&Scope<'_, T>>,
    ctx: &mut Context<'s, '_, T, S, W>,
)
    requires { B.can below }
    ensures { Runs (B.at below) (page T.tree T.table W.seen ctx.old) (page T.tree T.table W.seen ctx.new) (T.tree
        tree) (lent_scope T.tree scope.entry) (line_steps Tag.SpecialNameTypeinfo) }
{
    ctx.text("typeinfo for ");
    part(below, tree, 0, scope, ctx);
}

/// The line of `SpecialNameTypeinfoName`: the text that `typeid(A).name()` answers: `TS1A`. ABI section 5.1.4.
pub fn special_name_typeinfo_name<'s, T: Tree<S>, S: 's, W: DemangleWrite, B: Below<'s, T, S, W>>(
    below: B,
    tree: T,
    scope: Option<&Scope<'_, T>>,
    ctx: &mut Context<'s, '_, T, S, W>,
)
    requires { B.can below }
    ensures { Runs (B.at below) (page T.tree T.table W.seen ctx.old) (page T.tree T.table W.seen ctx.new) (T.tree
        tree) (lent_scope T.tree scope.entry) (line_steps Tag.SpecialNameTypeinfoName) }
{
    ctx.text("typeinfo name for ");
    part(below, tree, 0, scope, ctx);
}

/// The line of `SpecialNameTypeinfoFunction`: a function that answers what `typeid(A)` refers to, as old compilers
/// made it: `TF1A`. ABI section 5.1.4.
pub fn special_name_typeinfo_function<
    's,
    T: Tree<S>,
    S: 's,
    W: DemangleWrite,
    B: Below<'s, T, S, W>,
>(below: B, tree: T, scope: Option<&Scope<'_, T>>, ctx: &mut Context<'s, '_, T, S, W>)
    requires { B.can below }
    ensures { Runs (B.at below) (page T.tree T.table W.seen ctx.old) (page T.tree T.table W.seen ctx.new) (T.tree
        tree) (lent_scope T.tree scope.entry) (line_steps Tag.SpecialNameTypeinfoFunction) }
{
    ctx.text("typeinfo fn for ");
    part(below, tree, 0, scope, ctx);
}

/// The line of `SpecialNameVirtualOverrideThunk`: a function that changes `this` and goes on to `A::f()`:
/// `Thn8_N1A1fEv`. ABI section 5.1.4.
pub fn special_name_virtual_override_thunk<
    's,
    T: Tree<S>,
    S: 's,
    W: DemangleWrite,
    B: Below<'s, T, S, W>,
>(below: B, tree: T, scope: Option<&Scope<'_, T>>, ctx: &mut Context<'s, '_, T, S, W>)
    requires { B.can below }
    ensures { Runs (B.at below) (page T.tree T.table W.seen ctx.old) (page T.tree T.table W.seen ctx.new) (T.tree
        tree) (lent_scope T.tree scope.entry) (line_steps Tag.SpecialNameVirtualOverrideThunk) }
{
    ctx.text("{virtual override thunk(");
    part(below, tree, 0, scope, ctx);
    ctx.text(", ");
    part(below, tree, 1, scope, ctx);
    ctx.text(")}");
}

/// The line of `SpecialNameVirtualOverrideThunkCovariant`: one that also changes the pointer or reference that
/// `A::f()` returns: `Tchn8_h8_N1A1fEv`. ABI section 5.1.4.
pub fn special_name_virtual_override_thunk_covariant<
    's,
    T: Tree<S>,
    S: 's,
    W: DemangleWrite,
    B: Below<'s, T, S, W>,
>(below: B, tree: T, scope: Option<&Scope<'_, T>>, ctx: &mut Context<'s, '_, T, S, W>)
    requires { B.can below }
    ensures { Runs (B.at below) (page T.tree T.table W.seen ctx.old) (page T.tree T.table W.seen ctx.new) (T.tree
        tree) (lent_scope T.tree scope.entry) (line_steps Tag.SpecialNameVirtualOverrideThunkCovariant) }
{
    ctx.text("{virtual override thunk(");
    part(below, tree, 0, scope, ctx);
    ctx.text(", ");
    part(below, tree, 1, scope, ctx);
    ctx.text(", ");
    part(below, tree, 2, scope, ctx);
    ctx.text(")}");
}

/// The line of `CallOffsetNonVirtual`: by a constant, as for a base that isn't virtual: `hn8_`. ABI section 5.1.4.2.
pub fn call_offset_non_virtual<'s, T: Tree<S>, S: 's, W: DemangleWrite, B: Below<'s, T, S, W>>(
    below: B,
    tree: T,
    scope: Option<&Scope<'_, T>>,
    ctx: &mut Context<'s, '_, T, S, W>,
)
    requires { B.can below }
    ensures { Runs (B.at below) (page T.tree T.table W.seen ctx.old) (page T.tree T.table W.seen ctx.new) (T.tree
        tree) (lent_scope T.tree scope.entry) (line_steps Tag.CallOffsetNonVirtual) }
{
    ctx.text("{offset(");
    inner_spelled(below, tree, 0, 0, ctx);
    ctx.text(")}");
}

/// The line of `CallOffsetVirtual`: by a constant and a number in the virtual table, as for a virtual base:
/// `v0_n24_`. ABI section 5.1.4.2.
pub fn call_offset_virtual<'s, T: Tree<S>, S: 's, W: DemangleWrite, B: Below<'s, T, S, W>>(
    below: B,
    tree: T,
    scope: Option<&Scope<'_, T>>,
    ctx: &mut Context<'s, '_, T, S, W>,
)
    requires { B.can below }
    ensures { Runs (B.at below) (page T.tree T.table W.seen ctx.old) (page T.tree T.table W.seen ctx.new) (T.tree
        tree) (lent_scope T.tree scope.entry) (line_steps Tag.CallOffsetVirtual) }
{
    ctx.text("{virtual offset(");
    inner_spelled(below, tree, 0, 0, ctx);
    ctx.text(", ");
    inner_spelled(below, tree, 0, 1, ctx);
    ctx.text(")}");
}

/// The line of `SpecialNameGuard`: the guard that tells whether the static variable `x` of `f()` is initialized:
/// `GVZ1fvE1x`. ABI section 5.1.4.
pub fn special_name_guard<'s, T: Tree<S>, S: 's, W: DemangleWrite, B: Below<'s, T, S, W>>(
    below: B,
    tree: T,
    scope: Option<&Scope<'_, T>>,
    ctx: &mut Context<'s, '_, T, S, W>,
)
    requires { B.can below }
    ensures { Runs (B.at below) (page T.tree T.table W.seen ctx.old) (page T.tree T.table W.seen ctx.new) (T.tree
        tree) (lent_scope T.tree scope.entry) (line_steps Tag.SpecialNameGuard) }
{
    ctx.text("guard variable for ");
    part(below, tree, 0, scope, ctx);
}

/// The line of `SpecialNameGuardTemporary`: a temporary that the reference `x` is bound to, and its number; the first
/// and the second: `GR1x_` and `GR1x0_`. ABI section 5.1.4.
pub fn special_name_guard_temporary<'s, T: Tree<S>, S: 's, W: DemangleWrite, B: Below<'s, T, S, W>>(
    below: B,
    tree: T,
    scope: Option<&Scope<'_, T>>,
    ctx: &mut Context<'s, '_, T, S, W>,
)
    requires { B.can below }
    ensures { Runs (B.at below) (page T.tree T.table W.seen ctx.old) (page T.tree T.table W.seen ctx.new) (T.tree
        tree) (lent_scope T.tree scope.entry) (line_steps Tag.SpecialNameGuardTemporary) }
{
    ctx.text("reference temporary #");
    spelled(below, tree, 1, ctx);
    ctx.text(" for ");
    part(below, tree, 0, scope, ctx);
}

/// The line of `SpecialNameConstructionVtable`: the virtual table of `B` while it is constructed as a part of `A`, at
/// offset 8: `TC1A8_1B`. ABI section 5.1.4.
pub fn special_name_construction_vtable<
    's,
    T: Tree<S>,
    S: 's,
    W: DemangleWrite,
    B: Below<'s, T, S, W>,
>(below: B, tree: T, scope: Option<&Scope<'_, T>>, ctx: &mut Context<'s, '_, T, S, W>)
    requires { B.can below }
    ensures { Runs (B.at below) (page T.tree T.table W.seen ctx.old) (page T.tree T.table W.seen ctx.new) (T.tree
        tree) (lent_scope T.tree scope.entry) (line_steps Tag.SpecialNameConstructionVtable) }
{
    ctx.text("construction vtable for ");
    part(below, tree, 0, scope, ctx);
    ctx.text("-in-");
    part(below, tree, 2, scope, ctx);
}

/// The line of `SpecialNameTlsInit`: what initializes the `thread_local` variable `x`: `TH1x`. ABI section 5.1.4.
pub fn special_name_tls_init<'s, T: Tree<S>, S: 's, W: DemangleWrite, B: Below<'s, T, S, W>>(
    below: B,
    tree: T,
    scope: Option<&Scope<'_, T>>,
    ctx: &mut Context<'s, '_, T, S, W>,
)
    requires { B.can below }
    ensures { Runs (B.at below) (page T.tree T.table W.seen ctx.old) (page T.tree T.table W.seen ctx.new) (T.tree
        tree) (lent_scope T.tree scope.entry) (line_steps Tag.SpecialNameTlsInit) }
{
    ctx.text("TLS init function for ");
    part(below, tree, 0, scope, ctx);
}

/// The line of `SpecialNameTlsWrapper`: what a file calls to read the `thread_local` variable `x` of another file:
/// `TW1x`. ABI section 5.1.4.
pub fn special_name_tls_wrapper<'s, T: Tree<S>, S: 's, W: DemangleWrite, B: Below<'s, T, S, W>>(
    below: B,
    tree: T,
    scope: Option<&Scope<'_, T>>,
    ctx: &mut Context<'s, '_, T, S, W>,
)
    requires { B.can below }
    ensures { Runs (B.at below) (page T.tree T.table W.seen ctx.old) (page T.tree T.table W.seen ctx.new) (T.tree
        tree) (lent_scope T.tree scope.entry) (line_steps Tag.SpecialNameTlsWrapper) }
{
    ctx.text("TLS wrapper function for ");
    part(below, tree, 0, scope, ctx);
}

/// The line of `SpecialNameTransactionClone`: the copy of `f()` that runs inside a transaction, as compilers write
/// it: `GTt1fv`. ABI section 5.1.4.
pub fn special_name_transaction_clone<
    's,
    T: Tree<S>,
    S: 's,
    W: DemangleWrite,
    B: Below<'s, T, S, W>,
>(below: B, tree: T, scope: Option<&Scope<'_, T>>, ctx: &mut Context<'s, '_, T, S, W>)
    requires { B.can below }
    ensures { Runs (B.at below) (page T.tree T.table W.seen ctx.old) (page T.tree T.table W.seen ctx.new) (T.tree
        tree) (lent_scope T.tree scope.entry) (line_steps Tag.SpecialNameTransactionClone) }
{
    ctx.text("transaction clone for ");
    part(below, tree, 0, scope, ctx);
}

/// The line of `SpecialNameNonTransactionClone`: the copy of `f()` that runs outside transactions: `GTn1fv`. ABI
/// section 5.1.4.
pub fn special_name_non_transaction_clone<
    's,
    T: Tree<S>,
    S: 's,
    W: DemangleWrite,
    B: Below<'s, T, S, W>,
>(below: B, tree: T, scope: Option<&Scope<'_, T>>, ctx: &mut Context<'s, '_, T, S, W>)
    requires { B.can below }
    ensures { Runs (B.at below) (page T.tree T.table W.seen ctx.old) (page T.tree T.table W.seen ctx.new) (T.tree
        tree) (lent_scope T.tree scope.entry) (line_steps Tag.SpecialNameNonTransactionClone) }
{
    ctx.text("non-transaction clone for ");
    part(below, tree, 0, scope, ctx);
}

/// The line of `SpecialNameJavaResource`: a resource of a Java program, `java/a.png`: `Gr13_java$Sa$_png`. ABI
/// section 5.1.4.
pub fn special_name_java_resource<'s, T: Tree<S>, S: 's, W: DemangleWrite, B: Below<'s, T, S, W>>(
    below: B,
    tree: T,
    scope: Option<&Scope<'_, T>>,
    ctx: &mut Context<'s, '_, T, S, W>,
)
    requires { B.can below }
    ensures { Runs (B.at below) (page T.tree T.table W.seen ctx.old) (page T.tree T.table W.seen ctx.new) (T.tree
        tree) (lent_scope T.tree scope.entry) (line_steps Tag.SpecialNameJavaResource) }
{
    ctx.text("java resource ");
    each_1(below, part_at(below, tree, 0), scope, ctx);
}

/// The line of `ResourceName`: the place of one component of a Java resource, with the escape that ends it: `$S` is
/// `/`, `$_` is `.`, and `$$` is `$`.
pub fn resource_name<'s, T: Tree<S>, S: 's, W: DemangleWrite, B: Below<'s, T, S, W>>(
    below: B,
    tree: T,
    scope: Option<&Scope<'_, T>>,
    ctx: &mut Context<'s, '_, T, S, W>,
)
    requires { B.can below }
    ensures { Runs (B.at below) (page T.tree T.table W.seen ctx.old) (page T.tree T.table W.seen ctx.new) (T.tree
        tree) (lent_scope T.tree scope.entry) (line_steps Tag.ResourceName) }
{
    resource(below, tree, 0, ctx);
}
