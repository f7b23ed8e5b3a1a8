//! What the compiler makes besides functions and variables.

ghost use Rattle.std.specs.Prelude.{Some, map, pos};
ghost use Rattle.std.specs.Fmt.{signed_decimal};
ghost use Rattle.demangle_core.specs.Core.{Core};
ghost use Rattle.demangle_leaf_nodes.specs.TreeLeaves.{tree_of_call_offset, tree_of_type_handle};
ghost use Rattle.demangle_leaf_nodes.specs.TreeLeaves.{tree_of_resource_name};
ghost use Rattle.demangle_nodes.specs.TreeNodes.{tree_of_encoding, tree_of_name, tree_of_special_name};
ghost use Rattle.demangle_printing.specs.Act.{block, done, event, text};
ghost use Rattle.demangle_printing.specs.Items.{itself};
ghost use Rattle.demangle_printing.specs.Rules.{line_of, quoted};
ghost use Rattle.demangle_printing.specs.Scope.{Scope};
ghost use Rattle.demangle_printing.specs.State.{virtual_table};
ghost use Rattle.demangle_printing.specs.Step.{Step};
ghost use Rattle.demangle_meets.specs.Meets.{Line, Meets, Prints};
ghost use Rattle.demangle_meets.specs.Place.{world_of};
ghost use Rattle.demangle_scope.specs.ScopeOf.{scope_of};
ghost use Rattle.demangle_print_below.specs.PageOf.{page};
ghost use Rattle.demangle_print_parts.specs.Pieces.{each_of};

use crate::offsets::call_offset;
use crate::resources::each_resource;
use demangle_print_below::Below;
use demangle_print_parts::{type_handle, unsigned};
use demangle_scope::{ArgScopeStack, DemangleContext, DemangleNodeType, DemangleWrite};
use demangle_tree::{CallOffset, Encoding, Name, ResourceName, SpecialName, TypeHandle};

/// A type behind a text.
fn of_type<'subs, W: DemangleWrite, B: Below<'subs, W>>(
    below: B,
    word: &str,
    handle: &'subs TypeHandle,
    scope: Option<ArgScopeStack<'_, 'subs>>,
    ctx: &mut DemangleContext<'subs, '_, W>,
)
    requires { B.can below }
    ensures { Meets (B.at below) (page W.seen ctx.old) (page W.seen ctx.new)
        (text word.now (block (line_of (world_of (B.at below).refers) (Some (tree_of_type_handle handle.now))
        (scope_of scope.entry)) done)) }
{
    ctx.text(word);
    type_handle(below, handle, scope, ctx);
}

/// A name behind a text.
fn of_name<'subs, W: DemangleWrite, B: Below<'subs, W>>(
    below: B,
    word: &str,
    name: &'subs Name,
    scope: Option<ArgScopeStack<'_, 'subs>>,
    ctx: &mut DemangleContext<'subs, '_, W>,
)
    requires { B.can below }
    ensures { Meets (B.at below) (page W.seen ctx.old) (page W.seen ctx.new)
        (text word.now (block (line_of (world_of (B.at below).refers) (Some (tree_of_name name.now))
        (scope_of scope.entry)) done)) }
{
    ctx.text(word);
    below.name(name, scope, ctx);
}

/// An encoding behind a text.
fn of_encoding<'subs, W: DemangleWrite, B: Below<'subs, W>>(
    below: B,
    word: &str,
    encoding: &'subs Encoding,
    scope: Option<ArgScopeStack<'_, 'subs>>,
    ctx: &mut DemangleContext<'subs, '_, W>,
)
    requires { B.can below }
    ensures { Meets (B.at below) (page W.seen ctx.old) (page W.seen ctx.new)
        (text word.now (block (line_of (world_of (B.at below).refers) (Some (tree_of_encoding encoding.now))
        (scope_of scope.entry)) done)) }
{
    ctx.text(word);
    below.encoding(encoding, scope, ctx);
}

/// `{virtual override thunk({offset(-8)}, A::f())}`.
fn thunk<'subs, W: DemangleWrite, B: Below<'subs, W>>(
    below: B,
    this: &CallOffset,
    encoding: &'subs Encoding,
    scope: Option<ArgScopeStack<'_, 'subs>>,
    ctx: &mut DemangleContext<'subs, '_, W>,
)
    requires { B.can below }
    ensures { Meets (B.at below) (page W.seen ctx.old) (page W.seen ctx.new)
        (quoted "{virtual override thunk(" (block
        (line_of (world_of (B.at below).refers) (Some (tree_of_call_offset this.now)) (scope_of scope.entry))
        (quoted ", " (block (line_of (world_of (B.at below).refers) (Some (tree_of_encoding encoding.now))
        (scope_of scope.entry)) (quoted ")}" done))))) }
{
    ctx.text("{virtual override thunk(");
    call_offset(below, this, ctx);
    ctx.text(", ");
    below.encoding(encoding, scope, ctx);
    ctx.text(")}");
}

/// A thunk with the offset of what is returned: `{virtual override thunk({offset(-8)}, {offset(4)}, A::f())}`.
fn covariant_thunk<'subs, W: DemangleWrite, B: Below<'subs, W>>(
    below: B,
    this: &CallOffset,
    returned: &CallOffset,
    encoding: &'subs Encoding,
    scope: Option<ArgScopeStack<'_, 'subs>>,
    ctx: &mut DemangleContext<'subs, '_, W>,
)
    requires { B.can below }
    ensures { Meets (B.at below) (page W.seen ctx.old) (page W.seen ctx.new)
        (quoted "{virtual override thunk(" (block
        (line_of (world_of (B.at below).refers) (Some (tree_of_call_offset this.now)) (scope_of scope.entry))
        (quoted ", " (block (line_of (world_of (B.at below).refers) (Some (tree_of_call_offset returned.now))
        (scope_of scope.entry)) (quoted ", " (block
        (line_of (world_of (B.at below).refers) (Some (tree_of_encoding encoding.now)) (scope_of scope.entry))
        (quoted ")}" done))))))) }
{
    ctx.text("{virtual override thunk(");
    call_offset(below, this, ctx);
    ctx.text(", ");
    call_offset(below, returned, ctx);
    ctx.text(", ");
    below.encoding(encoding, scope, ctx);
    ctx.text(")}");
}

/// `{vtable(A)}`.
fn virtual_table<'subs, W: DemangleWrite, B: Below<'subs, W>>(
    below: B,
    class: &'subs TypeHandle,
    scope: Option<ArgScopeStack<'_, 'subs>>,
    ctx: &mut DemangleContext<'subs, '_, W>,
)
    requires { B.can below }
    ensures { Meets (B.at below) (page W.seen ctx.old) (page W.seen ctx.new)
        (quoted "{vtable(" (event virtual_table
        (block (line_of (world_of (B.at below).refers) (Some (tree_of_type_handle class.now)) (scope_of scope.entry))
        done) (quoted ")}" done))) }
{
    ctx.text("{vtable(");
    let told = ctx.begin_node(DemangleNodeType::VirtualTable);
    type_handle(below, class, scope, ctx);
    ctx.end_node(told);
    ctx.text(")}");
}

/// `{vtt(A)}`.
fn vtt<'subs, W: DemangleWrite, B: Below<'subs, W>>(
    below: B,
    class: &'subs TypeHandle,
    scope: Option<ArgScopeStack<'_, 'subs>>,
    ctx: &mut DemangleContext<'subs, '_, W>,
)
    requires { B.can below }
    ensures { Meets (B.at below) (page W.seen ctx.old) (page W.seen ctx.new)
        (quoted "{vtt(" (block (line_of (world_of (B.at below).refers) (Some (tree_of_type_handle class.now))
        (scope_of scope.entry)) (quoted ")}" done))) }
{
    ctx.text("{vtt(");
    type_handle(below, class, scope, ctx);
    ctx.text(")}");
}

/// `construction vtable for A-in-B`: the derived class stands first.
fn construction_vtable<'subs, W: DemangleWrite, B: Below<'subs, W>>(
    below: B,
    derived: &'subs TypeHandle,
    base: &'subs TypeHandle,
    scope: Option<ArgScopeStack<'_, 'subs>>,
    ctx: &mut DemangleContext<'subs, '_, W>,
)
    requires { B.can below }
    ensures { Meets (B.at below) (page W.seen ctx.old) (page W.seen ctx.new)
        (quoted "construction vtable for " (block
        (line_of (world_of (B.at below).refers) (Some (tree_of_type_handle derived.now)) (scope_of scope.entry))
        (quoted "-in-" (block (line_of (world_of (B.at below).refers) (Some (tree_of_type_handle base.now))
        (scope_of scope.entry)) done)))) }
{
    ctx.text("construction vtable for ");
    type_handle(below, derived, scope, ctx);
    ctx.text("-in-");
    type_handle(below, base, scope, ctx);
}

/// `reference temporary #0 for x`.
fn temporary<'subs, W: DemangleWrite, B: Below<'subs, W>>(
    below: B,
    name: &'subs Name,
    index: usize,
    scope: Option<ArgScopeStack<'_, 'subs>>,
    ctx: &mut DemangleContext<'subs, '_, W>,
)
    requires { B.can below }
    ensures { Meets (B.at below) (page W.seen ctx.old) (page W.seen ctx.new)
        (quoted "reference temporary #" (block (text (signed_decimal (pos index)) done)
        (quoted " for " (block (line_of (world_of (B.at below).refers) (Some (tree_of_name name.now))
        (scope_of scope.entry)) done)))) }
{
    ctx.text("reference temporary #");
    unsigned(index, ctx);
    ctx.text(" for ");
    below.name(name, scope, ctx);
}

/// `java resource java/a.png`.
fn java_resource<'subs, W: DemangleWrite, B: Below<'subs, W>>(
    below: B,
    resources: &[ResourceName],
    ctx: &mut DemangleContext<'subs, '_, W>,
)
    requires { B.can below }
    ensures { (sc : Scope Core) → Meets (B.at below) (page W.seen ctx.old) (page W.seen ctx.new)
        (quoted "java resource " (block (each_of (world_of (B.at below).refers) (itself Step.done)
        (map tree_of_resource_name resources.now) sc) done)) }
{
    ctx.text("java resource ");
    each_resource(below, resources, ctx);
}

/// A special name, its level entered.
fn special_name_steps<'subs, W: DemangleWrite, B: Below<'subs, W>>(
    below: B,
    node: &'subs SpecialName,
    scope: Option<ArgScopeStack<'_, 'subs>>,
    ctx: &mut DemangleContext<'subs, '_, W>,
)
    requires { B.can below }
    ensures { Line (B.at below) (page W.seen ctx.old) (page W.seen ctx.new) (tree_of_special_name node.now)
        (scope_of scope.entry) }
{
    match node {
        SpecialName::VirtualTable(class) => virtual_table(below, class, scope, ctx),
        SpecialName::Vtt(class) => vtt(below, class, scope, ctx),
        SpecialName::Typeinfo(class) => of_type(below, "typeinfo for ", class, scope, ctx),
        SpecialName::TypeinfoName(class) => of_type(below, "typeinfo name for ", class, scope, ctx),
        SpecialName::TypeinfoFunction(ty) => of_type(below, "typeinfo fn for ", ty, scope, ctx),
        SpecialName::VirtualOverrideThunk(this, base) => thunk(below, this, base, scope, ctx),
        SpecialName::VirtualOverrideThunkCovariant(this, returned, base) => {
            covariant_thunk(below, this, returned, base, scope, ctx);
        }
        SpecialName::Guard(name) => of_name(below, "guard variable for ", name, scope, ctx),
        SpecialName::GuardTemporary(name, index) => temporary(below, name, *index, scope, ctx),
        SpecialName::ConstructionVtable(derived, _, base) => {
            construction_vtable(below, derived, base, scope, ctx);
        }
        SpecialName::TlsInit(name) => of_name(below, "TLS init function for ", name, scope, ctx),
        SpecialName::TlsWrapper(name) => {
            of_name(below, "TLS wrapper function for ", name, scope, ctx);
        }
        SpecialName::JavaResource(resources) => java_resource(below, resources.as_slice(), ctx),
        SpecialName::TransactionClone(encoding) => {
            of_encoding(below, "transaction clone for ", encoding, scope, ctx);
        }
        SpecialName::NonTransactionClone(encoding) => {
            of_encoding(below, "non-transaction clone for ", encoding, scope, ctx);
        }
    }
}

/// What the compiler makes besides functions and variables.
pub fn special_name<'subs, W: DemangleWrite, B: Below<'subs, W>>(
    below: B,
    node: &'subs SpecialName,
    scope: Option<ArgScopeStack<'_, 'subs>>,
    ctx: &mut DemangleContext<'subs, '_, W>,
)
    requires { B.can below }
    ensures { Prints (B.at below) (page W.seen ctx.old) (page W.seen ctx.new) (tree_of_special_name node.now)
        (scope_of scope.entry) }
{
    let Some(below) = below.enter(ctx) else {
        return;
    };
    special_name_steps(below, node, scope, ctx);
}
