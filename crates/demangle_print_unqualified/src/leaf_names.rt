//! Leaf names, and the constructors and destructors that bear them.

ghost use Rattle.std.specs.Prelude.{◌≡◌, Option, Some};
ghost use Rattle.demangle_core.specs.Core.{Core};
ghost use Rattle.demangle_vocab.specs.Components.{number_of_component};
ghost use Rattle.demangle_leaf_nodes.specs.TreeLeaves.{tree_of_ctor_dtor_name, tree_of_leaf_name, tree_of_option};
ghost use Rattle.demangle_leaf_nodes.specs.TreeLeaves.{tree_of_type_handle};
ghost use Rattle.demangle_printing.specs.Lines.Names.{constructor, destructor};
ghost use Rattle.demangle_printing.specs.Reader.{found_leaf, run};
ghost use Rattle.demangle_printing.specs.Rules.{leaf_act, leaf_name_of, leaf_seen};
ghost use Rattle.demangle_printing.specs.Scope.{leaf};
ghost use Rattle.demangle_printing.specs.Step.{Step};
ghost use Rattle.demangle_printing.specs.Texts.{leaf_text};
ghost use Rattle.demangle_meets.specs.Meets.{Meets, Prints};
ghost use Rattle.demangle_meets.specs.Place.{world_of};
ghost use Rattle.demangle_scope.specs.ScopeOf.{meant_of, scope_of};
ghost use Rattle.demangle_print_below.specs.PageOf.{page};
ghost use Rattle.demangle_print_parts.specs.Pieces.{row};

use crate::unnamed::{closure_type_name, unnamed_leaf};
use demangle_print_below::Below;
use demangle_print_parts::source_name;
use demangle_scope::{
    ArgScopeStack, DemangleContext, DemangleWrite, PrintFault, ScopeItem, scope_leaf_name,
};
use demangle_tree::{CtorDtorName, GetLeafName, LeafName, TypeHandle};
use demangle_vocab::WellKnownComponent;

/// A leaf name as an entry of a scope.
pub fn leaf_item<'subs>(found: LeafName<'subs>) -> ScopeItem<'subs>
    ensures { meant_of result ≡ leaf (tree_of_leaf_name found.entry) }
{
    match found {
        LeafName::SourceName(name) => ScopeItem::SourceName(name),
        LeafName::WellKnownComponent(component) => ScopeItem::WellKnown(component),
        LeafName::Closure(name) => ScopeItem::Closure(name),
        LeafName::UnnamedType(name) => ScopeItem::Unnamed(name),
    }
}

/// The name that a constructor of a component has; `std` has none.
pub fn component_leaf(component: &WellKnownComponent) -> &'static str
    ensures { result.now ≡ leaf_text (number_of_component component.now) }
{
    match component {
        WellKnownComponent::Std => "",
        _ => component.leaf_text(),
    }
}

/// A leaf name: a source name and a closure by their lines, with nothing in scope.
pub fn leaf_name<'subs, W: DemangleWrite, B: Below<'subs, W>>(
    below: B,
    leaf: LeafName<'subs>,
    ctx: &mut DemangleContext<'subs, '_, W>,
)
    requires { B.can below }
    ensures { Meets (B.at below) (page W.seen ctx.old) (page W.seen ctx.new)
        (leaf_seen (world_of (B.at below).refers) (tree_of_leaf_name leaf.entry)
        ((world_of (B.at below).refers).look (tree_of_leaf_name leaf.entry))) }
{
    match leaf {
        LeafName::SourceName(name) => source_name(below, name, ctx),
        LeafName::WellKnownComponent(component) => ctx.text(component_leaf(component)),
        LeafName::Closure(name) => closure_type_name(below, name, None, ctx),
        LeafName::UnnamedType(name) => unnamed_leaf(below, name, ctx),
    }
}

/// The leaf name of the class that a constructor is inherited from.
fn inherited_leaf<'subs, W: DemangleWrite, B: Below<'subs, W>>(
    below: B,
    handle: &'subs TypeHandle,
    ctx: &mut DemangleContext<'subs, '_, W>,
)
    requires { B.can below }
    ensures { Meets (B.at below) (page W.seen ctx.old) (page W.seen ctx.new)
        (leaf_act (world_of (B.at below).refers)
        (found_leaf (world_of (B.at below).refers)
        (leaf_name_of (world_of (B.at below).refers) (Some (tree_of_type_handle handle.now))))) }
{
    match handle.get_leaf_name(below.subs()) {
        None => ctx.fail(PrintFault::BadLeafNameReference),
        Some(leaf) => leaf_name(below, leaf, ctx),
    }
}

/// A constructor: the leaf name in scope, which must be there, or that of the class that it is inherited from.
fn constructor<'subs, W: DemangleWrite, B: Below<'subs, W>>(
    below: B,
    inherited: &'subs Option<TypeHandle>,
    scope: Option<ArgScopeStack<'_, 'subs>>,
    ctx: &mut DemangleContext<'subs, '_, W>,
)
    requires { B.can below }
    ensures { Meets (B.at below) (page W.seen ctx.old) (page W.seen ctx.new)
        (run (world_of (B.at below).refers) (Some (row (tree_of_option tree_of_type_handle inherited.now)))
        (scope_of scope.entry) (constructor Step.done)) }
{
    match scope_leaf_name(&scope) {
        Err(error) => ctx.fail_reference(error),
        Ok(leaf) => match inherited {
            None => leaf_name(below, leaf, ctx),
            Some(handle) => inherited_leaf(below, handle, ctx),
        },
    }
}

/// A destructor: `~`, and the leaf name in scope, which must be there.
fn destructor<'subs, W: DemangleWrite, B: Below<'subs, W>>(
    below: B,
    scope: Option<ArgScopeStack<'_, 'subs>>,
    ctx: &mut DemangleContext<'subs, '_, W>,
)
    requires { B.can below }
    ensures { (x : Option Core) → Meets (B.at below) (page W.seen ctx.old) (page W.seen ctx.new)
        (run (world_of (B.at below).refers) x (scope_of scope.entry) (destructor Step.done)) }
{
    match scope_leaf_name(&scope) {
        Err(error) => ctx.fail_reference(error),
        Ok(leaf) => {
            ctx.text("~");
            leaf_name(below, leaf, ctx);
        }
    }
}

/// A constructor or destructor, by the leaf name of its class.
pub fn ctor_dtor_name<'subs, W: DemangleWrite, B: Below<'subs, W>>(
    below: B,
    node: &'subs CtorDtorName,
    scope: Option<ArgScopeStack<'_, 'subs>>,
    ctx: &mut DemangleContext<'subs, '_, W>,
)
    requires { B.can below }
    ensures { Prints (B.at below) (page W.seen ctx.old) (page W.seen ctx.new) (tree_of_ctor_dtor_name node.now)
        (scope_of scope.entry) }
{
    let Some(below) = below.enter(ctx) else {
        return;
    };
    match node {
        CtorDtorName::CompleteConstructor(class) => constructor(below, class, scope, ctx),
        CtorDtorName::BaseConstructor(class) => constructor(below, class, scope, ctx),
        CtorDtorName::CompleteAllocatingConstructor(class) => {
            constructor(below, class, scope, ctx);
        }
        CtorDtorName::MaybeInChargeConstructor(class) => constructor(below, class, scope, ctx),
        CtorDtorName::DeletingDestructor => destructor(below, scope, ctx),
        CtorDtorName::CompleteDestructor => destructor(below, scope, ctx),
        CtorDtorName::BaseDestructor => destructor(below, scope, ctx),
        CtorDtorName::MaybeInChargeDestructor => destructor(below, scope, ctx),
    }
}
