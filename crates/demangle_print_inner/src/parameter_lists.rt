//! The parameters of a function, and what of its type stands around them.

ghost use Rattle.std.specs.Prelude.{◌≡◌, length, map};
ghost use Rattle.demangle_leaf_nodes.specs.TreeLeaves.{tree_of_type_handle};
ghost use Rattle.demangle_printing.specs.Act.{call, done};
ghost use Rattle.demangle_printing.specs.Act as job;
ghost use Rattle.demangle_printing.specs.Parameters.{explicit_object, is_kept, is_void, parameters_act};
ghost use Rattle.demangle_printing.specs.Parameters.{parameters_end};
ghost use Rattle.demangle_printing.specs.Rules.{inside_of};
ghost use Rattle.demangle_meets.specs.Meets.{Meets, Sifts};
ghost use Rattle.demangle_meets.specs.Place.{Place, Refers, world_of};
ghost use Rattle.demangle_scope.specs.ScopeOf.{scope_of};
ghost use Rattle.demangle_print_below.specs.PageOf.{page};
ghost use Rattle.demangle_print_inner.specs.Kinds.{is_kept_item, is_void_builtin, is_void_tree};

use crate::parentheses::{closing, opening, wanted};
use crate::waiting::all_waiting;
use demangle_print_below::Below;
use demangle_print_parts::{is_qualified, type_list};
use demangle_scope::{ArgScopeStack, DemangleContext, DemangleWrite, InnerItem, PrintFlag};
use demangle_tree::{BuiltinType, TypeHandle};
use demangle_vocab::StandardBuiltinType;

/// Whether an item is the type of a function that has qualifiers, which stand behind its parameters.
fn is_kept(item: InnerItem<'_>) -> bool
    ensures { (r : Refers) → result ≡ is_kept_item (world_of r) item.entry }
{
    match item {
        InnerItem::Function(function) => is_qualified(&function.cv_qualifiers),
        _ => false,
    }
}

/// Goes through all items that wait, from the top: keeps those that stand behind the parameters, and prints what of
/// each other one stands behind.
fn sift<'subs, W: DemangleWrite, B: Below<'subs, W>>(
    below: B,
    scope: Option<ArgScopeStack<'_, 'subs>>,
    ctx: &mut DemangleContext<'subs, '_, W>,
)
    requires { B.can below }
    ensures { Sifts (B.at below) (page W.seen ctx.old) (page W.seen ctx.new)
        (is_kept (world_of (B.at below).refers)) (inside_of (world_of (B.at below).refers) (scope_of scope.entry))
        (length (page W.seen ctx.old).inner) }
{
    for _turn in 0..ctx.waiting() {
        let Some(item) = ctx.item(0) else {
            return;
        };
        if is_kept(item) {
            ctx.keep();
            continue;
        }
        ctx.pop();
        below.inner(item, scope, ctx);
    }
}

fn is_void_builtin(node: &BuiltinType) -> bool
    ensures { result ≡ is_void_builtin node.now }
{
    match node {
        BuiltinType::Standard(word) => match word {
            StandardBuiltinType::Void => true,
            _ => false,
        },
        _ => false,
    }
}

/// Whether a type is just `void`: a component never is.
fn is_void_type<'subs, W: DemangleWrite, B: Below<'subs, W>>(below: B, node: &TypeHandle) -> bool
    ensures { result ≡ is_void_tree (world_of (B.at below).refers) (tree_of_type_handle node.now) }
{
    let subs = below.subs();
    match node {
        TypeHandle::Builtin(builtin) => is_void_builtin(builtin),
        TypeHandle::BackReference(idx) => match subs.get(*idx) {
            None => false,
            Some(_) => false,
        },
        _ => false,
    }
}

/// Whether the types are `void` alone.
fn is_void<'subs, W: DemangleWrite, B: Below<'subs, W>>(below: B, types: &[TypeHandle]) -> bool
    ensures { result ≡ is_void (world_of (B.at below).refers) (map tree_of_type_handle types.now) }
{
    match types {
        [ty] => is_void_type(below, ty),
        _ => false,
    }
}

/// `this` before the first parameter, where it is an explicit object parameter.
fn explicit_object<'subs, W: DemangleWrite>(ctx: &mut DemangleContext<'subs, '_, W>)
    ensures { (p : Place) → Meets p (page W.seen ctx.old) (page W.seen ctx.new)
        (explicit_object (world_of p.refers) (page W.seen ctx.old).flags.object) }
{
    if ctx.is_on(PrintFlag::Object) {
        ctx.text("this ");
        ctx.turn(PrintFlag::Object, false);
    }
}

/// The list of parameters, the closing parenthesis, and the items that were kept.
fn list_of_parameters<'subs, W: DemangleWrite, B: Below<'subs, W>>(
    below: B,
    types: &'subs [TypeHandle],
    scope: Option<ArgScopeStack<'_, 'subs>>,
    ctx: &mut DemangleContext<'subs, '_, W>,
)
    requires { B.can below }
    ensures { Meets (B.at below) (page W.seen ctx.old) (page W.seen ctx.new)
        (parameters_end (world_of (B.at below).refers)
        (is_void (world_of (B.at below).refers) (map tree_of_type_handle types.now))
        (map tree_of_type_handle types.now) (scope_of scope.entry)) }
{
    if is_void(below, types) {
        ctx.text(")");
        return;
    }
    explicit_object(ctx);
    let items = ctx.fence();
    type_list(below, types, scope, ctx);
    ctx.unfence(items);
    ctx.text(")");
    all_waiting(below, scope, ctx);
}

/// The parameters of a function behind what stands between them and its result, their level entered.
pub(crate) fn parameters_steps<'subs, W: DemangleWrite, B: Below<'subs, W>>(
    below: B,
    types: &'subs [TypeHandle],
    scope: Option<ArgScopeStack<'_, 'subs>>,
    ctx: &mut DemangleContext<'subs, '_, W>,
)
    requires { B.can below }
    ensures { Meets (B.at below) (page W.seen ctx.old) (page W.seen ctx.new)
        (parameters_act (world_of (B.at below).refers) (map tree_of_type_handle types.now) (scope_of scope.entry)) }
{
    let parentheses = wanted(ctx);
    opening(parentheses, ctx);
    let before = ctx.kept();
    sift(below, scope, ctx);
    ctx.unkeep(before);
    closing(parentheses, ctx);
    ctx.text("(");
    list_of_parameters(below, types, scope, ctx);
}

/// The parameters of a function of these types.
pub fn parameters<'subs, W: DemangleWrite, B: Below<'subs, W>>(
    below: B,
    types: &'subs [TypeHandle],
    scope: Option<ArgScopeStack<'_, 'subs>>,
    ctx: &mut DemangleContext<'subs, '_, W>,
)
    requires { B.can below }
    ensures { Meets (B.at below) (page W.seen ctx.old) (page W.seen ctx.new)
        (call (job.parameters (map tree_of_type_handle types.now)) (scope_of scope.entry) done) }
{
    let Some(below) = below.enter(ctx) else {
        return;
    };
    parameters_steps(below, types, scope, ctx);
}
