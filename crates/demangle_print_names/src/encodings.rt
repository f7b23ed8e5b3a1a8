//! Encodings.

ghost use Rattle.std.specs.Prelude.{◌≡◌, ◌&&◌, ◌∷◌, [], Some, is_some, not};
ghost use Rattle.demangle_core.specs.Lookups.{as_prefix, is_special, template_args};
ghost use Rattle.demangle_table.specs.TableOf.{table_of};
ghost use Rattle.demangle_leaf_nodes.specs.TreeLeaves.{tree_of_bare_function_type};
ghost use Rattle.demangle_nodes.specs.TreeNodes.{tree_of_encoding, tree_of_name};
ghost use Rattle.demangle_nodes.specs.declared.nodes.Encoding.TheVariants.{Function};
ghost use Rattle.demangle_printing.specs.Lines.Functions.{in_function, in_leaf_scope, name_and_parameters};
ghost use Rattle.demangle_printing.specs.Reader.{run};
ghost use Rattle.demangle_printing.specs.Rules.{leaf_name_of, line_of};
ghost use Rattle.demangle_printing.specs.Scope.{with_leaf};
ghost use Rattle.demangle_printing.specs.World.{find};
ghost use Rattle.demangle_meets.specs.Meets.{Line, Meets};
ghost use Rattle.demangle_meets.specs.Place.{world_of};
ghost use Rattle.demangle_scope.specs.ScopeOf.{scope_of};
ghost use Rattle.demangle_print_below.specs.PageOf.{page};
ghost use Rattle.demangle_print_unqualified.specs.Pieces.{result_shown};

use demangle_print_below::{Below, close};
use demangle_print_parts::type_handle;
use demangle_print_special::special_name;
use demangle_print_unqualified::leaf_item;
use demangle_scope::{
    ArgScopeStack, DemangleContext, DemangleWrite, InnerItem, PrintFlag, ScopeItem, scope_push,
};
use demangle_tree::{
    BareFunctionType, Encoding, GetLeafName, GetTemplateArgs, IsCtorDtorConversion, Name,
    SubstitutionTable,
};

/// Whether the result of a function is printed: that of a template is, where results are shown, unless it is a
/// constructor, a destructor or a conversion.
fn has_result(name: &Name, subs: &SubstitutionTable, are_shown: bool) -> bool
    ensures { result ≡ (is_some (template_args as_prefix (table_of subs.now) (tree_of_name name.now)) &&
        (are_shown && not (is_special (table_of subs.now) (tree_of_name name.now)))) }
{
    match name.get_template_args(subs) {
        None => false,
        Some(_) => {
            if are_shown {
                !name.is_ctor_dtor_conversion(subs)
            } else {
                false
            }
        }
    }
}

/// The first of the types, where there is one.
fn first_type<'subs, W: DemangleWrite, B: Below<'subs, W>>(
    below: B,
    types: &'subs BareFunctionType,
    scope: Option<ArgScopeStack<'_, 'subs>>,
    ctx: &mut DemangleContext<'subs, '_, W>,
)
    requires { B.can below }
    ensures { Meets (B.at below) (page W.seen ctx.old) (page W.seen ctx.new)
        (line_of (world_of (B.at below).refers)
        (find (world_of (B.at below).refers) (Some (tree_of_bare_function_type types.now)) (0 ∷ 0 ∷ []))
        (scope_of scope.entry)) }
{
    let Some((first, _)) = types.0.as_slice().split_first() else {
        return;
    };
    type_handle(below, first, scope, ctx);
}

/// The result of a function and a space, where the result is printed.
fn function_result<'subs, W: DemangleWrite, B: Below<'subs, W>>(
    below: B,
    node: &'subs Encoding,
    name: &'subs Name,
    types: &'subs BareFunctionType,
    scope: Option<ArgScopeStack<'_, 'subs>>,
    ctx: &mut DemangleContext<'subs, '_, W>,
)
    requires can { B.can below }
    requires is { node.now ≡ Function name.now types.now }
    ensures { Meets (B.at below) (page W.seen ctx.old) (page W.seen ctx.new)
        (run (world_of (B.at below).refers) (Some (tree_of_encoding node.now)) (scope_of scope.entry) result_shown) }
{
    let has_result = has_result(name, below.subs(), ctx.is_on(PrintFlag::Returns));
    if has_result {
        first_type(below, types, scope, ctx);
        ctx.text(" ");
    }
}

/// The name of a function, and behind it the parameters, where they are shown.
fn name_and_parameters<'subs, W: DemangleWrite, B: Below<'subs, W>>(
    below: B,
    node: &'subs Encoding,
    name: &'subs Name,
    types: &'subs BareFunctionType,
    scope: Option<ArgScopeStack<'_, 'subs>>,
    ctx: &mut DemangleContext<'subs, '_, W>,
)
    requires can { B.can below }
    requires is { node.now ≡ Function name.now types.now }
    ensures { Meets (B.at below) (page W.seen ctx.old) (page W.seen ctx.new)
        (run (world_of (B.at below).refers) (Some (tree_of_encoding node.now)) (scope_of scope.entry)
        name_and_parameters) }
{
    if ctx.is_on(PrintFlag::Params) {
        ctx.hold(InnerItem::Encoding(node), below.level());
        below.name(name, scope, ctx);
        close(below, InnerItem::Encoding(node), scope, ctx);
    } else {
        below.name(name, scope, ctx);
    }
}

/// The result, the name and the parameters of a function, in its scope.
fn in_function<'subs, W: DemangleWrite, B: Below<'subs, W>>(
    below: B,
    node: &'subs Encoding,
    name: &'subs Name,
    types: &'subs BareFunctionType,
    scope: Option<ArgScopeStack<'_, 'subs>>,
    ctx: &mut DemangleContext<'subs, '_, W>,
)
    requires can { B.can below }
    requires is { node.now ≡ Function name.now types.now }
    ensures { Meets (B.at below) (page W.seen ctx.old) (page W.seen ctx.new)
        (run (world_of (B.at below).refers) (Some (tree_of_encoding node.now)) (scope_of scope.entry) in_function) }
{
    function_result(below, node, name, types, scope, ctx);
    name_and_parameters(below, node, name, types, scope, ctx);
}

/// The result, the name and the parameters of a function, with the template arguments of its name in scope.
fn in_leaf_scope<'subs, W: DemangleWrite, B: Below<'subs, W>>(
    below: B,
    node: &'subs Encoding,
    name: &'subs Name,
    types: &'subs BareFunctionType,
    scope: Option<ArgScopeStack<'_, 'subs>>,
    ctx: &mut DemangleContext<'subs, '_, W>,
)
    requires can { B.can below }
    requires is { node.now ≡ Function name.now types.now }
    ensures { Meets (B.at below) (page W.seen ctx.old) (page W.seen ctx.new)
        (run (world_of (B.at below).refers) (Some (tree_of_encoding node.now)) (scope_of scope.entry) in_leaf_scope) }
{
    match name.get_template_args(below.subs()) {
        None => in_function(below, node, name, types, scope, ctx),
        Some(args) => {
            let inner = scope_push(&scope, ScopeItem::Args(args));
            in_function(below, node, name, types, inner, ctx);
        }
    }
}

/// The result, the name and the parameters of a function, with its leaf name and then its template arguments in scope.
fn with_its_leaf<'subs, W: DemangleWrite, B: Below<'subs, W>>(
    below: B,
    node: &'subs Encoding,
    name: &'subs Name,
    types: &'subs BareFunctionType,
    scope: Option<ArgScopeStack<'_, 'subs>>,
    ctx: &mut DemangleContext<'subs, '_, W>,
)
    requires can { B.can below }
    requires is { node.now ≡ Function name.now types.now }
    ensures { Meets (B.at below) (page W.seen ctx.old) (page W.seen ctx.new)
        (run (world_of (B.at below).refers) (Some (tree_of_encoding node.now))
        (with_leaf (leaf_name_of (world_of (B.at below).refers) (Some (tree_of_name name.now)))
        (scope_of scope.entry)) in_leaf_scope) }
{
    match name.get_leaf_name(below.subs()) {
        None => in_leaf_scope(below, node, name, types, scope, ctx),
        Some(leaf) => {
            let inner = scope_push(&scope, leaf_item(leaf));
            in_leaf_scope(below, node, name, types, inner, ctx);
        }
    }
}

/// A function.
fn function<'subs, W: DemangleWrite, B: Below<'subs, W>>(
    below: B,
    node: &'subs Encoding,
    name: &'subs Name,
    types: &'subs BareFunctionType,
    scope: Option<ArgScopeStack<'_, 'subs>>,
    ctx: &mut DemangleContext<'subs, '_, W>,
)
    requires can { B.can below }
    requires is { node.now ≡ Function name.now types.now }
    ensures { Line (B.at below) (page W.seen ctx.old) (page W.seen ctx.new) (tree_of_encoding node.now)
        (scope_of scope.entry) }
{
    let items = ctx.fence();
    with_its_leaf(below, node, name, types, scope, ctx);
    ctx.unfence(items);
}

/// An encoding, its level entered.
pub fn encoding_steps<'subs, W: DemangleWrite, B: Below<'subs, W>>(
    below: B,
    node: &'subs Encoding,
    scope: Option<ArgScopeStack<'_, 'subs>>,
    ctx: &mut DemangleContext<'subs, '_, W>,
)
    requires { B.can below }
    ensures { Line (B.at below) (page W.seen ctx.old) (page W.seen ctx.new) (tree_of_encoding node.now)
        (scope_of scope.entry) }
{
    match node {
        Encoding::Function(name, types) => function(below, node, name, types, scope, ctx),
        Encoding::Data(name) => {
            let items = ctx.fence();
            below.name(name, scope, ctx);
            ctx.unfence(items);
        }
        Encoding::Special(name) => {
            let items = ctx.fence();
            special_name(below, name, scope, ctx);
            ctx.unfence(items);
        }
    }
}
