//! Names of operators.

ghost use Rattle.std.specs.Prelude.{◌≡◌, Some};
ghost use Rattle.demangle_core.specs.Core.{Core};
ghost use Rattle.demangle_core.specs.Lookups.{as_type};
ghost use Rattle.demangle_leaf_nodes.specs.TreeLeaves.{tree_of_operator_name, tree_of_simple_operator_name};
ghost use Rattle.demangle_leaf_nodes.specs.TreeLeaves.{tree_of_type_handle};
ghost use Rattle.demangle_printing.specs.Act.{done, space};
ghost use Rattle.demangle_printing.specs.Lines.Names.{is_word_operator};
ghost use Rattle.demangle_printing.specs.Reader.{chosen, holds};
ghost use Rattle.demangle_printing.specs.Rules.{args_of, line_of};
ghost use Rattle.demangle_printing.specs.Scope.{with_args};
ghost use Rattle.demangle_printing.specs.State.{State};
ghost use Rattle.demangle_meets.specs.Meets.{Meets, Prints};
ghost use Rattle.demangle_meets.specs.Place.{Place, Refers, world_of};
ghost use Rattle.demangle_scope.specs.ScopeOf.{scope_of};
ghost use Rattle.demangle_print_below.specs.PageOf.{page};
ghost use Rattle.demangle_print_parts.specs.Pieces.{conversion_of, row};

use crate::handles::type_handle;
use crate::identifiers::source_name;
use crate::texts::unsigned;
use crate::words::simple_operator_name;
use demangle_print_below::Below;
use demangle_scope::{ArgScopeStack, DemangleContext, DemangleWrite, ScopeItem, scope_push};
use demangle_tree::{GetTemplateArgs, OperatorName, TypeHandle};
use demangle_vocab::SimpleOperatorName;

/// Whether the operator is a word, which stands apart from `operator`: `new`, `new[]`, `delete` or `delete[]`.
fn is_word(word: &SimpleOperatorName) -> bool
    ensures { (r : Refers) (s : State Core) → result ≡ holds (world_of r)
        (Some (row (tree_of_simple_operator_name word.now))) is_word_operator s }
{
    match word {
        SimpleOperatorName::New
        | SimpleOperatorName::NewArray
        | SimpleOperatorName::Delete
        | SimpleOperatorName::DeleteArray => true,
        _ => false,
    }
}

/// A space before an operator that is a word.
fn space_before_word<'subs, W: DemangleWrite>(
    word: &SimpleOperatorName,
    ctx: &mut DemangleContext<'subs, '_, W>,
)
    ensures { (p : Place) (s : State Core) → Meets p (page W.seen ctx.old) (page W.seen ctx.new)
        (chosen (holds (world_of p.refers) (Some (row (tree_of_simple_operator_name word.now))) is_word_operator s)
        (space done) done) }
{
    if is_word(word) {
        ctx.space();
    }
}

/// The type of a conversion, with its own template arguments in scope.
fn type_in_its_scope<'subs, W: DemangleWrite, B: Below<'subs, W>>(
    below: B,
    handle: &'subs TypeHandle,
    scope: Option<ArgScopeStack<'_, 'subs>>,
    ctx: &mut DemangleContext<'subs, '_, W>,
)
    requires { B.can below }
    ensures { Meets (B.at below) (page W.seen ctx.old) (page W.seen ctx.new)
        (line_of (world_of (B.at below).refers) (Some (tree_of_type_handle handle.now))
        (with_args (args_of (world_of (B.at below).refers) as_type (Some (tree_of_type_handle handle.now)))
        (scope_of scope.entry))) }
{
    match handle.get_template_args(below.subs()) {
        None => type_handle(below, handle, scope, ctx),
        Some(args) => {
            let inner = scope_push(&scope, ScopeItem::Args(args));
            type_handle(below, handle, inner, ctx);
        }
    }
}

/// A conversion to a type, apart from the items that wait outside.
fn conversion<'subs, W: DemangleWrite, B: Below<'subs, W>>(
    below: B,
    handle: &'subs TypeHandle,
    scope: Option<ArgScopeStack<'_, 'subs>>,
    ctx: &mut DemangleContext<'subs, '_, W>,
)
    requires { B.can below }
    ensures { Meets (B.at below) (page W.seen ctx.old) (page W.seen ctx.new)
        (conversion_of (world_of (B.at below).refers) (tree_of_type_handle handle.now) (scope_of scope.entry)) }
{
    let items = ctx.fence();
    ctx.space();
    type_in_its_scope(below, handle, scope, ctx);
    ctx.unfence(items);
}

/// The name of an operator, as it stands behind `operator`.
pub fn operator_name<'subs, W: DemangleWrite, B: Below<'subs, W>>(
    below: B,
    node: &'subs OperatorName,
    scope: Option<ArgScopeStack<'_, 'subs>>,
    ctx: &mut DemangleContext<'subs, '_, W>,
)
    requires { B.can below }
    ensures { Prints (B.at below) (page W.seen ctx.old) (page W.seen ctx.new) (tree_of_operator_name node.now)
        (scope_of scope.entry) }
{
    let Some(below) = below.enter(ctx) else {
        return;
    };
    match node {
        OperatorName::Simple(word) => {
            space_before_word(word, ctx);
            simple_operator_name(below, word, ctx);
        }
        OperatorName::Cast(handle) => conversion(below, handle, scope, ctx),
        OperatorName::Conversion(handle) => conversion(below, handle, scope, ctx),
        OperatorName::Literal(name) => {
            source_name(below, name, ctx);
            ctx.text("::operator \"\"");
        }
        OperatorName::VendorExtension(arity, name) => {
            source_name(below, name, ctx);
            ctx.text("::operator ");
            unsigned(*arity as usize, ctx);
        }
    }
}
