//! Names in a function.

ghost use Rattle.std.specs.Prelude.{Some};
ghost use Rattle.demangle_core.specs.Core.{Core, Tag, node};
ghost use Rattle.demangle_leaf_nodes.specs.TreeLeaves.{tree_of_option};
ghost use Rattle.demangle_nodes.specs.TreeNodes.{boxed_name, parts_of_encoding, tag_of_encoding};
ghost use Rattle.demangle_nodes.specs.TreeNodes.{tree_of_encoding, tree_of_local_name};
ghost use Rattle.demangle_printing.specs.Act.{block, done, with_params};
ghost use Rattle.demangle_printing.specs.Lines.Names.{in_local};
ghost use Rattle.demangle_printing.specs.Reader.{run};
ghost use Rattle.demangle_printing.specs.Rules.{line_of};
ghost use Rattle.demangle_meets.specs.Meets.{Meets, Prints};
ghost use Rattle.demangle_meets.specs.Place.{world_of};
ghost use Rattle.demangle_scope.specs.ScopeOf.{scope_of};
ghost use Rattle.demangle_print_below.specs.PageOf.{page};
ghost use Rattle.demangle_print_parts.specs.Pieces.{row};

use demangle_print_below::Below;
use demangle_scope::{ArgScopeStack, DemangleContext, DemangleWrite, PrintFlag};
use demangle_tree::{Encoding, LocalName, Name};

/// A name in a function, or a string literal of it.
fn in_local<'subs, W: DemangleWrite, B: Below<'subs, W>>(
    below: B,
    name: &'subs Option<Box<Name>>,
    scope: Option<ArgScopeStack<'_, 'subs>>,
    ctx: &mut DemangleContext<'subs, '_, W>,
)
    requires { B.can below }
    ensures { (t : Tag) (c : Core) → Meets (B.at below) (page W.seen ctx.old) (page W.seen ctx.new)
        (run (world_of (B.at below).refers) (Some (row (node t c (tree_of_option boxed_name name.now))))
        (scope_of scope.entry) in_local) }
{
    match name {
        Some(name) => {
            ctx.text("::");
            below.name(name, scope, ctx);
        }
        None => ctx.text("::string literal"),
    }
}

/// The function, with its parameters, and what is in it.
fn relative<'subs, W: DemangleWrite, B: Below<'subs, W>>(
    below: B,
    encoding: &'subs Encoding,
    name: &'subs Option<Box<Name>>,
    scope: Option<ArgScopeStack<'_, 'subs>>,
    ctx: &mut DemangleContext<'subs, '_, W>,
)
    requires { B.can below }
    ensures { Meets (B.at below) (page W.seen ctx.old) (page W.seen ctx.new)
        (with_params (block (line_of (world_of (B.at below).refers) (Some (tree_of_encoding encoding.now))
        (scope_of scope.entry)) (block (run (world_of (B.at below).refers)
        (Some (row (node (tag_of_encoding encoding.now) (parts_of_encoding encoding.now)
        (tree_of_option boxed_name name.now)))) (scope_of scope.entry) in_local) done)) done) }
{
    let are_shown = ctx.is_on(PrintFlag::Params);
    ctx.turn(PrintFlag::Params, true);
    below.encoding(encoding, scope, ctx);
    in_local(below, name, scope, ctx);
    ctx.turn(PrintFlag::Params, are_shown);
}

/// The function, with its parameters.
fn in_default<'subs, W: DemangleWrite, B: Below<'subs, W>>(
    below: B,
    encoding: &'subs Encoding,
    scope: Option<ArgScopeStack<'_, 'subs>>,
    ctx: &mut DemangleContext<'subs, '_, W>,
)
    requires { B.can below }
    ensures { Meets (B.at below) (page W.seen ctx.old) (page W.seen ctx.new)
        (with_params (block (line_of (world_of (B.at below).refers) (Some (tree_of_encoding encoding.now))
        (scope_of scope.entry)) done) done) }
{
    let are_shown = ctx.is_on(PrintFlag::Params);
    ctx.turn(PrintFlag::Params, true);
    below.encoding(encoding, scope, ctx);
    ctx.turn(PrintFlag::Params, are_shown);
}

/// `f()::x`. Of what stands in a default argument the function alone.
pub fn local_name<'subs, W: DemangleWrite, B: Below<'subs, W>>(
    below: B,
    node: &'subs LocalName,
    scope: Option<ArgScopeStack<'_, 'subs>>,
    ctx: &mut DemangleContext<'subs, '_, W>,
)
    requires { B.can below }
    ensures { Prints (B.at below) (page W.seen ctx.old) (page W.seen ctx.new) (tree_of_local_name node.now)
        (scope_of scope.entry) }
{
    let Some(below) = below.enter(ctx) else {
        return;
    };
    match node {
        LocalName::Relative(encoding, name, _) => relative(below, encoding, name, scope, ctx),
        LocalName::Default(encoding, _, _) => in_default(below, encoding, scope, ctx),
    }
}
