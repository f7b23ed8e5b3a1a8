//! What runs the constructors or destructors of a file's variables.

ghost use Rattle.std.specs.Prelude.{Some};
ghost use Rattle.demangle_nodes.specs.TreeNodes.{tree_of_global_ctor_dtor, tree_of_mangled_name};
ghost use Rattle.demangle_printing.specs.Act.{block, done, fence, text, with_params};
ghost use Rattle.demangle_printing.specs.Rules.{line_of};
ghost use Rattle.demangle_meets.specs.Meets.{Meets, Prints};
ghost use Rattle.demangle_meets.specs.Place.{world_of};
ghost use Rattle.demangle_scope.specs.ScopeOf.{scope_of};
ghost use Rattle.demangle_print_below.specs.PageOf.{page};

use demangle_print_below::Below;
use demangle_scope::{ArgScopeStack, DemangleContext, DemangleWrite, PrintFlag};
use demangle_tree::{GlobalCtorDtor, MangledName};

/// The name that the file is known by, with its parameters, behind a text.
fn keyed_to<'subs, W: DemangleWrite, B: Below<'subs, W>>(
    below: B,
    word: &str,
    name: &'subs MangledName,
    scope: Option<ArgScopeStack<'_, 'subs>>,
    ctx: &mut DemangleContext<'subs, '_, W>,
)
    requires { B.can below }
    ensures { Meets (B.at below) (page W.seen ctx.old) (page W.seen ctx.new)
        (fence (with_params (text word.now (block
        (line_of (world_of (B.at below).refers) (Some (tree_of_mangled_name name.now)) (scope_of scope.entry)) done))
        done) done) }
{
    let items = ctx.fence();
    let are_shown = ctx.is_on(PrintFlag::Params);
    ctx.turn(PrintFlag::Params, true);
    ctx.text(word);
    below.mangled_name(name, scope, ctx);
    ctx.turn(PrintFlag::Params, are_shown);
    ctx.unfence(items);
}

/// `global constructors keyed to f()`.
pub fn global_ctor_dtor<'subs, W: DemangleWrite, B: Below<'subs, W>>(
    below: B,
    node: &'subs GlobalCtorDtor,
    scope: Option<ArgScopeStack<'_, 'subs>>,
    ctx: &mut DemangleContext<'subs, '_, W>,
)
    requires { B.can below }
    ensures { Prints (B.at below) (page W.seen ctx.old) (page W.seen ctx.new) (tree_of_global_ctor_dtor node.now)
        (scope_of scope.entry) }
{
    let Some(below) = below.enter(ctx) else {
        return;
    };
    match node {
        GlobalCtorDtor::Ctor(name) => {
            keyed_to(below, "global constructors keyed to ", name, scope, ctx);
        }
        GlobalCtorDtor::Dtor(name) => {
            keyed_to(below, "global destructors keyed to ", name, scope, ctx);
        }
    }
}
