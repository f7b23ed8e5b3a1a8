//! The functions through which all recursion goes: each enters a level, and the lines below call them again, one level
//! deeper.

ghost use Rattle.demangle_scope.specs.ScopeOf.{scope_of};
ghost use Rattle.demangle_print_below.specs.PageOf.{page};
ghost use Rattle.demangle_print_below.specs.PlaceOf.{place_of};
ghost use Rattle.demangle_print.specs.MayPrint.{DoesNamed, DoesPart};

use crate::tied::{Named, Part, Tied};
use demangle_print_below::Depth;
use demangle_print_components::{expression_steps, substitutable_steps};
use demangle_print_inner::inner_steps;
use demangle_print_names::{encoding_steps, mangled_name_steps, name_steps};
use demangle_print_primaries::template_arg_steps;
use demangle_scope::{ArgScopeStack, DemangleContext, DemangleWrite};

/// The line of a name.
#[cycle(printing)]
pub(crate) fn print_named<'subs, W: DemangleWrite>(
    named: Named<'subs>,
    scope: Option<ArgScopeStack<'_, 'subs>>,
    ctx: &mut DemangleContext<'subs, '_, W>,
    depth: Depth<'subs>,
)
    ensures { DoesNamed (place_of depth.entry) (page W.seen ctx.old) (page W.seen ctx.new) named.entry
        (scope_of scope.entry) }
{
    let Some(depth) = depth.enter(ctx) else {
        return;
    };
    let below = Tied {
        depth,
        named: print_named,
        part: print_part,
    };
    match named {
        Named::MangledName(node) => mangled_name_steps(below, node, scope, ctx),
        Named::Encoding(node) => encoding_steps(below, node, scope, ctx),
        Named::Name(node) => name_steps(below, node, scope, ctx),
    }
}

/// The line of another node, or what of an item stands behind.
#[cycle(printing)]
pub(crate) fn print_part<'subs, W: DemangleWrite>(
    part: Part<'subs>,
    scope: Option<ArgScopeStack<'_, 'subs>>,
    ctx: &mut DemangleContext<'subs, '_, W>,
    depth: Depth<'subs>,
)
    ensures { DoesPart (place_of depth.entry) (page W.seen ctx.old) (page W.seen ctx.new) part.entry
        (scope_of scope.entry) }
{
    let Some(depth) = depth.enter(ctx) else {
        return;
    };
    let below = Tied {
        depth,
        named: print_named,
        part: print_part,
    };
    match part {
        Part::Expression(node) => expression_steps(below, node, scope, ctx),
        Part::TemplateArg(node) => template_arg_steps(below, node, scope, ctx),
        Part::Substitutable(node) => substitutable_steps(below, node, scope, ctx),
        Part::Inner(item) => inner_steps(below, item, scope, ctx),
    }
}
