//! All lines, at a place.

ghost use Rattle.demangle_print.specs.Demangled.{Begun};
ghost use Rattle.demangle_print_below.specs.PageOf.{page};
ghost use Rattle.demangle_print_below.specs.PlaceOf.{place_of};

use crate::printing::{print_named, print_part};
use crate::tied::{Named, Part};
use demangle_print_below::{Below, Depth};
use demangle_printing::prints_declared;
use demangle_scope::{ArgScopeStack, DemangleContext, DemangleWrite, InnerItem};
use demangle_tree::{
    Encoding, Expression, MangledName, Name, Substitutable, SubstitutionTable, TemplateArg,
};

/// What lies below a line: all lines, at a place.
#[derive(Clone, Copy)]
pub(crate) struct Printer<'subs> {
    depth: Depth<'subs>,
}

/// Begins to print at the level of a context, and forgets an earlier trouble.
pub(crate) fn begin<'subs, W: DemangleWrite>(
    ctx: &mut DemangleContext<'subs, '_, W>,
) -> Printer<'subs>
    ensures { Begun (page W.seen ctx.old) (page W.seen ctx.new) (place_of result.depth) }
{
    // For the contract: the law on declarators, and that a level is left.
    prints_declared();
    ctx.start();
    let _level = ctx.recursion_level();
    Printer {
        depth: Depth::of(ctx),
    }
}

impl<'subs, W: DemangleWrite> Below<'subs, W> for Printer<'subs> {
    ghost at = { λ s. place_of s.depth };

    ghost can = { λ s. Unit {0} };

    fn level(self) -> u32 {
        self.depth.level()
    }

    fn subs(self) -> &'subs SubstitutionTable {
        self.depth.subs()
    }

    fn input(self) -> &'subs [u8] {
        self.depth.input()
    }

    fn enter(self, ctx: &mut DemangleContext<'subs, '_, W>) -> Option<Printer<'subs>> {
        match self.depth.enter(ctx) {
            None => None,
            Some(depth) => Some(Printer { depth }),
        }
    }

    fn mangled_name(
        self,
        node: &'subs MangledName,
        scope: Option<ArgScopeStack<'_, 'subs>>,
        ctx: &mut DemangleContext<'subs, '_, W>,
    ) {
        print_named(Named::MangledName(node), scope, ctx, self.depth);
    }

    fn encoding(
        self,
        node: &'subs Encoding,
        scope: Option<ArgScopeStack<'_, 'subs>>,
        ctx: &mut DemangleContext<'subs, '_, W>,
    ) {
        print_named(Named::Encoding(node), scope, ctx, self.depth);
    }

    fn name(
        self,
        node: &'subs Name,
        scope: Option<ArgScopeStack<'_, 'subs>>,
        ctx: &mut DemangleContext<'subs, '_, W>,
    ) {
        print_named(Named::Name(node), scope, ctx, self.depth);
    }

    fn expression(
        self,
        node: &'subs Expression,
        scope: Option<ArgScopeStack<'_, 'subs>>,
        ctx: &mut DemangleContext<'subs, '_, W>,
    ) {
        print_part(Part::Expression(node), scope, ctx, self.depth);
    }

    fn template_arg(
        self,
        node: &'subs TemplateArg,
        scope: Option<ArgScopeStack<'_, 'subs>>,
        ctx: &mut DemangleContext<'subs, '_, W>,
    ) {
        print_part(Part::TemplateArg(node), scope, ctx, self.depth);
    }

    fn substitutable(
        self,
        node: &'subs Substitutable,
        scope: Option<ArgScopeStack<'_, 'subs>>,
        ctx: &mut DemangleContext<'subs, '_, W>,
    ) {
        print_part(Part::Substitutable(node), scope, ctx, self.depth);
    }

    fn inner(
        self,
        item: InnerItem<'subs>,
        scope: Option<ArgScopeStack<'_, 'subs>>,
        ctx: &mut DemangleContext<'subs, '_, W>,
    ) {
        print_part(Part::Inner(item), scope, ctx, self.depth);
    }
}
