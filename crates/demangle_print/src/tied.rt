//! What lies below a line, made of one function.

ghost use Rattle.demangle_print_below.specs.PlaceOf.{place_of};
ghost use Rattle.demangle_print.specs.MayPrint.{DoesNamed, DoesPart, MayPrint};

use demangle_print_below::{Below, Depth};
use demangle_scope::{ArgScopeStack, DemangleContext, DemangleWrite, InnerItem};
use demangle_tree::{
    Encoding, Expression, MangledName, Name, Substitutable, SubstitutionTable, TemplateArg,
};

/// A name through whose line recursion goes.
#[derive(Clone, Copy)]
pub(crate) enum Named<'subs> {
    MangledName(&'subs MangledName),
    Encoding(&'subs Encoding),
    Name(&'subs Name),
}

/// Another node through whose line recursion goes, or an item of which a part stands behind. It stands apart from
/// names since one enum of all of them reaches too many fields.
#[derive(Clone, Copy)]
pub(crate) enum Part<'subs> {
    Expression(&'subs Expression),
    TemplateArg(&'subs TemplateArg),
    Substitutable(&'subs Substitutable),
    Inner(InnerItem<'subs>),
}

/// Functions for the lines through which recursion goes, and the place at which they are called. They are passed by
/// name, so that they may be called by lines of other crates, and under `FnOnce`, since they are copied with it: there
/// is one way then to call each, where `Fn` has three, each of which would be a member of that recursion.
#[derive(Clone, Copy)]
pub(crate) struct Tied<'subs, PrintNamed, PrintPart> {
    pub depth: Depth<'subs>,
    pub named: PrintNamed,
    pub part: PrintPart,
}

impl<'subs, W, PrintNamed, PrintPart> Below<'subs, W> for Tied<'subs, PrintNamed, PrintPart>
where
    W: DemangleWrite,
    PrintNamed: for<'prev, 'w> FnOnce(
        Named<'subs>,
        Option<ArgScopeStack<'prev, 'subs>>,
        &mut DemangleContext<'subs, 'w, W>,
        Depth<'subs>,
    )
        + Copy,
    PrintPart: for<'prev, 'w> FnOnce(
        Part<'subs>,
        Option<ArgScopeStack<'prev, 'subs>>,
        &mut DemangleContext<'subs, 'w, W>,
        Depth<'subs>,
    )
        + Copy,
{
    ghost at = { λ s. place_of s.depth };

    ghost can = { λ s.
        MayPrint W.seen DoesNamed (PrintNamed.pre s.named) (PrintNamed.post s.named) (place_of s.depth).left
        × MayPrint W.seen DoesPart (PrintPart.pre s.part) (PrintPart.post s.part) (place_of s.depth).left };

    fn level(self) -> u32 {
        self.depth.level()
    }

    fn subs(self) -> &'subs SubstitutionTable {
        self.depth.subs()
    }

    fn input(self) -> &'subs [u8] {
        self.depth.input()
    }

    fn enter(
        self,
        ctx: &mut DemangleContext<'subs, '_, W>,
    ) -> Option<Tied<'subs, PrintNamed, PrintPart>> {
        match self.depth.enter(ctx) {
            None => None,
            Some(depth) => Some(Tied {
                depth,
                named: self.named,
                part: self.part,
            }),
        }
    }

    fn mangled_name(
        self,
        node: &'subs MangledName,
        scope: Option<ArgScopeStack<'_, 'subs>>,
        ctx: &mut DemangleContext<'subs, '_, W>,
    ) {
        (self.named)(Named::MangledName(node), scope, ctx, self.depth);
    }

    fn encoding(
        self,
        node: &'subs Encoding,
        scope: Option<ArgScopeStack<'_, 'subs>>,
        ctx: &mut DemangleContext<'subs, '_, W>,
    ) {
        (self.named)(Named::Encoding(node), scope, ctx, self.depth);
    }

    fn name(
        self,
        node: &'subs Name,
        scope: Option<ArgScopeStack<'_, 'subs>>,
        ctx: &mut DemangleContext<'subs, '_, W>,
    ) {
        (self.named)(Named::Name(node), scope, ctx, self.depth);
    }

    fn expression(
        self,
        node: &'subs Expression,
        scope: Option<ArgScopeStack<'_, 'subs>>,
        ctx: &mut DemangleContext<'subs, '_, W>,
    ) {
        (self.part)(Part::Expression(node), scope, ctx, self.depth);
    }

    fn template_arg(
        self,
        node: &'subs TemplateArg,
        scope: Option<ArgScopeStack<'_, 'subs>>,
        ctx: &mut DemangleContext<'subs, '_, W>,
    ) {
        (self.part)(Part::TemplateArg(node), scope, ctx, self.depth);
    }

    fn substitutable(
        self,
        node: &'subs Substitutable,
        scope: Option<ArgScopeStack<'_, 'subs>>,
        ctx: &mut DemangleContext<'subs, '_, W>,
    ) {
        (self.part)(Part::Substitutable(node), scope, ctx, self.depth);
    }

    fn inner(
        self,
        item: InnerItem<'subs>,
        scope: Option<ArgScopeStack<'_, 'subs>>,
        ctx: &mut DemangleContext<'subs, '_, W>,
    ) {
        (self.part)(Part::Inner(item), scope, ctx, self.depth);
    }
}
