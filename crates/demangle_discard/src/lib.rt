//! What a reader or a copy drops. Each node type that they drop stands here by name, so that its drop is proved in this
//! crate, and not again in every crate whose functions drop one, as the bound `Drop` would ask for. A node is dropped
//! by a call: at the end of a function its drop would be written out, with all variants of the nodes inside it.
#![tactic(auto)]

use demangle_entries::{
    AbiTags, BareFunctionType, BaseUnresolvedName, CloneSuffix, ClosureTypeName, Encoding,
    ExceptionSpec, Expression, Initializer, LambdaSig, MangledName, MemberName, Name, ResourceName,
    SpecialName, Substitutable, TemplateArg, TemplateArgs, TypeHandle, UnqualifiedName,
    UnresolvedQualifierLevel,
};

/// What was read or copied before a later part failed, or only to learn how long it is.
pub trait Discard: Sized {
    /// Drops it.
    fn discard(self);
}

/// Both.
impl<A: Discard, B: Discard> Discard for (A, B) {
    fn discard(self) {
        let (a, b) = self;
        a.discard();
        b.discard();
    }
}

/// What there is.
impl<X: Discard> Discard for Option<X> {
    fn discard(self) {
        match self {
            Some(x) => x.discard(),
            None => {}
        }
    }
}

/// What is in the box.
impl<X: Discard> Discard for Box<X> {
    fn discard(self) {
        Box::into_inner(self).discard();
    }
}

/// Each of the list.
impl<X: Discard> Discard for Vec<X> {
    fn discard(self) {
        let mut list = self;
        while let Some(x) = list.pop() {
            x.discard();
        }
        list.destroy_empty();
    }
}

impl Discard for AbiTags {
    fn discard(self) {
        drop(self);
    }
}

impl Discard for BareFunctionType {
    fn discard(self) {
        drop(self);
    }
}

impl Discard for BaseUnresolvedName {
    fn discard(self) {
        drop(self);
    }
}

impl Discard for CloneSuffix {
    fn discard(self) {
        drop(self);
    }
}

impl Discard for ClosureTypeName {
    fn discard(self) {
        drop(self);
    }
}

impl Discard for Encoding {
    fn discard(self) {
        drop(self);
    }
}

impl Discard for ExceptionSpec {
    fn discard(self) {
        drop(self);
    }
}

impl Discard for Expression {
    fn discard(self) {
        drop(self);
    }
}

impl Discard for Initializer {
    fn discard(self) {
        drop(self);
    }
}

impl Discard for LambdaSig {
    fn discard(self) {
        drop(self);
    }
}

impl Discard for MangledName {
    fn discard(self) {
        drop(self);
    }
}

impl Discard for MemberName {
    fn discard(self) {
        drop(self);
    }
}

impl Discard for Name {
    fn discard(self) {
        drop(self);
    }
}

impl Discard for ResourceName {
    fn discard(self) {}
}

impl Discard for SpecialName {
    fn discard(self) {
        drop(self);
    }
}

impl Discard for Substitutable {
    fn discard(self) {
        drop(self);
    }
}

impl Discard for TemplateArg {
    fn discard(self) {
        drop(self);
    }
}

impl Discard for TemplateArgs {
    fn discard(self) {
        drop(self);
    }
}

impl Discard for TypeHandle {
    fn discard(self) {}
}

impl Discard for UnqualifiedName {
    fn discard(self) {
        drop(self);
    }
}

impl Discard for UnresolvedQualifierLevel {
    fn discard(self) {
        drop(self);
    }
}
