//! Copies and comparisons of nodes whose part has a type with a copy and a comparison of its own.

use demangle_copies::TryClone;
use demangle_discard::Discard;
use demangle_entries::{
    AbiTags, BareFunctionType, BaseUnresolvedName, CloneSuffix, ClosureTypeName, Encoding,
    ExceptionSpec, Expression, LambdaSig, MangledName, MemberName, Name, SpecialName,
    Substitutable, TemplateArg, TemplateArgs, TypeNode, UnqualifiedName, UnresolvedName,
    UnresolvedQualifierLevel,
};
use demangle_text::{Error, Result};
use std::alloc::Global;

/// A node, and its part.
pub trait Whole: TryClone + PartialEq {
    /// The node again, its part copied by the copy of the part's type.
    fn again(&self, alloc: Global) -> Result<Self> {
        self.try_clone(alloc)
    }

    /// Whether both are equal; where they have the same part and nothing beside it, by the comparison of its type.
    fn is_equal(&self, other: &Self) -> bool {
        self == other
    }
}

impl Whole for AbiTags {}

impl Whole for BareFunctionType {}

impl Whole for CloneSuffix {}

impl Whole for ClosureTypeName {}

impl Whole for Encoding {}

impl Whole for ExceptionSpec {}

impl Whole for LambdaSig {}

impl Whole for SpecialName {}

impl Whole for TemplateArg {}

impl Whole for TemplateArgs {}

impl Whole for UnqualifiedName {}

impl Whole for MangledName {
    fn again(&self, alloc: Global) -> Result<MangledName> {
        match self {
            MangledName::GlobalCtorDtor(part) => Ok(MangledName::GlobalCtorDtor(part.try_clone(
                alloc,
            )?)),
            _ => self.try_clone(alloc),
        }
    }
}

impl Whole for UnresolvedQualifierLevel {
    fn again(&self, alloc: Global) -> Result<UnresolvedQualifierLevel> {
        Ok(UnresolvedQualifierLevel(self.0.try_clone(alloc)?))
    }
}

impl Whole for Name {
    fn again(&self, alloc: Global) -> Result<Name> {
        match self {
            Name::Nested(part) => Ok(Name::Nested(part.try_clone(alloc)?)),
            Name::Unscoped(part) => Ok(Name::Unscoped(part.try_clone(alloc)?)),
            Name::Local(part) => Ok(Name::Local(part.try_clone(alloc)?)),
            _ => self.try_clone(alloc),
        }
    }

    fn is_equal(&self, other: &Name) -> bool {
        match (self, other) {
            (Name::Local(part), Name::Local(other)) => part == other,
            _ => self == other,
        }
    }
}

impl Whole for Expression {
    fn again(&self, alloc: Global) -> Result<Expression> {
        match self {
            Expression::Primary(part) => Ok(Expression::Primary(part.try_clone(alloc)?)),
            Expression::Subobject(part) => Ok(Expression::Subobject(part.try_clone(alloc)?)),
            Expression::Fold(part) => Ok(Expression::Fold(part.try_clone(alloc)?)),
            Expression::UnresolvedName(part) => Ok(Expression::UnresolvedName(unresolved_again(
                alloc, part,
            )?)),
            Expression::New(_, ty, Some(part)) => {
                let part = part.try_clone(alloc)?;
                Ok(Expression::New(Vec::new(alloc), *ty, Some(part)))
            }
            Expression::Member(_, part) => member_again(alloc, part.try_clone(alloc)?),
            _ => self.try_clone(alloc),
        }
    }

    fn is_equal(&self, other: &Expression) -> bool {
        match (self, other) {
            (Expression::UnresolvedName(part), Expression::UnresolvedName(other)) => part == other,
            _ => self == other,
        }
    }
}

fn unresolved_again(alloc: Global, name: &UnresolvedName) -> Result<UnresolvedName> {
    match name {
        UnresolvedName::Global(part) => Ok(UnresolvedName::Global(part.try_clone(alloc)?)),
        UnresolvedName::Name(BaseUnresolvedName::Destructor(part)) => Ok(UnresolvedName::Name(
            BaseUnresolvedName::Destructor(part.try_clone(alloc)?),
        )),
        _ => name.try_clone(alloc),
    }
}

/// The member of a `throw` without a value.
fn member_again(alloc: Global, part: MemberName) -> Result<Expression> {
    match Box::new(alloc, Expression::Rethrow) {
        Ok(object) => Ok(Expression::Member(object, part)),
        Err(refused) => {
            refused.value.discard();
            part.0.discard();
            Err(Error::OutOfMemory)
        }
    }
}

impl Whole for Substitutable {
    fn again(&self, alloc: Global) -> Result<Substitutable> {
        match self {
            Substitutable::UnscopedTemplateName(part) => Ok(Substitutable::UnscopedTemplateName(
                part.try_clone(alloc)?,
            )),
            Substitutable::TypeNode(part) => Ok(Substitutable::TypeNode(type_again(alloc, part)?)),
            Substitutable::UnresolvedType(part) => Ok(Substitutable::UnresolvedType(part.try_clone(
                alloc,
            )?)),
            Substitutable::Prefix(part) => Ok(Substitutable::Prefix(part.try_clone(alloc)?)),
            _ => self.try_clone(alloc),
        }
    }

    fn is_equal(&self, other: &Substitutable) -> bool {
        match (self, other) {
            (
                Substitutable::TypeNode(TypeNode::Array(part)),
                Substitutable::TypeNode(TypeNode::Array(other)),
            ) => part == other,
            (Substitutable::TypeNode(part), Substitutable::TypeNode(other)) => part == other,
            _ => self == other,
        }
    }
}

fn type_again(alloc: Global, node: &TypeNode) -> Result<TypeNode> {
    match node {
        TypeNode::Function(part) => Ok(TypeNode::Function(part.try_clone(alloc)?)),
        TypeNode::ClassEnum(part) => Ok(TypeNode::ClassEnum(part.try_clone(alloc)?)),
        TypeNode::Array(part) => Ok(TypeNode::Array(part.try_clone(alloc)?)),
        TypeNode::Vector(part) => Ok(TypeNode::Vector(part.try_clone(alloc)?)),
        TypeNode::Decltype(part) => Ok(TypeNode::Decltype(part.try_clone(alloc)?)),
        _ => node.try_clone(alloc),
    }
}
