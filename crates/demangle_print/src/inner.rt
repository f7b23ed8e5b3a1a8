//! What of nodes stands behind what is printed before it, and of which kind such a node is.

ghost use Rattle.std.specs.Prelude.{None, Some, false};
ghost use Rattle.demangle_scope.specs.ItemTree.{array_type_of, function_type_of, is_qualified_node, member_type_of};

use crate::demangle::DemangleAsInner;
use crate::printer::begin;
use demangle_print_below::Below;
use demangle_scope::{ArgScopeStack, DemangleContext, DemangleError, DemangleWrite, InnerItem};
use demangle_tree::{
    ArrayType, BareFunctionType, CvQualifiers, Encoding, FunctionType, PointerToMemberType,
    TypeNode, VectorType,
};

impl<'subs, W: 'subs + DemangleWrite> DemangleAsInner<'subs, W> for Encoding {
    ghost as_type = { λ x. None };

    ghost as_function_type = { λ x. None };

    ghost as_array_type = { λ x. None };

    ghost as_member_type = { λ x. None };

    ghost is_qualified_type = { λ x. false };

    fn demangle_as_inner<'prev>(
        &'subs self,
        ctx: &mut DemangleContext<'subs, '_, W>,
        scope: Option<ArgScopeStack<'prev, 'subs>>,
    ) -> Result<(), DemangleError> {
        let printer = begin(ctx);
        printer.inner(InnerItem::Encoding(self), scope, ctx);
        ctx.answer()
    }

    fn downcast_to_type(&self) -> Option<&TypeNode> {
        None
    }

    fn downcast_to_function_type(&self) -> Option<&FunctionType> {
        None
    }

    fn downcast_to_array_type(&self) -> Option<&ArrayType> {
        None
    }

    fn downcast_to_pointer_to_member(&self) -> Option<&PointerToMemberType> {
        None
    }

    fn is_qualified(&self) -> bool {
        false
    }
}

impl<'subs, W: 'subs + DemangleWrite> DemangleAsInner<'subs, W> for TypeNode {
    ghost as_type = { λ x. Some x };

    ghost as_function_type = { function_type_of };

    ghost as_array_type = { array_type_of };

    ghost as_member_type = { member_type_of };

    ghost is_qualified_type = { is_qualified_node };

    fn demangle_as_inner<'prev>(
        &'subs self,
        ctx: &mut DemangleContext<'subs, '_, W>,
        scope: Option<ArgScopeStack<'prev, 'subs>>,
    ) -> Result<(), DemangleError> {
        let printer = begin(ctx);
        printer.inner(InnerItem::Node(self), scope, ctx);
        ctx.answer()
    }

    fn downcast_to_type(&self) -> Option<&TypeNode> {
        Some(self)
    }

    fn downcast_to_function_type(&self) -> Option<&FunctionType> {
        match self {
            TypeNode::Function(function) => Some(function),
            _ => None,
        }
    }

    fn downcast_to_array_type(&self) -> Option<&ArrayType> {
        match self {
            TypeNode::Array(array) => Some(array),
            _ => None,
        }
    }

    fn downcast_to_pointer_to_member(&self) -> Option<&PointerToMemberType> {
        match self {
            TypeNode::PointerToMember(member) => Some(member),
            _ => None,
        }
    }

    fn is_qualified(&self) -> bool {
        match self {
            TypeNode::Qualified(_, _) => true,
            _ => false,
        }
    }
}

impl<'subs, W: 'subs + DemangleWrite> DemangleAsInner<'subs, W> for CvQualifiers {
    ghost as_type = { λ x. None };

    ghost as_function_type = { λ x. None };

    ghost as_array_type = { λ x. None };

    ghost as_member_type = { λ x. None };

    ghost is_qualified_type = { λ x. false };

    fn demangle_as_inner<'prev>(
        &'subs self,
        ctx: &mut DemangleContext<'subs, '_, W>,
        scope: Option<ArgScopeStack<'prev, 'subs>>,
    ) -> Result<(), DemangleError> {
        let printer = begin(ctx);
        printer.inner(InnerItem::Qualifiers(self), scope, ctx);
        ctx.answer()
    }

    fn downcast_to_type(&self) -> Option<&TypeNode> {
        None
    }

    fn downcast_to_function_type(&self) -> Option<&FunctionType> {
        None
    }

    fn downcast_to_array_type(&self) -> Option<&ArrayType> {
        None
    }

    fn downcast_to_pointer_to_member(&self) -> Option<&PointerToMemberType> {
        None
    }

    fn is_qualified(&self) -> bool {
        false
    }
}

impl<'subs, W: 'subs + DemangleWrite> DemangleAsInner<'subs, W> for FunctionType {
    ghost as_type = { λ x. None };

    ghost as_function_type = { λ x. Some x };

    ghost as_array_type = { λ x. None };

    ghost as_member_type = { λ x. None };

    ghost is_qualified_type = { λ x. false };

    fn demangle_as_inner<'prev>(
        &'subs self,
        ctx: &mut DemangleContext<'subs, '_, W>,
        scope: Option<ArgScopeStack<'prev, 'subs>>,
    ) -> Result<(), DemangleError> {
        let printer = begin(ctx);
        printer.inner(InnerItem::Function(self), scope, ctx);
        ctx.answer()
    }

    fn downcast_to_type(&self) -> Option<&TypeNode> {
        None
    }

    fn downcast_to_function_type(&self) -> Option<&FunctionType> {
        Some(self)
    }

    fn downcast_to_array_type(&self) -> Option<&ArrayType> {
        None
    }

    fn downcast_to_pointer_to_member(&self) -> Option<&PointerToMemberType> {
        None
    }

    fn is_qualified(&self) -> bool {
        false
    }
}

impl<'subs, W: 'subs + DemangleWrite> DemangleAsInner<'subs, W> for BareFunctionType {
    ghost as_type = { λ x. None };

    ghost as_function_type = { λ x. None };

    ghost as_array_type = { λ x. None };

    ghost as_member_type = { λ x. None };

    ghost is_qualified_type = { λ x. false };

    fn demangle_as_inner<'prev>(
        &'subs self,
        ctx: &mut DemangleContext<'subs, '_, W>,
        scope: Option<ArgScopeStack<'prev, 'subs>>,
    ) -> Result<(), DemangleError> {
        let printer = begin(ctx);
        printer.inner(InnerItem::Bare(self), scope, ctx);
        ctx.answer()
    }

    fn downcast_to_type(&self) -> Option<&TypeNode> {
        None
    }

    fn downcast_to_function_type(&self) -> Option<&FunctionType> {
        None
    }

    fn downcast_to_array_type(&self) -> Option<&ArrayType> {
        None
    }

    fn downcast_to_pointer_to_member(&self) -> Option<&PointerToMemberType> {
        None
    }

    fn is_qualified(&self) -> bool {
        false
    }
}

impl<'subs, W: 'subs + DemangleWrite> DemangleAsInner<'subs, W> for ArrayType {
    ghost as_type = { λ x. None };

    ghost as_function_type = { λ x. None };

    ghost as_array_type = { λ x. Some x };

    ghost as_member_type = { λ x. None };

    ghost is_qualified_type = { λ x. false };

    fn demangle_as_inner<'prev>(
        &'subs self,
        ctx: &mut DemangleContext<'subs, '_, W>,
        scope: Option<ArgScopeStack<'prev, 'subs>>,
    ) -> Result<(), DemangleError> {
        let printer = begin(ctx);
        printer.inner(InnerItem::Array(self), scope, ctx);
        ctx.answer()
    }

    fn downcast_to_type(&self) -> Option<&TypeNode> {
        None
    }

    fn downcast_to_function_type(&self) -> Option<&FunctionType> {
        None
    }

    fn downcast_to_array_type(&self) -> Option<&ArrayType> {
        Some(self)
    }

    fn downcast_to_pointer_to_member(&self) -> Option<&PointerToMemberType> {
        None
    }

    fn is_qualified(&self) -> bool {
        false
    }
}

impl<'subs, W: 'subs + DemangleWrite> DemangleAsInner<'subs, W> for VectorType {
    ghost as_type = { λ x. None };

    ghost as_function_type = { λ x. None };

    ghost as_array_type = { λ x. None };

    ghost as_member_type = { λ x. None };

    ghost is_qualified_type = { λ x. false };

    fn demangle_as_inner<'prev>(
        &'subs self,
        ctx: &mut DemangleContext<'subs, '_, W>,
        scope: Option<ArgScopeStack<'prev, 'subs>>,
    ) -> Result<(), DemangleError> {
        let printer = begin(ctx);
        printer.inner(InnerItem::Vector(self), scope, ctx);
        ctx.answer()
    }

    fn downcast_to_type(&self) -> Option<&TypeNode> {
        None
    }

    fn downcast_to_function_type(&self) -> Option<&FunctionType> {
        None
    }

    fn downcast_to_array_type(&self) -> Option<&ArrayType> {
        None
    }

    fn downcast_to_pointer_to_member(&self) -> Option<&PointerToMemberType> {
        None
    }

    fn is_qualified(&self) -> bool {
        false
    }
}

impl<'subs, W: 'subs + DemangleWrite> DemangleAsInner<'subs, W> for PointerToMemberType {
    ghost as_type = { λ x. None };

    ghost as_function_type = { λ x. None };

    ghost as_array_type = { λ x. None };

    ghost as_member_type = { λ x. Some x };

    ghost is_qualified_type = { λ x. false };

    fn demangle_as_inner<'prev>(
        &'subs self,
        ctx: &mut DemangleContext<'subs, '_, W>,
        scope: Option<ArgScopeStack<'prev, 'subs>>,
    ) -> Result<(), DemangleError> {
        let printer = begin(ctx);
        printer.inner(InnerItem::Member(self), scope, ctx);
        ctx.answer()
    }

    fn downcast_to_type(&self) -> Option<&TypeNode> {
        None
    }

    fn downcast_to_function_type(&self) -> Option<&FunctionType> {
        None
    }

    fn downcast_to_array_type(&self) -> Option<&ArrayType> {
        None
    }

    fn downcast_to_pointer_to_member(&self) -> Option<&PointerToMemberType> {
        Some(self)
    }

    fn is_qualified(&self) -> bool {
        false
    }
}
