//! The public traits of printing.

ghost use Rattle.std.specs.Prelude.{◌≡◌, Bool, Option, map, option_map};
ghost use Rattle.demangle_core.specs.Core.{Core};
ghost use Rattle.demangle_leaf_nodes.specs.TreeLeaves.{tree_of_type_handle};
ghost use Rattle.demangle_leaf_nodes.specs.declared.leaves.PointerToMemberType.{PointerToMemberType};
ghost use Rattle.demangle_entries.specs.declared.entries.ArrayType.{ArrayType};
ghost use Rattle.demangle_entries.specs.declared.entries.FunctionType.{FunctionType};
ghost use Rattle.demangle_entries.specs.declared.entries.TypeNode.{TypeNode};
ghost use Rattle.demangle_scope.specs.ItemTree.{item_tree};
ghost use Rattle.demangle_scope.specs.ScopeOf.{scope_of};
ghost use Rattle.demangle_print.specs.Demangled.{Demangled, DemangledArgs, DemangledInner, DemangledLeaf};
ghost use Rattle.demangle_print_below.specs.PageOf.{page};

use crate::printer::begin;
use demangle_print_below::Below;
use demangle_print_inner::parameters;
use demangle_scope::{ArgScopeStack, DemangleContext, DemangleError, DemangleWrite, InnerItem};
use demangle_tree::{ArrayType, FunctionType, PointerToMemberType, TypeHandle, TypeNode};

/// A node that is printed: the listener is told its text and the nodes in it. The original's trait of this name.
///
/// `Reference` comes where a template parameter or a leaf name refers to nothing, `TooMuchRecursion` where no level
/// is left, `NotUtf8` where bytes of the input are no text, `TooLong` where the text is longer than the options
/// allow, all exactly as the printing table says. `Sink` comes only where the listener's count of faults rose.
/// `OutOfMemory` comes only where its count of refusals rose, for limits up to 65,536, where no two items have one
/// level, as in a context without items. After an error the listener was told the events before it, and then that
/// nodes end, no more than stood open.
pub trait Demangle<'subs, W: 'subs + DemangleWrite> {
    ghost tree: { Self → Core };

    /// The line of the node.
    fn demangle<'prev>(
        &'subs self,
        ctx: &mut DemangleContext<'subs, '_, W>,
        scope: Option<ArgScopeStack<'prev, 'subs>>,
    ) -> Result<(), DemangleError>
        ensures { Demangled (page W.seen ctx.old) (page W.seen ctx.new) (tree self.now) (scope_of scope.entry)
            result };
}

/// A node of which a part may stand behind what is printed next. The original's trait of this name.
pub trait DemangleAsInner<'subs, W: 'subs + DemangleWrite>: Demangle<'subs, W> {
    ghost as_type: { Self → Option TypeNode };

    ghost as_function_type: { Self → Option FunctionType };

    ghost as_array_type: { Self → Option ArrayType };

    ghost as_member_type: { Self → Option PointerToMemberType };

    ghost is_qualified_type: { Self → Bool };

    /// What of the node stands behind. The errors are those of `demangle`.
    fn demangle_as_inner<'prev>(
        &'subs self,
        ctx: &mut DemangleContext<'subs, '_, W>,
        scope: Option<ArgScopeStack<'prev, 'subs>>,
    ) -> Result<(), DemangleError>
        ensures { DemangledInner (page W.seen ctx.old) (page W.seen ctx.new) (Self.tree self.now)
            (scope_of scope.entry) result };

    /// The node as a `TypeNode`, where it is one.
    fn downcast_to_type(&self) -> Option<&TypeNode>
        ensures { option_map (λ x. x.now) result ≡ as_type self.now };

    /// The function's type, also where a `TypeNode` holds it.
    fn downcast_to_function_type(&self) -> Option<&FunctionType>
        ensures { option_map (λ x. x.now) result ≡ as_function_type self.now };

    /// The array, also where a `TypeNode` holds it.
    fn downcast_to_array_type(&self) -> Option<&ArrayType>
        ensures { option_map (λ x. x.now) result ≡ as_array_type self.now };

    /// The pointer to a member, also where a `TypeNode` holds it.
    fn downcast_to_pointer_to_member(&self) -> Option<&PointerToMemberType>
        ensures { option_map (λ x. x.now) result ≡ as_member_type self.now };

    /// Whether it is a qualified type.
    fn is_qualified(&self) -> bool
        ensures { result ≡ is_qualified_type self.now };
}

/// A leaf name: what constructors and destructors are named. The original's trait of this name.
pub trait DemangleAsLeaf<'subs, W: 'subs + DemangleWrite> {
    ghost leaf_tree: { Self → Core };

    /// The leaf name. The errors are those of `Demangle::demangle`.
    fn demangle_as_leaf(&self, ctx: &mut DemangleContext<'subs, '_, W>) -> Result<(), DemangleError>
        ensures { DemangledLeaf (page W.seen ctx.old) (page W.seen ctx.new) (leaf_tree self.now) result };
}

/// The parameters of a function, in parentheses, and what waits before them. The errors are those of
/// `Demangle::demangle`. The original's trait `FunctionArgListAndReturnType` and its kin.
pub fn demangle_args<'prev, 'subs, W: 'subs + DemangleWrite>(
    types: &'subs [TypeHandle],
    ctx: &mut DemangleContext<'subs, '_, W>,
    scope: Option<ArgScopeStack<'prev, 'subs>>,
) -> Result<(), DemangleError>
    ensures { DemangledArgs (page W.seen ctx.old) (page W.seen ctx.new) (map tree_of_type_handle types.now)
        (scope_of scope.entry) result }
{
    let printer = begin(ctx);
    parameters(printer, types, scope, ctx);
    ctx.answer()
}

/// What of an item stands behind. The errors are those of `Demangle::demangle`.
pub fn demangle_inner<'prev, 'subs, W: 'subs + DemangleWrite>(
    item: InnerItem<'subs>,
    ctx: &mut DemangleContext<'subs, '_, W>,
    scope: Option<ArgScopeStack<'prev, 'subs>>,
) -> Result<(), DemangleError>
    ensures { DemangledInner (page W.seen ctx.old) (page W.seen ctx.new) (item_tree item.entry)
        (scope_of scope.entry) result }
{
    let printer = begin(ctx);
    printer.inner(item, scope, ctx);
    ctx.answer()
}
