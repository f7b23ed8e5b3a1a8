//! Whether a name is that of a constructor, a destructor or a conversion, which have no return type in their signature.

ghost use Rattle.std.specs.Prelude.{◌≡◌};
ghost use Rattle.demangle_core.specs.Core.{Core};
ghost use Rattle.demangle_core.specs.Lookups.{is_special, special_step};
ghost use Rattle.demangle_tree.specs.Steps.{next_of, tree_of_special};
ghost use Rattle.demangle_table.specs.TableOf.{table_of};
ghost use Rattle.demangle_leaf_nodes.specs.TreeLeaves.{
  tree_of_nested_name,
  tree_of_prefix_handle,
  tree_of_unqualified_name,
  tree_of_unscoped_name,
};
ghost use Rattle.demangle_nodes.specs.TreeNodes.{tree_of_name};
ghost use Rattle.demangle_entries.specs.TreeEntries.{tree_of_prefix, tree_of_substitutable};

use crate::steps::{LookUp, Step, follow};
use demangle_entries::{
    Name, NestedName, OperatorName, Prefix, PrefixHandle, Substitutable, UnqualifiedName,
    UnscopedName,
};
use demangle_table::SubstitutionTable;

/// What makes a name special.
#[derive(Clone, Copy)]
enum Special<'a> {
    CtorDtor(&'a UnqualifiedName),
    Conversion(&'a OperatorName),
}

fn special_of_prefix_handle<'a>(node: &'a PrefixHandle) -> Step<Special<'a>>
    ensures { next_of tree_of_special result ≡ special_step (tree_of_prefix_handle node.now) }
{
    match node {
        PrefixHandle::WellKnown(_) => Step::Nothing,
        PrefixHandle::BackReference(idx) => Step::Numbered(*idx),
        PrefixHandle::NonSubstitution(other) => Step::Other(other.0),
    }
}

fn special_of_unqualified_name<'a>(node: &'a UnqualifiedName) -> Step<Special<'a>>
    ensures { next_of tree_of_special result ≡ special_step (tree_of_unqualified_name node.now) }
{
    match node {
        UnqualifiedName::CtorDtor(_, _) => Step::Answer(Special::CtorDtor(node)),
        UnqualifiedName::Operator(operator, _) => match operator {
            OperatorName::Conversion(_) => Step::Answer(Special::Conversion(operator)),
            _ => Step::Nothing,
        },
        _ => Step::Nothing,
    }
}

fn special_of_unscoped_name<'a>(node: &'a UnscopedName) -> Step<Special<'a>>
    ensures { next_of tree_of_special result ≡ special_step (tree_of_unscoped_name node.now) }
{
    match node {
        UnscopedName::Unqualified(name) => special_of_unqualified_name(name),
        UnscopedName::Std(name) => special_of_unqualified_name(name),
    }
}

fn special_of_nested_name<'a>(node: &'a NestedName) -> Step<Special<'a>>
    ensures { next_of tree_of_special result ≡ special_step (tree_of_nested_name node.now) }
{
    match node {
        NestedName::Unqualified(_, _, prefix, _) => match prefix {
            Some(prefix) => special_of_prefix_handle(prefix),
            None => Step::Nothing,
        },
        NestedName::Template(_, _, prefix) => special_of_prefix_handle(prefix),
        NestedName::UnqualifiedExplicitObject(prefix, _, _) => match prefix {
            Some(prefix) => special_of_prefix_handle(prefix),
            None => Step::Nothing,
        },
        NestedName::TemplateExplicitObject(prefix, _) => special_of_prefix_handle(prefix),
    }
}

#[tactic(auto, using(demangle_nodes::proofs::Parts::parts_name))]
fn special_of_name<'a>(node: &'a Name) -> Step<Special<'a>>
    ensures { next_of tree_of_special result ≡ special_step (tree_of_name node.now) }
{
    match node {
        Name::Nested(name) => special_of_nested_name(name),
        Name::Unscoped(name) => special_of_unscoped_name(name),
        _ => Step::Nothing,
    }
}

fn special_of_prefix<'a>(node: &'a Prefix) -> Step<Special<'a>>
    ensures { next_of tree_of_special result ≡ special_step (tree_of_prefix node.now) }
{
    match node {
        Prefix::Unqualified(name) => special_of_unqualified_name(name),
        Prefix::Nested(_, name) => special_of_unqualified_name(name),
        Prefix::Template(prefix, _) => special_of_prefix_handle(prefix),
        _ => Step::Nothing,
    }
}

fn special_of_substitutable<'a>(node: &'a Substitutable) -> Step<Special<'a>>
    ensures { next_of tree_of_special result ≡ special_step (tree_of_substitutable node.now) }
{
    match node {
        Substitutable::Prefix(prefix) => special_of_prefix(prefix),
        _ => Step::Nothing,
    }
}

/// The look-up of what makes a name special.
struct SpecialNames;

impl<'a> LookUp<'a> for SpecialNames {
    type Answer = Special<'a>;

    ghost tree = { tree_of_special };

    ghost step = { special_step };

    fn step_of(component: &'a Substitutable) -> Step<Special<'a>> {
        special_of_substitutable(component)
    }
}

/// Whether a name is that of a constructor, a destructor or a conversion. The original's trait of this name.
pub trait IsCtorDtorConversion {
    /// The tree of what is looked at.
    ghost tree: { Self → Core };

    /// Whether it is one; where it refers to a component, whether that is.
    fn is_ctor_dtor_conversion(&self, subs: &SubstitutionTable) -> bool
        ensures { result ≡ is_special (table_of subs.now) (tree self.now) };
}

impl IsCtorDtorConversion for Name {
    ghost tree = { tree_of_name };

    #[tactic(auto, unfolding(demangle_core::specs::Lookups::is_special))]
    fn is_ctor_dtor_conversion(&self, subs: &SubstitutionTable) -> bool {
        follow::<SpecialNames>(special_of_name(self), subs).is_some()
    }
}

impl IsCtorDtorConversion for NestedName {
    ghost tree = { tree_of_nested_name };

    #[tactic(auto, unfolding(demangle_core::specs::Lookups::is_special))]
    fn is_ctor_dtor_conversion(&self, subs: &SubstitutionTable) -> bool {
        follow::<SpecialNames>(special_of_nested_name(self), subs).is_some()
    }
}

impl IsCtorDtorConversion for Prefix {
    ghost tree = { tree_of_prefix };

    #[tactic(auto, unfolding(demangle_core::specs::Lookups::is_special))]
    fn is_ctor_dtor_conversion(&self, subs: &SubstitutionTable) -> bool {
        follow::<SpecialNames>(special_of_prefix(self), subs).is_some()
    }
}

impl IsCtorDtorConversion for PrefixHandle {
    ghost tree = { tree_of_prefix_handle };

    #[tactic(auto, unfolding(demangle_core::specs::Lookups::is_special))]
    fn is_ctor_dtor_conversion(&self, subs: &SubstitutionTable) -> bool {
        follow::<SpecialNames>(special_of_prefix_handle(self), subs).is_some()
    }
}

impl IsCtorDtorConversion for UnscopedName {
    ghost tree = { tree_of_unscoped_name };

    #[tactic(auto, unfolding(demangle_core::specs::Lookups::is_special))]
    fn is_ctor_dtor_conversion(&self, subs: &SubstitutionTable) -> bool {
        follow::<SpecialNames>(special_of_unscoped_name(self), subs).is_some()
    }
}

impl IsCtorDtorConversion for UnqualifiedName {
    ghost tree = { tree_of_unqualified_name };

    #[tactic(auto, unfolding(demangle_core::specs::Lookups::is_special))]
    fn is_ctor_dtor_conversion(&self, subs: &SubstitutionTable) -> bool {
        follow::<SpecialNames>(special_of_unqualified_name(self), subs).is_some()
    }
}

impl IsCtorDtorConversion for Substitutable {
    ghost tree = { tree_of_substitutable };

    #[tactic(auto, unfolding(demangle_core::specs::Lookups::is_special))]
    fn is_ctor_dtor_conversion(&self, subs: &SubstitutionTable) -> bool {
        follow::<SpecialNames>(special_of_substitutable(self), subs).is_some()
    }
}
