//! The template arguments of a name or a type.

ghost use Rattle.std.specs.Prelude.{◌≡◌, option_map};
ghost use Rattle.demangle_core.specs.Core.{Core};
ghost use Rattle.demangle_core.specs.Lookups.{Sort, args_step, as_prefix, as_type, component_args, template_args};
ghost use Rattle.demangle_tree.specs.Steps.{next_of, tree_of_args};
ghost use Rattle.demangle_table.specs.TableOf.{table_of};
ghost use Rattle.demangle_leaf_nodes.specs.TreeLeaves.{tree_of_nested_name, tree_of_prefix_handle, tree_of_type_handle};
ghost use Rattle.demangle_nodes.specs.TreeNodes.{tree_of_local_name, tree_of_name};
ghost use Rattle.demangle_entries.specs.TreeEntries.{tree_of_prefix, tree_of_substitutable, tree_of_type_node};

use crate::steps::{LookUp, Step, follow};
use demangle_entries::{
    LocalName, Name, NestedName, Prefix, PrefixHandle, Substitutable, TemplateArgs, TypeHandle,
    TypeNode,
};
use demangle_table::SubstitutionTable;

fn args_of_prefix_handle<'a>(node: &'a PrefixHandle) -> Step<&'a TemplateArgs>
    ensures { next_of tree_of_args result ≡ args_step (tree_of_prefix_handle node.now) }
{
    match node {
        PrefixHandle::WellKnown(_) => Step::Nothing,
        PrefixHandle::BackReference(idx) => Step::Numbered(*idx),
        PrefixHandle::NonSubstitution(other) => Step::Other(other.0),
    }
}

fn args_of_type_handle<'a>(node: &'a TypeHandle) -> Step<&'a TemplateArgs>
    ensures { next_of tree_of_args result ≡ args_step (tree_of_type_handle node.now) }
{
    match node {
        TypeHandle::BackReference(idx) => Step::Numbered(*idx),
        _ => Step::Nothing,
    }
}

fn args_of_nested_name<'a>(node: &'a NestedName) -> Step<&'a TemplateArgs>
    ensures { next_of tree_of_args result ≡ args_step (tree_of_nested_name node.now) }
{
    match node {
        NestedName::Template(_, _, prefix) => args_of_prefix_handle(prefix),
        NestedName::TemplateExplicitObject(prefix, _) => args_of_prefix_handle(prefix),
        _ => Step::Nothing,
    }
}

#[inline(always)]
#[cycle(args)]
#[tactic(auto, using(demangle_nodes::proofs::Parts::parts_name))]
fn args_of_name<'a>(node: &'a Name) -> Step<&'a TemplateArgs>
    ensures { next_of tree_of_args result ≡ args_step (tree_of_name node.now) }
{
    match node {
        Name::Nested(name) => args_of_nested_name(name),
        Name::Unscoped(_) => Step::Nothing,
        Name::UnscopedTemplate(_, args) => Step::Answer(args),
        Name::Local(name) => args_of_local_name(name),
    }
}

#[cycle(args)]
#[tactic(auto, using(demangle_nodes::proofs::Parts::parts_local_name))]
fn args_of_local_name<'a>(node: &'a LocalName) -> Step<&'a TemplateArgs>
    ensures { next_of tree_of_args result ≡ args_step (tree_of_local_name node.now) }
{
    match node {
        LocalName::Relative(_, name, _) => match name {
            Some(name) => args_of_name(name),
            None => Step::Nothing,
        },
        LocalName::Default(_, _, name) => args_of_name(name),
    }
}

fn args_of_prefix<'a>(node: &'a Prefix) -> Step<&'a TemplateArgs>
    ensures { next_of tree_of_args result ≡ args_step (tree_of_prefix node.now) }
{
    match node {
        Prefix::Template(_, args) => Step::Answer(args),
        _ => Step::Nothing,
    }
}

fn args_of_type_node<'a>(node: &'a TypeNode) -> Step<&'a TemplateArgs>
    ensures { next_of tree_of_args result ≡ args_step (tree_of_type_node node.now) }
{
    match node {
        TypeNode::TemplateTemplate(_, args) => Step::Answer(args),
        TypeNode::VendorExtension(_, args, _) => match args {
            Some(args) => Step::Answer(args),
            None => Step::Nothing,
        },
        TypeNode::PointerTo(pointee) => args_of_type_handle(pointee),
        TypeNode::LvalueRef(referee) => args_of_type_handle(referee),
        TypeNode::RvalueRef(referee) => args_of_type_handle(referee),
        _ => Step::Nothing,
    }
}

/// The look-up of arguments for a prefix: the components that it goes through must be prefixes.
struct PrefixArgs;

impl<'a> LookUp<'a> for PrefixArgs {
    type Answer = &'a TemplateArgs;

    ghost tree = { tree_of_args };

    ghost step = { component_args as_prefix };

    fn step_of(component: &'a Substitutable) -> Step<&'a TemplateArgs> {
        match component {
            Substitutable::Prefix(node) => args_of_prefix(node),
            _ => Step::Nothing,
        }
    }
}

/// The look-up of arguments for a type: the components that it goes through must be types.
struct TypeArgs;

impl<'a> LookUp<'a> for TypeArgs {
    type Answer = &'a TemplateArgs;

    ghost tree = { tree_of_args };

    ghost step = { component_args as_type };

    fn step_of(component: &'a Substitutable) -> Step<&'a TemplateArgs> {
        match component {
            Substitutable::TypeNode(node) => args_of_type_node(node),
            _ => Step::Nothing,
        }
    }
}

/// The template arguments of a name or a type. The original's trait of this name.
pub trait GetTemplateArgs {
    /// The tree of what is looked at.
    ghost tree: { Self → Core };
    /// Whether it is a prefix or a type.
    ghost sort: { Sort };

    /// The arguments, found in the components that this refers to where they aren't here; `None` exactly where there
    /// are none, or where the references go round in a circle.
    fn get_template_args<'a>(&'a self, subs: &'a SubstitutionTable) -> Option<&'a TemplateArgs>
        ensures { option_map tree_of_args result ≡ template_args sort (table_of subs.now) (tree self.now) };
}

impl GetTemplateArgs for Name {
    ghost tree = { tree_of_name };

    ghost sort = { as_prefix };

    #[tactic(auto, unfolding(demangle_core::specs::Lookups::template_args))]
    fn get_template_args<'a>(&'a self, subs: &'a SubstitutionTable) -> Option<&'a TemplateArgs> {
        follow::<PrefixArgs>(args_of_name(self), subs)
    }
}

impl GetTemplateArgs for NestedName {
    ghost tree = { tree_of_nested_name };

    ghost sort = { as_prefix };

    #[tactic(auto, unfolding(demangle_core::specs::Lookups::template_args))]
    fn get_template_args<'a>(&'a self, subs: &'a SubstitutionTable) -> Option<&'a TemplateArgs> {
        follow::<PrefixArgs>(args_of_nested_name(self), subs)
    }
}

impl GetTemplateArgs for Prefix {
    ghost tree = { tree_of_prefix };

    ghost sort = { as_prefix };

    #[tactic(auto, unfolding(demangle_core::specs::Lookups::template_args))]
    fn get_template_args<'a>(&'a self, subs: &'a SubstitutionTable) -> Option<&'a TemplateArgs> {
        follow::<PrefixArgs>(args_of_prefix(self), subs)
    }
}

impl GetTemplateArgs for PrefixHandle {
    ghost tree = { tree_of_prefix_handle };

    ghost sort = { as_prefix };

    #[tactic(auto, unfolding(demangle_core::specs::Lookups::template_args))]
    fn get_template_args<'a>(&'a self, subs: &'a SubstitutionTable) -> Option<&'a TemplateArgs> {
        follow::<PrefixArgs>(args_of_prefix_handle(self), subs)
    }
}

impl GetTemplateArgs for LocalName {
    ghost tree = { tree_of_local_name };

    ghost sort = { as_prefix };

    #[tactic(auto, unfolding(demangle_core::specs::Lookups::template_args))]
    fn get_template_args<'a>(&'a self, subs: &'a SubstitutionTable) -> Option<&'a TemplateArgs> {
        follow::<PrefixArgs>(args_of_local_name(self), subs)
    }
}

impl GetTemplateArgs for TypeHandle {
    ghost tree = { tree_of_type_handle };

    ghost sort = { as_type };

    #[tactic(auto, unfolding(demangle_core::specs::Lookups::template_args))]
    fn get_template_args<'a>(&'a self, subs: &'a SubstitutionTable) -> Option<&'a TemplateArgs> {
        follow::<TypeArgs>(args_of_type_handle(self), subs)
    }
}

impl GetTemplateArgs for TypeNode {
    ghost tree = { tree_of_type_node };

    ghost sort = { as_type };

    #[tactic(auto, unfolding(demangle_core::specs::Lookups::template_args))]
    fn get_template_args<'a>(&'a self, subs: &'a SubstitutionTable) -> Option<&'a TemplateArgs> {
        follow::<TypeArgs>(args_of_type_node(self), subs)
    }
}
