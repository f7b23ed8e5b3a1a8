//! The leaf name of a name or a type: the last identifier in it, which its constructors and destructors have too.
//!
//! Each node answers in one step, or refers to a component that has the same answer.

ghost use Rattle.std.specs.Prelude.{◌≡◌, option_map};
ghost use Rattle.demangle_core.specs.Core.{Core};
ghost use Rattle.demangle_core.specs.Lookups.{else_next, leaf_name, leaf_step};
ghost use Rattle.demangle_tree.specs.Steps.{next_of};
ghost use Rattle.demangle_table.specs.TableOf.{table_of};
ghost use Rattle.demangle_leaf_nodes.specs.TreeLeaves.{
  tree_of_builtin_type,
  tree_of_closure_type_name,
  tree_of_data_member_prefix,
  tree_of_leaf_name,
  tree_of_nested_name,
  tree_of_non_substitution,
  tree_of_prefix_handle,
  tree_of_qualified_builtin,
  tree_of_template_template_param_handle,
  tree_of_type_handle,
  tree_of_unqualified_name,
  tree_of_unresolved_type_handle,
  tree_of_unscoped_name,
  tree_of_unscoped_template_name,
  tree_of_unscoped_template_name_handle,
  tree_of_well_known_component,
};
ghost use Rattle.demangle_nodes.specs.TreeNodes.{tree_of_name, tree_of_local_name};
ghost use Rattle.demangle_entries.specs.TreeEntries.{
  tree_of_class_enum_type,
  tree_of_prefix,
  tree_of_substitutable,
  tree_of_type_node,
};

use crate::steps::{LookUp, Step, follow};
use demangle_entries::{
    BuiltinType, ClassEnumType, ClosureTypeName, DataMemberPrefix, LeafName, LocalName, Name,
    NestedName, NonSubstitution, Prefix, PrefixHandle, QualifiedBuiltin, Substitutable,
    TemplateTemplateParamHandle, TypeHandle, TypeNode, UnqualifiedName, UnresolvedTypeHandle,
    UnscopedName, UnscopedTemplateName, UnscopedTemplateNameHandle,
};
use demangle_table::SubstitutionTable;
use demangle_vocab::WellKnownComponent;

fn leaf_of_well_known_component<'a>(node: &'a WellKnownComponent) -> Step<LeafName<'a>>
    ensures { next_of tree_of_leaf_name result ≡ leaf_step (tree_of_well_known_component node.now) }
{
    match node {
        WellKnownComponent::Std => Step::Nothing,
        _ => Step::Answer(LeafName::WellKnownComponent(node)),
    }
}

fn leaf_of_prefix_handle<'a>(node: &'a PrefixHandle) -> Step<LeafName<'a>>
    ensures { next_of tree_of_leaf_name result ≡ leaf_step (tree_of_prefix_handle node.now) }
{
    match node {
        PrefixHandle::WellKnown(component) => leaf_of_well_known_component(component),
        PrefixHandle::BackReference(idx) => Step::Numbered(*idx),
        PrefixHandle::NonSubstitution(other) => Step::Other(other.0),
    }
}

fn leaf_of_unscoped_template_name_handle<'a>(
    node: &'a UnscopedTemplateNameHandle,
) -> Step<LeafName<'a>>
    ensures { next_of tree_of_leaf_name result ≡ leaf_step (tree_of_unscoped_template_name_handle node.now) }
{
    match node {
        UnscopedTemplateNameHandle::WellKnown(component) => leaf_of_well_known_component(component),
        UnscopedTemplateNameHandle::BackReference(idx) => Step::Numbered(*idx),
        UnscopedTemplateNameHandle::NonSubstitution(other) => Step::Other(other.0),
    }
}

fn leaf_of_template_template_param_handle<'a>(
    node: &'a TemplateTemplateParamHandle,
) -> Step<LeafName<'a>>
    ensures { next_of tree_of_leaf_name result ≡ leaf_step (tree_of_template_template_param_handle node.now) }
{
    match node {
        TemplateTemplateParamHandle::WellKnown(component) => leaf_of_well_known_component(
            component,
        ),
        TemplateTemplateParamHandle::BackReference(idx) => Step::Numbered(*idx),
    }
}

fn leaf_of_unresolved_type_handle<'a>(node: &'a UnresolvedTypeHandle) -> Step<LeafName<'a>>
    ensures { next_of tree_of_leaf_name result ≡ leaf_step (tree_of_unresolved_type_handle node.now) }
{
    match node {
        UnresolvedTypeHandle::WellKnown(component) => leaf_of_well_known_component(component),
        UnresolvedTypeHandle::BackReference(idx) => Step::Numbered(*idx),
    }
}

fn leaf_of_type_handle<'a>(node: &'a TypeHandle) -> Step<LeafName<'a>>
    ensures { next_of tree_of_leaf_name result ≡ leaf_step (tree_of_type_handle node.now) }
{
    match node {
        TypeHandle::WellKnown(component) => leaf_of_well_known_component(component),
        TypeHandle::BackReference(idx) => Step::Numbered(*idx),
        _ => Step::Nothing,
    }
}

fn leaf_of_unqualified_name<'a>(node: &'a UnqualifiedName) -> Step<LeafName<'a>>
    ensures { next_of tree_of_leaf_name result ≡ leaf_step (tree_of_unqualified_name node.now) }
{
    match node {
        UnqualifiedName::Source(name, _) => Step::Answer(LeafName::SourceName(name)),
        UnqualifiedName::LocalSourceName(name, _, _) => Step::Answer(LeafName::SourceName(name)),
        UnqualifiedName::UnnamedType(name, _) => Step::Answer(LeafName::UnnamedType(name)),
        UnqualifiedName::ClosureType(name, _) => Step::Answer(LeafName::Closure(name)),
        UnqualifiedName::Operator(_, _) => Step::Nothing,
        UnqualifiedName::CtorDtor(_, _) => Step::Nothing,
    }
}

fn leaf_of_unscoped_name<'a>(node: &'a UnscopedName) -> Step<LeafName<'a>>
    ensures { next_of tree_of_leaf_name result ≡ leaf_step (tree_of_unscoped_name node.now) }
{
    match node {
        UnscopedName::Unqualified(name) => leaf_of_unqualified_name(name),
        UnscopedName::Std(name) => leaf_of_unqualified_name(name),
    }
}

fn leaf_of_unscoped_template_name<'a>(node: &'a UnscopedTemplateName) -> Step<LeafName<'a>>
    ensures { next_of tree_of_leaf_name result ≡ leaf_step (tree_of_unscoped_template_name node.now) }
{
    leaf_of_unscoped_name(&node.0)
}

fn leaf_of_non_substitution<'a>(node: &'a NonSubstitution) -> Step<LeafName<'a>>
    ensures { next_of tree_of_leaf_name result ≡ leaf_step (tree_of_non_substitution node.now) }
{
    Step::Other(node.0)
}

fn leaf_of_builtin_type<'a>(node: &'a BuiltinType) -> Step<LeafName<'a>>
    ensures { next_of tree_of_leaf_name result ≡ leaf_step (tree_of_builtin_type node.now) }
{
    match node {
        BuiltinType::Standard(_) => Step::Nothing,
        BuiltinType::Parametric(_) => Step::Nothing,
        BuiltinType::Extension(_) => Step::Nothing,
    }
}

fn leaf_of_qualified_builtin<'a>(node: &'a QualifiedBuiltin) -> Step<LeafName<'a>>
    ensures { next_of tree_of_leaf_name result ≡ leaf_step (tree_of_qualified_builtin node.now) }
{
    Step::Nothing
}

fn leaf_of_closure_type_name<'a>(node: &'a ClosureTypeName) -> Step<LeafName<'a>>
    ensures { next_of tree_of_leaf_name result ≡ leaf_step (tree_of_closure_type_name node.now) }
{
    Step::Answer(LeafName::Closure(node))
}

fn leaf_of_data_member_prefix<'a>(node: &'a DataMemberPrefix) -> Step<LeafName<'a>>
    ensures { next_of tree_of_leaf_name result ≡ leaf_step (tree_of_data_member_prefix node.now) }
{
    Step::Answer(LeafName::SourceName(&node.0))
}

fn leaf_or_prefix<'a>(name: &'a UnqualifiedName, prefix: &'a PrefixHandle) -> Step<LeafName<'a>>
    ensures { next_of tree_of_leaf_name result
        ≡ else_next (leaf_step (tree_of_unqualified_name name.now)) (leaf_step (tree_of_prefix_handle prefix.now)) }
{
    match leaf_of_unqualified_name(name) {
        Step::Nothing => leaf_of_prefix_handle(prefix),
        step => step,
    }
}

fn leaf_of_nested_name<'a>(node: &'a NestedName) -> Step<LeafName<'a>>
    ensures { next_of tree_of_leaf_name result ≡ leaf_step (tree_of_nested_name node.now) }
{
    match node {
        NestedName::Unqualified(_, _, Some(prefix), name) => leaf_or_prefix(name, prefix),
        NestedName::Unqualified(_, _, None, name) => leaf_of_unqualified_name(name),
        NestedName::Template(_, _, prefix) => leaf_of_prefix_handle(prefix),
        NestedName::UnqualifiedExplicitObject(Some(prefix), name, _) => leaf_or_prefix(
            name, prefix,
        ),
        NestedName::UnqualifiedExplicitObject(None, name, _) => leaf_of_unqualified_name(name),
        NestedName::TemplateExplicitObject(prefix, _) => leaf_of_prefix_handle(prefix),
    }
}

#[cycle(leaf)]
#[tactic(auto, using(demangle_nodes::proofs::Parts::parts_name))]
fn leaf_of_name<'a>(node: &'a Name) -> Step<LeafName<'a>>
    ensures { next_of tree_of_leaf_name result ≡ leaf_step (tree_of_name node.now) }
{
    match node {
        Name::Nested(name) => leaf_of_nested_name(name),
        Name::Unscoped(name) => leaf_of_unscoped_name(name),
        Name::UnscopedTemplate(template, _) => leaf_of_unscoped_template_name_handle(template),
        Name::Local(name) => leaf_of_local_name(name),
    }
}

#[cycle(leaf)]
#[tactic(auto, using(demangle_nodes::proofs::Parts::parts_local_name))]
fn leaf_of_local_name<'a>(node: &'a LocalName) -> Step<LeafName<'a>>
    ensures { next_of tree_of_leaf_name result ≡ leaf_step (tree_of_local_name node.now) }
{
    match node {
        LocalName::Relative(_, name, _) => match name {
            Some(name) => leaf_of_name(name),
            None => Step::Nothing,
        },
        LocalName::Default(_, _, name) => leaf_of_name(name),
    }
}

fn leaf_of_prefix<'a>(node: &'a Prefix) -> Step<LeafName<'a>>
    ensures { next_of tree_of_leaf_name result ≡ leaf_step (tree_of_prefix node.now) }
{
    match node {
        Prefix::Unqualified(name) => leaf_of_unqualified_name(name),
        Prefix::Nested(prefix, name) => leaf_or_prefix(name, prefix),
        Prefix::Template(prefix, _) => leaf_of_prefix_handle(prefix),
        Prefix::DataMember(_, member) => Step::Answer(LeafName::SourceName(&member.0)),
        _ => Step::Nothing,
    }
}

fn leaf_of_class_enum_type<'a>(node: &'a ClassEnumType) -> Step<LeafName<'a>>
    ensures { next_of tree_of_leaf_name result ≡ leaf_step (tree_of_class_enum_type node.now) }
{
    match node {
        ClassEnumType::Named(name) => leaf_of_name(name),
        ClassEnumType::ElaboratedStruct(name) => leaf_of_name(name),
        ClassEnumType::ElaboratedUnion(name) => leaf_of_name(name),
        ClassEnumType::ElaboratedEnum(name) => leaf_of_name(name),
    }
}

fn leaf_of_type_node<'a>(node: &'a TypeNode) -> Step<LeafName<'a>>
    ensures { next_of tree_of_leaf_name result ≡ leaf_step (tree_of_type_node node.now) }
{
    match node {
        TypeNode::ClassEnum(class) => leaf_of_class_enum_type(class),
        _ => Step::Nothing,
    }
}

fn leaf_of_substitutable<'a>(node: &'a Substitutable) -> Step<LeafName<'a>>
    ensures { next_of tree_of_leaf_name result ≡ leaf_step (tree_of_substitutable node.now) }
{
    match node {
        Substitutable::UnscopedTemplateName(name) => leaf_of_unscoped_template_name(name),
        Substitutable::TypeNode(node) => leaf_of_type_node(node),
        Substitutable::Prefix(prefix) => leaf_of_prefix(prefix),
        _ => Step::Nothing,
    }
}

/// The look-up of leaf names.
struct LeafNames;

impl<'a> LookUp<'a> for LeafNames {
    type Answer = LeafName<'a>;

    ghost tree = { tree_of_leaf_name };

    ghost step = { leaf_step };

    fn step_of(component: &'a Substitutable) -> Step<LeafName<'a>> {
        leaf_of_substitutable(component)
    }
}

/// The leaf name of a name or a type: the last identifier in it, which its constructors and destructors have too. The
/// original's trait of this name.
pub trait GetLeafName<'a> {
    /// The tree of what is looked at.
    ghost tree: { Self → Core };

    /// The leaf name, found in the components that this refers to where it isn't here; `None` exactly where there is
    /// none, or where the references go round in a circle.
    fn get_leaf_name(&'a self, subs: &'a SubstitutionTable) -> Option<LeafName<'a>>
        ensures { option_map tree_of_leaf_name result ≡ leaf_name (table_of subs.now) (tree self.now) };
}

impl<'a> GetLeafName<'a> for Name {
    ghost tree = { tree_of_name };

    #[tactic(auto, unfolding(demangle_core::specs::Lookups::leaf_name))]
    fn get_leaf_name(&'a self, subs: &'a SubstitutionTable) -> Option<LeafName<'a>> {
        follow::<LeafNames>(leaf_of_name(self), subs)
    }
}

impl<'a> GetLeafName<'a> for NestedName {
    ghost tree = { tree_of_nested_name };

    #[tactic(auto, unfolding(demangle_core::specs::Lookups::leaf_name))]
    fn get_leaf_name(&'a self, subs: &'a SubstitutionTable) -> Option<LeafName<'a>> {
        follow::<LeafNames>(leaf_of_nested_name(self), subs)
    }
}

impl<'a> GetLeafName<'a> for Prefix {
    ghost tree = { tree_of_prefix };

    #[tactic(auto, unfolding(demangle_core::specs::Lookups::leaf_name))]
    fn get_leaf_name(&'a self, subs: &'a SubstitutionTable) -> Option<LeafName<'a>> {
        follow::<LeafNames>(leaf_of_prefix(self), subs)
    }
}

impl<'a> GetLeafName<'a> for PrefixHandle {
    ghost tree = { tree_of_prefix_handle };

    #[tactic(auto, unfolding(demangle_core::specs::Lookups::leaf_name))]
    fn get_leaf_name(&'a self, subs: &'a SubstitutionTable) -> Option<LeafName<'a>> {
        follow::<LeafNames>(leaf_of_prefix_handle(self), subs)
    }
}

impl<'a> GetLeafName<'a> for TypeHandle {
    ghost tree = { tree_of_type_handle };

    #[tactic(auto, unfolding(demangle_core::specs::Lookups::leaf_name))]
    fn get_leaf_name(&'a self, subs: &'a SubstitutionTable) -> Option<LeafName<'a>> {
        follow::<LeafNames>(leaf_of_type_handle(self), subs)
    }
}

impl<'a> GetLeafName<'a> for UnscopedTemplateNameHandle {
    ghost tree = { tree_of_unscoped_template_name_handle };

    #[tactic(auto, unfolding(demangle_core::specs::Lookups::leaf_name))]
    fn get_leaf_name(&'a self, subs: &'a SubstitutionTable) -> Option<LeafName<'a>> {
        follow::<LeafNames>(leaf_of_unscoped_template_name_handle(self), subs)
    }
}

impl<'a> GetLeafName<'a> for TemplateTemplateParamHandle {
    ghost tree = { tree_of_template_template_param_handle };

    #[tactic(auto, unfolding(demangle_core::specs::Lookups::leaf_name))]
    fn get_leaf_name(&'a self, subs: &'a SubstitutionTable) -> Option<LeafName<'a>> {
        follow::<LeafNames>(leaf_of_template_template_param_handle(self), subs)
    }
}

impl<'a> GetLeafName<'a> for UnresolvedTypeHandle {
    ghost tree = { tree_of_unresolved_type_handle };

    #[tactic(auto, unfolding(demangle_core::specs::Lookups::leaf_name))]
    fn get_leaf_name(&'a self, subs: &'a SubstitutionTable) -> Option<LeafName<'a>> {
        follow::<LeafNames>(leaf_of_unresolved_type_handle(self), subs)
    }
}

impl<'a> GetLeafName<'a> for UnscopedName {
    ghost tree = { tree_of_unscoped_name };

    #[tactic(auto, unfolding(demangle_core::specs::Lookups::leaf_name))]
    fn get_leaf_name(&'a self, subs: &'a SubstitutionTable) -> Option<LeafName<'a>> {
        follow::<LeafNames>(leaf_of_unscoped_name(self), subs)
    }
}

impl<'a> GetLeafName<'a> for UnscopedTemplateName {
    ghost tree = { tree_of_unscoped_template_name };

    #[tactic(auto, unfolding(demangle_core::specs::Lookups::leaf_name))]
    fn get_leaf_name(&'a self, subs: &'a SubstitutionTable) -> Option<LeafName<'a>> {
        follow::<LeafNames>(leaf_of_unscoped_template_name(self), subs)
    }
}

impl<'a> GetLeafName<'a> for UnqualifiedName {
    ghost tree = { tree_of_unqualified_name };

    #[tactic(auto, unfolding(demangle_core::specs::Lookups::leaf_name))]
    fn get_leaf_name(&'a self, subs: &'a SubstitutionTable) -> Option<LeafName<'a>> {
        follow::<LeafNames>(leaf_of_unqualified_name(self), subs)
    }
}

impl<'a> GetLeafName<'a> for TypeNode {
    ghost tree = { tree_of_type_node };

    #[tactic(auto, unfolding(demangle_core::specs::Lookups::leaf_name))]
    fn get_leaf_name(&'a self, subs: &'a SubstitutionTable) -> Option<LeafName<'a>> {
        follow::<LeafNames>(leaf_of_type_node(self), subs)
    }
}

impl<'a> GetLeafName<'a> for ClassEnumType {
    ghost tree = { tree_of_class_enum_type };

    #[tactic(auto, unfolding(demangle_core::specs::Lookups::leaf_name))]
    fn get_leaf_name(&'a self, subs: &'a SubstitutionTable) -> Option<LeafName<'a>> {
        follow::<LeafNames>(leaf_of_class_enum_type(self), subs)
    }
}

impl<'a> GetLeafName<'a> for LocalName {
    ghost tree = { tree_of_local_name };

    #[tactic(auto, unfolding(demangle_core::specs::Lookups::leaf_name))]
    fn get_leaf_name(&'a self, subs: &'a SubstitutionTable) -> Option<LeafName<'a>> {
        follow::<LeafNames>(leaf_of_local_name(self), subs)
    }
}

impl<'a> GetLeafName<'a> for WellKnownComponent {
    ghost tree = { tree_of_well_known_component };

    #[tactic(auto, unfolding(demangle_core::specs::Lookups::leaf_name))]
    fn get_leaf_name(&'a self, subs: &'a SubstitutionTable) -> Option<LeafName<'a>> {
        follow::<LeafNames>(leaf_of_well_known_component(self), subs)
    }
}

impl<'a> GetLeafName<'a> for Substitutable {
    ghost tree = { tree_of_substitutable };

    #[tactic(auto, unfolding(demangle_core::specs::Lookups::leaf_name))]
    fn get_leaf_name(&'a self, subs: &'a SubstitutionTable) -> Option<LeafName<'a>> {
        follow::<LeafNames>(leaf_of_substitutable(self), subs)
    }
}

impl<'a> GetLeafName<'a> for NonSubstitution {
    ghost tree = { tree_of_non_substitution };

    #[tactic(auto, unfolding(demangle_core::specs::Lookups::leaf_name))]
    fn get_leaf_name(&'a self, subs: &'a SubstitutionTable) -> Option<LeafName<'a>> {
        follow::<LeafNames>(leaf_of_non_substitution(self), subs)
    }
}

impl<'a> GetLeafName<'a> for BuiltinType {
    ghost tree = { tree_of_builtin_type };

    #[tactic(auto, unfolding(demangle_core::specs::Lookups::leaf_name))]
    fn get_leaf_name(&'a self, subs: &'a SubstitutionTable) -> Option<LeafName<'a>> {
        follow::<LeafNames>(leaf_of_builtin_type(self), subs)
    }
}

impl<'a> GetLeafName<'a> for QualifiedBuiltin {
    ghost tree = { tree_of_qualified_builtin };

    #[tactic(auto, unfolding(demangle_core::specs::Lookups::leaf_name))]
    fn get_leaf_name(&'a self, subs: &'a SubstitutionTable) -> Option<LeafName<'a>> {
        follow::<LeafNames>(leaf_of_qualified_builtin(self), subs)
    }
}

impl<'a> GetLeafName<'a> for ClosureTypeName {
    ghost tree = { tree_of_closure_type_name };

    #[tactic(auto, unfolding(demangle_core::specs::Lookups::leaf_name))]
    fn get_leaf_name(&'a self, subs: &'a SubstitutionTable) -> Option<LeafName<'a>> {
        follow::<LeafNames>(leaf_of_closure_type_name(self), subs)
    }
}

impl<'a> GetLeafName<'a> for DataMemberPrefix {
    ghost tree = { tree_of_data_member_prefix };

    #[tactic(auto, unfolding(demangle_core::specs::Lookups::leaf_name))]
    fn get_leaf_name(&'a self, subs: &'a SubstitutionTable) -> Option<LeafName<'a>> {
        follow::<LeafNames>(leaf_of_data_member_prefix(self), subs)
    }
}
