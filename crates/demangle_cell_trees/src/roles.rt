//! Where in a node it is that is looked up.

ghost use Rattle.std.specs.Prelude.{◌≡◌};
ghost use Rattle.demangle_cell_trees.specs.Roles.{arguments_role, leaf_role, role_in, special_role};

use demangle_cells::Tag;

/// What is looked up.
#[derive(Clone, Copy)]
pub(crate) enum Sought {
    /// The leaf name.
    LeafName,
    /// The template arguments of a name.
    PrefixArguments,
    /// The template arguments of a type.
    TypeArguments,
    /// A constructor, a destructor or a conversion.
    Special,
}

/// Where in a node it is.
#[derive(Clone, Copy)]
pub(crate) enum Role {
    /// It is the node itself.
    Itself,
    /// In the first part.
    First,
    /// In the second part.
    Second,
    /// In the third part.
    Third,
    /// In the second part, and where there is none in the first.
    SecondElseFirst,
    /// In the fourth part, and where there is none in the third.
    FourthElseThird,
    /// Nowhere.
    Nothing,
}

/// Of the leaf name.
fn leaf_role(tag: Tag) -> Role
    ensures { result ≡ leaf_role tag }
{
    match tag {
        Tag::SourceName | Tag::ClosureTypeName | Tag::UnnamedTypeName => Role::Itself,
        Tag::BackReference
        | Tag::NonSubstitution
        | Tag::Present
        | Tag::WellKnown
        | Tag::DataMemberPrefix
        | Tag::UnqualifiedNameSource
        | Tag::UnqualifiedNameLocalSourceName
        | Tag::UnqualifiedNameClosureType
        | Tag::UnqualifiedNameUnnamedType
        | Tag::UnscopedNameUnqualified
        | Tag::UnscopedNameStd
        | Tag::UnscopedTemplateName
        | Tag::NestedNameTemplateExplicitObject
        | Tag::NameNested
        | Tag::NameUnscoped
        | Tag::NameUnscopedTemplate
        | Tag::NameLocal
        | Tag::PrefixUnqualified
        | Tag::PrefixTemplate
        | Tag::ClassEnumTypeNamed
        | Tag::ClassEnumTypeElaboratedStruct
        | Tag::ClassEnumTypeElaboratedUnion
        | Tag::ClassEnumTypeElaboratedEnum
        | Tag::TypeNodeClassEnum
        | Tag::SubstitutableUnscopedTemplateName
        | Tag::SubstitutableTypeNode
        | Tag::SubstitutablePrefix => Role::First,
        Tag::NestedNameUnqualified => Role::FourthElseThird,
        Tag::NestedNameTemplate | Tag::LocalNameDefault => Role::Third,
        Tag::NestedNameUnqualifiedExplicitObject | Tag::PrefixNested => Role::SecondElseFirst,
        Tag::LocalNameRelative | Tag::PrefixDataMember => Role::Second,
        _ => Role::Nothing,
    }
}

/// Of template arguments.
fn arguments_role(tag: Tag) -> Role
    ensures { result ≡ arguments_role tag }
{
    match tag {
        Tag::TemplateArgs => Role::Itself,
        Tag::BackReference
        | Tag::NonSubstitution
        | Tag::Present
        | Tag::NameNested
        | Tag::NameLocal
        | Tag::NestedNameTemplateExplicitObject
        | Tag::TypeNodePointerTo
        | Tag::TypeNodeLvalueRef
        | Tag::TypeNodeRvalueRef => Role::First,
        Tag::NameUnscopedTemplate
        | Tag::LocalNameRelative
        | Tag::PrefixTemplate
        | Tag::TypeNodeTemplateTemplate
        | Tag::TypeNodeVendorExtension => Role::Second,
        Tag::NestedNameTemplate | Tag::LocalNameDefault => Role::Third,
        _ => Role::Nothing,
    }
}

/// Of a constructor, a destructor or a conversion.
fn special_role(tag: Tag) -> Role
    ensures { result ≡ special_role tag }
{
    match tag {
        Tag::UnqualifiedNameCtorDtor | Tag::OperatorNameConversion => Role::Itself,
        Tag::BackReference
        | Tag::NonSubstitution
        | Tag::Present
        | Tag::UnqualifiedNameOperator
        | Tag::NameNested
        | Tag::NameUnscoped
        | Tag::UnscopedNameUnqualified
        | Tag::UnscopedNameStd
        | Tag::PrefixUnqualified
        | Tag::PrefixTemplate
        | Tag::NestedNameUnqualifiedExplicitObject
        | Tag::NestedNameTemplateExplicitObject
        | Tag::SubstitutablePrefix => Role::First,
        Tag::PrefixNested => Role::Second,
        Tag::NestedNameUnqualified | Tag::NestedNameTemplate => Role::Third,
        _ => Role::Nothing,
    }
}

/// Where in a node with this tag it is that is looked up.
pub(crate) fn role_in(sought: Sought, tag: Tag) -> Role
    ensures { result ≡ role_in sought tag }
{
    match sought {
        Sought::LeafName => leaf_role(tag),
        Sought::PrefixArguments => arguments_role(tag),
        Sought::TypeArguments => arguments_role(tag),
        Sought::Special => special_role(tag),
    }
}
