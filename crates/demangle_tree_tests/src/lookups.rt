//! The look-ups through the table.

use crate::checks::same;
use crate::reading::{component, table_of};
use crate::rows::is_shown;
use demangle_entries::{
    ClassEnumType, LeafName, Name, NestedName, NonSubstitution, PrefixHandle, Substitutable,
    TemplateTemplateParamHandle, TypeHandle, TypeNode, UnresolvedTypeHandle,
    UnscopedTemplateNameHandle,
};
use demangle_release::release_table;
use demangle_table::SubstitutionTable;
use demangle_tree::{GetLeafName, GetTemplateArgs, IsCtorDtorConversion};
use demangle_vocab::WellKnownComponent;
use std::alloc::{AllocError, Global};

/// What is looked at: a handle, a component, the type in it, or the name of the class that the last component is, and
/// what that name holds.
#[derive(Clone, Copy)]
pub enum Of {
    Prefix(PrefixHandle),
    Type(TypeHandle),
    Unscoped(UnscopedTemplateNameHandle),
    Template(TemplateTemplateParamHandle),
    Unresolved(UnresolvedTypeHandle),
    Component(usize),
    Node(usize),
    Name,
    Held,
    Unqualified,
}

/// The leaf name as `{:?}` shows it, the place of the template arguments, and whether it is a constructor, a destructor
/// or a conversion; as little as can be for what has no such look-up.
pub type Found = (&'static str, Option<usize>, bool);

/// The leaf names by where their identifiers stand.
const AT_1: &str = "Some(SourceName(SourceName(Identifier { start: 1, end: 2 })))";

const AT_2: &str = "Some(SourceName(SourceName(Identifier { start: 2, end: 3 })))";

const AT_4: &str = "Some(SourceName(SourceName(Identifier { start: 4, end: 5 })))";

const AT_6: &str = "Some(SourceName(SourceName(Identifier { start: 6, end: 7 })))";

const AT_8: &str = "Some(SourceName(SourceName(Identifier { start: 8, end: 9 })))";

/// No leaf name.
pub const NOTHING: &str = "None";

/// A type, what is looked at, and what is found.
type Case = (&'static [u8], Of, Found);

/// Handles to a class, to a template, to a list of arguments, to no component and to known ones.
static HANDLES: [Case; 14] = [
    (
        b"N1a1bE",
        Of::Prefix(PrefixHandle::BackReference(0)),
        (AT_2, None, false),
    ),
    (
        b"N1a1bE",
        Of::Prefix(PrefixHandle::BackReference(2)),
        (NOTHING, None, false),
    ),
    (
        b"N1a1bE",
        Of::Prefix(PrefixHandle::WellKnown(WellKnownComponent::Std)),
        (NOTHING, None, false),
    ),
    (
        b"N1a1bE",
        Of::Prefix(PrefixHandle::WellKnown(WellKnownComponent::StdAllocator)),
        ("Some(WellKnownComponent(StdAllocator))", None, false),
    ),
    (
        b"N1a1bE",
        Of::Type(TypeHandle::BackReference(0)),
        (AT_2, None, false),
    ),
    (
        b"N1a1bE",
        Of::Unscoped(UnscopedTemplateNameHandle::BackReference(0)),
        (AT_2, None, false),
    ),
    (
        b"N1a1bE",
        Of::Template(TemplateTemplateParamHandle::BackReference(0)),
        (AT_2, None, false),
    ),
    (
        b"N1a1bE",
        Of::Unresolved(UnresolvedTypeHandle::BackReference(0)),
        (AT_2, None, false),
    ),
    (
        b"N1a1bIiEE",
        Of::Prefix(PrefixHandle::NonSubstitution(NonSubstitution(0))),
        (AT_4, Some(5), false),
    ),
    (
        b"N1a1bIiEE",
        Of::Prefix(PrefixHandle::NonSubstitution(NonSubstitution(1))),
        (NOTHING, None, false),
    ),
    (
        b"N1aC1E",
        Of::Prefix(PrefixHandle::NonSubstitution(NonSubstitution(0))),
        (AT_2, None, true),
    ),
    (
        b"RU1aIiEi",
        Of::Type(TypeHandle::BackReference(0)),
        (NOTHING, Some(4), false),
    ),
    (
        b"RU1aIiEi",
        Of::Type(TypeHandle::BackReference(1)),
        (NOTHING, Some(4), false),
    ),
    (b"RU1aIiEi", Of::Node(1), (NOTHING, Some(4), false)),
];

/// Names, what they hold, and components. A constructor alone has no leaf name, one in a class has the class's. A
/// nested name is a constructor where its prefix is, as in the original.
static NAMES: [Case; 17] = [
    (b"1a", Of::Name, (AT_1, None, false)),
    (b"1aIiE", Of::Name, (AT_1, Some(2), false)),
    (b"N1a1bIiEE", Of::Name, (AT_4, Some(5), false)),
    (b"N1a1bIiEE", Of::Held, (AT_4, Some(5), false)),
    (b"NKR1aC1E", Of::Held, (AT_4, None, false)),
    (b"N1aC1C1E", Of::Held, (AT_2, None, true)),
    (b"NKR1aC1E", Of::Component(0), (AT_4, None, false)),
    (b"NKR1aC1E", Of::Component(2), (AT_4, None, true)),
    (b"NKR1aC1E", Of::Unqualified, (NOTHING, None, true)),
    (b"N1aD1E", Of::Unqualified, (NOTHING, None, true)),
    (b"N1acviE", Of::Unqualified, (NOTHING, None, true)),
    (b"N1anwE", Of::Unqualified, (NOTHING, None, false)),
    (b"N1a1bE", Of::Unqualified, (AT_4, None, false)),
    (b"Z1fvESt1a", Of::Held, (AT_8, None, false)),
    (b"Z1fvE1aIiE", Of::Held, (AT_6, Some(7), false)),
    (
        b"N1aUt0_E",
        Of::Name,
        ("Some(UnnamedType(UnnamedTypeName(Some(0))))", None, false),
    ),
    (
        b"N1aUlvE_E",
        Of::Name,
        (
            "Some(Closure(ClosureTypeName(LambdaSig([]), None)))",
            None,
            false,
        ),
    ),
];

fn name_of(subs: &SubstitutionTable) -> Option<&Name> {
    match subs.get(subs.len().checked_sub(1)?)? {
        Substitutable::TypeNode(TypeNode::ClassEnum(ClassEnumType::Named(name))) => Some(name),
        _ => None,
    }
}

fn leaf_of<'a>(of: &'a Of, subs: &'a SubstitutionTable) -> Option<LeafName<'a>> {
    match of {
        Of::Prefix(handle) => handle.get_leaf_name(subs),
        Of::Type(handle) => handle.get_leaf_name(subs),
        Of::Unscoped(handle) => handle.get_leaf_name(subs),
        Of::Template(handle) => handle.get_leaf_name(subs),
        Of::Unresolved(handle) => handle.get_leaf_name(subs),
        Of::Component(idx) => component(subs, *idx)?.get_leaf_name(subs),
        Of::Node(idx) => subs
            .get_type(&TypeHandle::BackReference(*idx))?
            .get_leaf_name(subs),
        Of::Name => name_of(subs)?.get_leaf_name(subs),
        Of::Held => match name_of(subs)? {
            Name::Nested(name) => name.get_leaf_name(subs),
            Name::Local(name) => name.get_leaf_name(subs),
            _ => None,
        },
        Of::Unqualified => match name_of(subs)? {
            Name::Nested(NestedName::Unqualified(_, _, _, name)) => name.get_leaf_name(subs),
            _ => None,
        },
    }
}

fn place_of(of: &Of, subs: &SubstitutionTable) -> Option<usize> {
    let args = match of {
        Of::Prefix(handle) => handle.get_template_args(subs),
        Of::Type(handle) => handle.get_template_args(subs),
        Of::Node(idx) => subs
            .get_type(&TypeHandle::BackReference(*idx))?
            .get_template_args(subs),
        Of::Name => name_of(subs)?.get_template_args(subs),
        Of::Held => match name_of(subs)? {
            Name::Nested(name) => name.get_template_args(subs),
            Name::Local(name) => name.get_template_args(subs),
            _ => None,
        },
        _ => None,
    };
    Some(args?.1)
}

fn is_special(of: &Of, subs: &SubstitutionTable) -> Option<bool> {
    Some(match of {
        Of::Prefix(handle) => handle.is_ctor_dtor_conversion(subs),
        Of::Component(idx) => component(subs, *idx)?.is_ctor_dtor_conversion(subs),
        Of::Name => name_of(subs)?.is_ctor_dtor_conversion(subs),
        Of::Held => match name_of(subs)? {
            Name::Nested(name) => name.is_ctor_dtor_conversion(subs),
            _ => false,
        },
        Of::Unqualified => match name_of(subs)? {
            Name::Nested(NestedName::Unqualified(_, _, _, name)) => {
                name.is_ctor_dtor_conversion(subs)
            }
            _ => false,
        },
        _ => false,
    })
}

/// Whether the look-ups find this.
pub fn is_found_in(alloc: Global, subs: &SubstitutionTable, of: Of, wanted: Found) -> bool {
    let (leaf, place, special) = wanted;
    is_shown(alloc, &leaf_of(&of, subs), leaf)
        && place_of(&of, subs) == place
        && is_special(&of, subs) == Some(special)
}

fn is_found(alloc: Global, bytes: &[u8], of: Of, wanted: Found) -> Option<bool> {
    let subs = table_of(alloc, bytes)?;
    let is_found = is_found_in(alloc, &subs, of, wanted);
    release_table(subs);
    Some(is_found)
}

/// The number of the first case that comes out otherwise.
fn first_other(alloc: Global, cases: &[Case]) -> Option<usize> {
    for (i, (bytes, of, wanted)) in cases.iter().enumerate() {
        if is_found(alloc, *bytes, *of, *wanted) != Some(true) {
            return Some(i);
        }
    }
    None
}

#[test]
fn the_table_is_looked_through(rt: HostRuntime) {
    same(&rt, "handles", first_other(rt.alloc(), &HANDLES), None);
    same(&rt, "names", first_other(rt.alloc(), &NAMES), None);
}

/// Whether the nested name has an explicit object, qualifiers and a ref-qualifier.
fn fields(alloc: Global, bytes: &[u8]) -> Option<(bool, bool, bool)> {
    let subs = table_of(alloc, bytes)?;
    let fields = match name_of(&subs) {
        Some(Name::Nested(name)) => Some((
            name.has_explicit_obj_param(),
            name.cv_qualifiers().is_some(),
            name.ref_qualifier().is_some(),
        )),
        _ => None,
    };
    release_table(subs);
    fields
}

/// Nested names, and the same of them.
static FIELDS: [(&[u8], (bool, bool, bool)); 3] = [
    (b"NKR1aC1E", (false, true, true)),
    (b"N1a1bIiEE", (false, true, false)),
    (b"NH1a1bE", (true, false, false)),
];

#[test]
fn a_nested_name_gives_its_fields(rt: HostRuntime) {
    let alloc = rt.alloc();
    for (bytes, wanted) in &FIELDS {
        same(&rt, *bytes, fields(alloc, *bytes), Some(*wanted));
    }
}

/// How many links the long chain has.
const MANY: usize = 100_000;

/// A class, and so many constructors, each in what is before it; of the last one the type is.
fn chain(alloc: Global) -> Result<Vec<u8>, AllocError> {
    let mut bytes = Vec::new(alloc);
    bytes.extend_from_slice(b"N1a")?;
    for _ in 0..MANY {
        bytes.extend_from_slice(b"C1")?;
    }
    bytes.extend_from_slice(b"C1E")?;
    Ok(bytes)
}

#[test]
fn a_long_chain_takes_no_stack(rt: HostRuntime) {
    let alloc = rt.alloc();
    let bytes = chain(alloc).expect(&rt, "memory");
    let end = Of::Prefix(PrefixHandle::BackReference(MANY));
    let found = is_found(alloc, bytes.as_slice(), end, (AT_2, None, true));
    same(&rt, "the chain", found, Some(true));
}
