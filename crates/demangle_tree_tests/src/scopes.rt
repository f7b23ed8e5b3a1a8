//! Scopes: the look-ups, and the mark of a list.

use crate::checks::same;
use crate::reading::table_of;
use crate::worked::INT;
use demangle_entries::{
    Identifier, LeafName, SourceName, Substitutable, TemplateArg, TypeHandle, TypeNode,
};
use demangle_release::release_table;
use demangle_scope::{
    ArgScopeStack, ScopeItem, scope_in_arg, scope_leaf_name, scope_push, scope_template_arg,
};
use demangle_table::SubstitutionTable;
use demangle_text::Error;
use std::alloc::Global;

/// Three types of the compiler's vendor, each in the one before. Their lists of arguments have `int` and component 0,
/// `int` and component 1, and `int`.
const TYPES: &[u8] = b"U1aIiPiEU1bIiRiEU1cIiEi";

/// The components of these types, and the places of their lists.
const FIRST: usize = 4;

const FIRST_PLACE: usize = 3;

const SECOND: usize = 3;

const SECOND_PLACE: usize = 11;

const SHORT: usize = 2;

const SHORT_PLACE: usize = 19;

/// The arguments of a component, or its name.
#[derive(Clone, Copy)]
enum Item {
    Args(usize),
    Name(usize),
}

/// A scope: its entries, the newest last, and the member of a component's list that is being printed.
type Scope = (&'static [Item], Option<(usize, usize)>);

/// The type that an argument of a scope is, with the place of its list, and the scope's leaf name.
type Answers = (
    Result<(TypeHandle, usize), Error>,
    Result<SourceName, Error>,
);

/// A scope, the number of an argument, and what is found.
type Case = (Scope, usize, Answers);

/// The name of the first type.
const NAME: SourceName = SourceName(Identifier { start: 2, end: 3 });

/// What is answered where no entry is a leaf name.
const NO_LEAF: Result<SourceName, Error> = Err(Error::BadLeafNameReference);

/// A list that is being printed hides what follows; another doesn't. The newest list that has the member gives it. A
/// leaf name is found behind a list.
static CASES: [Case; 10] = [
    (
        (&[], None),
        0,
        (Err(Error::BadTemplateArgReference), NO_LEAF),
    ),
    (
        (&[Item::Args(FIRST)], Some((1, FIRST))),
        0,
        (Ok((INT, FIRST_PLACE)), NO_LEAF),
    ),
    (
        (&[Item::Args(FIRST)], Some((1, FIRST))),
        1,
        (Err(Error::ForwardTemplateArgReference), NO_LEAF),
    ),
    (
        (&[Item::Args(FIRST)], Some((1, FIRST))),
        2,
        (Err(Error::BadTemplateArgReference), NO_LEAF),
    ),
    (
        (&[Item::Args(FIRST)], Some((1, SECOND))),
        1,
        (Ok((TypeHandle::BackReference(0), FIRST_PLACE)), NO_LEAF),
    ),
    (
        (&[Item::Args(FIRST), Item::Args(SECOND)], None),
        1,
        (Ok((TypeHandle::BackReference(1), SECOND_PLACE)), NO_LEAF),
    ),
    (
        (&[Item::Args(FIRST), Item::Args(SHORT)], None),
        0,
        (Ok((INT, SHORT_PLACE)), NO_LEAF),
    ),
    (
        (&[Item::Args(FIRST), Item::Args(SHORT)], None),
        1,
        (Ok((TypeHandle::BackReference(0), FIRST_PLACE)), NO_LEAF),
    ),
    (
        (&[Item::Name(FIRST)], None),
        0,
        (Err(Error::BadTemplateArgReference), Ok(NAME)),
    ),
    (
        (&[Item::Name(FIRST), Item::Args(FIRST)], None),
        0,
        (Ok((INT, FIRST_PLACE)), Ok(NAME)),
    ),
];

fn item_of<'a>(subs: &'a SubstitutionTable, item: Option<&Item>) -> Option<ScopeItem<'a>> {
    let (idx, is_name) = match item? {
        Item::Args(idx) => (*idx, false),
        Item::Name(idx) => (*idx, true),
    };
    match subs.get(idx)? {
        Substitutable::TypeNode(TypeNode::VendorExtension(name, _, _)) if is_name => {
            Some(ScopeItem::SourceName(name))
        }
        Substitutable::TypeNode(TypeNode::VendorExtension(_, Some(args), _)) => {
            Some(ScopeItem::Args(args))
        }
        _ => None,
    }
}

/// What the look-ups answer; `None` where the argument is no type, or the leaf name no identifier.
fn found(scope: Option<ArgScopeStack<'_, '_>>, idx: usize) -> Option<Answers> {
    let argument = match scope_template_arg(&scope, idx) {
        Ok((TemplateArg::TypeArg(argument), list)) => Ok((*argument, list.1)),
        Ok(_) => return None,
        Err(error) => Err(error),
    };
    let leaf = match scope_leaf_name(&scope) {
        Ok(LeafName::SourceName(name)) => Ok(*name),
        Ok(_) => return None,
        Err(error) => Err(error),
    };
    Some((argument, leaf))
}

/// The same where a member of a component's list is being printed.
fn found_in<'subs>(
    subs: &'subs SubstitutionTable,
    scope: Option<ArgScopeStack<'_, 'subs>>,
    mark: Option<(usize, usize)>,
    idx: usize,
) -> Option<Answers> {
    let Some((index, list)) = mark else {
        return found(scope, idx);
    };
    match item_of(subs, Some(&Item::Args(list))) {
        Some(ScopeItem::Args(list)) => found(scope_in_arg(scope, index, list), idx),
        _ => None,
    }
}

fn answers(subs: &SubstitutionTable, scope: Scope, idx: usize) -> Option<Answers> {
    let (items, mark) = scope;
    let nothing = None;
    let Some(first) = item_of(subs, items.get(0)) else {
        return found_in(subs, None, mark, idx);
    };
    let older = scope_push(&nothing, first);
    match item_of(subs, items.get(1)) {
        Some(second) => found_in(subs, scope_push(&older, second), mark, idx),
        None => found_in(subs, older, mark, idx),
    }
}

/// The number of a case that comes out otherwise.
fn wrong(alloc: Global) -> Option<Option<usize>> {
    let subs = table_of(alloc, TYPES)?;
    let mut wrong = None;
    for (i, (scope, idx, wanted)) in CASES.iter().enumerate() {
        if answers(&subs, *scope, *idx) != Some(*wanted) {
            wrong = Some(i);
        }
    }
    release_table(subs);
    Some(wrong)
}

#[test]
fn a_scope_gives_what_its_entries_have(rt: HostRuntime) {
    same(&rt, "all", wrong(rt.alloc()), Some(None));
}
