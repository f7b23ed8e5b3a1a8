//! Tables that are made by hand, call by call, and what no reading gives: references that go round or to nothing.

use crate::checks::same;
use crate::components::is_table_copied;
use crate::lookups::{NOTHING, Of, is_found_in};
use demangle_discard::Discard;
use demangle_entries::{
    AbiTags, BuiltinType, CtorDtorName, Identifier, Prefix, PrefixHandle, SourceName,
    Substitutable, TypeHandle, TypeNode, UnqualifiedName,
};
use demangle_release::release_table;
use demangle_table::SubstitutionTable;
use demangle_vocab::StandardBuiltinType;
use std::alloc::Global;

/// The type `int`.
pub const INT: TypeHandle = TypeHandle::Builtin(BuiltinType::Standard(StandardBuiltinType::Int));

/// A component: a pointer to `int`, a class, or a constructor in the component of a number.
#[derive(Clone, Copy, Debug, PartialEq, Eq)]
enum Component {
    Pointer,
    Class,
    Link(usize),
}

/// A call of the table.
#[derive(Clone, Copy)]
enum Step {
    Insert(Component),
    InsertOther(Component),
    Pop,
    Cut(usize, usize),
}

/// The position that an insertion answers, or what came out of the table, where either is.
#[derive(Clone, Copy, Debug, PartialEq, Eq)]
enum Answer {
    Position(usize),
    Out(Component),
    Nothing,
}

/// A call, its answer, and what the two lists hold behind it.
type Line = (Step, Answer, &'static [Component], &'static [Component]);

/// All calls that change a table.
static SCRIPT: [Line; 14] = [
    (Step::Pop, Answer::Nothing, &[], &[]),
    (
        Step::Insert(Component::Pointer),
        Answer::Position(0),
        &[Component::Pointer],
        &[],
    ),
    (
        Step::InsertOther(Component::Pointer),
        Answer::Position(0),
        &[Component::Pointer],
        &[Component::Pointer],
    ),
    (Step::Cut(1, 0), Answer::Nothing, &[Component::Pointer], &[]),
    (
        Step::InsertOther(Component::Pointer),
        Answer::Position(0),
        &[Component::Pointer],
        &[Component::Pointer],
    ),
    (Step::Cut(0, 1), Answer::Nothing, &[], &[Component::Pointer]),
    (Step::Cut(3, 3), Answer::Nothing, &[], &[Component::Pointer]),
    (
        Step::Insert(Component::Class),
        Answer::Position(0),
        &[Component::Class],
        &[Component::Pointer],
    ),
    (
        Step::Insert(Component::Pointer),
        Answer::Position(1),
        &[Component::Class, Component::Pointer],
        &[Component::Pointer],
    ),
    (
        Step::InsertOther(Component::Link(1)),
        Answer::Position(1),
        &[Component::Class, Component::Pointer],
        &[Component::Pointer, Component::Link(1)],
    ),
    (
        Step::Pop,
        Answer::Out(Component::Pointer),
        &[Component::Class],
        &[Component::Pointer, Component::Link(1)],
    ),
    (
        Step::Pop,
        Answer::Out(Component::Class),
        &[],
        &[Component::Pointer, Component::Link(1)],
    ),
    (
        Step::Pop,
        Answer::Nothing,
        &[],
        &[Component::Pointer, Component::Link(1)],
    ),
    (Step::Cut(0, 0), Answer::Nothing, &[], &[]),
];

/// The component as a node.
fn made(alloc: Global, component: Component) -> Substitutable {
    match component {
        Component::Pointer => Substitutable::TypeNode(TypeNode::PointerTo(INT)),
        Component::Class => Substitutable::Prefix(Prefix::Unqualified(UnqualifiedName::Source(
            SourceName(Identifier { start: 0, end: 1 }),
            AbiTags(Vec::new(alloc)),
        ))),
        Component::Link(idx) => Substitutable::Prefix(Prefix::Nested(
            PrefixHandle::BackReference(idx),
            UnqualifiedName::CtorDtor(
                CtorDtorName::CompleteConstructor(None),
                AbiTags(Vec::new(alloc)),
            ),
        )),
    }
}

/// Which component the node is.
fn known(node: &Substitutable) -> Option<Component> {
    match node {
        Substitutable::TypeNode(TypeNode::PointerTo(to)) if *to == INT => Some(Component::Pointer),
        Substitutable::Prefix(Prefix::Unqualified(_)) => Some(Component::Class),
        Substitutable::Prefix(Prefix::Nested(PrefixHandle::BackReference(idx), _)) => {
            Some(Component::Link(*idx))
        }
        _ => None,
    }
}

/// What a call answers; nothing where an insertion wants memory.
fn done(alloc: Global, subs: &mut SubstitutionTable, step: Step) -> Answer {
    let inserted = match step {
        Step::Insert(component) => subs.insert(made(alloc, component)),
        Step::InsertOther(component) => subs.insert_non_substitution(made(alloc, component)),
        Step::Pop => {
            let Some(node) = subs.pop() else {
                return Answer::Nothing;
            };
            let out = known(&node);
            node.discard();
            return out.map_or(Answer::Nothing, Answer::Out);
        }
        Step::Cut(numbered, others) => {
            subs.cut_back((numbered, others));
            return Answer::Nothing;
        }
    };
    match inserted {
        Ok(at) => Answer::Position(at),
        Err(back) => {
            back.discard();
            Answer::Nothing
        }
    }
}

/// The component at a position of the second list, by the call that wants one there.
#[tactic(auto, unfolding(demangle_core::specs::Table::size, demangle_core::specs::Table::sizes))]
fn other(subs: &SubstitutionTable, idx: usize) -> Option<Component> {
    if idx < subs.lengths().1 {
        known(subs.non_substitution(idx))
    } else {
        None
    }
}

/// Whether the calls that look at the table find these components and no more.
fn holds(subs: &SubstitutionTable, numbered: &[Component], others: &[Component]) -> bool {
    let (count, other_count) = (numbered.len(), others.len());
    for (i, component) in numbered.iter().enumerate() {
        let found = subs.get(i).and_then(known);
        let is_type = subs.get_type(&TypeHandle::BackReference(i)).is_some();
        if found != Some(*component)
            || !subs.contains(i)
            || is_type != (found == Some(Component::Pointer))
        {
            return false;
        }
    }
    for (i, component) in others.iter().enumerate() {
        let found = subs.get_non_substitution(i).and_then(known);
        if found != Some(*component) || other(subs, i) != found {
            return false;
        }
    }
    subs.lengths() == (count, other_count)
        && subs.len() == count
        && subs.iter().count() == count
        && subs.entry_count() == count.wrapping_add(other_count)
        && subs.get(count).is_none()
        && subs.get_type(&TypeHandle::BackReference(count)).is_none()
        && subs.get_type(&INT).is_none()
        && !subs.contains(count)
        && subs.get_non_substitution(other_count).is_none()
}

/// The number of the first line that comes out otherwise.
fn first_wrong(alloc: Global, script: &[Line]) -> Option<usize> {
    let mut subs = SubstitutionTable::new(alloc);
    let mut wrong = None;
    for (i, (step, answer, numbered, others)) in script.iter().enumerate() {
        let is_right = done(alloc, &mut subs, *step) == *answer && holds(&subs, *numbered, *others);
        if wrong.is_none() && !is_right {
            wrong = Some(i);
        }
    }
    release_table(subs);
    wrong
}

#[test]
fn the_calls_of_the_table_one_after_another(rt: HostRuntime) {
    same(&rt, "the calls", first_wrong(rt.alloc(), &SCRIPT), None);
}

/// A table behind these insertions.
fn table_after(alloc: Global, steps: &[Step]) -> SubstitutionTable {
    let mut subs = SubstitutionTable::new(alloc);
    for step in steps {
        done(alloc, &mut subs, *step);
    }
    subs
}

/// Calls, other calls, and whether the tables are equal behind them.
type Pair = (&'static [Step], &'static [Step], bool);

/// The order between the lists is left out by equality.
static PAIRS: [Pair; 3] = [
    (&[], &[], true),
    (&[], &[Step::InsertOther(Component::Class)], false),
    (
        &[
            Step::Insert(Component::Pointer),
            Step::InsertOther(Component::Pointer),
        ],
        &[
            Step::InsertOther(Component::Pointer),
            Step::Insert(Component::Pointer),
        ],
        true,
    ),
];

/// Whether the tables are equal, and whether both are copied.
fn compared(alloc: Global, steps: &[Step], other: &[Step]) -> (bool, bool) {
    let one = table_after(alloc, steps);
    let two = table_after(alloc, other);
    let found = (
        one == two,
        is_table_copied(alloc, &one) && is_table_copied(alloc, &two),
    );
    release_table(one);
    release_table(two);
    found
}

#[test]
fn the_order_between_the_lists_is_left_out_by_equality(rt: HostRuntime) {
    for (i, (steps, other, are_equal)) in PAIRS.iter().enumerate() {
        let found = compared(rt.alloc(), *steps, *other);
        same(&rt, i, found, (*are_equal, true));
    }
}

/// Whether a list of one component becomes its table.
fn is_list_held(alloc: Global) -> bool {
    let mut list = Vec::new(alloc);
    if let Err(refused) = list.push(made(alloc, Component::Pointer)) {
        refused.value.discard();
        list.discard();
        return false;
    }
    let subs = SubstitutionTable::from_list(alloc, list);
    let is_held = holds(&subs, &[Component::Pointer], &[]) && is_table_copied(alloc, &subs);
    release_table(subs);
    is_held
}

#[test]
fn a_list_becomes_a_table(rt: HostRuntime) {
    same(&rt, "the list", is_list_held(rt.alloc()), true);
}

/// References that go round, in one component and in two, and one to nothing.
static ROUNDS: [&[Step]; 3] = [
    &[Step::Insert(Component::Link(0))],
    &[
        Step::Insert(Component::Link(1)),
        Step::Insert(Component::Link(0)),
    ],
    &[Step::Insert(Component::Link(5))],
];

/// Whether the look-ups end with no name and no arguments.
fn has_no_leaf(alloc: Global, steps: &[Step]) -> bool {
    let subs = table_after(alloc, steps);
    let first = Of::Prefix(PrefixHandle::BackReference(0));
    let has_no_leaf = is_found_in(alloc, &subs, first, (NOTHING, None, true));
    release_table(subs);
    has_no_leaf
}

#[test]
fn references_that_go_round_have_no_leaf(rt: HostRuntime) {
    for (i, steps) in ROUNDS.iter().enumerate() {
        same(&rt, i, has_no_leaf(rt.alloc(), *steps), true);
    }
}
