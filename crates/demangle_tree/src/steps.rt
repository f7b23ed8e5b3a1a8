//! One step of a look-up, and the loop that goes from step to step.

ghost use Rattle.std.specs.Prelude.{◌≡◌, option_map};
ghost use Rattle.demangle_core.specs.Core.{Core};
ghost use Rattle.demangle_core.specs.Lookups.{Next, after, answer_of, refers, settled};
ghost use Rattle.demangle_entries.specs.TreeEntries.{tree_of_substitutable};
ghost use Rattle.demangle_table.specs.TableOf.{table_of};
ghost use Rattle.demangle_tree.specs.Steps.{next_of};

use demangle_entries::Substitutable;
use demangle_table::SubstitutionTable;

/// What a look-up finds in one node: its answer, that there is none, or the position of a component, whose answer is
/// then that of the look-up.
#[derive(Clone, Copy)]
pub(crate) enum Step<A> {
    Answer(A),
    Nothing,
    Numbered(usize),
    Other(usize),
}

impl<A: Copy> Step<A> {
    fn refers(&self) -> bool
        ensures { (tree : A → Core) → result ≡ refers (next_of tree self.now) }
    {
        match self {
            Step::Numbered(_) => true,
            Step::Other(_) => true,
            _ => false,
        }
    }

    fn answer(self) -> Option<A>
        ensures { (tree : A → Core) → option_map tree result ≡ answer_of (next_of tree self) }
    {
        match self {
            Step::Answer(answer) => Some(answer),
            _ => None,
        }
    }
}

/// A look-up: what it answers with, and what it finds in a component.
pub(crate) trait LookUp<'a> {
    type Answer: Copy;

    /// The tree of an answer.
    ghost tree: { Self.Answer → Core };
    /// What its definition finds in the tree of a component.
    ghost step: { Core → Next Core };

    /// What it finds in a component.
    fn step_of(component: &'a Substitutable) -> Step<Self::Answer>
        ensures { next_of tree result ≡ step (tree_of_substitutable component.now) };
}

fn after<'a, L: LookUp<'a>>(step: Step<L::Answer>, subs: &'a SubstitutionTable) -> Step<L::Answer>
    ensures { next_of L.tree result ≡ after L.step (table_of subs.now) (next_of L.tree step) }
{
    match step {
        Step::Numbered(idx) => match subs.get(idx) {
            Some(component) => L::step_of(component),
            None => Step::Nothing,
        },
        Step::Other(idx) => match subs.get_non_substitution(idx) {
            Some(component) => L::step_of(component),
            None => Step::Nothing,
        },
        _ => step,
    }
}

/// The answer that follows from the first step. References are followed by a loop, at most as often as the table has
/// components, so a long chain of them takes no stack.
#[tactic(auto, using(demangle_core::proofs::Resolved::following))]
pub(crate) fn follow<'a, L: LookUp<'a>>(
    first: Step<L::Answer>,
    subs: &'a SubstitutionTable,
) -> Option<L::Answer>
    ensures { option_map L.tree result ≡ settled L.step (table_of subs.now) (next_of L.tree first) }
{
    let mut step = first;
    let mut more = subs.entry_count();
    while more > 0 && step.refers() {
        step = after::<L>(step, subs);
        more -= 1;
    }
    step.answer()
}
