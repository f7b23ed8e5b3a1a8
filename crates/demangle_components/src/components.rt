//! The two lists of components.

ghost use Rattle.std.specs.Prelude.{◌≡◌, ◌+◌, ◌-◌, ◌<◌, length, map, min, IfOk, IfErr, OnOk, OnErr, IfSome, IfNone};
ghost use Rattle.std.specs.Prelude.{IsTrue, Some, option_map, ◌↔◌};
ghost use Rattle.std.specs.Cmp.{on_equiv, on_per, partial_equiv_from_equiv};
ghost use Rattle.demangle_core.specs.Core.{N, U};
ghost use Rattle.demangle_core.specs.Same.{same_tables_equiv};
ghost use Rattle.demangle_core.specs.Table.{added, cut, empty_table, entry_at, listed, numbered, same_tables, size};
ghost use Rattle.demangle_core.specs.Table.{sizes};
ghost use Rattle.demangle_text.specs.declared.error.Error.TheVariants.{OutOfMemory};
ghost use Rattle.demangle_components.specs.View.{Climb, Rise, Rise-prop, table_from};

use crate::component::{Component, CopyComponent};
use std::alloc::Global;

/// For how many numbered components there is room from the first on. Few names have more.
const FIRST_ROOM: usize = 8;

/// The components of a name in the order in which they were completed: the numbered ones, which `S_` and its like refer
/// to, and the others.
#[derive(Drop)]
pub struct Components<T> {
    numbered: Vec<T>,
    others: Vec<T>,
    // How many numbered components stood at the insertion of each of the others.
    numbered_before: Vec<usize>,
    ghost paired: { length numbered_before.items ≡ length others.items },
    ghost rising: { Rise 0 (length numbered.items) numbered_before.items } by { Rise-prop 0 (length numbered.items) numbered_before.items },
}

impl<T: Component> Components<T> {
    ghost use Rattle.demangle_components.specs.TableOf.{table_of};

    /// A table with no entries. It takes no memory.
    #[tactic(auto, using(crate::proofs::Calls::calls))]
    pub fn new(alloc: Global) -> Components<T>
        ensures { table_of T.tree result ≡ empty_table }
    {
        Components {
            numbered: Vec::new(alloc),
            others: Vec::new(alloc),
            numbered_before: Vec::new(alloc),
        }
    }

    /// A table of these numbered components and no others. It takes no memory.
    #[tactic(auto, using(crate::proofs::Calls::calls))]
    pub fn from_list(alloc: Global, list: Vec<T>) -> Components<T>
        ensures { table_of T.tree result ≡ numbered (map T.tree list.items) }
    {
        Components {
            numbered: list,
            others: Vec::new(alloc),
            numbered_before: Vec::new(alloc),
        }
    }

    /// Adds a numbered component, and answers its position. For want of memory the component comes back, and the table
    /// is as before.
    #[tactic(auto, using(crate::proofs::Calls::calls))]
    pub fn insert(&mut self, component: T) -> Result<usize, T>
        ensures position { IfOk result (λ n. n ≡ size N (table_of T.tree self.old)) }
        ensures inserted { OnOk result (table_of T.tree self.new
            ≡ added N (T.tree component) (table_of T.tree self.old)) }
        ensures unchanged { OnErr result (table_of T.tree self.new ≡ table_of T.tree self.old) }
        ensures handed_back { IfErr result (λ e. e ≡ component) }
    {
        let position = self.numbered.len();
        if position == 0 && self.numbered.reserve(FIRST_ROOM).is_err() {
            return Err(component);
        }
        match self.numbered.push(component) {
            Ok(()) => Ok(position),
            Err(failed) => Err(failed.value),
        }
    }

    /// Adds a component that no number refers to, and answers its position among these. For want of memory the
    /// component comes back, and the table is as before.
    #[tactic(auto, using(crate::proofs::Calls::calls))]
    pub fn insert_other(&mut self, component: T) -> Result<usize, T>
        ensures position { IfOk result (λ n. n ≡ size U (table_of T.tree self.old)) }
        ensures inserted { OnOk result (table_of T.tree self.new
            ≡ added U (T.tree component) (table_of T.tree self.old)) }
        ensures unchanged { OnErr result (table_of T.tree self.new ≡ table_of T.tree self.old) }
        ensures handed_back { IfErr result (λ e. e ≡ component) }
    {
        let position = self.others.len();
        if self.numbered_before.push(self.numbered.len()).is_err() {
            return Err(component);
        }
        match self.others.push(component) {
            Ok(()) => Ok(position),
            Err(failed) => {
                self.numbered_before.pop();
                Err(failed.value)
            }
        }
    }

    /// Whether a numbered component stands at `idx`.
    #[tactic(auto, using(crate::proofs::Calls::calls))]
    pub fn contains(&self, idx: usize) -> bool
        ensures { IsTrue result ↔ (idx < size N (table_of T.tree self.now)) }
    {
        idx < self.numbered.len()
    }

    /// The numbered component at `idx`; `None` exactly where there is none.
    #[tactic(auto, using(crate::proofs::Calls::calls))]
    pub fn get(&self, idx: usize) -> Option<&T>
        ensures { option_map (λ x. T.tree x.now) result ≡ entry_at N idx (table_of T.tree self.now) }
    {
        self.numbered.get(idx)
    }

    /// How many numbered components there are.
    #[tactic(auto, using(crate::proofs::Calls::calls))]
    pub fn len(&self) -> usize
        ensures { result ≡ size N (table_of T.tree self.now) }
    {
        self.numbered.len()
    }

    /// The numbered components in order.
    #[tactic(auto, using(crate::proofs::Calls::calls))]
    pub fn numbered(&self) -> &[T]
        ensures { map T.tree result.now ≡ listed N (table_of T.tree self.now) }
    {
        &self.numbered
    }

    /// The other components in order.
    #[tactic(auto, using(crate::proofs::Calls::calls))]
    pub fn others(&self) -> &[T]
        ensures { map T.tree result.now ≡ listed U (table_of T.tree self.now) }
    {
        &self.others
    }

    /// The component at `idx` of those that no number refers to, which must be there.
    #[tactic(auto, using(crate::proofs::Calls::calls))]
    pub fn other(&self, idx: usize) -> &T
        requires { idx < size U (table_of T.tree self.now) }
        ensures { entry_at U idx (table_of T.tree self.now) ≡ Some (T.tree result.now) }
    {
        &self.others[idx]
    }

    /// The component at `idx` of those that no number refers to; `None` exactly where there is none.
    #[tactic(auto, using(crate::proofs::Calls::calls))]
    pub fn get_other(&self, idx: usize) -> Option<&T>
        ensures { option_map (λ x. T.tree x.now) result ≡ entry_at U idx (table_of T.tree self.now) }
    {
        self.others.get(idx)
    }

    /// The numbered components, the others, and for each of the others how many numbered ones stood at its insertion.
    pub fn lists(&self) -> (&[T], &[T], &[usize])
        ensures { table_from T.tree result.0.now result.1.now result.2.now ≡ table_of T.tree self.now }
    {
        (&self.numbered, &self.others, &self.numbered_before)
    }

    /// How many numbered components and how many others there are.
    #[tactic(auto, using(crate::proofs::Calls::calls))]
    pub fn lengths(&self) -> (usize, usize)
        ensures { result ≡ sizes (table_of T.tree self.now) }
    {
        (self.numbered.len(), self.others.len())
    }

    /// How many components there are in both lists.
    #[tactic(auto, using(crate::proofs::Calls::calls))]
    pub fn entry_count(&self) -> usize
        ensures { result ≡ size N (table_of T.tree self.now) + size U (table_of T.tree self.now) }
    {
        self.numbered.len() + self.others.len()
    }

    /// Takes the last numbered component out; `None` exactly where there is none.
    #[tactic(auto, using(crate::proofs::Calls::calls))]
    pub fn pop(&mut self) -> Option<T>
        ensures last { IfSome result (λ x. entry_at N (size N (table_of T.tree self.old) - 1)
            (table_of T.tree self.old) ≡ Some (T.tree x)) }
        ensures shorter { IfSome result (λ _. table_of T.tree self.new
            ≡ cut (size N (table_of T.tree self.old) - 1, size U (table_of T.tree self.old))
            (table_of T.tree self.old)) }
        ensures some { IfSome result (λ _. 0 < size N (table_of T.tree self.old)) }
        ensures none { IfNone result (size N (table_of T.tree self.old) ≡ 0) }
        ensures unchanged { IfNone result (table_of T.tree self.new ≡ table_of T.tree self.old) }
    {
        let last = self.numbered.pop()?;
        lower(&mut self.numbered_before, self.numbered.len());
        Some(last)
    }

    /// A copy whose components `copier` makes, in the same order of insertion over both lists. `OutOfMemory` is its
    /// only refusal.
    #[tactic(auto, using(crate::proofs::Copies::copies))]
    pub fn copy_with<C: CopyComponent<T>>(
        &self,
        alloc: Global,
        copier: &C,
    ) -> demangle_text::Result<Components<T>>
        ensures equal { IfOk result (λ r. table_of T.tree r ≡ table_of T.tree self.now) }
        ensures refused { IfErr result (λ e. e ≡ OutOfMemory) }
    {
        let numbered = copied(alloc, &self.numbered, copier)?;
        let others = copied(alloc, &self.others, copier)?;
        let numbered_before = Vec::from_slice(alloc, &self.numbered_before)?;
        Ok(Components {
            numbered,
            others,
            numbered_before,
        })
    }

    /// Cuts both lists to these lengths: what was inserted after them is gone. A length above the present one cuts
    /// nothing.
    #[tactic(auto, using(crate::proofs::Calls::calls))]
    pub fn cut_back(&mut self, lengths: (usize, usize))
        ensures { table_of T.tree self.new ≡ cut lengths (table_of T.tree self.old) }
    {
        self.numbered.truncate(lengths.0);
        self.others.truncate(lengths.1);
        self.numbered_before.truncate(lengths.1);
        lower(&mut self.numbered_before, lengths.0);
    }
}

/// Equal components in both lists; the order between the lists is left out.
impl<T: Component> PartialEq for Components<T> {
    ghost use Rattle.demangle_components.specs.TableOf.{table_of};

    ghost eq = { λ a b. same_tables (table_of T.tree a) (table_of T.tree b) };

    ghost laws = { on_per (table_of T.tree) (partial_equiv_from_equiv same_tables_equiv) };

    #[tactic(auto, using(crate::proofs::Equality::tables_equal))]
    fn eq(&self, other: &Components<T>) -> bool {
        self.numbered == other.numbered && self.others == other.others
    }
}

impl<T: Component> Eq for Components<T> {
    ghost use Rattle.demangle_components.specs.TableOf.{table_of};

    ghost laws = { on_equiv (table_of T.tree) same_tables_equiv };
}

// The counts rise, so those that are too high stand at the end.
fn lower(counts: &mut Vec<usize>, most: usize)
    requires { Climb 0 counts.old.items }
    ensures { counts.new.items ≡ map (min most) counts.old.items }
{
    let mut i = counts.len();
    while i > 0 && counts[i - 1] > most {
        i -= 1;
        counts[i] = most;
    }
}

fn copied<T: Component, C: CopyComponent<T>>(
    alloc: Global,
    components: &[T],
    copier: &C,
) -> demangle_text::Result<Vec<T>>
    ensures copied { IfOk result (λ r. map T.tree r.items ≡ map T.tree components.now) }
    ensures refused { IfErr result (λ e. e ≡ OutOfMemory) }
{
    let mut copy = Vec::with_capacity(alloc, components.len())?;
    for component in components {
        copy.push(copier.copy_component(alloc, component)?)?;
    }
    Ok(copy)
}
