//! The substitution table.

ghost use Rattle.std.specs.Prelude.{◌≡◌, ◌+◌, ◌-◌, ◌<◌, map, IfOk, IfErr, OnOk, OnErr, IfSome, IfNone, IsTrue, Some};
ghost use Rattle.std.specs.Prelude.{option_map, ◌↔◌};
ghost use Rattle.std.specs.Cmp.{on_equiv, on_per, partial_equiv_from_equiv};
ghost use Rattle.std.specs.Slice.Iter.{iter_rest};
ghost use Rattle.demangle_components.specs.View.{table_from};
ghost use Rattle.demangle_core.specs.Core.{N, U};
ghost use Rattle.demangle_core.specs.Same.{same_tables_equiv};
ghost use Rattle.demangle_core.specs.Table.{added, cut, empty_table, entry_at, listed, numbered, same_tables, size};
ghost use Rattle.demangle_core.specs.Table.{sizes, type_behind};
ghost use Rattle.demangle_leaf_nodes.specs.TreeLeaves.{tree_of_type_handle};
ghost use Rattle.demangle_entries.specs.TreeEntries.{tree_of_substitutable, tree_of_type_node};
ghost use Rattle.demangle_text.specs.declared.error.Error.TheVariants.{OutOfMemory};

use demangle_components::{Components, CopyComponent};
use demangle_entries::{Substitutable, TypeHandle, TypeNode};
use std::alloc::Global;
use std::fmt;
use std::fmt::Write;
use std::slice::Iter;

/// The components of a name in the order in which they were completed: the numbered ones, which `S_` and its like refer
/// to, and the others. ABI section 5.1.10, `<substitution>`.
#[derive(Drop)]
pub struct SubstitutionTable {
    components: Components<Substitutable>,
}

impl SubstitutionTable {
    ghost use Rattle.demangle_table.specs.TableOf.{table_of};

    /// A table with no entries. It takes no memory. `Default` of the original.
    pub fn new(alloc: Global) -> SubstitutionTable
        ensures { table_of result ≡ empty_table }
    {
        SubstitutionTable {
            components: Components::new(alloc),
        }
    }

    /// A table of these numbered components and no others. It takes no memory. `FromIterator` of the original.
    pub fn from_list(alloc: Global, list: Vec<Substitutable>) -> SubstitutionTable
        ensures { table_of result ≡ numbered (map tree_of_substitutable list.items) }
    {
        SubstitutionTable {
            components: Components::from_list(alloc, list),
        }
    }

    /// Adds a numbered component, and answers its position. For want of memory the component comes back, and the table
    /// is as before. The original's method of this name.
    #[inline(always)]
    pub fn insert(&mut self, entity: Substitutable) -> Result<usize, Substitutable>
        ensures position { IfOk result (λ n. n ≡ size N (table_of self.old)) }
        ensures inserted { OnOk result (table_of self.new
            ≡ added N (tree_of_substitutable entity) (table_of self.old)) }
        ensures unchanged { OnErr result (table_of self.new ≡ table_of self.old) }
        ensures handed_back { IfErr result (λ e. e ≡ entity) }
    {
        self.components.insert(entity)
    }

    /// Adds a component that no number refers to, and answers its position among these. For want of memory the
    /// component comes back, and the table is as before. The original's method of this name.
    #[inline(always)]
    pub fn insert_non_substitution(&mut self, entity: Substitutable) -> Result<usize, Substitutable>
        ensures position { IfOk result (λ n. n ≡ size U (table_of self.old)) }
        ensures inserted { OnOk result (table_of self.new
            ≡ added U (tree_of_substitutable entity) (table_of self.old)) }
        ensures unchanged { OnErr result (table_of self.new ≡ table_of self.old) }
        ensures handed_back { IfErr result (λ e. e ≡ entity) }
    {
        self.components.insert_other(entity)
    }

    /// Whether a numbered component stands at `idx`. The original's method of this name.
    pub fn contains(&self, idx: usize) -> bool
        ensures { IsTrue result ↔ (idx < size N (table_of self.now)) }
    {
        self.components.contains(idx)
    }

    /// The numbered component at `idx`; `None` exactly where there is none. `Deref` to a slice in the original.
    pub fn get(&self, idx: usize) -> Option<&Substitutable>
        ensures { option_map (λ x. tree_of_substitutable x.now) result ≡ entry_at N idx (table_of self.now) }
    {
        self.components.get(idx)
    }

    /// How many numbered components there are. `Deref` to a slice in the original.
    pub fn len(&self) -> usize
        ensures { result ≡ size N (table_of self.now) }
    {
        self.components.len()
    }

    /// The numbered components in order. `Deref` to a slice in the original.
    pub fn iter(&self) -> Iter<'_, Substitutable>
        ensures { map tree_of_substitutable (iter_rest result) ≡ listed N (table_of self.now) }
    {
        self.components.numbered().iter()
    }

    /// The type that a handle refers to; `None` exactly where it is no back reference to a type. The original's method
    /// of this name.
    pub fn get_type(&self, handle: &TypeHandle) -> Option<&TypeNode>
        ensures { option_map (λ x. tree_of_type_node x.now) result
            ≡ type_behind (tree_of_type_handle handle.now) (table_of self.now) }
    {
        match handle {
            TypeHandle::BackReference(idx) => match self.get(*idx) {
                Some(Substitutable::TypeNode(node)) => Some(node),
                _ => None,
            },
            _ => None,
        }
    }

    /// The component at `idx` of those that no number refers to, which must be there. The original's method of this
    /// name.
    pub fn non_substitution(&self, idx: usize) -> &Substitutable
        requires { idx < size U (table_of self.now) }
        ensures { entry_at U idx (table_of self.now) ≡ Some (tree_of_substitutable result.now) }
    {
        self.components.other(idx)
    }

    /// The component at `idx` of those that no number refers to; `None` exactly where there is none. The original's
    /// method of this name.
    pub fn get_non_substitution(&self, idx: usize) -> Option<&Substitutable>
        ensures { option_map (λ x. tree_of_substitutable x.now) result ≡ entry_at U idx (table_of self.now) }
    {
        self.components.get_other(idx)
    }

    /// The numbered components, the others, and for each of the others how many numbered ones stood at its insertion. An
    /// addition to the original.
    pub fn lists(&self) -> (&[Substitutable], &[Substitutable], &[usize])
        ensures { table_from tree_of_substitutable result.0.now result.1.now result.2.now ≡ table_of self.now }
    {
        self.components.lists()
    }

    /// How many numbered components and how many others there are. An addition to the original.
    pub fn lengths(&self) -> (usize, usize)
        ensures { result ≡ sizes (table_of self.now) }
    {
        self.components.lengths()
    }

    /// How many components there are in both lists. An addition to the original.
    pub fn entry_count(&self) -> usize
        ensures { result ≡ size N (table_of self.now) + size U (table_of self.now) }
    {
        self.components.entry_count()
    }

    /// Takes the last numbered component out; `None` exactly where there is none. The original's method of this name.
    pub fn pop(&mut self) -> Option<Substitutable>
        ensures last { IfSome result (λ x. entry_at N (size N (table_of self.old) - 1) (table_of self.old)
            ≡ Some (tree_of_substitutable x)) }
        ensures shorter { IfSome result (λ _. table_of self.new
            ≡ cut (size N (table_of self.old) - 1, size U (table_of self.old)) (table_of self.old)) }
        ensures some { IfSome result (λ _. 0 < size N (table_of self.old)) }
        ensures none { IfNone result (size N (table_of self.old) ≡ 0) }
        ensures unchanged { IfNone result (table_of self.new ≡ table_of self.old) }
    {
        self.components.pop()
    }

    /// A copy whose components `copier` makes, in the same order of insertion over both lists. `OutOfMemory` is its
    /// only refusal. `Clone` in the original.
    pub fn copy_with<C: CopyComponent<Substitutable>>(
        &self,
        alloc: Global,
        copier: &C,
    ) -> demangle_text::Result<SubstitutionTable>
        ensures equal { IfOk result (λ r. table_of r ≡ table_of self.now) }
        ensures refused { IfErr result (λ e. e ≡ OutOfMemory) }
    {
        Ok(SubstitutionTable {
            components: self.components.copy_with(alloc, copier)?,
        })
    }

    /// Cuts both lists to these lengths: what was inserted after them is gone. A length above the present one cuts
    /// nothing. An addition to the original.
    pub fn cut_back(&mut self, lengths: (usize, usize))
        ensures { table_of self.new ≡ cut lengths (table_of self.old) }
    {
        self.components.cut_back(lengths)
    }

    /// Drops the table with its components. The drops of all nodes are proved in this crate, and not again in one that
    /// calls this. An addition to the original.
    pub fn release(self) {
        drop(self);
    }
}

/// Equal components in both lists; the order between the lists is left out.
impl PartialEq for SubstitutionTable {
    ghost use Rattle.demangle_table.specs.TableOf.{table_of};

    ghost eq = { λ a b. same_tables (table_of a) (table_of b) };

    ghost laws = { on_per table_of (partial_equiv_from_equiv same_tables_equiv) };

    fn eq(&self, other: &SubstitutionTable) -> bool {
        self.components == other.components
    }
}

impl Eq for SubstitutionTable {
    ghost use Rattle.demangle_table.specs.TableOf.{table_of};

    ghost laws = { on_equiv table_of same_tables_equiv };
}

/// `SubstitutionTable { substitutions: [..], non_substitutions: [..] }`.
impl fmt::Debug for SubstitutionTable {
    fn fmt<W: Write>(&self, f: &mut fmt::Formatter<W>) -> fmt::Result {
        f.debug_struct("SubstitutionTable")
            .field("substitutions", &self.components.numbered())
            .field("non_substitutions", &self.components.others())
            .finish()
    }
}
