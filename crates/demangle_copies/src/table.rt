//! Copies of the substitution table.

ghost use Rattle.std.specs.Prelude.{◌≡◌};
ghost use Rattle.demangle_table.specs.TableOf.{table_of};

use crate::try_clone::TryClone;
use demangle_entries::Substitutable;
use demangle_table::{CopyComponent, SubstitutionTable};
use demangle_text::Result;
use std::alloc::Global;

/// Copies a component as `try_clone` does.
struct ByTryClone;

impl CopyComponent<Substitutable> for ByTryClone {
    fn copy_component(&self, alloc: Global, component: &Substitutable) -> Result<Substitutable> {
        component.try_clone(alloc)
    }
}

impl TryClone for SubstitutionTable {
    ghost IsCopy = { λ a b. table_of b ≡ table_of a };

    fn try_clone(&self, alloc: Global) -> Result<SubstitutionTable> {
        self.copy_with(alloc, &ByTryClone)
    }
}
