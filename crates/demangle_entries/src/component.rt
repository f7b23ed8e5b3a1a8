//! Entries as components of the substitution table.

ghost use Rattle.std.specs.Prelude.{refl};
ghost use Rattle.demangle_entries.specs.TreeEntries.{tree_of_substitutable};

use crate::entries::Substitutable;
use demangle_components::Component;

impl Component for Substitutable {
    ghost tree = { tree_of_substitutable };

    ghost compares = { λ a b. refl };
}
