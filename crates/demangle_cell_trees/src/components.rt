//! The components of a name, as trees refer to them.

ghost use Rattle.demangle_cell_trees.specs.Ends.{KeptAll};
ghost use Rattle.demangle_cell_trees.specs.declared.roles.Sought.TheVariants.{LeafName, PrefixArguments};
ghost use Rattle.demangle_cell_trees.specs.declared.roles.Sought.TheVariants.{Special, TypeArguments};

use crate::cells::entry_count;
use crate::ends::ends_of;
use crate::roles::Sought;
use demangle_cells::Arena;
use std::alloc::{AllocError, Global};

/// So few components have no ends kept: chains of them are short.
const FEW: usize = 128;

/// The components of an arena, to which its trees refer. Where they are many, it is kept where the look-ups of each of
/// them end, so that chains of components aren't walked along again and again.
#[derive(Drop)]
pub struct Components<'a> {
    pub(crate) arena: &'a Arena,
    pub(crate) split: u32,
    leaf_names: Vec<u64>,
    prefix_arguments: Vec<u64>,
    type_arguments: Vec<u64>,
    specials: Vec<u64>,
    ghost leaf_ends: { KeptAll LeafName arena.now split leaf_names.items },
    ghost prefix_ends: { KeptAll PrefixArguments arena.now split prefix_arguments.items },
    ghost type_ends: { KeptAll TypeArguments arena.now split type_arguments.items },
    ghost special_ends: { KeptAll Special arena.now split specials.items },
}

impl<'a> Components<'a> {
    ghost use Rattle.std.specs.Prelude.{◌≡◌, IfOk};
    ghost use Rattle.demangle_cell_trees.specs.ArenaTrees.{table_of};
    ghost use Rattle.demangle_cell_trees.specs.NodeTrees.{table_in};

    /// The components of an arena. It fails where there is no memory for what is kept of many.
    pub fn of(alloc: Global, arena: &'a Arena) -> Result<Components<'a>, AllocError>
        ensures { IfOk result (λ c. table_in c ≡ table_of arena.now) }
    {
        let count = entry_count(arena);
        let total = if count > FEW { count } else { 0 };
        let split = u32::try_from(arena.mark().numbered).unwrap_or(u32::MAX);
        Ok(Components {
            arena,
            split,
            leaf_names: ends_of(alloc, Sought::LeafName, arena, split, total)?,
            prefix_arguments: ends_of(alloc, Sought::PrefixArguments, arena, split, total)?,
            type_arguments: ends_of(alloc, Sought::TypeArguments, arena, split, total)?,
            specials: ends_of(alloc, Sought::Special, arena, split, total)?,
        })
    }

    /// The ends that are kept of a look-up.
    pub(crate) fn ends(&self, sought: Sought) -> &[u64]
        ensures { KeptAll sought self.now.arena.now self.now.split result.now }
    {
        match sought {
            Sought::LeafName => &self.leaf_names,
            Sought::PrefixArguments => &self.prefix_arguments,
            Sought::TypeArguments => &self.type_arguments,
            Sought::Special => &self.specials,
        }
    }
}
