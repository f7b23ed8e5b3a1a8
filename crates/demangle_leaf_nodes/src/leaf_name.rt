//! What a leaf name borrows, and its equality: that of the trees.

ghost use Rattle.std.specs.Cmp.{on_per, on_equiv, partial_equiv_from_equiv};
ghost use Rattle.demangle_core.specs.Core.{same};
ghost use Rattle.demangle_core.specs.Same.{same_equiv};
ghost use Rattle.demangle_leaf_nodes.specs.TreeLeaves.{tree_of_leaf_name};

use crate::leaves::{ClosureTypeName, SourceName, UnnamedTypeName};
use demangle_vocab::WellKnownComponent;

/// The last identifier in a name, which the constructors and destructors of a class of this name have too. The
/// original's type of this name.
#[derive(Clone, Copy, Debug)]
pub enum LeafName<'a> {
    /// `A` of `a::A`: `1A`.
    SourceName(&'a SourceName),
    /// The last identifier of an abbreviated name, `string` of `std::string`: `Ss`.
    WellKnownComponent(&'a WellKnownComponent),
    /// `{lambda(int)#1}`: `UliE_`.
    Closure(&'a ClosureTypeName),
    /// `{unnamed type#1}`: `Ut_`.
    UnnamedType(&'a UnnamedTypeName),
}

impl<'a> PartialEq for LeafName<'a> {
    ghost eq = { λ a b. same (tree_of_leaf_name a) (tree_of_leaf_name b) };

    ghost laws = { on_per tree_of_leaf_name (partial_equiv_from_equiv same_equiv) };

    #[tactic(auto, using(crate::proofs::Same::rows))]
    fn eq(&self, other: &LeafName<'a>) -> bool {
        match self {
            LeafName::SourceName(a) => match other {
                LeafName::SourceName(other_a) => a == other_a,
                _ => false,
            },
            LeafName::WellKnownComponent(a) => match other {
                LeafName::WellKnownComponent(other_a) => a.number() == other_a.number(),
                _ => false,
            },
            LeafName::Closure(a) => match other {
                LeafName::Closure(other_a) => a == other_a,
                _ => false,
            },
            LeafName::UnnamedType(a) => match other {
                LeafName::UnnamedType(other_a) => a == other_a,
                _ => false,
            },
        }
    }
}

impl<'a> Eq for LeafName<'a> {
    ghost laws = { on_equiv tree_of_leaf_name same_equiv };
}
