//! Printing of leaf names.

ghost use Rattle.demangle_leaf_nodes.specs.TreeLeaves.{tree_of_leaf_name, tree_of_unnamed_type_name};
ghost use Rattle.demangle_leaf_nodes.specs.TreeLeaves.{tree_of_well_known_component};

use crate::demangle::DemangleAsLeaf;
use crate::printer::begin;
use demangle_print_unqualified::{component_leaf, leaf_name, unnamed_leaf};
use demangle_scope::{DemangleContext, DemangleError, DemangleWrite};
use demangle_tree::{LeafName, UnnamedTypeName};
use demangle_vocab::WellKnownComponent;

impl<'subs, W: 'subs + DemangleWrite> DemangleAsLeaf<'subs, W> for LeafName<'subs> {
    ghost leaf_tree = { tree_of_leaf_name };

    fn demangle_as_leaf(
        &self,
        ctx: &mut DemangleContext<'subs, '_, W>,
    ) -> Result<(), DemangleError> {
        let printer = begin(ctx);
        leaf_name(printer, *self, ctx);
        ctx.answer()
    }
}

impl<'subs, W: 'subs + DemangleWrite> DemangleAsLeaf<'subs, W> for UnnamedTypeName {
    ghost leaf_tree = { tree_of_unnamed_type_name };

    fn demangle_as_leaf(
        &self,
        ctx: &mut DemangleContext<'subs, '_, W>,
    ) -> Result<(), DemangleError> {
        let printer = begin(ctx);
        unnamed_leaf(printer, self, ctx);
        ctx.answer()
    }
}

impl<'subs, W: 'subs + DemangleWrite> DemangleAsLeaf<'subs, W> for WellKnownComponent {
    ghost leaf_tree = { tree_of_well_known_component };

    fn demangle_as_leaf(
        &self,
        ctx: &mut DemangleContext<'subs, '_, W>,
    ) -> Result<(), DemangleError> {
        let _printer = begin(ctx);
        ctx.text(component_leaf(self));
        ctx.answer()
    }
}
