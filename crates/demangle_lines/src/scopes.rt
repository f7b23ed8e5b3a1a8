//! Scopes with what was looked up.

ghost use Rattle.std.specs.Prelude.{◌≡◌, ◌∷◌, [], Some, option_map};
ghost use Rattle.demangle_core.specs.Lookups.{as_prefix, as_type};
ghost use Rattle.demangle_printing.specs.Rules.{args_of, leaf_name_of};
ghost use Rattle.demangle_printing.specs.Scope.{with_args, with_leaf};
ghost use Rattle.demangle_printing.specs.World.{find};
ghost use Rattle.demangle_meets.specs.Place.{world_of};
ghost use Rattle.demangle_lines.specs.ScopeOf.{lent_scope, stack_scope};

use crate::at::{leaf_name_at, part_at, part_of_part, prefix_arguments_at, type_arguments_at};
use crate::below::Below;
use crate::scope::{Scope, found_arguments, found_leaf};
use crate::tree::Tree;
use demangle_context::DemangleWrite;

/// The leaf name, where there is one.
pub(crate) fn leaf_name_of<'s, T: Tree<S>, S: 's, W: DemangleWrite, B: Below<'s, T, S, W>>(
    below: B,
    found: Option<T>,
) -> Option<T>
    ensures { option_map T.tree result ≡ leaf_name_of (world_of (B.at below).refers) (option_map T.tree found) }
{
    match found {
        None => None,
        Some(tree) => leaf_name_at(below, tree),
    }
}

/// The scope with the leaf name of a part, where it has one.
pub fn with_leaf_name<'prev, 's, T: Tree<S>, S: 's, W: DemangleWrite, B: Below<'s, T, S, W>>(
    below: B,
    tree: T,
    number: usize,
    scope: Option<&'prev Scope<'prev, T>>,
) -> Scope<'prev, T>
    ensures { stack_scope T.tree result ≡ with_leaf (leaf_name_of (world_of (B.at below).refers) (find (world_of (B.at
        below).refers) (Some (T.tree tree)) (number ∷ []))) (lent_scope T.tree scope.entry) }
{
    let found = leaf_name_of(below, part_at(below, tree, number));
    found_leaf(scope, found, tree)
}

/// The template arguments of a name, where there is one.
pub(crate) fn prefix_arguments_of<'s, T: Tree<S>, S: 's, W: DemangleWrite, B: Below<'s, T, S, W>>(
    below: B,
    found: Option<T>,
) -> Option<T>
    ensures { option_map T.tree result ≡ args_of (world_of (B.at below).refers) as_prefix (option_map T.tree found) }
{
    match found {
        None => None,
        Some(tree) => prefix_arguments_at(below, tree),
    }
}

/// The scope with the template arguments, as a name, of a part, where it has any.
pub fn with_prefix_arguments<'prev, 's, T: Tree<S>, S: 's, W: DemangleWrite, B: Below<'s, T, S, W>>(
    below: B,
    tree: T,
    number: usize,
    scope: Option<&'prev Scope<'prev, T>>,
) -> Scope<'prev, T>
    ensures { stack_scope T.tree result ≡ with_args (args_of (world_of (B.at below).refers) as_prefix (find (world_of
        (B.at below).refers) (Some (T.tree tree)) (number ∷ []))) (lent_scope T.tree scope.entry) }
{
    let found = prefix_arguments_of(below, part_at(below, tree, number));
    found_arguments(scope, found, tree)
}

/// The template arguments of a type, where there is one.
pub(crate) fn type_arguments_of<'s, T: Tree<S>, S: 's, W: DemangleWrite, B: Below<'s, T, S, W>>(
    below: B,
    found: Option<T>,
) -> Option<T>
    ensures { option_map T.tree result ≡ args_of (world_of (B.at below).refers) as_type (option_map T.tree found) }
{
    match found {
        None => None,
        Some(tree) => type_arguments_at(below, tree),
    }
}

/// The scope with the template arguments, as a type, of a part, where it has any.
pub fn with_type_arguments<'prev, 's, T: Tree<S>, S: 's, W: DemangleWrite, B: Below<'s, T, S, W>>(
    below: B,
    tree: T,
    number: usize,
    scope: Option<&'prev Scope<'prev, T>>,
) -> Scope<'prev, T>
    ensures { stack_scope T.tree result ≡ with_args (args_of (world_of (B.at below).refers) as_type (find (world_of (B.at
        below).refers) (Some (T.tree tree)) (number ∷ []))) (lent_scope T.tree scope.entry) }
{
    let found = type_arguments_of(below, part_at(below, tree, number));
    found_arguments(scope, found, tree)
}

/// The scope with these template arguments, where they are there.
pub fn with_these<'prev, 's, T: Tree<S>, S: 's, W: DemangleWrite, B: Below<'s, T, S, W>>(
    below: B,
    tree: T,
    number: usize,
    scope: Option<&'prev Scope<'prev, T>>,
) -> Scope<'prev, T>
    ensures { stack_scope T.tree result ≡ with_args (find (world_of (B.at below).refers) (Some (T.tree tree)) (number ∷
        [])) (lent_scope T.tree scope.entry) }
{
    found_arguments(scope, part_at(below, tree, number), tree)
}

/// The scope with these template arguments, where they are there.
pub fn with_inner_these<'prev, 's, T: Tree<S>, S: 's, W: DemangleWrite, B: Below<'s, T, S, W>>(
    below: B,
    tree: T,
    first: usize,
    second: usize,
    scope: Option<&'prev Scope<'prev, T>>,
) -> Scope<'prev, T>
    ensures { stack_scope T.tree result ≡ with_args (find (world_of (B.at below).refers) (Some (T.tree tree)) (first ∷
        second ∷ [])) (lent_scope T.tree scope.entry) }
{
    found_arguments(scope, part_of_part(below, tree, first, second), tree)
}
