//! Scopes: what a leaf name and a template parameter refer to. The newest entry is first, and each entry stands on the
//! stack of the line that made it.

ghost use Rattle.std.specs.Prelude.{◌≡◌, [], option_map};
ghost use Rattle.demangle_printing.specs.Scope.{in_member, with_args, with_leaf};
ghost use Rattle.demangle_printing.specs.Trees.{began_at};
ghost use Rattle.demangle_lines.specs.ScopeOf.{lent_scope, stack_scope};

use demangle_context::InnerNode;

/// What an entry of a scope is.
#[derive(Clone, Copy)]
pub(crate) enum Kind {
    /// None, and none behind it.
    End,
    /// None: nothing was found.
    Nothing,
    /// A leaf name.
    Leaf,
    /// A list of template arguments.
    Arguments,
    /// The mark that a member of this list is being printed.
    Member,
}

/// The newest entry of a scope, and those behind it.
#[derive(Clone, Copy)]
pub struct Scope<'prev, T: Copy> {
    pub(crate) kind: Kind,
    pub(crate) tree: T,
    pub(crate) index: usize,
    pub(crate) previous: Option<&'prev Scope<'prev, T>>,
}

/// The scope with this leaf name, where it was found. `other` is any tree.
#[inline(always)]
pub fn found_leaf<'prev, T: InnerNode>(
    scope: Option<&'prev Scope<'prev, T>>,
    found: Option<T>,
    other: T,
) -> Scope<'prev, T>
    ensures { stack_scope T.tree result ≡ with_leaf (option_map T.tree found) (lent_scope T.tree scope.entry) }
{
    match found {
        None => Scope {
            kind: Kind::Nothing,
            tree: other,
            index: 0,
            previous: scope,
        },
        Some(tree) => Scope {
            kind: Kind::Leaf,
            tree,
            index: 0,
            previous: scope,
        },
    }
}

/// The scope with these template arguments, where they were found. `other` is any tree.
#[inline(always)]
pub fn found_arguments<'prev, T: InnerNode>(
    scope: Option<&'prev Scope<'prev, T>>,
    found: Option<T>,
    other: T,
) -> Scope<'prev, T>
    ensures { stack_scope T.tree result ≡ with_args (option_map T.tree found) (lent_scope T.tree scope.entry) }
{
    match found {
        None => Scope {
            kind: Kind::Nothing,
            tree: other,
            index: 0,
            previous: scope,
        },
        Some(tree) => Scope {
            kind: Kind::Arguments,
            tree,
            index: 0,
            previous: scope,
        },
    }
}

/// The scope whose newest entry has the mark that the member `index` of a list is being printed.
#[inline(always)]
pub fn member<'prev, T: InnerNode>(
    scope: Option<&'prev Scope<'prev, T>>,
    index: usize,
    list: T,
) -> Scope<'prev, T>
    ensures { stack_scope T.tree result ≡ in_member index (began_at (T.tree list)) (lent_scope T.tree scope.entry) }
{
    Scope {
        kind: Kind::Member,
        tree: list,
        index,
        previous: scope,
    }
}

/// An empty scope, whatever `scope` is. `other` is any tree.
#[inline(always)]
pub fn empty<'prev, T: InnerNode>(
    scope: Option<&'prev Scope<'prev, T>>,
    other: T,
) -> Scope<'prev, T>
    ensures { stack_scope T.tree result ≡ [] }
{
    Scope {
        kind: Kind::End,
        tree: other,
        index: 0,
        previous: scope,
    }
}
