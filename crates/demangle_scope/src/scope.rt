//! Scopes: what a leaf name and a template parameter refer to. The newest entry is first, and each entry stands on the
//! stack of the line that made it.

ghost use Rattle.std.specs.Prelude.{◌≡◌, ◌∷◌, Some, IfOk, IsSome, MatchOption, is_some, option_map};
ghost use Rattle.demangle_nodes.specs.TreeNodes.{tree_of_template_arg, tree_of_template_args};
ghost use Rattle.demangle_leaf_nodes.specs.TreeLeaves.{tree_of_leaf_name};
ghost use Rattle.demangle_printing.specs.Scope.{in_member, is_forward, members, scope_argument, scope_leaf};
ghost use Rattle.demangle_printing.specs.World.{nth};
ghost use Rattle.demangle_meets.specs.Place.{Refers, world_of};
ghost use Rattle.demangle_scope.specs.ScopeOf.{answered, argument_list, leaf_of, mark_of, meant_of, member_of};
ghost use Rattle.demangle_scope.specs.ScopeOf.{member_tree, scope_of, top_of, unmarked};
ghost use Rattle.demangle_scope.specs.OneEntry.{Decides, PassesOn};

use demangle_entries::{
    ClosureTypeName, LeafName, SourceName, TemplateArg, TemplateArgs, UnnamedTypeName,
};
use demangle_text::{Error, Result};
use demangle_vocab::WellKnownComponent;
use std::fmt;
use std::fmt::Write;

/// What an entry of a scope means: a leaf name, which is one of four kinds, or a list of template arguments. The
/// component isn't `Std`, which is no leaf name. The original's trait object `ArgScope`.
#[derive(Clone, Copy, Debug)]
pub enum ScopeItem<'subs> {
    /// The identifier of a class.
    SourceName(&'subs SourceName),
    /// An abbreviated class, as `string`.
    WellKnown(&'subs WellKnownComponent),
    /// A closure's type.
    Closure(&'subs ClosureTypeName),
    /// A type without a name.
    Unnamed(&'subs UnnamedTypeName),
    /// The arguments of a template.
    Args(&'subs TemplateArgs),
}

impl<'subs> ScopeItem<'subs> {
    // the leaf name, where it is one
    fn leaf_name(self) -> Option<LeafName<'subs>>
        ensures { option_map tree_of_leaf_name result ≡ leaf_of (meant_of self.entry) }
    {
        match self {
            ScopeItem::SourceName(name) => Some(LeafName::SourceName(name)),
            ScopeItem::WellKnown(component) => Some(LeafName::WellKnownComponent(component)),
            ScopeItem::Closure(name) => Some(LeafName::Closure(name)),
            ScopeItem::Unnamed(name) => Some(LeafName::UnnamedType(name)),
            ScopeItem::Args(_) => None,
        }
    }

    // the member of this number, and the list, where it is a list that has so many
    fn template_arg(self, idx: usize) -> Option<(&'subs TemplateArg, &'subs TemplateArgs)>
        ensures member { (refers : Refers) → option_map member_tree result
            ≡ member_of (world_of refers) (meant_of self.entry) idx }
        ensures list { MatchOption result (Unit {0}) (λ found. self.entry ≡ ScopeItem.Args found.1) }
    {
        match self {
            ScopeItem::Args(args) => match member(args, idx) {
                Some(arg) => Some((arg, args)),
                None => None,
            },
            _ => None,
        }
    }
}

fn member<'subs>(args: &'subs TemplateArgs, idx: usize) -> Option<&'subs TemplateArg>
    ensures { (refers : Refers) → option_map (λ x. tree_of_template_arg x.now) result
        ≡ nth idx (members (world_of refers) (tree_of_template_args args.now)) }
{
    args.0.get(idx)
}

// whether the member `idx` of the list is the one that is being printed, or a later one
fn is_forward(mark: Option<(usize, &TemplateArgs)>, args: &TemplateArgs, idx: usize) -> bool
    ensures { result ≡ is_forward (option_map mark_of mark.entry) args.now.1 idx }
{
    match mark {
        None => false,
        Some((index, list)) => list.1 == args.1 && index <= idx,
    }
}

/// An entry of a scope, and the entries behind it: what it means, and where a member of a list is being printed the
/// member's number and the list. The original's type of this name.
#[derive(Clone, Copy)]
pub struct ArgScopeStack<'prev, 'subs> {
    item: ScopeItem<'subs>,
    in_arg: Option<(usize, &'subs TemplateArgs)>,
    previous: Option<&'prev ArgScopeStack<'prev, 'subs>>,
}

impl<'prev, 'subs> ArgScopeStack<'prev, 'subs> {
    // what this entry says of the argument `idx`; `None` where it has no such member
    fn argument(&self, idx: usize) -> Option<Result<(&'subs TemplateArg, &'subs TemplateArgs)>>
        ensures { MatchOption result (PassesOn (top_of self.now) idx) (Decides (top_of self.now) idx) }
    {
        let Some(found) = self.item.template_arg(idx) else {
            return None;
        };
        if is_forward(self.in_arg, found.1, idx) {
            return Some(Err(Error::ForwardTemplateArgReference));
        }
        Some(Ok(found))
    }
}

/// `ArgScopeStack { item: .., in_arg: .., .. }`: the newest entry alone.
impl fmt::Debug for ArgScopeStack<'_, '_> {
    fn fmt<W: Write>(&self, f: &mut fmt::Formatter<W>) -> fmt::Result {
        f.debug_struct("ArgScopeStack")
            .field("item", &self.item)
            .field("in_arg", &self.in_arg)
            .finish_non_exhaustive()
    }
}

/// The scope with a new entry, which is never `None`. The original's method `push` of scopes.
pub fn scope_push<'prev, 'subs>(
    scope: &'prev Option<ArgScopeStack<'prev, 'subs>>,
    item: ScopeItem<'subs>,
) -> Option<ArgScopeStack<'prev, 'subs>>
    ensures pushed { scope_of result ≡ unmarked (meant_of item.entry) ∷ scope_of scope.now }
    ensures some { IsSome result }
{
    Some(ArgScopeStack {
        item,
        in_arg: None,
        previous: scope.as_ref(),
    })
}

/// The scope whose newest entry has the mark that the member `index` of the list `args` is being printed; `None`
/// exactly where there is no entry. A list is known by its place. The original's method `in_arg` of scopes.
pub fn scope_in_arg<'prev, 'subs>(
    scope: Option<ArgScopeStack<'prev, 'subs>>,
    index: usize,
    args: &'subs TemplateArgs,
) -> Option<ArgScopeStack<'prev, 'subs>>
    ensures marked { scope_of result ≡ in_member index args.now.1 (scope_of scope.entry) }
    ensures some { is_some result ≡ is_some scope.entry }
{
    match scope {
        None => None,
        Some(top) => Some(ArgScopeStack {
            item: top.item,
            in_arg: Some((index, args)),
            previous: top.previous,
        }),
    }
}

/// The leaf name of the first entry that isn't a list of template arguments; `BadLeafNameReference` exactly where there
/// is none. The original's method `leaf_name` of scopes.
pub fn scope_leaf_name<'prev, 'subs>(
    scope: &Option<ArgScopeStack<'prev, 'subs>>,
) -> Result<LeafName<'subs>>
    ensures { answered tree_of_leaf_name result ≡ Some (scope_leaf (scope_of scope.now)) }
{
    let mut rest = scope.as_ref();
    while let Some(entry) = rest {
        if let Some(leaf) = entry.item.leaf_name() {
            return Ok(leaf);
        }
        rest = entry.previous;
    }
    Err(Error::BadLeafNameReference)
}

/// The template argument `idx`, and its list: the first list of the scope that has so many. `BadTemplateArgReference`
/// exactly where none has; `ForwardTemplateArgReference` exactly where that entry's mark has the place of its own list
/// and an index not above `idx`: the argument is the one that is being printed, or a later one of its list. The
/// original's method `get_template_arg` of scopes.
pub fn scope_template_arg<'prev, 'subs>(
    scope: &Option<ArgScopeStack<'prev, 'subs>>,
    idx: usize,
) -> Result<(&'subs TemplateArg, &'subs TemplateArgs)>
    ensures argument { (refers : Refers) → answered member_tree result
        ≡ Some (scope_argument (world_of refers) (scope_of scope.now) idx) }
    ensures list { (refers : Refers) → IfOk result (λ found. argument_list (world_of refers) (scope_of scope.now) idx
        ≡ Some (tree_of_template_args found.1.now)) }
{
    let mut rest = scope.as_ref();
    while let Some(entry) = rest {
        if let Some(answer) = entry.argument(idx) {
            return answer;
        }
        rest = entry.previous;
    }
    Err(Error::BadTemplateArgReference)
}
