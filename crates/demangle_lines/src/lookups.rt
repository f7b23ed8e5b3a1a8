//! Look-ups in scopes.

ghost use Rattle.std.specs.Prelude.{◌≡◌, List, ℕ, MatchOption, false, option_map};
ghost use Rattle.demangle_printing.specs.Reader.{found_leaf};
ghost use Rattle.demangle_printing.specs.Scope.{is_forward, members, scope_argument, scope_leaf};
ghost use Rattle.demangle_printing.specs.Trees.{with_table};
ghost use Rattle.demangle_printing.specs.World.{nth};
ghost use Rattle.demangle_meets.specs.Place.{Refers, world_of};
ghost use Rattle.demangle_lines.specs.Entries.{Decides, PassesOn, answered, is_arguments, is_end, is_leaf};
ghost use Rattle.demangle_lines.specs.Entries.{mark_behind, mark_of};
ghost use Rattle.demangle_lines.specs.ScopeOf.{lent_scope};

use crate::scope::{Kind, Scope};
use crate::tree::Tree;
use demangle_context::{InnerNode, PrintFault};

fn is_leaf(kind: Kind) -> bool
    ensures { result ≡ is_leaf kind }
{
    match kind {
        Kind::Leaf => true,
        _ => false,
    }
}

fn is_end(kind: Kind) -> bool
    ensures { result ≡ is_end kind }
{
    match kind {
        Kind::End => true,
        _ => false,
    }
}

fn is_arguments(kind: Kind) -> bool
    ensures { result ≡ is_arguments kind }
{
    match kind {
        Kind::Arguments => true,
        _ => false,
    }
}

/// The tree behind a reference.
#[inline(always)]
fn copied<T: Copy>(tree: &T) -> T
    ensures { result ≡ tree.now }
{
    *tree
}

/// The newest leaf name; `None` exactly where there is none.
pub(crate) fn leaf_in<T: InnerNode>(scope: Option<&Scope<'_, T>>) -> Option<T>
    ensures { (r : Refers) → found_leaf (world_of r) (option_map T.tree result)
        ≡ scope_leaf (lent_scope T.tree scope.entry) }
{
    let mut rest = scope;
    while let Some(entry) = rest {
        if is_end(entry.kind) {
            return None;
        }
        if is_leaf(entry.kind) {
            return Some(copied(&entry.tree));
        }
        rest = entry.previous;
    }
    None
}

/// A member of a list of template arguments.
fn list_member<T: Tree<S>, S>(list: T, number: usize, subs: &S) -> Option<T>
    ensures { (input : List ℕ) → option_map T.tree result
        ≡ nth number (members (with_table (T.table subs.now) input) (T.tree list)) }
{
    match list.part(0, subs) {
        None => None,
        Some(trees) => trees.part(number, subs),
    }
}

/// Whether a member is the one that is being printed, or a later one.
fn is_forward(mark: Option<(usize, usize)>, list: usize, number: usize) -> bool
    ensures { result ≡ is_forward (option_map mark_of mark) list number }
{
    match mark {
        None => false,
        Some((index, marked)) => marked == list && index <= number,
    }
}

/// The mark of the entry behind one, where this is the mark of the one.
fn mark_behind(
    kind: Kind,
    index: usize,
    place: usize,
    mark: Option<(usize, usize)>,
) -> Option<(usize, usize)>
    ensures { result ≡ mark_behind kind index place mark }
{
    match kind {
        Kind::End => mark,
        Kind::Nothing => mark,
        Kind::Leaf => None,
        Kind::Arguments => None,
        Kind::Member => match mark {
            None => Some((index, place)),
            Some(marked) => Some(marked),
        },
    }
}

/// What an entry with a mark says of the argument `number`; `None` where it has no such member.
fn argument_of<T: Tree<S>, S>(
    kind: Kind,
    list: T,
    index: usize,
    mark: Option<(usize, usize)>,
    number: usize,
    subs: &S,
) -> Option<Result<T, PrintFault>>
    requires { is_end kind ≡ false }
    ensures { MatchOption result (PassesOn (T.table subs.now) kind (T.tree list) index mark number)
        (λ answer. Decides (T.table subs.now) kind (T.tree list) index mark number (answered T.tree answer)) }
{
    if !is_arguments(kind) {
        return None;
    }
    let Some(found) = list_member(list, number, subs) else {
        return None;
    };
    if is_forward(mark, list.began(), number) {
        return Some(Err(PrintFault::ForwardTemplateArgReference));
    }
    Some(Ok(found))
}

/// The template argument `number`: of the newest list that has so many members.
pub(crate) fn argument_in<T: Tree<S>, S>(
    scope: Option<&Scope<'_, T>>,
    number: usize,
    subs: &S,
) -> Result<T, PrintFault>
    ensures { (input : List ℕ) → answered T.tree result
        ≡ scope_argument (with_table (T.table subs.now) input) (lent_scope T.tree scope.entry) number }
{
    let mut rest = scope;
    let mut mark = None;
    while let Some(entry) = rest {
        if is_end(entry.kind) {
            return Err(PrintFault::BadTemplateArgReference);
        }
        let list = copied(&entry.tree);
        if let Some(answer) = argument_of(entry.kind, list, entry.index, mark, number, subs) {
            return answer;
        }
        mark = mark_behind(entry.kind, entry.index, list.began(), mark);
        rest = entry.previous;
    }
    Err(PrintFault::BadTemplateArgReference)
}
