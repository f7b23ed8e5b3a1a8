//! Which components a nested name can take over, ABI section 5.1.2, <nested-name>.

ghost use Rattle.std.specs.Prelude.{◌≡◌, ℕ, List, IfSome, true};
ghost use Rattle.demangle_core.specs.Core.{Core, Tag, end, node};
ghost use Rattle.demangle_grammar.specs.Reading.{is_nestable};
ghost use Rattle.demangle_cells.specs.Cells.{plain_tree};
ghost use Rattle.demangle_cells.specs.Memo.{seen};
ghost use Rattle.demangle_cells.specs.Stored.{Holds, stored, which_of};

use crate::entry::Entry;
use crate::plain::Plain;
use crate::store::Store;
use crate::tag::Tag as CellTag;

/// Whether a nested name can take over the component of this tree. None where it is no tree that the readers make of a
/// component.
fn is_nestable(store: &Store, component: u32) -> Option<bool>
    ensures { IfSome result (λ b. (F : ℕ → Core) → Holds F (stored store.now) → is_nestable (F component) ≡ b) }
{
    match store.cell(component)? {
        Plain::One(CellTag::SubstitutablePrefix, prefix) => ends_in_name(store, prefix),
        Plain::One(
            CellTag::SubstitutableTypeNode
            | CellTag::SubstitutableUnscopedTemplateName
            | CellTag::SubstitutableTemplateTemplateParam
            | CellTag::SubstitutableUnresolvedType
            | CellTag::SubstitutableExpression,
            _,
        ) => Some(false),
        _ => None,
    }
}

/// Whether a prefix ends with a name or with template arguments.
fn ends_in_name(store: &Store, prefix: u32) -> Option<bool>
    ensures { IfSome result (λ b. (F : ℕ → Core) → Holds F (stored store.now)
        → is_nestable (node Tag.SubstitutablePrefix (F prefix) end) ≡ b) }
{
    match store.cell(prefix)? {
        Plain::One(CellTag::PrefixUnqualified, _) | Plain::Two(CellTag::PrefixTemplate, _, _) =>
            Some(true),
        Plain::Two(CellTag::PrefixNested, scope, _) => match store.cell(scope)? {
            Plain::Reference(_) | Plain::Other(_) | Plain::One(CellTag::WellKnown, _) => Some(true),
            _ => None,
        },
        Plain::One(CellTag::PrefixTemplateParam | CellTag::PrefixDecltype, _)
        | Plain::Two(CellTag::PrefixDataMember, _, _) => Some(false),
        _ => None,
    }
}

/// What a reading sees of a component: an entry whose index is 1 where a nested name can take it over, else 0. None where
/// its tree is none that the readers make of a component.
pub(crate) fn seen_of(store: &Store, component: Entry) -> Option<Entry>
    ensures { IfSome result (λ last. (F : ℕ → Core) → Holds F (stored store.now)
        → seen last ≡ (which_of component.numbered, is_nestable (F component.id))) }
{
    match is_nestable(store, component.id) {
        None => None,
        Some(true) => Some(Entry {
            numbered: component.numbered,
            id: 1,
        }),
        Some(false) => Some(Entry {
            numbered: component.numbered,
            id: 0,
        }),
    }
}
