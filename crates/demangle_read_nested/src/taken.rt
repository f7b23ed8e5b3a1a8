//! What a nested name takes over of the entry of its prefix, ABI section 5.1.2, <nested-name>.

ghost use Rattle.std.specs.Prelude.{◌≡◌, ℕ, Option, option_map};
ghost use Rattle.demangle_core.specs.Core.{Core, Tag, node, end};
ghost use Rattle.demangle_grammar.specs.Reading.{or_end};
ghost use Rattle.demangle_cells.specs.View.{view, Holds};
ghost use Rattle.demangle_read_nested.specs.Taken.{EndsAs, IsLast};

use crate::shapes::is_node;
use demangle_cells::{Arena, Plain, Tag as CellTag};
use demangle_text::{Error, Result};

/// With what a prefix ends.
#[derive(Clone, Copy)]
pub enum Taken {
    /// A name without a scope.
    Name(u32),
    /// A scope, and a name in it.
    Scoped(u32, u32),
    /// Template arguments.
    Template,
    /// Neither.
    Nothing,
}

/// With what the prefix ends. `OutOfMemory` where its trees are none that the readers of prefixes make.
pub fn last_of(arena: &Arena, prefix: u32) -> Result<Taken>
    ensures { IsLast prefix result (view arena.now) }
{
    match arena.cell(prefix) {
        Some(Plain::Reference(number)) => last_of_entry(arena, arena.numbered(number)),
        Some(Plain::Other(number)) => last_of_entry(arena, arena.other(number)),
        Some(Plain::One(CellTag::WellKnown, word)) => match arena.cell(word) {
            Some(Plain::Word(_, _)) => Ok(Taken::Nothing),
            _ => Err(Error::OutOfMemory),
        },
        _ => Err(Error::OutOfMemory),
    }
}

/// The same by the entry of the prefix, where there is one.
fn last_of_entry(arena: &Arena, entry: Option<u32>) -> Result<Taken>
    ensures { EndsAs (λ F. or_end (option_map F entry)) result (view arena.now) }
{
    let Some(entry) = entry else {
        return Ok(Taken::Nothing);
    };
    match arena.cell(entry) {
        Some(Plain::One(CellTag::SubstitutablePrefix, prefix)) => last_of_prefix(arena, prefix),
        Some(
            Plain::One(
                CellTag::SubstitutableTypeNode
                | CellTag::SubstitutableUnscopedTemplateName
                | CellTag::SubstitutableTemplateTemplateParam
                | CellTag::SubstitutableUnresolvedType
                | CellTag::SubstitutableExpression,
                _,
            ),
        ) => Ok(Taken::Nothing),
        _ => Err(Error::OutOfMemory),
    }
}

/// The same by the prefix in the entry.
fn last_of_prefix(arena: &Arena, prefix: u32) -> Result<Taken>
    ensures { EndsAs (λ F. node Tag.SubstitutablePrefix (F prefix) end) result (view arena.now) }
{
    match arena.cell(prefix) {
        Some(Plain::One(CellTag::PrefixUnqualified, name)) => Ok(Taken::Name(name)),
        Some(Plain::Two(CellTag::PrefixNested, scope, name)) => {
            if is_node(arena, scope) {
                Ok(Taken::Scoped(scope, name))
            } else {
                Err(Error::OutOfMemory)
            }
        }
        Some(Plain::Two(CellTag::PrefixTemplate, _, _)) => Ok(Taken::Template),
        Some(
            Plain::One(CellTag::PrefixTemplateParam | CellTag::PrefixDecltype, _)
            | Plain::Two(CellTag::PrefixDataMember, _, _),
        ) => Ok(Taken::Nothing),
        _ => Err(Error::OutOfMemory),
    }
}
