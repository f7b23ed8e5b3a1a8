//! The numbers of tags.

ghost use Rattle.std.specs.Prelude.{◌≡◌};
ghost use Rattle.demangle_core.specs.Core.{code};
ghost use Rattle.demangle_cells.specs.Tags.{tag_of};
ghost use Rattle.demangle_cell_trees.specs.Own.{tag_number};

use demangle_cells::Tag;

/// The number of a tag.
#[inline(always)]
pub(crate) fn number_of_tag(tag: Tag) -> u8
    ensures { result ≡ code (tag_of tag) }
{
    tag as u8
}

/// The number of the tag of a node whose parts have indexes; that of any other cell is 0.
#[inline(always)]
pub(crate) fn row_number(tag: Option<Tag>) -> u8
    ensures { result ≡ tag_number tag }
{
    match tag {
        None => 0,
        Some(tag) => number_of_tag(tag),
    }
}
