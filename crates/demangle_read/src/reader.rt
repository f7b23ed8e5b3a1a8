//! The whole reader, as the value that the readers of rows are handed.

ghost use Rattle.std.specs.Prelude.{◌^◌};

use crate::tie::{encoding, expression, mangled_name, name, template_arg, type_handle};
use demangle_cells::{Arena, Depth, Part, Text};
use demangle_read_below::Below;
use demangle_text::Result;

/// The rows through which all recursion goes, with any number of levels left.
#[derive(Clone, Copy)]
pub struct Reader;

impl Below for Reader {
    ghost most = { λ _. 2 ^ 32 };

    ghost can = { λ _. Unit {0} };

    fn type_handle(self, arena: &mut Arena, depth: Depth, text: Text<'_>, at: u32) -> Result<Part> {
        type_handle(arena, depth, text, at)
    }

    fn expression(self, arena: &mut Arena, depth: Depth, text: Text<'_>, at: u32) -> Result<Part> {
        expression(arena, depth, text, at)
    }

    fn template_arg(
        self,
        arena: &mut Arena,
        depth: Depth,
        text: Text<'_>,
        at: u32,
    ) -> Result<Part> {
        template_arg(arena, depth, text, at)
    }

    fn name(self, arena: &mut Arena, depth: Depth, text: Text<'_>, at: u32) -> Result<Part> {
        name(arena, depth, text, at)
    }

    fn encoding(self, arena: &mut Arena, depth: Depth, text: Text<'_>, at: u32) -> Result<Part> {
        encoding(arena, depth, text, at)
    }

    fn mangled_name(
        self,
        arena: &mut Arena,
        depth: Depth,
        text: Text<'_>,
        at: u32,
    ) -> Result<Part> {
        mangled_name(arena, depth, text, at)
    }
}
