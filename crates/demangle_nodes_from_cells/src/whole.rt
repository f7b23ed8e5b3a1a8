//! The nodes below, of any index.

ghost use Rattle.std.specs.Prelude.{ℕ};

use crate::below::Below;
use crate::tie::{encoding_from, expression_from, mangled_name_from, name_from, template_arg_from};
use demangle_cells::Arena;
use demangle_entries::{Encoding, Expression, MangledName, Name, TemplateArg};
use demangle_text::Result;
use std::alloc::Global;

/// Makes nodes of any index.
#[derive(Clone, Copy)]
pub(crate) struct Whole;

impl Below for Whole {
    ghost can = { λ s. Unit {0} };

    fn expression(self, alloc: Global, arena: &Arena, id: u32) -> Result<Expression> {
        expression_from(alloc, arena, id)
    }

    fn template_arg(self, alloc: Global, arena: &Arena, id: u32) -> Result<TemplateArg> {
        template_arg_from(alloc, arena, id)
    }

    fn name(self, alloc: Global, arena: &Arena, id: u32) -> Result<Name> {
        name_from(alloc, arena, id)
    }

    fn encoding(self, alloc: Global, arena: &Arena, id: u32) -> Result<Encoding> {
        encoding_from(alloc, arena, id)
    }

    fn mangled_name(self, alloc: Global, arena: &Arena, id: u32) -> Result<MangledName> {
        mangled_name_from(alloc, arena, id)
    }
}
