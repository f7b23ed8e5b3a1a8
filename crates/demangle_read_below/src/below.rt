//! What a reader of a row knows of the rows below it.

ghost use Rattle.std.specs.Prelude.{◌<◌, ℕ};
ghost use Rattle.demangle_grammar.specs.Rule.{Row};
ghost use Rattle.demangle_cells.specs.View.{view, Grown};
ghost use Rattle.demangle_cells.specs.Reads.{ReadsRow};

use demangle_cells::{Arena, Depth, Part, Text};
use demangle_text::Result;

/// The six rows through which all recursion of the grammar goes: every cycle of rows leads through one of them. A
/// reader of a row is handed them, and calls the readers of all other rows by their names. Each method reads its row:
/// each refusal is the row's or `OutOfMemory`, and leaves the components as they were.
pub trait Below: Copy {
    /// The rows may be read with fewer levels left than this.
    ghost most: { Self → ℕ };
    /// That they may be read at all.
    ghost can: { Self → Type 0 };

    /// A type, ABI section 5.1.5, <type>.
    fn type_handle(self, arena: &mut Arena, depth: Depth, text: Text<'_>, at: u32) -> Result<Part>
        requires can { can self }
        requires room { depth.levels < most self }
        ensures grown { Grown (view arena.old) (view arena.new) }
        ensures reads { ReadsRow Row.type_handle depth.levels depth.conversion text.entry at result
            (view arena.old) (view arena.new) };

    /// An expression, ABI section 5.1.6, <expression>.
    fn expression(self, arena: &mut Arena, depth: Depth, text: Text<'_>, at: u32) -> Result<Part>
        requires can { can self }
        requires room { depth.levels < most self }
        ensures grown { Grown (view arena.old) (view arena.new) }
        ensures reads { ReadsRow Row.expression depth.levels depth.conversion text.entry at result
            (view arena.old) (view arena.new) };

    /// A template argument, ABI section 5.1.2, <template-arg>.
    fn template_arg(self, arena: &mut Arena, depth: Depth, text: Text<'_>, at: u32) -> Result<Part>
        requires can { can self }
        requires room { depth.levels < most self }
        ensures grown { Grown (view arena.old) (view arena.new) }
        ensures reads { ReadsRow Row.template_arg depth.levels depth.conversion text.entry at result
            (view arena.old) (view arena.new) };

    /// A name, ABI section 5.1.2, <name>.
    fn name(self, arena: &mut Arena, depth: Depth, text: Text<'_>, at: u32) -> Result<Part>
        requires can { can self }
        requires room { depth.levels < most self }
        ensures grown { Grown (view arena.old) (view arena.new) }
        ensures reads { ReadsRow Row.name depth.levels depth.conversion text.entry at result
            (view arena.old) (view arena.new) };

    /// A function, a variable or what the compiler makes, ABI section 5.1.2, <encoding>.
    fn encoding(self, arena: &mut Arena, depth: Depth, text: Text<'_>, at: u32) -> Result<Part>
        requires can { can self }
        requires room { depth.levels < most self }
        ensures grown { Grown (view arena.old) (view arena.new) }
        ensures reads { ReadsRow Row.encoding depth.levels depth.conversion text.entry at result
            (view arena.old) (view arena.new) };

    /// A mangled name, ABI section 5.1.2, <mangled-name>.
    fn mangled_name(self, arena: &mut Arena, depth: Depth, text: Text<'_>, at: u32) -> Result<Part>
        requires can { can self }
        requires room { depth.levels < most self }
        ensures grown { Grown (view arena.old) (view arena.new) }
        ensures reads { ReadsRow Row.mangled_name depth.levels depth.conversion text.entry at result
            (view arena.old) (view arena.new) };
}
