//! One name, read into an arena and printed from there.

ghost use Rattle.std.specs.Prelude.{◌≡◌, true, IfErr};
ghost use Rattle.demangle_cell_trees.specs.ArenaTrees.{table_of, tree_at};
ghost use Rattle.demangle_lines_print.specs.Telling.{Tells, telling};
ghost use Rattle.demangle_printing.specs.Outcome.{outcome};
ghost use Rattle.demangler.specs.Answer.{answer_of};
ghost use Rattle.demangler.specs.NameTold.{IsToldAnswer, KeepsFaults, Lengthens, NameTold, may_be_told};

use crate::fault::{SymbolFault, print_fault, read_fault};
use demangle_cell_trees::{Components, tree_at};
use demangle_cells::Arena;
use demangle_context::{DemangleError, DemangleOptions, DemangleWrite, InnerItems};
use demangle_lines_print::tell;
use demangle_read::read_whole;
use demangle_text::ParseOptions;
use std::alloc::Global;

/// Tells a listener the text of a tree of an arena. Errors are those of the printing; where there is no memory for its
/// stacks, the listener is told nothing.
#[inline(always)]
pub fn tell_tree<W: DemangleWrite>(
    alloc: Global,
    arena: &Arena,
    id: u32,
    bytes: &[u8],
    out: &mut W,
    print: &DemangleOptions,
) -> Result<(), DemangleError>
    ensures { Tells (W.seen out.old) (W.seen out.new) print.now.limit
        (telling (table_of arena.now) bytes.now print.now (tree_at arena.now id)) result }
{
    let Ok(components) = Components::of(alloc, arena) else {
        return Err(DemangleError::OutOfMemory);
    };
    match InnerItems::new(alloc, print.limit()) {
        Ok(items) => {
            let (_items, answer) = tell(items, tree_at(arena, id), &components, bytes, print, out);
            answer
        }
        Err(_) => Err(DemangleError::OutOfMemory),
    }
}

/// Tells a listener the text of a linker name, over an arena that may hold anything before.
#[inline(always)]
pub(crate) fn told<W: DemangleWrite>(
    alloc: Global,
    arena: &mut Arena,
    bytes: &[u8],
    out: &mut W,
    parse: &ParseOptions,
    print: &DemangleOptions,
) -> Result<(), SymbolFault>
    ensures outcome { IsToldAnswer (answer_of (outcome parse.now print.now bytes.now))
        (W.seen out.old) (W.seen out.new) result }
    ensures told { NameTold (W.seen out.old) (W.seen out.new) parse.now print.now bytes.now result }
    ensures faults { KeepsFaults (W.seen out.old) (W.seen out.new) result }
    ensures lengthens { Lengthens (W.seen out.old).text (W.seen out.new).text }
    ensures causes { IfErr result (λ e. may_be_told e ≡ true) }
{
    match read_whole(arena, bytes, parse) {
        Ok(id) => {
            let told = tell_tree(alloc, arena, id, bytes, out, print);
            match told {
                Ok(()) => Ok(()),
                Err(error) => Err(print_fault(error)),
            }
        }
        Err(error) => Err(read_fault(error)),
    }
}
