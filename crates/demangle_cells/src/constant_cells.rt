//! The trees that no cell is kept for, one step deep.

ghost use Rattle.std.specs.Prelude.{◌≡◌, ◌<◌, ◌+◌, ℕ, List, false, true};
ghost use Rattle.demangle_core.specs.Core.{Core};
ghost use Rattle.demangle_cells.specs.Behind.{is_behind, is_known};
ghost use Rattle.demangle_cells.specs.Cells.{plain_tree};
ghost use Rattle.demangle_cells.specs.Fixed.{absent, first_cell};
ghost use Rattle.demangle_cells.specs.View.{Holds, View};

use crate::plain::Plain;
use crate::store::{FIRST_CELL, FIRST_OTHER, FIRST_REFERENCE};
use crate::tag::Tag;

/// What an index is that no cell has: a constant tree, a reference to a component, or else a part that is not there.
#[inline(always)]
#[tactic(auto, using(crate::proofs::Blocks::beside_cells))]
pub(crate) fn beside_cells(id: u32) -> Plain
    ensures cell { is_known first_cell id ≡ true
        → (F : ℕ → Core) (v : View) → Holds F v → F id ≡ plain_tree F v.list result }
    ensures none { is_known first_cell id ≡ false → (F : ℕ → Core) (list : List ℕ) → plain_tree F list result ≡ absent }
    ensures lower { (list : List ℕ) → is_behind id list result ≡ true }
{
    if id < FIRST_CELL {
        return constant_cell(id);
    }
    if id >= FIRST_OTHER {
        return Plain::Other(id - FIRST_OTHER);
    }
    if id >= FIRST_REFERENCE {
        return Plain::Reference(id - FIRST_REFERENCE);
    }
    Plain::Empty(Tag::Absent)
}

/// A constant tree. Its parts are constants of the blocks before it.
#[tactic(auto, using(crate::proofs::Blocks::constant_cells))]
fn constant_cell(id: u32) -> Plain
    requires { id < first_cell }
    ensures cell { (F : ℕ → Core) (v : View) → Holds F v → F id ≡ plain_tree F v.list result }
    ensures lower { (list : List ℕ) → is_behind id list result ≡ true }
{
    let table = id / 256;
    let word = id % 256;
    match table {
        0..=4 => Plain::Word(table as u8, word as u8),
        5 => Plain::One(Tag::BuiltinTypeStandard, 256 + word),
        6 => single_cell(word),
        7 => Plain::One(Tag::OperatorNameSimple, word),
        _ => Plain::One(Tag::TypeHandleBuiltin, 1280 + word),
    }
}

/// A single constant. Its parts stand before it.
#[tactic(auto, using(crate::proofs::Blocks::single_cells))]
fn single_cell(number: u32) -> Plain
    requires { number < 256 }
    ensures cell { (F : ℕ → Core) (v : View) → Holds F v → F (1536 + number) ≡ plain_tree F v.list result }
    ensures lower { (list : List ℕ) → is_behind (1536 + number) list result ≡ true }
{
    match number {
        0 => Plain::Flag(false),
        1 => Plain::Flag(true),
        2 => Plain::Empty(Tag::Absent),
        3 => Plain::Number(0),
        4 => Plain::Empty(Tag::Several),
        5..=7 => Plain::One(Tag::AbiTags, 1540),
        8..=15 => Plain::Three(
            Tag::CvQualifiers,
            1536 + number / 4 % 2,
            1536 + number / 2 % 2,
            1536 + number % 2,
        ),
        _ => Plain::One(Tag::Present, 768 + (number - 16)),
    }
}
