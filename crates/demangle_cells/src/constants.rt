//! The indexes of trees that no cell is needed for.

ghost use Rattle.std.specs.Prelude.{◌≡◌, ◌<◌, ◌≤◌, ℕ, MatchOption, pos};
ghost use Rattle.demangle_core.specs.Core.{Core, Tag, chosen, end, flag, node, number};
ghost use Rattle.demangle_grammar.specs.Tree.{reference};
ghost use Rattle.demangle_cells.specs.Fixed.{builtin_tree, first_reference, number_of_table};
ghost use Rattle.demangle_cells.specs.View.{Holds, View, which_of};

use crate::store::{FIRST_OTHER, FIRST_REFERENCE};

/// The tables of words, by their numbers.
#[derive(Clone, Copy)]
pub enum WordTable {
    /// Operators.
    Operators,
    /// Builtin types.
    Builtins,
    /// Abbreviated components.
    Components,
    /// Ref-qualifiers.
    RefQualifiers,
    /// The mark of an explicit object parameter.
    ExplicitObjects,
}

impl WordTable {
    /// Its number.
    #[inline(always)]
    fn number(self) -> u32
        ensures { result ≡ number_of_table self }
    {
        match self {
            WordTable::Operators => 0,
            WordTable::Builtins => 1,
            WordTable::Components => 2,
            WordTable::RefQualifiers => 3,
            WordTable::ExplicitObjects => 4,
        }
    }
}

/// The index of a word of a table.
#[inline(always)]
#[tactic(auto, using(crate::proofs::Blocks::word_is, crate::proofs::Blocks::table_small))]
pub fn word_id(table: WordTable, word: u8) -> u32
    ensures { (F : ℕ → Core) (v : View) → Holds F v → F result ≡ chosen (number_of_table table) word end }
{
    table.number() * 256 + word as u32
}

/// The index of a standard builtin type, by the number of its word.
#[inline(always)]
pub fn builtin_id(word: u8) -> u32
    ensures { (F : ℕ → Core) (v : View) → Holds F v → F result ≡ builtin_tree word }
{
    2048 + word as u32
}

/// The index of the name of an operator that is a word, by the number of the word.
#[inline(always)]
pub fn operator_id(word: u8) -> u32
    ensures { (F : ℕ → Core) (v : View) → Holds F v
        → F result ≡ node Tag.OperatorNameSimple (chosen 0 word end) end }
{
    1792 + word as u32
}

/// The index of the qualifiers of a type: `restrict`, `volatile`, `const`.
#[inline(always)]
#[tactic(auto, using(crate::proofs::Blocks::qualifiers_are))]
pub fn qualifiers_id(restrict: bool, volatile: bool, is_const: bool) -> u32
    ensures { (F : ℕ → Core) (v : View) → Holds F v
        → F result ≡ node Tag.CvQualifiers (flag restrict (flag volatile (flag is_const end))) end }
{
    match (restrict, volatile, is_const) {
        (false, false, false) => 1544,
        (false, false, true) => 1545,
        (false, true, false) => 1546,
        (false, true, true) => 1547,
        (true, false, false) => 1548,
        (true, false, true) => 1549,
        (true, true, false) => 1550,
        (true, true, true) => 1551,
    }
}

/// The index of a flag.
#[inline(always)]
#[tactic(auto, using(crate::proofs::Blocks::flags))]
pub fn flag_id(set: bool) -> u32
    ensures { (F : ℕ → Core) (v : View) → Holds F v → F result ≡ flag set end }
{
    if set { 1537 } else { 1536 }
}

/// The index of a part that is not there.
#[inline(always)]
#[tactic(auto, using(crate::proofs::Blocks::absent_is))]
pub fn absent_id() -> u32
    ensures { (F : ℕ → Core) (v : View) → Holds F v → F result ≡ node Tag.Absent end end }
{
    1538
}

/// The index of the number 0.
#[inline(always)]
#[tactic(auto, using(crate::proofs::Blocks::nought_is))]
pub fn nought_id() -> u32
    ensures { (F : ℕ → Core) (v : View) → Holds F v → F result ≡ number (pos 0) end }
{
    1539
}

/// The index of an empty list.
#[inline(always)]
#[tactic(auto, using(crate::proofs::Blocks::empty_is))]
pub fn empty_id() -> u32
    ensures { (F : ℕ → Core) (v : View) → Holds F v → F result ≡ node Tag.Several end end }
{
    1540
}

/// The index of no tags.
#[inline(always)]
#[tactic(auto, using(crate::proofs::Blocks::no_tags_is))]
pub fn no_tags_id() -> u32
    ensures { (F : ℕ → Core) (v : View) → Holds F v → F result ≡ node Tag.AbiTags (node Tag.Several end end) end }
{
    1541
}

/// The index of an optional ref-qualifier that is there, by the number of its word.
#[inline(always)]
pub fn present_ref_qualifier_id(word: u8) -> u32
    requires { word < 2 }
    ensures { (F : ℕ → Core) (v : View) → Holds F v → F result ≡ node Tag.Present (chosen 3 word end) end }
{
    1552 + word as u32
}

/// The index of the reference to a component, by its number among the numbered ones or among the others. None exactly
/// where the number is 2^30 or more: no arena has so many.
#[inline(always)]
pub fn reference_id(numbered: bool, number: usize) -> Option<u32>
    ensures { MatchOption result (first_reference ≤ number)
        (λ r. (F : ℕ → Core) (v : View) → Holds F v → F r ≡ reference (which_of numbered) number) }
{
    if number >= FIRST_REFERENCE as usize {
        return None;
    }
    if numbered {
        Some(FIRST_REFERENCE + number as u32)
    } else {
        Some(FIRST_OTHER + number as u32)
    }
}
