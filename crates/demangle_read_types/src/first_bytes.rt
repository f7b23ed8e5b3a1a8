//! From which alternative on a type must be tried, by the next bytes. Those before it can't begin with them.

ghost use Rattle.std.specs.Prelude.{◌≡◌, ◌||◌, true, ◌∷◌};
ghost use Rattle.demangle_core.specs.Table.{Table};
ghost use Rattle.demangle_grammar.specs.Rule.{Class};
ghost use Rattle.demangle_grammar.specs.Items.{these};
ghost use Rattle.demangle_grammar.specs.Reading.{next_is};
ghost use Rattle.demangle_grammar.specs.Code.{cread, here};
ghost use Rattle.demangle_forms.specs.TypeForms.{type_handle_at};
ghost use Rattle.demangle_forms.specs.Starts.{leaves_type, type_from};
ghost use Rattle.demangle_cells.specs.Reads.{spot_at};
ghost use Rattle.demangle_read_types.specs.TypeStarts.{form_of_start};

use demangle_cells::{Depth, Text};

/// The most levels that a skipped alternative enters before it fails.
const SHALLOW: u32 = 8;

/// The first alternative of a type that must be tried.
#[derive(Clone, Copy)]
pub enum TypeStart {
    /// Builtin types, the first of all.
    All,
    /// Qualifiers: `r`, `V` or `K`.
    Qualified,
    /// Classes and enumerations: a digit, `N`, `Z`, `L`, `C` or `St`.
    Names,
    /// Substitutions, then the alternatives from classes on: `S` and no `t`.
    Substitutions,
    /// Functions: `F`.
    Functions,
    /// Arrays and pointers to members: `A` or `M`.
    Shapes,
    /// Template parameters: `T` and a number or `_`.
    Templates,
    /// The marks before types, the last alternatives. A byte with which no type begins is refused there.
    Marks,
}

/// The first alternative that must be tried. Close to the limit of levels that is the first of all: even an alternative
/// that can't begin with the next bytes may reach the limit before it fails.
#[inline(always)]
#[tactic(auto, using(demangle_forms::proofs::TypeStarts::type_starts))]
pub fn type_start(depth: Depth, text: Text<'_>, at: u32) -> TypeStart
    ensures { (table : Table) → type_handle_at (cread depth.levels) depth.conversion
        (here (spot_at text.entry at) table)
        ≡ type_from (form_of_start result) (cread depth.levels) depth.conversion (here (spot_at text.entry at) table) }
{
    if depth.levels < SHALLOW {
        return TypeStart::All;
    }
    start_of(text.rest(at))
}

/// The same by the next bytes alone, where no skipped alternative reaches the limit.
#[inline(always)]
fn start_of(bytes: &[u8]) -> TypeStart
    ensures { leaves_type (form_of_start result) bytes.now ≡ true }
{
    match bytes {
        [] => TypeStart::Marks,
        [first, rest @ ..] => start_by(*first, rest),
    }
}

/// The same by the first byte and the bytes after it.
#[inline(always)]
fn start_by(first: u8, rest: &[u8]) -> TypeStart
    ensures { leaves_type (form_of_start result) (first ∷ rest.now) ≡ true }
{
    match first {
        b'0'..=b'9' | b'N' | b'Z' | b'L' | b'C' => TypeStart::Names,
        b'S' => {
            if begins_std(rest) {
                TypeStart::Names
            } else {
                TypeStart::Substitutions
            }
        }
        b'T' => {
            if begins_number(rest) {
                TypeStart::Templates
            } else {
                TypeStart::All
            }
        }
        b'r' | b'V' | b'K' => TypeStart::Qualified,
        b'F' => TypeStart::Functions,
        b'A' | b'M' => TypeStart::Shapes,
        b'P' | b'R' | b'O' | b'G' | b'E' | b'J' | b'I' | b'X' | b'_' | b'.' => TypeStart::Marks,
        _ => TypeStart::All,
    }
}

/// Whether a `t` is next, after an `S`: the two stand for `std`.
pub fn begins_std(rest: &[u8]) -> bool
    ensures { result ≡ next_is (these "t") rest.now }
{
    match rest {
        [] => false,
        [next, ..] => b't' == *next,
    }
}

/// Whether the number of a template parameter is next, or the `_` that ends it.
fn begins_number(rest: &[u8]) -> bool
    ensures { result ≡ (next_is Class.digits rest.now || next_is (these "_") rest.now) }
{
    match rest {
        [] => false,
        [next, ..] => (b'0' <= *next && *next <= b'9') || b'_' == *next,
    }
}
