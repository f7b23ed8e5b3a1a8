//! From which alternative on a name without its scope must be tried, by the next bytes.

ghost use Rattle.std.specs.Prelude.{◌≡◌, true, ◌∷◌};
ghost use Rattle.demangle_core.specs.Table.{Table};
ghost use Rattle.demangle_grammar.specs.Code.{cread, here};
ghost use Rattle.demangle_forms.specs.Starts.{leaves_unqualified, unqualified_from, unqualified_names_at};
ghost use Rattle.demangle_cells.specs.Reads.{spot_at};
ghost use Rattle.demangle_read_unqualified.specs.UnqualifiedStarts.{form_of_start};

use demangle_cells::{Depth, Text};

/// The most levels that a skipped alternative enters before it fails.
const SHALLOW: u32 = 2;

/// From which alternative on a name without its scope is tried.
#[derive(Clone, Copy)]
pub enum UnqualifiedStart {
    /// Operators, the first alternative.
    All,
    /// Constructors and destructors: `C` or `D`.
    Constructors,
    /// Source names: a digit or `L`.
    Sources,
    /// Closures and unnamed types, the last alternatives; a byte with which no name begins is refused there.
    Unnamed,
}

/// From which alternative on the name is tried. Close to the limit of levels it is always the first, since trying an
/// alternative may already reach the limit.
#[tactic(auto, using(demangle_forms::proofs::UnqualifiedStarts::unqualified_starts))]
#[inline(always)]
pub fn unqualified_start(depth: Depth, text: Text<'_>, at: u32) -> UnqualifiedStart
    ensures { (table : Table)
        → unqualified_names_at (cread depth.levels) depth.conversion (here (spot_at text.entry at) table)
        ≡ unqualified_from (form_of_start result) (cread depth.levels) depth.conversion
        (here (spot_at text.entry at) table) }
{
    if depth.levels < SHALLOW {
        return UnqualifiedStart::All;
    }
    start_of(text.rest(at))
}

/// An alternative before which none can begin with the next bytes.
#[inline(always)]
fn start_of(bytes: &[u8]) -> UnqualifiedStart
    ensures { leaves_unqualified (form_of_start result) bytes.now ≡ true }
{
    match bytes {
        [] => UnqualifiedStart::Unnamed,
        [first, rest @ ..] => start_by(*first, rest),
    }
}

/// The same by the first byte, whatever stands behind it.
#[inline(always)]
fn start_by(first: u8, rest: &[u8]) -> UnqualifiedStart
    ensures { leaves_unqualified (form_of_start result) (first ∷ rest.now) ≡ true }
{
    match first {
        b'0'..=b'9' | b'L' => UnqualifiedStart::Sources,
        b'C' | b'D' => UnqualifiedStart::Constructors,
        b'U' | b'S' | b'T' | b'G' | b'N' | b'Z' | b'E' | b'_' => UnqualifiedStart::Unnamed,
        _ => UnqualifiedStart::All,
    }
}
