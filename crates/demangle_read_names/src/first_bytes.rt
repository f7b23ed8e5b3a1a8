//! From which alternative on a name must be tried, by the next bytes.

ghost use Rattle.std.specs.Prelude.{◌≡◌, ◌∷◌, true};
ghost use Rattle.demangle_core.specs.Table.{Table};
ghost use Rattle.demangle_grammar.specs.Code.{cread, here};
ghost use Rattle.demangle_forms.specs.Starts.{leaves_name, name_from, names_at, refers};
ghost use Rattle.demangle_forms.specs.Starts.{template_handle_from, template_handles_at};
ghost use Rattle.demangle_cells.specs.Reads.{spot_at};
ghost use Rattle.demangle_read_names.specs.NameStarts.{form_of_start};

use demangle_cells::{Depth, Text};
use demangle_read_types::begins_std;

/// The most levels that a skipped alternative enters before it fails.
const SHALLOW: u32 = 5;

/// From which alternative on a name is tried.
#[derive(Clone, Copy)]
pub enum NameStart {
    /// Nested names, the first alternative.
    All,
    /// Templates that are substitutions: `S` and no `t`.
    Templates,
    /// Local names, the last alternative; a byte with which no name begins is refused there.
    Locals,
}

/// From which alternative on the name is tried. Close to the limit of levels it is always the first, since trying an
/// alternative may already reach the limit.
#[tactic(auto, using(demangle_forms::proofs::NameStarts::name_starts))]
pub fn name_start(depth: Depth, text: Text<'_>, at: u32) -> NameStart
    ensures { (table : Table) → names_at (cread depth.levels) depth.conversion (here (spot_at text.entry at) table)
        ≡ name_from (form_of_start result) (cread depth.levels) depth.conversion
        (here (spot_at text.entry at) table) }
{
    if depth.levels < SHALLOW {
        return NameStart::All;
    }
    start_of(text.rest(at))
}

/// An alternative before which none can begin with the next bytes.
fn start_of(bytes: &[u8]) -> NameStart
    ensures { leaves_name (form_of_start result) bytes.now ≡ true }
{
    match bytes {
        [] => NameStart::Locals,
        [first, rest @ ..] => start_by(*first, rest),
    }
}

/// The same by the first byte and those behind it.
fn start_by(first: u8, rest: &[u8]) -> NameStart
    ensures { leaves_name (form_of_start result) (first ∷ rest.now) ≡ true }
{
    match first {
        b'S' => {
            if begins_std(rest) {
                NameStart::All
            } else {
                NameStart::Templates
            }
        }
        b'Z' | b'T' | b'G' | b'K' | b'V' | b'E' | b'_' | b'.' => NameStart::Locals,
        _ => NameStart::All,
    }
}

/// Whether the name of a template is certainly a substitution, so that no unscoped name needs to be tried.
#[tactic(auto, using(demangle_forms::proofs::NameStarts::handle_starts))]
pub fn is_substitution(depth: Depth, text: Text<'_>, at: u32) -> bool
    ensures { (table : Table)
        → template_handles_at (cread depth.levels) depth.conversion (here (spot_at text.entry at) table)
        ≡ template_handle_from result (cread depth.levels) depth.conversion (here (spot_at text.entry at) table) }
{
    if depth.levels < SHALLOW {
        return false;
    }
    begins_substitution(text.rest(at))
}

/// Whether a substitution follows, and no name in `std`.
fn begins_substitution(bytes: &[u8]) -> bool
    ensures { result ≡ refers bytes.now }
{
    match bytes {
        [] => false,
        [first, rest @ ..] => b'S' == *first && !begins_std(rest),
    }
}
