//! From which alternative on an expression must be tried, by the next bytes: those before it can't begin with them.

ghost use Rattle.std.specs.Prelude.{◌≡◌, true, ◌∷◌};
ghost use Rattle.demangle_core.specs.Table.{Table};
ghost use Rattle.demangle_grammar.specs.Code.{cread, here};
ghost use Rattle.demangle_forms.specs.ExpressionForms.{expression_at};
ghost use Rattle.demangle_cells.specs.Reads.{spot_at};
ghost use Rattle.demangle_read_expressions.specs.ExpressionStarts.{expression_from, leaves_expression};

use demangle_cells::{Depth, Text};

/// The most levels that a skipped alternative enters before it fails.
const SHALLOW: u32 = 4;

/// The alternative from which on an expression must be tried.
#[derive(Clone, Copy)]
pub enum ExpressionStart {
    /// The first one, a word of its own.
    All,
    /// Parameters: `T`.
    Parameters,
    /// Unresolved names: a digit.
    UnresolvedNames,
    /// Literals: `L`.
    Literals,
    /// Operators, the last alternative; a byte that begins no expression is refused there.
    Operators,
}

/// The alternative to begin with. Close to the limit of levels it is always the first, since one that is only tried may
/// reach the limit.
#[tactic(auto, using(crate::proofs::ExpressionStarts::expression_starts))]
pub fn expression_start(depth: Depth, text: Text<'_>, at: u32) -> ExpressionStart
    ensures { (table : Table)
        → expression_at (cread depth.levels) depth.conversion (here (spot_at text.entry at) table)
        ≡ expression_from result (cread depth.levels) depth.conversion (here (spot_at text.entry at) table) }
{
    if depth.levels < SHALLOW {
        return ExpressionStart::All;
    }
    start_of(text.rest(at))
}

/// The alternative to begin with, by the next bytes alone.
fn start_of(bytes: &[u8]) -> ExpressionStart
    ensures { leaves_expression result bytes.now ≡ true }
{
    match bytes {
        [] => ExpressionStart::Operators,
        [first, rest @ ..] => start_by(*first, rest),
    }
}

/// The same by the first byte, whatever follows it.
fn start_by(first: u8, rest: &[u8]) -> ExpressionStart
    ensures { leaves_expression result (first ∷ rest.now) ≡ true }
{
    match first {
        b'T' => ExpressionStart::Parameters,
        b'0'..=b'9' => ExpressionStart::UnresolvedNames,
        b'L' => ExpressionStart::Literals,
        b'E' | b'_' => ExpressionStart::Operators,
        _ => ExpressionStart::All,
    }
}
