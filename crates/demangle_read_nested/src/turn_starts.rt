//! What a turn of a prefix begins with, ABI section 5.1.2, <prefix>.

ghost use Rattle.std.specs.Prelude.{◌≡◌, ℕ, IfErr, IfOk};
ghost use Rattle.demangle_text.specs.declared.error.Error.TheVariants.{OutOfMemory};
ghost use Rattle.demangle_text.specs.Kind.{kind};
ghost use Rattle.demangle_core.specs.Core.{Core};
ghost use Rattle.demangle_forms.specs.NameForms.{first_turn_at, is_name_first, no_prefix_kind, turn_at};
ghost use Rattle.demangle_cells.specs.Reads.{spot_at};
ghost use Rattle.demangle_cells.specs.View.{view, Holds};
ghost use Rattle.demangle_read_nested.specs.Turns.{form_of_turn};

use crate::shapes::is_numbered;
use demangle_cells::{Arena, Text};
use demangle_text::{Error, Result};

/// What a turn of a prefix begins with.
#[derive(Clone, Copy)]
pub enum Turn {
    /// A substitution, which replaces the prefix so far: `S`.
    Substitution,
    /// A template parameter, which replaces it: `T`.
    Parameter,
    /// `decltype`, which replaces it, or the name of a destructor: `D`.
    Decltype,
    /// Template arguments behind a numbered prefix: `I`.
    Template,
    /// A name.
    Name,
    /// No turn begins here.
    None,
}

/// Whether a name in a prefix begins with the byte.
#[tactic(auto, unfolding(demangle_forms::specs::NameForms::is_name_first))]
fn is_name_first(byte: u8) -> bool
    ensures { result ≡ is_name_first byte }
{
    match byte {
        b'0'..=b'9' | b'L' | b'C' | b'U' => true,
        b'n' | b'a' | b'd' | b'p' | b'c' | b'o' | b'm' | b'r' | b'e' => true,
        b'l' | b's' | b'g' | b'i' | b'q' | b'v' => true,
        _ => false,
    }
}

/// What the next turn behind this prefix begins with. `OutOfMemory` where the prefix is no known index.
#[tactic(auto, unfolding(demangle_forms::specs::NameForms::turn_at, demangle_forms::specs::NameForms::is_name_first))]
pub fn next_turn(arena: &Arena, prefix: u32, text: Text<'_>, at: u32) -> Result<Turn>
    ensures turn { IfOk result (λ turn. (F : ℕ → Core) → Holds F (view arena.now)
        → form_of_turn turn ≡ turn_at (F prefix) (spot_at text.entry at).left) }
    ensures refused { IfErr result (λ e. e ≡ OutOfMemory) }
{
    match text.rest(at) {
        [b'S', ..] => Ok(Turn::Substitution),
        [b'T', ..] => Ok(Turn::Parameter),
        [b'D', ..] => Ok(Turn::Decltype),
        [b'I', ..] => {
            if is_numbered(arena, prefix)? {
                Ok(Turn::Template)
            } else {
                Ok(Turn::None)
            }
        }
        [first, ..] if is_name_first(*first) => Ok(Turn::Name),
        _ => Ok(Turn::None),
    }
}

/// What the first turn begins with, which is no `Template`: no prefix begins with arguments.
#[tactic(auto, unfolding(demangle_forms::specs::NameForms::first_turn_at))]
pub fn first_turn(text: Text<'_>, at: u32) -> Turn
    ensures { form_of_turn result ≡ first_turn_at (spot_at text.entry at).left }
{
    match text.rest(at) {
        [b'S', ..] => Turn::Substitution,
        [b'T', ..] => Turn::Parameter,
        [b'D', ..] => Turn::Decltype,
        [first, ..] if is_name_first(*first) => Turn::Name,
        _ => Turn::None,
    }
}

/// Why no prefix begins here: `UnexpectedEnd` where the bytes or the nested name end, else `UnexpectedText`.
#[tactic(auto, unfolding(demangle_forms::specs::NameForms::no_prefix_kind))]
pub fn no_prefix(text: Text<'_>, at: u32) -> Error
    ensures { kind result ≡ no_prefix_kind (spot_at text.entry at).left }
{
    match text.rest(at) {
        [] | [b'E', ..] => Error::UnexpectedEnd,
        _ => Error::UnexpectedText,
    }
}
