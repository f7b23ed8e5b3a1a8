//! The words of constructors and destructors, ABI section 5.1.4.3, <ctor-dtor-name>, and the one before an operator.

ghost use Rattle.std.specs.Prelude.{◌≡◌};
ghost use Rattle.demangle_text.specs.Kind.{Gives};
ghost use Rattle.demangle_forms.specs.NameForms.{behind_on_at};
ghost use Rattle.demangle_forms.specs.UnqualifiedForms.{constructor_at, destructor_at};
ghost use Rattle.demangle_cells.specs.Reads.{spot_at};
ghost use Rattle.demangle_cells.specs.Tags.{tag_of};

use demangle_cells::{Tag, Text};
use demangle_read_rows::{optional_word, word};
use demangle_text::{Error, Result};

/// Which of the constructors it is, as the digit behind `C` or `CI` says, and the place behind it. Where none of the
/// four is there, the refusal is that of the last.
#[tactic(auto, using(demangle_read_rows::proofs::Places::places), unfolding(demangle_forms::specs::UnqualifiedForms::constructor_at, demangle_text::specs::Word::word_at))]
pub fn constructor_word(text: Text<'_>, at: u32) -> Result<(Tag, u32)>
    ensures { Gives (λ x. (tag_of x.0, spot_at text.entry x.1)) result (constructor_at (spot_at text.entry at)) }
{
    match text.peek(at) {
        Some(b'1') => Ok((Tag::CtorDtorNameCompleteConstructor, at + 1)),
        Some(b'2') => Ok((Tag::CtorDtorNameBaseConstructor, at + 1)),
        Some(b'3') => Ok((Tag::CtorDtorNameCompleteAllocatingConstructor, at + 1)),
        _ => {
            let rest = word(text, at, b"4")?;
            Ok((Tag::CtorDtorNameMaybeInChargeConstructor, rest))
        }
    }
}

/// Which of the destructors it is, as its word says, and the place behind it. `UnexpectedText` exactly where none of
/// the four is there.
#[tactic(auto, using(demangle_read_rows::proofs::Places::places), unfolding(demangle_forms::specs::UnqualifiedForms::destructor_at, demangle_text::specs::Word::word_at))]
pub fn destructor_word(text: Text<'_>, at: u32) -> Result<(Tag, u32)>
    ensures { Gives (λ x. (tag_of x.0, spot_at text.entry x.1)) result (destructor_at (spot_at text.entry at)) }
{
    match text.rest(at) {
        [b'D', b'0', ..] => Ok((Tag::CtorDtorNameDeletingDestructor, at + 2)),
        [b'D', b'1', ..] => Ok((Tag::CtorDtorNameCompleteDestructor, at + 2)),
        [b'D', b'2', ..] => Ok((Tag::CtorDtorNameBaseDestructor, at + 2)),
        [b'D', b'4', ..] => Ok((Tag::CtorDtorNameMaybeInChargeDestructor, at + 2)),
        _ => Err(Error::UnexpectedText),
    }
}

/// The place behind `on`, which may stand before the name of an operator, ABI section 5.1.2, <unqualified-name>.
#[tactic(auto, unfolding(demangle_forms::specs::NameForms::behind_on_at))]
pub fn behind_on(text: Text<'_>, at: u32) -> u32
    ensures { spot_at text.entry result ≡ behind_on_at (spot_at text.entry at) }
{
    let (_, rest) = optional_word(text, at, b"on");
    rest
}
