//! The words of special names, ABI section 5.1.4, and single bytes in names that compilers make.

ghost use Rattle.std.specs.Prelude.{◌≡◌};
ghost use Rattle.demangle_text.specs.Kind.{Gives};
ghost use Rattle.demangle_core.specs.Core.{end};
ghost use Rattle.demangle_grammar.specs.Rule.{Class, Eat};
ghost use Rattle.demangle_grammar.specs.Items.{these};
ghost use Rattle.demangle_grammar.specs.Code.{eat_at};
ghost use Rattle.demangle_forms.specs.SpecialForms.{name_word_at, table_word_at};
ghost use Rattle.demangle_cells.specs.Reads.{spot_at};
ghost use Rattle.demangle_cells.specs.Tags.{tag_of};

use demangle_cells::{Tag, Text};
use demangle_read_rows::word;
use demangle_text::{Error, Result};

/// The node that is made of a type, by the word there, and where the text goes on. Where none of the five is there, the
/// refusal is that of the last, `TF`.
#[tactic(auto, unfolding(demangle_forms::specs::SpecialForms::table_word_at))]
pub fn table_word(text: Text<'_>, at: u32) -> Result<(Tag, u32)>
    ensures { Gives (λ x. (tag_of x.0, spot_at text.entry x.1)) result (table_word_at (spot_at text.entry at)) }
{
    if let Ok(stop) = word(text, at, b"TV") {
        return Ok((Tag::SpecialNameVirtualTable, stop));
    }
    if let Ok(stop) = word(text, at, b"TT") {
        return Ok((Tag::SpecialNameVtt, stop));
    }
    if let Ok(stop) = word(text, at, b"TI") {
        return Ok((Tag::SpecialNameTypeinfo, stop));
    }
    if let Ok(stop) = word(text, at, b"TS") {
        return Ok((Tag::SpecialNameTypeinfoName, stop));
    }
    let stop = word(text, at, b"TF")?;
    Ok((Tag::SpecialNameTypeinfoFunction, stop))
}

/// The node that is made of a name, by the word there, and where the text goes on. Where none of the three is there,
/// the refusal is that of the last, `GV`.
#[tactic(auto, unfolding(demangle_forms::specs::SpecialForms::name_word_at))]
pub fn name_word(text: Text<'_>, at: u32) -> Result<(Tag, u32)>
    ensures { Gives (λ x. (tag_of x.0, spot_at text.entry x.1)) result (name_word_at (spot_at text.entry at)) }
{
    if let Ok(stop) = word(text, at, b"TH") {
        return Ok((Tag::SpecialNameTlsInit, stop));
    }
    if let Ok(stop) = word(text, at, b"TW") {
        return Ok((Tag::SpecialNameTlsWrapper, stop));
    }
    let stop = word(text, at, b"GV")?;
    Ok((Tag::SpecialNameGuard, stop))
}

/// Where the text goes on behind the next byte, whatever that is.
#[tactic(auto, using(demangle_read_rows::proofs::Places::places), unfolding(demangle_grammar::specs::Code::eat_at))]
pub fn any_byte(text: Text<'_>, at: u32) -> Result<u32>
    ensures { Gives (λ stop. (end, spot_at text.entry stop)) result
        (eat_at (Eat.byte Class.any) (spot_at text.entry at)) }
{
    match text.rest(at) {
        [] => Err(Error::UnexpectedEnd),
        [_, ..] => Ok(at + 1),
    }
}

/// Where the text goes on behind one of the bytes that stand between `_GLOBAL_` and what the function does.
#[tactic(auto, using(demangle_read_rows::proofs::Places::places), unfolding(demangle_grammar::specs::Code::eat_at))]
pub fn separator(text: Text<'_>, at: u32) -> Result<u32>
    ensures { Gives (λ stop. (end, spot_at text.entry stop)) result
        (eat_at (Eat.byte (these "_.$")) (spot_at text.entry at)) }
{
    match text.rest(at) {
        [] => Err(Error::UnexpectedEnd),
        [b'_' | b'.' | b'$', ..] => Ok(at + 1),
        [_, ..] => Err(Error::UnexpectedText),
    }
}
