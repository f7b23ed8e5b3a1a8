//! Bytes and words that are read with no row, and tests of the next bytes.

ghost use Rattle.std.specs.Prelude.{◌≡◌, ◌≤◌, Ok, length};
ghost use Rattle.demangle_text.specs.Bytes.{span};
ghost use Rattle.demangle_text.specs.Kind.{Gives};
ghost use Rattle.demangle_core.specs.Core.{end, place};
ghost use Rattle.demangle_grammar.specs.Rule.{Eat};
ghost use Rattle.demangle_grammar.specs.Code.{eat_at};
ghost use Rattle.demangle_forms.specs.ArgForms.{pack_mark_at};
ghost use Rattle.demangle_forms.specs.TypeForms.{type_mark_at};
ghost use Rattle.demangle_cells.specs.Reads.{spot_at};
ghost use Rattle.demangle_cells.specs.Tags.{tag_of};
ghost use Rattle.demangle_read_types.specs.Bytes.{is_no_e};

use demangle_cells::{Tag, Text};
use demangle_read_rows::word;
use demangle_text::Result;

/// The place behind the word that begins a pack of template arguments, `J` or `I`, ABI section 5.1.2, <template-arg>.
#[tactic(auto, unfolding(demangle_forms::specs::ArgForms::pack_mark_at))]
pub fn pack_mark(text: Text<'_>, at: u32) -> Result<u32>
    ensures { Gives (λ x. spot_at text.entry x) result (pack_mark_at (spot_at text.entry at)) }
{
    if let Ok(rest) = word(text, at, b"J") {
        return Ok(rest);
    }
    word(text, at, b"I")
}

/// The word that stands before a type, ABI section 5.1.5, <type>, as the tag of its node, and the place behind it.
/// Where none is there, the refusal is that of the last, `Dp`.
#[tactic(auto, using(demangle_read_rows::proofs::Places::places), unfolding(demangle_forms::specs::TypeForms::type_mark_at, demangle_text::specs::Word::word_at))]
pub fn type_mark(text: Text<'_>, at: u32) -> Result<(Tag, u32)>
    ensures { Gives (λ x. (tag_of x.0, spot_at text.entry x.1)) result (type_mark_at (spot_at text.entry at)) }
{
    match text.peek(at) {
        Some(b'P') => Ok((Tag::TypeNodePointerTo, at + 1)),
        Some(b'R') => Ok((Tag::TypeNodeLvalueRef, at + 1)),
        Some(b'O') => Ok((Tag::TypeNodeRvalueRef, at + 1)),
        Some(b'C') => Ok((Tag::TypeNodeComplex, at + 1)),
        Some(b'G') => Ok((Tag::TypeNodeImaginary, at + 1)),
        _ => {
            let rest = word(text, at, b"Dp")?;
            Ok((Tag::TypeNodePackExpansion, rest))
        }
    }
}

/// How many bytes stand before the next `E`, or all.
fn length_to_e(bytes: &[u8]) -> usize
    ensures value { result ≡ span is_no_e bytes.now }
    ensures inside { result ≤ length bytes.now }
{
    for (i, byte) in bytes.iter().enumerate() {
        if *byte == b'E' {
            return i;
        }
    }
    bytes.len()
}

/// Where the value of a literal ends, ABI section 5.1.6, <expr-primary>: before the next `E`, or where the text ends.
#[tactic(auto, using(demangle_read_rows::proofs::Places::places), unfolding(demangle_grammar::specs::Code::eat_at))]
pub fn up_to_e(text: Text<'_>, at: u32) -> u32
    ensures { eat_at (Eat.upto 69) (spot_at text.entry at) ≡ Ok (place at result end, spot_at text.entry result) }
{
    at + length_to_e(text.rest(at)) as u32
}
