//! The words that an expression may begin with, ABI section 5.1.6, <expression>, where it is told by its word alone.

ghost use Rattle.std.specs.Prelude.{◌≡◌};
ghost use Rattle.demangle_text.specs.Kind.{Gives};
ghost use Rattle.demangle_forms.specs.ExpressionForms.{call_word_at, cast_word_at, expression_word_at};
ghost use Rattle.demangle_forms.specs.ExpressionForms.{member_word_at, offset_at, prefix_word_at, query_word_at};
ghost use Rattle.demangle_cells.specs.Reads.{spot_at};
ghost use Rattle.demangle_read_expressions.specs.Heads.{head_of};

use demangle_cells::{Tag, Text};
use demangle_read_rows::{signed, word};
use demangle_text::Result;

/// What stands behind a word that tells which expression it is. A tag is that of the expression's node.
#[derive(Clone, Copy)]
pub enum Head {
    /// An expression.
    OfExpression(Tag),
    /// A type.
    OfType(Tag),
    /// A type and an expression.
    Cast(Tag),
    /// An object and the name of its member.
    Access(Tag),
    /// `cl`
    Call,
    /// `cv`
    Conversion,
    /// `tl`
    Braces,
    /// `il`
    List,
    /// `so`
    Subobject,
    /// `ds`
    Pointer,
    /// `sZ`
    Pack,
    /// `sP`
    CapturedPack,
    /// `tr`
    Rethrow,
}

/// The word of an expression there, and the place behind it. Where none is there, the refusal is that of the last.
#[tactic(auto, unfolding(demangle_forms::specs::ExpressionForms::expression_word_at))]
pub fn expression_word(text: Text<'_>, at: u32) -> Result<(Head, u32)>
    ensures { Gives (λ x. (head_of x.0, spot_at text.entry x.1)) result (expression_word_at (spot_at text.entry at)) }
{
    if let Ok((head, rest)) = prefix_word(text, at) {
        return Ok((head, rest));
    }
    if let Ok((head, rest)) = call_word(text, at) {
        return Ok((head, rest));
    }
    if let Ok((head, rest)) = cast_word(text, at) {
        return Ok((head, rest));
    }
    if let Ok((head, rest)) = query_word(text, at) {
        return Ok((head, rest));
    }
    member_word(text, at)
}

/// `pp_` or `mm_`.
#[tactic(auto, unfolding(demangle_forms::specs::ExpressionForms::prefix_word_at))]
fn prefix_word(text: Text<'_>, at: u32) -> Result<(Head, u32)>
    ensures { Gives (λ x. (head_of x.0, spot_at text.entry x.1)) result (prefix_word_at (spot_at text.entry at)) }
{
    if let Ok(rest) = word(text, at, b"pp_") {
        return Ok((Head::OfExpression(Tag::ExpressionPrefixInc), rest));
    }
    let rest = word(text, at, b"mm_")?;
    Ok((Head::OfExpression(Tag::ExpressionPrefixDec), rest))
}

/// A word of calls, conversions and lists in braces.
#[tactic(auto, unfolding(demangle_forms::specs::ExpressionForms::call_word_at))]
fn call_word(text: Text<'_>, at: u32) -> Result<(Head, u32)>
    ensures { Gives (λ x. (head_of x.0, spot_at text.entry x.1)) result (call_word_at (spot_at text.entry at)) }
{
    if let Ok(rest) = word(text, at, b"cl") {
        return Ok((Head::Call, rest));
    }
    if let Ok(rest) = word(text, at, b"cv") {
        return Ok((Head::Conversion, rest));
    }
    if let Ok(rest) = word(text, at, b"tl") {
        return Ok((Head::Braces, rest));
    }
    let rest = word(text, at, b"il")?;
    Ok((Head::List, rest))
}

/// A word of casts.
#[tactic(auto, unfolding(demangle_forms::specs::ExpressionForms::cast_word_at))]
fn cast_word(text: Text<'_>, at: u32) -> Result<(Head, u32)>
    ensures { Gives (λ x. (head_of x.0, spot_at text.entry x.1)) result (cast_word_at (spot_at text.entry at)) }
{
    if let Ok(rest) = word(text, at, b"dc") {
        return Ok((Head::Cast(Tag::ExpressionDynamicCast), rest));
    }
    if let Ok(rest) = word(text, at, b"sc") {
        return Ok((Head::Cast(Tag::ExpressionStaticCast), rest));
    }
    if let Ok(rest) = word(text, at, b"cc") {
        return Ok((Head::Cast(Tag::ExpressionConstCast), rest));
    }
    let rest = word(text, at, b"rc")?;
    Ok((Head::Cast(Tag::ExpressionReinterpretCast), rest))
}

/// A word that asks something of a type or an expression.
#[tactic(auto, unfolding(demangle_forms::specs::ExpressionForms::query_word_at))]
fn query_word(text: Text<'_>, at: u32) -> Result<(Head, u32)>
    ensures { Gives (λ x. (head_of x.0, spot_at text.entry x.1)) result (query_word_at (spot_at text.entry at)) }
{
    if let Ok(rest) = word(text, at, b"ti") {
        return Ok((Head::OfType(Tag::ExpressionTypeidType), rest));
    }
    if let Ok(rest) = word(text, at, b"te") {
        return Ok((Head::OfExpression(Tag::ExpressionTypeidExpr), rest));
    }
    if let Ok(rest) = word(text, at, b"st") {
        return Ok((Head::OfType(Tag::ExpressionSizeofType), rest));
    }
    if let Ok(rest) = word(text, at, b"sz") {
        return Ok((Head::OfExpression(Tag::ExpressionSizeofExpr), rest));
    }
    if let Ok(rest) = word(text, at, b"at") {
        return Ok((Head::OfType(Tag::ExpressionAlignofType), rest));
    }
    if let Ok(rest) = word(text, at, b"az") {
        return Ok((Head::OfExpression(Tag::ExpressionAlignofExpr), rest));
    }
    let rest = word(text, at, b"nx")?;
    Ok((Head::OfExpression(Tag::ExpressionNoexcept), rest))
}

/// A word of parts of objects, of members and of packs, `throw` with it.
#[tactic(auto, unfolding(demangle_forms::specs::ExpressionForms::member_word_at))]
fn member_word(text: Text<'_>, at: u32) -> Result<(Head, u32)>
    ensures { Gives (λ x. (head_of x.0, spot_at text.entry x.1)) result (member_word_at (spot_at text.entry at)) }
{
    if let Ok(rest) = word(text, at, b"so") {
        return Ok((Head::Subobject, rest));
    }
    if let Ok(rest) = word(text, at, b"dt") {
        return Ok((Head::Access(Tag::ExpressionMember), rest));
    }
    if let Ok(rest) = word(text, at, b"pt") {
        return Ok((Head::Access(Tag::ExpressionDerefMember), rest));
    }
    if let Ok(rest) = word(text, at, b"ds") {
        return Ok((Head::Pointer, rest));
    }
    if let Ok(rest) = word(text, at, b"sZ") {
        return Ok((Head::Pack, rest));
    }
    if let Ok(rest) = word(text, at, b"sP") {
        return Ok((Head::CapturedPack, rest));
    }
    if let Ok(rest) = word(text, at, b"sp") {
        return Ok((Head::OfExpression(Tag::ExpressionPackExpansion), rest));
    }
    if let Ok(rest) = word(text, at, b"tw") {
        return Ok((Head::OfExpression(Tag::ExpressionThrow), rest));
    }
    let rest = word(text, at, b"tr")?;
    Ok((Head::Rethrow, rest))
}

/// The offset of a part of an object, ABI section 5.1.6, <subobject-expr>, which is 0 where no number is written.
#[tactic(auto, unfolding(demangle_forms::specs::ExpressionForms::offset_at))]
pub fn subobject_offset(text: Text<'_>, at: u32) -> (isize, u32)
    ensures offset { result.0 ≡ (offset_at (spot_at text.entry at)).0 }
    ensures rest { spot_at text.entry result.1 ≡ (offset_at (spot_at text.entry at)).1 }
{
    match signed(text, at) {
        Ok((offset, rest)) => (offset, rest),
        Err(_) => (0, at),
    }
}
