//! Numbers, and references to components by their numbers.

ghost use Rattle.std.specs.Prelude.{◌≡◌, ◌<◌, ◌^◌, ℕ, IfErr, IfOk};
ghost use Rattle.demangle_text.specs.declared.error.Error.TheVariants.{OutOfMemory};
ghost use Rattle.demangle_core.specs.Core.{Core, N};
ghost use Rattle.demangle_grammar.specs.Rule.{Row};
ghost use Rattle.demangle_cells.specs.View.{view, table, Grown, Holds, View};
ghost use Rattle.demangle_grammar.specs.Tree.{reference};
ghost use Rattle.demangle_cells.specs.Reads.{ReadsRow};
ghost use Rattle.demangle_read_rows.specs.Numbers.{ReadsSeq};

use crate::bytes::{digit, signed, unsigned, word};
use crate::words::well_known_component;
use demangle_cells::{Arena, Cell, Depth, Part, Tag, Text, passed};
use demangle_text::{Error, Result};

/// The index of the reference to the first numbered component.
const FIRST_REFERENCE: u32 = 1 << 30;

/// A number, with its sign. ABI section 5.1.2. Leading zeros are `UnexpectedText`, a value past 2^63 - 1 is
/// `Overflow`.
///
/// ```text
/// <number> ::= [n] <non-negative decimal integer>
/// ```
#[tactic(auto, using(demangle_cells::proofs::Grows::grows), unfolding(demangle_grammar::specs::Code::cread, demangle_grammar::specs::Rows::rule))]
pub fn number(arena: &mut Arena, depth: Depth, text: Text<'_>, at: u32) -> Result<Part>
    ensures grown { Grown (view arena.old) (view arena.new) }
    ensures reads { ReadsRow Row.number depth.levels depth.conversion text.entry at result
        (view arena.old) (view arena.new) }
    ensures table { (F : ℕ → Core) → table F (view arena.new) ≡ table F (view arena.old) }
{
    let _depth = depth.enter()?;
    let (value, end) = signed(text, at)?;
    let id = arena.push(Cell::Number(value))?;
    Ok(Part { id, end })
}

/// The number of a component. ABI section 5.1.10. Leading zeros are `UnexpectedText`, a value past 2^63 - 1 is
/// `Overflow`.
///
/// ```text
/// <seq-id> ::= <0-9A-Z>+
/// ```
#[tactic(auto, using(demangle_cells::proofs::Grows::grows), unfolding(demangle_grammar::specs::Code::cread, demangle_grammar::specs::Rows::rule))]
pub fn seq_id(arena: &mut Arena, depth: Depth, text: Text<'_>, at: u32) -> Result<Part>
    ensures grown { Grown (view arena.old) (view arena.new) }
    ensures reads { ReadsRow Row.seq_id depth.levels depth.conversion text.entry at result
        (view arena.old) (view arena.new) }
    ensures table { (F : ℕ → Core) → table F (view arena.new) ≡ table F (view arena.old) }
{
    let _depth = depth.enter()?;
    let (value, end) = unsigned(text, at, 36)?;
    let id = arena.push(Cell::Count(Tag::SeqId, value))?;
    Ok(Part { id, end })
}

/// Tells local entities of one name apart. ABI section 5.1.7. A number below 10 in the long form is `UnexpectedText`.
///
/// ```text
/// <discriminator> ::= _ <non-negative number>      # below 10
///                 ::= __ <non-negative number> _   # from 10 on
/// ```
#[tactic(auto, using(demangle_cells::proofs::Grows::grows), unfolding(demangle_grammar::specs::Code::cread, demangle_grammar::specs::Rows::rule))]
pub fn discriminator(arena: &mut Arena, depth: Depth, text: Text<'_>, at: u32) -> Result<Part>
    ensures grown { Grown (view arena.old) (view arena.new) }
    ensures reads { ReadsRow Row.discriminator depth.levels depth.conversion text.entry at result
        (view arena.old) (view arena.new) }
    ensures table { (F : ℕ → Core) → table F (view arena.new) ≡ table F (view arena.old) }
{
    let _depth = depth.enter()?;
    let rest = word(text, at, b"_")?;
    if let Ok(rest) = word(text, rest, b"_") {
        let (value, rest) = unsigned(text, rest, 10)?;
        if value < 10 {
            return Err(Error::UnexpectedText);
        }
        let end = word(text, rest, b"_")?;
        let id = arena.push(Cell::Count(Tag::Discriminator, value))?;
        return Ok(Part { id, end });
    }
    let (value, end) = digit(text, rest)?;
    let id = arena.push(Cell::Count(Tag::Discriminator, value as usize))?;
    Ok(Part { id, end })
}

/// The number of a component, below 2^63, so that 1 can be added.
#[tactic(auto, unfolding(demangle_grammar::specs::Code::cread, demangle_grammar::specs::Rows::rule))]
fn seq_number(depth: Depth, text: Text<'_>, at: u32) -> Result<(usize, u32)>
    ensures reads { ReadsSeq depth.levels depth.conversion text.entry at result }
    ensures small { IfOk result (λ x. x.0 < 2 ^ 63) }
{
    let _depth = depth.enter()?;
    unsigned(text, at, 36)
}

/// A reference to a numbered component that is there, or one of the abbreviated names of `std`. ABI section 5.1.10.
/// Where there are not so many components it is `BadBackReference`.
///
/// ```text
/// <substitution> ::= S_ | S <seq-id> _
///                ::= St | Sa | Sb | Ss | Si | So | Sd
/// ```
#[tactic(auto, using(demangle_cells::proofs::Grows::grows), unfolding(demangle_grammar::specs::Code::cread, demangle_grammar::specs::Rows::rule))]
pub fn substitution(arena: &mut Arena, depth: Depth, text: Text<'_>, at: u32) -> Result<Part>
    ensures grown { Grown (view arena.old) (view arena.new) }
    ensures reads { ReadsRow Row.substitution depth.levels depth.conversion text.entry at result
        (view arena.old) (view arena.new) }
    ensures table { (F : ℕ → Core) → table F (view arena.new) ≡ table F (view arena.old) }
{
    let depth = depth.enter()?;
    if let Ok(part) = passed(well_known_component(arena, depth, text, at))? {
        let id = arena.push(Cell::One(Tag::WellKnown, part.id))?;
        return Ok(Part { id, end: part.end });
    }
    let rest = word(text, at, b"S")?;
    let (index, rest) = match passed(seq_number(depth, text, rest))? {
        Ok((number, rest)) => (number + 1, rest),
        Err(_) => (0, rest),
    };
    if !arena.has_numbered(index) {
        return Err(Error::BadBackReference);
    }
    let end = word(text, rest, b"_")?;
    let id = reference_id(index)?;
    Ok(Part { id, end })
}

/// The index of the reference to a numbered component. `OutOfMemory` where its number is 2^30 or more.
#[tactic(auto)]
pub fn reference_id(number: usize) -> Result<u32>
    ensures reference { IfOk result (λ r. (F : ℕ → Core) (v : View) → Holds F v → F r ≡ reference N number) }
    ensures refused { IfErr result (λ e. e ≡ OutOfMemory) }
{
    if number >= 1 << 30 {
        return Err(Error::OutOfMemory);
    }
    Ok(FIRST_REFERENCE + number as u32)
}
