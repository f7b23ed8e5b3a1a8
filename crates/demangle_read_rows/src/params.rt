//! Parameters of templates and functions, and qualifiers.

ghost use Rattle.std.specs.Prelude.{◌≡◌, ℕ};
ghost use Rattle.demangle_core.specs.Core.{Core};
ghost use Rattle.demangle_grammar.specs.Rule.{Row};
ghost use Rattle.demangle_cells.specs.View.{view, table, Grown};
ghost use Rattle.demangle_cells.specs.Reads.{ReadsRow};

use crate::bytes::{decimal, optional_word, word};
use crate::next::has_more;
use demangle_cells::{Arena, Cell, Depth, Part, Tag, Text, absent_id, qualifiers_id};
use demangle_text::{Error, Result};

/// A template parameter by its position. ABI section 5.1.5.8. `T_` is the first, `T0_` the second.
///
/// ```text
/// <template-param> ::= T_ | T <parameter-2 non-negative number> _
/// ```
#[tactic(auto, using(demangle_cells::proofs::Grows::grows), unfolding(demangle_grammar::specs::Code::cread, demangle_grammar::specs::Rows::rule))]
pub fn template_param(arena: &mut Arena, depth: Depth, text: Text<'_>, at: u32) -> Result<Part>
    ensures grown { Grown (view arena.old) (view arena.new) }
    ensures reads { ReadsRow Row.template_param depth.levels depth.conversion text.entry at result
        (view arena.old) (view arena.new) }
    ensures table { (F : ℕ → Core) → table F (view arena.new) ≡ table F (view arena.old) }
{
    let _depth = depth.enter()?;
    let rest = word(text, at, b"T")?;
    let (index, rest) = match decimal(text, rest) {
        Ok((number, rest)) => (number + 1, rest),
        Err(_) => (0, rest),
    };
    let end = word(text, rest, b"_")?;
    let id = arena.push(Cell::Count(Tag::TemplateParam, index))?;
    Ok(Part { id, end })
}

/// Qualifiers, of which there may be none. ABI section 5.1.5.1. The one refusal is `TooMuchRecursion`.
///
/// ```text
/// <CV-qualifiers> ::= [r] [V] [K]
/// ```
#[tactic(auto, using(demangle_cells::proofs::Grows::grows), unfolding(demangle_grammar::specs::Code::cread, demangle_grammar::specs::Rows::rule))]
pub fn cv_qualifiers(arena: &mut Arena, depth: Depth, text: Text<'_>, at: u32) -> Result<Part>
    ensures grown { Grown (view arena.old) (view arena.new) }
    ensures reads { ReadsRow Row.cv_qualifiers depth.levels depth.conversion text.entry at result
        (view arena.old) (view arena.new) }
    ensures table { (F : ℕ → Core) → table F (view arena.new) ≡ table F (view arena.old) }
{
    let _depth = depth.enter()?;
    let (restrict, rest) = optional_word(text, at, b"r");
    let (volatile, rest) = optional_word(text, rest, b"V");
    let (is_const, end) = optional_word(text, rest, b"K");
    Ok(Part {
        id: qualifiers_id(restrict, volatile, is_const),
        end,
    })
}

/// Qualifiers, of which there is one at least. Where none is there, the refusal is that of the last, `K`. ABI section
/// 5.1.5.1.
///
/// ```text
/// <CV-qualifiers> ::= [r] [V] [K]
/// ```
#[tactic(auto, using(demangle_cells::proofs::Grows::grows), unfolding(demangle_grammar::specs::Code::cread, demangle_grammar::specs::Rows::rule))]
pub fn some_cv_qualifiers(arena: &mut Arena, depth: Depth, text: Text<'_>, at: u32) -> Result<Part>
    ensures grown { Grown (view arena.old) (view arena.new) }
    ensures reads { ReadsRow Row.some_cv_qualifiers depth.levels depth.conversion text.entry at result
        (view arena.old) (view arena.new) }
    ensures table { (F : ℕ → Core) → table F (view arena.new) ≡ table F (view arena.old) }
{
    let _depth = depth.enter()?;
    if let Ok(rest) = word(text, at, b"r") {
        let (volatile, rest) = optional_word(text, rest, b"V");
        let (is_const, end) = optional_word(text, rest, b"K");
        let id = qualifiers_id(true, volatile, is_const);
        return Ok(Part { id, end });
    }
    if let Ok(rest) = word(text, at, b"V") {
        let (is_const, end) = optional_word(text, rest, b"K");
        let id = qualifiers_id(false, true, is_const);
        return Ok(Part { id, end });
    }
    let end = word(text, at, b"K")?;
    let id = qualifiers_id(false, false, true);
    Ok(Part { id, end })
}

/// A parameter of the function that is declared, or of one around it. ABI section 5.1.5.9. `fp_` is the first, `fp0_`
/// the second.
///
/// ```text
/// <function-param> ::= fp <CV-qualifiers> _ | fp <CV-qualifiers> <parameter-2 non-negative number> _
///                  ::= fL <L-1 non-negative number> p <CV-qualifiers> _
///                  ::= fL <L-1 non-negative number> p <CV-qualifiers> <parameter-2 non-negative number> _
///                  ::= fp <CV-qualifiers> T | fL <number> p <CV-qualifiers> T
/// ```
#[tactic(auto, using(demangle_cells::proofs::Grows::grows), unfolding(demangle_grammar::specs::Code::cread, demangle_grammar::specs::Rows::rule))]
pub fn function_param(arena: &mut Arena, depth: Depth, text: Text<'_>, at: u32) -> Result<Part>
    ensures grown { Grown (view arena.old) (view arena.new) }
    ensures reads { ReadsRow Row.function_param depth.levels depth.conversion text.entry at result
        (view arena.old) (view arena.new) }
    ensures table { (F : ℕ → Core) → table F (view arena.new) ≡ table F (view arena.old) }
{
    let depth = depth.enter()?;
    let rest = word(text, at, b"f")?;
    if !has_more(text, rest, 1) {
        return Err(Error::UnexpectedEnd);
    }
    let (level, rest) = match word(text, rest, b"L") {
        Ok(rest) => decimal(text, rest)?,
        Err(_) => (0, rest),
    };
    let rest = word(text, rest, b"p")?;
    let qualifiers = cv_qualifiers(arena, depth, text, rest)?;
    let level = arena.push(Cell::Number(level as isize))?;
    if let Ok(end) = word(text, qualifiers.end, b"T") {
        let id = arena.push(Cell::Three(Tag::FunctionParam, level, qualifiers.id, absent_id()))?;
        return Ok(Part { id, end });
    }
    let (index, rest) = match decimal(text, qualifiers.end) {
        Ok((number, rest)) => (number + 1, rest),
        Err(_) => (0, qualifiers.end),
    };
    let end = word(text, rest, b"_")?;
    let index = arena.push(Cell::Count(Tag::Present, index))?;
    let id = arena.push(Cell::Three(Tag::FunctionParam, level, qualifiers.id, index))?;
    Ok(Part { id, end })
}
