//! Template template parameters, ABI section 5.1.5.8.

ghost use Rattle.demangle_grammar.specs.Rule.{Row};
ghost use Rattle.demangle_cells.specs.Reads.{ReadsRow};
ghost use Rattle.demangle_cells.specs.View.{Grown, view};

use demangle_cells::{Arena, Cell, Depth, Part, Tag, Text, passed};
use demangle_read_rows::{add_template_template_param, substitution, template_param};
use demangle_text::Result;

/// A template that is a parameter or a substitution. A parameter becomes a numbered component. ABI section 5.1.5.8.
///
/// ```text
/// <template-template-param> ::= <template-param> | <substitution>
/// ```
#[tactic(auto, using(demangle_cells::proofs::Grows::grows), unfolding(demangle_grammar::specs::Code::cread, demangle_grammar::specs::Rows::rule))]
pub fn template_template_param_handle(
    arena: &mut Arena,
    depth: Depth,
    text: Text<'_>,
    at: u32,
) -> Result<Part>
    ensures grown { Grown (view arena.old) (view arena.new) }
    ensures reads { ReadsRow Row.template_template_param_handle depth.levels depth.conversion text.entry at result
        (view arena.old) (view arena.new) }
{
    let depth = depth.enter()?;
    if let Ok(found) = passed(substitution(arena, depth, text, at))? {
        return Ok(found);
    }
    let param = template_param(arena, depth, text, at)?;
    let id = add_template_template_param(arena, Cell::One(Tag::TemplateTemplateParam, param.id))?;
    Ok(Part { id, end: param.end })
}
