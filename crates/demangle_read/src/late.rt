//! The rows through which all recursion goes, once so many were entered that what they answer is kept: each is
//! recalled, or read and remembered. One function that is handed the reader would be called by each of the six that are
//! tied.

ghost use Rattle.std.specs.Prelude.{◌≤◌};
ghost use Rattle.demangle_grammar.specs.Rule.{Row};
ghost use Rattle.demangle_cells.specs.Reads.{ReadsRow};
ghost use Rattle.demangle_cells.specs.View.{Grown, view};

use demangle_cells::{Arena, Depth, Part, RowName, Text};
use demangle_read_below::Below;
use demangle_read_expressions::expression_by;
use demangle_read_names::{encoding_by, mangled_name_by, name_by};
use demangle_read_types::{template_arg_by, type_handle_by};
use demangle_text::Result;

/// A type that is recalled, or read and remembered.
#[inline(never)]
pub(crate) fn late_type_handle<B: Below>(
    below: B,
    arena: &mut Arena,
    depth: Depth,
    text: Text<'_>,
    at: u32,
) -> Result<Part>
    requires can { B.can below }
    requires room { depth.levels ≤ B.most below }
    ensures grown { Grown (view arena.old) (view arena.new) }
    ensures reads { ReadsRow Row.type_handle depth.levels depth.conversion text.entry at result
        (view arena.old) (view arena.new) }
{
    if let Some(answer) = arena.recall(RowName::TypeHandle, depth, text, at) {
        return answer;
    }
    let mark = arena.mark();
    let answer = type_handle_by(below, arena, depth, text, at);
    arena.remember(RowName::TypeHandle, mark, depth, text, at, &answer);
    answer
}

/// An expression that is recalled, or read and remembered.
#[inline(never)]
pub(crate) fn late_expression<B: Below>(
    below: B,
    arena: &mut Arena,
    depth: Depth,
    text: Text<'_>,
    at: u32,
) -> Result<Part>
    requires can { B.can below }
    requires room { depth.levels ≤ B.most below }
    ensures grown { Grown (view arena.old) (view arena.new) }
    ensures reads { ReadsRow Row.expression depth.levels depth.conversion text.entry at result
        (view arena.old) (view arena.new) }
{
    if let Some(answer) = arena.recall(RowName::Expression, depth, text, at) {
        return answer;
    }
    let mark = arena.mark();
    let answer = expression_by(below, arena, depth, text, at);
    arena.remember(RowName::Expression, mark, depth, text, at, &answer);
    answer
}

/// A template argument that is recalled, or read and remembered.
#[inline(never)]
pub(crate) fn late_template_arg<B: Below>(
    below: B,
    arena: &mut Arena,
    depth: Depth,
    text: Text<'_>,
    at: u32,
) -> Result<Part>
    requires can { B.can below }
    requires room { depth.levels ≤ B.most below }
    ensures grown { Grown (view arena.old) (view arena.new) }
    ensures reads { ReadsRow Row.template_arg depth.levels depth.conversion text.entry at result
        (view arena.old) (view arena.new) }
{
    if let Some(answer) = arena.recall(RowName::TemplateArg, depth, text, at) {
        return answer;
    }
    let mark = arena.mark();
    let answer = template_arg_by(below, arena, depth, text, at);
    arena.remember(RowName::TemplateArg, mark, depth, text, at, &answer);
    answer
}

/// A name that is recalled, or read and remembered.
#[inline(never)]
pub(crate) fn late_name<B: Below>(
    below: B,
    arena: &mut Arena,
    depth: Depth,
    text: Text<'_>,
    at: u32,
) -> Result<Part>
    requires can { B.can below }
    requires room { depth.levels ≤ B.most below }
    ensures grown { Grown (view arena.old) (view arena.new) }
    ensures reads { ReadsRow Row.name depth.levels depth.conversion text.entry at result
        (view arena.old) (view arena.new) }
{
    if let Some(answer) = arena.recall(RowName::Name, depth, text, at) {
        return answer;
    }
    let mark = arena.mark();
    let answer = name_by(below, arena, depth, text, at);
    arena.remember(RowName::Name, mark, depth, text, at, &answer);
    answer
}

/// A function, a variable or an entity that the compiler makes that is recalled, or read and remembered.
#[inline(never)]
pub(crate) fn late_encoding<B: Below>(
    below: B,
    arena: &mut Arena,
    depth: Depth,
    text: Text<'_>,
    at: u32,
) -> Result<Part>
    requires can { B.can below }
    requires room { depth.levels ≤ B.most below }
    ensures grown { Grown (view arena.old) (view arena.new) }
    ensures reads { ReadsRow Row.encoding depth.levels depth.conversion text.entry at result
        (view arena.old) (view arena.new) }
{
    if let Some(answer) = arena.recall(RowName::Encoding, depth, text, at) {
        return answer;
    }
    let mark = arena.mark();
    let answer = encoding_by(below, arena, depth, text, at);
    arena.remember(RowName::Encoding, mark, depth, text, at, &answer);
    answer
}

/// A mangled name that is recalled, or read and remembered.
#[inline(never)]
pub(crate) fn late_mangled_name<B: Below>(
    below: B,
    arena: &mut Arena,
    depth: Depth,
    text: Text<'_>,
    at: u32,
) -> Result<Part>
    requires can { B.can below }
    requires room { depth.levels ≤ B.most below }
    ensures grown { Grown (view arena.old) (view arena.new) }
    ensures reads { ReadsRow Row.mangled_name depth.levels depth.conversion text.entry at result
        (view arena.old) (view arena.new) }
{
    if let Some(answer) = arena.recall(RowName::MangledName, depth, text, at) {
        return answer;
    }
    let mark = arena.mark();
    let answer = mangled_name_by(below, arena, depth, text, at);
    arena.remember(RowName::MangledName, mark, depth, text, at, &answer);
    answer
}
