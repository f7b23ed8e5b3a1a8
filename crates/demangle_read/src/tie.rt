//! The rows through which all recursion goes, each a function that is passed by name to the readers of rows.

ghost use Rattle.demangle_grammar.specs.Rule.{Row};
ghost use Rattle.demangle_cells.specs.Reads.{ReadsRow};
ghost use Rattle.demangle_cells.specs.View.{Grown, view};

use crate::late::{
    late_encoding, late_expression, late_mangled_name, late_name, late_template_arg,
    late_type_handle,
};
use demangle_cells::{Arena, Depth, Part, Text};
use demangle_read_below::Tied;
use demangle_read_expressions::expression_by;
use demangle_read_names::{encoding_by, mangled_name_by, name_by};
use demangle_read_types::{template_arg_by, type_handle_by};
use demangle_text::Result;

/// A type, ABI section 5.1.5, `<type>`.
#[cycle(reader)]
pub fn type_handle(arena: &mut Arena, depth: Depth, text: Text<'_>, at: u32) -> Result<Part>
    ensures grown { Grown (view arena.old) (view arena.new) }
    ensures reads { ReadsRow Row.type_handle depth.levels depth.conversion text.entry at result
        (view arena.old) (view arena.new) }
{
    let below = Tied {
        most: depth,
        type_handle,
        expression,
        template_arg,
        name,
        encoding,
        mangled_name,
    };
    if arena.is_late(text) {
        late_type_handle(below, arena, depth, text, at)
    } else {
        type_handle_by(below, arena, depth, text, at)
    }
}

/// An expression, ABI section 5.1.6, `<expression>`.
#[cycle(reader)]
pub fn expression(arena: &mut Arena, depth: Depth, text: Text<'_>, at: u32) -> Result<Part>
    ensures grown { Grown (view arena.old) (view arena.new) }
    ensures reads { ReadsRow Row.expression depth.levels depth.conversion text.entry at result
        (view arena.old) (view arena.new) }
{
    let below = Tied {
        most: depth,
        type_handle,
        expression,
        template_arg,
        name,
        encoding,
        mangled_name,
    };
    if arena.is_late(text) {
        late_expression(below, arena, depth, text, at)
    } else {
        expression_by(below, arena, depth, text, at)
    }
}

/// A template argument, ABI section 5.1.2, `<template-arg>`.
#[cycle(reader)]
pub fn template_arg(arena: &mut Arena, depth: Depth, text: Text<'_>, at: u32) -> Result<Part>
    ensures grown { Grown (view arena.old) (view arena.new) }
    ensures reads { ReadsRow Row.template_arg depth.levels depth.conversion text.entry at result
        (view arena.old) (view arena.new) }
{
    let below = Tied {
        most: depth,
        type_handle,
        expression,
        template_arg,
        name,
        encoding,
        mangled_name,
    };
    if arena.is_late(text) {
        late_template_arg(below, arena, depth, text, at)
    } else {
        template_arg_by(below, arena, depth, text, at)
    }
}

/// A name, ABI section 5.1.2, `<name>`.
#[cycle(reader)]
pub fn name(arena: &mut Arena, depth: Depth, text: Text<'_>, at: u32) -> Result<Part>
    ensures grown { Grown (view arena.old) (view arena.new) }
    ensures reads { ReadsRow Row.name depth.levels depth.conversion text.entry at result
        (view arena.old) (view arena.new) }
{
    let below = Tied {
        most: depth,
        type_handle,
        expression,
        template_arg,
        name,
        encoding,
        mangled_name,
    };
    if arena.is_late(text) {
        late_name(below, arena, depth, text, at)
    } else {
        name_by(below, arena, depth, text, at)
    }
}

/// A function, a variable or an entity that the compiler makes, ABI section 5.1.2, `<encoding>`.
#[cycle(reader)]
pub fn encoding(arena: &mut Arena, depth: Depth, text: Text<'_>, at: u32) -> Result<Part>
    ensures grown { Grown (view arena.old) (view arena.new) }
    ensures reads { ReadsRow Row.encoding depth.levels depth.conversion text.entry at result
        (view arena.old) (view arena.new) }
{
    let below = Tied {
        most: depth,
        type_handle,
        expression,
        template_arg,
        name,
        encoding,
        mangled_name,
    };
    if arena.is_late(text) {
        late_encoding(below, arena, depth, text, at)
    } else {
        encoding_by(below, arena, depth, text, at)
    }
}

/// A mangled name, ABI section 5.1.2, `<mangled-name>`.
#[cycle(reader)]
pub fn mangled_name(arena: &mut Arena, depth: Depth, text: Text<'_>, at: u32) -> Result<Part>
    ensures grown { Grown (view arena.old) (view arena.new) }
    ensures reads { ReadsRow Row.mangled_name depth.levels depth.conversion text.entry at result
        (view arena.old) (view arena.new) }
{
    let below = Tied {
        most: depth,
        type_handle,
        expression,
        template_arg,
        name,
        encoding,
        mangled_name,
    };
    if arena.is_late(text) {
        late_mangled_name(below, arena, depth, text, at)
    } else {
        mangled_name_by(below, arena, depth, text, at)
    }
}
