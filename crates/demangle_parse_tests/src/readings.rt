//! The tests: tables of readings, and readings from one table.

use crate::answers::{
    Reading, Row, first_wrong, first_wrong_depth, first_wrong_in_turn, first_wrong_under,
};
use crate::checks::same;
use crate::expressions::EXPRESSIONS;
use crate::leaves::LEAVES;
use crate::limits::{DEEPEST, LIMITS};
use crate::names::NAMES;
use crate::types::TYPES;
use crate::whole_names::WHOLE_NAMES;
use demangle_leaf_rows::ParseContext;
use demangle_text::ParseOptions;

/// Entries are added behind those that were there, and a refusal leaves them.
static ONE_TABLE: [Reading; 9] = [
    (
        Row::TypeHandle,
        b"1a",
        "BackReference(0), left 0, entries 1 0",
    ),
    (
        Row::TypeHandle,
        b"PS_",
        "BackReference(1), left 0, entries 2 0",
    ),
    (
        Row::Substitution,
        b"S0_E",
        "BackReference(1), left 1, entries 2 0",
    ),
    (Row::TypeHandle, b"FPS_", "UnexpectedText, entries 2 0"),
    (Row::TypeHandle, b"S1_", "UnexpectedText, entries 2 0"),
    (Row::Substitution, b"S1_", "BadBackReference, entries 2 0"),
    (
        Row::TypeHandle,
        b"FS_S0_E",
        "BackReference(2), left 0, entries 3 0",
    ),
    (
        Row::TemplateArg,
        b"S1_",
        "TypeArg(BackReference(2)), left 0, entries 3 0",
    ),
    (
        Row::PrefixHandle,
        b"S_1bE",
        "NonSubstitution(NonSubstitution(0)), left 1, entries 3 1",
    ),
];

/// What is read ahead behind the type of a conversion is given back, and only then may be the operator's.
static CONVERSIONS: [Reading; 2] = [
    (
        Row::TypeHandle,
        b"T_I1aE",
        "BackReference(0), left 4, entries 1 0",
    ),
    (
        Row::TypeHandle,
        b"T_I1aEIcE",
        "BackReference(3), left 3, entries 4 0",
    ),
];

/// A level that was entered counts.
static ONE_LEVEL: [Reading; 2] = [
    (Row::TypeHandle, b"i", "TooMuchRecursion, entries 0 0"),
    (Row::BuiltinType, b"i", "Standard(Int), left 0, entries 0 0"),
];

#[test]
fn each_row_is_read(rt: HostRuntime) {
    let alloc = rt.alloc();
    same(&rt, "leaves", first_wrong(alloc, &LEAVES), None);
    same(&rt, "names", first_wrong(alloc, &NAMES), None);
    same(&rt, "types", first_wrong(alloc, &TYPES), None);
    same(&rt, "expressions", first_wrong(alloc, &EXPRESSIONS), None);
    same(&rt, "whole names", first_wrong(alloc, &WHOLE_NAMES), None);
}

#[test]
fn levels_are_counted_in_what_is_tried(rt: HostRuntime) {
    same(&rt, "limits", first_wrong_under(rt.alloc(), &LIMITS), None);
}

#[test]
fn the_deepest_level_is_known(rt: HostRuntime) {
    let wrong = first_wrong_depth(rt.alloc(), 1024, &DEEPEST);
    same(&rt, "the deepest levels", wrong, None);
}

#[test]
fn tables_and_contexts_are_shared(rt: HostRuntime) {
    let alloc = rt.alloc();
    let mut ctx = ParseContext::new(ParseOptions::default());
    let wrong = first_wrong_in_turn(alloc, &mut ctx, &ONE_TABLE);
    same(&rt, "one table", wrong, None);
    let was_on = ctx.set_in_conversion(true);
    same(&rt, "the flag", was_on, false);
    let wrong = first_wrong_in_turn(alloc, &mut ctx, &CONVERSIONS);
    same(&rt, "conversions", wrong, None);
    let mut ctx = ParseContext::new(ParseOptions::default().recursion_limit(4));
    same(&rt, "a level", ctx.enter(), Ok(()));
    let wrong = first_wrong_in_turn(alloc, &mut ctx, &ONE_LEVEL);
    same(&rt, "one level", wrong, None);
}
