//! What of a reading is kept to be recalled.

use crate::text::Part;
use demangle_text::Error;

/// The rows whose answers are kept.
#[derive(Clone, Copy, PartialEq, Eq)]
pub enum RowName {
    /// ABI section 5.1.5, `<type>`.
    TypeHandle,
    /// ABI section 5.1.6, `<expression>`.
    Expression,
    /// ABI section 5.1.2, `<template-arg>`.
    TemplateArg,
    /// ABI section 5.1.2, `<name>`.
    Name,
    /// ABI section 5.1.2, `<encoding>`.
    Encoding,
    /// ABI section 5.1.2, `<mangled-name>`.
    MangledName,
    /// ABI section 5.1.2, `<template-args>`, read ahead.
    TemplateArgs,
}

/// What was asked: the row, where in the text, whether a conversion operator's type is being read, and the stamp of the
/// components before, or, where it is alike for all of which a reading sees the same, the stamp of their outline. What is
/// alike and behind which no `S` is left in the text holds for any components; it is kept under the stamp of none.
#[derive(Clone, Copy, PartialEq, Eq)]
pub(crate) struct Key {
    pub row: RowName,
    pub at: u32,
    pub conversion: bool,
    pub before: u32,
    pub alike: bool,
}

/// What a row answered.
#[derive(Clone, Copy)]
pub(crate) enum Outcome {
    /// This tree, up to this place, with the components of this stamp behind.
    Found(Part, u32),
    /// Nothing, and why.
    Refused(Error),
    /// Something up to this place.
    Ended(u32),
}

/// What is known of a row: with so many levels left, or more, this is what it answers.
#[derive(Clone, Copy)]
pub(crate) struct Known {
    pub key: Key,
    pub levels: u32,
    pub outcome: Outcome,
}

/// A component that was added once, behind those of the stamp `before`; its own stamp is its number in the log, from 1
/// on. So a stamp tells all the components that there were: those of the stamp before it, and its own. 0 tells none. Of
/// an outline `id` tells whether a nested name can take over the component: 1 or 0.
#[derive(Clone, Copy)]
pub(crate) struct Stamp {
    pub before: u32,
    pub numbered: bool,
    pub id: u32,
}
