//! Who is told what is printed.

ghost use Rattle.std.specs.Prelude.{OnOk, IfErr};
ghost use Rattle.demangle_context.specs.Kinds.{kind_of};
ghost use Rattle.demangle_meets.specs.Seen.{Seen, piece, begins, ends};
ghost use Rattle.demangle_context.specs.Hears.{Hears, Refuses};

use crate::error::SinkFault;

/// The nodes of a name of which a listener is told where they begin and end. The original's type of this name.
#[derive(Clone, Copy, Debug, PartialEq, Eq, PartialOrd, Ord, Hash)]
pub enum DemangleNodeType {
    /// A prefix of a nested name, ABI section 5.1.2, `<prefix>`.
    Prefix,
    /// A prefix that has template arguments, `<template-prefix>`.
    TemplatePrefix,
    /// A list of template arguments, `<template-args>`.
    TemplateArgs,
    /// A name without a scope, `<unqualified-name>`.
    UnqualifiedName,
    /// A template parameter, `<template-param>`.
    TemplateParam,
    /// The type of an expression, `<decltype>`.
    Decltype,
    /// The data member whose initializer a closure stands in, `<data-member-prefix>`.
    DataMemberPrefix,
    /// A name in a scope, `<nested-name>`.
    NestedName,
    /// A virtual table, `<special-name>` `TV`.
    VirtualTable,
}

/// A listener, or sink: it is told the text in pieces, and where nodes begin and end. It may tell what it was told: the
/// text, the calls, either or none. It counts how often it failed and how often it had no memory; both counts stand
/// still at their last value, 2^64 - 1. The original's trait of this name, with refusals that tell their cause.
pub trait DemangleWrite {
    ghost seen: { Self → Seen };

    /// A node of this kind begins.
    fn push_demangle_node(&mut self, kind: DemangleNodeType)
        ensures { Hears (seen self.old) (seen self.new) (begins (kind_of kind)) };

    /// The next piece of the text. Of a piece that is refused nothing is told; `Failed` comes only where the count of
    /// faults rose, `OutOfMemory` only where that of memory refusals rose, and neither rises for another cause.
    fn write_string(&mut self, s: &str) -> Result<(), SinkFault>
        ensures heard { OnOk result (Hears (seen self.old) (seen self.new) (piece s.now)) }
        ensures refused { IfErr result (Refuses (seen self.old) (seen self.new)) };

    /// The last node that began ends.
    fn pop_demangle_node(&mut self)
        ensures { Hears (seen self.old) (seen self.new) ends };
}
