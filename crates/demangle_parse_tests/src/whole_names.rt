//! Whole names: how they are refused, and as compilers write them.

use crate::answers::{Reading, Row};

/// The last alternative that was tried tells the kind; components are numbered as they are completed.
pub static WHOLE_NAMES: [Reading; 13] = [
    (Row::MangledName, b"", "UnexpectedEnd, entries 0 0"),
    (Row::MangledName, b"_Z", "UnexpectedEnd, entries 0 0"),
    (Row::MangledName, b"Q", "UnexpectedEnd, entries 0 0"),
    (Row::MangledName, b"QQ", "UnexpectedText, entries 0 0"),
    (Row::MangledName, b"rV", "UnexpectedEnd, entries 0 0"),
    (
        Row::MangledName,
        b"_Z99999999999999999999f",
        "UnexpectedText, entries 0 0",
    ),
    (
        Row::MangledName,
        b"_ZTC1a99999999999999999999_1b",
        "Overflow, entries 0 0",
    ),
    (
        Row::MangledName,
        b"_Z1fP1aS_",
        "Encoding(Function(Unscoped(Unqualified(Source(SourceName(Identifier { start: 3, end: 4 }), \
         AbiTags([])))), BareFunctionType([BackReference(1), BackReference(0)])), []), left 0, entries 2 \
         0",
    ),
    (
        Row::MangledName,
        b"_Z1fP1aS0_",
        "Encoding(Function(Unscoped(Unqualified(Source(SourceName(Identifier { start: 3, end: 4 }), \
         AbiTags([])))), BareFunctionType([BackReference(1), BackReference(1)])), []), left 0, entries 2 \
         0",
    ),
    (
        Row::MangledName,
        b"_Z1fP1aS1_",
        "Encoding(Function(Unscoped(Unqualified(Source(SourceName(Identifier { start: 3, end: 4 }), \
         AbiTags([])))), BareFunctionType([BackReference(1)])), []), left 3, entries 2 0",
    ),
    (
        Row::MangledName,
        b"_ZN1acvT_IiEEv",
        "Encoding(Function(Nested(Template(CvQualifiers { restrict: false, volatile: false, const_: \
         false }, None, NonSubstitution(NonSubstitution(0)))), BareFunctionType([Builtin(Standard(\
         Void))])), []), left 0, entries 3 1",
    ),
    (
        Row::MangledName,
        b"_ZN1AcvT_IiEI1CEEv",
        "Encoding(Function(Nested(Template(CvQualifiers { restrict: false, volatile: false, const_: \
         false }, None, NonSubstitution(NonSubstitution(0)))), BareFunctionType([Builtin(Standard(\
         Void))])), []), left 0, entries 5 1",
    ),
    (
        Row::MangledName,
        b"_Z1fIiEDTplfp_Li1EET_",
        "Encoding(Function(UnscopedTemplate(BackReference(0), TemplateArgs([TypeArg(Builtin(Standard(\
         Int)))], 4)), BareFunctionType([BackReference(1), BackReference(2)])), []), left 0, entries 3 0",
    ),
];
