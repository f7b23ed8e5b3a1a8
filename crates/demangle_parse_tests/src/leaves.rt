//! The rows that need no recursion, and the words.

use crate::answers::{Reading, Row};

/// One node or more of each row.
pub static LEAVES: [Reading; 26] = [
    (Row::Number, b"n12", "-12, left 0, entries 0 0"),
    (Row::SeqId, b"6E", "SeqId(230), left 0, entries 0 0"),
    (Row::NvOffset, b"n8", "NvOffset(-8), left 0, entries 0 0"),
    (
        Row::VOffset,
        b"0_n20E",
        "VOffset(0, -20), left 1, entries 0 0",
    ),
    (
        Row::CallOffset,
        b"v0_n16_",
        "Virtual(VOffset(0, -16)), left 0, entries 0 0",
    ),
    (
        Row::Discriminator,
        b"_2E",
        "Discriminator(2), left 1, entries 0 0",
    ),
    (
        Row::TemplateParam,
        b"T1_E",
        "TemplateParam(2), left 1, entries 0 0",
    ),
    (
        Row::FunctionParam,
        b"fp1_E",
        "FunctionParam(0, CvQualifiers { restrict: false, volatile: false, const_: false }, Some(2)), \
         left 1, entries 0 0",
    ),
    (
        Row::SourceName,
        b"3a_t",
        "SourceName(Identifier { start: 1, end: 4 }), left 0, entries 0 0",
    ),
    (
        Row::Identifier,
        b"f1a",
        "Identifier { start: 0, end: 3 }, left 0, entries 0 0",
    ),
    (
        Row::CloneTypeIdentifier,
        b"ss_4_1",
        "CloneTypeIdentifier { start: 0, end: 6 }, left 0, entries 0 0",
    ),
    (
        Row::AbiTag,
        b"B3foo",
        "AbiTag(SourceName(Identifier { start: 2, end: 5 })), left 0, entries 0 0",
    ),
    (
        Row::AbiTags,
        b"B1ax",
        "AbiTags([AbiTag(SourceName(Identifier { start: 2, end: 3 }))]), left 1, entries 0 0",
    ),
    (Row::AbiTags, b"E", "AbiTags([]), left 1, entries 0 0"),
    (
        Row::CloneSuffix,
        b".clone.0",
        "CloneSuffix(CloneTypeIdentifier { start: 1, end: 6 }, [0]), left 0, entries 0 0",
    ),
    (
        Row::CvQualifiers,
        b"rE",
        "CvQualifiers { restrict: true, volatile: false, const_: false }, left 1, entries 0 0",
    ),
    (
        Row::UnnamedTypeName,
        b"Ut_1a",
        "UnnamedTypeName(None), left 2, entries 0 0",
    ),
    (
        Row::ResourceName,
        b"E",
        "ResourceName { start: 0, end: 1 }, left 0, entries 0 0",
    ),
    (
        Row::Substitution,
        b"SoE",
        "WellKnown(StdOstream), left 1, entries 0 0",
    ),
    (Row::Substitution, b"S_", "BadBackReference, entries 0 0"),
    (Row::SimpleOperatorName, b"ne", "Ne, left 0, entries 0 0"),
    (Row::SimpleOperatorName, b"E", "UnexpectedText, entries 0 0"),
    (Row::StandardBuiltinType, b"i", "Int, left 0, entries 0 0"),
    (
        Row::WellKnownComponent,
        b"Sb",
        "StdString1, left 0, entries 0 0",
    ),
    (Row::RefQualifier, b"O1a", "RValueRef, left 2, entries 0 0"),
    (
        Row::ExplicitObjectParameter,
        b"H",
        "ExplicitObjectParameter, left 0, entries 0 0",
    ),
];
