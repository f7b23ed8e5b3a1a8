//! The rows of names.

use crate::answers::{Reading, Row};

/// One node or more of each row.
pub static NAMES: [Reading; 32] = [
    (
        Row::Name,
        b"mm",
        "Unscoped(Unqualified(Operator(Simple(PostDec), AbiTags([])))), left 0, entries 0 0",
    ),
    (
        Row::Name,
        b"1bIvE1a",
        "UnscopedTemplate(BackReference(0), TemplateArgs([TypeArg(Builtin(Standard(Void)))], 2)), left \
         2, entries 1 0",
    ),
    (
        Row::UnscopedName,
        b"St1f",
        "Std(Source(SourceName(Identifier { start: 3, end: 4 }), AbiTags([]))), left 0, entries 0 0",
    ),
    (
        Row::UnscopedTemplateNameHandle,
        b"Sb",
        "WellKnown(StdString1), left 0, entries 0 0",
    ),
    (
        Row::UnscopedTemplateNameHandle,
        b"1f",
        "BackReference(0), left 0, entries 1 0",
    ),
    (
        Row::NestedName,
        b"N1_1fE",
        "Unqualified(CvQualifiers { restrict: false, volatile: false, const_: false }, None, Some(\
         BackReference(0)), Source(SourceName(Identifier { start: 4, end: 5 }), AbiTags([]))), left 0, \
         entries 1 1",
    ),
    (
        Row::NestedName,
        b"N1aIiEIiEE",
        "Template(CvQualifiers { restrict: false, volatile: false, const_: false }, None, \
         NonSubstitution(NonSubstitution(0))), left 0, entries 2 1",
    ),
    (
        Row::PrefixHandle,
        b"1B",
        "BackReference(0), left 0, entries 1 0",
    ),
    (
        Row::PrefixHandle,
        b"1A1bE",
        "NonSubstitution(NonSubstitution(0)), left 1, entries 1 1",
    ),
    (
        Row::LocalName,
        b"Z1fvEs_0E",
        "Relative(Function(Unscoped(Unqualified(Source(SourceName(Identifier { start: 2, end: 3 }), \
         AbiTags([])))), BareFunctionType([Builtin(Standard(Void))])), None, Some(Discriminator(0))), \
         left 1, entries 0 0",
    ),
    (
        Row::LocalName,
        b"Z1fvEd_1aE",
        "Default(Function(Unscoped(Unqualified(Source(SourceName(Identifier { start: 2, end: 3 }), \
         AbiTags([])))), BareFunctionType([Builtin(Standard(Void))])), None, Unscoped(Unqualified(Source(\
         SourceName(Identifier { start: 8, end: 9 }), AbiTags([]))))), left 1, entries 0 0",
    ),
    (
        Row::UnqualifiedName,
        b"ngE",
        "Operator(Simple(Neg), AbiTags([])), left 1, entries 0 0",
    ),
    (
        Row::UnqualifiedName,
        b"L1f_",
        "LocalSourceName(SourceName(Identifier { start: 2, end: 3 }), None, AbiTags([])), left 1, \
         entries 0 0",
    ),
    (
        Row::UnqualifiedName,
        b"CI21b",
        "CtorDtor(BaseConstructor(Some(BackReference(0))), AbiTags([])), left 0, entries 1 0",
    ),
    (
        Row::OperatorName,
        b"cvPiE",
        "Conversion(BackReference(0)), left 1, entries 1 0",
    ),
    (
        Row::OperatorName,
        b"v22_x",
        "VendorExtension(2, SourceName(Identifier { start: 3, end: 5 })), left 0, entries 0 0",
    ),
    (
        Row::OperatorName,
        b"li2_x",
        "Literal(SourceName(Identifier { start: 3, end: 5 })), left 0, entries 0 0",
    ),
    (
        Row::CtorDtorName,
        b"C31a",
        "CompleteAllocatingConstructor(None), left 2, entries 0 0",
    ),
    (
        Row::CtorDtorName,
        b"D4",
        "MaybeInChargeDestructor, left 0, entries 0 0",
    ),
    (
        Row::ClosureTypeName,
        b"UlvE_",
        "ClosureTypeName(LambdaSig([]), None), left 0, entries 0 0",
    ),
    (
        Row::ClosureTypeName,
        b"UliE0_",
        "ClosureTypeName(LambdaSig([Builtin(Standard(Int))]), Some(0)), left 0, entries 0 0",
    ),
    (Row::LambdaSig, b"vE", "LambdaSig([]), left 1, entries 0 0"),
    (
        Row::LambdaSig,
        b"iv",
        "LambdaSig([Builtin(Standard(Int)), Builtin(Standard(Void))]), left 0, entries 0 0",
    ),
    (
        Row::DataMemberPrefix,
        b"1xM",
        "DataMemberPrefix(SourceName(Identifier { start: 1, end: 2 })), left 0, entries 0 0",
    ),
    (Row::DataMemberPrefix, b"1x", "UnexpectedEnd, entries 0 0"),
    (
        Row::MangledName,
        b"PiE",
        "TopLevelType(BackReference(0)), left 1, entries 1 0",
    ),
    (
        Row::MangledName,
        b"_Zclv",
        "Encoding(Function(Unscoped(Unqualified(Operator(Simple(Call), AbiTags([])))), BareFunctionType(\
         [Builtin(Standard(Void))])), []), left 0, entries 0 0",
    ),
    (
        Row::GlobalCtorDtor,
        b"_D_1f",
        "Dtor(TopLevelType(BackReference(0))), left 0, entries 1 0",
    ),
    (
        Row::Encoding,
        b"TV1TE",
        "Special(VirtualTable(BackReference(0))), left 1, entries 1 0",
    ),
    (
        Row::Encoding,
        b"1fM1a",
        "Data(Unscoped(Unqualified(Source(SourceName(Identifier { start: 1, end: 2 }), AbiTags([]))))), \
         left 3, entries 0 0",
    ),
    (
        Row::SpecialName,
        b"Gr1_",
        "JavaResource([]), left 0, entries 0 0",
    ),
    (
        Row::SpecialName,
        b"TW1_",
        "TlsWrapper(Unscoped(Unqualified(Source(SourceName(Identifier { start: 3, end: 4 }), AbiTags(\
         []))))), left 0, entries 0 0",
    ),
];
