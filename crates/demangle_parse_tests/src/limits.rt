//! Limits on levels.

use crate::answers::{Reading, Row};

/// Each reading with as many levels as it needs, and with one less: what is only tried enters its levels too.
pub static LIMITS: [(u32, Reading); 24] = [
    (4, (Row::MangledName, b"i", "TooMuchRecursion, entries 0 0")),
    (
        5,
        (
            Row::MangledName,
            b"i",
            "TopLevelType(Builtin(Standard(Int))), left 0, entries 0 0",
        ),
    ),
    (
        9,
        (Row::MangledName, b"Pi", "TooMuchRecursion, entries 0 0"),
    ),
    (
        10,
        (
            Row::MangledName,
            b"Pi",
            "TopLevelType(BackReference(0)), left 0, entries 1 0",
        ),
    ),
    (
        11,
        (Row::MangledName, b"_Z1_", "TooMuchRecursion, entries 0 0"),
    ),
    (
        12,
        (
            Row::MangledName,
            b"_Z1_",
            "Encoding(Data(Unscoped(Unqualified(Source(SourceName(Identifier { start: 3, end: 4 }), \
             AbiTags([]))))), []), left 0, entries 0 0",
        ),
    ),
    (9, (Row::MangledName, b"E", "TooMuchRecursion, entries 0 0")),
    (10, (Row::MangledName, b"E", "UnexpectedEnd, entries 0 0")),
    (8, (Row::TypeHandle, b"E", "TooMuchRecursion, entries 0 0")),
    (9, (Row::TypeHandle, b"E", "UnexpectedEnd, entries 0 0")),
    (
        10,
        (Row::FunctionType, b"FiiE", "TooMuchRecursion, entries 0 0"),
    ),
    (
        11,
        (
            Row::FunctionType,
            b"FiiE",
            "FunctionType { cv_qualifiers: CvQualifiers { restrict: false, volatile: false, const_: \
             false }, exception_spec: None, transaction_safe: false, extern_c: false, bare: \
             BareFunctionType([Builtin(Standard(Int)), Builtin(Standard(Int))]), ref_qualifier: None }, \
             left 0, entries 0 0",
        ),
    ),
    (9, (Row::TemplateArg, b"E", "TooMuchRecursion, entries 0 0")),
    (10, (Row::TemplateArg, b"E", "UnexpectedText, entries 0 0")),
    (
        6,
        (Row::NestedName, b"N1_1fE", "TooMuchRecursion, entries 0 0"),
    ),
    (
        7,
        (
            Row::NestedName,
            b"N1_1fE",
            "Unqualified(CvQualifiers { restrict: false, volatile: false, const_: false }, None, Some(\
             BackReference(0)), Source(SourceName(Identifier { start: 4, end: 5 }), AbiTags([]))), left \
             0, entries 1 1",
        ),
    ),
    (
        5,
        (Row::PrefixHandle, b"1B", "TooMuchRecursion, entries 0 0"),
    ),
    (
        6,
        (
            Row::PrefixHandle,
            b"1B",
            "BackReference(0), left 0, entries 1 0",
        ),
    ),
    (
        13,
        (Row::UnresolvedName, b"1CI", "TooMuchRecursion, entries 0 0"),
    ),
    (
        14,
        (
            Row::UnresolvedName,
            b"1CI",
            "Name(Name(SimpleId(SourceName(Identifier { start: 1, end: 2 }), None))), left 1, entries 0 0",
        ),
    ),
    (
        7,
        (Row::Decltype, b"DT1gEE", "TooMuchRecursion, entries 0 0"),
    ),
    (
        8,
        (
            Row::Decltype,
            b"DT1gEE",
            "Expression(UnresolvedName(Name(Name(SimpleId(SourceName(Identifier { start: 3, end: 4 }), \
             None))))), left 1, entries 0 0",
        ),
    ),
    (5, (Row::Expression, b"E", "TooMuchRecursion, entries 0 0")),
    (6, (Row::Expression, b"E", "UnexpectedText, entries 0 0")),
];

/// Each reading with the deepest level that it enters, alternatives that are only tried among them.
pub static DEEPEST: [(u32, Reading); 11] = [
    (
        4,
        (
            Row::MangledName,
            b"i",
            "TopLevelType(Builtin(Standard(Int))), left 0, entries 0 0",
        ),
    ),
    (
        9,
        (
            Row::MangledName,
            b"Pi",
            "TopLevelType(BackReference(0)), left 0, entries 1 0",
        ),
    ),
    (
        11,
        (
            Row::MangledName,
            b"_Z1_",
            "Encoding(Data(Unscoped(Unqualified(Source(SourceName(Identifier { start: 3, end: 4 }), \
             AbiTags([]))))), []), left 0, entries 0 0",
        ),
    ),
    (
        10,
        (
            Row::FunctionType,
            b"FiiE",
            "FunctionType { cv_qualifiers: CvQualifiers { restrict: false, volatile: false, const_: \
             false }, exception_spec: None, transaction_safe: false, extern_c: false, bare: \
             BareFunctionType([Builtin(Standard(Int)), Builtin(Standard(Int))]), ref_qualifier: None }, \
             left 0, entries 0 0",
        ),
    ),
    (9, (Row::MangledName, b"E", "UnexpectedEnd, entries 0 0")),
    (8, (Row::TypeHandle, b"E", "UnexpectedEnd, entries 0 0")),
    (1, (Row::ArrayType, b"A1", "UnexpectedEnd, entries 0 0")),
    (9, (Row::ArrayType, b"A_", "UnexpectedEnd, entries 0 0")),
    (
        2,
        (Row::FunctionParam, b"fL0p0", "UnexpectedEnd, entries 0 0"),
    ),
    (3, (Row::CallOffset, b"vn4_", "UnexpectedEnd, entries 0 0")),
    (
        263,
        (
            Row::MangledName,
            b"_Z1fCI1CI1CI1CI1CI1CI1CI1CI1CI1CI1CI1CI1CI1CI1CI1CI1CI1CI1\
              CI1CI1CI1CI1CI1CI1CI1CI1CI1CI1CI1CI1CI1CI1CI1CI1CI1CI1",
            "Encoding(Data(Unscoped(Unqualified(Source(SourceName(Identifier { start: 3, end: 4 }), \
             AbiTags([]))))), []), left 108, entries 0 0",
        ),
    ),
];
