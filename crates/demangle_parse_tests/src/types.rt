//! The rows of types and template arguments.

use crate::answers::{Reading, Row};

/// One node or more of each row.
pub static TYPES: [Reading; 25] = [
    (
        Row::TypeHandle,
        b"Pi",
        "BackReference(0), left 0, entries 1 0",
    ),
    (
        Row::TypeHandle,
        b"u8char16_t",
        "Builtin(Extension(SourceName(Identifier { start: 2, end: 10 }))), left 0, entries 0 0",
    ),
    (
        Row::BuiltinType,
        b"DU9_",
        "Parametric(UnsignedBitInt(9)), left 0, entries 0 0",
    ),
    (
        Row::ParametricBuiltinType,
        b"DF3__",
        "FloatN(3), left 1, entries 0 0",
    ),
    (
        Row::ParametricBuiltinType,
        b"DF32x",
        "FloatNx(32), left 0, entries 0 0",
    ),
    (
        Row::ParametricBuiltinType,
        b"DQ",
        "UnexpectedText, entries 0 0",
    ),
    (Row::ExceptionSpec, b"Do", "NoExcept, left 0, entries 0 0"),
    (
        Row::ExceptionSpec,
        b"DOT_E1a",
        "Computed(TemplateParam(TemplateParam(0))), left 2, entries 0 0",
    ),
    (
        Row::FunctionType,
        b"FT_vEE",
        "FunctionType { cv_qualifiers: CvQualifiers { restrict: false, volatile: false, const_: false }, \
         exception_spec: None, transaction_safe: false, extern_c: false, bare: BareFunctionType(\
         [BackReference(0), Builtin(Standard(Void))]), ref_qualifier: None }, left 1, entries 1 0",
    ),
    (
        Row::BareFunctionType,
        b"iT_",
        "BareFunctionType([Builtin(Standard(Int)), BackReference(0)]), left 0, entries 1 0",
    ),
    (
        Row::Decltype,
        b"DTilEE",
        "Expression(BracedInitList([])), left 0, entries 0 0",
    ),
    (
        Row::ClassEnumType,
        b"1AIT_E",
        "Named(UnscopedTemplate(BackReference(0), TemplateArgs([TypeArg(BackReference(1))], 2))), left \
         0, entries 2 0",
    ),
    (
        Row::ArrayType,
        b"A1_T_",
        "DimensionNumber(1, BackReference(0)), left 0, entries 1 0",
    ),
    (
        Row::ArrayType,
        b"A_iE",
        "NoDimension(Builtin(Standard(Int))), left 1, entries 0 0",
    ),
    (
        Row::ArrayType,
        b"AsZT__i",
        "DimensionExpression(SizeofTemplatePack(TemplateParam(0)), Builtin(Standard(Int))), left 0, \
         entries 0 0",
    ),
    (
        Row::VectorType,
        b"Dv4_Pf",
        "DimensionNumber(4, BackReference(0)), left 0, entries 1 0",
    ),
    (
        Row::PointerToMemberType,
        b"M1AT_",
        "PointerToMemberType(BackReference(0), BackReference(1)), left 0, entries 2 0",
    ),
    (
        Row::TemplateTemplateParamHandle,
        b"T_E",
        "BackReference(0), left 1, entries 1 0",
    ),
    (
        Row::TemplateArgs,
        b"IbLb1EE",
        "TemplateArgs([TypeArg(Builtin(Standard(Bool))), SimpleExpression(Literal(Builtin(Standard(\
         Bool)), 4, 5))], 0), left 0, entries 0 0",
    ),
    (
        Row::TemplateArgs,
        b"IJIicEEEE",
        "TemplateArgs([ArgPack([ArgPack([TypeArg(Builtin(Standard(Int))), TypeArg(Builtin(Standard(\
         Char)))])])], 0), left 1, entries 0 0",
    ),
    (Row::TemplateArg, b"IEE", "ArgPack([]), left 1, entries 0 0"),
    (
        Row::TemplateArg,
        b"LPv0E",
        "SimpleExpression(Literal(BackReference(0), 3, 4)), left 0, entries 1 0",
    ),
    (
        Row::TemplateArg,
        b"1B",
        "TypeArg(BackReference(0)), left 0, entries 1 0",
    ),
    (
        Row::ExprPrimary,
        b"L1EEE",
        "Literal(BackReference(0), 3, 3), left 1, entries 1 0",
    ),
    (
        Row::ExprPrimary,
        b"L_Z1bE",
        "External(Encoding(Data(Unscoped(Unqualified(Source(SourceName(Identifier { start: 4, end: 5 }), \
         AbiTags([]))))), [])), left 0, entries 0 0",
    ),
];
