//! The rows of expressions and unresolved names.

use crate::answers::{Reading, Row};

/// One node or more of each row.
pub static EXPRESSIONS: [Reading; 19] = [
    (Row::Expression, b"tr", "Rethrow, left 0, entries 0 0"),
    (
        Row::Expression,
        b"ngT_",
        "Unary(Simple(Neg), TemplateParam(TemplateParam(0))), left 0, entries 0 0",
    ),
    (
        Row::Expression,
        b"tl2D_E",
        "ConversionBraced(BackReference(0), []), left 0, entries 1 0",
    ),
    (
        Row::Expression,
        b"sti",
        "SizeofType(Builtin(Standard(Int))), left 0, entries 0 0",
    ),
    (
        Row::Initializer,
        b"piilLi1EEE",
        "Initializer([BracedInitList([Primary(Literal(Builtin(Standard(Int)), 6, 7))])]), left 0, \
         entries 0 0",
    ),
    (
        Row::SubobjectExpr,
        b"KiL_Z7derivedE4EE",
        "SubobjectExpr { ty: BackReference(0), expr: Primary(External(Encoding(Data(Unscoped(Unqualified(\
         Source(SourceName(Identifier { start: 6, end: 13 }), AbiTags([]))))), []))), offset: 4 }, left \
         1, entries 1 0",
    ),
    (
        Row::MemberName,
        b"1aIiE",
        "MemberName(UnscopedTemplate(NonSubstitution(NonSubstitution(0)), TemplateArgs([TypeArg(Builtin(\
         Standard(Int)))], 2))), left 0, entries 0 1",
    ),
    (
        Row::MemberName,
        b"pl",
        "MemberName(Unscoped(Unqualified(Operator(Simple(Add), AbiTags([]))))), left 0, entries 0 0",
    ),
    (
        Row::FoldExpr,
        b"flplT_",
        "UnaryLeft(Add, TemplateParam(TemplateParam(0))), left 0, entries 0 0",
    ),
    (
        Row::FoldExpr,
        b"fRplT_LiE",
        "BinaryRight(Add, TemplateParam(TemplateParam(0)), Primary(Literal(Builtin(Standard(Int)), 8, \
         8))), left 0, entries 0 0",
    ),
    (
        Row::UnresolvedName,
        b"gs1g",
        "Global(Name(SimpleId(SourceName(Identifier { start: 3, end: 4 }), None))), left 0, entries 0 0",
    ),
    (
        Row::UnresolvedName,
        b"srT_1g",
        "Nested1(BackReference(0), [], Name(SimpleId(SourceName(Identifier { start: 5, end: 6 }), \
         None))), left 0, entries 1 0",
    ),
    (
        Row::UnresolvedQualifierLevel,
        b"1bIiE",
        "UnresolvedQualifierLevel(SimpleId(SourceName(Identifier { start: 1, end: 2 }), Some(\
         TemplateArgs([TypeArg(Builtin(Standard(Int)))], 2)))), left 0, entries 0 0",
    ),
    (
        Row::UnresolvedTypeHandle,
        b"StE",
        "WellKnown(Std), left 1, entries 0 0",
    ),
    (
        Row::UnresolvedTypeHandle,
        b"T_E",
        "BackReference(0), left 1, entries 1 0",
    ),
    (
        Row::SimpleId,
        b"1P",
        "SimpleId(SourceName(Identifier { start: 1, end: 2 }), None), left 0, entries 0 0",
    ),
    (
        Row::DestructorName,
        b"T_E",
        "Unresolved(BackReference(0)), left 1, entries 1 0",
    ),
    (
        Row::BaseUnresolvedName,
        b"onplIiE",
        "Operator(Simple(Add), Some(TemplateArgs([TypeArg(Builtin(Standard(Int)))], 4))), left 0, \
         entries 0 0",
    ),
    (
        Row::BaseUnresolvedName,
        b"dn1_",
        "Destructor(Name(SimpleId(SourceName(Identifier { start: 3, end: 4 }), None))), left 0, entries \
         0 0",
    ),
];
