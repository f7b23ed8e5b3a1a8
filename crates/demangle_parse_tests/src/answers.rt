//! What a reading answers, as one text: the node as `{:?}` shows it, how many bytes are left and how many entries each
//! list of the table has; or the error, and the entries.

use demangle_entries::{
    AbiTag, AbiTags, ArrayType, BareFunctionType, BaseUnresolvedName, BuiltinType, CallOffset,
    ClassEnumType, CloneSuffix, CloneTypeIdentifier, ClosureTypeName, CtorDtorName, CvQualifiers,
    DataMemberPrefix, Decltype, DestructorName, Discriminator, Encoding, ExceptionSpec,
    ExprPrimary, Expression, FoldExpr, FunctionParam, FunctionType, GlobalCtorDtor, Identifier,
    Initializer, LambdaSig, LocalName, MangledName, MemberName, Name, NestedName, Number, NvOffset,
    OperatorName, ParametricBuiltinType, PointerToMemberType, PrefixHandle, ResourceName, SeqId,
    SimpleId, SourceName, SpecialName, SubobjectExpr, Substitution, TemplateArg, TemplateArgs,
    TemplateParam, TemplateTemplateParamHandle, TypeHandle, UnnamedTypeName, UnqualifiedName,
    UnresolvedName, UnresolvedQualifierLevel, UnresolvedTypeHandle, UnscopedName,
    UnscopedTemplateNameHandle, VOffset, VectorType,
};
use demangle_leaf_rows::ParseContext;
use demangle_parse::Parse;
use demangle_table::SubstitutionTable;
use demangle_text::{IndexStr, ParseOptions};
use demangle_vocab::{
    ExplicitObjectParameter, RefQualifier, SimpleOperatorName, StandardBuiltinType,
    WellKnownComponent,
};
use std::alloc::{AllocError, Global};
use std::fmt::Debug;

/// A row of the grammar, by the type of its node.
#[derive(Clone, Copy)]
pub enum Row {
    MangledName,
    Encoding,
    GlobalCtorDtor,
    Name,
    UnscopedName,
    UnscopedTemplateNameHandle,
    NestedName,
    PrefixHandle,
    UnqualifiedName,
    OperatorName,
    CtorDtorName,
    LocalName,
    ClosureTypeName,
    LambdaSig,
    DataMemberPrefix,
    SpecialName,
    TypeHandle,
    BuiltinType,
    ParametricBuiltinType,
    ExceptionSpec,
    FunctionType,
    BareFunctionType,
    Decltype,
    ClassEnumType,
    ArrayType,
    VectorType,
    PointerToMemberType,
    TemplateTemplateParamHandle,
    TemplateArgs,
    TemplateArg,
    ExprPrimary,
    Expression,
    UnresolvedName,
    UnresolvedQualifierLevel,
    UnresolvedTypeHandle,
    SimpleId,
    DestructorName,
    BaseUnresolvedName,
    Initializer,
    SubobjectExpr,
    MemberName,
    FoldExpr,
    Number,
    SeqId,
    SourceName,
    Identifier,
    CloneTypeIdentifier,
    AbiTag,
    AbiTags,
    CloneSuffix,
    NvOffset,
    VOffset,
    CallOffset,
    Discriminator,
    TemplateParam,
    FunctionParam,
    CvQualifiers,
    UnnamedTypeName,
    ResourceName,
    Substitution,
    SimpleOperatorName,
    StandardBuiltinType,
    WellKnownComponent,
    RefQualifier,
    ExplicitObjectParameter,
}

/// A row, the bytes, and what the reading answers.
pub type Reading = (Row, &'static [u8], &'static str);

// What holds nodes is dropped here, in a generic function, since each other place that does so is dear to prove.
fn discard<X: Drop>(_done: X) {}

/// The number of the first reading that answers otherwise than its text says, each from an empty table.
pub fn first_wrong(alloc: Global, readings: &[Reading]) -> Option<usize> {
    for (i, reading) in readings.iter().enumerate() {
        let mut ctx = ParseContext::new(ParseOptions::default());
        if !is_answer_alone(alloc, &mut ctx, reading) {
            return Some(i);
        }
    }
    None
}

/// The same, each with a limit on levels of its own.
pub fn first_wrong_under(alloc: Global, readings: &[(u32, Reading)]) -> Option<usize> {
    for (i, (limit, reading)) in readings.iter().enumerate() {
        let options = ParseOptions::default().recursion_limit((*limit).max(1));
        let mut ctx = ParseContext::new(options);
        if !is_answer_alone(alloc, &mut ctx, reading) {
            return Some(i);
        }
    }
    None
}

/// The same, each with the deepest level that it enters, the options all having this limit.
pub fn first_wrong_depth(alloc: Global, limit: u32, readings: &[(u32, Reading)]) -> Option<usize> {
    for (i, (deepest, reading)) in readings.iter().enumerate() {
        let options = ParseOptions::default().recursion_limit(limit.max(1));
        let mut ctx = ParseContext::new(options);
        if !is_answer_alone(alloc, &mut ctx, reading) || ctx.deepest() != *deepest {
            return Some(i);
        }
    }
    None
}

/// The same, all in this context and from one table.
pub fn first_wrong_in_turn(
    alloc: Global,
    ctx: &mut ParseContext,
    readings: &[Reading],
) -> Option<usize> {
    let mut subs = SubstitutionTable::new(alloc);
    let wrong = first_wrong_from(alloc, ctx, &mut subs, readings);
    discard(subs);
    wrong
}

fn first_wrong_from(
    alloc: Global,
    ctx: &mut ParseContext,
    subs: &mut SubstitutionTable,
    readings: &[Reading],
) -> Option<usize> {
    for (i, reading) in readings.iter().enumerate() {
        if !is_answer(alloc, ctx, subs, reading) {
            return Some(i);
        }
    }
    None
}

fn is_answer_alone(alloc: Global, ctx: &mut ParseContext, reading: &Reading) -> bool {
    let mut subs = SubstitutionTable::new(alloc);
    let is_right = is_answer(alloc, ctx, &mut subs, reading);
    discard(subs);
    is_right
}

// Level and flag are to be as before, too.
fn is_answer(
    alloc: Global,
    ctx: &mut ParseContext,
    subs: &mut SubstitutionTable,
    reading: &Reading,
) -> bool {
    let (level, flag) = (ctx.recursion_level(), ctx.in_conversion());
    let (row, bytes, text) = *reading;
    match answer(alloc, ctx, subs, row, bytes) {
        Ok(shown) => {
            shown.as_str() == text && ctx.recursion_level() == level && ctx.in_conversion() == flag
        }
        Err(_) => false,
    }
}

fn shown<X: Parse + Debug + Drop>(
    alloc: Global,
    ctx: &mut ParseContext,
    subs: &mut SubstitutionTable,
    bytes: &[u8],
) -> Result<String, AllocError> {
    let answer = X::parse(alloc, ctx, subs, IndexStr::new(bytes));
    let (numbered, others) = subs.lengths();
    match answer {
        Ok((node, rest)) => {
            let left = rest.len();
            format!(in alloc; "{node:?}, left {left}, entries {numbered} {others}")
        }
        Err(error) => format!(in alloc; "{error:?}, entries {numbered} {others}"),
    }
}

fn answer(
    alloc: Global,
    ctx: &mut ParseContext,
    subs: &mut SubstitutionTable,
    row: Row,
    bytes: &[u8],
) -> Result<String, AllocError> {
    match row {
        Row::MangledName => shown::<MangledName>(alloc, ctx, subs, bytes),
        Row::Encoding => shown::<Encoding>(alloc, ctx, subs, bytes),
        Row::GlobalCtorDtor => shown::<GlobalCtorDtor>(alloc, ctx, subs, bytes),
        Row::Name => shown::<Name>(alloc, ctx, subs, bytes),
        Row::UnscopedName => shown::<UnscopedName>(alloc, ctx, subs, bytes),
        Row::UnscopedTemplateNameHandle => shown::<UnscopedTemplateNameHandle>(
            alloc, ctx, subs, bytes,
        ),
        Row::NestedName => shown::<NestedName>(alloc, ctx, subs, bytes),
        Row::PrefixHandle => shown::<PrefixHandle>(alloc, ctx, subs, bytes),
        Row::UnqualifiedName => shown::<UnqualifiedName>(alloc, ctx, subs, bytes),
        Row::OperatorName => shown::<OperatorName>(alloc, ctx, subs, bytes),
        Row::CtorDtorName => shown::<CtorDtorName>(alloc, ctx, subs, bytes),
        Row::LocalName => shown::<LocalName>(alloc, ctx, subs, bytes),
        Row::ClosureTypeName => shown::<ClosureTypeName>(alloc, ctx, subs, bytes),
        Row::LambdaSig => shown::<LambdaSig>(alloc, ctx, subs, bytes),
        Row::DataMemberPrefix => shown::<DataMemberPrefix>(alloc, ctx, subs, bytes),
        Row::SpecialName => shown::<SpecialName>(alloc, ctx, subs, bytes),
        _ => type_answer(alloc, ctx, subs, row, bytes),
    }
}

fn type_answer(
    alloc: Global,
    ctx: &mut ParseContext,
    subs: &mut SubstitutionTable,
    row: Row,
    bytes: &[u8],
) -> Result<String, AllocError> {
    match row {
        Row::TypeHandle => shown::<TypeHandle>(alloc, ctx, subs, bytes),
        Row::BuiltinType => shown::<BuiltinType>(alloc, ctx, subs, bytes),
        Row::ParametricBuiltinType => shown::<ParametricBuiltinType>(alloc, ctx, subs, bytes),
        Row::ExceptionSpec => shown::<ExceptionSpec>(alloc, ctx, subs, bytes),
        Row::FunctionType => shown::<FunctionType>(alloc, ctx, subs, bytes),
        Row::BareFunctionType => shown::<BareFunctionType>(alloc, ctx, subs, bytes),
        Row::Decltype => shown::<Decltype>(alloc, ctx, subs, bytes),
        Row::ClassEnumType => shown::<ClassEnumType>(alloc, ctx, subs, bytes),
        Row::ArrayType => shown::<ArrayType>(alloc, ctx, subs, bytes),
        Row::VectorType => shown::<VectorType>(alloc, ctx, subs, bytes),
        Row::PointerToMemberType => shown::<PointerToMemberType>(alloc, ctx, subs, bytes),
        Row::TemplateTemplateParamHandle => shown::<TemplateTemplateParamHandle>(
            alloc, ctx, subs, bytes,
        ),
        Row::TemplateArgs => shown::<TemplateArgs>(alloc, ctx, subs, bytes),
        Row::TemplateArg => shown::<TemplateArg>(alloc, ctx, subs, bytes),
        Row::ExprPrimary => shown::<ExprPrimary>(alloc, ctx, subs, bytes),
        _ => expression_answer(alloc, ctx, subs, row, bytes),
    }
}

fn expression_answer(
    alloc: Global,
    ctx: &mut ParseContext,
    subs: &mut SubstitutionTable,
    row: Row,
    bytes: &[u8],
) -> Result<String, AllocError> {
    match row {
        Row::Expression => shown::<Expression>(alloc, ctx, subs, bytes),
        Row::UnresolvedName => shown::<UnresolvedName>(alloc, ctx, subs, bytes),
        Row::UnresolvedQualifierLevel => shown::<UnresolvedQualifierLevel>(alloc, ctx, subs, bytes),
        Row::UnresolvedTypeHandle => shown::<UnresolvedTypeHandle>(alloc, ctx, subs, bytes),
        Row::SimpleId => shown::<SimpleId>(alloc, ctx, subs, bytes),
        Row::DestructorName => shown::<DestructorName>(alloc, ctx, subs, bytes),
        Row::BaseUnresolvedName => shown::<BaseUnresolvedName>(alloc, ctx, subs, bytes),
        Row::Initializer => shown::<Initializer>(alloc, ctx, subs, bytes),
        Row::SubobjectExpr => shown::<SubobjectExpr>(alloc, ctx, subs, bytes),
        Row::MemberName => shown::<MemberName>(alloc, ctx, subs, bytes),
        Row::FoldExpr => shown::<FoldExpr>(alloc, ctx, subs, bytes),
        _ => leaf_answer(alloc, ctx, subs, row, bytes),
    }
}

fn leaf_answer(
    alloc: Global,
    ctx: &mut ParseContext,
    subs: &mut SubstitutionTable,
    row: Row,
    bytes: &[u8],
) -> Result<String, AllocError> {
    match row {
        Row::Number => shown::<Number>(alloc, ctx, subs, bytes),
        Row::SeqId => shown::<SeqId>(alloc, ctx, subs, bytes),
        Row::SourceName => shown::<SourceName>(alloc, ctx, subs, bytes),
        Row::Identifier => shown::<Identifier>(alloc, ctx, subs, bytes),
        Row::CloneTypeIdentifier => shown::<CloneTypeIdentifier>(alloc, ctx, subs, bytes),
        Row::AbiTag => shown::<AbiTag>(alloc, ctx, subs, bytes),
        Row::AbiTags => shown::<AbiTags>(alloc, ctx, subs, bytes),
        Row::CloneSuffix => shown::<CloneSuffix>(alloc, ctx, subs, bytes),
        Row::NvOffset => shown::<NvOffset>(alloc, ctx, subs, bytes),
        Row::VOffset => shown::<VOffset>(alloc, ctx, subs, bytes),
        Row::CallOffset => shown::<CallOffset>(alloc, ctx, subs, bytes),
        Row::Discriminator => shown::<Discriminator>(alloc, ctx, subs, bytes),
        Row::TemplateParam => shown::<TemplateParam>(alloc, ctx, subs, bytes),
        Row::FunctionParam => shown::<FunctionParam>(alloc, ctx, subs, bytes),
        Row::CvQualifiers => shown::<CvQualifiers>(alloc, ctx, subs, bytes),
        Row::UnnamedTypeName => shown::<UnnamedTypeName>(alloc, ctx, subs, bytes),
        Row::ResourceName => shown::<ResourceName>(alloc, ctx, subs, bytes),
        Row::Substitution => shown::<Substitution>(alloc, ctx, subs, bytes),
        _ => word_answer(alloc, ctx, subs, row, bytes),
    }
}

fn word_answer(
    alloc: Global,
    ctx: &mut ParseContext,
    subs: &mut SubstitutionTable,
    row: Row,
    bytes: &[u8],
) -> Result<String, AllocError> {
    match row {
        Row::SimpleOperatorName => shown::<SimpleOperatorName>(alloc, ctx, subs, bytes),
        Row::StandardBuiltinType => shown::<StandardBuiltinType>(alloc, ctx, subs, bytes),
        Row::WellKnownComponent => shown::<WellKnownComponent>(alloc, ctx, subs, bytes),
        Row::RefQualifier => shown::<RefQualifier>(alloc, ctx, subs, bytes),
        Row::ExplicitObjectParameter => shown::<ExplicitObjectParameter>(alloc, ctx, subs, bytes),
        _ => format!(in alloc; "no row has this name"),
    }
}
