//! The node types above names and expressions: types, prefixes, the entries of the substitution table; the plain tree of
//! each, and their equality. It exports all node types.
#![tactic(auto)]

mod component;
mod entries;
mod same_entries;

pub use demangle_nodes::{
    AbiTag, AbiTags, BareFunctionType, BaseUnresolvedName, BuiltinType, CallOffset, CloneSuffix,
    CloneTypeIdentifier, ClosureTypeName, CtorDtorName, CvQualifiers, DataMemberPrefix,
    DestructorName, Discriminator, Encoding, ExprPrimary, Expression, FoldExpr, FunctionParam,
    GlobalCtorDtor, Identifier, Initializer, LambdaSig, LeafName, LocalName, MangledName,
    MemberName, Name, NestedName, NonSubstitution, Number, NvOffset, OperatorName,
    ParametricBuiltinType, PointerToMemberType, PrefixHandle, QualifiedBuiltin, ResourceName,
    SeqId, SimpleId, SourceName, SpecialName, SubobjectExpr, Substitution, TemplateArg,
    TemplateArgs, TemplateParam, TemplateTemplateParam, TemplateTemplateParamHandle, TypeHandle,
    UnnamedTypeName, UnqualifiedName, UnresolvedName, UnresolvedQualifierLevel,
    UnresolvedTypeHandle, UnscopedName, UnscopedTemplateName, UnscopedTemplateNameHandle, VOffset,
};
pub use entries::{
    ArrayType, ClassEnumType, Decltype, ExceptionSpec, FunctionType, Prefix, Substitutable,
    TypeNode, UnresolvedType, VectorType,
};
