//! The syntax tree: its node types, the substitution table and the look-ups through it.
#![tactic(auto)]

mod leaf_names;
mod special_names;
mod steps;
mod template_args;

pub use demangle_core::lookups_end;
pub use demangle_entries::{
    AbiTag, AbiTags, ArrayType, BareFunctionType, BaseUnresolvedName, BuiltinType, CallOffset,
    ClassEnumType, CloneSuffix, CloneTypeIdentifier, ClosureTypeName, CtorDtorName, CvQualifiers,
    DataMemberPrefix, Decltype, DestructorName, Discriminator, Encoding, ExceptionSpec,
    ExprPrimary, Expression, FoldExpr, FunctionParam, FunctionType, GlobalCtorDtor, Identifier,
    Initializer, LambdaSig, LeafName, LocalName, MangledName, MemberName, Name, NestedName,
    NonSubstitution, Number, NvOffset, OperatorName, ParametricBuiltinType, PointerToMemberType,
    Prefix, PrefixHandle, QualifiedBuiltin, ResourceName, SeqId, SimpleId, SourceName, SpecialName,
    SubobjectExpr, Substitutable, Substitution, TemplateArg, TemplateArgs, TemplateParam,
    TemplateTemplateParam, TemplateTemplateParamHandle, TypeHandle, TypeNode, UnnamedTypeName,
    UnqualifiedName, UnresolvedName, UnresolvedQualifierLevel, UnresolvedType,
    UnresolvedTypeHandle, UnscopedName, UnscopedTemplateName, UnscopedTemplateNameHandle, VOffset,
    VectorType,
};
pub use demangle_table::{CopyComponent, SubstitutionTable};
pub use leaf_names::GetLeafName;
pub use special_names::IsCtorDtorConversion;
pub use template_args::GetTemplateArgs;
