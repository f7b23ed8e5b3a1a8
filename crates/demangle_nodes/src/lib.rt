//! The node types that hold each other, the plain tree of each, and their equality. It exports those of leaves too.
#![tactic(auto)]

mod laws;
mod nodes;
mod same_nodes;
mod same_parts;

pub use demangle_leaf_nodes::{
    AbiTag, AbiTags, BareFunctionType, BuiltinType, CallOffset, CloneSuffix, CloneTypeIdentifier,
    ClosureTypeName, CtorDtorName, CvQualifiers, DataMemberPrefix, Discriminator, FunctionParam,
    Identifier, LambdaSig, LeafName, NestedName, NonSubstitution, Number, NvOffset, OperatorName,
    ParametricBuiltinType, PointerToMemberType, PrefixHandle, QualifiedBuiltin, ResourceName,
    SeqId, SourceName, Substitution, TemplateParam, TemplateTemplateParam,
    TemplateTemplateParamHandle, TypeHandle, UnnamedTypeName, UnqualifiedName,
    UnresolvedTypeHandle, UnscopedName, UnscopedTemplateName, UnscopedTemplateNameHandle, VOffset,
};
pub use laws::{equality_leaves_places_out, trees_keep_places};
pub use nodes::{
    BaseUnresolvedName, DestructorName, Encoding, ExprPrimary, Expression, FoldExpr,
    GlobalCtorDtor, Initializer, LocalName, MangledName, MemberName, Name, SimpleId, SpecialName,
    SubobjectExpr, TemplateArg, TemplateArgs, UnresolvedName, UnresolvedQualifierLevel,
};
