//! The node types that hold no name, type or expression by value, the plain tree of each, and their equality.
#![tactic(auto)]

mod accessors;
mod copies;
mod leaf_name;
mod leaves;
mod same_leaves;
mod same_names;

pub use copies::clone_suffixes;
pub use leaf_name::LeafName;
pub use leaves::{
    AbiTag, AbiTags, BareFunctionType, BuiltinType, CallOffset, CloneSuffix, CloneTypeIdentifier,
    ClosureTypeName, CtorDtorName, CvQualifiers, DataMemberPrefix, Discriminator, FunctionParam,
    Identifier, LambdaSig, NestedName, NonSubstitution, Number, NvOffset, OperatorName,
    ParametricBuiltinType, PointerToMemberType, PrefixHandle, QualifiedBuiltin, ResourceName,
    SeqId, SourceName, Substitution, TemplateParam, TemplateTemplateParam,
    TemplateTemplateParamHandle, TypeHandle, UnnamedTypeName, UnqualifiedName,
    UnresolvedTypeHandle, UnscopedName, UnscopedTemplateName, UnscopedTemplateNameHandle, VOffset,
};
