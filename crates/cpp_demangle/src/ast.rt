//! The syntax tree of a name, its parser and its printer: for tools that read or print parts of names.

pub use demangle_tree::{
    AbiTag, AbiTags, ArrayType, BareFunctionType, BaseUnresolvedName, BuiltinType, CallOffset,
    ClassEnumType, CloneSuffix, CloneTypeIdentifier, ClosureTypeName, CopyComponent, CtorDtorName,
    CvQualifiers, DataMemberPrefix, Decltype, DestructorName, Discriminator, Encoding,
    ExceptionSpec, ExprPrimary, Expression, FoldExpr, FunctionParam, FunctionType, GetLeafName,
    GetTemplateArgs, GlobalCtorDtor, Identifier, Initializer, IsCtorDtorConversion, LambdaSig,
    LeafName, LocalName, MangledName, MemberName, Name, NestedName, NonSubstitution, Number,
    NvOffset, OperatorName, ParametricBuiltinType, PointerToMemberType, Prefix, PrefixHandle,
    QualifiedBuiltin, ResourceName, SeqId, SimpleId, SourceName, SpecialName, SubobjectExpr,
    Substitutable, Substitution, SubstitutionTable, TemplateArg, TemplateArgs, TemplateParam,
    TemplateTemplateParam, TemplateTemplateParamHandle, TypeHandle, TypeNode, UnnamedTypeName,
    UnqualifiedName, UnresolvedName, UnresolvedQualifierLevel, UnresolvedType,
    UnresolvedTypeHandle, UnscopedName, UnscopedTemplateName, UnscopedTemplateNameHandle, VOffset,
    VectorType,
};
pub use demangle_vocab::{
    ExplicitObjectParameter, RefQualifier, SimpleOperatorName, StandardBuiltinType,
    WellKnownComponent,
};

// What copies, reads and prints it.
pub use demangle_copies::TryClone;
pub use demangle_leaf::{
    ParseContext, read_abi_tag, read_abi_tags, read_call_offset, read_clone_suffix,
    read_clone_type_identifier, read_cv_qualifiers, read_discriminator, read_function_param,
    read_identifier, read_number, read_nv_offset, read_resource_name, read_seq_id,
    read_source_name, read_substitution, read_template_param, read_unnamed_type_name,
    read_v_offset,
};
pub use demangle_parse::Parse;
pub use demangle_print::{
    Demangle, DemangleAsInner, DemangleAsLeaf, demangle_args, demangle_inner,
};
pub use demangle_scope::{
    ArgScopeStack, DemangleContext, DemangleFlags, InnerBarrier, InnerItem, ScopeItem,
    scope_in_arg, scope_leaf_name, scope_push, scope_template_arg,
};
pub use demangle_text::{IndexStr, consume, parse_number, parse_unsigned};
