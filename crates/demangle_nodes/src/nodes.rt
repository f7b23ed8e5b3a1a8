//! The node types that hold each other: whole names, expressions and template arguments.
//!
//! A type that others hold by value is unfolded in the proofs wherever they are, so a field is boxed where one of
//! these types would otherwise grow too large.
//!
//! Beside each type stands its production, in the BNF of the Itanium C++ ABI. An example shows C++ and the bytes that
//! are read as this node. In it `g` is an object or a function, `T` the first template parameter, and `fp` the first
//! parameter of the function.

use demangle_leaf_nodes::{
    BareFunctionType, CallOffset, CloneSuffix, Discriminator, FunctionParam, NestedName,
    OperatorName, ResourceName, SourceName, TemplateParam, TypeHandle, UnresolvedTypeHandle,
    UnscopedName, UnscopedTemplateNameHandle,
};
use demangle_vocab::SimpleOperatorName;

/// A whole mangled name. ABI section 5.1.2; blocks, global constructors and types alone are additions of compilers.
///
/// ```text
/// <mangled-name> ::= _Z <encoding> <clone-suffix>* | __Z <encoding> <clone-suffix>*
///                ::= ___Z <encoding> _block_invoke <block number> | ____Z <encoding> _block_invoke <block number>
///                ::= _GLOBAL_ <global-ctor-dtor>
///                ::= <type>
/// <block number> ::= [<non-negative number>] | _ <non-negative number> | . <non-negative number>
/// ```
#[cycle(nodes)]
#[derive(Drop, Debug)]
pub enum MangledName {
    /// A function, a variable or what the compiler makes of one, `f()`: `_Z1fv`; its copy, `f() [clone .cold]`:
    /// `_Z1fv.cold`.
    Encoding(Encoding, Vec<CloneSuffix>),
    /// The function that one of Apple's blocks is compiled to, that of the block in `f()`: `___Z1fv_block_invoke`.
    BlockInvoke(Encoding, Option<isize>),
    /// A type alone, `int*`: `Pi`.
    TopLevelType(TypeHandle),
    /// What runs the constructors or destructors of a file's variables: `_GLOBAL__I__Z1fv`.
    GlobalCtorDtor(GlobalCtorDtor),
}

/// A function, a variable or something that the compiler makes. ABI section 5.1.2.
///
/// ```text
/// <encoding> ::= <function name> <bare-function-type> | <data name> | <special-name>
/// ```
#[cycle(nodes)]
#[derive(Drop, Debug)]
pub enum Encoding {
    /// A function with its types, `f(int)`: `1fi`.
    Function(Name, BareFunctionType),
    /// A variable, `A::x`: `N1A1xE`.
    Data(Name),
    /// What the compiler makes, the virtual table of `A`: `TV1A`.
    Special(Box<SpecialName>),
}

/// What runs the constructors or destructors of a file's variables, with the name that the file is known by. The
/// original's type of this name.
///
/// ```text
/// <global-ctor-dtor> ::= <_ | . | $> I _ <mangled-name> | <_ | . | $> D _ <mangled-name>
/// ```
#[cycle(nodes)]
#[derive(Drop, Debug)]
pub enum GlobalCtorDtor {
    /// `global constructors keyed to f()`: `_I__Z1fv`.
    Ctor(Box<MangledName>),
    /// `global destructors keyed to f()`: `_D__Z1fv`.
    Dtor(Box<MangledName>),
}

/// A name with its scope. ABI section 5.1.2.
///
/// ```text
/// <name> ::= <nested-name> | <unscoped-name> | <unscoped-template-name> <template-args> | <local-name>
/// ```
#[cycle(nodes)]
#[derive(Drop, Debug)]
pub enum Name {
    /// `A::f`: `N1A1fE`.
    Nested(NestedName),
    /// `f`, and `std::f`: `1f` and `St1f`.
    Unscoped(UnscopedName),
    /// `f<int>`: `1fIiE`.
    UnscopedTemplate(UnscopedTemplateNameHandle, TemplateArgs),
    /// `x` of the function `f()`: `Z1fvE1x`.
    Local(LocalName),
}

/// The arguments of a template, and their place: the index of the `I` before them, which equality leaves out. ABI
/// section 5.1.2. `<int, char>` is `IicE`.
///
/// ```text
/// <template-args> ::= I <template-arg>+ E
/// ```
#[cycle(nodes)]
#[derive(Drop, Debug)]
pub struct TemplateArgs(pub Vec<TemplateArg>, pub usize);

/// One argument of a template. ABI section 5.1.2. An older form of a pack begins with `I`.
///
/// ```text
/// <template-arg> ::= <type> | X <expression> E | <expr-primary> | J <template-arg>* E | I <template-arg>* E
/// ```
#[cycle(nodes)]
#[derive(Drop, Debug)]
pub enum TemplateArg {
    /// A type, or a template, `int`: `i`.
    TypeArg(TypeHandle),
    /// An expression, `sizeof(T)`: `XstT_E`.
    Expression(Expression),
    /// A literal, or the address of an entity, `5`: `Li5E`.
    SimpleExpression(ExprPrimary),
    /// What stands for a parameter pack, `int, char`: `JicE`.
    ArgPack(Vec<TemplateArg>),
}

/// The name of a member in a member access, `x` of `g.x`: `1x`. ABI section 5.1.6 has an `<unresolved-name>` in its
/// place.
///
/// ```text
/// <member name> ::= <unqualified-name> [<template-args>]
/// ```
#[cycle(nodes)]
#[derive(Drop, Debug)]
pub struct MemberName(pub Box<Name>);

/// The arguments in parentheses behind a `new` expression, `(1)`: `piLi1EE`. ABI section 5.1.6.
///
/// ```text
/// <initializer> ::= pi <expression>* E
/// ```
#[cycle(nodes)]
#[derive(Drop, Debug)]
pub struct Initializer(pub Vec<Expression>);

/// An expression. ABI section 5.1.6. A compiler's own operator has as many operands as its digit says, and the suffix
/// of a literal has one.
///
/// ```text
/// <expression> ::= <unary operator-name> <expression>
///              ::= <binary operator-name> <expression> <expression>
///              ::= <ternary operator-name> <expression> <expression> <expression>
///              ::= pp_ <expression> | mm_ <expression>
///              ::= cl <expression>+ E
///              ::= cv <type> <expression> | cv <type> _ <expression>* E
///              ::= tl <type> <expression>* E | il <expression>* E
///              ::= [gs] nw <expression>* _ <type> E | [gs] nw <expression>* _ <type> <initializer>
///              ::= [gs] na <expression>* _ <type> E | [gs] na <expression>* _ <type> <initializer>
///              ::= [gs] dl <expression> | [gs] da <expression>
///              ::= dc <type> <expression> | sc <type> <expression> | cc <type> <expression> | rc <type> <expression>
///              ::= ti <type> | te <expression> | st <type> | sz <expression> | at <type> | az <expression>
///              ::= nx <expression>
///              ::= so <subobject-expr>
///              ::= <template-param> | <function-param>
///              ::= dt <expression> <member name> | pt <expression> <member name> | ds <expression> <expression>
///              ::= sZ <template-param> | sZ <function-param> | sP <template-arg>* E | sp <expression>
///              ::= <fold-expr>
///              ::= tw <expression> | tr
///              ::= <unresolved-name> | <expr-primary>
/// ```
#[cycle(nodes)]
#[derive(Drop, Debug)]
pub enum Expression {
    /// An operator with one operand, `-g`: `ng1g`; `++` and `--` stand behind theirs, `g++`: `pp1g`.
    Unary(OperatorName, Box<Expression>),
    /// An operator with two operands, `g + 1`: `pl1gLi1E`.
    Binary(OperatorName, Box<Expression>, Box<Expression>),
    /// An operator with three operands, `g ? 1 : 2`: `qu1gLi1ELi2E`.
    Ternary(OperatorName, Box<Expression>, Box<Expression>, Box<Expression>),
    /// `++g`: `pp_1g`.
    PrefixInc(Box<Expression>),
    /// `--g`: `mm_1g`.
    PrefixDec(Box<Expression>),
    /// A call, `g(1)`: `cl1gLi1EE`.
    Call(Box<Expression>, Vec<Expression>),
    /// A conversion of one value, `int(g)`: `cvi1g`.
    ConversionOne(TypeHandle, Box<Expression>),
    /// A conversion of no value or of several, `T(1, 2)`: `cvT__Li1ELi2EE`.
    ConversionMany(TypeHandle, Vec<Expression>),
    /// A conversion of a list in braces, `T{1}`: `tlT_Li1EE`.
    ConversionBraced(TypeHandle, Vec<Expression>),
    /// A list in braces, `{1, 2}`: `ilLi1ELi2EE`.
    BracedInitList(Vec<Expression>),
    /// `new int(1)`: `nw_ipiLi1EE`; with a placement argument, `new (g) int`: `nw1g_iE`.
    New(Vec<Expression>, TypeHandle, Option<Initializer>),
    /// `::new int`: `gsnw_iE`.
    GlobalNew(Vec<Expression>, TypeHandle, Option<Initializer>),
    /// `new int[3]`: `na_A3_iE`.
    NewArray(Vec<Expression>, TypeHandle, Option<Initializer>),
    /// `::new int[3]`: `gsna_A3_iE`.
    GlobalNewArray(Vec<Expression>, TypeHandle, Option<Initializer>),
    /// `delete g`: `dl1g`.
    Delete(Box<Expression>),
    /// `::delete g`: `gsdl1g`.
    GlobalDelete(Box<Expression>),
    /// `delete[] g`: `da1g`.
    DeleteArray(Box<Expression>),
    /// `::delete[] g`: `gsda1g`.
    GlobalDeleteArray(Box<Expression>),
    /// `dynamic_cast<T>(g)`: `dcT_1g`.
    DynamicCast(TypeHandle, Box<Expression>),
    /// `static_cast<T>(g)`: `scT_1g`.
    StaticCast(TypeHandle, Box<Expression>),
    /// `const_cast<T>(g)`: `ccT_1g`.
    ConstCast(TypeHandle, Box<Expression>),
    /// `reinterpret_cast<T>(g)`: `rcT_1g`.
    ReinterpretCast(TypeHandle, Box<Expression>),
    /// `typeid(T)`: `tiT_`.
    TypeidType(TypeHandle),
    /// `typeid(g)`: `te1g`.
    TypeidExpr(Box<Expression>),
    /// `sizeof(T)`: `stT_`.
    SizeofType(TypeHandle),
    /// `sizeof(g)`: `sz1g`.
    SizeofExpr(Box<Expression>),
    /// `alignof(T)`: `atT_`.
    AlignofType(TypeHandle),
    /// `alignof(g)`: `az1g`.
    AlignofExpr(Box<Expression>),
    /// The operator of this name, `noexcept(g)`: `nx1g`.
    Noexcept(Box<Expression>),
    /// A part of an object as a template argument: `soiL_Z1gE4E`.
    Subobject(SubobjectExpr),
    /// A template parameter that is a value, the first: `T_`.
    TemplateParam(TemplateParam),
    /// A parameter of the function, the first: `fp_`.
    FunctionParam(FunctionParam),
    /// A member of an object, `g.x`: `dt1g1x`.
    Member(Box<Expression>, MemberName),
    /// A member behind a pointer, `g->x`: `pt1g1x`.
    DerefMember(Box<Expression>, MemberName),
    /// The member of an object that a pointer to a member selects, `g.*h`: `ds1g1h`.
    PointerToMember(Box<Expression>, Box<Expression>),
    /// How many arguments a pack of template parameters has, `sizeof...(T)`: `sZT_`.
    SizeofTemplatePack(TemplateParam),
    /// How many arguments a pack of function parameters has, that of the first parameter: `sZfp_`.
    SizeofFunctionPack(FunctionParam),
    /// How many arguments a pack has that was handed to an alias template, `sizeof...(int, char)`: `sPicE`.
    SizeofCapturedTemplatePack(Vec<TemplateArg>),
    /// A pattern that is repeated for each element of a pack, `fp...`: `spfp_`.
    PackExpansion(Box<Expression>),
    /// An operator over all elements of a pack, `(... + fp)`: `flplfp_`.
    Fold(FoldExpr),
    /// `throw g`: `tw1g`.
    Throw(Box<Expression>),
    /// `throw` with no operand: `tr`.
    Rethrow,
    /// A name whose meaning depends on template arguments, `T::x`: `srT_1x`.
    UnresolvedName(UnresolvedName),
    /// A literal, or the name of an entity, `1`: `Li1E`.
    Primary(ExprPrimary),
}

/// A name in an expression whose meaning depends on template arguments. ABI section 5.1.6.
///
/// ```text
/// <unresolved-name> ::= [gs] <base-unresolved-name>
///                   ::= sr <unresolved-type> <base-unresolved-name>
///                   ::= srN <unresolved-type> <unresolved-qualifier-level>+ E <base-unresolved-name>
///                   ::= [gs] sr <unresolved-qualifier-level>+ E <base-unresolved-name>
/// ```
#[cycle(nodes)]
#[derive(Drop, Debug)]
pub enum UnresolvedName {
    /// `x`: `1x`.
    Name(BaseUnresolvedName),
    /// `::x`: `gs1x`.
    Global(BaseUnresolvedName),
    /// A name in a type, `T::x`: `srT_1x`; with scopes between, `T::A::x`: `srNT_1AE1x`.
    Nested1(UnresolvedTypeHandle, Vec<UnresolvedQualifierLevel>, BaseUnresolvedName),
    /// A name in scopes alone, `A::x`: `sr1AE1x`.
    Nested2(Vec<UnresolvedQualifierLevel>, BaseUnresolvedName),
    /// `::A::x`: `gssr1AE1x`.
    GlobalNested2(Vec<UnresolvedQualifierLevel>, BaseUnresolvedName),
}

/// One scope of an unresolved name, `A<int>` of `A<int>::x`: `1AIiE`. ABI section 5.1.6.
///
/// ```text
/// <unresolved-qualifier-level> ::= <simple-id>
/// ```
#[cycle(nodes)]
#[derive(Drop, Debug)]
pub struct UnresolvedQualifierLevel(pub SimpleId);

/// An identifier with its template arguments, `A<int>`: `1AIiE`. ABI section 5.1.6.
///
/// ```text
/// <simple-id> ::= <source-name> [<template-args>]
/// ```
#[cycle(nodes)]
#[derive(Drop, Debug)]
pub struct SimpleId(pub SourceName, pub Option<TemplateArgs>);

/// An unresolved name without its scopes. ABI section 5.1.6.
///
/// ```text
/// <base-unresolved-name> ::= <simple-id> | on <operator-name> [<template-args>] | dn <destructor-name>
/// ```
#[cycle(nodes)]
#[derive(Drop, Debug)]
pub enum BaseUnresolvedName {
    /// `x`: `1x`.
    Name(SimpleId),
    /// `operator+<int>`: `onplIiE`.
    Operator(OperatorName, Option<TemplateArgs>),
    /// `~A`: `dn1A`.
    Destructor(DestructorName),
}

/// The type behind the `~` of a destructor in an expression. ABI section 5.1.6.
///
/// ```text
/// <destructor-name> ::= <unresolved-type> | <simple-id>
/// ```
#[cycle(nodes)]
#[derive(Drop, Debug)]
pub enum DestructorName {
    /// `T` of `~T`: `T_`.
    Unresolved(UnresolvedTypeHandle),
    /// `A` of `~A`: `1A`.
    Name(SimpleId),
}

/// A literal, with the place of its value, or the name of an entity. ABI section 5.1.6. The value is every byte up to
/// the `E`.
///
/// ```text
/// <expr-primary> ::= L <type> <value> E | L <mangled-name> E
/// ```
#[cycle(nodes)]
#[derive(Drop, Debug)]
pub enum ExprPrimary {
    /// `-5`: `Lin5E`; `true`: `Lb1E`.
    Literal(TypeHandle, usize, usize),
    /// The variable or function `g`: `L_Z1gE`.
    External(Box<MangledName>),
}

/// An entity inside a function, or, where there is no name, a string literal of the function. ABI section 5.1.7.
///
/// ```text
/// <local-name> ::= Z <function encoding> E <entity name> [<discriminator>]
///              ::= Z <function encoding> E s [<discriminator>]
///              ::= Z <function encoding> E d [<parameter number>] _ <entity name>
/// ```
#[cycle(nodes)]
#[derive(Drop, Debug)]
pub enum LocalName {
    /// `x` of `f()`: `Z1fvE1x`; a string literal of it: `Z1fvEs`.
    Relative(Box<Encoding>, Option<Box<Name>>, Option<Discriminator>),
    /// An entity in the default argument of a parameter, of the last one where no number is written: `Z1fiEd_UlvE_`.
    Default(Box<Encoding>, Option<isize>, Box<Name>),
}

/// What the compiler makes besides functions and variables. ABI section 5.1.4; Java's resources are an addition of one
/// compiler.
///
/// ```text
/// <special-name> ::= TV <type> | TT <type> | TI <type> | TS <type> | TF <type>
///                ::= T <call-offset> <base encoding> | Tc <call-offset> <call-offset> <base encoding>
///                ::= TC <derived type> <offset number> _ <base type>
///                ::= TH <name> | TW <name>
///                ::= GV <object name> | GR <object name> _ | GR <object name> <seq-id> _
///                ::= Gr <length number> _ <resource-name>*
///                ::= GT <any byte but n> <encoding> | GTn <encoding>
/// ```
#[cycle(nodes)]
#[derive(Drop, Debug)]
pub enum SpecialName {
    /// The virtual table of the class `A`: `TV1A`.
    VirtualTable(TypeHandle),
    /// The table of the virtual tables that the constructors of `A` use: `TT1A`.
    Vtt(TypeHandle),
    /// What `typeid(A)` refers to: `TI1A`.
    Typeinfo(TypeHandle),
    /// The text that `typeid(A).name()` answers: `TS1A`.
    TypeinfoName(TypeHandle),
    /// A function that changes `this` and goes on to `A::f()`: `Thn8_N1A1fEv`.
    VirtualOverrideThunk(CallOffset, Box<Encoding>),
    /// One that also changes the pointer or reference that `A::f()` returns: `Tchn8_h8_N1A1fEv`.
    VirtualOverrideThunkCovariant(CallOffset, CallOffset, Box<Encoding>),
    /// The guard that tells whether the static variable `x` of `f()` is initialized: `GVZ1fvE1x`.
    Guard(Name),
    /// A temporary that the reference `x` is bound to, and its number; the first and the second: `GR1x_` and `GR1x0_`.
    GuardTemporary(Name, usize),
    /// The virtual table of `B` while it is constructed as a part of `A`, at offset 8: `TC1A8_1B`.
    ConstructionVtable(TypeHandle, usize, TypeHandle),
    /// A function that answers what `typeid(A)` refers to, as old compilers made it: `TF1A`.
    TypeinfoFunction(TypeHandle),
    /// What initializes the `thread_local` variable `x`: `TH1x`.
    TlsInit(Name),
    /// What a file calls to read the `thread_local` variable `x` of another file: `TW1x`.
    TlsWrapper(Name),
    /// A resource of a Java program, `java/a.png`: `Gr13_java$Sa$_png`.
    JavaResource(Vec<ResourceName>),
    /// The copy of `f()` that runs inside a transaction, as compilers write it: `GTt1fv`.
    TransactionClone(Box<Encoding>),
    /// The copy of `f()` that runs outside transactions: `GTn1fv`.
    NonTransactionClone(Box<Encoding>),
}

/// A part of an object as a template argument: its type, the object, and its offset there. ABI section 5.1.6. The
/// `int` at offset 4 of `g` is `iL_Z1gE4E`.
///
/// ```text
/// <subobject-expr> ::= <referent type> <expression> [<offset number>] E
/// ```
#[cycle(nodes)]
#[derive(Drop, Debug)]
pub struct SubobjectExpr {
    pub ty: TypeHandle,
    pub expr: Box<Expression>,
    pub offset: isize,
}

/// A fold over a parameter pack. ABI section 5.1.6.
///
/// ```text
/// <fold-expr> ::= fl <binary operator-name> <expression> | fr <binary operator-name> <expression>
///             ::= fL <binary operator-name> <expression> <expression>
///             ::= fR <binary operator-name> <expression> <expression>
/// ```
#[cycle(nodes)]
#[derive(Drop, Debug)]
pub enum FoldExpr {
    /// `(... + fp)`: `flplfp_`.
    UnaryLeft(SimpleOperatorName, Box<Expression>),
    /// `(fp + ...)`: `frplfp_`.
    UnaryRight(SimpleOperatorName, Box<Expression>),
    /// `(1 + ... + fp)`: `fLplLi1Efp_`.
    BinaryLeft(SimpleOperatorName, Box<Expression>, Box<Expression>),
    /// `(fp + ... + 1)`: `fRplfp_Li1E`.
    BinaryRight(SimpleOperatorName, Box<Expression>, Box<Expression>),
}
