//! The node types above names and expressions: types, prefixes, and the entries of the substitution table.
//!
//! Beside each type stands its production, in the BNF of the Itanium C++ ABI. An example shows C++ and the bytes that
//! are read as this node. In it `g` is an object or a function, and `T` the first template parameter.

use demangle_leaf_nodes::{
    BareFunctionType, CvQualifiers, DataMemberPrefix, PointerToMemberType, PrefixHandle,
    SourceName, TemplateParam, TemplateTemplateParam, TemplateTemplateParamHandle, TypeHandle,
    UnqualifiedName, UnscopedTemplateName,
};
use demangle_nodes::{Expression, Name, TemplateArgs};
use demangle_vocab::RefQualifier;

/// `decltype` of an expression. ABI section 5.1.5.
///
/// ```text
/// <decltype> ::= Dt <expression> E | DT <expression> E
/// ```
#[derive(Drop, Debug)]
pub enum Decltype {
    /// Of a name or a member access: the type that it was declared with, `decltype(g)`: `Dt1gE`.
    IdExpression(Box<Expression>),
    /// Of another expression, `decltype(g())`: `DTcl1gEE`.
    Expression(Box<Expression>),
}

/// A scope, or a name with its scope, inside a nested name. ABI section 5.1.2.
///
/// ```text
/// <prefix> ::= <unqualified-name> | <prefix> <unqualified-name> | <template-prefix> <template-args>
///          ::= <template-param> | <decltype> | <prefix> <data-member-prefix> | <substitution>
/// <template-prefix> ::= <template unqualified-name> | <prefix> <template unqualified-name>
///                   ::= <template-param> | <substitution>
/// ```
#[derive(Drop, Debug)]
pub enum Prefix {
    /// `a` of `a::b::f`: `1a`.
    Unqualified(UnqualifiedName),
    /// `a::b` of `a::b::f`: `1a1b`.
    Nested(PrefixHandle, UnqualifiedName),
    /// `a<int>` of `a<int>::f`: `1aIiE`.
    Template(PrefixHandle, TemplateArgs),
    /// `T` of `T::f`: `T_`.
    TemplateParam(TemplateParam),
    /// `decltype(g)` of `decltype(g)::f`: `Dt1gE`.
    Decltype(Decltype),
    /// The member `x` of `a`, in whose initializer a closure stands: `1a1xM`.
    DataMember(PrefixHandle, DataMemberPrefix),
}

/// An array: its length, and the type of its elements. ABI section 5.1.5.5.
///
/// ```text
/// <array-type> ::= A <positive dimension number> _ <element type>
///              ::= A [<dimension expression>] _ <element type>
/// ```
#[derive(Drop, Debug)]
pub enum ArrayType {
    /// `int [3]`: `A3_i`.
    DimensionNumber(usize, TypeHandle),
    /// A length that depends on template arguments, `int [T]`: `AT__i`.
    DimensionExpression(Box<Expression>, TypeHandle),
    /// `int []`: `A_i`.
    NoDimension(TypeHandle),
}

/// A vector, an extension of compilers: its length, and the type of its elements. ABI section 5.1.5.
///
/// ```text
/// <vector-type> ::= Dv <number> _ <type> | Dv <expression> _ <type>
/// ```
#[derive(Drop, Debug)]
pub enum VectorType {
    /// `float __vector(4)`: `Dv4_f`.
    DimensionNumber(usize, TypeHandle),
    /// A length that depends on template arguments, `float __vector(T)`: `DvT__f`.
    DimensionExpression(Box<Expression>, TypeHandle),
}

/// A class, a union or an enumeration. ABI section 5.1.5.4.
///
/// ```text
/// <class-enum-type> ::= <name> | Ts <name> | Tu <name> | Te <name>
/// ```
#[derive(Drop, Debug)]
pub enum ClassEnumType {
    /// `A`: `1A`.
    Named(Box<Name>),
    /// `struct A`, or `class A`: `Ts1A`.
    ElaboratedStruct(Box<Name>),
    /// `union A`: `Tu1A`.
    ElaboratedUnion(Box<Name>),
    /// `enum A`: `Te1A`.
    ElaboratedEnum(Box<Name>),
}

/// What a function's type says of exceptions. ABI section 5.1.5.3.
///
/// ```text
/// <exception-spec> ::= Do | DO <expression> E
/// ```
#[derive(Drop, Debug)]
pub enum ExceptionSpec {
    /// `noexcept`: `Do`.
    NoExcept,
    /// A condition that depends on template arguments, `noexcept(T)`: `DOT_E`.
    Computed(Box<Expression>),
}

/// The type of a function, `int (char)`: `FicE`. ABI section 5.1.5.3. `Dx` says that a transaction may call it, and
/// `Y` that it has C linkage.
///
/// ```text
/// <function-type> ::= [<CV-qualifiers>] [<exception-spec>] [Dx] F [Y] <bare-function-type> [<ref-qualifier>] E
/// ```
#[derive(Drop, Debug)]
pub struct FunctionType {
    pub cv_qualifiers: CvQualifiers,
    pub exception_spec: Option<ExceptionSpec>,
    pub transaction_safe: bool,
    pub extern_c: bool,
    pub bare: BareFunctionType,
    pub ref_qualifier: Option<RefQualifier>,
}

/// A type that has an entry in the table. ABI section 5.1.5.
///
/// ```text
/// <type> ::= <function-type> | <class-enum-type> | <array-type> | <vector-type> | <pointer-to-member-type>
///        ::= <template-param> | <template-template-param> <template-args> | <decltype>
///        ::= <CV-qualifiers> <type> | U <source-name> [<template-args>] <type>
///        ::= P <type> | R <type> | O <type> | C <type> | G <type> | Dp <type>
/// ```
#[derive(Drop, Debug)]
pub enum TypeNode {
    /// `int (char)`: `FicE`.
    Function(FunctionType),
    /// `A`: `1A`.
    ClassEnum(ClassEnumType),
    /// `int [3]`: `A3_i`.
    Array(ArrayType),
    /// `float __vector(4)`: `Dv4_f`.
    Vector(VectorType),
    /// `int A::*`: `M1Ai`.
    PointerToMember(PointerToMemberType),
    /// `T`: `T_`.
    TemplateParam(TemplateParam),
    /// A template parameter with arguments, `T<int>`: `T_IiE`.
    TemplateTemplate(TemplateTemplateParamHandle, TemplateArgs),
    /// `decltype(g)`: `Dt1gE`.
    Decltype(Decltype),
    /// `const int`: `Ki`.
    Qualified(CvQualifiers, TypeHandle),
    /// A type with a compiler's own qualifier, `char AS1`: `U3AS1c`.
    VendorExtension(SourceName, Option<TemplateArgs>, TypeHandle),
    /// `int*`: `Pi`.
    PointerTo(TypeHandle),
    /// `int&`: `Ri`.
    LvalueRef(TypeHandle),
    /// `int&&`: `Oi`.
    RvalueRef(TypeHandle),
    /// A complex number in C, `float _Complex`: `Cf`.
    Complex(TypeHandle),
    /// An imaginary number in C, `float _Imaginary`: `Gf`.
    Imaginary(TypeHandle),
    /// A pattern that is repeated for each element of a pack, `T...`: `DpT_`.
    PackExpansion(TypeHandle),
}

/// A type that is given by a template parameter or a `decltype` alone. ABI section 5.1.6.
///
/// ```text
/// <unresolved-type> ::= <template-param> [<template-args>] | <decltype>
/// ```
#[derive(Drop, Debug)]
pub enum UnresolvedType {
    /// `T`, and `T<int>`: `T_` and `T_IiE`.
    Template(TemplateParam, Option<TemplateArgs>),
    /// `decltype(g)`: `Dt1gE`.
    Decltype(Decltype),
}

/// An entry of the substitution table. ABI section 5.1.10.
///
/// ```text
/// <substitution> ::= S_ | S <seq-id> _
/// ```
#[derive(Drop, Debug)]
pub enum Substitutable {
    /// The name of a template, `f` of `f<int>`: `1f`.
    UnscopedTemplateName(UnscopedTemplateName),
    /// A type, `int*`: `Pi`.
    TypeNode(TypeNode),
    /// A template parameter that has arguments, `T` of `T<int>`: `T_`.
    TemplateTemplateParam(TemplateTemplateParam),
    /// The scope of an unresolved name, `T` of `T::x`: `T_`.
    UnresolvedType(UnresolvedType),
    /// A scope, `a` of `a::f`: `1a`.
    Prefix(Prefix),
    /// The width of a `_BitInt` type, which stands only in the second list, `T` of `_BitInt(T)`: `T_`.
    Expression(Box<Expression>),
}
