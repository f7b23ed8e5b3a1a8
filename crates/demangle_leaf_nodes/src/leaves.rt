//! The node types that hold no name, type or expression by value: numbers, places in the input, references, and what
//! is made of these alone.
//!
//! A place is the index of its first byte and the index behind its last byte, both in the input that was read.
//!
//! Beside each type stands its production, in the BNF of the Itanium C++ ABI. An example shows C++ and the bytes that
//! are read as this node.

ghost use Rattle.std.specs.Prelude.{◌≡◌, false};

use demangle_vocab::{
    ExplicitObjectParameter, RefQualifier, SimpleOperatorName, StandardBuiltinType,
    WellKnownComponent,
};

/// A number in a mangled name, from -(2^63 - 1) to 2^63 - 1. ABI section 5.1.2. -8 is `n8`.
///
/// ```text
/// <number> ::= [n] <non-negative decimal integer>
/// ```
pub type Number = isize;

/// An entry of the second list of the substitution table, by its position there. No production has it, since no number
/// refers to that list. It holds the last prefix of a nested name, which is the whole name; the name of a member
/// template; and the width of a `_BitInt` type, where that is an expression. The original's type of this name.
#[derive(Clone, Copy, Debug)]
pub struct NonSubstitution(pub usize);

/// The number of a substitution as it is written, in base 36. ABI section 5.1.10. 35 is `Z`, and 36 is `10`.
///
/// ```text
/// <seq-id> ::= <0-9A-Z>+
/// ```
#[derive(Clone, Copy, Debug)]
pub struct SeqId(pub usize);

/// A template parameter by its position, from 0. ABI section 5.1.5.8. The first is `T_`, the second `T0_`.
///
/// ```text
/// <template-param> ::= T_ | T <parameter-2 non-negative number> _
/// ```
#[derive(Clone, Copy, Debug)]
pub struct TemplateParam(pub usize);

/// Tells local entities of one name apart. ABI section 5.1.7. 2 is `_2`, and 10 is `__10_`.
///
/// ```text
/// <discriminator> ::= _ <non-negative number>      # below 10
///                 ::= __ <non-negative number> _   # from 10 on
/// ```
#[derive(Clone, Copy, Debug)]
pub struct Discriminator(pub usize);

/// The place of an identifier. ABI section 5.1.2. `foo` is `foo`.
///
/// ```text
/// <identifier> ::= <unqualified source code identifier>
/// ```
#[derive(Clone, Copy, Debug)]
pub struct Identifier {
    pub start: usize,
    pub end: usize,
}

/// The place of the word after the first `.` of a clone suffix, as compilers append it: `cold` of `_Z1fv.cold`. The
/// original's type of this name.
///
/// ```text
/// <clone-type-identifier> ::= <unqualified source code identifier>
/// ```
#[derive(Clone, Copy, Debug)]
pub struct CloneTypeIdentifier {
    pub start: usize,
    pub end: usize,
}

/// The place of one component of a Java resource, with the escape that ends it: `$S` is `/`, `$_` is `.`, and `$$` is
/// `$`. The original's type of this name. `java/` is `java$S`.
///
/// ```text
/// <resource-name> ::= <bytes without $> [$S | $_ | $$]
/// ```
#[derive(Clone, Copy, Debug)]
pub struct ResourceName {
    pub start: usize,
    pub end: usize,
}

/// An identifier that was written with its length. ABI section 5.1.2. `foo` is `3foo`.
///
/// ```text
/// <source-name> ::= <positive length number> <identifier>
/// ```
#[derive(Clone, Copy, Debug)]
pub struct SourceName(pub Identifier);

/// One ABI tag, `[abi:cxx11]`: `B5cxx11`. ABI section 5.1.2.
///
/// ```text
/// <abi-tag> ::= B <source-name>
/// ```
#[derive(Clone, Copy, Debug)]
pub struct AbiTag(pub SourceName);

/// The ABI tags of a name, in the order in which they are written, `[abi:a][abi:b]`: `B1aB1b`. ABI section 5.1.2.
///
/// ```text
/// <abi-tags> ::= <abi-tag>*
/// ```
#[derive(Drop, Debug)]
pub struct AbiTags(pub Vec<AbiTag>);

/// The member whose initializer is the scope of a closure. ABI section 5.1.7. `x` is `1xM`.
///
/// ```text
/// <data-member-prefix> ::= <source-name> M
/// ```
#[derive(Clone, Copy, Debug)]
pub struct DataMemberPrefix(pub SourceName);

/// What a compiler appends to the name of a copy of a function: a word and numbers, ` [clone .part.0]`: `.part.0`. The
/// original's type of this name.
///
/// ```text
/// <clone-suffix> ::= . <clone-type-identifier> {. <non-negative number>}*
/// ```
#[derive(Drop, Debug)]
pub struct CloneSuffix(pub CloneTypeIdentifier, pub Vec<isize>);

/// `restrict`, `volatile` and `const`: `rVK`. ABI section 5.1.5.1.
///
/// ```text
/// <CV-qualifiers> ::= [r] [V] [K]
/// ```
#[derive(Clone, Copy, Debug)]
pub struct CvQualifiers {
    pub restrict: bool,
    pub volatile: bool,
    pub const_: bool,
}

impl Default for CvQualifiers {
    /// No qualifier.
    fn default() -> CvQualifiers
        ensures { result ≡ record { restrict = false; volatile = false; const_ = false } }
    {
        CvQualifiers {
            restrict: false,
            volatile: false,
            const_: false,
        }
    }
}

/// A fixed offset of a thunk. ABI section 5.1.4.2. -8 is `n8`.
///
/// ```text
/// <nv-offset> ::= <offset number>
/// ```
#[derive(Clone, Copy, Debug)]
pub struct NvOffset(pub isize);

/// A fixed and a virtual offset of a thunk. ABI section 5.1.4.2. 0 and -24 are `0_n24`.
///
/// ```text
/// <v-offset> ::= <offset number> _ <virtual offset number>
/// ```
#[derive(Clone, Copy, Debug)]
pub struct VOffset(pub isize, pub isize);

/// How a thunk changes `this` or the result. ABI section 5.1.4.2.
///
/// ```text
/// <call-offset> ::= h <nv-offset> _ | v <v-offset> _
/// ```
#[derive(Clone, Copy, Debug)]
pub enum CallOffset {
    /// By a constant, as for a base that isn't virtual: `hn8_`.
    NonVirtual(NvOffset),
    /// By a constant and a number in the virtual table, as for a virtual base: `v0_n24_`.
    Virtual(VOffset),
}

/// A parameter of the function that is declared, or of one around it: the number behind `fL` as it is written, one
/// less than the scopes between, and 0 for `fp`; its qualifiers; and its position, where `None` is `this`. ABI section
/// 5.1.5.9. The first is `fp_`, the second `fp0_`, and `this` is `fpT`.
///
/// ```text
/// <function-param> ::= fp <CV-qualifiers> _ | fp <CV-qualifiers> <parameter-2 non-negative number> _
///                  ::= fL <L-1 non-negative number> p <CV-qualifiers> _
///                  ::= fL <L-1 non-negative number> p <CV-qualifiers> <parameter-2 non-negative number> _
///                  ::= fp <CV-qualifiers> T | fL <number> p <CV-qualifiers> T
/// ```
#[derive(Clone, Copy, Debug)]
pub struct FunctionParam(pub usize, pub CvQualifiers, pub Option<usize>);

/// A template template parameter, `T` of `T<int>`: `T_`. ABI section 5.1.5.8.
///
/// ```text
/// <template-template-param> ::= <template-param>
/// ```
#[derive(Clone, Copy, Debug)]
pub struct TemplateTemplateParam(pub TemplateParam);

/// A type without a name, and its number where one is written. ABI section 5.1.7. The first is `Ut_`, the second
/// `Ut0_`.
///
/// ```text
/// <unnamed-type-name> ::= Ut [<non-negative number>] _
/// ```
#[derive(Clone, Copy, Debug)]
pub struct UnnamedTypeName(pub Option<usize>);

/// A component by its number, or one of the abbreviated names of `std`. ABI section 5.1.10.
///
/// ```text
/// <substitution> ::= S_ | S <seq-id> _
///                ::= St | Sa | Sb | Ss | Si | So | Sd
/// ```
#[derive(Clone, Copy, Debug)]
pub enum Substitution {
    /// An entry of the table's first list, by its position; it must be there. The first is `S_`, the second `S0_`.
    BackReference(usize),
    /// `std::string`: `Ss`.
    WellKnown(WellKnownComponent),
}

/// A reference to a prefix. ABI section 5.1.2; the prefixes themselves stand in the table.
///
/// ```text
/// <prefix> ::= <unqualified-name> | <prefix> <unqualified-name> | <template-prefix> <template-args>
///          ::= <template-param> | <decltype> | <prefix> <data-member-prefix> | <substitution>
/// ```
#[derive(Clone, Copy, Debug)]
pub enum PrefixHandle {
    /// `std` of `std::f`, `St` of `NSt1fE`; `std::string`: `Ss`.
    WellKnown(WellKnownComponent),
    /// An entry of the table's first list: `a` of `a::f`, `1a` of `N1a1fE`.
    BackReference(usize),
    /// An entry of the second list: a whole name, which ends at the `E`, as `a::f` of `N1a1fE`.
    NonSubstitution(NonSubstitution),
}

/// A reference to the name of a template outside of a nested name. ABI section 5.1.2.
///
/// ```text
/// <unscoped-template-name> ::= <unscoped-name> | <substitution>
/// ```
#[derive(Clone, Copy, Debug)]
pub enum UnscopedTemplateNameHandle {
    /// `std::allocator` of `std::allocator<int>`: `Sa`.
    WellKnown(WellKnownComponent),
    /// An entry of the table's first list: `f` of `f<int>`, `1f`.
    BackReference(usize),
    /// An entry of the second list: the name of a member template, `b` of `x.b<int>`.
    NonSubstitution(NonSubstitution),
}

/// A reference to a template template parameter. ABI section 5.1.5.8.
///
/// ```text
/// <template-template-param> ::= <template-param> | <substitution>
/// ```
#[derive(Clone, Copy, Debug)]
pub enum TemplateTemplateParamHandle {
    /// One of the abbreviated names of `std`: `Sa`.
    WellKnown(WellKnownComponent),
    /// An entry of the table's first list: `T_`.
    BackReference(usize),
}

/// A reference to a type that is given by a template parameter or a `decltype` alone. ABI section 5.1.6.
///
/// ```text
/// <unresolved-type> ::= <template-param> [<template-args>] | <decltype> | <substitution>
/// ```
#[derive(Clone, Copy, Debug)]
pub enum UnresolvedTypeHandle {
    /// One of the abbreviated names of `std`: `Ss`.
    WellKnown(WellKnownComponent),
    /// An entry of the table's first list: `T_`.
    BackReference(usize),
}

/// A reference to a type, or a type that has no entry in the table. ABI section 5.1.5; the other types stand in the
/// table.
///
/// ```text
/// <type> ::= <builtin-type> | <CV-qualifiers> <type> | <class-enum-type> | <function-type> | <array-type>
///        ::= <vector-type> | <pointer-to-member-type> | <template-param> | <template-template-param> <template-args>
///        ::= <decltype> | P <type> | R <type> | O <type> | C <type> | G <type> | Dp <type>
///        ::= U <source-name> [<template-args>] <type> | <substitution>
/// ```
#[derive(Clone, Copy, Debug)]
pub enum TypeHandle {
    /// `std::string`: `Ss`.
    WellKnown(WellKnownComponent),
    /// An entry of the table's first list: `int*`, `Pi`.
    BackReference(usize),
    /// `int`: `i`.
    Builtin(BuiltinType),
    /// No reading makes one.
    QualifiedBuiltin(QualifiedBuiltin),
}

/// A type of the language. ABI section 5.1.5.2.
///
/// ```text
/// <builtin-type> ::= v | w | b | c | ..   # a word of the table
///                ::= DF .. | DB .. | DU ..   # one with a width
///                ::= u <source-name>
/// ```
#[derive(Clone, Copy, Debug)]
pub enum BuiltinType {
    /// `int`: `i`.
    Standard(StandardBuiltinType),
    /// `_Float64`: `DF64_`.
    Parametric(ParametricBuiltinType),
    /// A compiler's own type, `__bf16`: `u6__bf16`.
    Extension(SourceName),
}

/// A builtin type under qualifiers. No reading makes one: a qualified builtin type has an entry in the table. The
/// original's type of this name.
#[derive(Clone, Copy, Debug)]
pub struct QualifiedBuiltin(pub CvQualifiers, pub BuiltinType);

/// A builtin type with a width in bits. A width that is an expression is an entry of the table's second list. ABI
/// section 5.1.5.2.
///
/// ```text
/// <builtin-type> ::= DF <number> _ | DF <number> x
///                ::= DB <number> _ | DB <instantiation-dependent expression> _
///                ::= DU <number> _ | DU <instantiation-dependent expression> _
/// ```
#[derive(Clone, Copy, Debug)]
pub enum ParametricBuiltinType {
    /// `_Float64`: `DF64_`.
    FloatN(Number),
    /// `_Float64x`: `DF64x`.
    FloatNx(Number),
    /// `signed _BitInt(9)`: `DB9_`.
    SignedBitInt(Number),
    /// `unsigned _BitInt(9)`: `DU9_`.
    UnsignedBitInt(Number),
    /// `signed _BitInt(N)`, of a template parameter: `DBT__`.
    SignedBitIntExpression(NonSubstitution),
    /// `unsigned _BitInt(N)`, of a template parameter: `DUT__`.
    UnsignedBitIntExpression(NonSubstitution),
}

/// The name of an operator. ABI section 5.1.3.
///
/// ```text
/// <operator-name> ::= nw | na | dl | ..   # a word of the table
///                 ::= cv <type> | li <source-name> | v <digit> <source-name>
/// ```
#[derive(Clone, Copy, Debug)]
pub enum OperatorName {
    /// A word of the table of operators, `operator+`: `pl`.
    Simple(SimpleOperatorName),
    /// A cast in an expression. No reading makes one: a cast is a conversion expression.
    Cast(TypeHandle),
    /// A conversion to a type, `operator int`: `cvi`.
    Conversion(TypeHandle),
    /// The suffix of a literal, `operator ""_w`: `li2_w`.
    Literal(SourceName),
    /// A compiler's own operator, with the number of its operands, from 0 to 9, `operator foo`: `v23foo`.
    VendorExtension(u8, SourceName),
}

/// A constructor, with the type that it is inherited from, or a destructor. ABI section 5.1.4.3. A class has several
/// of each: one constructs a whole object, another only the part of an object that is a base.
///
/// ```text
/// <ctor-dtor-name> ::= C1 | C2 | C3 | CI1 <base class type> | CI2 <base class type> | D0 | D1 | D2
///                  ::= C4 | CI3 <base class type> | CI4 <base class type> | D4   # additions of compilers
/// ```
#[derive(Clone, Copy, Debug)]
pub enum CtorDtorName {
    /// Constructs a whole object: `C1`; inherited from `B`: `CI11B`.
    CompleteConstructor(Option<TypeHandle>),
    /// Constructs a base of an object: `C2`; inherited from `B`: `CI21B`.
    BaseConstructor(Option<TypeHandle>),
    /// Allocates a whole object and constructs it: `C3`.
    CompleteAllocatingConstructor(Option<TypeHandle>),
    /// One body for both, which compilers make in addition to the others: `C4`.
    MaybeInChargeConstructor(Option<TypeHandle>),
    /// Destroys a whole object and frees it: `D0`.
    DeletingDestructor,
    /// Destroys a whole object: `D1`.
    CompleteDestructor,
    /// Destroys a base of an object: `D2`.
    BaseDestructor,
    /// One body for all, which compilers make in addition to the others: `D4`.
    MaybeInChargeDestructor,
}

/// The types of a signature, the first of them the result where one is written, `int (char)`: `ic`. ABI section
/// 5.1.5.3.
///
/// ```text
/// <bare-function-type> ::= <signature type>+
/// ```
#[derive(Drop, Debug)]
pub struct BareFunctionType(pub Vec<TypeHandle>);

/// The parameter types of a closure, none for `v`. ABI section 5.1.8. `int, char` is `ic`.
///
/// ```text
/// <lambda-sig> ::= <parameter type>+ | v
/// ```
#[derive(Drop, Debug)]
pub struct LambdaSig(pub Vec<TypeHandle>);

/// A closure: its parameter types, and its number where one is written, `{lambda(int)#1}`: `UliE_`. ABI section 5.1.8.
///
/// ```text
/// <closure-type-name> ::= Ul <lambda-sig> E [<non-negative number>] _
/// ```
#[derive(Drop, Debug)]
pub struct ClosureTypeName(pub LambdaSig, pub Option<usize>);

/// A pointer to a member: the class, and the type of the member, `int A::*`: `M1Ai`. ABI section 5.1.5.6.
///
/// ```text
/// <pointer-to-member-type> ::= M <class type> <member type>
/// ```
#[derive(Clone, Copy, Debug)]
pub struct PointerToMemberType(pub TypeHandle, pub TypeHandle);

/// A name without its scope. ABI section 5.1.2.
///
/// ```text
/// <unqualified-name> ::= [on] <operator-name> [<abi-tags>] | <ctor-dtor-name> [<abi-tags>]
///                    ::= <source-name> [<abi-tags>] | L <source-name> [<discriminator>] [<abi-tags>]
///                    ::= <unnamed-type-name> [<abi-tags>] | <closure-type-name> [<abi-tags>]
/// ```
#[derive(Drop, Debug)]
pub enum UnqualifiedName {
    /// `operator+`: `pl`.
    Operator(OperatorName, AbiTags),
    /// A constructor: `C1`.
    CtorDtor(CtorDtorName, AbiTags),
    /// `foo`, and `foo[abi:v1]`: `3foo` and `3fooB2v1`.
    Source(SourceName, AbiTags),
    /// A name that only its own file sees, `static int x;`: `L1x`.
    LocalSourceName(SourceName, Option<Discriminator>, AbiTags),
    /// `{unnamed type#1}`: `Ut_`.
    UnnamedType(UnnamedTypeName, AbiTags),
    /// `{lambda(int)#1}`: `UliE_`.
    ClosureType(ClosureTypeName, AbiTags),
}

/// A name of the global scope or of `std`. ABI section 5.1.2.
///
/// ```text
/// <unscoped-name> ::= <unqualified-name> | St <unqualified-name>
/// ```
#[derive(Drop, Debug)]
pub enum UnscopedName {
    /// `foo`: `3foo`.
    Unqualified(UnqualifiedName),
    /// `std::foo`: `St3foo`.
    Std(UnqualifiedName),
}

/// The name of a template outside of a nested name, `f` of `f<int>`: `1f`. ABI section 5.1.2.
///
/// ```text
/// <unscoped-template-name> ::= <unscoped-name>
/// ```
#[derive(Drop, Debug)]
pub struct UnscopedTemplateName(pub UnscopedName);

/// A name inside classes or namespaces. The explicit-object forms are those of a member function that declares its
/// object as its first parameter, with `this` before it. ABI section 5.1.2.
///
/// ```text
/// <nested-name> ::= N [<CV-qualifiers>] [<ref-qualifier>] <prefix> <unqualified-name> E
///               ::= N [<CV-qualifiers>] [<ref-qualifier>] <template-prefix> <template-args> E
///               ::= N H <prefix> <unqualified-name> E | N H <template-prefix> <template-args> E
/// ```
#[derive(Drop, Debug)]
pub enum NestedName {
    /// `A::f`: `N1A1fE`; of a member function that is `const`: `NK1A1fE`.
    Unqualified(CvQualifiers, Option<RefQualifier>, Option<PrefixHandle>, UnqualifiedName),
    /// `A::f<int>`: `N1A1fIiEE`.
    Template(CvQualifiers, Option<RefQualifier>, PrefixHandle),
    /// `A::f` of `f(this A)`: `NH1A1fE`.
    UnqualifiedExplicitObject(Option<PrefixHandle>, UnqualifiedName, ExplicitObjectParameter),
    /// `A::f<int>` of `f(this A)`: `NH1A1fIiEE`.
    TemplateExplicitObject(PrefixHandle, ExplicitObjectParameter),
}
