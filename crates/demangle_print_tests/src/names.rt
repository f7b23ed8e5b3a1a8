//! Names, prefixes, operators, constructors, local names and closures, and what stands before and behind a name.

/// Names that differ in what they name.
pub static NAMES: [(&str, &str); 44] = [
    ("_Z1f", "f"),
    ("_ZN5space3fooEii", "space::foo(int, int)"),
    ("_ZN12_GLOBAL__N_11fEv", "(anonymous namespace)::f()"),
    ("_ZSt17__throw_bad_allocv", "std::__throw_bad_alloc()"),
    (
        "_ZNSt6vectorIiSaIiEE9push_backERKi",
        "std::vector<int, std::allocator<int> >::push_back(int const&)",
    ),
    (
        "__Z28JS_GetPropertyDescriptorByIdP9JSContextN2JS6HandleIP8JSObjectEENS2_I4jsidEENS1_13MutableHandleINS1_\
         18PropertyDescriptorEEE",
        "JS_GetPropertyDescriptorById(JSContext*, JS::Handle<JSObject*>, JS::Handle<jsid>, \
         JS::MutableHandle<JS::PropertyDescriptor>)",
    ),
    ("_Z1fP1aS_", "f(a*, a)"),
    ("_Z1fP1aS0_", "f(a*, a*)"),
    ("_Z1fIiEvT_", "void f<int>(int)"),
    ("_Z1fIiEvNT_1aE", "void f<int>(int::a)"),
    ("_Z1fIN1a1bEEvRKNT_1cE", "void f<a::b>(a::b::c const&)"),
    ("_ZN3foo3barS_E", "foo"),
    ("_ZN3fooME", "foo"),
    ("_ZN1AcvT_IiEI1CEEv", "A::operator int<int><C>()"),
    (
        "_ZN1ScvRAT0__T_IiLi42EEEv",
        "S::operator int (&) [42]<int, 42>()",
    ),
    ("_ZN1acvT_IiEEv", "a::operator int<int>()"),
    ("_ZNKO1X1hEv", "X::h() const &&"),
    ("_ZNH1a1fES_i", "a::f(this a, int)"),
    ("_ZNH1iIiEEv", "void i<int>(this )"),
    ("_ZN3FooC1IiEEi", "Foo::Foo<int>()"),
    ("_ZN1AC2Ev", "A::A()"),
    ("_ZNSoC3Ev", "std::ostream::ostream()"),
    ("_ZN1aCI11bEi", "a::b(int)"),
    ("_ZN1aC4Ev", "a::a()"),
    ("_ZN1aC2B1tB1uEi", "a::a[abi:t][abi:u](int)"),
    ("_ZN1aD0Ev", "a::~a()"),
    ("_ZN1AI1BED2Ev", "A<B>::~A()"),
    ("_ZN1aD4Ev", "a::~a()"),
    ("_ZNUt1_D1Ev", "{unnamed type#2}::~{unnamed type#2}()"),
    ("_ZN1aL1bB1tEv", "a::b[abi:t]()"),
    (
        "_ZNK7Members1xMUlvE_clEv",
        "Members::x::{lambda()#1}::operator()() const",
    ),
    (
        "_ZZ1fvENKUlvE_clEv",
        "f()::{lambda()#1}::operator()() const",
    ),
    ("_ZN1aUlPT_T0_E_E", "a::{lambda(auto:1*, auto:2)#1}"),
    ("_ZZ1fvEN1aC1Ev", "f()::a::a()"),
    ("_ZZ1fIiEvT_Es", "void f<int>(int)::string literal"),
    ("_ZZ2ff3ct1IiEiEd_NKUliE_clEi", "ff(ct1<int>, int)(int)"),
    (
        "_Z1fI1SENDtfp_E4typeET_",
        "decltype ({parm#1})::type f<S>(S)",
    ),
    ("_ZlsIiEii", "int operator<< <int>(int)"),
    ("_Znam", "operator new[](unsigned long)"),
    ("_Zli3_abv", "operator_ab::operator \"\"()"),
    ("_Z1fv.clone.0", "f() [clone .clone.0]"),
    (
        "____Z1fv_block_invoke_2",
        "invocation function for block in f()",
    ),
    ("_GLOBAL__I_1f", "global constructors keyed to f"),
    ("_GLOBAL_$D__Z1fv", "global destructors keyed to f()"),
];
