//! Texts of names, under the default options and under others.

use crate::checks::same;
use cpp_demangle::{DemangleOptions, ParseOptions, SymbolFault, demangle_symbol};
use std::alloc::Global;
use std::fmt::Debug;
use std::process::Abort;

/// Functions with one builtin type, each of one letter, in the ABI's order (section 5.1.5.2).
static BUILTINS: [(&[u8], &str); 21] = [
    (b"_Z1fv", "f()"),
    (b"_Z1fw", "f(wchar_t)"),
    (b"_Z1fb", "f(bool)"),
    (b"_Z1fc", "f(char)"),
    (b"_Z1fa", "f(signed char)"),
    (b"_Z1fh", "f(unsigned char)"),
    (b"_Z1fs", "f(short)"),
    (b"_Z1ft", "f(unsigned short)"),
    (b"_Z1fi", "f(int)"),
    (b"_Z1fj", "f(unsigned int)"),
    (b"_Z1fl", "f(long)"),
    (b"_Z1fm", "f(unsigned long)"),
    (b"_Z1fx", "f(long long)"),
    (b"_Z1fy", "f(unsigned long long)"),
    (b"_Z1fn", "f(__int128)"),
    (b"_Z1fo", "f(unsigned __int128)"),
    (b"_Z1ff", "f(float)"),
    (b"_Z1fd", "f(double)"),
    (b"_Z1fe", "f(long double)"),
    (b"_Z1fg", "f(__float128)"),
    (b"_Z1fz", "f(...)"),
];

/// Names of all kinds.
static TEXTS: [(&[u8], &str); 55] = [
    (b"_ZN5space3fooEibc", "space::foo(int, bool, char)"),
    (b"_ZN5space3fooEii", "space::foo(int, int)"),
    (
        b"__Z28JS_GetPropertyDescriptorByIdP9JSContextN2JS6HandleIP8JSObjectEENS2_I4jsidEENS1_13MutableHandleINS1_18\
          PropertyDescriptorEEE",
        "JS_GetPropertyDescriptorById(JSContext*, JS::Handle<JSObject*>, JS::Handle<jsid>, \
         JS::MutableHandle<JS::PropertyDescriptor>)",
    ),
    (b"_Z1fP1aS_", "f(a*, a)"),
    (b"_Z1fP1aS0_", "f(a*, a*)"),
    (b"_Z1fP1a1a", "f(a*, a)"),
    (b"_Z1fP1aP1a", "f(a*, a*)"),
    (
        b"_ZNSt6vectorIiSaIiEE9push_backERKi",
        "std::vector<int, std::allocator<int> >::push_back(int const&)",
    ),
    (b"_Z1fIiEvT_", "void f<int>(int)"),
    (b"_Z1fIR1aEvOT_", "void f<a&>(a&)"),
    (b"_Z1fPFPFivEvE", "f(int (*(*)())())"),
    (b"PFivE", "int (*)()"),
    (b"_Z1fRA10_i", "f(int (&) [10])"),
    (b"_Z1fM1aFivE", "f(int (a::*)())"),
    (b"_Z1fN1a1bEPNS0_1dE", "f(a::b, a::b::d*)"),
    (b"_Z1fIN1a1bEEvRKNT_1cE", "void f<a::b>(a::b::c const&)"),
    (b"_Z1fM1aKFvN1b1cEE", "f(void (a::*)(b::c) const)"),
    (
        b"_ZZ1fvENKUlvE_clEv",
        "f()::{lambda()#1}::operator()() const",
    ),
    (b"_ZN3foo3barS_E", "foo"),
    (b"_ZN3fooME", "foo"),
    (b"_Z1f", "f"),
    (b"i", "int"),
    (b"Pi", "int*"),
    (b"_ZN1a1bEv", "a::b()"),
    (b"_ZN2n0Ei", "n0(int)"),
    (b"_ZN2n12n1EPKcRKd", "n1::n1(char const*, double const&)"),
    (
        b"_ZN2n22n22n2ERKdPFivEi",
        "n2::n2::n2(double const&, int (*)(), int)",
    ),
    (b"_Z1fILin5EEvv", "void f<-5>()"),
    (b"_Z1fILm5EEvv", "void f<(unsigned long)5>()"),
    (b"_ZN3FooC1IiEEi", "Foo::Foo<int>()"),
    (b"_ZTV1a", "{vtable(a)}"),
    (b"_Z1fv.clone.0", "f() [clone .clone.0]"),
    (b"_GLOBAL__I_1f", "global constructors keyed to f"),
    (b"_ZN1acvT_IiEEv", "a::operator int<int>()"),
    (
        b"_Z1fIiEDTplfp_Li1EET_",
        "decltype ({parm#1}+(1)) f<int>(int)",
    ),
    (b"_ZN12_GLOBAL__N_11fEv", "(anonymous namespace)::f()"),
    (b"_ZNH1a1fES_i", "a::f(this a, int)"),
    (
        b"____Z1fv_block_invoke_2",
        "invocation function for block in f()",
    ),
    (b"_ZGr8_a$Sb$_c", "java resource a/b.c"),
    (b"_Z3fooib", "foo(int, bool)"),
    (b"_Z1fvv", "f(void, void)"),
    (b"_Z3i_bib", "i_b(int, bool)"),
    (b"_Z10abcdefghijdz", "abcdefghij(double, ...)"),
    (b"_Z4$a.9c", "$a.9(char)"),
    (b"_Z7_GLOBALv", "_GLOBAL()"),
    (b"_Z6printfPKcz", "printf(char const*, ...)"),
    (b"_Z2\xc3\xa9v", "é()"),
    (b"_Z5a\xe2\x82\xac.i", "a€.(int)"),
    (b"_Z4\xf0\x9f\xa6\x80v", "🦀()"),
    (b"__Z1fv", "f()"),
    (b"_Z1fDd", "f(decimal64)"),
    (b"_ZN1aD0Ev", "a::~a()"),
    (b"_ZStplIcE", "std::operator+<char>"),
    (b"_ZNKSs4sizeEv", "std::string::size() const"),
    (
        b"_ZNSt3mapI1a1bSt4lessIS0_ESaISt4pairIKS0_S1_EEEixERS5_",
        "std::map<a, b, std::less<a>, std::allocator<std::pair<a const, b> > >::operator[](a const&)",
    ),
];

/// Two names, of which one refers to a component that the other spells out again.
static SHARED: [(&[u8], &[u8]); 2] = [(b"_Z1fP1aS0_", b"_Z1fP1aP1a"), (b"_Z1fP1aS_", b"_Z1fP1a1a")];

/// What a name becomes under the default options.
pub(crate) fn demangled(alloc: Global, name: &[u8]) -> Result<String, SymbolFault> {
    let parse = ParseOptions::default();
    demangle_symbol(alloc, name, &parse, &DemangleOptions::default())
}

/// Ends the test where an answer is other than the text or the fault that is wanted.
pub(crate) fn becomes<C: Debug + Drop>(
    rt: &impl Abort,
    case: C,
    answer: Result<String, SymbolFault>,
    wanted: Result<&str, SymbolFault>,
) {
    let found = answer
        .as_ref()
        .map(|text| text.as_str())
        .map_err(|fault| *fault);
    same(rt, case, found, wanted);
}

#[test]
fn names_have_their_texts(rt: HostRuntime) {
    for (name, text) in &BUILTINS {
        becomes(&rt, *name, demangled(rt.alloc(), *name), Ok(*text));
    }
    for (name, text) in &TEXTS {
        becomes(&rt, *name, demangled(rt.alloc(), *name), Ok(*text));
    }
}

#[test]
fn options_leave_out_what_they_say(rt: HostRuntime) {
    let print = DemangleOptions::new();
    for (name, options, text) in [
        (b"_Z1fIiEvT_".as_slice(), print.no_params(), "void f<int>"),
        (
            b"_Z1fIiEvT_".as_slice(),
            print.no_return_type(),
            "f<int>(int)",
        ),
        (
            b"_Z1fILm5EEvv".as_slice(),
            print.hide_expression_literal_types(),
            "void f<5>()",
        ),
        (b"_Z1fv.clone.0".as_slice(), print.no_params(), "f"),
    ] {
        let answer = demangle_symbol(rt.alloc(), name, &ParseOptions::default(), &options);
        becomes(&rt, name, answer, Ok(text));
    }
}

#[test]
fn sharing_is_invisible(rt: HostRuntime) {
    for (shared, spelt) in &SHARED {
        for limit in 1..21 {
            let print = DemangleOptions::new().recursion_limit(limit);
            let one = demangle_symbol(rt.alloc(), *shared, &ParseOptions::default(), &print);
            let other = demangle_symbol(rt.alloc(), *spelt, &ParseOptions::default(), &print);
            same(&rt, (*shared, limit), one, other);
        }
    }
}
