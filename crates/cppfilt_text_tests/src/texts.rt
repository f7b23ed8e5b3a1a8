//! Texts, and what becomes of them.

/// A text, and the text with its names replaced.
pub(crate) static TEXTS: [(&[u8], &[u8]); 20] = [
    (b"", b""),
    (b"at _Z1fv+0x10 in _ZN1a1bEv.", b"at f()+0x10 in a::b()."),
    (b"_Z1fv", b"f()"),
    (b"_Z1fv.clone.0 x", b"f() [clone .clone.0] x"),
    (b"x_Z1fv", b"x_Z1fv"),
    (
        b"$_Z1fv ._Z1fv _Z1fv. _Z1fv...",
        b"$_Z1fv ._Z1fv f(). f()...",
    ),
    (b"__Z1fv,___Z1fv,_Z1fT_,_Z", b"f(),___Z1fv,_Z1fT_,_Z"),
    (b"_Z1f\xc3\xa9v", b"f\xc3\xa9v"),
    (b"\xff\xfe\0_Z1fv\r\n", b"\xff\xfe\0f()\r\n"),
    (b"(_Z1fv)<_Z1gi>[_Z1hPKc]", b"(f())<g(int)>[h(char const*)]"),
    (
        b"_GLOBAL__I_1f:_GLOBAL_",
        b"global constructors keyed to f:_GLOBAL_",
    ),
    (b"foo_bar _baz __qux _", b"foo_bar _baz __qux _"),
    (b"a _Z1fv\nb _Z1gv\n\nc", b"a f()\nb g()\n\nc"),
    (b"0000000000001139 T _Z1fv", b"0000000000001139 T f()"),
    (
        b"  113d:\tcall   1139 <_Z1fv>",
        b"  113d:\tcall   1139 <f()>",
    ),
    (b"\tjmp _ZN1a1bEv@plt", b"\tjmp a::b()@plt"),
    (b"/usr/bin/x(_Z1fv+0x4) [0x1]", b"/usr/bin/x(f()+0x4) [0x1]"),
    (b"../lib_Z1fv.so", b"../lib_Z1fv.so"),
    (b"_Z1fv_Z1gv", b"_Z1fv_Z1gv"),
    (
        b"................................ _Z1fv",
        b"................................ f()",
    ),
];
