//! Types: what stands before a name that is declared, and what behind.

/// Types of all kinds, mostly of parameters.
pub static TYPES: [(&str, &str); 33] = [
    ("_Z1fu3foo", "f(foo)"),
    (
        "_Z1fDF16_DF32xDB8_DU9_",
        "f(_Float16, _Float32x, signed _BitInt(8), unsigned _BitInt(9))",
    ),
    ("_Z1fDULi8E_", "f(unsigned _BitInt(8))"),
    ("_Z1fIiEvDBLi8E_", "void f<int>(signed _BitInt(8))"),
    ("_Z1fGf", "f(float imaginary)"),
    ("_Z1fPCf", "f(float complex*)"),
    ("_Z1fU3fooPi", "f(int* foo)"),
    ("_Z1fTs1aTu1bTe1c", "f(class a, union b, enum c)"),
    ("_Z1fOi", "f(int&&)"),
    ("_Z1fDpDv1_c", "f(char __vector(1)...)"),
    (
        "_Z1fILb1EEvPDOT_EFivE",
        "void f<true>(int (*)() noexcept(true))",
    ),
    ("_Z1fPKDoDxFYivRE", "f(int (*)() const & noexcept)"),
    ("PKFvDoFvvEE", "void (*)(void () noexcept) const"),
    ("i", "int"),
    ("PFivE", "int (*)()"),
    ("_Z1fPFPFivEvE", "f(int (*(*)())())"),
    ("_Z1fM1aFivE", "f(int (a::*)())"),
    ("_Z1fM1aKFvN1b1cEE", "f(void (a::*)(b::c) const)"),
    ("_Z1fPM1aFivE", "f(int (a::**)())"),
    (
        "_ZNK1ScvMT0_FT_vEIcS_EEv",
        "S::operator char (S::*)()<char, S>() const",
    ),
    ("_Z1fN1a1bEPNS0_1dE", "f(a::b, a::b::d*)"),
    ("PFPN1a1bEvE", "a::b* (*)()"),
    ("_Z1fIR1aEvOT_", "void f<a&>(a&)"),
    ("_Z1fIO1aEvRT_", "void f<a&&>(a&)"),
    ("_Z1fIR1aEvROT_", "void f<a&>(a&)"),
    ("_Z1fRA10_i", "f(int (&) [10])"),
    ("_Z1fRA3_Ki", "f(int const (&) [3])"),
    ("_Z1fPKA3_A4_Ki", "f(int const const (*) [3][4])"),
    ("_Z1fAszLi1E_i", "f(int [sizeof (1)])"),
    ("A_PFivE", "int (* [])()"),
    ("_Z1fPA3_FivE", "f(int ( (*) [3])())"),
    ("DvLi4E_PFivE", "int (* __vector(4))()"),
    ("_ZNH1a1bEvPFivE", "a::b(this void, int (*)())"),
];

/// Types that are read and printed by themselves.
pub static PLAIN_TYPES: [(&str, &str); 7] = [
    ("Pi", "int*"),
    ("PFivE", "int (*)()"),
    ("PFPFivEvE", "int (*(*)())()"),
    ("RA10_i", "int (&) [10]"),
    ("M1aFivE", "int (a::*)()"),
    ("M1aKFvN1b1cEE", "void (a::*)(b::c) const"),
    ("PPN1a1bE", "a::b**"),
];
