//! Literals, expressions, and the names in them.

/// Expressions of all kinds, mostly in results.
pub static EXPRESSIONS: [(&str, &str); 52] = [
    ("_Z1fILin5EEvv", "void f<-5>()"),
    ("_Z1fILm5EEvv", "void f<(unsigned long)5>()"),
    ("_Z1fILb0EEvv", "void f<false>()"),
    ("_Z1fILDn0EEvv", "void f<nullptr>()"),
    ("_Z1fILdEEvv", "void f<(double)[]>()"),
    ("_Z1fIL_Z1gvEEvv", "void f<g()>()"),
    (
        "_Z1fIJiLi1EXstiE1aEEvv",
        "void f<int, 1, sizeof (int), a>()",
    ),
    (
        "_Z1fIiEDTplfp_Li1EET_",
        "decltype ({parm#1}+(1)) f<int>(int)",
    ),
    ("DTpptrE", "decltype ((throw)++)"),
    ("_Z1fIiEDTpp_T_ET_", "decltype (++int) f<int>(int)"),
    ("_Z1fIiEDTmm_T_ET_", "decltype (--int) f<int>(int)"),
    (
        "_Z1fIiEDTquL_Z1bEfp_twLi42EET_",
        "decltype (b?{parm#1} : (throw 42)) f<int>(int)",
    ),
    (
        "_Z1fIiEDTcl1gfp_Li2EEET_",
        "decltype ((g)({parm#1}, 2)) f<int>(int)",
    ),
    (
        "_Z1fIiEDTv12_xfp_ET_",
        "decltype (_x::operator 1{parm#1}) f<int>(int)",
    ),
    (
        "_ZN5test73fC1IiEEDTcmtlNS_1CEilLi1ELi2EEEcvT__EES2_",
        "decltype ((test7::C{{1, 2}}),(int())) test7::fC1<int>(int)",
    ),
    (
        "_ZN5test73fT4IiEEDTcvT_Li1EES1_",
        "decltype ((int)(1)) test7::fT4<int>(int)",
    ),
    (
        "_Z1fIiEDTgsnwLi1ELi2E_T_piEET_",
        "decltype (::new (1, 2) int()) f<int>(int)",
    ),
    ("_Z1fIiEDTnw_T_EET_", "decltype (new () int) f<int>(int)"),
    ("_Z1fIiEDTna_T_EET_", "decltype (new[] () int) f<int>(int)"),
    (
        "_Z1fIiEDTgsna_iEET_",
        "decltype (::new[] () int) f<int>(int)",
    ),
    (
        "_Z1fIiEDTdlfp_ET_",
        "decltype (delete {parm#1}) f<int>(int)",
    ),
    (
        "_Z1fIiEDTdafp_ET_",
        "decltype (delete[] {parm#1}) f<int>(int)",
    ),
    (
        "_Z1fIiEDTgsdlfp_ET_",
        "decltype (::delete {parm#1}) f<int>(int)",
    ),
    (
        "_Z1fIiEDTgsdafp_ET_",
        "decltype (::delete[] {parm#1}) f<int>(int)",
    ),
    (
        "_Z1fIiEDTdcT_fp_ET_",
        "decltype (dynamic_cast<int>({parm#1})) f<int>(int)",
    ),
    (
        "_Z1gILi1EEvR1AIXT_EER1BIXscbT_EE",
        "void g<1>(A<1>&, B<static_cast<bool>(1)>&)",
    ),
    (
        "_Z1fIiEDTccT_fp_ET_",
        "decltype (const_cast<int>({parm#1})) f<int>(int)",
    ),
    (
        "_Z1fIiEDTrcT_fp_ET_",
        "decltype (reinterpret_cast<int>({parm#1})) f<int>(int)",
    ),
    ("_Z1fIiEDTtiT_ET_", "decltype (typeid (int)) f<int>(int)"),
    (
        "_Z1fIiEDTtefp_ET_",
        "decltype (typeid ({parm#1})) f<int>(int)",
    ),
    ("_Z2f2IiEvDTatT_E", "void f2<int>(decltype (alignof (int)))"),
    (
        "_Z1fIiEDTazfp_ET_",
        "decltype (alignof ({parm#1})) f<int>(int)",
    ),
    (
        "_ZN5test51aIiEEvDTnxcvT__EE",
        "void test5::a<int>(decltype (noexcept (int())))",
    ),
    (
        "_Z1jI1AEDTcldtfp_cvPT_EES1_",
        "decltype (({parm#1}.operator A*)()) j<A>(A)",
    ),
    ("_Z1fIiEDTptT_1aET_", "decltype (int->a) f<int>(int)"),
    (
        "_Z2f1Ii1AEDTdsfp_fp0_ET0_MS2_T_",
        "decltype ({parm#1}.*{parm#2}) f1<int, A>(A, int A::*)",
    ),
    (
        "_ZN5cxx201fENS_1AIXcvPKvadsoiL_ZNS_1qEEEEEE",
        "cxx20::f(cxx20::A<(void const*)(&(cxx20::q.<int at offset 0>))>)",
    ),
    (
        "_Z1fIJiEEDTsZT_EDpT_",
        "decltype (sizeof...(int)) f<int>(int)",
    ),
    (
        "_Z1fIJiEEDTsZfp_EDpT_",
        "decltype (sizeof...({parm#1})) f<int>(int)",
    ),
    ("_Z1fIJiEEDTsPEEDpT_", "decltype (sizeof...()) f<int>(int)"),
    ("_Z1fIJiEEDTspT_EDpT_", "decltype ((int)...) f<int>(int)"),
    (
        "_Z1fIJiEEDTflplfp_EDpT_",
        "decltype ((...+{parm#1})) f<int>(int)",
    ),
    (
        "_Z11unary_rightIJLi1ELi2ELi3EEEv1AIXfrplT_EE",
        "void unary_right<1, 2, 3>(A<((1, 2, 3)+...)>)",
    ),
    (
        "_Z1fIJiiEEDTfLplfp_Li0EEDpT_",
        "decltype (({parm#1}+...+(0))) f<int, int>(int, int)",
    ),
    (
        "_Z1fIJiEEDTfRplT_Li0EEDpT_",
        "decltype (((int)+...+(0))) f<int>(int)",
    ),
    ("_Z1fIiEDTgs1gET_", "decltype (::g) f<int>(int)"),
    ("_Z1fIiEDTsr1aE1gET_", "decltype (a::g) f<int>(int)"),
    (
        "_Z1fIiEDTgssr1a1bIiEE1gET_",
        "decltype (::a::b<int>::g) f<int>(int)",
    ),
    (
        "_Z1fIiEDTsrDtfp_E1xET_",
        "decltype (decltype ({parm#1})::x) f<int>(int)",
    ),
    ("_Z1gI1AEv1SIXadsrT_oncviEE", "void g<A>(S<&(A:: int)>)"),
    ("_Z1fIiEDTdn1gET_", "decltype (~g) f<int>(int)"),
    ("_Z1fIiEDTdnT_ET_", "decltype (~int) f<int>(int)"),
];
