//! Names of what compilers make themselves.

/// Special names of all kinds.
pub static SPECIAL_NAMES: [(&str, &str); 16] = [
    ("_ZTV1a", "{vtable(a)}"),
    ("_ZTT1a", "{vtt(a)}"),
    ("_ZTI1A", "typeinfo for A"),
    ("_ZTS1C", "typeinfo name for C"),
    ("_ZTF1a", "typeinfo fn for a"),
    ("_ZTh8_1fv", "{virtual override thunk({offset(8)}, f())}"),
    (
        "_ZTcv0_n24_h4_1fv",
        "{virtual override thunk({virtual offset(0, -24)}, {offset(4)}, f())}",
    ),
    ("_ZTC1a0_1b", "construction vtable for a-in-b"),
    ("_ZTH1a", "TLS init function for a"),
    ("_ZTW1a", "TLS wrapper function for a"),
    ("_ZGV1a", "guard variable for a"),
    ("_ZGR1a_", "reference temporary #0 for a"),
    ("_ZGR1aZ_", "reference temporary #36 for a"),
    ("_ZGTx1fv", "transaction clone for f()"),
    ("_ZGTn1fv", "non-transaction clone for f()"),
    ("_ZGr8_a$Sb$_c", "java resource a/b.c"),
];
